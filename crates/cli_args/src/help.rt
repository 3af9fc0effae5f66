//! The help texts of arguments.

/// Of `FILE`.
pub(crate) const FILE: &str = "the program, an ELF file";

/// Of `--hex`.
pub(crate) const HEX: &str = "FILE holds words of eight hexadecimal digits";

/// Of `--inputs`.
pub(crate) const INPUTS: &str = "one decimal input below 2^32 for each hart, as 7,9";

/// Of `--choices`.
pub(crate) const CHOICES: &str =
    "a file of hart numbers, one for each step, as 0 1 0!; ! refuses a store-conditional";

/// Of `--choices` where standard input is free.
pub(crate) const CHOICES_OR_INPUT: &str =
    "a file of hart numbers, one for each step, as 0 1 0!; ! refuses a store-conditional; - is standard input";

/// Of `--list`.
pub(crate) const LIST: &str = "the choices themselves, in place of a file, as '0*3 1 0!'";

/// Of `--seed` in place of choices.
pub(crate) const SEED: &str = "the choices that a campaign draws from this seed; with --steps";

/// Of `--steps` beside it.
pub(crate) const STEPS: &str = "how many choices the seed draws, below 2^32";

/// Of `--turns` in place of choices.
pub(crate) const TURNS: &str = "the harts take turns, for so many choices, below 2^32";

/// Of `--history` in place of choices.
pub(crate) const HISTORY_OF_CHOICES: &str =
    "the choices of a history, which rvcons threads --history writes";

/// Of `--history` where it is read.
pub(crate) const HISTORY: &str =
    "a file of entries, each a hart, + and its local steps before one more step, as 0+3 1+0!; ! refuses a store-conditional";

/// Of `--explain`.
pub(crate) const EXPLAINED: &str =
    "when faults are explained on standard error: always, never, or auto, which is at a terminal";

/// Of `--rule`.
pub(crate) const RULE: &str = "also judge the rule of an object, named as lib has it";

/// Of `--schedule` of a campaign.
pub(crate) const DRAW: &str =
    "how a seed draws its choices: even, bursts:MEAN, each of one hart, priorities:DEPTH, or mixed";

/// Of `--within`.
pub(crate) const WITHIN: &str =
    "with priorities:DEPTH or mixed: the first steps, so many, in which priorities change; all of --steps is usual";

/// Of `--refusals`.
pub(crate) const REFUSALS: &str =
    "how often drawn choices refuse a store-conditional: never, or one-in:N in the mean; one-in:16 is usual";

/// Of `--refusals` of `explore`.
pub(crate) const SC_REFUSALS: &str =
    "never: leave out schedules that refuse a store-conditional that could succeed";

/// Of `--worlds`.
pub(crate) const WORLDS: &str = "the most worlds that are looked at, below 2^32; 1000000 is usual";

/// Of `--must-exit` of a run or a campaign.
pub(crate) const MUST_EXIT: &str = "a hart that still runs at the end is a failure, with status 3";

/// Of `--hangs` of a run.
pub(crate) const HANGS_OF_RUN: &str =
    "decide whether the run hangs, which is a failure, with status 7: given as many steps more, a hart still runs";

/// Of `--hangs` of a campaign.
pub(crate) const HANGS_OF_RUNS: &str =
    "decide of each run whether it hangs, which is a failure, with status 7: given as many steps more, a hart still runs";

/// Of `--never-both`.
pub(crate) const NEVER_BOTH: &str =
    "two addresses or symbols, as enter..leave: two harts between them at once are a failure, with status 4";

/// Of `--always`.
pub(crate) const ALWAYS: &str =
    "a word, a comparison and a number, as 'counter <= 2': a choice after which that isn't so is a failure, with status 4";

/// Of `--never-both` of `shrink`.
pub(crate) const SHARED_RANGE: &str =
    "two addresses or symbols, as enter..leave: two harts between them at once are a failure";

/// Of `--always` of `shrink`.
pub(crate) const BROKEN_WORD: &str =
    "a word, a comparison and a number, as 'counter <= 2': a choice after which that isn't so is a failure";

/// Of `--json`.
pub(crate) const JSON: &str = "print one object of JSON, with the same facts";

/// Of `--must-exit` of `explore`.
pub(crate) const WAYS_OUT: &str =
    "a list after which no list lets all harts stop is a failure, with status 3";

/// Of `--json` of `campaign`.
pub(crate) const JSON_LINES: &str = "print each line as an object of JSON, with the same facts";

/// Of `--bounds` of `explore`.
pub(crate) const BOUNDS: &str =
    "also print after how many own steps each hart has stopped, in every schedule";

/// Of `--must-exit` of a shrinking.
pub(crate) const HANGS: &str =
    "a run that hangs is a failure: given as many steps more, a hart still runs";

/// Of `--until-failure`.
pub(crate) const UNTIL_FAILURE: &str = "stop at the first bad seed, and print its line alone";

/// Of `--summary`.
pub(crate) const SUMMARY: &str =
    "print how many seeds end in which way, in place of a line for each";

/// Of `--outcomes`.
pub(crate) const OUTCOMES: &str =
    "with --summary: tell ends apart by the a0 and a1 of each hart that has exited, too";

/// Of `--by-cause`.
pub(crate) const BY_CAUSE: &str =
    "with --summary: tell ends apart by the cause and the pc of each fault, too";

/// Of `--word` of `campaign`.
pub(crate) const WORDS: &str =
    "with --summary --outcomes: one to four words, as counter,turn: tell ends apart by their values, too";

/// Of `--first` of `campaign`.
pub(crate) const FIRST: &str =
    "the first seed; with --preemptions the first schedule, 0 if not said";

/// Of `--count` of `campaign`.
pub(crate) const COUNT: &str =
    "how many seeds; with --preemptions how many schedules, all if not said";

/// Of `--steps` of `campaign`.
pub(crate) const STEPS_OF_CAMPAIGN: &str =
    "how many steps for each seed; with --preemptions how many choices at most";

/// Of `--preemptions`.
pub(crate) const PREEMPTIONS: &str =
    "in place of seeds run every schedule in which a hart is left at most so often though it could go on";

/// Of `--choices-of`.
pub(crate) const CHOICES_OF: &str = "with --preemptions: print the choices of this schedule alone";

/// Of `--jobs`.
pub(crate) const JOBS: &str =
    "how many threads do the runs, 1 to 64; as suits the processors is usual";

/// Of `--seconds`.
pub(crate) const SECONDS: &str =
    "how many seconds the runs may take: then it ends with the seeds that are done, and says how many";

/// Of `--schedule` of `schedule`.
pub(crate) const DRAW_OF_SCHEDULE: &str =
    "how a seed draws them: even, bursts:MEAN, each of one hart, or in a run of FILE: priorities:DEPTH, or mixed";

/// Of `--inputs` of `schedule`.
pub(crate) const INPUTS_OF_SCHEDULE: &str =
    "with priorities:DEPTH or mixed: one decimal input below 2^32 for each hart, as 7,9";

/// Of `--budget`.
pub(crate) const BUDGET: &str = "how many steps each hart may take, below 2^32";

/// Of `--total`.
pub(crate) const TOTAL: &str =
    "how many steps all harts may take together, below 2^32: when they are taken, each hart ends";

/// Of `--refuse`.
pub(crate) const REFUSE: &str =
    "which store-conditionals are refused: pairs of a hart and the number of its step from 0, as 0:7,1:3";

/// Of `--history` where it is written.
pub(crate) const WRITTEN: &str = "the file that the history is written to";

/// Of `--banked`.
pub(crate) const BANKED: &str =
    "a lock for each of sixteen banks of memory, in place of one lock for all";
