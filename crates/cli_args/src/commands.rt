//! The commands for clap: their names, their arguments and their help.

use crate::arguments::Argument;
use crate::help::{
    ALWAYS, BANKED, BOUNDS, BROKEN_WORD, BUDGET, BY_CAUSE, CHOICES_OF, COUNT, DRAW,
    DRAW_OF_SCHEDULE, FILE, FIRST, HANGS, HANGS_OF_RUN, HANGS_OF_RUNS, HEX, HISTORY, INPUTS,
    INPUTS_OF_SCHEDULE, JOBS, JSON, JSON_LINES, MUST_EXIT, NEVER_BOTH, OUTCOMES, PREEMPTIONS,
    REFUSALS, REFUSE, RULE, SC_REFUSALS, SECONDS, SHARED_RANGE, STEPS_OF_CAMPAIGN, SUMMARY, TOTAL,
    UNTIL_FAILURE, WAYS_OUT, WITHIN, WORDS, WORLDS, WRITTEN,
};

/// Which options name the choices of a command's run.
#[derive(Clone, Copy)]
pub(crate) enum Schedule {
    /// None: it runs nothing, or makes the choices itself.
    None,
    /// All, but standard input has something else.
    File,
    /// All, and `--choices -` is standard input.
    FileOrInput,
}

/// A command.
#[derive(Clone, Copy)]
pub(crate) struct CommandRow {
    /// The name.
    pub(crate) name: &'static str,
    /// What the command does.
    pub(crate) does: &'static str,
    /// What help ends with; its last line is an example.
    pub(crate) example: &'static str,
    /// The arguments, in the order in which help lists them.
    pub(crate) arguments: &'static [Argument],
    /// The options that name the choices of its run, which help lists behind them.
    pub(crate) schedule: Schedule,
}

/// The commands, in the order in which help lists them. Each stands behind a function of its own: the
/// check of one function that knows all of their texts has too many steps.
pub(crate) fn commands() -> [&'static CommandRow; 14] {
    [
        asm_row(),
        list_row(),
        info_row(),
        run_row(),
        debug_row(),
        gdb_row(),
        threads_row(),
        replay_row(),
        lib_row(),
        campaign_row(),
        explore_row(),
        schedule_row(),
        shrink_row(),
        trace_row(),
    ]
}

static ROW_OF_ASM: CommandRow = CommandRow {
    name: "asm",
    does: "Assembles sources; prints the listing or writes an ELF file",
    example: "Example: rvcons asm --out swap.elf swap.s",
    arguments: &[
        Argument::Lettered("out", 'o', "the ELF file that is written"),
        Argument::Many("IN", "the sources, in order"),
    ],
    schedule: Schedule::None,
};

fn asm_row() -> &'static CommandRow {
    &ROW_OF_ASM
}

static ROW_OF_LIST: CommandRow = CommandRow {
    name: "list",
    does: "Lists the executable segments of an ELF file",
    example: "Example: rvcons list swap.elf",
    arguments: &[Argument::Needed("FILE", "an ELF file")],
    schedule: Schedule::None,
};

fn list_row() -> &'static CommandRow {
    &ROW_OF_LIST
}

static ROW_OF_INFO: CommandRow = CommandRow {
    name: "info",
    does: "Shows the entry, the segments, the symbols and the library's object of an ELF file",
    example: "Example: rvcons info swap.elf",
    arguments: &[
        Argument::Flag("by-address", "show the symbols by rising address"),
        Argument::Flag("json", JSON),
        Argument::Needed("FILE", "an ELF file"),
    ],
    schedule: Schedule::None,
};

fn info_row() -> &'static CommandRow {
    &ROW_OF_INFO
}

static ROW_OF_RUN: CommandRow = CommandRow {
    name: "run",
    does: "Runs a program under a schedule and prints how each hart ends",
    example: "Example: rvcons run --hex row1.hex --inputs 7,9 --choices row1.choices",
    arguments: &[
        Argument::Flag("hex", HEX),
        Argument::Needed("FILE", FILE),
        Argument::NeededOption("inputs", INPUTS),
        Argument::Optional("rule", RULE),
        Argument::Flag("must-exit", MUST_EXIT),
        Argument::Flag("hangs", HANGS_OF_RUN),
        Argument::Optional("never-both", NEVER_BOTH),
        Argument::Optional("always", ALWAYS),
        Argument::Flag("json", JSON),
    ],
    schedule: Schedule::FileOrInput,
};

fn run_row() -> &'static CommandRow {
    &ROW_OF_RUN
}

static ROW_OF_DEBUG: CommandRow = CommandRow {
    name: "debug",
    does: "Goes forward and back in a run, by commands of standard input",
    example: "Example: echo 'go' | rvcons debug swap.elf --inputs 7,9 --choices swap.choices",
    arguments: &[
        Argument::Needed("FILE", FILE),
        Argument::NeededOption("inputs", INPUTS),
    ],
    schedule: Schedule::File,
};

fn debug_row() -> &'static CommandRow {
    &ROW_OF_DEBUG
}

static ROW_OF_GDB: CommandRow = CommandRow {
    name: "gdb",
    does: "Lets GDB go forward and back in a run, by its remote protocol on standard input",
    example: "Example: gdb-multiarch swap.elf -ex 'target remote | rvcons gdb swap.elf --inputs 7,9 --choices swap.choices'",
    arguments: &[
        Argument::Needed("FILE", FILE),
        Argument::NeededOption("inputs", INPUTS),
    ],
    schedule: Schedule::File,
};

fn gdb_row() -> &'static CommandRow {
    &ROW_OF_GDB
}

static ROW_OF_THREADS: CommandRow = CommandRow {
    name: "threads",
    does: "Runs each hart in a thread of its own and prints how each one ends",
    example: "Example: rvcons threads lrsc.elf --inputs 3,5,7,9 --budget 100 --refuse 0:7 --history lrsc.history --rule lrsc",
    arguments: &[
        Argument::Needed("FILE", FILE),
        Argument::NeededOption("inputs", INPUTS),
        Argument::NeededOption("budget", BUDGET),
        Argument::Optional("total", TOTAL),
        Argument::Optional("refuse", REFUSE),
        Argument::Optional("history", WRITTEN),
        Argument::Optional("rule", RULE),
        Argument::Flag("must-exit", MUST_EXIT),
        Argument::Flag("banked", BANKED),
    ],
    schedule: Schedule::None,
};

fn threads_row() -> &'static CommandRow {
    &ROW_OF_THREADS
}

static ROW_OF_REPLAY: CommandRow = CommandRow {
    name: "replay",
    does: "Runs a program under a history and prints how each hart ends",
    example: "Example: rvcons replay lrsc.elf --inputs 3,5,7,9 --history lrsc.history --rule lrsc",
    arguments: &[
        Argument::Needed("FILE", FILE),
        Argument::NeededOption("inputs", INPUTS),
        Argument::NeededOption("history", HISTORY),
        Argument::Optional("rule", RULE),
        Argument::Flag("must-exit", MUST_EXIT),
    ],
    schedule: Schedule::None,
};

fn replay_row() -> &'static CommandRow {
    &ROW_OF_REPLAY
}

static ROW_OF_LIB: CommandRow = CommandRow {
    name: "lib",
    does: "Prints the source of an object of the library",
    example: "Example: rvcons lib swap",
    arguments: &[Argument::Object("K")],
    schedule: Schedule::None,
};

fn lib_row() -> &'static CommandRow {
    &ROW_OF_LIB
}

static ROW_OF_CAMPAIGN: CommandRow = CommandRow {
    name: "campaign",
    does: "Runs a program under random schedules and prints a line for each seed",
    example: "If a program has few worlds, rvcons explore decides for all schedules at once.\n\nExample: rvcons campaign swap.elf --inputs 7,9 --first 0 --count 1000 --steps 40 --rule swap",
    arguments: &[
        Argument::Needed("FILE", FILE),
        Argument::NeededOption("inputs", INPUTS),
        Argument::NeededUnless("first", "preemptions", FIRST),
        Argument::NeededUnless("count", "preemptions", COUNT),
        Argument::NeededOption("steps", STEPS_OF_CAMPAIGN),
        Argument::Optional("rule", RULE),
        Argument::Flag("failures", "print the lines of bad seeds alone"),
        Argument::Flag("until-failure", UNTIL_FAILURE),
        Argument::Flag("summary", SUMMARY),
        Argument::Flag("outcomes", OUTCOMES),
        Argument::Flag("by-cause", BY_CAUSE),
        Argument::Optional("word", WORDS),
        Argument::Optional("schedule", DRAW),
        Argument::Optional("within", WITHIN),
        Argument::Optional("refusals", REFUSALS),
        Argument::Flag("must-exit", MUST_EXIT),
        Argument::Flag("hangs", HANGS_OF_RUNS),
        Argument::Optional("never-both", NEVER_BOTH),
        Argument::Optional("always", ALWAYS),
        Argument::Optional("jobs", JOBS),
        Argument::Optional("seconds", SECONDS),
        Argument::Optional("preemptions", PREEMPTIONS),
        Argument::With("choices-of", "preemptions", CHOICES_OF),
        Argument::Flag("json", JSON_LINES),
    ],
    schedule: Schedule::None,
};

fn campaign_row() -> &'static CommandRow {
    &ROW_OF_CAMPAIGN
}

static ROW_OF_EXPLORE: CommandRow = CommandRow {
    name: "explore",
    does: "Decides for all schedules of a program at once whether one fails, and prints it",
    example: "If a program has too many worlds, rvcons campaign tries single schedules.\n\nExample: rvcons explore swap.elf --inputs 7,9 --rule swap",
    arguments: &[
        Argument::Needed("FILE", FILE),
        Argument::NeededOption("inputs", INPUTS),
        Argument::Optional("rule", RULE),
        Argument::Optional("refusals", SC_REFUSALS),
        Argument::Optional("worlds", WORLDS),
        Argument::Flag("must-exit", WAYS_OUT),
        Argument::Optional("never-both", NEVER_BOTH),
        Argument::Optional("always", ALWAYS),
        Argument::Flag("bounds", BOUNDS),
        Argument::Flag("json", JSON),
    ],
    schedule: Schedule::None,
};

fn explore_row() -> &'static CommandRow {
    &ROW_OF_EXPLORE
}

static ROW_OF_SCHEDULE: CommandRow = CommandRow {
    name: "schedule",
    does: "Prints the choices of a seed, of turns, or of one hart alone",
    example: "Example: rvcons schedule --harts 2 --steps 40 --seed 5",
    arguments: &[
        Argument::NeededOption("harts", "how many harts there are: 1 to 32"),
        Argument::NeededOption("steps", "how many choices are printed, below 2^32"),
        Argument::Optional("seed", "draw them as a campaign draws those of this seed"),
        Argument::Flag("turns", "let the harts take turns"),
        Argument::Optional("only", "let this hart, from 0 on, take all steps"),
        Argument::Optional("schedule", DRAW_OF_SCHEDULE),
        Argument::Optional("within", WITHIN),
        Argument::Optional("refusals", REFUSALS),
        Argument::Optional("inputs", INPUTS_OF_SCHEDULE),
        Argument::Allowed(
            "FILE",
            "with priorities:DEPTH or mixed: the program, an ELF file",
        ),
    ],
    schedule: Schedule::None,
};

fn schedule_row() -> &'static CommandRow {
    &ROW_OF_SCHEDULE
}

static ROW_OF_SHRINK: CommandRow = CommandRow {
    name: "shrink",
    does: "Prints a minimal choice text under which a program fails in the same way",
    example: "Example: rvcons shrink swap.elf --inputs 7,9 --choices seed.choices --rule swap",
    arguments: &[
        Argument::Needed("FILE", FILE),
        Argument::NeededOption("inputs", INPUTS),
        Argument::Optional("rule", RULE),
        Argument::Flag("must-exit", HANGS),
        Argument::Optional("never-both", SHARED_RANGE),
        Argument::Optional("always", BROKEN_WORD),
    ],
    schedule: Schedule::FileOrInput,
};

fn shrink_row() -> &'static CommandRow {
    &ROW_OF_SHRINK
}

static ROW_OF_TRACE: CommandRow = CommandRow {
    name: "trace",
    does: "Prints what each choice of a run did: a line of JSON for each, or a table",
    example: "Example: rvcons trace swap.elf --inputs 7,9 --choices seed.choices --table",
    arguments: &[
        Argument::Flag("hex", HEX),
        Argument::Needed("FILE", FILE),
        Argument::NeededOption("inputs", INPUTS),
        Argument::Optional("from", "the first choice that is told, counted from 0"),
        Argument::Optional("to", "the choice before which the trace ends"),
        Argument::Flag(
            "table",
            "print a table in Markdown, with a column for each hart",
        ),
        Argument::Flag(
            "shared",
            "print the rows of that table alone that access memory",
        ),
        Argument::Optional("word", "print the choices alone that access this word"),
    ],
    schedule: Schedule::FileOrInput,
};

fn trace_row() -> &'static CommandRow {
    &ROW_OF_TRACE
}
