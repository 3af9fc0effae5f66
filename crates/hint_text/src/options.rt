//! The commands with their options and an example, and names of other tools with what to write
//! here.

/// A command.
#[derive(Clone, Copy)]
pub(crate) struct Row {
    pub(crate) name: &'static str,
    pub(crate) options: &'static [&'static str],
    pub(crate) example: &'static str,
}

/// The commands.
pub(crate) const COMMANDS: [Row; 14] = [
    Row {
        name: "asm",
        options: &["--out", "-o"],
        example: "rvcons asm --out prog.elf prog.s",
    },
    Row {
        name: "list",
        options: &[],
        example: "rvcons list prog.elf",
    },
    Row {
        name: "info",
        options: &["--by-address", "--json"],
        example: "rvcons info prog.elf",
    },
    Row {
        name: "run",
        options: &[
            "--hex",
            "--inputs",
            "--choices",
            "--list",
            "--seed",
            "--turns",
            "--history",
            "--steps",
            "--schedule",
            "--within",
            "--refusals",
            "--rule",
            "--must-exit",
            "--hangs",
            "--never-both",
            "--always",
            "--json",
        ],
        example: "rvcons run prog.elf --inputs 7,9 --choices turns.choices",
    },
    Row {
        name: "debug",
        options: &[
            "--inputs",
            "--choices",
            "--list",
            "--seed",
            "--turns",
            "--history",
            "--steps",
            "--schedule",
            "--within",
            "--refusals",
        ],
        example: "rvcons debug prog.elf --inputs 7,9 --choices turns.choices",
    },
    Row {
        name: "gdb",
        options: &[
            "--inputs",
            "--choices",
            "--list",
            "--seed",
            "--turns",
            "--history",
            "--steps",
            "--schedule",
            "--within",
            "--refusals",
        ],
        example: "rvcons gdb prog.elf --inputs 7,9 --choices turns.choices",
    },
    Row {
        name: "threads",
        options: &[
            "--inputs",
            "--budget",
            "--total",
            "--refuse",
            "--history",
            "--rule",
            "--must-exit",
            "--banked",
        ],
        example: "rvcons threads prog.elf --inputs 7,9 --budget 1000 --history out.history",
    },
    Row {
        name: "replay",
        options: &["--inputs", "--history", "--rule", "--must-exit"],
        example: "rvcons replay prog.elf --inputs 7,9 --history out.history",
    },
    Row {
        name: "lib",
        options: &[],
        example: "rvcons lib swap",
    },
    Row {
        name: "campaign",
        options: &[
            "--inputs",
            "--first",
            "--count",
            "--steps",
            "--rule",
            "--failures",
            "--until-failure",
            "--summary",
            "--outcomes",
            "--by-cause",
            "--schedule",
            "--within",
            "--refusals",
            "--must-exit",
            "--hangs",
            "--never-both",
            "--always",
            "--jobs",
            "--seconds",
            "--preemptions",
            "--choices-of",
            "--json",
        ],
        example: "rvcons campaign prog.elf --inputs 7,9 --first 1 --count 1000 --steps 300",
    },
    Row {
        name: "explore",
        options: &[
            "--inputs",
            "--rule",
            "--refusals",
            "--worlds",
            "--must-exit",
            "--never-both",
            "--always",
            "--bounds",
            "--json",
        ],
        example: "rvcons explore prog.elf --inputs 7,9",
    },
    Row {
        name: "schedule",
        options: &[
            "--harts",
            "--steps",
            "--seed",
            "--turns",
            "--only",
            "--schedule",
            "--within",
            "--refusals",
            "--inputs",
        ],
        example: "rvcons schedule --harts 2 --steps 300 --seed 5 >seed_5.choices",
    },
    Row {
        name: "shrink",
        options: &[
            "--inputs",
            "--choices",
            "--list",
            "--seed",
            "--turns",
            "--history",
            "--steps",
            "--schedule",
            "--within",
            "--refusals",
            "--rule",
            "--must-exit",
            "--never-both",
            "--always",
        ],
        example: "rvcons shrink prog.elf --inputs 7,9 --seed 5 --steps 300 >few.choices",
    },
    Row {
        name: "trace",
        options: &[
            "--hex",
            "--inputs",
            "--choices",
            "--list",
            "--seed",
            "--turns",
            "--history",
            "--steps",
            "--schedule",
            "--within",
            "--refusals",
            "--from",
            "--to",
            "--table",
            "--shared",
            "--word",
        ],
        example: "rvcons trace prog.elf --inputs 7,9 --choices turns.choices --table",
    },
];

/// Options that a command doesn't have, with what to write.
pub(crate) const OTHER_OPTIONS: [(&[&str], &str); 14] = [
    (
        &["--seed", "--seeds", "--random"],
        "run, trace, shrink and debug take a seed's choices by --seed S --steps M; campaign takes seeds by --first and --count",
    ),
    (
        &["--schedule", "--choice", "--order", "--interleaving"],
        "the schedule is choices: write --list '0*3 1*2', --choices FILE, --turns M, or --seed S --steps M",
    ),
    (
        &["--input", "--args", "--arg", "-i"],
        "inputs stand together: write --inputs 7,9, one for each hart",
    ),
    (
        &["--harts", "--cores", "--cpus", "-n"],
        "there is a hart for each input: --inputs 7,9 makes two",
    ),
    (
        &["--steps", "--max-steps", "--limit"],
        "a run takes as many steps as its choices: write --turns M, or --seed S --steps M",
    ),
    (
        &["--turns", "--only"],
        "rvcons schedule makes such choices: rvcons schedule --harts 2 --steps 100 --only 1 >FILE, and --choices FILE",
    ),
    (
        &["--output", "-o"],
        "asm writes a file by --out OUT; the other commands print, so write >FILE",
    ),
    (
        &["--history"],
        "threads writes a history by --history OUT, and replay runs one",
    ),
    (
        &["--file", "--program", "--elf", "-f"],
        "the program's file stands without an option, behind the command",
    ),
    (
        &["--budget"],
        "a budget is of threads alone: run takes the steps of --choices, campaign those of --steps",
    ),
    (
        &["--trace", "--verbose", "-v"],
        "rvcons trace prints what each choice did; rvcons debug shows the steps that you ask for: its command steps A B",
    ),
    (
        &["--json", "--markdown", "--md", "--format"],
        "rvcons trace prints lines of JSON, and with --table a table in Markdown; run, info and explore print an object by --json, campaign one for each line",
    ),
    (
        &["--begin", "--end", "--range", "--from", "--to"],
        "choices from A to B - 1, counted from 0, are told by rvcons trace --from A --to B",
    ),
    (
        &["--first", "--count"],
        "only campaign runs many seeds; run takes one by --seed S --steps M",
    ),
];

/// Commands that don't exist, with what to write.
pub(crate) const OTHER_COMMANDS: [(&[&str], &str); 9] = [
    (&["assemble", "as", "build", "compile"], "asm"),
    (&["disasm", "objdump", "dump", "disassemble"], "list"),
    (&["readelf", "nm", "symbols", "show"], "info"),
    (&["exec", "start", "sim", "simulate"], "run"),
    (&["step"], "debug"),
    (&["fuzz", "test", "check", "random"], "campaign"),
    (&["choices", "seed"], "schedule"),
    (&["tell", "log", "record"], "trace"),
    (&["library", "object"], "lib"),
];
