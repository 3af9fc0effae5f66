//! Calls whose answers were worked by hand.
ghost use Rattle.std.specs.Prelude.{◌+◌, ◌≤◌, ◌^◌};

use byte_io::Status;
use cmd_campaign::{Campaign, Form, Hangs, Properties, Report, Words};
use cmd_explore::{OwnBounds, Question};
use cmd_run::FileView;
use cmd_schedule::SeedPlan;
use cmd_trace::{TraceForm, TracePlan};
use explore_space::ScRefusals;
use object_library::Kind;
use outcome::{Exit, Expect};
use page_calls::{
    Reply, Told, assemble_call, campaign_call, debug_call, explain_call, explore_call, file_call,
    listing_call, run_call, schedule_call, shrink_call, trace_call,
};
use program_open::ProgramForm;
use sched_draw::{ChangePoints, Draw, Order, Refusals};
use std::alloc::Allocator;
use test_images::{EXITS, EXITS_FACTS, EXITS_LISTING};

/// A program that is run by one hart with the input 7.
#[derive(Clone, Copy)]
pub(crate) struct Run {
    /// The form of the program.
    pub(crate) form: ProgramForm,
    /// The program.
    pub(crate) program: &'static [u8],
    /// The choice text.
    pub(crate) choices: &'static str,
    /// The rule, if there is one.
    pub(crate) rule: Option<Kind>,
}

impl Run {
    // What is expected of it.
    fn expect(self) -> Expect {
        Expect {
            rule: self.rule,
            exit: Exit::May,
        }
    }
}

/// A call of the page.
#[derive(Clone, Copy)]
pub(crate) enum Asked {
    /// The ELF file of a source.
    File(&'static str),
    /// The listing of a source.
    Listing(&'static str),
    /// What is wrong with a source.
    Explained(&'static str),
    /// What is shown of an ELF file.
    Shown(FileView, &'static [u8]),
    /// How a run ends.
    Ends(Run),
    /// What each choice of a run did.
    Table(Run),
    /// So many choices that a seed draws for a file, none of which is refused.
    Drawn(&'static [u8], u64),
    /// The choices of a run that its failure needs.
    Shrunk(Run),
    /// What a campaign of three seeds of two steps each reports of a file.
    Campaign(Report, &'static [u8]),
    /// What is found of every schedule of a run's program, of at most so many worlds.
    Every(Run, usize),
    /// A session with these commands.
    Session(Run, &'static str),
}

/// What a call answers.
#[derive(Clone, Copy)]
pub(crate) enum Wanted {
    /// This text and status.
    Prints(&'static str, Status),
    /// This text of a fault, and its status.
    Faults(&'static str, Status),
}

impl Wanted {
    /// The text that stands in the output.
    pub(crate) fn text(self) -> &'static [u8] {
        match self {
            Wanted::Prints(text, _) | Wanted::Faults(text, _) => text.as_bytes(),
        }
    }

    /// The reply where there is room.
    pub(crate) fn reply(self) -> Reply {
        let length = self.text().len();
        match self {
            Wanted::Prints(_, status) => Reply::Answered(Told { length, status }),
            Wanted::Faults(_, status) => Reply::Refused(Told { length, status }),
        }
    }
}

/// Makes a call.
pub(crate) fn made<A: Allocator + Copy>(alloc: A, asked: Asked, out: &mut [u8]) -> Reply {
    match asked {
        Asked::File(source) => assemble_call(alloc, source.as_bytes(), out),
        Asked::Listing(source) => listing_call(alloc, source.as_bytes(), out),
        Asked::Explained(source) => explain_call(alloc, source.as_bytes(), out),
        Asked::Shown(view, file) => file_call(alloc, view, file, out),
        Asked::Ends(run) => {
            let choices = run.choices.as_bytes();
            run_call(
                alloc,
                run.form,
                &[7],
                run.expect(),
                run.program,
                choices,
                out,
            )
        }
        Asked::Table(run) => {
            let plan = TracePlan {
                form: TraceForm::Table,
                from: 0,
                to: None,
                word: None,
            };
            let choices = run.choices.as_bytes();
            trace_call(alloc, run.form, plan, &[7], run.program, choices, out)
        }
        Asked::Drawn(file, steps) => schedule_call(alloc, drawn(steps), &[7], file, out),
        Asked::Shrunk(run) => {
            let choices = run.choices.as_bytes();
            shrink_call(alloc, run.expect(), &[7], run.program, choices, out)
        }
        Asked::Campaign(report, file) => {
            campaign_call(alloc, three_seeds(report), &[7], file, out)
        }
        Asked::Every(run, most) => {
            let question = every(run.expect(), most);
            explore_call(alloc, question, &[7], run.program, out)
        }
        Asked::Session(run, commands) => {
            let (choices, commands) = (run.choices.as_bytes(), commands.as_bytes());
            debug_call(alloc, &[7], run.program, choices, commands, out)
        }
    }
}

// Seeds 5 to 7, of two steps each.
fn three_seeds(report: Report) -> Campaign
    ensures { result.first + result.count ≤ 2 ^ 64 }
{
    Campaign {
        first: 5,
        count: 3,
        steps: 2,
        draw: drawn(2).draw,
        expect: FILE_RUN.expect(),
        properties: Properties::NONE,
        hangs: Hangs::Unasked,
        words: Words::NONE,
        report,
        form: Form::Text,
    }
}

// What is asked of every schedule, with bounds and all refusals.
fn every(expect: Expect, most: usize) -> Question {
    Question {
        expect,
        always: None,
        never_both: None,
        bounds: OwnBounds::Asked,
        refusals: ScRefusals::Also,
        most,
    }
}

// So many even choices of seed 1, none of which is refused.
fn drawn(steps: u64) -> SeedPlan {
    SeedPlan {
        draw: Draw {
            order: Order::Even,
            refusals: Refusals::Never,
            points: ChangePoints::Anywhere,
        },
        steps,
        seed: 1,
    }
}

// addi a7, zero, 93, and ecall.
const EXIT_WORDS: &[u8] = b"05d00893 00000073";

// A run of the file that exits.
#[rattlefmt::skip]
const FILE_RUN: Run = Run { form: ProgramForm::Elf, program: &EXITS, choices: "0*2", rule: None };

// A run of the words that exit.
#[rattlefmt::skip]
const WORDS_RUN: Run = Run { form: ProgramForm::Hex, program: EXIT_WORDS, choices: "0*2", rule: None };

// The same, with a letter among the choices.
#[rattlefmt::skip]
const BAD_CHOICE: Run = Run { form: ProgramForm::Hex, program: EXIT_WORDS, choices: "0 x", rule: None };

// The same under the rule of a swap, which it breaks: nobody proposed 0.
#[rattlefmt::skip]
const UNKEPT: Run = Run { form: ProgramForm::Hex, program: EXIT_WORDS, choices: "0*2", rule: Some(Kind::Swap) };

// An ebreak.
#[rattlefmt::skip]
const BREAKS: Run = Run { form: ProgramForm::Hex, program: b"00100073", choices: "0", rule: None };

// A word that is none.
#[rattlefmt::skip]
const BAD_WORD: Run = Run { form: ProgramForm::Hex, program: b"0010007g", choices: "0", rule: None };

// The file's run under that rule, with choices that do nothing behind.
#[rattlefmt::skip]
const UNKEPT_FILE: Run = Run { form: ProgramForm::Elf, program: &EXITS, choices: "0*5", rule: Some(Kind::Swap) };

// A file that is none.
#[rattlefmt::skip]
const NO_FILE: Run = Run { form: ProgramForm::Elf, program: b"none", choices: "0", rule: None };

const EXITED: &str = "hart 0 exited a0 00000000 a1 00000007\n";

// The hart exits in the one turn that there is: behind its first step, and behind its second.
const HOLDS: &str = "every schedule: 2 worlds
ends exited 1 faulted 0 running 0 0:a0=00000000 0:a1=00000007
hart 0 has stopped after 2 own steps
";

const TABLE: &str = "| Choice | Hart 0 | At |
|---|---|---|
| 0 | `addi a7, zero, 93` a7 = 0x0000005d |  |
| 1 | `ecall` exits with 0x00000000 |  |
";

/// The calls, each with its answer.
#[rattlefmt::skip]
pub(crate) const ROWS: [(Asked, Wanted); 14] = [
    (Asked::Listing("li a7, 93\necall\n"), Wanted::Prints("addi a7, zero, 93  # 00010000 05d00893\necall  # 00010004 00000073\n", Status::Done)),
    (Asked::Listing("ecall\nnop x1\n"), Wanted::Faults("asm fault 3 Operands at 0:2", Status::Refused)),
    (Asked::File("nop x1"), Wanted::Faults("asm fault 3 Operands at 0:1", Status::Refused)),
    (Asked::Explained("ecall\nnop x1\n"), Wanted::Faults("source:2: nop takes nothing, and 1 operands are given\n    nop x1\n    ^^^\n", Status::Refused)),
    (Asked::Shown(FileView::Facts, &EXITS), Wanted::Prints(EXITS_FACTS, Status::Done)),
    (Asked::Shown(FileView::Listing, &EXITS), Wanted::Prints(EXITS_LISTING, Status::Done)),
    (Asked::Shown(FileView::Facts, b"none"), Wanted::Faults("elf fault 1 Short", Status::Refused)),
    (Asked::Ends(FILE_RUN), Wanted::Prints(EXITED, Status::Done)),
    (Asked::Ends(WORDS_RUN), Wanted::Prints(EXITED, Status::Done)),
    (Asked::Ends(UNKEPT), Wanted::Prints("hart 0 exited a0 00000000 a1 00000007\nverdict broken\n", Status::Broken)),
    (Asked::Ends(BREAKS), Wanted::Prints("hart 0 faulted Break pc 00010000\n", Status::Faulted)),
    (Asked::Ends(BAD_CHOICE), Wanted::Faults("choice fault BadChoice at 2", Status::Refused)),
    (Asked::Ends(BAD_WORD), Wanted::Faults("hex fault BadWord at 0", Status::Refused)),
    (Asked::Table(FILE_RUN), Wanted::Prints(TABLE, Status::Done)),
];

/// The calls on choices, each with its answer.
#[rattlefmt::skip]
pub(crate) const CHOICES: [(Asked, Wanted); 15] = [
    (Asked::Campaign(Report::Lines, &EXITS), Wanted::Prints("seed 5 exited 1 faulted 0 running 0\nseed 6 exited 1 faulted 0 running 0\nseed 7 exited 1 faulted 0 running 0\n", Status::Done)),
    (Asked::Campaign(Report::Summary, &EXITS), Wanted::Prints("seeds 3 first 5 exited 1 faulted 0 running 0\n", Status::Done)),
    (Asked::Campaign(Report::Lines, b"none"), Wanted::Faults("elf fault 1 Short", Status::Refused)),
    (Asked::Every(FILE_RUN, 9), Wanted::Prints(HOLDS, Status::Done)),
    (Asked::Every(UNKEPT_FILE, 9), Wanted::Prints("0*2\n", Status::Broken)),
    (Asked::Every(FILE_RUN, 0), Wanted::Faults("not decided: more than 0 worlds", Status::Undecided)),
    (Asked::Every(NO_FILE, 9), Wanted::Faults("elf fault 1 Short", Status::Refused)),
    (Asked::Drawn(&EXITS, 3), Wanted::Prints("0 0 0\n", Status::Done)),
    (Asked::Drawn(b"none", 3), Wanted::Faults("elf fault 1 Short", Status::Refused)),
    (Asked::Shrunk(UNKEPT_FILE), Wanted::Prints("0*2\n", Status::Done)),
    (Asked::Shrunk(FILE_RUN), Wanted::Faults("shrink fault NothingFails", Status::Refused)),
    (Asked::Shrunk(NO_FILE), Wanted::Faults("elf fault 1 Short", Status::Refused)),
    (Asked::Session(FILE_RUN, "where\nstep 0\nregs 9\nforward 2"), Wanted::Prints("step 0 of 2\nstep 1 of 2\nbad command\npast end\n", Status::Done)),
    (Asked::Session(FILE_RUN, "go\nquit\nwhere\n"), Wanted::Prints("end\nstep 2 of 2\n", Status::Done)),
    (Asked::Session(NO_FILE, "where\n"), Wanted::Faults("elf fault 1 Short", Status::Refused)),
];
