//! Runs `explore`.

ghost use Rattle.std.specs.Prelude.{◌-◌, ◌<◌, ◌^◌};

use crate::exiting::exit_of;
use crate::properties::{PropertyTexts, listed, read_properties};
use byte_io::{MemorySource, Progress, Source, Status};
use cli_orders::ExploreOrder;
use cli_report::{
    Audience, EndsTold, Explained, RunFiles, WIPE, bad_line, explain_ends, inputs_said, open_one,
    print_text, read_again, rule_said, say_why, show, wipe_line,
};
use cli_values::{WORLDS, read_worlds};
use cmd_campaign::{Expect, Properties};
use cmd_explore::{
    Always, Explored, Finding, Form, OwnBounds, Question, Section, explore_engine, read_refusals,
    undecided_object,
};
use hint_breaks::breaks_of_run;
use object_library::Kind;
use program_open::{CommandFault, ProgramForm};
use property_judge::Property;
use std::alloc::{AllocError, Global};
use std::rt::{Clock, Files};
use std::time::Instant;

// Whether bounds are asked for, with or without `--bounds`.
fn bounds_of(bounds: bool) -> OwnBounds {
    if bounds {
        OwnBounds::Asked
    } else {
        OwnBounds::NotAsked
    }
}

// The form in which an order is answered.
fn form_of(order: &ExploreOrder) -> Form {
    if order.json { Form::Json } else { Form::Text }
}

// How many worlds are looked at before a person is told again.
const WORLDS_AT_ONCE: u64 = 1 << 16;

// Shows a person how far an exploration is.
#[derive(Drop)]
struct Line<'a, R> {
    rt: &'a R,
    audience: Audience,
    // When the exploration began, if the clock tells.
    began: Option<Instant>,
    // Whether anything was shown.
    is_shown: bool,
}

impl<'a, R: Clock> Line<'a, R> {
    // The whole seconds since the exploration began.
    fn seconds(&self) -> u64 {
        let elapsed = match self.began {
            Some(began) => began.elapsed(self.rt).ok(),
            None => None,
        };
        match elapsed {
            Some(elapsed) => elapsed.as_secs(),
            None => 0,
        }
    }
}

impl<'a, R: Eprint + Clock> Progress for Line<'a, R> {
    fn worlds_done(&mut self, done: u64, found: u64, depth: u64) {
        if done % WORLDS_AT_ONCE == 0 && self.audience.sees_progress() {
            self.is_shown = true;
            let rate = match done.checked_div(self.seconds()) {
                Some(rate) => rate,
                None => done,
            };
            // If standard error is closed, nobody sees it.
            let _ = eprint!(self.rt;
                "{WIPE}{done} worlds done, of {found} found so far; {depth} turns deep; {rate} a second"
            );
        }
    }
}

// What an order asks but for its properties, or the status of an invalid line.
fn read_question<R: Print + Eprint>(rt: &R, order: &ExploreOrder) -> Result<Question, Status> {
    let rule = rule_said(rt, order.rule)?;
    let Some(refusals) = read_refusals(order.refusals) else {
        return Err(bad_line(rt, "--refusals of explore takes never"));
    };
    let Some(worlds) = read_worlds(order.worlds) else {
        return Err(bad_line(rt, WORLDS));
    };
    let exit = exit_of(order.must_exit);
    Ok(Question {
        expect: Expect { rule, exit },
        always: None,
        never_both: None,
        bounds: bounds_of(order.bounds),
        refusals,
        most: worlds as usize,
    })
}

// What a property says of a word, if it says something of one.
fn word_said(property: Option<Property>) -> Option<Always> {
    match property {
        Some(
            Property::Always {
                word,
                comparison,
                number,
            },
        ) => Some(Always {
            word,
            comparison,
            number,
        }),
        Some(Property::NeverBoth { .. }) | None => None,
    }
}

// The section of code that a property is of, if it is of one.
fn section_said(property: Option<Property>) -> Option<Section> {
    match property {
        Some(Property::NeverBoth { from, to }) => Some(Section { from, to }),
        Some(Property::Always { .. }) | None => None,
    }
}

/// Decides whether some schedule of a program fails, and prints a list of choices that does. A
/// person sees more of that list.
pub fn obey_explore<R: Files + AllocGlobal + Print + Eprint + Clock>(
    rt: &R,
    audience: Audience,
    order: &ExploreOrder,
) -> Result<Status, Status> {
    let question = read_question(rt, order)?;
    let inputs = inputs_said(rt, order.inputs)?;
    let mut program = open_one(rt, audience, order.file)?;
    if order.has_properties() {
        answer_judged(rt, audience, order, &inputs, question, &mut program)
    } else {
        let none = Properties::NONE;
        answer(rt, audience, order, &inputs, question, none, &mut program)
    }
}

// Reads the program, since the order's properties may name its symbols, and answers.
fn answer_judged<R: Files + AllocGlobal + Print + Eprint + Clock, P: Source>(
    rt: &R,
    audience: Audience,
    order: &ExploreOrder,
    inputs: &[u32],
    question: Question,
    program: &mut P,
) -> Result<Status, Status>
    requires { P.failures program.old < 2 ^ 64 - 1 }
{
    let texts = PropertyTexts::of_explore(order);
    let (bytes, properties) = read_properties(rt, audience, order.file, texts, inputs, program)?;
    let mut question = question;
    question.never_both = section_said(properties.first);
    question.always = word_said(properties.second);
    let mut source = MemorySource::new(&bytes);
    answer(
        rt,
        audience,
        order,
        inputs,
        question,
        properties,
        &mut source,
    )
}

// Decides a question of a program, and prints the answer. A person sees the progress, and where a
// list breaks these properties, which are the question's.
fn answer<R: Files + AllocGlobal + Print + Eprint + Clock, P: Source>(
    rt: &R,
    audience: Audience,
    order: &ExploreOrder,
    inputs: &[u32],
    question: Question,
    properties: Properties,
    program: &mut P,
) -> Result<Status, Status>
    requires { P.failures program.old < 2 ^ 64 - 1 }
{
    let mut line = Line {
        rt,
        audience,
        began: Instant::now(rt).ok(),
        is_shown: false,
    };
    let answer = explore_engine(
        rt.alloc(),
        inputs,
        form_of(order),
        question,
        program,
        &mut line,
    );
    if line.is_shown {
        wipe_line(rt, audience);
    }
    match answer {
        Ok(found) => {
            let rule = question.expect.rule;
            tell(rt, audience, order, inputs, rule, properties, &found)
        }
        Err(CommandFault::Undecided(most)) => {
            Err(tell_undecided(rt, audience, order, inputs.len(), most))
        }
        Err(fault) => Err(tell_fault(rt, audience, order, inputs.len(), fault)),
    }
}

// Reports that there are more worlds than so many, and prints an object that says so, if it is
// asked for.
fn tell_undecided<R: Files + AllocGlobal + Print + Eprint>(
    rt: &R,
    audience: Audience,
    order: &ExploreOrder,
    harts: usize,
    most: usize,
) -> Status {
    let printed = match form_of(order) {
        Form::Text => Ok(()),
        Form::Json => match undecided_object(rt.alloc(), most) {
            Ok(text) => print_text(rt, &text),
            Err(AllocError) => Err(CommandFault::Memory),
        },
    };
    let fault = match printed {
        Ok(()) => CommandFault::Undecided(most),
        Err(fault) => fault,
    };
    tell_fault(rt, audience, order, harts, fault)
}

// Prints the answer, and explains it to a person.
fn tell<R: Files + AllocGlobal + Print + Eprint>(
    rt: &R,
    audience: Audience,
    order: &ExploreOrder,
    inputs: &[u32],
    rule: Option<Kind>,
    properties: Properties,
    found: &Explored<Global>,
) -> Result<Status, Status> {
    if let Err(fault) = print_text(rt, &found.text) {
        return Err(tell_fault(rt, audience, order, inputs.len(), fault));
    }
    if audience.is_told() && !order.json {
        let _ = explain_list(rt, order, inputs, rule, properties, found);
    }
    Ok(found.status)
}

// Reports why there is no answer.
fn tell_fault<R: Files + AllocGlobal + Eprint>(
    rt: &R,
    audience: Audience,
    order: &ExploreOrder,
    harts: usize,
    fault: CommandFault,
) -> Status {
    say_why(rt, audience, RunFiles::of_program(order.file, harts), fault)
}

// Shows how long a failing list is, explains how its run ends, and where it breaks these properties.
fn explain_list<R: Files + AllocGlobal + Eprint>(
    rt: &R,
    order: &ExploreOrder,
    inputs: &[u32],
    rule: Option<Kind>,
    properties: Properties,
    found: &Explored<Global>,
) -> Option<()> {
    let (does, turns) = match found.finding {
        Finding::Holds => return None,
        Finding::Fails(turns) => ("fail", turns),
        Finding::Hangs(turns) => ("hang", turns),
    };
    eprintln!(rt;
        "these choices {does}, in {turns} turns, each a choice and the local steps behind it; no list of fewer choices {does}s.\n\
         To look into it, write >failing.choices behind the command, and then\n    \
         rvcons debug {} --inputs {} --choices failing.choices",
        order.file, order.inputs
    )
    .ok()?;
    if let Finding::Hangs(_) = found.finding {
        return eprintln!(rt;
            "From the world that they lead to no list of choices leads to one in which no hart runs."
        ).ok();
    }
    let program = read_again(rt, order.file)?;
    explain_ends(
        rt,
        ProgramForm::Elf,
        &program,
        inputs,
        &found.text,
        Explained {
            ends: EndsTold::Faults,
            rule,
        },
    )?;
    let properties = listed(rt.alloc(), properties).ok()?;
    let text = breaks_of_run(rt.alloc(), &program, inputs, &found.text, &properties)?;
    show(rt, &text);
    Some(())
}
