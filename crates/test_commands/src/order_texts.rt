//! What is read of a command line, as a text: its command, and the texts of its arguments by their
//! names.
use cli_args::{ChoiceText, RunOrder, SeedText};
use cli_orders::{
    AsmOrder, CampaignOrder, DebugOrder, ExploreOrder, InfoOrder, LibOrder, ListOrder, Locks,
    Order, ReplayOrder, ScheduleOrder, ShrinkOrder, ThreadsOrder, TraceOrder,
};
use std::alloc::{AllocError, Global};

// The arguments of an order: their names and texts; `None` for one that isn't given.
type Fields<'a> = &'a [(&'a str, Option<&'a str>)];

// The text of a flag.
fn flag(is_set: bool) -> Option<&'static str> {
    if is_set { Some("yes") } else { None }
}

// Appends arguments.
fn push_fields(text: &mut String, fields: Fields<'_>) -> Result<(), AllocError> {
    for (name, value) in fields {
        if let Some(value) = value {
            write!(text, " {name}={value}")?;
        }
    }
    Ok(())
}

// The text of a command with these arguments.
fn text_with(alloc: Global, command: &str, fields: Fields<'_>) -> Result<String, AllocError> {
    let mut text = String::new(alloc);
    text.push_str(command)?;
    push_fields(&mut text, fields)?;
    Ok(text)
}

// Appends the arguments that name the choices.
fn push_choices(text: &mut String, choices: ChoiceText<'_>) -> Result<(), AllocError> {
    match choices {
        ChoiceText::File(path) => push_fields(text, &[("choices", Some(path))]),
        ChoiceText::Input => push_fields(text, &[("choices", Some("-"))]),
        ChoiceText::List(list) => push_fields(text, &[("list", Some(list))]),
        ChoiceText::Turns(steps) => push_fields(text, &[("turns", Some(steps))]),
        ChoiceText::History(path) => push_fields(text, &[("history", Some(path))]),
        ChoiceText::Seed(said) => push_seed(text, said),
    }
}

// Appends the arguments of a seed's choices.
fn push_seed(text: &mut String, said: SeedText<'_>) -> Result<(), AllocError> {
    let fields = &[
        ("seed", Some(said.seed)),
        ("steps", Some(said.steps)),
        ("schedule", said.draw),
        ("within", said.within),
        ("refusals", said.refusals),
    ];
    push_fields(text, fields)
}

/// The text of an order.
pub(crate) fn order_text(alloc: Global, order: &Order) -> Result<String, AllocError> {
    match order {
        Order::Asm(order) => asm_text(alloc, order),
        Order::List(order) => list_text(alloc, order),
        Order::Info(order) => info_text(alloc, order),
        Order::Run(order) => run_text(alloc, order),
        Order::Debug(order) => debug_text(alloc, "debug", order),
        Order::Gdb(order) => debug_text(alloc, "gdb", order),
        Order::Threads(order) => threads_text(alloc, order),
        Order::Replay(order) => replay_text(alloc, order),
        Order::Lib(order) => lib_text(alloc, order),
        Order::Campaign(order) => campaign_text(alloc, order),
        Order::Explore(order) => explore_text(alloc, order),
        Order::Schedule(order) => schedule_text(alloc, order),
        Order::Shrink(order) => shrink_text(alloc, order),
        Order::Trace(order) => trace_text(alloc, order),
    }
}

fn asm_text(alloc: Global, order: &AsmOrder) -> Result<String, AllocError> {
    let mut text = text_with(alloc, "asm", &[("out", order.out)])?;
    for source in &order.sources {
        write!(text, " IN={source}")?;
    }
    Ok(text)
}

fn list_text(alloc: Global, order: &ListOrder) -> Result<String, AllocError> {
    text_with(alloc, "list", &[("FILE", Some(order.file))])
}

fn info_text(alloc: Global, order: &InfoOrder) -> Result<String, AllocError> {
    let fields = &[
        ("by-address", flag(order.by_address)),
        ("json", flag(order.json)),
        ("FILE", Some(order.file)),
    ];
    text_with(alloc, "info", fields)
}

fn run_text(alloc: Global, order: &RunOrder) -> Result<String, AllocError> {
    let fields = &[
        ("hex", flag(order.hex)),
        ("FILE", Some(order.file)),
        ("inputs", Some(order.inputs)),
    ];
    let mut text = text_with(alloc, "run", fields)?;
    push_choices(&mut text, order.choices)?;
    let fields = &[
        ("rule", order.rule),
        ("must-exit", flag(order.must_exit)),
        ("hangs", flag(order.hangs)),
        ("never-both", order.never_both),
        ("always", order.always),
        ("json", flag(order.json)),
    ];
    push_fields(&mut text, fields)?;
    Ok(text)
}

fn debug_text(alloc: Global, command: &str, order: &DebugOrder) -> Result<String, AllocError> {
    let fields = &[("FILE", Some(order.file)), ("inputs", Some(order.inputs))];
    let mut text = text_with(alloc, command, fields)?;
    push_choices(&mut text, order.choices)?;
    Ok(text)
}

fn threads_text(alloc: Global, order: &ThreadsOrder) -> Result<String, AllocError> {
    let fields = &[
        ("FILE", Some(order.file)),
        ("inputs", Some(order.inputs)),
        ("budget", Some(order.budget)),
        ("total", order.total),
        ("refuse", order.refuse),
        ("history", order.history),
        ("rule", order.rule),
        ("must-exit", flag(order.must_exit)),
        ("banked", flag(order.locks == Locks::Banks)),
    ];
    text_with(alloc, "threads", fields)
}

fn replay_text(alloc: Global, order: &ReplayOrder) -> Result<String, AllocError> {
    let fields = &[
        ("FILE", Some(order.file)),
        ("inputs", Some(order.inputs)),
        ("history", Some(order.history)),
        ("rule", order.rule),
        ("must-exit", flag(order.must_exit)),
    ];
    text_with(alloc, "replay", fields)
}

fn lib_text(alloc: Global, order: &LibOrder) -> Result<String, AllocError> {
    text_with(alloc, "lib", &[("K", Some(order.object))])
}

fn campaign_text(alloc: Global, order: &CampaignOrder) -> Result<String, AllocError> {
    let fields = &[
        ("FILE", Some(order.file)),
        ("inputs", Some(order.inputs)),
        ("first", order.first),
        ("count", order.count),
        ("steps", Some(order.steps)),
        ("rule", order.rule),
        ("failures", flag(order.failures)),
        ("until-failure", flag(order.until_failure)),
        ("summary", flag(order.summary)),
        ("outcomes", flag(order.outcomes)),
        ("by-cause", flag(order.by_cause)),
        ("word", order.word),
        ("schedule", order.draw),
        ("within", order.within),
        ("refusals", order.refusals),
        ("must-exit", flag(order.must_exit)),
        ("hangs", flag(order.hangs)),
        ("never-both", order.never_both),
        ("always", order.always),
        ("jobs", order.jobs),
        ("seconds", order.seconds),
        ("preemptions", order.preemptions),
        ("choices-of", order.choices_of),
        ("json", flag(order.json)),
    ];
    text_with(alloc, "campaign", fields)
}

fn explore_text(alloc: Global, order: &ExploreOrder) -> Result<String, AllocError> {
    let fields = &[
        ("FILE", Some(order.file)),
        ("inputs", Some(order.inputs)),
        ("rule", order.rule),
        ("refusals", order.refusals),
        ("worlds", order.worlds),
        ("must-exit", flag(order.must_exit)),
        ("never-both", order.never_both),
        ("always", order.always),
        ("bounds", flag(order.bounds)),
        ("json", flag(order.json)),
    ];
    text_with(alloc, "explore", fields)
}

fn schedule_text(alloc: Global, order: &ScheduleOrder) -> Result<String, AllocError> {
    let fields = &[
        ("harts", Some(order.harts)),
        ("steps", Some(order.steps)),
        ("seed", order.seed),
        ("turns", flag(order.turns)),
        ("only", order.only),
        ("schedule", order.draw),
        ("within", order.within),
        ("refusals", order.refusals),
        ("inputs", order.inputs),
        ("FILE", order.file),
    ];
    text_with(alloc, "schedule", fields)
}

fn shrink_text(alloc: Global, order: &ShrinkOrder) -> Result<String, AllocError> {
    let fields = &[("FILE", Some(order.file)), ("inputs", Some(order.inputs))];
    let mut text = text_with(alloc, "shrink", fields)?;
    push_choices(&mut text, order.choices)?;
    let fields = &[
        ("rule", order.rule),
        ("must-exit", flag(order.must_exit)),
        ("never-both", order.never_both),
        ("always", order.always),
    ];
    push_fields(&mut text, fields)?;
    Ok(text)
}

fn trace_text(alloc: Global, order: &TraceOrder) -> Result<String, AllocError> {
    let fields = &[
        ("hex", flag(order.hex)),
        ("FILE", Some(order.file)),
        ("inputs", Some(order.inputs)),
    ];
    let mut text = text_with(alloc, "trace", fields)?;
    push_choices(&mut text, order.choices)?;
    let fields = &[
        ("from", order.from),
        ("to", order.to),
        ("table", flag(order.table)),
        ("shared", flag(order.shared)),
        ("word", order.word),
    ];
    push_fields(&mut text, fields)?;
    Ok(text)
}
