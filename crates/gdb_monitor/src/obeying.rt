//! Does the commands.
ghost use Rattle.std.specs.Prelude.{◌≡◌, ◌≤◌, IfOk, OnErr, string_bytes};
ghost use Rattle.debug_session.specs.Session.{session, length_of};
ghost use Rattle.gdb_monitor.specs.Monitoring.{monitoring, moves_to, shows_schedule, obeyed, monitored};
ghost use Rattle.gdb_monitor.specs.declared.command.Command.TheVariants as commands;
ghost use Rattle.gdb_monitor.specs.declared.monitored.Motion.TheVariants.{Stayed};

use crate::command::{Command, read_command};
use crate::harts_text::harts_text;
use crate::monitored::{Monitored, Motion};
use crate::position_text::position_text;
use crate::schedule_text::schedule_text;
use debug_session::Debugger;
use std::alloc::{AllocError, Allocator};

// The number of choices before the position that `schedule` shows, and of those from it on.
const BEFORE: usize = 4;

const BEHIND: usize = 8;

// Shows a text without a move.
fn say<A: Allocator + Copy>(alloc: A, words: &str) -> Result<Monitored<A>, AllocError>
    ensures text { IfOk result (λ m. string_bytes m.text ≡ words.now) }
    ensures motion { IfOk result (λ m. m.motion ≡ Stayed) }
{
    let mut text = String::new(alloc);
    text.push_str(words)?;
    Ok(Monitored {
        text,
        motion: Motion::Stayed,
    })
}

// Moves to a position that exists, and shows it. The text is made before the move.
fn go_to<A: Allocator + Copy>(
    alloc: A,
    debugger: &mut Debugger<A>,
    target: usize,
) -> Result<Monitored<A>, AllocError>
    requires { target ≤ length_of (session debugger.old) }
    ensures ok { IfOk result (λ m. moves_to (session debugger.old) target
        ≡ monitoring m (session debugger.new)) }
    ensures err { OnErr result (session debugger.new ≡ session debugger.old) }
{
    let text = position_text(alloc, debugger.choices(), target)?;
    let Ok(()) = debugger.goto(alloc, target) else {
        return Err(AllocError);
    };
    Ok(Monitored {
        text,
        motion: Motion::Moved,
    })
}

// `goto K`.
#[tactic(auto, unfolding(crate::specs::Monitoring::obeyed))]
fn obey_goto<A: Allocator + Copy>(
    alloc: A,
    debugger: &mut Debugger<A>,
    k: u64,
) -> Result<Monitored<A>, AllocError>
    ensures ok { IfOk result (λ m. obeyed (session debugger.old) (commands.Goto k)
        ≡ monitoring m (session debugger.new)) }
    ensures err { OnErr result (session debugger.new ≡ session debugger.old) }
{
    if k > debugger.choices().len() as u64 {
        return say(alloc, "past end\n");
    }
    go_to(alloc, debugger, k as usize)
}

// `forward N`.
#[tactic(auto, unfolding(crate::specs::Monitoring::obeyed))]
fn obey_forward<A: Allocator + Copy>(
    alloc: A,
    debugger: &mut Debugger<A>,
    n: u64,
) -> Result<Monitored<A>, AllocError>
    ensures ok { IfOk result (λ m. obeyed (session debugger.old) (commands.Forward n)
        ≡ monitoring m (session debugger.new)) }
    ensures err { OnErr result (session debugger.new ≡ session debugger.old) }
{
    let position = debugger.position();
    if n > (debugger.choices().len() - position) as u64 {
        return say(alloc, "past end\n");
    }
    go_to(alloc, debugger, position + n as usize)
}

// `back N`.
#[tactic(auto, unfolding(crate::specs::Monitoring::obeyed))]
fn obey_back<A: Allocator + Copy>(
    alloc: A,
    debugger: &mut Debugger<A>,
    n: u64,
) -> Result<Monitored<A>, AllocError>
    ensures ok { IfOk result (λ m. obeyed (session debugger.old) (commands.Back n)
        ≡ monitoring m (session debugger.new)) }
    ensures err { OnErr result (session debugger.new ≡ session debugger.old) }
{
    let position = debugger.position();
    if n > position as u64 {
        return say(alloc, "past end\n");
    }
    go_to(alloc, debugger, position - n as usize)
}

// Shows the steps of the choices from index `from` to `to - 1`.
fn show_schedule<A: Allocator + Copy>(
    alloc: A,
    debugger: &Debugger<A>,
    from: usize,
    to: usize,
) -> Result<Monitored<A>, AllocError>
    requires from { from ≤ length_of (session debugger.now) }
    requires to { to ≤ length_of (session debugger.now) }
    ensures { IfOk result (λ m. shows_schedule (session debugger.now) from to
        ≡ monitoring m (session debugger.now)) }
{
    let Ok(views) = debugger.steps(alloc, from, to) else {
        return Err(AllocError);
    };
    Ok(Monitored {
        text: schedule_text(alloc, debugger.position(), &views)?,
        motion: Motion::Stayed,
    })
}

// `schedule`.
#[tactic(auto, unfolding(crate::specs::Monitoring::obeyed))]
fn obey_nearby<A: Allocator + Copy>(
    alloc: A,
    debugger: &Debugger<A>,
) -> Result<Monitored<A>, AllocError>
    ensures { IfOk result (λ m. obeyed (session debugger.now) commands.Nearby
        ≡ monitoring m (session debugger.now)) }
{
    let position = debugger.position();
    let left = debugger.choices().len() - position;
    let from = position.saturating_sub(BEFORE);
    show_schedule(alloc, debugger, from, position + left.min(BEHIND))
}

// `schedule A B`.
#[tactic(auto, unfolding(crate::specs::Monitoring::obeyed))]
fn obey_schedule<A: Allocator + Copy>(
    alloc: A,
    debugger: &Debugger<A>,
    from: u64,
    to: u64,
) -> Result<Monitored<A>, AllocError>
    ensures { IfOk result (λ m. obeyed (session debugger.now) (commands.Schedule from to)
        ≡ monitoring m (session debugger.now)) }
{
    let length = debugger.choices().len() as u64;
    if from > length || to > length {
        return say(alloc, "past end\n");
    }
    show_schedule(alloc, debugger, from as usize, to as usize)
}

// `where`.
#[tactic(auto, unfolding(crate::specs::Monitoring::obeyed))]
fn obey_where<A: Allocator + Copy>(
    alloc: A,
    debugger: &Debugger<A>,
) -> Result<Monitored<A>, AllocError>
    ensures { IfOk result (λ m. obeyed (session debugger.now) commands.Where
        ≡ monitoring m (session debugger.now)) }
{
    Ok(Monitored {
        text: position_text(alloc, debugger.choices(), debugger.position())?,
        motion: Motion::Stayed,
    })
}

// `harts`.
#[tactic(auto, unfolding(crate::specs::Monitoring::obeyed))]
fn obey_harts<A: Allocator + Copy>(
    alloc: A,
    debugger: &Debugger<A>,
) -> Result<Monitored<A>, AllocError>
    ensures { IfOk result (λ m. obeyed (session debugger.now) commands.Harts
        ≡ monitoring m (session debugger.now)) }
{
    Ok(Monitored {
        text: harts_text(alloc, debugger)?,
        motion: Motion::Stayed,
    })
}

/// Does a command, and returns its text; a position past the end is a text too. Fails when out of
/// memory, and then nothing has changed.
#[tactic(auto, unfolding(crate::specs::Monitoring::obeyed))]
pub fn obey<A: Allocator + Copy>(
    alloc: A,
    debugger: &mut Debugger<A>,
    command: Command,
) -> Result<Monitored<A>, AllocError>
    ensures ok { IfOk result (λ m. obeyed (session debugger.old) command
        ≡ monitoring m (session debugger.new)) }
    ensures err { OnErr result (session debugger.new ≡ session debugger.old) }
{
    match command {
        Command::Where => obey_where(alloc, debugger),
        Command::Goto(k) => obey_goto(alloc, debugger, k),
        Command::Forward(n) => obey_forward(alloc, debugger, n),
        Command::Back(n) => obey_back(alloc, debugger, n),
        Command::Nearby => obey_nearby(alloc, debugger),
        Command::Schedule { from, to } => obey_schedule(alloc, debugger, from, to),
        Command::Harts => obey_harts(alloc, debugger),
        Command::Help => {
            let words = "where, goto K, forward [N], back [N], schedule [A B], harts\n";
            say(alloc, words)
        }
    }
}

/// Does the command of a line, and returns its text; a line that is no command is answered too.
/// Fails when out of memory, and then nothing has changed.
pub fn monitor<A: Allocator + Copy>(
    alloc: A,
    debugger: &mut Debugger<A>,
    line: &[u8],
) -> Result<Monitored<A>, AllocError>
    ensures ok { IfOk result (λ m. monitored (session debugger.old) line.now
        ≡ monitoring m (session debugger.new)) }
    ensures err { OnErr result (session debugger.new ≡ session debugger.old) }
{
    match read_command(line) {
        Some(command) => obey(alloc, debugger, command),
        None => say(alloc, "bad command\n"),
    }
}
