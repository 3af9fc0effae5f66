//! Does the commands.
ghost use Rattle.std.specs.Prelude.{◌≡◌, ◌≢◌, ◌≤◌, Ok, Err, IfOk, IfErr, OnErr, codes, string_bytes};
ghost use Rattle.debug_session.specs.Session.{session, length_of, next_found, earlier_found};
ghost use Rattle.debug_text.specs.Reply.{reply, reply_outcome, choices_to, hart_here, shows_move, shows_goto, shows_forward, shows_back, shows_step, shows_break, shows_watch, shows_delete, shows_found, shows_steps, shows_listing, shows_code, shows_hart, shows_registers, shows_cells};

use crate::answer::Answer;
use crate::code_text::code_text;
use crate::commands::Command;
use crate::fault::DebugFault;
use crate::help::help_text;
use crate::memory_text::cells_text;
use crate::register_names::RegisterList;
use crate::registers_text::{hart_text, register_lines};
use crate::steps_text::steps_text;
use crate::texts::{break_text, delete_text, found_text, position_text, watch_text};
use debug_session::{Debugger, MoveFault, WatchKind};
use elf_read::Symbol;
use std::alloc::Allocator;

// The greatest number of words that `mem` shows.
const MOST_WORDS: u64 = 64;

// Moves to a position that exists, and shows it. The text is made before the move.
fn go_to<A: Allocator + Copy>(
    alloc: A,
    debugger: &mut Debugger<A>,
    target: usize,
) -> Result<Answer<A>, DebugFault>
    requires { target ≤ length_of (session debugger.old) }
    ensures ok { IfOk result (λ answer. shows_move (session debugger.old) target
        ≡ Ok (reply_outcome answer (session debugger.new))) }
    ensures unchanged { OnErr result (session debugger.new ≡ session debugger.old) }
    ensures fault { IfErr result (λ fault. fault ≡ DebugFault.Memory) }
{
    let Ok(text) = position_text(alloc, target, debugger.choices().len()) else {
        return Err(DebugFault::Memory);
    };
    match debugger.goto(alloc, target) {
        Ok(()) => Ok(Answer::Text(text)),
        Err(_) => Err(DebugFault::Memory),
    }
}

fn obey_goto<A: Allocator + Copy>(
    alloc: A,
    debugger: &mut Debugger<A>,
    k: u64,
) -> Result<Answer<A>, DebugFault>
    ensures ok { IfOk result (λ answer. shows_goto (session debugger.old) k
        ≡ Ok (reply_outcome answer (session debugger.new))) }
    ensures unchanged { OnErr result (session debugger.new ≡ session debugger.old) }
    ensures fault { IfErr result (λ fault. fault ≢ DebugFault.Memory
        → shows_goto (session debugger.old) k ≡ Err fault) }
{
    if k > debugger.choices().len() as u64 {
        return Err(DebugFault::PastEnd);
    }
    go_to(alloc, debugger, k as usize)
}

fn obey_forward<A: Allocator + Copy>(
    alloc: A,
    debugger: &mut Debugger<A>,
    n: u64,
) -> Result<Answer<A>, DebugFault>
    ensures ok { IfOk result (λ answer. shows_forward (session debugger.old) n
        ≡ Ok (reply_outcome answer (session debugger.new))) }
    ensures unchanged { OnErr result (session debugger.new ≡ session debugger.old) }
    ensures fault { IfErr result (λ fault. fault ≢ DebugFault.Memory
        → shows_forward (session debugger.old) n ≡ Err fault) }
{
    let position = debugger.position();
    if n > (debugger.choices().len() - position) as u64 {
        return Err(DebugFault::PastEnd);
    }
    go_to(alloc, debugger, position + n as usize)
}

fn obey_back<A: Allocator + Copy>(
    alloc: A,
    debugger: &mut Debugger<A>,
    n: u64,
) -> Result<Answer<A>, DebugFault>
    ensures ok { IfOk result (λ answer. shows_back (session debugger.old) n
        ≡ Ok (reply_outcome answer (session debugger.new))) }
    ensures unchanged { OnErr result (session debugger.new ≡ session debugger.old) }
    ensures fault { IfErr result (λ fault. fault ≢ DebugFault.Memory
        → shows_back (session debugger.old) n ≡ Err fault) }
{
    let position = debugger.position();
    if n > position as u64 {
        return Err(DebugFault::PastEnd);
    }
    go_to(alloc, debugger, position - n as usize)
}

// Number of choices from the position on up to the next one of a hart, and that one; one more than
// are left if there is none.
fn choices_to<A: Allocator + Copy>(debugger: &Debugger<A>, hart: u64) -> u64
    ensures { result ≡ choices_to (session debugger.now) hart }
{
    let (_, left) = debugger.choices().split_at(debugger.position());
    let mut count = 1u64;
    'choices: for choice in left {
        if u64::from(choice.hart) == hart {
            return count;
        }
        count += 1;
    }
    count
}

// `step H`.
fn obey_step<A: Allocator + Copy>(
    alloc: A,
    debugger: &mut Debugger<A>,
    hart: u64,
) -> Result<Answer<A>, DebugFault>
    ensures ok { IfOk result (λ answer. shows_step (session debugger.old) hart
        ≡ Ok (reply_outcome answer (session debugger.new))) }
    ensures unchanged { OnErr result (session debugger.new ≡ session debugger.old) }
    ensures fault { IfErr result (λ fault. fault ≢ DebugFault.Memory
        → shows_step (session debugger.old) hart ≡ Err fault) }
{
    if hart >= debugger.machine().harts() as u64 {
        return Err(DebugFault::BadCommand);
    }
    let count = choices_to(debugger, hart);
    obey_forward(alloc, debugger, count)
}

fn obey_break<A: Allocator + Copy>(
    alloc: A,
    debugger: &mut Debugger<A>,
    address: u32,
) -> Result<Answer<A>, DebugFault>
    ensures ok { IfOk result (λ answer. shows_break (session debugger.old) address
        ≡ Ok (reply_outcome answer (session debugger.new))) }
    ensures unchanged { OnErr result (session debugger.new ≡ session debugger.old) }
    ensures fault { IfErr result (λ fault. fault ≡ DebugFault.Memory) }
{
    let Ok(text) = break_text(alloc, address) else {
        return Err(DebugFault::Memory);
    };
    match debugger.add_break(address) {
        Ok(()) => Ok(Answer::Text(text)),
        Err(_) => Err(DebugFault::Memory),
    }
}

fn obey_watch<A: Allocator + Copy>(
    alloc: A,
    debugger: &mut Debugger<A>,
    kind: WatchKind,
    address: u32,
) -> Result<Answer<A>, DebugFault>
    ensures ok { IfOk result (λ answer. shows_watch (session debugger.old) kind address
        ≡ Ok (reply_outcome answer (session debugger.new))) }
    ensures unchanged { OnErr result (session debugger.new ≡ session debugger.old) }
    ensures fault { IfErr result (λ fault. fault ≡ DebugFault.Memory) }
{
    let Ok(text) = watch_text(alloc, kind, address - address % 4) else {
        return Err(DebugFault::Memory);
    };
    match debugger.add_watch(kind, address) {
        Ok(()) => Ok(Answer::Text(text)),
        Err(_) => Err(DebugFault::Memory),
    }
}

fn obey_delete<A: Allocator + Copy>(
    alloc: A,
    debugger: &mut Debugger<A>,
    address: u32,
) -> Result<Answer<A>, DebugFault>
    ensures ok { IfOk result (λ answer. shows_delete (session debugger.old) address
        ≡ Ok (reply_outcome answer (session debugger.new))) }
    ensures unchanged { OnErr result (session debugger.new ≡ session debugger.old) }
    ensures fault { IfErr result (λ fault. fault ≡ DebugFault.Memory) }
{
    let Ok(text) = delete_text(alloc, address) else {
        return Err(DebugFault::Memory);
    };
    debugger.remove_points(address);
    Ok(Answer::Text(text))
}

// `go`. The text is made between the search and the move, which cannot fail.
fn obey_go<A: Allocator + Copy>(
    alloc: A,
    debugger: &mut Debugger<A>,
) -> Result<Answer<A>, DebugFault>
    ensures ok { IfOk result (λ answer.
        shows_found (session debugger.old) (codes "end") (next_found (session debugger.old))
        ≡ Ok (reply_outcome answer (session debugger.new))) }
    ensures unchanged { OnErr result (session debugger.new ≡ session debugger.old) }
    ensures fault { IfErr result (λ fault. fault ≡ DebugFault.Memory) }
{
    let Ok(target) = debugger.next_stop(alloc) else {
        return Err(DebugFault::Memory);
    };
    let length = debugger.choices().len();
    let Ok(text) = found_text(alloc, "end", target.reason(), target.position(), length) else {
        return Err(DebugFault::Memory);
    };
    debugger.settle(target);
    Ok(Answer::Text(text))
}

// `rgo`, like `go`.
fn obey_rgo<A: Allocator + Copy>(
    alloc: A,
    debugger: &mut Debugger<A>,
) -> Result<Answer<A>, DebugFault>
    ensures ok { IfOk result (λ answer. shows_found (session debugger.old) (codes "start")
        (earlier_found (session debugger.old))
        ≡ Ok (reply_outcome answer (session debugger.new))) }
    ensures unchanged { OnErr result (session debugger.new ≡ session debugger.old) }
    ensures fault { IfErr result (λ fault. fault ≡ DebugFault.Memory) }
{
    let Ok(target) = debugger.earlier_stop(alloc) else {
        return Err(DebugFault::Memory);
    };
    let length = debugger.choices().len();
    let Ok(text) = found_text(alloc, "start", target.reason(), target.position(), length) else {
        return Err(DebugFault::Memory);
    };
    debugger.settle(target);
    Ok(Answer::Text(text))
}

// `steps A B`.
fn obey_steps<A: Allocator + Copy>(
    alloc: A,
    debugger: &Debugger<A>,
    from: u64,
    to: u64,
) -> Result<Answer<A>, DebugFault>
    ensures ok { IfOk result (λ answer. shows_steps (session debugger.now) from to
        ≡ Ok (reply_outcome answer (session debugger.now))) }
    ensures fault { IfErr result (λ fault. fault ≢ DebugFault.Memory
        → shows_steps (session debugger.now) from to ≡ Err fault) }
{
    let length = debugger.choices().len() as u64;
    if from > length || to > length {
        return Err(DebugFault::PastEnd);
    }
    let Ok(views) = debugger.steps(alloc, from as usize, to as usize) else {
        return Err(DebugFault::Memory);
    };
    match steps_text(alloc, &views) {
        Ok(text) => Ok(Answer::Text(text)),
        Err(_) => Err(DebugFault::Memory),
    }
}

// `list`, or `list H`.
fn obey_listing<A: Allocator + Copy>(
    alloc: A,
    debugger: &Debugger<A>,
    symbols: &[Symbol<A>],
    hart: Option<u64>,
) -> Result<Answer<A>, DebugFault>
    ensures ok { IfOk result (λ answer. shows_listing symbols.now (session debugger.now) hart
        ≡ Ok (reply_outcome answer (session debugger.now))) }
    ensures fault { IfErr result (λ fault. fault ≢ DebugFault.Memory
        → shows_listing symbols.now (session debugger.now) hart ≡ Err fault) }
{
    if let Some(number) = hart {
        return list_hart(alloc, debugger, symbols, number);
    }
    match debugger.choices().get(debugger.position()) {
        Some(choice) => list_hart(alloc, debugger, symbols, u64::from(choice.hart)),
        None => Err(DebugFault::PastEnd),
    }
}

// The instructions around the `pc` of a hart.
fn list_hart<A: Allocator + Copy>(
    alloc: A,
    debugger: &Debugger<A>,
    symbols: &[Symbol<A>],
    number: u64,
) -> Result<Answer<A>, DebugFault>
    ensures ok { IfOk result (λ answer.
        shows_code symbols.now (session debugger.now) number (hart_here (session debugger.now) number)
        ≡ Ok (reply_outcome answer (session debugger.now))) }
    ensures fault { IfErr result (λ fault. fault ≢ DebugFault.Memory
        → shows_code symbols.now (session debugger.now) number
        (hart_here (session debugger.now) number) ≡ Err fault) }
{
    let machine = debugger.machine();
    if number >= machine.harts() as u64 {
        return Err(DebugFault::BadCommand);
    }
    let hart = machine.hart(number as usize);
    match code_text(alloc, symbols, machine.store(), number as usize, hart) {
        Ok(text) => Ok(Answer::Text(text)),
        Err(_) => Err(DebugFault::Memory),
    }
}

// `regs H`.
fn obey_regs<A: Allocator + Copy>(
    alloc: A,
    debugger: &Debugger<A>,
    number: u64,
) -> Result<Answer<A>, DebugFault>
    ensures ok { IfOk result (λ answer. shows_hart (session debugger.now) number (hart_here (session debugger.now) number)
        ≡ Ok (reply_outcome answer (session debugger.now))) }
    ensures fault { IfErr result (λ fault. fault ≢ DebugFault.Memory
        → shows_hart (session debugger.now) number (hart_here (session debugger.now) number) ≡ Err fault) }
{
    let machine = debugger.machine();
    if number >= machine.harts() as u64 {
        return Err(DebugFault::BadCommand);
    }
    match hart_text(alloc, number as usize, machine.hart(number as usize)) {
        Ok(text) => Ok(Answer::Text(text)),
        Err(_) => Err(DebugFault::Memory),
    }
}

// `regs H NAME..`.
fn obey_registers<A: Allocator + Copy>(
    alloc: A,
    debugger: &Debugger<A>,
    number: u64,
    list: &RegisterList,
) -> Result<Answer<A>, DebugFault>
    ensures ok { IfOk result (λ answer.
        shows_registers (session debugger.now) list.now (hart_here (session debugger.now) number)
        ≡ Ok (reply_outcome answer (session debugger.now))) }
    ensures fault { IfErr result (λ fault. fault ≢ DebugFault.Memory
        → shows_registers (session debugger.now) list.now
        (hart_here (session debugger.now) number) ≡ Err fault) }
{
    let machine = debugger.machine();
    if number >= machine.harts() as u64 {
        return Err(DebugFault::BadCommand);
    }
    match register_lines(alloc, machine.hart(number as usize), list) {
        Ok(text) => Ok(Answer::Text(text)),
        Err(_) => Err(DebugFault::Memory),
    }
}

// `mem A N`.
fn obey_mem<A: Allocator + Copy>(
    alloc: A,
    debugger: &Debugger<A>,
    address: u32,
    count: u64,
) -> Result<Answer<A>, DebugFault>
    ensures ok { IfOk result (λ answer. shows_cells (session debugger.now) address count
        ≡ Ok (reply_outcome answer (session debugger.now))) }
    ensures fault { IfErr result (λ fault. fault ≢ DebugFault.Memory
        → shows_cells (session debugger.now) address count ≡ Err fault) }
{
    if count == 0 || count > MOST_WORDS {
        return Err(DebugFault::BadCommand);
    }
    let store = debugger.machine().store();
    match cells_text(alloc, store, address - address % 4, count) {
        Ok(text) => Ok(Answer::Text(text)),
        Err(_) => Err(DebugFault::Memory),
    }
}

/// Does a command, and returns its text, with the labels of these symbols. After a fault nothing
/// has changed.
#[tactic(auto, unfolding(crate::specs::Reply::reply))]
pub fn obey<A: Allocator + Copy>(
    alloc: A,
    debugger: &mut Debugger<A>,
    symbols: &[Symbol<A>],
    command: Command,
) -> Result<Answer<A>, DebugFault>
    ensures ok { IfOk result (λ answer. reply symbols.now (session debugger.old) command
        ≡ Ok (reply_outcome answer (session debugger.new))) }
    ensures unchanged { OnErr result (session debugger.new ≡ session debugger.old) }
    ensures fault { IfErr result (λ fault. fault ≢ DebugFault.Memory
        → reply symbols.now (session debugger.old) command ≡ Err fault) }
{
    match command {
        Command::Nothing => Ok(Answer::Text(String::new(alloc))),
        Command::Help => match help_text(alloc) {
            Ok(text) => Ok(Answer::Text(text)),
            Err(_) => Err(DebugFault::Memory),
        },
        Command::Where => {
            let position = debugger.position();
            match position_text(alloc, position, debugger.choices().len()) {
                Ok(text) => Ok(Answer::Text(text)),
                Err(_) => Err(DebugFault::Memory),
            }
        }
        Command::Goto(k) => obey_goto(alloc, debugger, k),
        Command::Forward(n) => obey_forward(alloc, debugger, n),
        Command::Back(n) => obey_back(alloc, debugger, n),
        Command::Step(number) => obey_step(alloc, debugger, number),
        Command::Break(address) => obey_break(alloc, debugger, address),
        Command::Watch { kind, address } => obey_watch(alloc, debugger, kind, address),
        Command::Delete(address) => obey_delete(alloc, debugger, address),
        Command::Go => obey_go(alloc, debugger),
        Command::Rgo => obey_rgo(alloc, debugger),
        Command::Steps { from, to } => obey_steps(alloc, debugger, from, to),
        Command::Listing(hart) => obey_listing(alloc, debugger, symbols, hart),
        Command::Regs(number) => obey_regs(alloc, debugger, number),
        Command::Registers { hart, list } => obey_registers(alloc, debugger, hart, &list),
        Command::Mem { address, count } => obey_mem(alloc, debugger, address, count),
        Command::Quit => Ok(Answer::Quit),
    }
}
