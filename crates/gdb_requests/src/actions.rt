//! The actions of threads.
ghost use Rattle.std.specs.Prelude.{◌≡◌, ◌≢◌, Some, None, IfOk, IfErr};
ghost use Rattle.gdb_requests.specs.Actions.{action_of, actions_of, thread_action_of};

use crate::fault::RequestFault;
use crate::operands::{behind_first, pair, threads};
use crate::request::{Action, ThreadAction};
use gdb_frames::hex_value;
use std::alloc::Allocator;
use text_items::split_at_byte;

// An action without its threads.
fn action(text: &[u8]) -> Option<Action>
    ensures { result ≡ action_of text.now }
{
    match text {
        [b'c'] => Some(Action::Continue),
        [b's'] => Some(Action::Step),
        [b'r', range @ ..] => {
            let (from, to) = pair(range)?;
            Some(Action::Range { from, to })
        }
        [letter, first, second] => {
            // The digits are a signal, which no thread gets.
            let _ = hex_value(*first)?;
            let _ = hex_value(*second)?;
            match letter {
                b'C' => Some(Action::Continue),
                b'S' => Some(Action::Step),
                _ => None,
            }
        }
        _ => None,
    }
}

// An action, and its threads behind a colon.
fn thread_action(text: &[u8]) -> Option<ThreadAction>
    ensures { result ≡ thread_action_of text.now }
{
    let (first, from) = split_at_byte(text, b':');
    let action = action(first)?;
    if from.is_empty() {
        return Some(ThreadAction {
            action,
            threads: None,
        });
    }
    let named = threads(behind_first(from))?;
    Some(ThreadAction {
        action,
        threads: Some(named),
    })
}

/// The actions of a list with semicolons between them.
pub fn read_actions<A: Allocator>(
    alloc: A,
    list: &[u8],
) -> Result<Vec<ThreadAction, A>, RequestFault>
    ensures ok { IfOk result (λ actions. actions_of list.now ≡ Some actions.items) }
    ensures err { IfErr result (λ fault. fault ≢ RequestFault.Memory
        → fault ≡ RequestFault.BadOperand) }
    ensures bad { IfErr result (λ fault. fault ≢ RequestFault.Memory
        → actions_of list.now ≡ None) }
{
    let mut actions = Vec::new(alloc);
    let mut rest = list;
    'parts: loop {
        let (part, from) = split_at_byte(rest, b';');
        let Some(action) = thread_action(part) else {
            return Err(RequestFault::BadOperand);
        };
        let Ok(()) = actions.push(action) else {
            return Err(RequestFault::Memory);
        };
        if from.is_empty() {
            return Ok(actions);
        }
        rest = behind_first(from);
    }
}
