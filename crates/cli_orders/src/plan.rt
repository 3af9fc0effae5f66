//! Plans of refusals.

ghost use Rattle.std.specs.Prelude.{◌≡◌, ◌||◌, ◌&&◌, ◌==◌, ℕ, drop, List, Some, IfOk, IfErr};
ghost use Rattle.cli_orders.specs.Plan.{pair_of, pairs_of, has_pair, HoldsPairs, RefusesPlan};

use cli_args::{LineFault, part_len, read_input};
use std::alloc::{AllocError, Allocator};
use std::collections::BTreeSet;
use text_items::split_at_byte;

// All bytes but the first.
fn behind_first(rest: &[u8]) -> &[u8]
    ensures { result.now ≡ drop 1 rest.now }
{
    match rest {
        [_, behind @ ..] => behind,
        [] => rest,
    }
}

// The pair of two numbers below 2^32 with a colon between them.
fn read_pair(part: &[u8]) -> Option<(u32, u32)>
    ensures { result ≡ pair_of part.now }
{
    let (hart, rest) = split_at_byte(part, b':');
    let hart = read_input(hart)?;
    let number = read_input(behind_first(rest))?;
    Some((hart, number))
}

// Adds a pair, unless it is there.
fn add_pair<A: Allocator + Copy>(
    plan: &mut BTreeSet<(u32, u32), A>,
    pair: (u32, u32),
) -> Result<(), AllocError>
    ensures { IfOk result (λ _. (h n : ℕ) → has_pair plan.new.keys h n
        ≡ (has_pair plan.old.keys h n || (pair.0 == h && pair.1 == n))) }
{
    let Ok(_) = plan.insert(pair) else {
        return Err(AllocError);
    };
    Ok(())
}

/// Reads one or more pairs of a hart and the number of one of its choices, with commas between
/// them, as `0:12,1:3`. The numbers are decimal and below 2^32; leading zeros are allowed, a sign
/// isn't. A pair may be repeated, and may name a hart that doesn't exist.
pub fn read_plan<A: Allocator + Copy>(
    alloc: A,
    text: &str,
) -> Result<BTreeSet<(u32, u32), A>, LineFault>
    ensures ok { IfOk result (λ plan. (pairs : List (ℕ × ℕ)) × (pairs_of text.now ≡ Some pairs)
        × HoldsPairs plan.keys pairs) }
    ensures err { IfErr result (RefusesPlan text.now) }
{
    let mut plan = BTreeSet::new(alloc);
    let mut rest = text.as_bytes();
    'parts: loop {
        let end = part_len(rest);
        let (part, _) = rest.split_at(end);
        let Some(pair) = read_pair(part) else {
            return Err(LineFault::BadPlan);
        };
        let Ok(()) = add_pair(&mut plan, pair) else {
            return Err(LineFault::Memory);
        };
        if end == rest.len() {
            return Ok(plan);
        }
        let (_, others) = rest.split_at(end + 1);
        rest = others;
    }
}
