//! Whether a property holds in a world.
ghost use Rattle.std.specs.Prelude.{◌≡◌, map};
ghost use Rattle.hart_step.specs.Hart.{hart_of};
ghost use Rattle.machine.specs.Machine.{world};
ghost use Rattle.property_judge.specs.Property.{in_order, signed_below, unsigned_below, compares, word_read, is_within, harts_between, holds_in};

use crate::property::{Comparison, Order, Property};
use hart_step::{Hart, HartState};
use machine::Machine;
use mem_store::Store;
use std::alloc::Allocator;

// Whether two words are in an order of unsigned numbers.
fn in_unsigned_order(order: Order, a: u32, b: u32) -> bool
    ensures { result ≡ in_order order unsigned_below a b }
{
    match order {
        Order::Less => a < b,
        Order::AtMost => a <= b,
        Order::Greater => a > b,
        Order::AtLeast => a >= b,
    }
}

// Whether two words are in an order of signed numbers.
fn in_signed_order(order: Order, a: u32, b: u32) -> bool
    ensures { result ≡ in_order order signed_below a b }
{
    let (a, b) = (a.cast_signed(), b.cast_signed());
    match order {
        Order::Less => a < b,
        Order::AtMost => a <= b,
        Order::Greater => a > b,
        Order::AtLeast => a >= b,
    }
}

/// Whether two words are as a comparison says.
pub fn compares(comparison: Comparison, a: u32, b: u32) -> bool
    ensures { result ≡ compares comparison a b }
{
    match comparison {
        Comparison::Equal => a == b,
        Comparison::Unequal => a != b,
        Comparison::Signed(order) => in_signed_order(order, a, b),
        Comparison::Unsigned(order) => in_unsigned_order(order, a, b),
    }
}

/// The word at an address, as a load reads it; 0 where a load faults.
pub fn word_read<S: Store>(store: &S, address: u32) -> u32
    ensures { result ≡ word_read (S.memory store.now) address }
{
    match store.load32(address) {
        Ok(word) => word,
        Err(_) => 0,
    }
}

/// Whether a hart runs and has its `pc` between two addresses, the second of which is excluded.
pub fn is_within(hart: &Hart, from: u32, to: u32) -> bool
    ensures { result ≡ is_within from to (hart_of hart.now) }
{
    hart.state == HartState::Running && from <= hart.pc && hart.pc < to
}

// The number of harts between two addresses.
fn harts_between(harts: &[Hart], from: u32, to: u32) -> usize
    ensures { result ≡ harts_between from to (map hart_of harts.now) }
{
    harts
        .iter()
        .filter(|hart| is_within(hart, from, to))
        .count()
}

/// Whether a property holds in a machine's world.
#[tactic(auto, unfolding(crate::specs::Property::holds_in))]
pub fn holds_in<S: Store, A: Allocator>(property: Property, machine: &Machine<S, A>) -> bool
    ensures { result ≡ holds_in property (world S.memory machine.now) }
{
    match property {
        Property::Always {
            word,
            comparison,
            number,
        } => compares(comparison, word_read(machine.store(), word), number),
        Property::NeverBoth { from, to } => harts_between(machine.ends(), from, to) < 2,
    }
}
