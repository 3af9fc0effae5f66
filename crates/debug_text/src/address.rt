//! Addresses in commands: numbers, and symbols with or without an offset.
ghost use Rattle.std.specs.Prelude.{◌≡◌, ◌≤◌, Some, length};
ghost use Rattle.std.specs.List.{list_any, suffix_len};
ghost use Rattle.debug_text.specs.Numbers.{decimal_of};
ghost use Rattle.debug_text.specs.Addresses.{or_bad, first_address, is_elsewhere, address_of_name, is_no_plus, with_offset, address_split, may_be_name, named_address, address_meant};

use crate::fault::DebugFault;
use crate::number;
use elf_read::Symbol;
use std::alloc::Allocator;

/// A decimal number.
pub fn count_in(text: &[u8]) -> Result<u64, DebugFault>
    ensures { result ≡ or_bad (decimal_of text.now) }
{
    match number::decimal_of(text) {
        Some(count) => Ok(count),
        None => Err(DebugFault::BadCommand),
    }
}

// The address of the first symbol of a name.
fn first_address<A: Allocator>(symbols: &[Symbol<A>], name: &[u8]) -> Option<u32>
    ensures { result ≡ first_address symbols.now name.now }
{
    'symbols: for symbol in symbols {
        if symbol.name.as_bytes() == name {
            return Some(symbol.address);
        }
    }
    None
}

// Whether a symbol has a name and another address.
fn is_elsewhere<A: Allocator>(symbols: &[Symbol<A>], name: &[u8], address: u32) -> bool
    ensures { result ≡ list_any (is_elsewhere name.now address) symbols.now }
{
    symbols.iter().any(|symbol| symbol.name.as_bytes() == name && symbol.address != address)
}

// The address that all symbols of a name have.
#[tactic(auto, unfolding(crate::specs::Addresses::address_of_name))]
fn address_of_name<A: Allocator>(symbols: &[Symbol<A>], name: &[u8]) -> Result<u32, DebugFault>
    ensures { result ≡ address_of_name symbols.now name.now }
{
    let Some(address) = first_address(symbols, name) else {
        return Err(DebugFault::NoSymbol);
    };
    if is_elsewhere(symbols, name, address) {
        return Err(DebugFault::SeveralSymbols);
    }
    Ok(address)
}

// Number of bytes behind the last `+`; all if there is none.
fn offset_len(text: &[u8]) -> usize
    ensures count { result ≡ suffix_len is_no_plus text.now }
    ensures within { result ≤ length text.now }
{
    text.iter().rev().take_while(|byte| **byte != b'+').count()
}

// Whether a text begins with neither a digit nor a sign.
fn may_be_name(text: &[u8]) -> bool
    ensures { result ≡ may_be_name text.now }
{
    match text {
        [] => false,
        [first, ..] => !matches!(*first, b'0'..=b'9' | b'+' | b'-'),
    }
}

// An address with an offset, below 2^32.
fn with_offset(base: Result<u32, DebugFault>, offset: u32) -> Result<u32, DebugFault>
    ensures { result ≡ with_offset (Some offset) base }
{
    match base {
        Ok(address) => {
            let sum = u64::from(address) + u64::from(offset);
            if sum > u64::from(u32::MAX) {
                return Err(DebugFault::BadCommand);
            }
            Ok(sum as u32)
        }
        Err(fault) => Err(fault),
    }
}

// The address of NAME, or of NAME+N, whose N begins at `end`; it is 0 if there is none.
fn address_split<A: Allocator>(
    symbols: &[Symbol<A>],
    text: &[u8],
    end: usize,
) -> Result<u32, DebugFault>
    requires { end ≤ length text.now }
    ensures { result ≡ address_split symbols.now text.now end }
{
    if end == 0 {
        return address_of_name(symbols, text);
    }
    match number::address_of(&text[end..]) {
        Some(offset) => with_offset(address_of_name(symbols, &text[..end - 1]), offset),
        None => Err(DebugFault::BadCommand),
    }
}

// The address of a text that is no number: NAME, or NAME+N, in which the last `+` counts.
fn named_address<A: Allocator>(symbols: &[Symbol<A>], text: &[u8]) -> Result<u32, DebugFault>
    ensures { result ≡ named_address symbols.now text.now }
{
    if symbols.is_empty() || !may_be_name(text) {
        return Err(DebugFault::BadCommand);
    }
    address_split(symbols, text, text.len() - offset_len(text))
}

/// An address: a number, or a symbol with or without an offset. Where there are no symbols, any
/// other text than a number is a bad command.
#[tactic(auto, unfolding(crate::specs::Addresses::address_meant))]
pub fn address_meant<A: Allocator>(symbols: &[Symbol<A>], text: &[u8]) -> Result<u32, DebugFault>
    ensures { result ≡ address_meant symbols.now text.now }
{
    match number::address_of(text) {
        Some(address) => Ok(address),
        None => named_address(symbols, text),
    }
}
