//! Reading from blocks.
ghost use Rattle.std.specs.Prelude.{◌≡◌, ◌+◌, ◌^◌, ◌≤◌, true, false, Some, IfSome, MatchOption};
ghost use Rattle.mem_store.specs.Memory.{grants, granted, around, to_write};
ghost use Rattle.mem_store.specs.Access.{peeked};
ghost use Rattle.mem_store.specs.Image.{segments_memory};
ghost use Rattle.mem_flat.specs.Blocks.{IsInOrder, number_if};

use crate::block::Block;
use crate::search::{find, in_last, place};
use image::Rights;
use std::alloc::Allocator;

/// The byte at an address, whatever its rights.
pub fn peek<A: Allocator>(blocks: &[Block<A>], address: u32) -> Option<u8>
    requires { IsInOrder blocks.now }
    ensures { result ≡ peeked (segments_memory blocks.now) address }
{
    let (i, offset) = find(blocks, address)?;
    Some(blocks[i].byte(offset))
}

/// The byte at an address, if it has one of the wanted rights.
pub fn read8<A: Allocator>(blocks: &[Block<A>], address: u32, wanted: Rights) -> Option<u8>
    requires { IsInOrder blocks.now }
    ensures { MatchOption result
        (grants wanted.0 ((segments_memory blocks.now).rights address) ≡ false)
        (λ byte. (grants wanted.0 ((segments_memory blocks.now).rights address) ≡ true)
        × ((segments_memory blocks.now).bytes address ≡ byte)) }
{
    let (i, offset) = find(blocks, address)?;
    let block = &blocks[i];
    if block.grants(wanted) {
        Some(block.byte(offset))
    } else {
        None
    }
}

/// The two bytes from an address on, if each has one of the wanted rights.
#[inline]
pub fn read16<A: Allocator>(blocks: &[Block<A>], address: u32, wanted: Rights) -> Option<u16>
    requires order { IsInOrder blocks.now }
    requires in_range { address + 2 ≤ 2 ^ 32 }
    ensures { result ≡ number_if wanted.0 (segments_memory blocks.now) 2 address }
{
    match in_last(blocks, address, 2) {
        Some((i, offset)) => {
            let block = &blocks[i];
            if block.grants(wanted) {
                Some(block.read16(offset))
            } else {
                None
            }
        }
        None => read16_by_halves(blocks, address, wanted),
    }
}

// `read16` for bytes that may be in any block.
#[inline(never)]
fn read16_by_halves<A: Allocator>(blocks: &[Block<A>], address: u32, wanted: Rights) -> Option<u16>
    requires order { IsInOrder blocks.now }
    requires in_range { address + 2 ≤ 2 ^ 32 }
    ensures { result ≡ number_if wanted.0 (segments_memory blocks.now) 2 address }
{
    match place(blocks, address, 2) {
        Some((i, offset)) => {
            let block = &blocks[i];
            if block.grants(wanted) {
                Some(block.read16(offset))
            } else {
                None
            }
        }
        None => gather16(blocks, address, wanted),
    }
}

/// The four bytes from an address on, if each has one of the wanted rights.
#[inline]
pub fn read32<A: Allocator>(blocks: &[Block<A>], address: u32, wanted: Rights) -> Option<u32>
    requires order { IsInOrder blocks.now }
    requires in_range { address + 4 ≤ 2 ^ 32 }
    ensures { result ≡ number_if wanted.0 (segments_memory blocks.now) 4 address }
{
    match in_last(blocks, address, 4) {
        Some((i, offset)) => {
            let block = &blocks[i];
            if block.grants(wanted) {
                Some(block.read32(offset))
            } else {
                None
            }
        }
        None => read32_by_halves(blocks, address, wanted),
    }
}

/// `read32` if the four bytes are in the last block, else `None`. On `None` the caller searches all
/// blocks.
#[inline]
pub fn read32_in_last<A: Allocator>(
    blocks: &[Block<A>],
    address: u32,
    wanted: Rights,
) -> Option<u32>
    requires { IsInOrder blocks.now }
    ensures { IfSome result (λ word.
        Some word ≡ number_if wanted.0 (around (segments_memory blocks.now)) 4 address) }
{
    let (i, offset) = in_last(blocks, address, 4)?;
    let block = &blocks[i];
    if block.grants(wanted) {
        Some(block.read32(offset))
    } else {
        None
    }
}

// `read32` for bytes that may be in any block.
#[inline(never)]
fn read32_by_halves<A: Allocator>(blocks: &[Block<A>], address: u32, wanted: Rights) -> Option<u32>
    requires order { IsInOrder blocks.now }
    requires in_range { address + 4 ≤ 2 ^ 32 }
    ensures { result ≡ number_if wanted.0 (segments_memory blocks.now) 4 address }
{
    match place(blocks, address, 4) {
        Some((i, offset)) => {
            let block = &blocks[i];
            if block.grants(wanted) {
                Some(block.read32(offset))
            } else {
                None
            }
        }
        None => gather32(blocks, address, wanted),
    }
}

// `read16`, byte by byte.
fn gather16<A: Allocator>(blocks: &[Block<A>], address: u32, wanted: Rights) -> Option<u16>
    requires order { IsInOrder blocks.now }
    requires in_range { address + 2 ≤ 2 ^ 32 }
    ensures { result ≡ number_if wanted.0 (segments_memory blocks.now) 2 address }
{
    let b0 = read8(blocks, address, wanted)?;
    let b1 = read8(blocks, address + 1, wanted)?;
    Some(u16::from_le_bytes([b0, b1]))
}

/// The four bytes from an address on, if each has one of the wanted rights, byte by byte. Their
/// addresses are modulo 2^32.
pub fn gather32<A: Allocator>(blocks: &[Block<A>], address: u32, wanted: Rights) -> Option<u32>
    requires { IsInOrder blocks.now }
    ensures { result ≡ number_if wanted.0 (around (segments_memory blocks.now)) 4 address }
{
    let b0 = read8(blocks, address, wanted)?;
    let b1 = read8(blocks, address.wrapping_add(1), wanted)?;
    let b2 = read8(blocks, address.wrapping_add(2), wanted)?;
    let b3 = read8(blocks, address.wrapping_add(3), wanted)?;
    Some(u32::from_le_bytes([b0, b1, b2, b3]))
}

/// Whether each of the four bytes from an address on is writable.
pub fn may_write32<A: Allocator>(blocks: &[Block<A>], address: u32) -> bool
    requires order { IsInOrder blocks.now }
    requires in_range { address + 4 ≤ 2 ^ 32 }
    ensures { result ≡ granted to_write (segments_memory blocks.now) 4 address }
{
    match place(blocks, address, 4) {
        Some((i, _)) => {
            let block = &blocks[i];
            block.grants(Rights::WRITE)
        }
        None => may_write(blocks, address, 4),
    }
}

/// Whether each of `count` bytes from an address on is writable, byte by byte.
pub fn may_write<A: Allocator>(blocks: &[Block<A>], address: u32, count: u32) -> bool
    requires order { IsInOrder blocks.now }
    requires in_range { address + count ≤ 2 ^ 32 }
    ensures { result ≡ granted to_write (segments_memory blocks.now) count address }
{
    'bytes: for k in 0..count {
        if read8(blocks, address + k, Rights::WRITE).is_none() {
            return false;
        }
    }
    true
}
