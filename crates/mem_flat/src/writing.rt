//! Writing to blocks.
ghost use Rattle.std.specs.Prelude.{◌≡◌, ◌+◌, ◌^◌, ◌≤◌, true};
ghost use Rattle.mem_store.specs.Memory.{granted, to_write};
ghost use Rattle.mem_store.specs.Access.{written};
ghost use Rattle.mem_store.specs.Image.{segments_memory};
ghost use Rattle.mem_flat.specs.Blocks.{IsInOrder, Puts};

use crate::block::Block;
use crate::reading::may_write;
use crate::search::{find, in_last, place};
use image::Rights;
use std::alloc::Allocator;

/// Writes a byte at an address if it is writable; returns whether it was.
pub fn put8<A: Allocator>(blocks: &mut [Block<A>], address: u32, value: u8) -> bool
    requires { IsInOrder blocks.old }
    ensures order { IsInOrder blocks.new }
    ensures puts { Puts 1 address value
        (segments_memory blocks.old) (segments_memory blocks.new) result }
{
    let Some((i, offset)) = find(blocks, address) else {
        return false;
    };
    let block = &mut blocks[i];
    if !block.grants(Rights::WRITE) {
        return false;
    }
    block.write8(offset, value);
    true
}

/// Writes a number into the two bytes from an address on if each is writable; returns whether they
/// were.
#[inline]
pub fn put16<A: Allocator>(blocks: &mut [Block<A>], address: u32, value: u16) -> bool
    requires order { IsInOrder blocks.old }
    requires in_range { address + 2 ≤ 2 ^ 32 }
    ensures order { IsInOrder blocks.new }
    ensures puts { Puts 2 address value
        (segments_memory blocks.old) (segments_memory blocks.new) result }
{
    let Some((i, offset)) = in_last(blocks, address, 2) else {
        return put16_by_halves(blocks, address, value);
    };
    let block = &mut blocks[i];
    if !block.grants(Rights::WRITE) {
        return false;
    }
    block.write16(offset, value);
    true
}

// `put16` for bytes that may be in any block.
#[inline(never)]
fn put16_by_halves<A: Allocator>(blocks: &mut [Block<A>], address: u32, value: u16) -> bool
    requires order { IsInOrder blocks.old }
    requires in_range { address + 2 ≤ 2 ^ 32 }
    ensures order { IsInOrder blocks.new }
    ensures puts { Puts 2 address value
        (segments_memory blocks.old) (segments_memory blocks.new) result }
{
    let Some((i, offset)) = place(blocks, address, 2) else {
        return scatter16(blocks, address, value);
    };
    let block = &mut blocks[i];
    if !block.grants(Rights::WRITE) {
        return false;
    }
    block.write16(offset, value);
    true
}

/// Writes a number into the four bytes from an address on if each is writable; returns whether they
/// were.
#[inline]
pub fn put32<A: Allocator>(blocks: &mut [Block<A>], address: u32, value: u32) -> bool
    requires order { IsInOrder blocks.old }
    requires in_range { address + 4 ≤ 2 ^ 32 }
    ensures order { IsInOrder blocks.new }
    ensures puts { Puts 4 address value
        (segments_memory blocks.old) (segments_memory blocks.new) result }
{
    let Some((i, offset)) = in_last(blocks, address, 4) else {
        return put32_by_halves(blocks, address, value);
    };
    let block = &mut blocks[i];
    if !block.grants(Rights::WRITE) {
        return false;
    }
    block.write32(offset, value);
    true
}

// `put32` for bytes that may be in any block.
#[inline(never)]
fn put32_by_halves<A: Allocator>(blocks: &mut [Block<A>], address: u32, value: u32) -> bool
    requires order { IsInOrder blocks.old }
    requires in_range { address + 4 ≤ 2 ^ 32 }
    ensures order { IsInOrder blocks.new }
    ensures puts { Puts 4 address value
        (segments_memory blocks.old) (segments_memory blocks.new) result }
{
    let Some((i, offset)) = place(blocks, address, 4) else {
        return scatter32(blocks, address, value);
    };
    let block = &mut blocks[i];
    if !block.grants(Rights::WRITE) {
        return false;
    }
    block.write32(offset, value);
    true
}

// `put16`, byte by byte.
fn scatter16<A: Allocator>(blocks: &mut [Block<A>], address: u32, value: u16) -> bool
    requires order { IsInOrder blocks.old }
    requires in_range { address + 2 ≤ 2 ^ 32 }
    ensures order { IsInOrder blocks.new }
    ensures puts { Puts 2 address value
        (segments_memory blocks.old) (segments_memory blocks.new) result }
{
    if !may_write(blocks, address, 2) {
        return false;
    }
    let [b0, b1] = value.to_le_bytes();
    put8(blocks, address, b0);
    put8(blocks, address + 1, b1);
    true
}

// `put32`, byte by byte.
fn scatter32<A: Allocator>(blocks: &mut [Block<A>], address: u32, value: u32) -> bool
    requires order { IsInOrder blocks.old }
    requires in_range { address + 4 ≤ 2 ^ 32 }
    ensures order { IsInOrder blocks.new }
    ensures puts { Puts 4 address value
        (segments_memory blocks.old) (segments_memory blocks.new) result }
{
    if !may_write(blocks, address, 4) {
        return false;
    }
    let [b0, b1, b2, b3] = value.to_le_bytes();
    put8(blocks, address, b0);
    put8(blocks, address + 1, b1);
    put8(blocks, address + 2, b2);
    put8(blocks, address + 3, b3);
    true
}
