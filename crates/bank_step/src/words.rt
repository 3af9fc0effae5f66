//! An image's memory with the words that a step is given.
ghost use Rattle.std.specs.Prelude.{◌≡◌, ◌⊎◌, ℕ, ◌+◌, ◌<◌, ◌≤◌, true, false, length, Ok, IfSome};
ghost use Rattle.std.specs.Option.{ForSome};
ghost use Rattle.std.specs.Option.{is_some};
ghost use Rattle.mem_store.specs.Memory.{around, granted, number_at, to_execute, to_load, to_write};
ghost use Rattle.mem_store.specs.Image.{image_memory};
ghost use Rattle.mem_flat.specs.Blocks.{spelled, Puts};
ghost use Rattle.mem_store.specs.Instruction.{instruction_at};
ghost use Rattle.bank_laws.specs.Words.{bytes_at};
ghost use Rattle.bank_step.specs.Told.{word_has_all, told_memory, with_told};

use crate::image_bytes::{LAST_WORD, byte_at, bytes_at, granted, is_executable, is_mapped};
use image::{Image, Rights};
use isa_decode::decode;
use isa_table::Instr;
use mem_store::{AccessFault, FetchFault, Store, StoreFault};
use std::alloc::Allocator;

/// A word with its bytes.
#[derive(Clone, Copy, PartialEq, Eq)]
pub struct Word {
    /// The address of its first byte.
    pub address: u32,
    /// The bytes, lowest address first.
    pub bytes: [u8; 4],
}

// The byte at an address: the word's, else `below`.
#[inline]
fn byte_over(word: Option<Word>, address: u64, below: u8) -> u8
    ensures { (bytes : ℕ → ℕ) → bytes address ≡ below → result ≡ with_told bytes word address }
{
    let Some(word) = word else {
        return below;
    };
    let first = u64::from(word.address);
    if first <= address && address < first + 4 {
        return word.bytes[(address - first) as usize];
    }
    below
}

// The bytes of a word, if it is the one at an address.
#[inline]
fn bytes_of(word: Option<Word>, address: u32) -> Option<[u8; 4]>
    ensures { (bytes : ℕ → ℕ) → IfSome result (λ four. four ≡ bytes_at (with_told bytes word) address) }
{
    let word = word?;
    if word.address == address {
        return Some(word.bytes);
    }
    None
}

// Whether the four bytes from one address on and those from another don't overlap.
#[inline]
fn is_apart(first: u32, second: u32) -> bool
    ensures { result ≡ true → (first + 4 ≤ second) ⊎ (second + 4 ≤ first) }
{
    let first = u64::from(first);
    let second = u64::from(second);
    first + 4 <= second || second + 4 <= first
}

// The four bytes from an address on: the word's where it has them, else `below`.
#[inline]
fn bytes_over(word: Option<Word>, address: u32, below: [u8; 4]) -> [u8; 4]
    ensures { (bytes : ℕ → ℕ) → bytes_at bytes address ≡ below → result ≡ bytes_at (with_told bytes word) address }
{
    let is_apart = match word {
        None => true,
        Some(word) => is_apart(word.address, address),
    };
    if is_apart {
        return below;
    }
    let first = u64::from(address);
    [
        byte_over(word, first, below[0]),
        byte_over(word, first + 1, below[1]),
        byte_over(word, first + 2, below[2]),
        byte_over(word, first + 3, below[3]),
    ]
}

// Whether a word has all `count` bytes from an address on.
#[inline]
fn has_all(word: &Word, address: u32, count: u32) -> bool
    ensures { result ≡ word_has_all word.now.address address count }
{
    let first = u64::from(word.address);
    let address = u64::from(address);
    first <= address && address + u64::from(count) <= first + 4
}

// Bytes, of which `count` from an offset on are the low bytes of a value.
fn spelled(bytes: [u8; 4], offset: usize, count: usize, value: u32) -> [u8; 4]
    requires { offset + count ≤ 4 }
    ensures value { result ≡ spelled count bytes offset value }
    ensures long { length bytes ≡ 4 }
{
    let mut bytes = bytes;
    let mut rest = value;
    'digits: for k in 0..count {
        bytes[offset + k] = (rest % 256) as u8;
        rest /= 256;
    }
    bytes
}

/// The instruction at an address, looked up.
#[derive(Clone, Copy)]
pub struct KnownInstr {
    /// The address.
    pub address: u32,
    /// The instruction, or why there is none.
    pub found: Result<Instr, FetchFault>,
}

/// An image's memory with given words in place of its own, of which one word alone is writable.
#[derive(Drop)]
pub struct ToldMemory<'a, A: Allocator> {
    /// The image.
    pub image: &'a Image<A>,
    /// The word of the instruction, if it is given.
    pub code: Option<Word>,
    /// The word that the instruction touches, if it is given.
    pub touched: Option<Word>,
    /// The writable word.
    pub target: Option<Word>,
    /// An instruction looked up before.
    pub known: Option<KnownInstr>,
    ghost its_instr: { ForSome known (λ k. k.found ≡ instruction_at (told_memory (image_memory image.now) code touched target) k.address) },
}

impl<'a, A: Allocator> ToldMemory<'a, A> {
    fn byte(&self, address: u64) -> u8
        ensures { result ≡ (told_memory (image_memory self.now.image.now) self.now.code self.now.touched self.now.target).bytes address }
    {
        let below = byte_at(self.image.segments(), address);
        let below = byte_over(self.code, address, below);
        let below = byte_over(self.touched, address, below);
        byte_over(self.target, address, below)
    }

    // The four bytes from an address on, without the writable word's.
    #[inline]
    fn bytes_below(&self, address: u32) -> [u8; 4]
        ensures { result ≡ bytes_at (with_told (with_told (image_memory self.now.image.now).bytes self.now.code) self.now.touched) address }
    {
        if let Some(bytes) = bytes_of(self.touched, address) {
            return bytes;
        }
        let below = bytes_at(self.image.segments(), address);
        let below = bytes_over(self.code, address, below);
        bytes_over(self.touched, address, below)
    }

    // The four bytes from an address on.
    fn bytes_from(&self, address: u32) -> [u8; 4]
        ensures { result ≡ bytes_at (told_memory (image_memory self.now.image.now) self.now.code self.now.touched self.now.target).bytes address }
    {
        if let Some(bytes) = bytes_of(self.target, address) {
            return bytes;
        }
        bytes_over(self.target, address, self.bytes_below(address))
    }

    /// The word of the four bytes from an address on.
    pub fn word_at(&self, address: u32) -> Word
        ensures address { result.address ≡ address }
        ensures bytes { result.bytes ≡ bytes_at (told_memory (image_memory self.now.image.now) self.now.code self.now.touched self.now.target).bytes address }
    {
        let bytes = self.bytes_from(address);
        Word { address, bytes }
    }

    // Whether each of some bytes may be loaded.
    #[tactic(auto, using(crate::proofs::RightsLemmas::load_same))]
    fn may_load(&self, count: u32, address: u32) -> bool
        ensures { result ≡ granted to_load (told_memory (image_memory self.now.image.now) self.now.code self.now.touched self.now.target) count address }
    {
        granted(self.image.segments(), Rights::ANY, count, address)
    }

    // Whether each of the four bytes from an address on, modulo 2^32, may be executed.
    #[tactic(auto, using(crate::proofs::RightsLemmas::execute_same))]
    fn may_execute(&self, address: u32) -> bool
        ensures { result ≡ granted to_execute (around (told_memory (image_memory self.now.image.now) self.now.code self.now.touched self.now.target)) 4 address }
    {
        is_executable(self.image.segments(), address)
    }

    // Whether each of some bytes may be written.
    fn may_write(&self, count: u32, address: u32) -> bool
        requires { 0 < count }
        ensures { result ≡ granted to_write (told_memory (image_memory self.now.image.now) self.now.code self.now.touched self.now.target) count address }
    {
        let Some(word) = self.target else {
            return false;
        };
        has_all(&word, address, count)
            && granted(self.image.segments(), Rights::WRITE, count, address)
    }

    // The number at an address: four bytes, little-endian.
    fn number_at(&self, address: u32) -> u32
        ensures { result ≡ number_at (told_memory (image_memory self.now.image.now) self.now.code self.now.touched self.now.target).bytes 4 address }
    {
        u32::from_le_bytes(self.bytes_from(address))
    }

    // The number at an address, whose bytes' addresses are modulo 2^32.
    fn number_around(&self, address: u32) -> u32
        ensures { result ≡ number_at (around (told_memory (image_memory self.now.image.now) self.now.code self.now.touched self.now.target)).bytes 4 address }
    {
        if address <= LAST_WORD {
            return self.number_at(address);
        }
        u32::from_le_bytes([
            self.byte(u64::from(address)),
            self.byte(u64::from(address.wrapping_add(1))),
            self.byte(u64::from(address.wrapping_add(2))),
            self.byte(u64::from(address.wrapping_add(3))),
        ])
    }

    // Whether the byte at an address is mapped.
    fn is_mapped(&self, address: u32) -> bool
        ensures { result ≡ is_some ((told_memory (image_memory self.now.image.now) self.now.code self.now.touched self.now.target).rights address) }
    {
        is_mapped(self.image.segments(), u64::from(address))
    }

    /// The instruction at an address, or why there is none: `instr`, if that is given.
    #[inline]
    pub fn look_up(&self, address: u32, instr: Option<Instr>) -> KnownInstr
        requires { IfSome instr (λ i. Ok i ≡ instruction_at (told_memory (image_memory self.now.image.now) self.now.code self.now.touched self.now.target) address) }
        ensures address { result.address ≡ address }
        ensures found { result.found ≡ instruction_at (told_memory (image_memory self.now.image.now) self.now.code self.now.touched self.now.target) address }
    {
        let found = match instr {
            Some(instr) => Ok(instr),
            None => self.instruction(address),
        };
        KnownInstr { address, found }
    }

    /// Makes a word writable, and keeps the instruction that was looked up.
    pub fn begin(&mut self, target: Option<Word>, known: KnownInstr)
        requires { known.found ≡ instruction_at (told_memory (image_memory self.old.image.now) self.old.code self.old.touched target) known.address }
        ensures image { self.new.image.now ≡ self.old.image.now }
        ensures code { self.new.code ≡ self.old.code }
        ensures touched { self.new.touched ≡ self.old.touched }
        ensures target { self.new.target ≡ target }
    {
        *self = ToldMemory {
            image: self.image,
            code: self.code,
            touched: self.touched,
            target,
            known: Some(known),
        };
    }

    // Stores the low `count` bytes of a value, if all of them are writable.
    fn put(&mut self, count: u32, address: u32, value: u32) -> bool
        requires { (0 < count) × (count ≤ 4) }
        ensures { Puts count address value
            (told_memory (image_memory self.old.image.now) self.old.code self.old.touched self.old.target)
            (told_memory (image_memory self.new.image.now) self.new.code self.new.touched self.new.target) result }
    {
        let Some(word) = self.target else {
            return false;
        };
        if !has_all(&word, address, count) {
            return false;
        }
        if !granted(self.image.segments(), Rights::WRITE, count, address) {
            return false;
        }
        let offset = (address - word.address) as usize;
        let stored = Word {
            address: word.address,
            bytes: spelled(word.bytes, offset, count as usize, value),
        };
        *self = ToldMemory {
            image: self.image,
            code: self.code,
            touched: self.touched,
            target: Some(stored),
            known: None,
        };
        true
    }
}

impl<'a, A: Allocator> Store for ToldMemory<'a, A> {
    ghost memory = { λ s. told_memory (image_memory s.image.now) s.code s.touched s.target };

    ghost grows = { false };

    fn load8(&self, address: u32) -> Result<u8, AccessFault> {
        if self.may_load(1, address) {
            Ok(self.byte(u64::from(address)))
        } else {
            Err(AccessFault::Access)
        }
    }

    fn load16(&self, address: u32) -> Result<u16, AccessFault> {
        if address % 2 != 0 {
            return Err(AccessFault::Misaligned);
        }
        if !self.may_load(2, address) {
            return Err(AccessFault::Access);
        }
        let first = u64::from(address);
        Ok(u16::from_le_bytes([self.byte(first), self.byte(first + 1)]))
    }

    fn load32(&self, address: u32) -> Result<u32, AccessFault> {
        if address % 4 != 0 {
            return Err(AccessFault::Misaligned);
        }
        if !self.may_load(4, address) {
            return Err(AccessFault::Access);
        }
        Ok(self.number_at(address))
    }

    fn fetch(&self, address: u32) -> Option<u32> {
        if self.may_execute(address) {
            Some(self.number_around(address))
        } else {
            None
        }
    }

    #[tactic(auto, unfolding(mem_store::specs::Instruction::instruction_at))]
    fn instruction(&self, address: u32) -> Result<Instr, FetchFault> {
        if let Some(known) = self.known {
            if known.address == address {
                return known.found;
            }
        }
        let Some(word) = self.fetch(address) else {
            return Err(FetchFault::Access);
        };
        decode(word).ok_or(FetchFault::Illegal)
    }

    fn peek(&self, address: u32) -> Option<u8> {
        if self.is_mapped(address) {
            Some(self.byte(u64::from(address)))
        } else {
            None
        }
    }

    fn may_store32(&self, address: u32) -> Result<(), AccessFault> {
        if address % 4 != 0 {
            return Err(AccessFault::Misaligned);
        }
        if self.may_write(4, address) {
            Ok(())
        } else {
            Err(AccessFault::Access)
        }
    }

    fn store8(&mut self, address: u32, value: u8) -> Result<(), StoreFault> {
        if self.put(1, address, u32::from(value)) {
            Ok(())
        } else {
            Err(StoreFault::Access)
        }
    }

    fn store16(&mut self, address: u32, value: u16) -> Result<(), StoreFault> {
        if address % 2 != 0 {
            return Err(StoreFault::Misaligned);
        }
        if self.put(2, address, u32::from(value)) {
            Ok(())
        } else {
            Err(StoreFault::Access)
        }
    }

    fn store32(&mut self, address: u32, value: u32) -> Result<(), StoreFault> {
        if address % 4 != 0 {
            return Err(StoreFault::Misaligned);
        }
        if self.put(4, address, value) {
            Ok(())
        } else {
            Err(StoreFault::Access)
        }
    }
}
