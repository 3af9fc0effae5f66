//! A bank of memory.
ghost use Rattle.std.specs.Prelude.{◌≡◌, ◌↔◌, ◌%◌, ◌<◌, ◌≤◌, length, IfErr, OnErr, OnOk, [], true};
ghost use Rattle.image.specs.Image.{ImageValue};
ghost use Rattle.hart_reservations.specs.Limit.{most_harts};
ghost use Rattle.hart_reservations.specs.Marks.{names};
ghost use Rattle.hart_reservations.specs.Reserve.{marks};
ghost use Rattle.bank_laws.specs.Banks.{marks_after, Finds};
ghost use Rattle.bank_laws.specs.Merged.{most_banks};
ghost use Rattle.bank_memory.specs.BankLog.{FitsBank, IsOfBank, RefusesAccess, state_of, bank_with_access};
ghost use Rattle.bank_memory.specs.declared.bank.AddFault.{AddFault};
ghost use Rattle.bank_memory.specs.Stamps.{last_access_stamp};
ghost use Rattle.bank_memory.specs.Stored.{value_in, StoresAt};

use crate::order::may_follow;
use bank_laws::{LoggedAccess, LoggedKind};
use bank_step::bytes_at;
use hart_reservations::Reserve;
use image::Image;
use std::alloc::Allocator;
use std::collections::BTreeMap;
use std::marker::Model;

/// Number of banks.
pub const BANKS: u32 = 16;

/// Why an access is not logged. Nothing has changed then.
#[derive(Clone, Copy, Drop, PartialEq, Eq)]
pub enum AddFault {
    /// The access is to a word of another bank or by a hart that doesn't exist, its bytes or mark
    /// aren't the bank's, or its stamp is too low.
    Mismatch,
    /// The host refused memory.
    Memory,
}

/// One bank of a program's memory: the bytes of its words, its marks, and the log of accesses that
/// led to both.
#[derive(Drop)]
pub struct Bank<'a, A: Allocator> {
    image: &'a Image<A>,
    inputs: &'a [u32],
    number: u32,
    // The words that stores have changed. All others are the image's.
    changed: BTreeMap<u32, [u8; 4], A>,
    held: Reserve,
    log: Vec<LoggedAccess, A>,
}

impl<'a, A: Allocator> Model for Bank<'a, A> {
    ghost use Rattle.hart_reservations.specs.Reserve.{marks};
    ghost use Rattle.bank_memory.specs.BankLog.{BankLog};
    ghost use Rattle.bank_memory.specs.Stored.{BankHolds};

    ghost Value = { BankLog };

    ghost view = { λ b. record {
      image = b.image.now;
      inputs = b.inputs.now;
      number = b.number;
      log = b.log.items;
    } };

    ghost invariant = { λ b. BankHolds b.image.now b.inputs.now b.number b.log.items b.changed (marks b.held) };
}

impl<'a, A: Allocator> Bank<'a, A> {
    /// A bank as the program begins. There is one hart for each input.
    pub fn new(alloc: A, image: &'a Image<A>, inputs: &'a [u32], number: u32) -> Bank<'a, A>
    where
        A: Copy,
        requires harts { length inputs.now ≤ most_harts }
        requires bank { number < most_banks }
        ensures { result ≡ record {
          image = image.now;
          inputs = inputs.now;
          number = number;
          log = [];
        } }
    {
        Bank {
            image,
            inputs,
            number,
            changed: BTreeMap::new(alloc),
            held: Reserve::new(),
            log: Vec::new(alloc),
        }
    }

    /// The bank's number, from 0.
    pub fn number(&self) -> u32
        ensures { result ≡ self.now.number }
    {
        self.number
    }

    /// The program.
    pub fn image(&self) -> &Image<A>
        ensures { result.now ≡ self.now.image }
    {
        self.image
    }

    /// The harts' inputs.
    pub fn inputs(&self) -> &[u32]
        ensures { result.now ≡ self.now.inputs }
    {
        self.inputs
    }

    /// The bytes of a word, lowest address first.
    pub fn bytes(&self, word: u32) -> [u8; 4]
        ensures { result ≡ (state_of self.now).values word }
    {
        value_at(&self.changed, self.image, word)
    }

    /// For each hart, the word of this bank that its mark is on, if any.
    pub fn marks(&self) -> Reserve
        ensures { marks result ≡ (state_of self.now).marks }
    {
        self.held
    }

    /// Whether a hart's mark is on a word.
    pub fn holds(&self, hart: usize, word: u32) -> bool
        requires { hart < most_harts }
        ensures { result ≡ names ((state_of self.now).marks hart) word }
    {
        self.held.holds(hart, word)
    }

    /// The accesses so far.
    pub fn log(&self) -> &[LoggedAccess]
        ensures { result.now ≡ self.now.log }
    {
        &self.log
    }

    /// The stamp of the last access, and 0 before the first.
    pub fn last_stamp(&self) -> u64
        ensures { result ≡ last_access_stamp self.now.log }
    {
        match self.log.last() {
            Some(access) => access.stamp,
            None => 0,
        }
    }

    // Whether an access that finds the bank's bytes and mark may come next.
    fn fits_found(&self, access: &LoggedAccess) -> bool
        requires { Finds (state_of self.now) access.now }
        ensures { (result ≡ true) ↔ FitsBank self.now access.now }
    {
        access.word % 4 == 0
            && access.word / 4 % BANKS == self.number
            && (access.hart as usize) < self.inputs.len()
            && may_follow(&self.log, access)
    }

    // Whether an access may come next.
    fn fits(&self, access: &LoggedAccess) -> bool
        ensures { (result ≡ true) ↔ FitsBank self.now access.now }
    {
        if access.hart as usize >= self.inputs.len() {
            return false;
        }
        if value_at(&self.changed, self.image, access.word) != access.before {
            return false;
        }
        if self.held.holds(access.hart as usize, access.word) != access.mark {
            return false;
        }
        self.fits_found(access)
    }

    // Logs an access that fits, and applies it to bytes and marks.
    fn take(&mut self, access: LoggedAccess) -> Result<(), AddFault>
    where
        A: Clone,
        requires { FitsBank self.old access }
        ensures ok { OnOk result (self.new ≡ bank_with_access self.old access) }
        ensures fault { IfErr result (λ fault. fault ≡ AddFault.Memory) }
        ensures err { OnErr result (self.new ≡ self.old) }
    {
        let Ok(_) = self.log.push(access) else {
            return Err(AddFault::Memory);
        };
        if !store(&mut self.changed, &access) {
            self.log.pop();
            return Err(AddFault::Memory);
        }
        mark(&mut self.held, &access);
        Ok(())
    }

    /// Logs an access that may come next, and applies it to bytes and marks.
    pub fn add(&mut self, access: LoggedAccess) -> Result<(), AddFault>
    where
        A: Clone,
        ensures ok { OnOk result (FitsBank self.old access × (self.new ≡ bank_with_access self.old access)) }
        ensures fault { IfErr result (λ fault. RefusesAccess self.old access fault) }
        ensures err { OnErr result (self.new ≡ self.old) }
    {
        if !self.fits(&access) {
            return Err(AddFault::Mismatch);
        }
        self.take(access)
    }

    /// As `add`, for an access that is known to find the bank's bytes and mark: neither is checked
    /// again.
    pub fn add_found(&mut self, access: LoggedAccess) -> Result<(), AddFault>
    where
        A: Clone,
        requires { Finds (state_of self.old) access }
        ensures ok { OnOk result (FitsBank self.old access × (self.new ≡ bank_with_access self.old access)) }
        ensures fault { IfErr result (λ fault. RefusesAccess self.old access fault) }
        ensures err { OnErr result (self.new ≡ self.old) }
    {
        if !self.fits_found(&access) {
            return Err(AddFault::Mismatch);
        }
        self.take(access)
    }
}

/// The log of every bank has accesses to its own words only, in order, and each has found what the
/// ones before it left in the words of the image. The image's entry is at a multiple of 4.
pub fn each_bank_is_logged<A: Allocator>(bank: &Bank<A>)
    ensures { IsOfBank bank.now }
{
    // Reading these gives the proof the invariants of the bank and of its image.
    let _ = bank.image.segments();
}

// The bytes of a word: the last stored ones, else the image's.
fn value_at<A: Allocator>(
    changed: &BTreeMap<u32, [u8; 4], A>,
    image: &Image<A>,
    word: u32,
) -> [u8; 4]
    ensures { result ≡ value_in image.now changed.now word }
{
    match changed.get(&word) {
        Some(bytes) => *bytes,
        None => bytes_at(image.segments(), word),
    }
}

// Keeps the bytes of an access that stores. Returns false if out of memory.
fn store<A: Allocator + Clone>(
    changed: &mut BTreeMap<u32, [u8; 4], A>,
    access: &LoggedAccess,
) -> bool
    ensures { StoresAt result changed.old changed.new access.now }
{
    match access.kind {
        LoggedKind::Store | LoggedKind::ConditionalStored => {
            changed.insert(access.word, access.after).is_ok()
        }
        _ => true,
    }
}

// Applies an access to the marks.
fn mark(held: &mut Reserve, access: &LoggedAccess)
    requires hart { access.now.hart < most_harts }
    requires word { access.now.word % 4 ≡ 0 }
    ensures { marks held.new ≡ marks_after access.now.kind (marks held.old) access.now.hart access.now.word }
{
    let hart = access.hart as usize;
    match access.kind {
        LoggedKind::CodeRead | LoggedKind::Load => {}
        LoggedKind::Store => held.stored_by(hart, access.word),
        LoggedKind::LoadReserved => held.set(hart, access.word),
        LoggedKind::ConditionalStored => {
            held.stored_by(hart, access.word);
            held.clear(hart);
        }
        LoggedKind::ConditionalFailed => held.clear(hart),
    }
}
