//! One step of a hart under the locks of the banks that it touches.
ghost use Rattle.std.specs.Prelude.{◌≡◌, ◌≢◌, ◌<◌, ◌%◌, [], ◌∷◌, true, Some, None, IfOk, IfErr, OnOk, length, option_to_list, vec_len};
ghost use Rattle.hart_reservations.specs.Marks.{names};
ghost use Rattle.hart_step.specs.Hart.{hart_of};
ghost use Rattle.bank_laws.specs.Merged.{bank_of};
ghost use Rattle.bank_memory.specs.BankLog.{bank_with_access, state_of, FitsBank};
ghost use Rattle.bank_memory.specs.Stamps.{last_access_stamp, next_stamp};
ghost use Rattle.bank_hart_log.specs.HartLog.{image_table, last_segment_stamp, with_segment, FitsLog, IsAheadTouch, TouchesNext};
ghost use Rattle.bank_hart_log.specs.LastStep.{slot_is, IsCodeRead, IsTouch};
ghost use Rattle.bank_step.specs.Told.{as_touch};
ghost use Rattle.bank_worker.specs.Walked.{IsNextOf, IsWalked};
ghost use Rattle.bank_worker.specs.Worked.{AddsSegment, AddsStep, IsNextIn, IsOfWalk, IsStampedNext};
ghost use Rattle.bank_worker.specs.declared.fault.StepFault.{StepFault};

use crate::fault::StepFault;
use crate::job::Job;
use bank_hart_log::{Found, HartLog, Slot, code_access, data_access};
use bank_laws::LoggedAccess;
use bank_memory::{BANKS, Bank, each_bank_is_logged, next_stamp};
use bank_order::LogSegment;
use bank_step::{CodeTouch, PlannedTouch, Word, needed_word, planned_touch};
use image::Image;
use std::alloc::Allocator;
use std::sync::{MutexGuard, Wait};
use thread_gate::Gate;

// The last bank's place.
const LAST_PLACE: usize = 15;

/// A segment of a hart before its stamp and its accesses are known.
#[derive(Clone, Copy)]
pub struct NextSegment {
    pub hart: u32,
    pub local: u32,
    pub refuse: bool,
    /// The stamp of the hart's last segment.
    pub last_stamp: u64,
}

/// A hart's next segment, and the slot before its last step.
#[derive(Clone, Copy)]
pub struct Walked {
    pub next: NextSegment,
    pub slot: Slot,
}

impl NextSegment {
    // The segment with the stamp after the hart's last one and those of banks, and no accesses yet.
    fn stamped(&self, banks: &[u64]) -> Result<LogSegment, StepFault>
        ensures walked { IfOk result (λ e. IsOfWalk self.now e) }
        ensures stamp { IfOk result (λ e. next_stamp self.now.last_stamp banks.now ≡ Some e.stamp) }
        ensures bare { IfOk result (λ e. e.accesses ≡ []) }
        ensures fault { IfErr result (λ fault. fault ≡ StepFault.StampsExhausted) }
    {
        match next_stamp(self.last_stamp, banks) {
            Some(stamp) => Ok(LogSegment {
                stamp,
                hart: self.hart,
                local: self.local,
                refuse: self.refuse,
                code_read: None,
                data_access: None,
            }),
            None => Err(StepFault::StampsExhausted),
        }
    }
}

// The index of a word's bank.
fn place_of(word: u32) -> usize
    ensures bank { result ≡ bank_of word }
    ensures there { result < 16 }
{
    (word / 4 % BANKS) as usize
}

// What a bank has at a word.
fn found_in<A: Allocator>(bank: &Bank<A>, hart: u32, word: u32) -> Found
    requires { hart < 32 }
    ensures bytes { result.bytes ≡ (state_of bank.now).values word }
    ensures mark { result.mark ≡ names ((state_of bank.now).marks hart) word }
{
    Found {
        bytes: bank.bytes(word),
        mark: bank.holds(hart as usize, word),
    }
}

// Logs a segment whose accesses are those of its last step.
fn log_segment<A: Allocator + Copy>(
    log: &mut HartLog<A>,
    segment: LogSegment,
) -> Result<(), StepFault>
    requires { FitsLog log.old segment }
    ensures added { OnOk result (log.new ≡ with_segment log.old segment) }
    ensures fault { IfErr result (λ fault. fault ≡ StepFault.Memory) }
{
    match log.add(segment) {
        Ok(()) => Ok(()),
        Err(bank_hart_log::AddFault::Memory) => Err(StepFault::Memory),
        Err(bank_hart_log::AddFault::Mismatch) => unreachable!(),
    }
}

// Logs an access that comes next in its bank.
fn log_access<A: Allocator + Copy>(
    bank: &mut Bank<A>,
    access: LoggedAccess,
) -> Result<(), StepFault>
    requires { FitsBank bank.old access }
    ensures added { OnOk result (bank.new ≡ bank_with_access bank.old access) }
    ensures fault { IfErr result (λ fault. fault ≡ StepFault.Memory) }
{
    match bank.add_found(access) {
        Ok(()) => Ok(()),
        Err(bank_memory::AddFault::Memory) => Err(StepFault::Memory),
        Err(bank_memory::AddFault::Mismatch) => unreachable!(),
    }
}

// Logs a segment whose last step is of code and touches a word, in its hart's log, and its access in
// the word's bank. Its stamp is the one after the last stamps of both.
fn commit<A: Allocator + Copy>(
    log: &mut HartLog<A>,
    bank: &mut Bank<A>,
    segment: LogSegment,
    touch: CodeTouch,
) -> Result<(), StepFault>
    requires few { segment.hart < 32 }
    requires there { segment.hart < length bank.old.inputs }
    requires next { TouchesNext log.old segment touch }
    requires its_bank { bank_of touch.touch.word ≡ bank.old.number }
    requires stamp { next_stamp (last_segment_stamp log.old.log) (last_access_stamp bank.old.log ∷ []) ≡ Some segment.stamp }
    ensures added { OnOk result (AddsSegment log.old log.new segment) }
    ensures stamped { OnOk result (IsStampedNext log.old bank.old bank.new) }
    ensures fault { IfErr result (λ fault. fault ≡ StepFault.Memory) }
{
    each_bank_is_logged(bank);
    let found = found_in(bank, segment.hart, touch.touch.word);
    let Ok(access) = log.add_touch(segment, touch, found) else {
        return Err(StepFault::Memory);
    };
    match bank.add_found(access) {
        Ok(()) => Ok(()),
        Err(bank_memory::AddFault::Memory) => Err(StepFault::Memory),
        Err(bank_memory::AddFault::Mismatch) => unreachable!(),
    }
}

/// Does the last step of a segment whose instruction is code and which touches a word, under the
/// lock of the word's bank. Its stamp is made under that lock.
pub fn step_to_word<A: Allocator + Copy, G: Gate, R: Wait>(
    rt: &R,
    job: &Job<A>,
    gate: &G,
    log: &mut HartLog<A>,
    next: &NextSegment,
    touch: CodeTouch,
) -> Result<(), StepFault>
    requires few { next.now.hart < 32 }
    requires next { IsNextOf log.old next.now }
    requires touches { IsAheadTouch log.old (record { local = next.now.local; touch = touch }) }
    ensures { OnOk result (AddsStep log.old log.new next.now) }
{
    let place = place_of(touch.touch.word);
    let mut bank = job.banks()[place].lock(rt);
    if bank.number() != place as u32 || next.hart as usize >= bank.inputs().len() {
        return Err(StepFault::OtherBank);
    }
    let segment = next.stamped(&[bank.last_stamp()])?;
    gate.held(next.hart, place as u32);
    commit(log, &mut bank, segment, touch)
}

// Does the last step of a segment whose instruction is code, under the lock of the bank that it
// touches, if it touches one.
fn step_in_code<A: Allocator + Copy, G: Gate, R: Wait>(
    rt: &R,
    job: &Job<A>,
    gate: &G,
    log: &mut HartLog<A>,
    walked: &Walked,
) -> Result<(), StepFault>
    requires few { walked.now.next.hart < 32 }
    requires next { IsWalked job.now.image.now log.old walked.now }
    requires code { (image_table job.now.image.now).need (hart_of walked.now.slot.hart) ≡ None }
    ensures { OnOk result (AddsStep log.old log.new walked.now.next) }
{
    let Some(touch) = planned_touch(&walked.slot.hart, job.image, None) else {
        let segment = walked.next.stamped(&[])?;
        return log_segment(log, segment);
    };
    let touch = CodeTouch { touch, instr: None };
    step_to_word(rt, job, gate, log, &walked.next, touch)
}

// Whether the bank behind a lock is the one of that place, and has a hart of this number.
fn is_in_place<A: Allocator>(bank: &Bank<A>, place: usize, hart: u32) -> bool
    requires { place < 16 }
    ensures { result ≡ true → (bank.now.number ≡ place) × (hart < length bank.now.inputs) }
{
    bank.number() == place as u32 && (hart as usize) < bank.inputs().len()
}

// Logs the read of a step's code, given what the bank has at the word. The segment's stamp is above
// all in the bank.
fn log_read<A: Allocator + Copy>(
    bank: &mut Bank<A>,
    segment: &LogSegment,
    word: u32,
    read: Found,
) -> Result<LoggedAccess, StepFault>
    requires there { segment.now.hart < length bank.old.inputs }
    requires aligned { word % 4 ≡ 0 }
    requires its_bank { bank_of word ≡ bank.old.number }
    requires above { last_access_stamp bank.old.log < segment.now.stamp }
    requires bytes { read.bytes ≡ (state_of bank.old).values word }
    requires mark { read.mark ≡ names ((state_of bank.old).marks segment.now.hart) word }
    ensures read { IfOk result (λ a. IsCodeRead segment.now word a × (a.before ≡ read.bytes)) }
    ensures added { IfOk result (λ a. bank.new ≡ bank_with_access bank.old a) }
    ensures fault { IfErr result (λ fault. fault ≡ StepFault.Memory) }
{
    each_bank_is_logged(bank);
    let access = code_access(segment, word, read);
    match log_access(bank, access) {
        Ok(()) => Ok(access),
        Err(fault) => Err(fault),
    }
}

// Logs the data access of a step whose code was read. Its stamp is above all in the bank, but for
// the code read itself.
fn log_touch<A: Allocator + Copy>(
    bank: &mut Bank<A>,
    image: &Image<A>,
    slot: &Slot,
    segment: &LogSegment,
    code: Word,
    touch: PlannedTouch,
) -> Result<LoggedAccess, StepFault>
    requires few { segment.now.hart < 32 }
    requires there { segment.now.hart < length bank.old.inputs }
    requires aligned { touch.word % 4 ≡ 0 }
    requires its_bank { bank_of touch.word ≡ bank.old.number }
    requires follows { IsNextIn bank.old segment.now }
    requires need { (image_table image.now).need (hart_of slot.now.hart) ≡ Some code.address }
    requires plan { (image_table image.now).plan (hart_of slot.now.hart) code.bytes ≡ Some (as_touch touch) }
    ensures touches { IfOk result (λ a. IsTouch (image_table image.now) segment.now (slot_is slot.now) code.bytes (as_touch touch) a) }
    ensures fault { IfErr result (λ fault. fault ≡ StepFault.Memory) }
{
    let found = found_in(bank, segment.hart, touch.word);
    let access = data_access(image, slot, segment, Some(code), touch, found);
    match log_access(bank, access) {
        Ok(()) => Ok(access),
        Err(fault) => Err(fault),
    }
}

// A segment with these accesses and no other.
fn with_accesses(
    segment: LogSegment,
    code_read: LoggedAccess,
    data_access: Option<LoggedAccess>,
) -> LogSegment
    ensures { result ≡ record segment { accesses = code_read ∷ option_to_list data_access } }
{
    LogSegment {
        stamp: segment.stamp,
        hart: segment.hart,
        local: segment.local,
        refuse: segment.refuse,
        code_read: Some(code_read),
        data_access,
    }
}

// Does the last step of a segment whose code was read and which touches nothing, under the lock of
// the code's bank.
fn step_to_nothing<A: Allocator + Copy>(
    job: &Job<A>,
    log: &mut HartLog<A>,
    bank: &mut Bank<A>,
    walked: &Walked,
    code: Word,
    read: Found,
) -> Result<(), StepFault>
    requires next { IsWalked job.now.image.now log.old walked.now }
    requires need { (image_table job.now.image.now).need (hart_of walked.now.slot.hart) ≡ Some code.address }
    requires plan { (image_table job.now.image.now).plan (hart_of walked.now.slot.hart) code.bytes ≡ None }
    requires there { walked.now.next.hart < length bank.old.inputs }
    requires aligned { code.address % 4 ≡ 0 }
    requires its_bank { bank_of code.address ≡ bank.old.number }
    requires bytes { (read.bytes ≡ code.bytes) × (read.bytes ≡ (state_of bank.old).values code.address) }
    requires mark { read.mark ≡ names ((state_of bank.old).marks walked.now.next.hart) code.address }
    ensures { OnOk result (AddsStep log.old log.new walked.now.next) }
{
    let stamps = [bank.last_stamp()];
    let segment = walked.next.stamped(&stamps)?;
    let code_read = log_read(bank, &segment, code.address, read)?;
    log_segment(log, with_accesses(segment, code_read, None))
}

// Does the last step of a segment whose code was read and which touches a word of the same bank,
// under its lock.
fn step_in_one_bank<A: Allocator + Copy>(
    job: &Job<A>,
    log: &mut HartLog<A>,
    bank: &mut Bank<A>,
    walked: &Walked,
    code: Word,
    read: Found,
    touch: PlannedTouch,
) -> Result<(), StepFault>
    requires few { walked.now.next.hart < 32 }
    requires next { IsWalked job.now.image.now log.old walked.now }
    requires need { (image_table job.now.image.now).need (hart_of walked.now.slot.hart) ≡ Some code.address }
    requires plan { (image_table job.now.image.now).plan (hart_of walked.now.slot.hart) code.bytes ≡ Some (as_touch touch) }
    requires there { walked.now.next.hart < length bank.old.inputs }
    requires aligned { code.address % 4 ≡ 0 }
    requires word { touch.word % 4 ≡ 0 }
    requires its_bank { (bank_of code.address ≡ bank.old.number) × (bank_of touch.word ≡ bank.old.number) }
    requires bytes { (read.bytes ≡ code.bytes) × (read.bytes ≡ (state_of bank.old).values code.address) }
    requires mark { read.mark ≡ names ((state_of bank.old).marks walked.now.next.hart) code.address }
    ensures { OnOk result (AddsStep log.old log.new walked.now.next) }
{
    each_bank_is_logged(bank);
    let stamps = [bank.last_stamp()];
    let segment = walked.next.stamped(&stamps)?;
    let code_read = log_read(bank, &segment, code.address, read)?;
    let access = log_touch(bank, job.image, &walked.slot, &segment, code, touch)?;
    log_segment(log, with_accesses(segment, code_read, Some(access)))
}

// Does the last step of a segment whose code was read and which touches a word of another bank,
// under the locks of both.
fn step_in_two_banks<A: Allocator + Copy>(
    job: &Job<A>,
    log: &mut HartLog<A>,
    code_bank: &mut Bank<A>,
    data_bank: &mut Bank<A>,
    walked: &Walked,
    code: Word,
    read: Found,
    touch: PlannedTouch,
) -> Result<(), StepFault>
    requires few { walked.now.next.hart < 32 }
    requires next { IsWalked job.now.image.now log.old walked.now }
    requires need { (image_table job.now.image.now).need (hart_of walked.now.slot.hart) ≡ Some code.address }
    requires plan { (image_table job.now.image.now).plan (hart_of walked.now.slot.hart) code.bytes ≡ Some (as_touch touch) }
    requires there { (walked.now.next.hart < length code_bank.old.inputs) × (walked.now.next.hart < length data_bank.old.inputs) }
    requires aligned { code.address % 4 ≡ 0 }
    requires word { touch.word % 4 ≡ 0 }
    requires its_bank { (bank_of code.address ≡ code_bank.old.number) × (bank_of touch.word ≡ data_bank.old.number) }
    requires bytes { (read.bytes ≡ code.bytes) × (read.bytes ≡ (state_of code_bank.old).values code.address) }
    requires mark { read.mark ≡ names ((state_of code_bank.old).marks walked.now.next.hart) code.address }
    ensures { OnOk result (AddsStep log.old log.new walked.now.next) }
{
    each_bank_is_logged(data_bank);
    let segment = walked
        .next
        .stamped(&[code_bank.last_stamp(), data_bank.last_stamp()])?;
    let code_read = log_read(code_bank, &segment, code.address, read)?;
    let access = log_touch(data_bank, job.image, &walked.slot, &segment, code, touch)?;
    log_segment(log, with_accesses(segment, code_read, Some(access)))
}

// The banks behind their locks, which are taken in ascending order.
fn lock_all<'j, 'a, A: Allocator + Copy, R: Wait>(
    rt: &R,
    alloc: A,
    job: &'j Job<'a, A>,
) -> Result<Vec<MutexGuard<'j, Bank<'a, A>>, A>, StepFault>
    ensures sixteen { IfOk result (λ held. vec_len held ≡ 16) }
    ensures fault { IfErr result (λ fault. fault ≡ StepFault.Memory) }
{
    let mut held = Vec::new(alloc);
    'banks: for bank in job.banks() {
        if held.push(bank.lock(rt)).is_err() {
            return Err(StepFault::Memory);
        }
    }
    Ok(held)
}

// The place of a bank among those that are left when the bank of another place has been taken out:
// the last one has moved there.
fn place_left(place: usize, taken: usize) -> usize
    requires there { place < 16 }
    requires taken { taken < 16 }
    requires other { place ≢ taken }
    ensures { result < 15 }
{
    if place == LAST_PLACE { taken } else { place }
}

// Does the last step of a segment whose instruction is in a writable word, under the locks of all
// banks: the word that it touches isn't known before the instruction is read.
fn step_outside_code<A: Allocator + Copy, G: Gate, R: Wait>(
    rt: &R,
    alloc: A,
    job: &Job<A>,
    gate: &G,
    log: &mut HartLog<A>,
    walked: &Walked,
    word: u32,
) -> Result<(), StepFault>
    requires few { walked.now.next.hart < 32 }
    requires next { IsWalked job.now.image.now log.old walked.now }
    requires need { (image_table job.now.image.now).need (hart_of walked.now.slot.hart) ≡ Some word }
    ensures { OnOk result (AddsStep log.old log.new walked.now.next) }
{
    // Reading these gives the proof that the entry is a multiple of 4.
    let _ = job.image.segments();
    let mut held = lock_all(rt, alloc, job)?;
    let at = place_of(word);
    let mut code_bank = held.swap_remove(at);
    if !is_in_place(&code_bank, at, walked.next.hart) {
        return Err(StepFault::OtherBank);
    }
    let read = found_in(&code_bank, walked.next.hart, word);
    let bytes = read.bytes;
    let code = Word {
        address: word,
        bytes,
    };
    let Some(touch) = planned_touch(&walked.slot.hart, job.image, Some(code)) else {
        return step_to_nothing(job, log, &mut code_bank, walked, code, read);
    };
    let place = place_of(touch.word);
    gate.held(walked.next.hart, place as u32);
    if place == at {
        return step_in_one_bank(job, log, &mut code_bank, walked, code, read, touch);
    }
    let mut data_bank = held.swap_remove(place_left(place, at));
    if !is_in_place(&data_bank, place, walked.next.hart) {
        return Err(StepFault::OtherBank);
    }
    step_in_two_banks(
        job,
        log,
        &mut code_bank,
        &mut data_bank,
        walked,
        code,
        read,
        touch,
    )
}

/// Logs a segment in its hart's log, and the accesses of its last step in the banks, under the
/// locks of those banks. Its stamp is made under these locks, so neither log refuses it. The
/// instruction is read from the image or from its bank.
pub fn step<A: Allocator + Copy, G: Gate, R: Wait>(
    rt: &R,
    alloc: A,
    job: &Job<A>,
    gate: &G,
    log: &mut HartLog<A>,
    walked: &Walked,
) -> Result<(), StepFault>
    requires few { walked.now.next.hart < 32 }
    requires next { IsWalked job.now.image.now log.old walked.now }
    ensures { OnOk result (AddsStep log.old log.new walked.now.next) }
{
    match needed_word(&walked.slot.hart, job.image) {
        None => step_in_code(rt, job, gate, log, walked),
        Some(word) => step_outside_code(rt, alloc, job, gate, log, walked, word),
    }
}
