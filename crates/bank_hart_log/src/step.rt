//! The last step of a segment.
ghost use Rattle.std.specs.Prelude.{◌≡◌, ◌↔◌, ◌&&◌, ◌∷◌, true, false, [], Some, None, Ok, IfSome, MatchOption, option_to_list};
ghost use Rattle.mem_store.specs.Image.{image_memory};
ghost use Rattle.mem_store.specs.Instruction.{instruction_at};
ghost use Rattle.hart_reservations.specs.Marks.{names};
ghost use Rattle.hart_step.specs.Hart.{hart_of};
ghost use Rattle.bank_laws.specs.Banks.{WordBytes, is_store, named_by_kind};
ghost use Rattle.bank_laws.specs.Runs.{kind_of, succeeds, word_after};
ghost use Rattle.bank_laws.specs.Segments.{logged_access, code_reads, slot_did};
ghost use Rattle.bank_laws.specs.HartLogs.{StepFits, step_slot, local_hart};
ghost use Rattle.bank_laws.specs.Carried.{act_of};
ghost use Rattle.bank_laws.specs.Table.{word_in};
ghost use Rattle.bank_step.specs.Told.{as_touch, told_memory, told_word};
ghost use Rattle.bank_hart_log.specs.HartLog.{image_table, slot_with, StepsAreLocal};
ghost use Rattle.bank_hart_log.specs.LastStep.{access_list, slot_is, succeeds_at, data_slot, IsCodeRead, IsTouch, DataFits, SlotIf};

use crate::local::is_local_next;
use bank_laws::{LoggedAccess, LoggedKind};
use bank_order::LogSegment;
use bank_step::{
    PlannedTouch, ToldWords, Word, needed_word, planned_touch, settle, settle_known,
    settle_known_store,
};
use hart_step::{AccessKind, Hart};
use image::Image;
use isa_table::Instr;
use std::alloc::Allocator;

/// A hart with the word that its last LR without a fault named, if no store-conditional without a
/// fault came after it.
#[derive(Clone, Copy)]
pub struct Slot {
    /// The hart.
    pub hart: Hart,
    /// The word.
    pub named: Option<u32>,
}

/// Whether a touch is a store-conditional that stores.
pub fn succeeds(kind: AccessKind, refuse: bool, holds: bool) -> bool
    ensures { result ≡ succeeds (act_of kind) refuse holds }
{
    match kind {
        AccessKind::StoreConditional => !refuse && holds,
        AccessKind::Load | AccessKind::Store | AccessKind::LoadReserved | AccessKind::Amo => false,
    }
}

/// How a touch is logged.
pub fn logged_kind(kind: AccessKind, stored: bool) -> LoggedKind
    ensures { result ≡ kind_of (act_of kind) stored }
{
    match kind {
        AccessKind::Load => LoggedKind::Load,
        AccessKind::Store | AccessKind::Amo => LoggedKind::Store,
        AccessKind::LoadReserved => LoggedKind::LoadReserved,
        AccessKind::StoreConditional => {
            if stored {
                LoggedKind::ConditionalStored
            } else {
                LoggedKind::ConditionalFailed
            }
        }
    }
}

/// Whether an access of this kind stores.
pub fn is_store(kind: LoggedKind) -> bool
    ensures { result ≡ is_store kind }
{
    matches!(kind, LoggedKind::Store | LoggedKind::ConditionalStored)
}

/// The word that a hart's last LR names, after an access to a word.
pub fn named_after(kind: LoggedKind, word: u32, named: Option<u32>) -> Option<u32>
    ensures { result ≡ named_by_kind kind word named }
{
    match kind {
        LoggedKind::CodeRead | LoggedKind::Load | LoggedKind::Store => named,
        LoggedKind::LoadReserved => Some(word),
        LoggedKind::ConditionalStored | LoggedKind::ConditionalFailed => None,
    }
}

/// Whether a hart's last LR names this word.
pub fn names(named: Option<u32>, word: u32) -> bool
    ensures { result ≡ names named word }
{
    match named {
        Some(reserved) => reserved == word,
        None => false,
    }
}

// Whether two accesses are the same.
fn is_same(first: &LoggedAccess, second: &LoggedAccess) -> bool
    ensures { (result ≡ true) ↔ (first.now ≡ second.now) }
{
    *first == *second
}

/// What an access finds: the word's bytes, and whether the hart's mark is on it.
#[derive(Clone, Copy)]
pub struct Found {
    /// The bytes, lowest address first.
    pub bytes: [u8; 4],
    /// Whether the word's bank has this hart's mark on it.
    pub mark: bool,
}

/// The code read of the last step, given the word's bytes and mark.
pub fn code_access(segment: &LogSegment, word: u32, found: Found) -> LoggedAccess
    ensures { code_reads segment.now (Some word) found.bytes found.mark ≡ result ∷ [] }
{
    let bytes = found.bytes;
    LoggedAccess {
        stamp: segment.stamp,
        hart: segment.hart,
        kind: LoggedKind::CodeRead,
        word,
        before: bytes,
        after: bytes,
        mark: found.mark,
    }
}

// Whether an access is the code read of a step, from this word.
fn is_code_read(segment: &LogSegment, word: u32, access: &LoggedAccess) -> bool
    ensures { (result ≡ true) ↔ IsCodeRead segment.now word access.now }
{
    let expected = LoggedAccess {
        stamp: segment.stamp,
        hart: segment.hart,
        kind: LoggedKind::CodeRead,
        word,
        before: access.before,
        after: access.before,
        mark: access.mark,
    };
    is_same(access, &expected)
}

// Does a hart's step that touches a word, given its instruction too, if that is known; returns the
// word's bytes after an access of this kind. A store-conditional succeeds if `succeeds` is set.
fn settle_word<A: Allocator>(
    hart: &mut Hart,
    image: &Image<A>,
    code: Option<Word>,
    touched: Word,
    instr: Option<Instr>,
    kind: LoggedKind,
    succeeds: bool,
) -> [u8; 4]
    requires { IfSome instr (λ i. Ok i ≡ instruction_at
        (told_memory (image_memory image.now) code (Some touched) None) hart.old.pc) }
    ensures after { (c : WordBytes) → let t = image_table image.now in let h = hart_of hart.old in
        code ≡ told_word (t.need h) c → Some touched ≡ told_word (word_in (t.plan h c)) touched.bytes
        → hart_of hart.new ≡ t.after h c touched.bytes succeeds }
    ensures word { (c : WordBytes) → let t = image_table image.now in let h = hart_of hart.old in
        code ≡ told_word (t.need h) c → Some touched ≡ told_word (word_in (t.plan h c)) touched.bytes
        → result ≡ word_after t h c touched.bytes kind }
{
    if is_store(kind) {
        return settle_known_store(hart, image, code, touched, instr, succeeds);
    }
    let words = ToldWords {
        code,
        touched: Some(touched),
    };
    settle_known(hart, image, words, instr, succeeds);
    touched.bytes
}

// Whether a touch is a store-conditional that stores, given the word that the hart's last LR named,
// and the mark that it finds.
fn stores(named: Option<u32>, segment: &LogSegment, touch: PlannedTouch, mark: bool) -> bool
    ensures { result ≡ succeeds (as_touch touch).act segment.now.refuse (mark && names named touch.word) }
{
    let holds = mark && names(named, touch.word);
    succeeds(touch.kind, segment.refuse, holds)
}

/// What the last step of a segment logs of the word that it touches, and what it leaves named.
#[derive(Clone, Copy)]
pub(crate) struct TouchedWord {
    /// The access to the word.
    pub access: LoggedAccess,
    /// The word that the hart's last LR named, after the step.
    pub named: Option<u32>,
}

/// Does a hart's step, the last of a segment, which touches a word, given the word's bytes and mark.
/// `code` is the word of the instruction, if that must be read; `instr` is the instruction, if it is
/// known.
pub(crate) fn touch_word<A: Allocator>(
    image: &Image<A>,
    hart: &mut Hart,
    named: Option<u32>,
    segment: &LogSegment,
    code: Option<Word>,
    touch: PlannedTouch,
    instr: Option<Instr>,
    found: Found,
) -> TouchedWord
    requires { IfSome instr (λ i. Ok i ≡ instruction_at (told_memory (image_memory image.now) code
        (Some (record { address = touch.word; bytes = found.bytes })) None) hart.old.pc) }
    ensures access { (c : WordBytes) → let t = image_table image.now in let s = slot_with hart.old named in let e = segment.now in
        code ≡ told_word (t.need s.hart) c → t.plan s.hart c ≡ Some (as_touch touch)
        → result.access ≡ logged_access t e s.hart c (as_touch touch) found.bytes found.mark
        (succeeds (as_touch touch).act e.refuse (found.mark && names s.named touch.word)) }
    ensures touches { (result.access.hart ≡ segment.now.hart) × (result.access.word ≡ touch.word) }
    ensures slot { (c : WordBytes) → let t = image_table image.now in let s = slot_with hart.old named in let e = segment.now in
        code ≡ told_word (t.need s.hart) c → t.plan s.hart c ≡ Some (as_touch touch)
        → slot_with hart.new result.named ≡ slot_did t s c (as_touch touch) found.bytes
        (succeeds (as_touch touch).act e.refuse (found.mark && names s.named touch.word)) }
{
    let succeeds = stores(named, segment, touch, found.mark);
    let kind = logged_kind(touch.kind, succeeds);
    let before = found.bytes;
    let word = Word {
        address: touch.word,
        bytes: before,
    };
    let after = settle_word(hart, image, code, word, instr, kind, succeeds);
    TouchedWord {
        access: LoggedAccess {
            stamp: segment.stamp,
            hart: segment.hart,
            kind,
            word: touch.word,
            before,
            after,
            mark: found.mark,
        },
        named: named_after(kind, touch.word, named),
    }
}

/// The access of a touch in the last step of a segment, given the word's bytes and mark. `code` is
/// the word of the instruction, if that must be read.
pub fn data_access<A: Allocator>(
    image: &Image<A>,
    slot: &Slot,
    segment: &LogSegment,
    code: Option<Word>,
    touch: PlannedTouch,
    found: Found,
) -> LoggedAccess
    ensures { (c : WordBytes) → let t = image_table image.now in let s = slot_is slot.now in let e = segment.now in
        code ≡ told_word (t.need s.hart) c → t.plan s.hart c ≡ Some (as_touch touch)
        → result ≡ logged_access t e s.hart c (as_touch touch) found.bytes found.mark
        (succeeds (as_touch touch).act e.refuse (found.mark && names s.named touch.word)) }
{
    let mut hart = slot.hart;
    let named = slot.named;
    touch_word(image, &mut hart, named, segment, code, touch, None, found).access
}

// The slot after a step that touches a word, if an access is that of the touch.
fn touched<A: Allocator>(
    image: &Image<A>,
    slot: &Slot,
    segment: &LogSegment,
    code: Option<Word>,
    touch: PlannedTouch,
    access: &LoggedAccess,
) -> Option<Slot>
    ensures { (c : WordBytes) → let t = image_table image.now in let s = slot_is slot.now in let e = segment.now in
        code ≡ told_word (t.need s.hart) c → t.plan s.hart c ≡ Some (as_touch touch)
        → SlotIf (IsTouch t e s c (as_touch touch) access.now)
        (slot_did t s c (as_touch touch) access.now.before (succeeds_at e s (as_touch touch) access.now)) result }
{
    let found = Found {
        bytes: access.before,
        mark: access.mark,
    };
    let mut hart = slot.hart;
    let expected = touch_word(
        image, &mut hart, slot.named, segment, code, touch, None, found,
    );
    if !is_same(access, &expected.access) {
        return None;
    }
    Some(Slot {
        hart,
        named: expected.named,
    })
}

// The slot after a step that touches no data.
fn untouched<A: Allocator>(image: &Image<A>, slot: &Slot, code: Option<Word>) -> Slot
    ensures { (c : WordBytes) → let t = image_table image.now in let s = slot_is slot.now in
        code ≡ told_word (t.need s.hart) c → t.plan s.hart c ≡ None
        → slot_is result ≡ record { hart = t.after s.hart c [] false; named = s.named } }
{
    let mut hart = slot.hart;
    let words = ToldWords {
        code,
        touched: None,
    };
    settle(&mut hart, image, words, false);
    Slot {
        hart,
        named: slot.named,
    }
}

// The slot after a step, given the word of its code, if the given access, or none, is its data
// access.
fn data_step<A: Allocator>(
    image: &Image<A>,
    slot: &Slot,
    segment: &LogSegment,
    code: Option<Word>,
    access: Option<LoggedAccess>,
) -> Option<Slot>
    ensures { (c : WordBytes) → let t = image_table image.now in let s = slot_is slot.now in let e = segment.now in
        code ≡ told_word (t.need s.hart) c
        → SlotIf (DataFits t e s c (option_to_list access)) (data_slot t e s c (option_to_list access)) result }
{
    let plan = planned_touch(&slot.hart, image, code);
    match plan {
        None => match access {
            None => Some(untouched(image, slot, code)),
            Some(_) => None,
        },
        Some(touch) => match access {
            None => None,
            Some(access) => touched(image, slot, segment, code, touch, &access),
        },
    }
}

/// The accesses of a segment: the first, and the second if there is one.
#[derive(Clone, Copy)]
struct Accesses {
    first: LoggedAccess,
    second: Option<LoggedAccess>,
}

fn accesses_of(segment: &LogSegment) -> Option<Accesses>
    ensures { access_list result ≡ segment.now.accesses }
{
    match segment.code_read {
        Some(first) => Some(Accesses {
            first,
            second: segment.data_access,
        }),
        None => match segment.data_access {
            Some(first) => Some(Accesses {
                first,
                second: None,
            }),
            None => None,
        },
    }
}

// The slot after the last step of a segment whose instruction is code.
fn step_in_code<A: Allocator>(
    image: &Image<A>,
    slot: &Slot,
    segment: &LogSegment,
    accesses: Option<Accesses>,
) -> Option<Slot>
    requires code { (image_table image.now).need (slot_is slot.now).hart ≡ None }
    requires accesses { access_list accesses ≡ segment.now.accesses }
    ensures { let t = image_table image.now in let s = slot_is slot.now in
        SlotIf (StepFits t segment.now s) (step_slot t segment.now s) result }
{
    match accesses {
        None => data_step(image, slot, segment, None, None),
        Some(Accesses { first, second }) => match second {
            None => data_step(image, slot, segment, None, Some(first)),
            Some(_) => None,
        },
    }
}

// The slot after the last step of a segment whose instruction must be read from memory.
fn step_outside_code<A: Allocator>(
    image: &Image<A>,
    slot: &Slot,
    segment: &LogSegment,
    accesses: Option<Accesses>,
    word: u32,
) -> Option<Slot>
    requires code { (image_table image.now).need (slot_is slot.now).hart ≡ Some word }
    requires accesses { access_list accesses ≡ segment.now.accesses }
    ensures { let t = image_table image.now in let s = slot_is slot.now in
        SlotIf (StepFits t segment.now s) (step_slot t segment.now s) result }
{
    let Accesses { first, second } = match accesses {
        None => return None,
        Some(accesses) => accesses,
    };
    if !is_code_read(segment, word, &first) {
        return None;
    }
    let code = Word {
        address: word,
        bytes: first.before,
    };
    data_step(image, slot, segment, Some(code), second)
}

/// The slot after the last step of a segment, if the segment's accesses are those of the step,
/// given the bytes and marks that they have found.
pub(crate) fn last_step<A: Allocator>(
    image: &Image<A>,
    slot: &Slot,
    segment: &LogSegment,
) -> Option<Slot>
    ensures { let t = image_table image.now in let s = slot_is slot.now in
        SlotIf (StepFits t segment.now s) (step_slot t segment.now s) result }
{
    let accesses = accesses_of(segment);
    match needed_word(&slot.hart, image) {
        None => step_in_code(image, slot, segment, accesses),
        Some(word) => step_outside_code(image, slot, segment, accesses, word),
    }
}

/// The hart after `count` steps, if they are local.
pub(crate) fn walked<A: Allocator>(image: &Image<A>, hart: &Hart, count: u32) -> Option<Hart>
    ensures { let m = image.now in MatchOption result (StepsAreLocal m count (hart_of hart.now) → ⊥)
        (λ reached. StepsAreLocal m count (hart_of hart.now)
        × (hart_of reached ≡ local_hart (image_table m) count (hart_of hart.now))) }
{
    let mut reached = *hart;
    'steps: for _ in 0..count {
        if !is_local_next(image, &reached) {
            return None;
        }
        let words = ToldWords {
            code: None,
            touched: None,
        };
        settle(&mut reached, image, words, false);
    }
    Some(reached)
}
