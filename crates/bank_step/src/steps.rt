//! What a hart's next step needs, touches and does.
ghost use Rattle.std.specs.Prelude.{◌≡◌, ◌<◌, ◌%◌, Bool, Some, None, Ok, true, false, IfSome, option_map, if◌then◌else◌};
ghost use Rattle.mem_store.specs.Memory.{granted, to_load, to_write};
ghost use Rattle.mem_store.specs.Image.{image_memory};
ghost use Rattle.mem_store.specs.Instruction.{instruction_at};
ghost use Rattle.hart_reservations.specs.Marks.{with_mark};
ghost use Rattle.hart_reservations.specs.Reserve.{marks};
ghost use Rattle.hart_step.specs.Hart.{hart_of};
ghost use Rattle.bank_laws.specs.Banks.{WordBytes};
ghost use Rattle.hart_step.specs.Step.{stepped};
ghost use Rattle.hart_step.specs.declared.hart.HartState.TheVariants.{Running};
ghost use Rattle.bank_laws.specs.Table.{table, told, word_in};
ghost use Rattle.bank_step.specs.Told.{touched_if, as_touch, is_granted, told_memory, told_word, touch_by, tries_by, wanted, word_by, LeavesSite};

use crate::image_bytes::{granted, is_executable, is_unwritable};
use crate::words::{KnownInstr, ToldMemory, Word};
use hart_reservations::Reserve;
use hart_step::{Access, AccessKind, Hart, HartState, access_by, step_hart};
use image::{Image, Rights};
use isa_table::Instr;
use mem_store::{FetchFault, Store};
use std::alloc::Allocator;

/// The word that a step touches.
#[derive(Clone, Copy, PartialEq, Eq)]
pub struct PlannedTouch {
    /// What is done with it.
    pub kind: AccessKind,
    /// The address of its first byte, a multiple of 4.
    pub word: u32,
}

/// The word that a step of code touches.
#[derive(Clone, Copy)]
pub struct CodeTouch {
    /// The word, and what is done with it.
    pub touch: PlannedTouch,
    /// The instruction, if it is known.
    pub instr: Option<Instr>,
}

/// The words that a step is given.
#[derive(Clone, Copy, PartialEq, Eq)]
pub struct ToldWords {
    /// The word that the hart must read to know its instruction, if it must.
    pub code: Option<Word>,
    /// The word that the instruction touches, if it touches one.
    pub touched: Option<Word>,
}

/// The word that a hart must read to know its next instruction. `None` if the hart has stopped, if
/// the word isn't executable, or if it is code, which never differs from the image.
pub fn needed_word<A: Allocator>(hart: &Hart, image: &Image<A>) -> Option<u32>
    ensures { result ≡ (table (image_memory image.now)).need (hart_of hart.now) }
{
    let HartState::Running = hart.state else {
        return None;
    };
    let segments = image.segments();
    if is_executable(segments, hart.pc) && !is_unwritable(segments, hart.pc) {
        Some(hart.pc)
    } else {
        None
    }
}

// The right that an access needs.
fn wanted(kind: AccessKind) -> Rights
    ensures { result.0 ≡ wanted kind }
{
    match kind {
        AccessKind::Load | AccessKind::LoadReserved => Rights::ANY,
        AccessKind::Store | AccessKind::StoreConditional | AccessKind::Amo => Rights::WRITE,
    }
}

// Whether an access has no fault.
fn is_granted<A: Allocator>(image: &Image<A>, access: &Access) -> bool
    requires { 0 < access.now.size }
    ensures { result ≡ is_granted (image_memory image.now) access.now }
{
    access.address % access.size == 0
        && granted(
            image.segments(),
            wanted(access.kind),
            access.size,
            access.address,
        )
}

/// The word that an access touches, unless it faults.
pub fn touch_by<A: Allocator>(image: &Image<A>, access: Option<Access>) -> Option<PlannedTouch>
    requires { IfSome access (λ c. 0 < c.size) }
    ensures touch { option_map as_touch result ≡ touch_by (image_memory image.now) access }
    ensures aligned { IfSome result (λ t. t.word % 4 ≡ 0) }
{
    let access = access?;
    if !is_granted(image, &access) {
        return None;
    }
    Some(PlannedTouch {
        kind: access.kind,
        word: access.address - access.address % 4,
    })
}

/// The word that a hart's next step touches, given the word that it needs. `None` if the hart has
/// stopped, if its instruction touches no word, or if it faults.
pub fn planned_touch<A: Allocator>(
    hart: &Hart,
    image: &Image<A>,
    code: Option<Word>,
) -> Option<PlannedTouch>
    ensures plan { (c : WordBytes) → code ≡ told_word ((table (image_memory image.now)).need (hart_of hart.now)) c
        → option_map as_touch result ≡ (table (image_memory image.now)).plan (hart_of hart.now) c }
    ensures aligned { IfSome result (λ t. t.word % 4 ≡ 0) }
{
    let HartState::Running = hart.state else {
        return None;
    };
    let memory = ToldMemory {
        image,
        code,
        touched: None,
        target: None,
        known: None,
    };
    match memory.instruction(hart.pc) {
        Ok(instr) => touch_by(image, access_by(hart, instr)),
        Err(_) => None,
    }
}

// The access of a hart's instruction, if there is one, whether it faults or not.
fn access_if(hart: &Hart, found: Result<Instr, FetchFault>) -> Option<Access>
    ensures { result ≡ touched_if found (hart_of hart.now) }
{
    match found {
        Ok(instr) => access_by(hart, instr),
        Err(_) => None,
    }
}

// The word of an access, with its bytes in a memory.
fn word_by<A: Allocator>(memory: &ToldMemory<A>, access: Option<Access>) -> Option<Word>
    ensures { result ≡ word_by
        (told_memory (image_memory memory.now.image.now) memory.now.code memory.now.touched memory.now.target).bytes access }
{
    let access = access?;
    Some(memory.word_at(access.address - access.address % 4))
}

// Whether an access is a store-conditional's.
fn tries_by(access: Option<Access>) -> bool
    ensures { result ≡ tries_by access }
{
    let Some(access) = access else {
        return false;
    };
    match access.kind {
        AccessKind::StoreConditional => true,
        AccessKind::Load | AccessKind::Store | AccessKind::LoadReserved | AccessKind::Amo => false,
    }
}

// A reservation of the touched word, if a store-conditional is to succeed.
fn reserve_of(touched: Option<Word>, succeeds: bool) -> Reserve
    ensures { marks result 0 ≡ (if succeeds then option_map (λ w. w.address) touched else None) }
{
    let mut reserve = Reserve::new();
    let word = match touched {
        None => return reserve,
        Some(word) => word,
    };
    if succeeds {
        reserve.set(0, word.address);
    }
    reserve
}

// An image's memory with these words in place, none of which is writable yet.
#[inline]
fn memory_of<A: Allocator>(image: &Image<A>, words: ToldWords) -> ToldMemory<A>
    ensures image { result.image.now ≡ image.now }
    ensures code { result.code ≡ words.code }
    ensures touched { result.touched ≡ words.touched }
    ensures target { result.target ≡ None }
{
    ToldMemory {
        image,
        code: words.code,
        touched: words.touched,
        target: None,
        known: None,
    }
}

// A hart's step over an image's memory with at most two given words, given its instruction and the
// access of that. Only bytes of the memory may have changed. `succeeds` matters only to a
// store-conditional.
fn told_step<A: Allocator>(
    hart: &mut Hart,
    memory: &mut ToldMemory<A>,
    known: KnownInstr,
    access: Option<Access>,
    succeeds: bool,
)
    requires target { memory.old.target ≡ None }
    requires here { known.address ≡ hart.old.pc }
    requires found { known.found ≡ instruction_at
        (told_memory (image_memory memory.old.image.now) memory.old.code memory.old.touched memory.old.target) hart.old.pc }
    requires access { access ≡ touched_if known.found (hart_of hart.old) }
    ensures { (c v : WordBytes) (ok : Bool) → let m = image_memory memory.old.image.now in let h = hart_of hart.old in
        memory.old.code ≡ told_word ((table m).need h) c → memory.old.touched ≡ told_word (word_in ((table m).plan h c)) v
        → (tries_by access ≡ true → succeeds ≡ ok)
        → LeavesSite (hart_of hart.new)
        (told_memory (image_memory memory.new.image.now) memory.new.code memory.new.touched memory.new.target).bytes
        (stepped 0 false (told m h c v ok)) }
{
    let target = word_by(memory, access);
    memory.begin(target, known);
    let mut reserve = reserve_of(memory.touched, succeeds);
    let Ok(()) = step_hart(hart, 0, memory, &mut reserve, false) else {
        unreachable!();
    };
}

/// Does a hart's next step, given the word that it needs and the word that its instruction touches.
/// A store-conditional succeeds if `succeeds` is set.
pub fn settle<A: Allocator>(hart: &mut Hart, image: &Image<A>, words: ToldWords, succeeds: bool)
    ensures { (c v : WordBytes) → let t = table (image_memory image.now) in let h = hart_of hart.old in
        words.code ≡ told_word (t.need h) c → words.touched ≡ told_word (word_in (t.plan h c)) v
        → hart_of hart.new ≡ t.after h c v succeeds }
{
    settle_known(hart, image, words, None, succeeds);
}

/// Does a hart's next step as `settle` does, given its instruction too, if that is known.
pub fn settle_known<A: Allocator>(
    hart: &mut Hart,
    image: &Image<A>,
    words: ToldWords,
    instr: Option<Instr>,
    succeeds: bool,
)
    requires { IfSome instr (λ i. Ok i ≡ instruction_at
        (told_memory (image_memory image.now) words.code words.touched None) hart.old.pc) }
    ensures { (c v : WordBytes) → let t = table (image_memory image.now) in let h = hart_of hart.old in
        words.code ≡ told_word (t.need h) c → words.touched ≡ told_word (word_in (t.plan h c)) v
        → hart_of hart.new ≡ t.after h c v succeeds }
{
    let mut memory = memory_of(image, words);
    let known = memory.look_up(hart.pc, instr);
    let access = access_if(hart, known.found);
    told_step(hart, &mut memory, known, access, succeeds);
}

/// Does a hart's next step as `settle` does. Returns the bytes of the touched word after it, if it
/// stores.
pub fn settle_store<A: Allocator>(
    hart: &mut Hart,
    image: &Image<A>,
    code: Option<Word>,
    touched: Word,
    succeeds: bool,
) -> [u8; 4]
    ensures after { (c v : WordBytes) → let t = table (image_memory image.now) in let h = hart_of hart.old in
        code ≡ told_word (t.need h) c → Some touched ≡ told_word (word_in (t.plan h c)) v
        → hart_of hart.new ≡ t.after h c v succeeds }
    ensures stored { (c v : WordBytes) → let t = table (image_memory image.now) in let h = hart_of hart.old in
        code ≡ told_word (t.need h) c → Some touched ≡ told_word (word_in (t.plan h c)) v
        → result ≡ t.stored h c v }
{
    settle_known_store(hart, image, code, touched, None, succeeds)
}

/// Does a hart's next step as `settle_store` does, given its instruction too, if that is known.
pub fn settle_known_store<A: Allocator>(
    hart: &mut Hart,
    image: &Image<A>,
    code: Option<Word>,
    touched: Word,
    instr: Option<Instr>,
    succeeds: bool,
) -> [u8; 4]
    requires { IfSome instr (λ i. Ok i ≡ instruction_at
        (told_memory (image_memory image.now) code (Some touched) None) hart.old.pc) }
    ensures after { (c v : WordBytes) → let t = table (image_memory image.now) in let h = hart_of hart.old in
        code ≡ told_word (t.need h) c → Some touched ≡ told_word (word_in (t.plan h c)) v
        → hart_of hart.new ≡ t.after h c v succeeds }
    ensures stored { (c v : WordBytes) → let t = table (image_memory image.now) in let h = hart_of hart.old in
        code ≡ told_word (t.need h) c → Some touched ≡ told_word (word_in (t.plan h c)) v
        → result ≡ t.stored h c v }
{
    let words = ToldWords {
        code,
        touched: Some(touched),
    };
    let mut memory = memory_of(image, words);
    let known = memory.look_up(hart.pc, instr);
    let access = access_if(hart, known.found);
    if tries_by(access) && !succeeds {
        let stored = stored_bytes(*hart, image, words, touched.address);
        told_step(hart, &mut memory, known, access, false);
        return stored;
    }
    told_step(hart, &mut memory, known, access, succeeds);
    memory.word_at(touched.address).bytes
}

// The bytes of the touched word after a hart's next step with these words, if that stores.
fn stored_bytes<A: Allocator>(
    hart: Hart,
    image: &Image<A>,
    words: ToldWords,
    address: u32,
) -> [u8; 4]
    ensures { (c v : WordBytes) → let t = table (image_memory image.now) in let h = hart_of hart in
        words.code ≡ told_word (t.need h) c → words.touched ≡ told_word (word_in (t.plan h c)) v
        → Some address ≡ word_in (t.plan h c) → result ≡ t.stored h c v }
{
    let mut hart = hart;
    let mut memory = memory_of(image, words);
    let known = memory.look_up(hart.pc, None);
    let access = access_if(&hart, known.found);
    told_step(&mut hart, &mut memory, known, access, true);
    memory.word_at(address).bytes
}
