//! Every schedule of a program.
ghost use Rattle.std.specs.Prelude.{◌≡◌, ◌%◌, [], IfOk, is_ok, length, true};
ghost use Rattle.machine.specs.Start.{started};
ghost use Rattle.image.specs.Image.{IsSound};
ghost use Rattle.mem_store.specs.Image.{image_memory, segments_memory};
ghost use Rattle.hart_local.specs.CodeMemory.{code_in};
ghost use Rattle.explore_laws.specs.Safe.{IsSafe};
ghost use Rattle.outcome.specs.declared.expect.Exit.TheVariants.{Must};
ghost use Rattle.explore_search.specs.Edges.{HaveEdges};
ghost use Rattle.explore_search.specs.Answers.{AreAllReached, LeadsToBad};
ghost use Rattle.explore_search.specs.Counted.{HasPlaces};
ghost use Rattle.explore_search.specs.Marked.{AreAllSeen};
ghost use Rattle.explore_space.specs.Begun.{choices_from_start, turns_start};
ghost use Rattle.explore_space.specs.Bounds.{TellsBounds};
ghost use Rattle.explore_space.specs.Places.{IsKey, place_of_key};
ghost use Rattle.explore_space.specs.Every.{HoldsOfEvery, CountsPlaces, TellsEnds, TellsExits, meant_choices};
ghost use Rattle.explore_space.specs.Failing.{IsUnowned, ends_search};
ghost use Rattle.explore_space.specs.declared.own_bounds.OwnBounds.TheVariants.{Asked};
ghost use Rattle.explore_space.specs.Stuck.{AnswersExit, edges_for};
ghost use Rattle.explore_space.specs.Habits.{habits_of, owners_in};

use crate::ending::ends_at_keys;
use crate::expanding::walk_turns;
use crate::explorer::Explorer;
use crate::guessing::guessed_words;
use crate::judging::has_failed;
use crate::meant::meant_choices;
use crate::own_bounds::{OwnBounds, asked_bounds};
use crate::own_words::{OwnWord, unjudged, without};
use crate::question::Question;
use crate::run_end::Ends;
use crate::settling::{LocalCode, settle};
use byte_io::Progress;
use explore_bounds::Bound;
use explore_search::{Edges, Found, Seen, nearest_stuck, search};
use explore_sites::{NextTouch, next_touch};
use image::Image;
use machine::{Choice, Inputs, Machine};
use mem_flat::FlatStore;
use outcome::Exit;
use std::alloc::{AllocError, Allocator};

// How often a search begins anew with fewer owners of words, before it begins with none.
const TRIES: usize = 64;

/// A list of choices that fails or hangs.
#[derive(Drop)]
pub struct Failing<A: Allocator> {
    /// The choices: the first local steps of the harts that take turns, and the turns.
    pub choices: Vec<Choice, A>,
    /// How many turns they are: a choice, and the steps that its hart takes at once behind it. No
    /// fewer turns fail or hang, and no list of fewer choices does.
    pub turns: usize,
}

/// What is said where no list of choices fails.
#[derive(Drop)]
pub struct Held<A: Allocator> {
    /// How many places turns reach.
    pub places: usize,
    /// How the runs of lists of choices end, of those after which no hart runs.
    pub ends: Ends<A>,
    /// The bound on each hart's own steps, in the order of their numbers, if these are asked for;
    /// else nothing.
    pub bounds: Vec<Bound, A>,
}

/// What is said of every schedule.
#[derive(Drop)]
pub enum Answer<A: Allocator> {
    /// No list of choices fails.
    Holds(Held<A>),
    /// This list fails.
    Fails(Failing<A>),
    /// No list fails, and this one hangs: from its world no list leads to one in which no hart runs.
    Hangs(Failing<A>),
    /// Turns reach more places than may be looked at.
    Undecided,
}

// Whether edges are kept: where ways out or bounds are asked for.
fn edges_for(exit: Exit, bounds: OwnBounds) -> Edges
    ensures { result ≡ edges_for exit bounds }
{
    match (exit, bounds) {
        (Exit::May, OwnBounds::NotAsked) => Edges::NotKept,
        (Exit::May, OwnBounds::Asked) | (Exit::Must, _) => Edges::Kept,
    }
}

// The turns that lead to the nearest place without a way out, if that is asked for and there is one.
fn stuck_turns<A: Allocator + Copy>(
    alloc: A,
    explorer: &Explorer<A>,
    meant: &[Choice],
    seen: &Seen<A>,
    exit: Exit,
) -> Result<Option<Vec<Choice, A>>, AllocError>
    requires seen { AreAllSeen (IsKey explorer.now.known.image.now (length explorer.now.inputs.now) explorer.now.known.harts.parts.items
        explorer.now.known.shareds.parts.items)
        (place_of_key (habits_of explorer.now.known.code.now) explorer.now.known.image.now (length explorer.now.inputs.now) explorer.now.known.harts.parts.items
        explorer.now.known.shareds.parts.items)
        (turns_start (habits_of explorer.now.known.code.now) (started explorer.now.known.image.now explorer.now.inputs.now)) meant.now seen.now.keys seen.now.links.items }
    requires edges { exit ≡ Must → HaveEdges (place_of_key (habits_of explorer.now.known.code.now) explorer.now.known.image.now (length explorer.now.inputs.now)
        explorer.now.known.harts.parts.items explorer.now.known.shareds.parts.items) meant.now seen.now.keys seen.now.rows }
    ensures { IfOk result (λ found. AnswersExit exit meant.now
        (turns_start (habits_of explorer.now.known.code.now) (started explorer.now.known.image.now explorer.now.inputs.now)) found) }
{
    match exit {
        Exit::May => Ok(None),
        Exit::Must => nearest_stuck(alloc, explorer, meant, seen),
    }
}

// The choices of turns, and how many these are.
fn choices_and_turns<A: Allocator + Copy>(
    alloc: A,
    image: &Image<A>,
    code: &LocalCode<A>,
    inputs: &Inputs,
    turns: &[Choice],
) -> Result<Failing<A>, AllocError>
    requires { segments_memory code.now.code ≡ code_in (image_memory image.now) }
    ensures choices { IfOk result (λ list. list.choices.items ≡ choices_from_start (habits_of code.now) (started image.now inputs.now) turns.now) }
    ensures turns { IfOk result (λ list. length turns.now ≡ list.turns) }
{
    let walk = walk_turns(alloc, image, code, inputs, turns)?;
    Ok(Failing {
        choices: walk.choices,
        turns: turns.len(),
    })
}

// What is said where a search has found no list that fails: a list that hangs, if that is asked for
// and there is one, or how the runs end, and the bounds.
fn safe_answer<A: Allocator + Copy>(
    alloc: A,
    image: &Image<A>,
    code: &LocalCode<A>,
    inputs: &Inputs,
    explorer: &Explorer<A>,
    meant: &[Choice],
    seen: &Seen<A>,
    question: Question,
) -> Result<Answer<A>, AllocError>
    requires meant { meant.now ≡ meant_choices question.refusals (length inputs.now) }
    requires first { turns_start (habits_of explorer.now.known.code.now) (started explorer.now.known.image.now explorer.now.inputs.now)
        ≡ turns_start (habits_of code.now) (started image.now inputs.now) }
    requires its_code { segments_memory code.now.code ≡ code_in (image_memory image.now) }
    requires section { code.now.section ≡ question.never_both }
    requires unowned { IsUnowned question.always (owners_in code.now.words.items) }
    requires entry { image.now.entry % 4 ≡ 0 }
    requires sound { IsSound image.now.entry image.now.segments }
    requires safe { IsSafe meant.now (turns_start (habits_of code.now) (started image.now inputs.now))
        (ends_search question.expect.rule question.always code.now.section code.now.words.items inputs.now) }
    requires counts { HasPlaces meant.now (turns_start (habits_of code.now) (started image.now inputs.now)) (length seen.now.keys) }
    requires seen { AreAllSeen (IsKey explorer.now.known.image.now (length explorer.now.inputs.now) explorer.now.known.harts.parts.items
        explorer.now.known.shareds.parts.items)
        (place_of_key (habits_of explorer.now.known.code.now) explorer.now.known.image.now (length explorer.now.inputs.now) explorer.now.known.harts.parts.items
        explorer.now.known.shareds.parts.items)
        (turns_start (habits_of explorer.now.known.code.now) (started explorer.now.known.image.now explorer.now.inputs.now)) meant.now seen.now.keys seen.now.links.items }
    requires reaches { AreAllReached (IsKey explorer.now.known.image.now (length explorer.now.inputs.now) explorer.now.known.harts.parts.items
        explorer.now.known.shareds.parts.items)
        (place_of_key (habits_of explorer.now.known.code.now) explorer.now.known.image.now (length explorer.now.inputs.now) explorer.now.known.harts.parts.items
        explorer.now.known.shareds.parts.items) meant.now
        (turns_start (habits_of explorer.now.known.code.now) (started explorer.now.known.image.now explorer.now.inputs.now)) seen.now.keys }
    requires exit_edges { question.expect.exit ≡ Must → HaveEdges (place_of_key (habits_of explorer.now.known.code.now) explorer.now.known.image.now
        (length explorer.now.inputs.now) explorer.now.known.harts.parts.items explorer.now.known.shareds.parts.items)
        meant.now seen.now.keys seen.now.rows }
    requires bound_edges { question.bounds ≡ Asked → HaveEdges (place_of_key (habits_of explorer.now.known.code.now) explorer.now.known.image.now
        (length explorer.now.inputs.now) explorer.now.known.harts.parts.items explorer.now.known.shareds.parts.items)
        meant.now seen.now.keys seen.now.rows }
    ensures holds { IfOk result (λ answer. HoldsOfEvery question.expect.rule question.always question.never_both question.refusals image.now inputs.now answer) }
    ensures places { IfOk result (λ answer. CountsPlaces question.never_both question.refusals image.now inputs.now question.most answer) }
    ensures ends { IfOk result (λ answer. TellsEnds question.expect.rule question.refusals image.now inputs.now answer) }
    ensures exits { IfOk result (λ answer. TellsExits question.never_both question.expect.exit question.refusals image.now inputs.now answer) }
    ensures bounds { IfOk result (λ answer. TellsBounds question.bounds question.refusals image.now inputs.now answer) }
{
    let expect = question.expect;
    match stuck_turns(alloc, explorer, meant, seen, expect.exit)? {
        Some(turns) => Ok(Answer::Hangs(choices_and_turns(alloc, image, code, inputs, &turns)?)),
        None => {
            let places = seen.keys.len();
            let harts = explorer.known_harts();
            let ends = ends_at_keys(alloc, harts, inputs.words(), expect.rule, &seen.keys)?;
            let bounds = asked_bounds(
                alloc,
                image,
                code,
                inputs,
                explorer,
                meant,
                seen,
                question.bounds,
            )?;
            Ok(Answer::Holds(Held {
                places,
                ends,
                bounds,
            }))
        }
    }
}

// A hart may touch a word that belongs to another, so that the search says nothing.
#[derive(Clone, Copy)]
struct Stray {
    // The word, if its address is known.
    word: Option<u32>,
}

// The word of the first hart's step that may stray, where each hart has taken its local steps.
fn stray_in<A: Allocator>(
    image: &Image<A>,
    code: &LocalCode<A>,
    machine: &Machine<FlatStore<A>, A>,
) -> Stray {
    'harts: for number in 0..machine.harts() {
        let mut hart = *machine.hart(number);
        settle(&mut hart, code);
        if code.strays(image, &hart, number as u32) {
            let word = match next_touch(&hart, image) {
                NextTouch::Word(touch) => Some(touch.word),
                NextTouch::Unknown | NextTouch::Nothing => None,
            };
            return Stray { word };
        }
    }
    Stray { word: None }
}

// What is said where turns lead to a place at which a search ends: their list fails, or a hart may
// stray there.
fn bad_answer<A: Allocator + Copy>(
    alloc: A,
    image: &Image<A>,
    code: &LocalCode<A>,
    inputs: &Inputs,
    meant: &[Choice],
    turns: &[Choice],
    question: Question,
) -> Result<Result<Answer<A>, Stray>, AllocError>
    requires meant { meant.now ≡ meant_choices question.refusals (length inputs.now) }
    requires entry { image.now.entry % 4 ≡ 0 }
    requires sound { IsSound image.now.entry image.now.segments }
    requires its_code { segments_memory code.now.code ≡ code_in (image_memory image.now) }
    requires section { code.now.section ≡ question.never_both }
    requires unowned { IsUnowned question.always (owners_in code.now.words.items) }
    requires bad { LeadsToBad meant.now (turns_start (habits_of code.now) (started image.now inputs.now))
        (ends_search question.expect.rule question.always code.now.section code.now.words.items inputs.now) turns.now }
    ensures holds { IfOk result (λ told. IfOk told (λ answer. HoldsOfEvery question.expect.rule question.always question.never_both question.refusals image.now inputs.now answer)) }
    ensures places { IfOk result (λ told. IfOk told (λ answer. CountsPlaces question.never_both question.refusals image.now inputs.now question.most answer)) }
    ensures ends { IfOk result (λ told. IfOk told (λ answer. TellsEnds question.expect.rule question.refusals image.now inputs.now answer)) }
    ensures exits { IfOk result (λ told. IfOk told (λ answer. TellsExits question.never_both question.expect.exit question.refusals image.now inputs.now answer)) }
    ensures bounds { IfOk result (λ told. IfOk told (λ answer. TellsBounds question.bounds question.refusals image.now inputs.now answer)) }
    ensures told { code.now.words.items ≡ [] → IfOk result (λ told. is_ok told ≡ true) }
{
    let _ = meant;
    let walk = walk_turns(alloc, image, code, inputs, turns)?;
    let rule = question.expect.rule;
    if !has_failed(
        alloc,
        &walk,
        inputs,
        rule,
        question.always,
        question.never_both,
    )? {
        return Ok(Err(stray_in(image, code, &walk.machine)));
    }
    Ok(Ok(Answer::Fails(Failing {
        choices: walk.choices,
        turns: turns.len(),
    })))
}

// Searches, and answers by what was found.
fn searched_answer<A: Allocator + Copy>(
    alloc: A,
    image: &Image<A>,
    code: &LocalCode<A>,
    inputs: &Inputs,
    explorer: &mut Explorer<A>,
    meant: &[Choice],
    question: Question,
    progress: &mut impl Progress,
) -> Result<Result<Answer<A>, Stray>, AllocError>
    requires meant { meant.now ≡ meant_choices question.refusals (length inputs.now) }
    requires entry { image.now.entry % 4 ≡ 0 }
    requires sound { IsSound image.now.entry image.now.segments }
    requires its_code { segments_memory code.now.code ≡ code_in (image_memory image.now) }
    requires unowned { IsUnowned question.always (owners_in code.now.words.items) }
    requires image { explorer.old.known.image.now ≡ image.now }
    requires code { explorer.old.known.code.now ≡ code.now }
    requires inputs { explorer.old.inputs.now ≡ inputs.now }
    requires rule { explorer.old.rule ≡ question.expect.rule }
    requires always { explorer.old.always ≡ question.always }
    requires section { code.now.section ≡ question.never_both }
    ensures holds { IfOk result (λ told. IfOk told (λ answer. HoldsOfEvery question.expect.rule question.always question.never_both question.refusals image.now inputs.now answer)) }
    ensures places { IfOk result (λ told. IfOk told (λ answer. CountsPlaces question.never_both question.refusals image.now inputs.now question.most answer)) }
    ensures ends { IfOk result (λ told. IfOk told (λ answer. TellsEnds question.expect.rule question.refusals image.now inputs.now answer)) }
    ensures exits { IfOk result (λ told. IfOk told (λ answer. TellsExits question.never_both question.expect.exit question.refusals image.now inputs.now answer)) }
    ensures bounds { IfOk result (λ told. IfOk told (λ answer. TellsBounds question.bounds question.refusals image.now inputs.now answer)) }
    ensures told { code.now.words.items ≡ [] → IfOk result (λ told. is_ok told ≡ true) }
{
    let edges = edges_for(question.expect.exit, question.bounds);
    match search(alloc, explorer, meant, question.most, edges, progress)? {
        Found::Safe(seen) => Ok(Ok(safe_answer(
            alloc, image, code, inputs, explorer, meant, &seen, question,
        )?)),
        Found::Bad(turns) => bad_answer(alloc, image, code, inputs, meant, &turns, question),
        Found::Undecided => Ok(Ok(Answer::Undecided)),
    }
}

// Searches with these owners of words, but for the word that is judged.
fn answer_with<A: Allocator + Copy>(
    alloc: A,
    image: &Image<A>,
    inputs: &Inputs,
    meant: &[Choice],
    question: Question,
    words: Vec<OwnWord, A>,
    progress: &mut impl Progress,
) -> Result<Result<Answer<A>, Stray>, AllocError>
    requires meant { meant.now ≡ meant_choices question.refusals (length inputs.now) }
    requires entry { image.now.entry % 4 ≡ 0 }
    ensures holds { IfOk result (λ told. IfOk told (λ answer. HoldsOfEvery question.expect.rule question.always question.never_both question.refusals image.now inputs.now answer)) }
    ensures places { IfOk result (λ told. IfOk told (λ answer. CountsPlaces question.never_both question.refusals image.now inputs.now question.most answer)) }
    ensures ends { IfOk result (λ told. IfOk told (λ answer. TellsEnds question.expect.rule question.refusals image.now inputs.now answer)) }
    ensures exits { IfOk result (λ told. IfOk told (λ answer. TellsExits question.never_both question.expect.exit question.refusals image.now inputs.now answer)) }
    ensures bounds { IfOk result (λ told. IfOk told (λ answer. TellsBounds question.bounds question.refusals image.now inputs.now answer)) }
    ensures told { words.items ≡ [] → IfOk result (λ told. is_ok told ≡ true) }
{
    // An image's segments are sound: they end at the last address.
    let _ = image.segments();
    let words = unjudged(alloc, words, question.always)?;
    let code = LocalCode::new(alloc, image, question.never_both, words)?;
    let mut explorer = Explorer::new(
        alloc,
        image,
        &code,
        inputs,
        question.expect.rule,
        question.always,
    )?;
    searched_answer(
        alloc,
        image,
        &code,
        inputs,
        &mut explorer,
        meant,
        question,
        progress,
    )
}

// The words that are left to their owners where one hart may stray: not the one that it may touch,
// and none where that isn't known.
fn words_left<A: Allocator + Copy>(
    alloc: A,
    words: &[OwnWord],
    stray: Stray,
) -> Result<Vec<OwnWord, A>, AllocError> {
    match stray.word {
        Some(word) => without(alloc, words, word),
        None => Ok(Vec::new(alloc)),
    }
}

// Searches with guessed owners of words, and with fewer where a hart may stray.
fn answer_by_guess<A: Allocator + Copy>(
    alloc: A,
    image: &Image<A>,
    inputs: &Inputs,
    meant: &[Choice],
    question: Question,
    progress: &mut impl Progress,
) -> Result<Answer<A>, AllocError>
    requires meant { meant.now ≡ meant_choices question.refusals (length inputs.now) }
    requires entry { image.now.entry % 4 ≡ 0 }
    ensures holds { IfOk result (λ answer. HoldsOfEvery question.expect.rule question.always question.never_both question.refusals image.now inputs.now answer) }
    ensures places { IfOk result (λ answer. CountsPlaces question.never_both question.refusals image.now inputs.now question.most answer) }
    ensures ends { IfOk result (λ answer. TellsEnds question.expect.rule question.refusals image.now inputs.now answer) }
    ensures exits { IfOk result (λ answer. TellsExits question.never_both question.expect.exit question.refusals image.now inputs.now answer) }
    ensures bounds { IfOk result (λ answer. TellsBounds question.bounds question.refusals image.now inputs.now answer) }
{
    let mut words = guessed_words(alloc, image, inputs)?;
    'tries: for _ in 0..TRIES {
        let tried = Vec::from_slice(alloc, &words)?;
        match answer_with(alloc, image, inputs, meant, question, tried, progress)? {
            Ok(answer) => return Ok(answer),
            Err(stray) => words = words_left(alloc, &words, stray)?,
        }
    }
    // Where no word belongs to a hart, none strays.
    let none = Vec::new(alloc);
    match answer_with(alloc, image, inputs, meant, question, none, progress)? {
        Ok(answer) => Ok(answer),
        Err(_) => unreachable!(),
    }
}

/// Whether a list of the harts' choices, of any length, leads a program with these inputs to a
/// failure: a word that isn't what it must be, two harts in the section of code, a broken rule, or
/// without a rule a hart that has faulted. None does; or one does, which is given; or turns reach
/// more places than may be looked at. Where each hart must exit and none fails, it is also answered
/// whether a list leads to a world that has no way out, and one that does is given. Where bounds are
/// asked for and none fails or hangs, the exact bound on each hart's own steps is given, or that it
/// has none. The only error is out of memory; an entry that is no multiple of 4 is refused so too.
pub fn explore<A: Allocator + Copy>(
    alloc: A,
    image: &Image<A>,
    inputs: &Inputs,
    question: Question,
    progress: &mut impl Progress,
) -> Result<Answer<A>, AllocError>
    ensures holds { IfOk result (λ answer. HoldsOfEvery question.expect.rule question.always question.never_both question.refusals image.now inputs.now answer) }
    ensures places { IfOk result (λ answer. CountsPlaces question.never_both question.refusals image.now inputs.now question.most answer) }
    ensures ends { IfOk result (λ answer. TellsEnds question.expect.rule question.refusals image.now inputs.now answer) }
    ensures exits { IfOk result (λ answer. TellsExits question.never_both question.expect.exit question.refusals image.now inputs.now answer) }
    ensures bounds { IfOk result (λ answer. TellsBounds question.bounds question.refusals image.now inputs.now answer) }
{
    if image.entry() % 4 != 0 {
        return Err(AllocError);
    }
    let meant = meant_choices(alloc, question.refusals, inputs.harts())?;
    answer_by_guess(alloc, image, inputs, &meant, question, progress)
}
