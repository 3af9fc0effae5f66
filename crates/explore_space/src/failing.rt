//! Whether the run to a key's place has failed, and whether it has ended.
ghost use Rattle.std.specs.Prelude.{◌≡◌, ◌<◌, ◌≤◌, ◌+◌, ◌/◌, ◌%◌, not, ℕ, Some, IfOk, length, map, slice_get, take};
ghost use Rattle.std.specs.List.{list_all};
ghost use Rattle.hart_step.specs.Hart.{hart_of};
ghost use Rattle.machine.specs.World.{World};
ghost use Rattle.mem_store.specs.Image.{image_memory};
ghost use Rattle.bank_laws.specs.Words.{bytes_at};
ghost use Rattle.explore_sites.specs.Cells.{words_shown};
ghost use Rattle.outcome.specs.Expect.{fails, judged};
ghost use Rattle.outcome.specs.Outcome.{some_run};
ghost use Rattle.outcome.specs.declared.expect.Exit.TheVariants.{May};
ghost use Rattle.sched_run.specs.Chosen.{harts_of};
ghost use Rattle.explore_laws.specs.Bounds.{not_stopped};
ghost use Rattle.explore_space.specs.Places.{chosen_by_key, hart_worded};
ghost use Rattle.property_judge.specs.Property.{harts_between};
ghost use Rattle.explore_space.specs.Failing.{breaks_word, one_each};

use crate::question::Always;
use crate::section::Section;
use crate::settling::is_running;
use crate::word::{hart_at, hart_of_word, is_chosen_word};
use explore_sites::{Cell, word_read};
use hart_step::Hart;
use image::Image;
use object_library::Kind;
use outcome::{Exit, Expect, some_run};
use property_judge::{compares, is_within};
use sched_run::Chosen;
use std::alloc::{AllocError, Allocator};

/// The harts of a key. Fails when out of memory.
pub fn harts_by_key<A: Allocator>(
    alloc: A,
    harts: &[Hart],
    count: usize,
    key: &[u32],
) -> Result<Vec<Hart, A>, AllocError>
    requires long { count ≤ length key.now }
    requires there { (k word : ℕ) → slice_get (take count key.now) k ≡ Some word → word / 2 < length harts.now }
    ensures { IfOk result (λ ends. map hart_of ends.items ≡ map (hart_worded harts.now) (take count key.now)) }
{
    let mut ends = Vec::with_capacity(alloc, count)?;
    'harts: for k in 0..count {
        ends.push(harts[hart_of_word(key[k]) as usize])?;
    }
    Ok(ends)
}

/// Which harts were chosen, by a key's words.
pub fn chosen_by_key(count: usize, key: &[u32]) -> Chosen
    requires few { count ≤ 32 }
    requires long { count ≤ length key.now }
    ensures { (k : ℕ) → harts_of result k ≡ chosen_by_key count key.now k }
{
    let mut chosen = Chosen::new();
    'harts: for k in 0..count {
        if is_chosen_word(key[k]) {
            chosen.add(k);
        }
    }
    chosen
}

/// Whether a word isn't what it must be in a world that has the image's rights and shows these
/// words.
#[tactic(auto, unfolding(property_judge::specs::Property::holds_in))]
pub fn breaks_word<A: Allocator>(image: &Image<A>, cells: &[Cell], always: Always) -> bool
    ensures { (w : World) → w.memory.rights ≡ (image_memory image.now).rights
        → ((x : ℕ) → x % 4 ≡ 0 → words_shown image.now cells.now x ≡ bytes_at w.memory.bytes x)
        → result ≡ breaks_word (Some always) w }
{
    let value = word_read(image, cells, always.word);
    !compares(always.comparison, value, always.number)
}

// How many of these harts stand in a section.
fn count_within(harts: &[Hart], section: Section) -> usize
    ensures { result ≡ harts_between section.from section.to (map hart_of harts.now) }
{
    harts
        .iter()
        .filter(|hart| is_within(hart, section.from, section.to))
        .count()
}

/// How many harts of a key stand in a section. Fails when out of memory.
pub fn harts_within<A: Allocator>(
    alloc: A,
    harts: &[Hart],
    count: usize,
    key: &[u32],
    section: Section,
) -> Result<usize, AllocError>
    requires long { count ≤ length key.now }
    requires there { (k word : ℕ) → slice_get (take count key.now) k ≡ Some word → word / 2 < length harts.now }
    ensures { IfOk result (λ within. within
        ≡ harts_between section.from section.to (map (hart_worded harts.now) (take count key.now))) }
{
    let by_key = harts_by_key(alloc, harts, count, key)?;
    let within = count_within(by_key.as_slice(), section);
    Ok(within)
}

// Whether the harts of all these words of a key run.
#[tactic(auto, using(crate::proofs::RunningLemmas::runs_on, crate::proofs::RunningLemmas::stops_at, crate::proofs::RunningLemmas::all_read))]
fn all_run(harts: &[Hart], words: &[u32]) -> bool
    requires there { (k word : ℕ) → slice_get words.now k ≡ Some word → word / 2 < length harts.now }
    ensures { result ≡ list_all (λ word. not_stopped (hart_worded harts.now word).state) words.now }
{
    'words: for word in words {
        if !is_running(hart_at(harts, *word)) {
            return false;
        }
    }
    true
}

/// Whether the run to a key's place has failed by its harts: its rule is broken, or without a rule a hart has
/// faulted. The only error is out of memory.
pub fn fails_at<A: Allocator + Copy>(
    alloc: A,
    harts: &[Hart],
    inputs: &[u32],
    rule: Option<Kind>,
    key: &[u32],
) -> Result<bool, AllocError>
    requires few { length inputs.now ≤ 32 }
    requires long { length inputs.now ≤ length key.now }
    requires there { (k word : ℕ) → slice_get (take (length inputs.now) key.now) k ≡ Some word → word / 2 < length harts.now }
    ensures { IfOk result (λ answer. answer ≡ fails May (judged rule inputs.now
        (one_each (length inputs.now) (chosen_by_key (length inputs.now) key.now))
        (map (hart_worded harts.now) (take (length inputs.now) key.now)))) }
{
    // Nothing is broken before a hart has stopped.
    if all_run(harts, &key[..inputs.len()]) {
        return Ok(false);
    }
    let ends = harts_by_key(alloc, harts, inputs.len(), key)?;
    let chosen = chosen_by_key(inputs.len(), key);
    let expect = Expect {
        rule,
        exit: Exit::May,
    };
    let outcome = expect.judge(alloc, inputs, &chosen, &ends)?;
    Ok(expect.fails(outcome))
}

/// Whether no hart runs in a key's place. The only error is out of memory.
pub fn has_ended_at<A: Allocator>(
    alloc: A,
    harts: &[Hart],
    count: usize,
    key: &[u32],
) -> Result<bool, AllocError>
    requires long { count ≤ length key.now }
    requires there { (k word : ℕ) → slice_get (take count key.now) k ≡ Some word → word / 2 < length harts.now }
    ensures { IfOk result (λ answer. answer ≡ not (some_run (map (hart_worded harts.now) (take count key.now)))) }
{
    let by_key = harts_by_key(alloc, harts, count, key)?;
    let runs = some_run(by_key.as_slice());
    Ok(!runs)
}
