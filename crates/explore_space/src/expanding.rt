//! Turns on a machine, and their choices.
ghost use Rattle.std.specs.Prelude.{◌≡◌, ◌++◌, ◌<◌, [], if◌then◌else◌, IfOk, OnOk, length};
ghost use Rattle.mem_store.specs.Image.{image_memory, segments_memory};
ghost use Rattle.hart_step.specs.Laws.{Keeps};
ghost use Rattle.hart_local.specs.CodeMemory.{code_in};
ghost use Rattle.hart_local.specs.LocalRuns.{plain_choices};
ghost use Rattle.machine.specs.Chosen.{is_chosen};
ghost use Rattle.explore_laws.specs.Settling.{turn_choices, world_settled};
ghost use Rattle.explore_space.specs.Begun.{begun_choices, choices_from_start, first_steps, hart_begun, hart_settled, world_begun};
ghost use Rattle.machine.specs.Start.{started};
ghost use Rattle.machine.specs.State.{state};
ghost use Rattle.machine.specs.World.{run};
ghost use Rattle.explore_space.specs.Habits.{habits_of, stride_by_habit};
ghost use Rattle.explore_space.specs.Resting.{stride_of};

use crate::settling::{LocalCode, OWN_AT_ONCE, runs_outside, settle};
use image::Image;
use machine::{Choice, Inputs, Machine};
use mem_flat::FlatStore;
use std::alloc::{AllocError, Allocator};

// Appends plain choices of a hart.
fn push_plain<A: Allocator>(
    choices: &mut Vec<Choice, A>,
    hart: u32,
    count: u32,
) -> Result<(), AllocError>
    ensures { OnOk result (choices.new.items ≡ choices.old.items ++ plain_choices hart count) }
{
    let plain = Choice {
        hart,
        refuse: false,
    };
    let len = choices.len();
    choices.resize(len + count as usize, plain)?;
    Ok(())
}

// Takes a hart's local steps, and appends their choices.
fn take_rest<A: Allocator, C: Allocator>(
    machine: &mut Machine<FlatStore<A>, A>,
    code: &LocalCode<C>,
    number: u32,
    choices: &mut Vec<Choice, A>,
) -> Result<(), AllocError>
    requires code { segments_memory code.now.code ≡ code_in (state machine.old).memory }
    requires there { number < length (state machine.old).harts }
    ensures world { OnOk result (state machine.new ≡ hart_settled code.now.section (state machine.old) number) }
    ensures choices { OnOk result (choices.new.items ≡ choices.old.items
        ++ plain_choices number (stride_of code.now.section (state machine.old) number)) }
{
    let mut hart = *machine.hart(number as usize);
    let count = settle(&mut hart, code);
    machine.put_hart(number as usize, hart);
    push_plain(choices, number, count)?;
    Ok(())
}

// Takes the steps that a hart takes at once, and appends their choices.
fn take_stride<A: Allocator, B: Allocator, C: Allocator>(
    machine: &mut Machine<FlatStore<A>, A>,
    image: &Image<B>,
    code: &LocalCode<C>,
    number: u32,
    choices: &mut Vec<Choice, A>,
) -> Result<(), AllocError>
    requires code { segments_memory code.now.code ≡ code_in (image_memory image.now) }
    requires keeps { Keeps (image_memory image.now) (state machine.old).memory }
    requires there { number < length (state machine.old).harts }
    ensures world { OnOk result (state machine.new ≡ world_settled (stride_by_habit (habits_of code.now)) (state machine.old) number) }
    ensures choices { OnOk result (choices.new.items ≡ choices.old.items
        ++ plain_choices number (stride_by_habit (habits_of code.now) (state machine.old) number)) }
{
    let plain = Choice {
        hart: number,
        refuse: false,
    };
    take_rest(machine, code, number, choices)?;
    'own: for _ in 0..OWN_AT_ONCE {
        if !code.takes_own(image, machine.hart(number as usize), number) {
            return Ok(());
        }
        machine.step(plain)?;
        choices.push(plain)?;
        take_rest(machine, code, number, choices)?;
    }
    Ok(())
}

// Takes a turn, and appends its choices.
fn take_turn<A: Allocator, B: Allocator, C: Allocator>(
    machine: &mut Machine<FlatStore<A>, A>,
    image: &Image<B>,
    code: &LocalCode<C>,
    turn: Choice,
    choices: &mut Vec<Choice, A>,
) -> Result<(), AllocError>
    requires code { segments_memory code.now.code ≡ code_in (image_memory image.now) }
    requires keeps { Keeps (image_memory image.now) (state machine.old).memory }
    ensures world { OnOk result (state machine.new ≡ run (state machine.old) (turn_choices (stride_by_habit (habits_of code.now)) (state machine.old) turn)) }
    ensures choices { OnOk result (choices.new.items ≡ choices.old.items ++ turn_choices (stride_by_habit (habits_of code.now)) (state machine.old) turn) }
{
    choices.push(turn)?;
    let number = turn.hart as usize;
    if number >= machine.harts() {
        return Ok(());
    }
    machine.step(turn)?;
    take_stride(machine, image, code, turn.hart, choices)?;
    Ok(())
}

// Takes a hart's local steps, if it still runs behind them, outside of the section, and appends
// their choices.
fn take_first<A: Allocator, C: Allocator>(
    machine: &mut Machine<FlatStore<A>, A>,
    code: &LocalCode<C>,
    number: u32,
    choices: &mut Vec<Choice, A>,
) -> Result<(), AllocError>
    requires code { segments_memory code.now.code ≡ code_in (state machine.old).memory }
    requires there { number < length (state machine.old).harts }
    ensures world { OnOk result (state machine.new ≡ hart_begun code.now.section (state machine.old) number) }
    ensures choices { OnOk result (choices.new.items ≡ choices.old.items
        ++ plain_choices number (first_steps code.now.section (state machine.old) number)) }
{
    let mut hart = *machine.hart(number as usize);
    let count = settle(&mut hart, code);
    if !runs_outside(&hart, code.section) {
        return Ok(());
    }
    machine.put_hart(number as usize, hart);
    push_plain(choices, number, count)?;
    Ok(())
}

// Whether turns choose a hart.
fn choose(turns: &[Choice], hart: u32) -> bool
    ensures { result ≡ is_chosen turns.now hart }
{
    turns.iter().any(|turn| turn.hart == hart)
}

// Takes a hart's local steps so, if turns choose it.
fn take_if_chosen<A: Allocator, C: Allocator>(
    machine: &mut Machine<FlatStore<A>, A>,
    code: &LocalCode<C>,
    number: u32,
    turns: &[Choice],
    choices: &mut Vec<Choice, A>,
) -> Result<(), AllocError>
    requires code { segments_memory code.now.code ≡ code_in (state machine.old).memory }
    requires there { number < length (state machine.old).harts }
    ensures world { OnOk result (state machine.new ≡ (if is_chosen turns.now number
        then hart_begun code.now.section (state machine.old) number else state machine.old)) }
    ensures choices { OnOk result (choices.new.items ≡ choices.old.items ++ (if is_chosen turns.now number
        then plain_choices number (first_steps code.now.section (state machine.old) number) else [])) }
{
    if !choose(turns, number) {
        return Ok(());
    }
    take_first(machine, code, number, choices)
}

// Takes the local steps of the harts that turns choose.
fn take_all_first<A: Allocator, C: Allocator>(
    machine: &mut Machine<FlatStore<A>, A>,
    code: &LocalCode<C>,
    count: u32,
    turns: &[Choice],
    choices: &mut Vec<Choice, A>,
) -> Result<(), AllocError>
    requires code { segments_memory code.now.code ≡ code_in (state machine.old).memory }
    requires there { length (state machine.old).harts ≡ count }
    ensures world { OnOk result (state machine.new ≡ world_begun code.now.section (state machine.old) (is_chosen turns.now) count) }
    ensures choices { OnOk result (choices.new.items ≡ choices.old.items
        ++ begun_choices code.now.section (state machine.old) (is_chosen turns.now) count) }
{
    'harts: for number in 0..count {
        take_if_chosen(machine, code, number, turns, choices)?;
    }
    Ok(())
}

/// Where turns lead, and the choices that lead there.
#[derive(Drop)]
pub struct Walk<A: Allocator> {
    /// The machine behind them.
    pub machine: Machine<FlatStore<A>, A>,
    /// The choices.
    pub choices: Vec<Choice, A>,
}

/// Takes turns from a program's start, with its code: first the local steps of the harts that they
/// choose. The only error is out of memory.
pub fn walk_turns<A: Allocator + Copy>(
    alloc: A,
    image: &Image<A>,
    code: &LocalCode<A>,
    inputs: &Inputs,
    turns: &[Choice],
) -> Result<Walk<A>, AllocError>
    requires { segments_memory code.now.code ≡ code_in (image_memory image.now) }
    ensures choices { IfOk result (λ walk. walk.choices.items ≡ choices_from_start (habits_of code.now) (started image.now inputs.now) turns.now) }
    ensures world { IfOk result (λ walk. state walk.machine ≡ run (started image.now inputs.now) walk.choices.items) }
{
    let mut machine: Machine<FlatStore<A>, A> = Machine::start(alloc, image, inputs)?;
    let mut choices = Vec::new(alloc);
    take_all_first(&mut machine, code, inputs.harts(), turns, &mut choices)?;
    'turns: for turn in turns {
        take_turn(&mut machine, image, code, *turn, &mut choices)?;
    }
    Ok(Walk { machine, choices })
}
