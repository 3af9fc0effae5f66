//! The call that a page makes for every schedule, and what its numbers ask.

ghost use Rattle.std.specs.Prelude.{◌≡◌, drop};
ghost use Rattle.std.specs.Borrow.{Bor};
ghost use Rattle.page.specs.Answers.{SaysWhat};
ghost use Rattle.page.specs.Every.{AsksEvery};
ghost use Rattle.page_calls.specs.Explored.{TellsExplored};

use crate::answer::Answer;
use crate::asked::{bounds_of, expect_of, refusals_of};
use cmd_explore::Question;
use page_calls::explore_call;
use page_heap::{Block, Heap};

/// What is asked of every schedule, in numbers.
#[repr(C)]
#[derive(Clone, Copy)]
pub struct AskedEvery {
    /// The most worlds that are looked at.
    pub most: u64,
    /// The rule: 0 is none, 1 to 5 are swap, add, lrsc, adopt and rounds.
    pub rule: u32,
    /// With 1 each world must have a way out.
    pub exit: u32,
    /// With 1 the bounds on harts' own steps are told.
    pub bounds: u32,
    /// With 1 store-conditionals are refused too that could succeed; with 0 none is.
    pub refusals: u32,
}

// The question that is asked.
fn question_of(asked: AskedEvery) -> Option<Question>
    ensures { AsksEvery asked result }
{
    let expect = expect_of(asked.rule, asked.exit)?;
    let bounds = bounds_of(asked.bounds)?;
    let refusals = refusals_of(asked.refusals)?;
    Some(Question {
        expect,
        always: None,
        never_both: None,
        bounds,
        refusals,
        most: asked.most as usize,
    })
}

/// `explore` of an ELF file: whether some schedule of it fails or hangs.
#[unsafe(no_mangle)]
pub extern "C" fn page_explore(
    region: Block,
    size: usize,
    asked: &AskedEvery,
    inputs: &[u32],
    program: &[u8],
    out: &mut [u8],
    answer: &mut Answer,
)
    requires { region.size ≡ size }
    ensures told { SaysWhat (AsksEvery asked.now)
        (λ question. TellsExplored (Bor Heap) question inputs.now program.now out.new)
        answer.new }
    ensures kept { drop answer.new.length out.new ≡ drop answer.new.length out.old }
{
    let heap = Heap::new(region, size);
    *answer = match question_of(*asked) {
        Some(question) => Answer::from(explore_call(&heap, question, inputs, program, out)),
        None => Answer::unasked(),
    };
}
