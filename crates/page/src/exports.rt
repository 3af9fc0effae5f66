//! The calls that a page makes. Each has a heap over the memory that comes with it, and answers in
//! numbers; its texts are bytes.

ghost use Rattle.std.specs.Prelude.{◌≡◌, [], ◌∷◌, drop};
ghost use Rattle.cmd_asm.specs.Assembly.{file_of, listing_of};
ghost use Rattle.cmd_asm.specs.Faults.{assembly_status};
ghost use Rattle.cmd_run.specs.Run.{run_answer};
ghost use Rattle.cmd_trace.specs.Answer.{trace_answer};
ghost use Rattle.page.specs.Answers.{Says, SaysOf};
ghost use Rattle.page.specs.Asked.{expect_numbered, lines_of, view_numbered};
ghost use Rattle.page_calls.specs.Replies.{TellsAnswer, ends_well, prints_nothing};
ghost use Rattle.page_calls.specs.Sessions.{session_answer};
ghost use Rattle.page_calls.specs.Shown.{TellsFile, TellsShrunk};
ghost use Rattle.program_open.specs.CommandFaults.{status_of_fault};
ghost use Rattle.program_open.specs.declared.program.ProgramForm.TheVariants.{Elf};

use crate::answer::Answer;
use crate::asked::{expect_of, plan_of, view_of};
use page_calls::{
    assemble_call, debug_call, explain_call, file_call, listing_call, run_call, shrink_call,
    trace_call,
};
use page_heap::{Block, Heap};
use program_open::ProgramForm;

/// `asm --out`: the bytes of the ELF file of a source.
#[unsafe(no_mangle)]
pub extern "C" fn page_assemble(
    region: Block,
    size: usize,
    source: &[u8],
    out: &mut [u8],
    answer: &mut Answer,
)
    requires { region.size ≡ size }
    ensures told { Says (TellsAnswer assembly_status (ends_well (file_of (source.now ∷ []))) out.new) answer.new }
    ensures kept { drop answer.new.length out.new ≡ drop answer.new.length out.old }
{
    let heap = Heap::new(region, size);
    *answer = Answer::from(assemble_call(&heap, source, out));
}

/// `asm`: the listing of a source.
#[unsafe(no_mangle)]
pub extern "C" fn page_listing(
    region: Block,
    size: usize,
    source: &[u8],
    out: &mut [u8],
    answer: &mut Answer,
)
    requires { region.size ≡ size }
    ensures told { Says (TellsAnswer assembly_status (ends_well (listing_of (source.now ∷ []))) out.new) answer.new }
    ensures kept { drop answer.new.length out.new ≡ drop answer.new.length out.old }
{
    let heap = Heap::new(region, size);
    *answer = Answer::from(listing_call(&heap, source, out));
}

/// The explanation that `asm` has at a terminal: what is wrong with a source, and where. Nothing
/// where it has no fault.
#[unsafe(no_mangle)]
pub extern "C" fn page_explain(
    region: Block,
    size: usize,
    source: &[u8],
    out: &mut [u8],
    answer: &mut Answer,
)
    requires { region.size ≡ size }
    ensures told { Says (TellsAnswer assembly_status (prints_nothing (file_of (source.now ∷ []))) out.new) answer.new }
    ensures kept { drop answer.new.length out.new ≡ drop answer.new.length out.old }
{
    let heap = Heap::new(region, size);
    *answer = Answer::from(explain_call(&heap, source, out));
}

/// `list` (view 0) or `info` (view 1): what is shown of an ELF file.
#[unsafe(no_mangle)]
pub extern "C" fn page_file(
    region: Block,
    size: usize,
    view: u32,
    file: &[u8],
    out: &mut [u8],
    answer: &mut Answer,
)
    requires { region.size ≡ size }
    ensures told { SaysOf (view_numbered view) (λ view. TellsFile view file.now out.new) answer.new }
    ensures kept { drop answer.new.length out.new ≡ drop answer.new.length out.old }
{
    let heap = Heap::new(region, size);
    *answer = match view_of(view) {
        Some(view) => Answer::from(file_call(&heap, view, file, out)),
        None => Answer::unasked(),
    };
}

/// `run` of an ELF file: the harts' ends, and under a rule the verdict. Rule 0 is none; 1 to 5 are
/// swap, add, lrsc, adopt and rounds. With exit 1 each hart must exit.
#[unsafe(no_mangle)]
pub extern "C" fn page_run(
    region: Block,
    size: usize,
    rule: u32,
    exit: u32,
    inputs: &[u32],
    program: &[u8],
    choices: &[u8],
    out: &mut [u8],
    answer: &mut Answer,
)
    requires { region.size ≡ size }
    ensures told { SaysOf (expect_numbered rule exit)
        (λ expect. TellsAnswer status_of_fault (run_answer Elf inputs.now expect program.now choices.now) out.new)
        answer.new }
    ensures kept { drop answer.new.length out.new ≡ drop answer.new.length out.old }
{
    let heap = Heap::new(region, size);
    *answer = match expect_of(rule, exit) {
        Some(expect) => Answer::from(run_call(
            &heap,
            ProgramForm::Elf,
            inputs,
            expect,
            program,
            choices,
            out,
        )),
        None => Answer::unasked(),
    };
}

/// `trace` of an ELF file: a head, and a line of JSON for each choice from one to another.
#[unsafe(no_mangle)]
pub extern "C" fn page_trace(
    region: Block,
    size: usize,
    from: u64,
    to: u64,
    inputs: &[u32],
    program: &[u8],
    choices: &[u8],
    out: &mut [u8],
    answer: &mut Answer,
)
    requires { region.size ≡ size }
    ensures told { Says (TellsAnswer status_of_fault
        (trace_answer Elf (lines_of from to) inputs.now program.now choices.now) out.new) answer.new }
    ensures kept { drop answer.new.length out.new ≡ drop answer.new.length out.old }
{
    let heap = Heap::new(region, size);
    let plan = plan_of(from, to);
    *answer = Answer::from(trace_call(
        &heap,
        ProgramForm::Elf,
        plan,
        inputs,
        program,
        choices,
        out,
    ));
}

/// `shrink` of an ELF file's choices, under the rule and the exit of `page_run`.
#[unsafe(no_mangle)]
pub extern "C" fn page_shrink(
    region: Block,
    size: usize,
    rule: u32,
    exit: u32,
    inputs: &[u32],
    program: &[u8],
    choices: &[u8],
    out: &mut [u8],
    answer: &mut Answer,
)
    requires { region.size ≡ size }
    ensures told { SaysOf (expect_numbered rule exit)
        (λ expect. TellsShrunk expect inputs.now program.now choices.now out.new) answer.new }
    ensures kept { drop answer.new.length out.new ≡ drop answer.new.length out.old }
{
    let heap = Heap::new(region, size);
    *answer = match expect_of(rule, exit) {
        Some(expect) => Answer::from(shrink_call(&heap, expect, inputs, program, choices, out)),
        None => Answer::unasked(),
    };
}

/// `debug` of an ELF file: the answers to the lines of the commands, from the start of a run.
#[unsafe(no_mangle)]
pub extern "C" fn page_debug(
    region: Block,
    size: usize,
    inputs: &[u32],
    program: &[u8],
    choices: &[u8],
    commands: &[u8],
    out: &mut [u8],
    answer: &mut Answer,
)
    requires { region.size ≡ size }
    ensures told { Says (TellsAnswer status_of_fault
        (session_answer inputs.now program.now choices.now commands.now) out.new) answer.new }
    ensures kept { drop answer.new.length out.new ≡ drop answer.new.length out.old }
{
    let heap = Heap::new(region, size);
    *answer = Answer::from(debug_call(&heap, inputs, program, choices, commands, out));
}
