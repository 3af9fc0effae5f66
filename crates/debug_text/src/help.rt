//! The commands, a line for each.
ghost use Rattle.std.specs.Prelude.{◌≡◌, IfOk, string_bytes};
ghost use Rattle.debug_text.specs.Help.{help_text};

use std::alloc::{AllocError, Allocator};

// The lines of `help`.
const HELP: &str = "\
help         lists the commands\n\
where        shows the position\n\
goto K       goes to step K\n\
forward [N]  goes N steps forward, or 1\n\
back [N]     goes N steps back, or 1\n\
step H       goes behind the next choice of hart H\n\
break A      sets a breakpoint at the address A\n\
watch A      watches the word that holds A for changes\n\
rwatch A     watches it for reads\n\
awatch A     watches it for reads and writes\n\
delete A     removes the breakpoint and the watches at the address A\n\
go           goes to the next breakpoint or watch, or to the end\n\
rgo          goes back to the last one, or to the start\n\
steps A B    shows the choices from A to B - 1\n\
list [H]     shows the instructions around the next one of hart H, or of the next choice\n\
regs H       shows the state and the registers of hart H\n\
regs H R..   shows these registers of hart H alone, as regs 0 a0 pc\n\
mem A N      shows N words of memory from the one that holds A on\n\
quit         ends\n";

/// The commands, a line for each.
pub fn help_text<A: Allocator>(alloc: A) -> Result<String<A>, AllocError>
    ensures { IfOk result (λ text. string_bytes text ≡ help_text) }
{
    String::from_str(alloc, HELP)
}
