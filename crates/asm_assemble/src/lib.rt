//! Places statements, evaluates their operands, and makes a program of them.
#![tactic(auto)]

pub use laws::{
    assembled_is_placed, faulty_is_unplaced, high_and_low_parts, one_program, placed_is_assembled,
};
pub use limits::programs_begin_and_end;
pub use phases::assemble_statements;
pub use program::{PROGRAM_LIMIT, Program, Symbol, Symbols, TEXT_BASE};
pub use table::Table;

mod ahead;
mod cursor;
mod instruction;
mod laws;
mod limits;
mod locals;
mod number;
mod operand;
mod phases;
mod placing;
mod program;
mod push;
mod sections;
mod table;
mod valuing;
