//! What assembler sources say: statements, operands and faults, and what sources are read as.
#![tactic(auto)]

pub use fault::{AsmFault, Fault, FaultKind};
pub use heads::{Head, Operation, Unary};
pub use items::Items;
pub use name::Name;
pub use operand::{Immediate, Target, Upper, Value};
pub use place::Place;
pub use statement::{Body, Directive, Instruction, Pseudo, Section, Statement};

mod fault;
mod heads;
mod items;
mod name;
mod operand;
mod place;
mod statement;
