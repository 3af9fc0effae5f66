//! Registers by their names. RISC-V ABIs Specification, "Integer Register Convention".

ghost use Rattle.std.specs.Prelude.{◌≡◌, Some};
ghost use Rattle.isa_names.specs.Names.{abi};

use isa_table::Reg;
use std::fmt;

/// The ABI name of a register: `zero`, `ra`, `sp` and so on. x8 is `s0`.
#[tactic(auto, unfolding(crate::specs::Names::abi))]
pub fn abi_name(register: Reg) -> &'static str
    ensures { result.now ≡ abi register }
{
    match register.number() {
        0 => "zero",
        1 => "ra",
        2 => "sp",
        3 => "gp",
        4 => "tp",
        5 => "t0",
        6 => "t1",
        7 => "t2",
        8 => "s0",
        9 => "s1",
        10 => "a0",
        11 => "a1",
        12 => "a2",
        13 => "a3",
        14 => "a4",
        15 => "a5",
        16 => "a6",
        17 => "a7",
        18 => "s2",
        19 => "s3",
        20 => "s4",
        21 => "s5",
        22 => "s6",
        23 => "s7",
        24 => "s8",
        25 => "s9",
        26 => "s10",
        27 => "s11",
        28 => "t3",
        29 => "t4",
        30 => "t5",
        31 => "t6",
        _ => unreachable!(),
    }
}

/// A register, displayed as its ABI name.
#[derive(Clone, Copy)]
pub struct RegisterName(pub Reg);

impl fmt::Display for RegisterName {
    ghost output = { λ r. Some (abi r.0) };

    fn fmt<W: fmt::Write>(&self, f: &mut fmt::Formatter<W>) -> fmt::Result {
        f.write_str(abi_name(self.0))
    }
}
