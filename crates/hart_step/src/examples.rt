//! Laws: examples of steps, in which the definitions give what the manual states.
ghost use Rattle.std.specs.Prelude.{◌≡◌, ℕ, true, false};
ghost use Rattle.hart_step.specs.Step.{stepped};
ghost use Rattle.hart_step.specs.Examples.{after, register, data_of, meanwhile, reserving};
ghost use Rattle.hart_step.specs.declared.hart.Cause.TheVariants.{Illegal, JumpMisaligned, LoadAccess};
ghost use Rattle.hart_step.specs.declared.hart.HartState.TheVariants.{Running, Faulted};

/// SRA of 0x80000000 by 31, and SLL of 1 by 33, of which only the low 5 bits count. Unprivileged
/// ISA, "Integer Register-Register Operations".
pub fn shifts_in_examples()
    // sra x3, x1, x2
    ensures sra { register (after 0x4020D1B3 0 0x80000000 31) 3 ≡ 0xFFFFFFFF }
    // sll x3, x1, x2
    ensures sll { register (after 0x002091B3 0 1 33) 3 ≡ 2 }
{}

/// JALR of a register into itself; a branch to an address that is not a multiple of 4, which is a
/// fault only if taken. Unprivileged ISA, "Control Transfer Instructions".
pub fn jumps_in_examples()
    // jalr x1, 1(x1)
    ensures target { (after 0x001080E7 0 0x00010010 0).hart.pc ≡ 0x00010010 }
    ensures link { register (after 0x001080E7 0 0x00010010 0) 1 ≡ 0x00010004 }
    // beq x1, x2, 2
    ensures taken { (after 0x00208163 0 5 5).hart.state ≡ Faulted JumpMisaligned }
    ensures kept { (after 0x00208163 0 5 5).hart.pc ≡ 0x00010000 }
    ensures untaken_state { (after 0x00208163 0 5 6).hart.state ≡ Running }
    ensures untaken { (after 0x00208163 0 5 6).hart.pc ≡ 0x00010004 }
{}

/// A sign-extended byte; a byte that is not mapped; a word that spells no instruction. Unprivileged
/// ISA, "Load and Store Instructions".
pub fn loads_in_examples()
    // lb x3, 0(x1)
    ensures sign { register (after 0x00008183 0x80 0x00011000 0) 3 ≡ 0xFFFFFF80 }
    // lb x3, -1(x0)
    ensures unmapped { (after 0xFFF00183 0 0 0).hart.state ≡ Faulted LoadAccess }
    ensures illegal { (after 0 0 0 0).hart.state ≡ Faulted Illegal }
{}

/// The minimum of 1 in memory and 0xFFFFFFFF in a register: the latter is -1 for AMOMIN and the
/// maximum for AMOMINU. Unprivileged ISA, "Atomic Memory Operations".
pub fn atomics_in_examples()
    // amomin.w x3, x2, (x1)
    ensures amomin { data_of (after 0x8020A1AF 1 0x00011000 0xFFFFFFFF) ≡ 0xFFFFFFFF }
    ensures amomin_rd { register (after 0x8020A1AF 1 0x00011000 0xFFFFFFFF) 3 ≡ 1 }
    // amominu.w x3, x2, (x1)
    ensures amominu { data_of (after 0xC020A1AF 1 0x00011000 0xFFFFFFFF) ≡ 1 }
    ensures amominu_rd { register (after 0xC020A1AF 1 0x00011000 0xFFFFFFFF) 3 ≡ 1 }
{}

/// After an LR, a store of the same value by another hart makes the SC fail; a store into the next
/// word, or by the hart itself, does not. Unprivileged ISA, "Load-Reserved/Store-Conditional
/// Instructions".
pub fn reservations_in_examples()
    // sw x3, 0(x1) by hart 1
    ensures ended { register (stepped 0 false (meanwhile 1 0x0001000C reserving)) 4 ≡ 1 }
    ensures memory_kept { data_of (stepped 0 false (meanwhile 1 0x0001000C reserving)) ≡ 8 }
    // sb x3, 4(x1) by hart 1
    ensures next_word { register (stepped 0 false (meanwhile 1 0x00010010 reserving)) 4 ≡ 0 }
    // sw x3, 0(x1) by hart 0
    ensures own { register (stepped 0 false (meanwhile 0 0x0001000C reserving)) 4 ≡ 0 }
    ensures stored { data_of (stepped 0 false (meanwhile 0 0x0001000C reserving)) ≡ 9 }
{}

/// A second SC without an LR between fails, and so does an SC after one that was refused.
/// Unprivileged ISA, "Load-Reserved/Store-Conditional Instructions".
pub fn conditional_stores_in_examples()
    ensures first { register (stepped 0 false (stepped 0 false reserving)) 4 ≡ 0 }
    ensures second { register (stepped 0 false (stepped 0 false reserving)) 5 ≡ 1 }
    ensures refused { register (stepped 0 false (stepped 0 true reserving)) 4 ≡ 1 }
    ensures after_refusal { register (stepped 0 false (stepped 0 true reserving)) 5 ≡ 1 }
    ensures memory_kept { data_of (stepped 0 false (stepped 0 true reserving)) ≡ 8 }
{}
