//! Tables of names.
ghost use Rattle.std.specs.Prelude.{◌≡◌, ◌-◌, length, slice_index};
ghost use Rattle.std.specs.Str.{bytes_eq};
ghost use Rattle.asm_statement.specs.Names.{fence_bits, fence_set_of, first_named, register_number, register_of, named_rows};

use isa_table::{FenceSet, Reg};

// Registers whose names begin with `a`, and so on; first the ABI names, then `x0` to `x31`.
const A_REGISTERS: [(&str, u8); 8] = [
    ("a0", 10),
    ("a1", 11),
    ("a2", 12),
    ("a3", 13),
    ("a4", 14),
    ("a5", 15),
    ("a6", 16),
    ("a7", 17),
];

const S_REGISTERS: [(&str, u8); 13] = [
    ("sp", 2),
    ("s0", 8),
    ("s1", 9),
    ("s2", 18),
    ("s3", 19),
    ("s4", 20),
    ("s5", 21),
    ("s6", 22),
    ("s7", 23),
    ("s8", 24),
    ("s9", 25),
    ("s10", 26),
    ("s11", 27),
];

const T_REGISTERS: [(&str, u8); 8] = [
    ("tp", 4),
    ("t0", 5),
    ("t1", 6),
    ("t2", 7),
    ("t3", 28),
    ("t4", 29),
    ("t5", 30),
    ("t6", 31),
];

const X_REGISTERS: [(&str, u8); 32] = [
    ("x0", 0),
    ("x1", 1),
    ("x2", 2),
    ("x3", 3),
    ("x4", 4),
    ("x5", 5),
    ("x6", 6),
    ("x7", 7),
    ("x8", 8),
    ("x9", 9),
    ("x10", 10),
    ("x11", 11),
    ("x12", 12),
    ("x13", 13),
    ("x14", 14),
    ("x15", 15),
    ("x16", 16),
    ("x17", 17),
    ("x18", 18),
    ("x19", 19),
    ("x20", 20),
    ("x21", 21),
    ("x22", 22),
    ("x23", 23),
    ("x24", 24),
    ("x25", 25),
    ("x26", 26),
    ("x27", 27),
    ("x28", 28),
    ("x29", 29),
    ("x30", 30),
    ("x31", 31),
];

const OTHER_REGISTERS: [(&str, u8); 4] = [("zero", 0), ("ra", 1), ("gp", 3), ("fp", 8)];

// The subsets of `iorw` by their bits: input 8, output 4, read 2, write 1.
const FENCE_SETS: [(&str, u8); 15] = [
    ("w", 1),
    ("r", 2),
    ("rw", 3),
    ("o", 4),
    ("ow", 5),
    ("or", 6),
    ("orw", 7),
    ("i", 8),
    ("iw", 9),
    ("ir", 10),
    ("irw", 11),
    ("io", 12),
    ("iow", 13),
    ("ior", 14),
    ("iorw", 15),
];

/// The first byte of a text, or 0.
pub fn first_of(text: &str) -> u8
    ensures { result ≡ slice_index text.now 0 }
{
    let bytes = text.as_bytes();
    if bytes.is_empty() {
        return 0;
    }
    bytes[0]
}

// The last byte of a text, or 0.
#[inline(always)]
fn last_of(text: &str) -> u8
    ensures { result ≡ slice_index text.now (length text.now - 1) }
{
    let bytes = text.as_bytes();
    if bytes.is_empty() {
        return 0;
    }
    bytes[bytes.len() - 1]
}

// Whether two texts are equal. The last byte distinguishes most names of a table.
#[inline(always)]
#[tactic(auto, using(crate::proofs::Endings::others_end_otherwise))]
fn is_same(one: &str, other: &str) -> bool
    ensures { result ≡ bytes_eq one.now other.now }
{
    last_of(one) == last_of(other) && one == other
}

/// The value of the first row with this name.
#[tactic(auto, unfolding(asm_statement::specs::Names::first_named))]
pub fn find<V: Copy>(rows: &[(&str, V)], name: &str) -> Option<V>
    ensures { result ≡ first_named (named_rows rows.now) name.now }
{
    'rows: for (text, value) in rows {
        if is_same(text, name) {
            return Some(*value);
        }
    }
    None
}

// The number of a register's name.
#[tactic(auto, unfolding(asm_statement::specs::Names::register_number))]
fn register_number(name: &str) -> Option<u8>
    ensures { result ≡ register_number name.now }
{
    match first_of(name) {
        b'a' => find(&A_REGISTERS, name),
        b's' => find(&S_REGISTERS, name),
        b't' => find(&T_REGISTERS, name),
        b'x' => find(&X_REGISTERS, name),
        _ => find(&OTHER_REGISTERS, name),
    }
}

// The bits of a fence set's name.
#[tactic(auto, unfolding(asm_statement::specs::Names::fence_bits, isa_names::specs::Names::set_name))]
fn fence_bits(name: &str) -> Option<u8>
    ensures { result ≡ fence_bits name.now }
{
    find(&FENCE_SETS, name)
}

/// The register with a name: `x0` to `x31`, or an ABI name.
#[tactic(auto, unfolding(asm_statement::specs::Names::register_of))]
pub fn register_of(name: &str) -> Option<Reg>
    ensures { result ≡ register_of name.now }
{
    match register_number(name) {
        Some(number) if number < 32 => Some(Reg::new(number)),
        _ => None,
    }
}

/// The set of accesses with a name: a nonempty subset of `iorw` in that order.
#[tactic(auto, unfolding(asm_statement::specs::Names::fence_set_of))]
pub fn fence_set_of(name: &str) -> Option<FenceSet>
    ensures { result ≡ fence_set_of name.now }
{
    match fence_bits(name) {
        Some(bits) if bits < 16 => Some(FenceSet::new(bits)),
        _ => None,
    }
}
