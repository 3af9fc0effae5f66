//! Tests what no clause says of code and local steps: single rows of each instruction, seams, and
//! refused memory.
use hart_local::{Class, Code, classify, local_steps};
use hart_step::{Hart, HartState};
use image::{Image, Rights, Segment};
use isa_table::Instr;
use std::alloc::{AllocError, Allocator, Global};
use std::mem::size_of;
use test_refusing::{Call, tried};

const BASE: u32 = 0x10000;

// A word of each instruction, as assembled by GNU as.
const ROWS: [(u32, Class, &'static str); 51] = [
    (0x0000_0013, Class::Local, "addi"),
    (0x0003_8a63, Class::Local, "beq"),
    (0x0000_03b7, Class::Local, "lui"),
    (0x0000_0897, Class::Local, "auipc"),
    (0x0020_0def, Class::Local, "jal"),
    (0x000b_0d67, Class::Local, "jalr"),
    (0xfe4d_1fe3, Class::Local, "bne"),
    (0x0058_c163, Class::Local, "blt"),
    (0xfe64_5fe3, Class::Local, "bge"),
    (0x007f_e163, Class::Local, "bltu"),
    (0xfe8b_7fe3, Class::Local, "bgeu"),
    (0xfffe_ae93, Class::Local, "slti"),
    (0x800a_3013, Class::Local, "sltiu"),
    (0xaaa5_c193, Class::Local, "xori"),
    (0x0011_6313, Class::Local, "ori"),
    (0x7ffc_f493, Class::Local, "andi"),
    (0x0008_1613, Class::Local, "slli"),
    (0x000e_5413, Class::Local, "srli"),
    (0x4004_5213, Class::Local, "srai"),
    (0x013a_0033, Class::Local, "add"),
    (0x4070_0e33, Class::Local, "sub"),
    (0x01b6_1c33, Class::Local, "sll"),
    (0x00fc_2a33, Class::Local, "slt"),
    (0x0032_3833, Class::Local, "sltu"),
    (0x0178_4633, Class::Local, "xor"),
    (0x00be_5433, Class::Local, "srl"),
    (0x41f4_5233, Class::Local, "sra"),
    (0x013a_6033, Class::Local, "or"),
    (0x0070_7e33, Class::Local, "and"),
    (0x0ff0_000f, Class::Local, "fence"),
    (0x0864_a3af, Class::Shared, "amoswap.w"),
    (0x1004_a3af, Class::Shared, "lr.w"),
    (0x1864_ae2f, Class::Shared, "sc.w"),
    (0x0664_a3af, Class::Shared, "amoadd.w"),
    (0x0006_8583, Class::Shared, "lb"),
    (0x0012_1703, Class::Shared, "lh"),
    (0xfffd_a883, Class::Shared, "lw"),
    (0x7ff9_4a03, Class::Shared, "lbu"),
    (0x8004_db83, Class::Shared, "lhu"),
    (0x0090_0023, Class::Shared, "sb"),
    (0x7f71_1fa3, Class::Shared, "sh"),
    (0x0252_2023, Class::Shared, "sw"),
    (0x0000_0073, Class::Shared, "ecall"),
    (0x0010_0073, Class::Shared, "ebreak"),
    (0x217e_242f, Class::Shared, "amoxor.w"),
    (0x60b4_222f, Class::Shared, "amoand.w"),
    (0x41fa_202f, Class::Shared, "amoor.w"),
    (0x8130_2e2f, Class::Shared, "amomin.w"),
    (0xa076_2c2f, Class::Shared, "amomax.w"),
    (0xc1bc_2a2f, Class::Shared, "amominu.w"),
    (0xe0f2_282f, Class::Shared, "amomaxu.w"),
];

/// A segment: its base, its rights and its bytes.
type Piece<'a> = (u32, u32, &'a [u8]);

fn image_of<A: Allocator + Copy>(alloc: A, pieces: &[Piece]) -> Option<Image<A>> {
    let mut segments = Vec::new(alloc);
    for (base, rights, bytes) in pieces {
        let segment = Segment {
            base: *base,
            size: u32::try_from(bytes.len()).ok()?,
            rights: Rights::of_flags(*rights),
            bytes: Vec::from_slice(alloc, bytes).ok()?,
        };
        segments.push(segment).ok()?;
    }
    Image::new(alloc, BASE, segments).ok()
}

fn hart_at(pc: u32) -> Hart {
    Hart {
        registers: [0; 32],
        pc,
        state: HartState::Running,
    }
}

// The class of a running hart's step at an address.
fn class_at(alloc: Global, pieces: &[Piece], pc: u32) -> Option<Class> {
    let image = image_of(alloc, pieces)?;
    let code = Code::new(alloc, &image).ok()?;
    Some(classify(&hart_at(pc), &code))
}

// Whether a word has its class as code, and is shared if it is writable or not executable.
fn has_class(alloc: Global, word: u32, class: Class) -> bool {
    let bytes = word.to_le_bytes();
    class_at(alloc, &[(BASE, 5, &bytes)], BASE) == Some(class)
        && class_at(alloc, &[(BASE, 7, &bytes)], BASE) == Some(Class::Shared)
        && class_at(alloc, &[(BASE, 4, &bytes)], BASE) == Some(Class::Shared)
}

#[test]
fn each_instruction_has_its_class(rt: HostRuntime) {
    for (word, class, text) in &ROWS {
        assert!(rt; has_class(rt.alloc(), *word, *class), "{text}");
    }
}

/// The place of `addi x0, x0, 0` or a part of it, and the class of the step there.
struct Placed {
    name: &'static str,
    pieces: &'static [Piece<'static>],
    pc: u32,
    class: Class,
}

#[rattlefmt::skip]
const PLACED: [Placed; 6] = [
    Placed { name: "over a seam", pieces: &[(0x10000, 1, &[0x13, 0]), (0x10002, 5, &[0, 0])], pc: BASE, class: Class::Local },
    Placed { name: "half writable", pieces: &[(0x10000, 1, &[0x13, 0]), (0x10002, 7, &[0, 0])], pc: BASE, class: Class::Shared },
    Placed { name: "three bytes", pieces: &[(0x10000, 5, &[0x13, 0, 0])], pc: BASE, class: Class::Shared },
    Placed { name: "at an odd address", pieces: &[(0x10001, 5, &[0x13, 0, 0, 0])], pc: 0x10001, class: Class::Local },
    Placed { name: "the last word", pieces: &[(0xffff_fffc, 5, &[0x13, 0, 0, 0])], pc: 0xffff_fffc, class: Class::Local },
    Placed { name: "past the end", pieces: &[(0xffff_fffc, 5, &[0x13, 0, 0, 0])], pc: 0xffff_fffe, class: Class::Shared },
];

#[test]
fn all_four_bytes_are_code(rt: HostRuntime) {
    for row in &PLACED {
        assert!(rt;
            class_at(rt.alloc(), row.pieces, row.pc) == Some(row.class),
            "{}",
            row.name
        );
    }
}

// `lui t0, 0x11`, `addi t1, t0, 1`, `jal x0, 8`, a word that is skipped, and `sw t1, 0(t0)`.
static PROGRAM: [u8; 20] = [
    0xb7, 0x12, 0x01, 0x00, 0x13, 0x83, 0x12, 0x00, 0x6f, 0x00, 0x80, 0x00, 0, 0, 0, 0, 0x23, 0xa0,
    0x62, 0x00,
];

/// A limit, the number of steps under it, and the hart after them: its pc and what it has loaded
/// into t0.
struct Limited {
    limit: u32,
    done: u32,
    pc: u32,
    loaded: u32,
}

#[rattlefmt::skip]
const LIMITS: [Limited; 4] = [
    Limited { limit: 0, done: 0, pc: 0x10000, loaded: 0 },
    Limited { limit: 2, done: 2, pc: 0x10008, loaded: 0x11000 },
    Limited { limit: 3, done: 3, pc: 0x10010, loaded: 0x11000 },
    Limited { limit: 9, done: 3, pc: 0x10010, loaded: 0x11000 },
];

fn stops_at(code: &Code<Global>, row: &Limited) -> bool {
    let mut hart = hart_at(BASE);
    let done = local_steps(&mut hart, code, row.limit);
    done == row.done && hart.pc == row.pc && hart.registers[5] == row.loaded
}

// Whether the program stops under a row's limit as the row says; `None` if out of memory.
fn is_limited(alloc: Global, row: &Limited) -> Option<bool> {
    let image = image_of(alloc, &[(BASE, 5, PROGRAM.as_slice())])?;
    let code = Code::new(alloc, &image).ok()?;
    Some(stops_at(&code, row))
}

#[test]
fn local_steps_stop_at_the_store_or_the_limit(rt: HostRuntime) {
    for row in &LIMITS {
        assert!(rt;
            is_limited(rt.alloc(), row) == Some(true),
            "limit {}",
            row.limit
        );
    }
}

/// The code of two segments.
struct TwoSegments;

impl Call for TwoSegments {
    fn answer<A: Allocator + Copy>(&self, alloc: A, host: Global) -> Result<bool, AllocError> {
        let pieces = [
            (BASE, 5, PROGRAM.as_slice()),
            (0x20000, 1, [0x13, 0, 0, 0].as_slice()),
        ];
        match image_of(host, pieces.as_slice()) {
            Some(image) => {
                let _ = Code::new(alloc, &image)?;
                Ok(true)
            }
            None => Ok(false),
        }
    }
}

#[test]
fn code_is_refused_where_a_request_is(rt: HostRuntime) {
    assert!(rt; tried(rt.alloc(), &TwoSegments).is_ok());
}

#[test]
fn an_entry_takes_at_most_twelve_bytes(rt: HostRuntime) {
    assert!(rt;
        size_of::<Option<Instr>>() <= 12,
        "{} bytes",
        size_of::<Option<Instr>>()
    );
}
