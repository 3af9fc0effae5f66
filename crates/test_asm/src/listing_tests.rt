//! Properties without a clause: lines that GNU as assembles to their words, listings written by
//! hand, and out of memory.
use isa_disasm::{line_of, list_image, push_listing};
use std::alloc::{AllocError, Allocator, Global};
use test_images::{PROGRAM_START, Part, image_of};
use test_refusing::Refusing;

// Texts at 0x00010000 and the words that GNU as assembled from them (`-march=rv32ia -mabi=ilp32`):
// each mnemonic, and each suffix, once.
#[rattlefmt::skip]
const LINES: [(u32, &str); 85] = [
        (0x0000_0013, "addi zero, zero, 0"),
        (0x0003_8a63, "beq t2, zero, 0x00010014"),
        (0x0864_a3af, "amoswap.w t2, t1, (s1)"),
        (0x1004_a3af, "lr.w t2, (s1)"),
        (0x1864_ae2f, "sc.w t3, t1, (s1)"),
        (0x0664_a3af, "amoadd.w.aqrl t2, t1, (s1)"),
        (0x0000_03b7, "lui t2, 0x0"),
        (0x0000_0897, "auipc a7, 0x0"),
        (0x0020_0def, "jal s11, 0x00010002"),
        (0x000b_0d67, "jalr s10, 0(s6)"),
        (0xfe4d_1fe3, "bne s10, tp, 0x0000fffe"),
        (0x0058_c163, "blt a7, t0, 0x00010002"),
        (0xfe64_5fe3, "bge s0, t1, 0x0000fffe"),
        (0x007f_e163, "bltu t6, t2, 0x00010002"),
        (0xfe8b_7fe3, "bgeu s6, s0, 0x0000fffe"),
        (0x0006_8583, "lb a1, 0(a3)"),
        (0x0012_1703, "lh a4, 1(tp)"),
        (0xfffd_a883, "lw a7, -1(s11)"),
        (0x7ff9_4a03, "lbu s4, 2047(s2)"),
        (0x8004_db83, "lhu s7, -2048(s1)"),
        (0x0090_0023, "sb s1, 0(zero)"),
        (0x7f71_1fa3, "sh s7, 2047(sp)"),
        (0x0252_2023, "sw t0, 32(tp)"),
        (0xfffe_ae93, "slti t4, t4, -1"),
        (0x800a_3013, "sltiu zero, s4, -2048"),
        (0xaaa5_c193, "xori gp, a1, -1366"),
        (0x0011_6313, "ori t1, sp, 1"),
        (0x7ffc_f493, "andi s1, s9, 2047"),
        (0x0008_1613, "slli a2, a6, 0"),
        (0x000e_5413, "srli s0, t3, 0"),
        (0x4004_5213, "srai tp, s0, 0"),
        (0x013a_0033, "add zero, s4, s3"),
        (0x4070_0e33, "sub t3, zero, t2"),
        (0x01b6_1c33, "sll s8, a2, s11"),
        (0x00fc_2a33, "slt s4, s8, a5"),
        (0x0032_3833, "sltu a6, tp, gp"),
        (0x0178_4633, "xor a2, a6, s7"),
        (0x00be_5433, "srl s0, t3, a1"),
        (0x41f4_5233, "sra tp, s0, t6"),
        (0x013a_6033, "or zero, s4, s3"),
        (0x0070_7e33, "and t3, zero, t2"),
        (0x0ff0_000f, "fence iorw, iorw"),
        (0x8330_000f, "fence.tso"),
        (0x0000_0073, "ecall"),
        (0x0010_0073, "ebreak"),
        (0x120b_afaf, "lr.w.rl t6, (s7)"),
        (0x1401_232f, "lr.w.aq t1, (sp)"),
        (0x1606_a6af, "lr.w.aqrl a3, (a3)"),
        (0x1a81_adaf, "sc.w.rl s11, s0, (gp)"),
        (0x1d57_212f, "sc.w.aq sp, s5, (a4)"),
        (0x1e2c_a4af, "sc.w.aqrl s1, sp, (s9)"),
        (0x0bc7_abaf, "amoswap.w.rl s7, t3, (a5)"),
        (0x0c9d_2f2f, "amoswap.w.aq t5, s1, (s10)"),
        (0x0f62_a2af, "amoswap.w.aqrl t0, s6, (t0)"),
        (0x0038_262f, "amoadd.w a2, gp, (a6)"),
        (0x030d_a9af, "amoadd.w.rl s3, a6, (s11)"),
        (0x05d3_2d2f, "amoadd.w.aq s10, t4, (t1)"),
        (0x217e_242f, "amoxor.w s0, s7, (t3)"),
        (0x2243_a7af, "amoxor.w.rl a5, tp, (t2)"),
        (0x2519_2b2f, "amoxor.w.aq s6, a7, (s2)"),
        (0x27ee_aeaf, "amoxor.w.aqrl t4, t5, (t4)"),
        (0x60b4_222f, "amoand.w tp, a1, (s0)"),
        (0x6389_a5af, "amoand.w.rl a1, s8, (s3)"),
        (0x645f_292f, "amoand.w.aq s2, t0, (t5)"),
        (0x6724_acaf, "amoand.w.aqrl s9, s2, (s1)"),
        (0x41fa_202f, "amoor.w zero, t6, (s4)"),
        (0x42cf_a3af, "amoor.w.rl t2, a2, (t6)"),
        (0x4595_272f, "amoor.w.aq a4, s9, (a0)"),
        (0x466a_aaaf, "amoor.w.aqrl s5, t1, (s5)"),
        (0x8130_2e2f, "amomin.w t3, s3, (zero)"),
        (0x8205_a1af, "amomin.w.rl gp, zero, (a1)"),
        (0x84db_252f, "amomin.w.aq a0, a3, (s6)"),
        (0x87a0_a8af, "amomin.w.aqrl a7, s10, (ra)"),
        (0xa076_2c2f, "amomax.w s8, t2, (a2)"),
        (0xa34b_afaf, "amomax.w.rl t6, s4, (s7)"),
        (0xa411_232f, "amomax.w.aq t1, ra, (sp)"),
        (0xa6e6_a6af, "amomax.w.aqrl a3, a4, (a3)"),
        (0xc1bc_2a2f, "amominu.w s4, s11, (s8)"),
        (0xc281_adaf, "amominu.w.rl s11, s0, (gp)"),
        (0xc557_212f, "amominu.w.aq sp, s5, (a4)"),
        (0xc62c_a4af, "amominu.w.aqrl s1, sp, (s9)"),
        (0xe0f2_282f, "amomaxu.w a6, a5, (tp)"),
        (0xe3c7_abaf, "amomaxu.w.rl s7, t3, (a5)"),
        (0xe49d_2f2f, "amomaxu.w.aq t5, s1, (s10)"),
        (0xe762_a2af, "amomaxu.w.aqrl t0, s6, (t0)"),
];

// Whether a word at an address has this line; `None` when out of memory.
fn has_line(alloc: Global, address: u32, word: u32, wanted: &str) -> Option<bool> {
    let text = line_of(alloc, address, word).ok()?;
    Some(text.as_str() == wanted)
}

#[test]
fn each_mnemonic_has_its_line(rt: HostRuntime) {
    for (word, wanted) in &LINES {
        let answer = has_line(rt.alloc(), 0x0001_0000, *word, wanted);
        assert!(rt; answer == Some(true), "{wanted}");
    }
}

// Addresses, words and their lines.
const EDGES: [(u32, u32, &str); 22] = [
    (0x0001_0000, 0x0000_0013, "addi zero, zero, 0"),
    (0x0001_0018, 0x0003_8a63, "beq t2, zero, 0x0001002c"),
    (0x0001_0000, 0x0000_0000, ".word 0x00000000"),
    (0x0001_0000, 0x0205_1513, ".word 0x02051513"),
    (0x0001_0000, 0x0864_a3af, "amoswap.w t2, t1, (s1)"),
    (0x0001_0000, 0x1004_a3af, "lr.w t2, (s1)"),
    (0x0001_0000, 0x1864_ae2f, "sc.w t3, t1, (s1)"),
    // Targets are modulo 2^32, in both directions.
    (0x0000_0000, 0xffff_f06f, "jal zero, 0xfffffffe"),
    (0xffff_fffc, 0x0040_04ef, "jal s1, 0x00000000"),
    // The limits of the immediates.
    (0x0001_0000, 0x8000_0513, "addi a0, zero, -2048"),
    (0x0001_0000, 0x7ff0_0513, "addi a0, zero, 2047"),
    (0x0001_0000, 0x01f5_1513, "slli a0, a0, 31"),
    (0x0001_0000, 0xffff_f537, "lui a0, 0xfffff"),
    // Fences with an empty set, another mode, or a register have no text.
    (0x0001_0000, 0x0330_000f, "fence rw, rw"),
    (0x0001_0000, 0x0300_000f, ".word 0x0300000f"),
    (0x0001_0000, 0x0030_000f, ".word 0x0030000f"),
    (0x0001_0000, 0x8330_000f, "fence.tso"),
    (0x0001_0000, 0x8310_000f, ".word 0x8310000f"),
    (0x0001_0000, 0x0330_008f, ".word 0x0330008f"),
    (0x0001_0000, 0x0330_800f, ".word 0x0330800f"),
    (0x0001_0000, 0x8330_008f, ".word 0x8330008f"),
    (0x0001_0000, 0xffff_ffff, ".word 0xffffffff"),
];

#[test]
fn words_at_an_edge_have_their_lines(rt: HostRuntime) {
    for (address, word, wanted) in &EDGES {
        let answer = has_line(rt.alloc(), *address, *word, wanted);
        assert!(rt; answer == Some(true), "{wanted}");
    }
}

// Two words and two bytes.
const TEN_BYTES: [u8; 10] = [0x13, 0, 0, 0, 0x6f, 0, 0x40, 0, 0x13, 0xff];

const TEN_BYTES_LISTING: &str = "addi zero, zero, 0  # 00010000 00000013
jal zero, 0x00010008  # 00010004 0040006f
.byte 0x13  # 00010008
.byte 0xff  # 00010009
";

// The listing of `TEN_BYTES`.
fn listing_of_ten(alloc: Global) -> Result<String<Global>, AllocError> {
    let mut text = String::new(alloc);
    push_listing(&mut text, 0x0001_0000, &TEN_BYTES)?;
    Ok(text)
}

#[test]
fn words_are_followed_by_single_bytes(rt: HostRuntime) -> Result<(), AllocError> {
    let text = listing_of_ten(rt.alloc())?;
    assert!(rt; text.as_str() == TEN_BYTES_LISTING);
    Ok(())
}

// The listing of an image with these segments.
fn listing_of<A: Allocator + Copy>(alloc: A, parts: &[Part]) -> Result<String<A>, AllocError> {
    let image = image_of(alloc, PROGRAM_START, parts)?;
    list_image(alloc, &image)
}

// Whether an image with these segments has this listing; `None` when out of memory.
fn is_listed(alloc: Global, parts: &[Part], wanted: &str) -> Option<bool> {
    let text = listing_of(alloc, parts).ok()?;
    Some(text.as_str() == wanted)
}

// Executable segments, and their listings.
#[rattlefmt::skip]
const UNALIGNED: [(Part, &str); 5] = [
    (Part { base: 0x0001_0000, size: 0, flags: 1, bytes: &[] }, ""),
    (
        Part { base: 0x0001_0003, size: 6, flags: 1, bytes: &[1, 0x13, 0, 0, 0, 2] },
        "# segment 00010003 6
.byte 0x01  # 00010003
addi zero, zero, 0  # 00010004 00000013
.byte 0x02  # 00010008
",
    ),
    (
        Part { base: 0x0001_0001, size: 2, flags: 1, bytes: &[1, 2] },
        "# segment 00010001 2
.byte 0x01  # 00010001
.byte 0x02  # 00010002
",
    ),
    (
        Part { base: 0x0001_0002, size: 4, flags: 1, bytes: &[1, 2, 3, 4] },
        "# segment 00010002 4
.byte 0x01  # 00010002
.byte 0x02  # 00010003
.byte 0x03  # 00010004
.byte 0x04  # 00010005
",
    ),
    (
        Part { base: 0xffff_fffc, size: 4, flags: 1, bytes: &[0x13, 0, 0, 0] },
        "# segment fffffffc 4
addi zero, zero, 0  # fffffffc 00000013
",
    ),
];

#[test]
fn unaligned_ends_are_single_bytes(rt: HostRuntime) {
    for (part, wanted) in &UNALIGNED {
        assert!(rt;
            is_listed(rt.alloc(), &[*part], wanted) == Some(true),
            "{wanted}"
        );
    }
}

// An image with data between two pieces of text, the higher one first.
#[rattlefmt::skip]
const TWO_TEXTS: [Part; 3] = [
    Part { base: 0x0002_0000, size: 6, flags: 5, bytes: &[0x73, 0, 0, 0] },
    Part { base: 0x0001_8000, size: 4, flags: 6, bytes: &[0x13, 0, 0, 0] },
    Part { base: 0x0001_0000, size: 4, flags: 1, bytes: &[0x13, 0, 0, 0] },
];

const IMAGE_LISTING: &str = "# segment 00010000 4
addi zero, zero, 0  # 00010000 00000013
# segment 00020000 6
ecall  # 00020000 00000073
.byte 0x00  # 00020004
.byte 0x00  # 00020005
";

#[test]
fn executable_segments_are_listed_by_base(rt: HostRuntime) {
    assert!(rt; is_listed(rt.alloc(), &TWO_TEXTS, IMAGE_LISTING) == Some(true));
}

// Whether a line is made, or out of memory is reported.
fn is_line_told(heap: &Refusing<Global>) -> bool {
    match line_of(heap, 0x0001_0018, 0x0003_8a63) {
        Ok(text) => text.as_str() == "beq t2, zero, 0x0001002c",
        Err(_) => heap.refused(),
    }
}

#[test]
fn each_refused_request_of_a_line_is_told(rt: HostRuntime) -> Result<(), u64> {
    for passed in 0..100u64 {
        let heap = Refusing::new(rt.alloc(), passed);
        if !is_line_told(&heap) {
            return Err(passed);
        }
        if !heap.refused() {
            assert!(rt; passed > 0, "no memory is asked for");
            return Ok(());
        }
    }
    Err(100)
}

// Whether an image is listed, or out of memory is reported.
fn is_image_told(heap: &Refusing<Global>) -> bool {
    match listing_of(heap, &TWO_TEXTS) {
        Ok(text) => text.as_str() == IMAGE_LISTING,
        Err(_) => heap.refused(),
    }
}

#[test]
fn each_refused_request_of_an_image_is_told(rt: HostRuntime) -> Result<(), u64> {
    for passed in 0..200u64 {
        let heap = Refusing::new(rt.alloc(), passed);
        if !is_image_told(&heap) {
            return Err(passed);
        }
        if !heap.refused() {
            assert!(rt; passed > 0, "no memory is asked for");
            return Ok(());
        }
    }
    Err(200)
}
