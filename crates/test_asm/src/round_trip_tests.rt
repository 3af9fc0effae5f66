//! Properties without a clause: a listing is made if memory suffices, and out of memory.
use asm_assemble::Program;
use asm_round_trip::list_source;
use asm_statement::AsmFault;
use cmd_asm::assemble;
use std::alloc::{AllocError, Global};
use test_refusing::Refusing;

// A line of each shape, a word that spells no instruction, two bytes after the last word; data and
// a symbol, which a listing leaves out.
const SOURCE: &str = "
_start: addi a0, zero, -1
1:  lw a1, -4(sp)
    sw a1, 2047(sp)
    beq a0, a1, 1b
    jal zero, _start
    jal zero, 0xffff0000
    jalr ra, 0(a0)
    lui t0, 0xfffff
    auipc t0, 0
    slli a0, a0, 31
    add a0, a1, a2
    lr.w.aq a0, (a1)
    sc.w.rl a0, a2, (a1)
    amominu.w.aqrl a0, a2, (a1)
    fence io, rw
    fence.tso
    ecall
    ebreak
    .word 0xffffffff
    .byte 0, 255
    .data
    .word 7
";

const LISTING: &str = "addi a0, zero, -1  # 00010000 fff00513
lw a1, -4(sp)  # 00010004 ffc12583
sw a1, 2047(sp)  # 00010008 7eb12fa3
beq a0, a1, 0x00010004  # 0001000c feb50ce3
jal zero, 0x00010000  # 00010010 ff1ff06f
jal zero, 0xffff0000  # 00010014 feddf06f
jalr ra, 0(a0)  # 00010018 000500e7
lui t0, 0xfffff  # 0001001c fffff2b7
auipc t0, 0x0  # 00010020 00000297
slli a0, a0, 31  # 00010024 01f51513
add a0, a1, a2  # 00010028 00c58533
lr.w.aq a0, (a1)  # 0001002c 1405a52f
sc.w.rl a0, a2, (a1)  # 00010030 1ac5a52f
amominu.w.aqrl a0, a2, (a1)  # 00010034 c6c5a52f
fence io, rw  # 00010038 0c30000f
fence.tso  # 0001003c 8330000f
ecall  # 00010040 00000073
ebreak  # 00010044 00100073
.word 0xffffffff  # 00010048 ffffffff
.byte 0x00  # 0001004c
.byte 0xff  # 0001004d
";

// Whether a listing assembles to a program's text, and to no data.
fn is_text_of(alloc: Global, listing: &str, program: &Program<Global>) -> Result<bool, AsmFault> {
    let again = assemble(alloc, [listing].as_slice())?;
    Ok(again.text() == program.text() && again.bytes().is_empty())
}

// Whether the source has its listing, and the listing assembles to its text.
fn comes_back(alloc: Global) -> Result<bool, AsmFault> {
    let program = assemble(alloc, [SOURCE].as_slice())?;
    let listing = list_source(alloc, &program)?;
    let is_back = is_text_of(alloc, &listing, &program)?;
    Ok(is_back && listing.as_str() == LISTING)
}

#[test]
fn a_listing_assembles_to_its_text(rt: HostRuntime) {
    assert!(rt; comes_back(rt.alloc()) == Ok(true));
}

// Whether a source is listed, or out of memory is reported.
fn is_source_told(heap: &Refusing<Global>) -> bool {
    let Ok(program) = assemble(heap, ["ecall"].as_slice()) else {
        return heap.refused();
    };
    match list_source(heap, &program) {
        Ok(source) => source.as_str() == "ecall  # 00010000 00000073\n",
        Err(AllocError) => heap.refused(),
    }
}

#[test]
fn each_refused_request_of_a_source_is_told(rt: HostRuntime) -> Result<(), u64> {
    for passed in 0..1000u64 {
        let heap = Refusing::new(rt.alloc(), passed);
        if !is_source_told(&heap) {
            return Err(passed);
        }
        if !heap.refused() {
            assert!(rt; passed > 0, "no memory is asked for");
            return Ok(());
        }
    }
    Err(1000)
}
