//! What no clause says: worked sessions, line by line.
use debug_session::Debugger;
use debug_text::{Answer, DebugFault, command};
use image::Image;
use machine::Inputs;
use program_open::{hex_image, read_hex};
use sched_text::read_choices;
use std::alloc::{AllocError, Global};

// A program in hexadecimal, the inputs, the choices, and lines with what is shown for each.
struct Session {
    name: &'static str,
    program: &'static str,
    inputs: &'static [u32],
    choices: &'static str,
    lines: &'static [(&'static str, &'static str)],
}

// The shared object by AMOSWAP, as GNU as makes it: two harts agree on one input.
const SWAP: &str =
    "00011437 00251293 008282B3 00B2A223 00100313 086423AF 00038A63 00154293 00229293 008282B3 \
    0042A583 00058513 00100593 05D00893 00000073";

const ONE_THEN_ZERO: &str = "1 1 1 1 1 1 1 1 1 1 1 0 0 0 0 0 0 0 0 0 0 0 0 0 0 0";

// A loop that counts: addi t0, t0, 1 and a jump back.
const COUNT: &str = "00128293 FFDFF06F";

const TEN: &str = "0 0 0 0 0 0 0 0 0 0";

#[rattlefmt::skip]
static SESSIONS: [Session; 11] = [
    Session { name: "swap_forward_and_back", program: SWAP, inputs: &[7, 9], choices: ONE_THEN_ZERO,
        lines: &[
            ("where", "step 0 of 26\n"),
            ("break 0x0001002c", "break 0001002c\n"),
            ("go", "break h1 0001002c\nstep 7 of 26\n"),
            ("go", "break h0 0001002c\nstep 22 of 26\n"),
            ("go", "end\nstep 26 of 26\n"),
            ("watch 0x00011002", "watch 00011000\n"),
            ("rgo", "break h0 0001002c\nstep 22 of 26\n"),
            ("rgo", "break h1 0001002c\nstep 7 of 26\n"),
            ("rgo", "watch 00011000\nstep 6 of 26\n"),
            ("rgo", "start\nstep 0 of 26\n"),
            ("go", "watch 00011000\nstep 6 of 26\n"),
            ("go", "break h1 0001002c\nstep 7 of 26\n"),
            ("steps 5 7", "5 h1 00010014 amoswap.w t2, t1, (s0)\n6 h1 00010018 beq t2, zero, 0x0001002c\n"),
            ("mem 0 1", "00000000 --------\n"),
            ("goto 27", "past end\n"),
            ("jump", "bad command\n"),
            ("where", "step 7 of 26\n"),
            ("quit", "quit"),
        ] },
    Session { name: "moves", program: COUNT, inputs: &[7], choices: TEN,
        lines: &[
            ("goto 9", "step 9 of 10\n"),
            ("back 9", "step 0 of 10\n"),
            ("goto 5", "step 5 of 10\n"),
            ("goto 11", "past end\n"),
            ("where", "step 5 of 10\n"),
            ("forward", "step 6 of 10\n"),
            ("forward 4", "step 10 of 10\n"),
            ("forward 0", "step 10 of 10\n"),
            ("forward", "past end\n"),
            ("back", "step 9 of 10\n"),
            ("back 10", "past end\n"),
            ("back 0009", "step 0 of 10\n"),
            ("back", "past end\n"),
            ("goto 18446744073709551616", "past end\n"),
            ("forward 99999999999999999999999999999999", "past end\n"),
            ("back 18446744073709551617", "past end\n"),
            ("where", "step 0 of 10\n"),
        ] },
    Session { name: "moves_through_a_thousand", program: COUNT, inputs: &[7], choices: "0*1000",
        lines: &[
            ("goto 999", "step 999 of 1000\n"),
            ("back 999", "step 0 of 1000\n"),
            ("goto 256", "step 256 of 1000\n"),
            ("goto 1001", "past end\n"),
            ("where", "step 256 of 1000\n"),
            ("forward 744", "step 1000 of 1000\n"),
            ("break 0x00010004", "break 00010004\n"),
            ("rgo", "break h0 00010004\nstep 999 of 1000\n"),
            ("goto 513", "step 513 of 1000\n"),
            ("rgo", "break h0 00010004\nstep 511 of 1000\n"),
            ("go", "break h0 00010004\nstep 513 of 1000\n"),
        ] },
    Session { name: "back_through_a_thousand", program: "000112B7 00B2A023 0000006F", inputs: &[7], choices: "0*1000",
        lines: &[
            ("watch 0x11000", "watch 00011000\n"),
            ("goto 1000", "step 1000 of 1000\n"),
            ("rgo", "watch 00011000\nstep 2 of 1000\n"),
            ("mem 0x11000 1", "00011000 00000007\n"),
            ("rgo", "start\nstep 0 of 1000\n"),
            ("mem 0x11000 1", "00011000 00000000\n"),
            ("goto 257", "step 257 of 1000\n"),
            ("mem 0x11000 1", "00011000 00000007\n"),
            ("rgo", "watch 00011000\nstep 2 of 1000\n"),
            ("go", "end\nstep 1000 of 1000\n"),
        ] },
    Session { name: "break_where_the_hart_stays", program: "0000006F", inputs: &[7], choices: "0 0",
        lines: &[
            ("break 0x00010000", "break 00010000\n"),
            ("go", "break h0 00010000\nstep 1 of 2\n"),
            ("go", "break h0 00010000\nstep 2 of 2\n"),
            ("rgo", "break h0 00010000\nstep 1 of 2\n"),
            ("rgo", "start\nstep 0 of 2\n"),
        ] },
    Session { name: "break_of_a_hart_that_did_not_step", program: COUNT, inputs: &[7, 9], choices: "0 0 1 1 0",
        lines: &[
            ("break 65536", "break 00010000\n"),
            ("go", "break h0 00010000\nstep 2 of 5\n"),
            ("go", "break h1 00010000\nstep 4 of 5\n"),
            ("go", "end\nstep 5 of 5\n"),
            ("rgo", "break h1 00010000\nstep 4 of 5\n"),
        ] },
    Session { name: "lowest_watch_of_the_word", program: "000112B7 00B28323 0000006F", inputs: &[7], choices: "0 0 0",
        lines: &[
            ("watch 0x11008", "watch 00011008\n"),
            ("watch 0x11005", "watch 00011004\n"),
            ("watch 0x11000", "watch 00011000\n"),
            ("go", "watch 00011004\nstep 2 of 3\n"),
            ("mem 0x11004 1", "00011004 00070000\n"),
            ("rgo", "start\nstep 0 of 3\n"),
            ("mem 0x11004 1", "00011004 00000000\n"),
        ] },
    Session { name: "steps_of_their_own_worlds", program: "00000073", inputs: &[7, 9], choices: "0! 0 1",
        lines: &[
            ("steps 0 3", "0 h0! 00010000 ecall\n1 h0 00010000 stopped\n2 h1 00010000 ecall\n"),
            ("steps 1 1", ""),
            ("steps 2 1", ""),
            ("steps 0 4", "past end\n"),
            ("steps 4 0", "past end\n"),
            ("steps 99 x", "bad command\n"),
            ("goto 3", "step 3 of 3\n"),
            ("steps 0 2", "0 h0! 00010000 ecall\n1 h0 00010000 stopped\n"),
        ] },
    Session { name: "step_that_cannot_be_fetched", program: "FFDFF06F", inputs: &[7], choices: "0 0 0",
        lines: &[
            ("steps 0 3", "0 h0 00010000 jal zero, 0x0000fffc\n1 h0 0000fffc no fetch\n2 h0 0000fffc stopped\n"),
        ] },
    Session { name: "lines", program: COUNT, inputs: &[7], choices: TEN,
        lines: &[
            ("", ""),
            ("   ", ""),
            ("  where  ", "step 0 of 10\n"),
            ("where 1", "bad command\n"),
            ("goto", "bad command\n"),
            ("goto 1 2", "bad command\n"),
            ("goto -1", "bad command\n"),
            ("goto +1", "bad command\n"),
            ("goto 0x1", "bad command\n"),
            ("Where", "bad command\n"),
            ("where\t", "bad command\n"),
            ("where\n", "bad command\n"),
            ("\n", "bad command\n"),
            ("where\r", "bad command\n"),
            ("break 0X10", "bad command\n"),
            ("break 0x", "bad command\n"),
            ("break start", "bad command\n"),
            ("watch start+4", "bad command\n"),
            ("break 0xg", "bad command\n"),
            ("break 4294967296", "bad command\n"),
            ("break 0x100000000", "bad command\n"),
            ("break 0x00000000000aBcDeF", "break 00abcdef\n"),
            ("break 4294967295", "break ffffffff\n"),
            ("regs 1", "bad command\n"),
            ("regs 99999999999999999999", "bad command\n"),
            ("regs 99999999999999999999 a0", "bad command\n"),
            ("mem 0x10000 0", "bad command\n"),
            ("mem 0x10000 65", "bad command\n"),
            ("mem 0x10000 99999999999999999999", "bad command\n"),
            ("mem 0x10001 2", "00010000 00128293\n00010004 ffdff06f\n"),
            ("mem 0xfffffffd 2", "fffffffc --------\n00000000 --------\n"),
            ("steps 1", "bad command\n"),
            ("steps 1 2 3", "bad command\n"),
            ("where", "step 0 of 10\n"),
        ] },
    Session { name: "registers", program: COUNT, inputs: &[7, 9], choices: "0 0 0 1",
        lines: &[
            ("goto 4", "step 4 of 4\n"),
            ("regs 0", "hart 0 running pc 00010004\nzero 00000000\nra 00000000\nsp 00000000\ngp 00000000\ntp 00000000\n\
t0 00000002\nt1 00000000\nt2 00000000\ns0 00000000\ns1 00000000\na0 00000000\na1 00000007\na2 00000002\na3 00000000\n\
a4 00000000\na5 00000000\na6 00000000\na7 00000000\ns2 00000000\ns3 00000000\ns4 00000000\ns5 00000000\ns6 00000000\n\
s7 00000000\ns8 00000000\ns9 00000000\ns10 00000000\ns11 00000000\nt3 00000000\nt4 00000000\nt5 00000000\nt6 00000000\n"),
        ] },
];

#[rattlefmt::skip]
static NAMED_REGISTERS: [Session; 1] = [
    Session { name: "registers_by_their_names", program: COUNT, inputs: &[7, 9], choices: "0 0 0 1",
        lines: &[
            ("goto 4", "step 4 of 4\n"),
            ("regs 0 a1", "a1 00000007\n"),
            ("  regs  0  pc   t0 a1  ", "pc 00010004\nt0 00000002\na1 00000007\n"),
            ("regs 1 x10 fp s0 a0 x0", "a0 00000001\ns0 00000000\ns0 00000000\na0 00000001\nzero 00000000\n"),
            ("regs 01 t6 x31", "t6 00000000\nt6 00000000\n"),
            ("regs 2 a0", "bad command\n"),
            ("regs a0", "bad command\n"),
            ("regs a0 0", "bad command\n"),
            ("regs 0 a8", "bad command\n"),
            ("regs 0 a0 x32", "bad command\n"),
            ("regs 0 x", "bad command\n"),
            ("regs 0 PC", "bad command\n"),
            ("regs 0 pcx", "bad command\n"),
            ("regs 0 a0,a1", "bad command\n"),
            ("regs 0 x99999999999999999999", "bad command\n"),
            ("list 0 a0", "bad command\n"),
            ("regs 0 x9 x9 x9 x9 x9 x9 x9 x9 x9 x9 x9 x9 x9 x9 x9 x9 x9 x9 x9 x9 x9 x9 x9 x9 x9 x9 x9 x9 x9 x9 x9 x9 x9", "s1 00000000\ns1 00000000\ns1 00000000\ns1 00000000\ns1 00000000\ns1 00000000\ns1 00000000\ns1 00000000\ns1 00000000\ns1 00000000\ns1 00000000\ns1 00000000\ns1 00000000\ns1 00000000\ns1 00000000\ns1 00000000\ns1 00000000\ns1 00000000\ns1 00000000\ns1 00000000\ns1 00000000\ns1 00000000\ns1 00000000\ns1 00000000\ns1 00000000\ns1 00000000\ns1 00000000\ns1 00000000\ns1 00000000\ns1 00000000\ns1 00000000\ns1 00000000\ns1 00000000\n"),
            ("regs 0 x9 x9 x9 x9 x9 x9 x9 x9 x9 x9 x9 x9 x9 x9 x9 x9 x9 x9 x9 x9 x9 x9 x9 x9 x9 x9 x9 x9 x9 x9 x9 x9 x9 x9", "bad command\n"),
            ("where", "step 4 of 4\n"),
        ] },
];

#[rattlefmt::skip]
static STEPS: [Session; 3] = [
    Session { name: "steps_of_a_hart", program: COUNT, inputs: &[7, 9, 4], choices: "1 1 0 1! 0 1",
        lines: &[
            ("step 0", "step 3 of 6\n"),
            ("step 0", "step 5 of 6\n"),
            ("step 0", "past end\n"),
            ("where", "step 5 of 6\n"),
            ("step 1", "step 6 of 6\n"),
            ("step 1", "past end\n"),
            ("goto 0", "step 0 of 6\n"),
            ("step 1", "step 1 of 6\n"),
            ("step 01", "step 2 of 6\n"),
            ("break 0x00010004", "break 00010004\n"),
            ("step 1", "step 4 of 6\n"),
            ("step 2", "past end\n"),
            ("step 3", "bad command\n"),
            ("step 4294967296", "bad command\n"),
            ("step 99999999999999999999", "bad command\n"),
            ("step", "bad command\n"),
            ("step h1", "bad command\n"),
            ("step 0 1", "bad command\n"),
            ("where", "step 4 of 6\n"),
        ] },
    Session { name: "points_are_deleted", program: COUNT, inputs: &[7], choices: TEN,
        lines: &[
            ("delete 0x00010004", "delete 00010004\n"),
            ("break 0x00010004", "break 00010004\n"),
            ("break 0x00010006", "break 00010006\n"),
            ("delete 0x00010006", "delete 00010006\n"),
            ("go", "break h0 00010004\nstep 1 of 10\n"),
            ("delete 65540", "delete 00010004\n"),
            ("go", "end\nstep 10 of 10\n"),
            ("break 0x00010000", "break 00010000\n"),
            ("watch 0x00010004", "watch 00010004\n"),
            ("delete 0x00010007", "delete 00010007\n"),
            ("rgo", "break h0 00010000\nstep 8 of 10\n"),
            ("delete", "bad command\n"),
            ("delete x", "bad command\n"),
            ("delete 4294967296", "bad command\n"),
            ("delete 0x00010000 1", "bad command\n"),
        ] },
    Session { name: "help_stands_alone", program: COUNT, inputs: &[7], choices: TEN,
        lines: &[
            ("help 1", "bad command\n"),
            ("Help", "bad command\n"),
        ] },
];

#[rattlefmt::skip]
static LISTS: [Session; 3] = [
    Session { name: "the_next_hart_is_listed", program: SWAP, inputs: &[7, 9], choices: ONE_THEN_ZERO,
        lines: &[
            ("goto 4", "step 4 of 26\n"),
            ("list", "hart 1 running pc 00010010\n   00010000 lui s0, 0x11\n   00010004 slli t0, a0, 2\n   00010008 add t0, t0, s0\n   \
0001000c sw a1, 4(t0)\n=> 00010010 addi t1, zero, 1\n   00010014 amoswap.w t2, t1, (s0)\n   00010018 beq t2, zero, 0x0001002c\n   \
0001001c xori t0, a0, 1\n   00010020 slli t0, t0, 2\n   00010024 add t0, t0, s0\n"),
            ("list 1", "hart 1 running pc 00010010\n   00010000 lui s0, 0x11\n   00010004 slli t0, a0, 2\n   00010008 add t0, t0, s0\n   \
0001000c sw a1, 4(t0)\n=> 00010010 addi t1, zero, 1\n   00010014 amoswap.w t2, t1, (s0)\n   00010018 beq t2, zero, 0x0001002c\n   \
0001001c xori t0, a0, 1\n   00010020 slli t0, t0, 2\n   00010024 add t0, t0, s0\n"),
            ("list 0", "hart 0 running pc 00010000\n=> 00010000 lui s0, 0x11\n   00010004 slli t0, a0, 2\n   00010008 add t0, t0, s0\n   \
0001000c sw a1, 4(t0)\n   00010010 addi t1, zero, 1\n   00010014 amoswap.w t2, t1, (s0)\n"),
            ("where", "step 4 of 26\n"),
            ("goto 26", "step 26 of 26\n"),
            ("list 1", "hart 1 exited a0 00000009 a1 00000001\n   00010024 add t0, t0, s0\n   00010028 lw a1, 4(t0)\n   \
0001002c addi a0, a1, 0\n   00010030 addi a1, zero, 1\n   00010034 addi a7, zero, 93\n=> 00010038 ecall\n   \
0001003c .word 0x00000000\n   00010040 .word 0x00000000\n   00010044 .word 0x00000000\n   00010048 .word 0x00000000\n   0001004c .word 0x00000000\n"),
            ("list", "past end\n"),
        ] },
    Session { name: "lists_of_lines", program: COUNT, inputs: &[7, 9], choices: "0 0 0 1",
        lines: &[
            ("list", "hart 0 running pc 00010000\n=> 00010000 addi t0, t0, 1\n   00010004 jal zero, 0x00010000\n   \
00010008 .word 0x00000000\n   0001000c .word 0x00000000\n   00010010 .word 0x00000000\n   00010014 .word 0x00000000\n"),
            ("goto 3", "step 3 of 4\n"),
            ("list", "hart 1 running pc 00010000\n=> 00010000 addi t0, t0, 1\n   00010004 jal zero, 0x00010000\n   \
00010008 .word 0x00000000\n   0001000c .word 0x00000000\n   00010010 .word 0x00000000\n   00010014 .word 0x00000000\n"),
            ("list 00", "hart 0 running pc 00010004\n   00010000 addi t0, t0, 1\n=> 00010004 jal zero, 0x00010000\n   \
00010008 .word 0x00000000\n   0001000c .word 0x00000000\n   00010010 .word 0x00000000\n   00010014 .word 0x00000000\n   00010018 .word 0x00000000\n"),
            ("list 2", "bad command\n"),
            ("list 99999999999999999999", "bad command\n"),
            ("list h0", "bad command\n"),
            ("list 0 1", "bad command\n"),
            ("List", "bad command\n"),
        ] },
    Session { name: "a_place_without_code_is_told", program: "FFDFF06F", inputs: &[7], choices: "0 0 0",
        lines: &[
            ("goto 1", "step 1 of 3\n"),
            ("list", "hart 0 running pc 0000fffc\n=> 0000fffc no fetch\n   00010000 jal zero, 0x0000fffc\n   \
00010004 .word 0x00000000\n   00010008 .word 0x00000000\n   0001000c .word 0x00000000\n   00010010 .word 0x00000000\n"),
            ("goto 2", "step 2 of 3\n"),
            ("list", "hart 0 faulted FetchAccess pc 0000fffc\n=> 0000fffc no fetch\n   00010000 jal zero, 0x0000fffc\n   \
00010004 .word 0x00000000\n   00010008 .word 0x00000000\n   0001000c .word 0x00000000\n   00010010 .word 0x00000000\n"),
        ] },
];

// A word that is loaded and reserved, a store-conditional to it, and back to the load.
const RESERVE: &str = "00011437 100422AF 1804232F FF9FF06F";

// A load from an address that is not mapped.
const UNMAPPED: &str = "00002283";

#[rattlefmt::skip]
static WATCHES: [Session; 3] = [
    Session { name: "accesses_are_watched", program: SWAP, inputs: &[7, 9], choices: ONE_THEN_ZERO,
        lines: &[
            ("rwatch 0x00011002", "rwatch 00011000\n"),
            ("go", "rwatch 00011000\nstep 6 of 26\n"),
            ("go", "rwatch 00011000\nstep 17 of 26\n"),
            ("go", "end\nstep 26 of 26\n"),
            ("watch 0x00011000", "watch 00011000\n"),
            ("rgo", "rwatch 00011000\nstep 17 of 26\n"),
            ("rgo", "watch 00011000\nstep 6 of 26\n"),
            ("rgo", "start\nstep 0 of 26\n"),
            ("delete 0x00011001", "delete 00011001\n"),
            ("awatch 0x00011008", "awatch 00011008\n"),
            ("go", "awatch 00011008\nstep 4 of 26\n"),
            ("break 0x0001002c", "break 0001002c\n"),
            ("go", "break h1 0001002c\nstep 7 of 26\n"),
            ("go", "break h0 0001002c\nawatch 00011008\nstep 22 of 26\n"),
            ("rgo", "break h1 0001002c\nstep 7 of 26\n"),
            ("rgo", "awatch 00011008\nstep 4 of 26\n"),
            ("rwatch 0x00011008", "rwatch 00011008\n"),
            ("goto 26", "step 26 of 26\n"),
            ("rgo", "break h0 0001002c\nrwatch 00011008\nstep 22 of 26\n"),
            ("delete 0x0001002c", "delete 0001002c\n"),
            ("delete 0x0001100b", "delete 0001100b\n"),
            ("rgo", "start\nstep 0 of 26\n"),
            ("rwatch", "bad command\n"),
            ("awatch x", "bad command\n"),
            ("awatch 0 1", "bad command\n"),
        ] },
    Session { name: "store_conditionals_are_watched_if_they_store", program: RESERVE, inputs: &[7],
        choices: "0 0 0! 0 0 0 0",
        lines: &[
            ("watch 0x00011000", "watch 00011000\n"),
            ("awatch 0x00011000", "awatch 00011000\n"),
            ("go", "awatch 00011000\nstep 2 of 7\n"),
            ("go", "awatch 00011000\nstep 5 of 7\n"),
            ("go", "awatch 00011000\nstep 6 of 7\n"),
            ("go", "end\nstep 7 of 7\n"),
            ("delete 0x00011000", "delete 00011000\n"),
            ("rwatch 0x00011000", "rwatch 00011000\n"),
            ("rgo", "rwatch 00011000\nstep 5 of 7\n"),
            ("rgo", "rwatch 00011000\nstep 2 of 7\n"),
            ("rgo", "start\nstep 0 of 7\n"),
        ] },
    Session { name: "load_that_faults_is_no_access", program: UNMAPPED, inputs: &[7], choices: "0 0",
        lines: &[
            ("awatch 0", "awatch 00000000\n"),
            ("rwatch 0", "rwatch 00000000\n"),
            ("go", "end\nstep 2 of 2\n"),
            ("rgo", "start\nstep 0 of 2\n"),
        ] },
];

// The image of a program in hexadecimal.
fn image_of(alloc: Global, program: &str) -> Option<Image<Global>> {
    let words = read_hex(alloc, program.as_bytes()).ok()?;
    hex_image(alloc, &words).ok()
}

// A debugger of a program's run, at its start.
fn begin(alloc: Global, program: &str, inputs: &[u32], choices: &str) -> Option<Debugger<Global>> {
    let image = image_of(alloc, program)?;
    let inputs = Inputs::new(inputs).ok()?;
    let choices = read_choices(alloc, choices.as_bytes(), inputs.harts()).ok()?;
    Debugger::new(alloc, image, inputs, choices).ok()
}

// What is shown for a line, or `quit`.
fn shown(
    alloc: Global,
    debugger: &mut Debugger<Global>,
    line: &str,
) -> Result<String<Global>, AllocError> {
    match command(alloc, debugger, &[], line) {
        Ok(Answer::Text(text)) => Ok(text),
        Ok(Answer::Quit) => String::from_str(alloc, "quit"),
        Err(DebugFault::Memory) => Err(AllocError),
        Err(fault) => format!(in alloc; "{fault}\n"),
    }
}

// Whether this is shown for a line.
fn is_shown(alloc: Global, debugger: &mut Debugger<Global>, line: &str, wanted: &str) -> bool {
    match shown(alloc, debugger, line) {
        Ok(text) => text.as_str() == wanted,
        Err(_) => false,
    }
}

// The first line of a session for which something else is shown, or the name of a session that
// doesn't begin.
fn wrong_line(alloc: Global, session: &Session) -> Option<&'static str> {
    let Some(mut debugger) = begin(alloc, session.program, session.inputs, session.choices) else {
        return Some(session.name);
    };
    for (line, wanted) in session.lines {
        if !is_shown(alloc, &mut debugger, line, wanted) {
            return Some(*line);
        }
    }
    None
}

// The first session with a wrong line, by its name, and that line.
fn first_wrong(alloc: Global, sessions: &[Session]) -> Option<(&'static str, &'static str)> {
    for session in sessions {
        if let Some(line) = wrong_line(alloc, session) {
            return Some((session.name, line));
        }
    }
    None
}

#[test]
fn sessions_are_answered_line_by_line(rt: HostRuntime) {
    if let Some((name, line)) = first_wrong(rt.alloc(), &SESSIONS) {
        assert!(rt; false, "{name}: {line}");
    }
}

#[test]
fn registers_are_shown_by_their_names(rt: HostRuntime) {
    if let Some((name, line)) = first_wrong(rt.alloc(), &NAMED_REGISTERS) {
        assert!(rt; false, "{name}: {line}");
    }
}

#[test]
fn steps_of_a_hart_are_answered_line_by_line(rt: HostRuntime) {
    if let Some((name, line)) = first_wrong(rt.alloc(), &STEPS) {
        assert!(rt; false, "{name}: {line}");
    }
}

#[test]
fn instructions_around_a_hart_are_listed(rt: HostRuntime) {
    if let Some((name, line)) = first_wrong(rt.alloc(), &LISTS) {
        assert!(rt; false, "{name}: {line}");
    }
}

#[test]
fn watches_are_answered_line_by_line(rt: HostRuntime) {
    if let Some((name, line)) = first_wrong(rt.alloc(), &WATCHES) {
        assert!(rt; false, "{name}: {line}");
    }
}
