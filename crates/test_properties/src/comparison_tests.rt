//! Worked comparisons of a word of memory with a number.
use elf_read::Symbol;
use machine::{Inputs, Machine};
use mem_flat::FlatStore;
use property_judge::holds_in;
use property_text::read_always;
use std::alloc::Global;
use test_images::writable_program;

const ROUND: u32 = 0x0000_006f; // jal zero, 0

// The word at 0x00010004, a property of it, and whether it holds.
struct Row {
    word: u32,
    property: &'static str,
    holds: bool,
}

#[rattlefmt::skip]
const ROWS: [Row; 26] = [
    Row { word: 7, property: "0x10004 == 7", holds: true },
    Row { word: 7, property: "0x10004 != 7", holds: false },
    Row { word: 8, property: "0x10004 == 7", holds: false },
    Row { word: 8, property: "0x10004 != 7", holds: true },
    Row { word: 0xffff_ffff, property: "0x10004 == -1", holds: true },
    Row { word: 0xffff_ffff, property: "0x10004 == 4294967295", holds: true },
    Row { word: 0xffff_ffff, property: "0x10004 < 0", holds: true },
    Row { word: 0xffff_ffff, property: "0x10004 <u 0", holds: false },
    Row { word: 0xffff_ffff, property: "0x10004 > 1", holds: false },
    Row { word: 0xffff_ffff, property: "0x10004 >u 1", holds: true },
    Row { word: 0x8000_0000, property: "0x10004 < 0x7fffffff", holds: true },
    Row { word: 0x8000_0000, property: "0x10004 <u 0x7fffffff", holds: false },
    Row { word: 0x8000_0000, property: "0x10004 >= -2147483648", holds: true },
    Row { word: 0x7fff_ffff, property: "0x10004 >= -2147483648", holds: true },
    Row { word: 0x7fff_ffff, property: "0x10004 >=u -2147483648", holds: false },
    Row { word: 7, property: "0x10004 < 7", holds: false },
    Row { word: 7, property: "0x10004 <= 7", holds: true },
    Row { word: 8, property: "0x10004 <= 7", holds: false },
    Row { word: 7, property: "0x10004 > 7", holds: false },
    Row { word: 7, property: "0x10004 >= 7", holds: true },
    Row { word: 6, property: "0x10004 >= 7", holds: false },
    Row { word: 7, property: "0x10004 <=u 7", holds: true },
    Row { word: 8, property: "0x10004 <=u 7", holds: false },
    Row { word: 7, property: "0x10004 >=u 7", holds: true },
    Row { word: 6, property: "0x10004 >=u 7", holds: false },
    Row { word: 7, property: "0x40000000 == 0", holds: true },
];

// Whether a row's property holds at the start; nothing where the row is wrong.
fn holds_at_start(alloc: Global, row: &Row) -> Option<bool> {
    let image = writable_program(alloc, &[ROUND, row.word]).ok()?;
    let inputs = Inputs::new(&[1]).ok()?;
    let machine: Machine<FlatStore<Global>, Global> = Machine::start(alloc, &image, &inputs).ok()?;
    let none: Vec<Symbol<Global>> = Vec::new(alloc);
    let property = read_always(&none, row.property.as_bytes()).ok()?;
    Some(holds_in(property, &machine))
}

#[test]
fn words_are_compared(rt: HostRuntime) {
    for row in &ROWS {
        let property = row.property;
        assert!(rt;
            holds_at_start(rt.alloc(), row) == Some(row.holds),
            "{property}"
        );
    }
}
