//! The description of the registers.
ghost use Rattle.std.specs.Prelude.{◌≡◌};
ghost use Rattle.gdb_replies.specs.Target.{target_text};

// The document. Without the operating system `none` Debian's GDB takes GNU/Linux, and steps by
// breakpoints of its own.
const TARGET: &'static str = "\
    <?xml version=\"1.0\"?><!DOCTYPE target SYSTEM \"gdb-target.dtd\"><target version=\"1.0\">\
    <architecture>riscv:rv32</architecture><osabi>none</osabi>\
    <feature name=\"org.gnu.gdb.riscv.cpu\">\
    <reg name=\"zero\" bitsize=\"32\" regnum=\"0\"/>\
    <reg name=\"ra\" bitsize=\"32\" regnum=\"1\" type=\"code_ptr\"/>\
    <reg name=\"sp\" bitsize=\"32\" regnum=\"2\" type=\"data_ptr\"/>\
    <reg name=\"gp\" bitsize=\"32\" regnum=\"3\" type=\"data_ptr\"/>\
    <reg name=\"tp\" bitsize=\"32\" regnum=\"4\" type=\"data_ptr\"/>\
    <reg name=\"t0\" bitsize=\"32\" regnum=\"5\"/>\
    <reg name=\"t1\" bitsize=\"32\" regnum=\"6\"/>\
    <reg name=\"t2\" bitsize=\"32\" regnum=\"7\"/>\
    <reg name=\"fp\" bitsize=\"32\" regnum=\"8\" type=\"data_ptr\"/>\
    <reg name=\"s1\" bitsize=\"32\" regnum=\"9\"/>\
    <reg name=\"a0\" bitsize=\"32\" regnum=\"10\"/>\
    <reg name=\"a1\" bitsize=\"32\" regnum=\"11\"/>\
    <reg name=\"a2\" bitsize=\"32\" regnum=\"12\"/>\
    <reg name=\"a3\" bitsize=\"32\" regnum=\"13\"/>\
    <reg name=\"a4\" bitsize=\"32\" regnum=\"14\"/>\
    <reg name=\"a5\" bitsize=\"32\" regnum=\"15\"/>\
    <reg name=\"a6\" bitsize=\"32\" regnum=\"16\"/>\
    <reg name=\"a7\" bitsize=\"32\" regnum=\"17\"/>\
    <reg name=\"s2\" bitsize=\"32\" regnum=\"18\"/>\
    <reg name=\"s3\" bitsize=\"32\" regnum=\"19\"/>\
    <reg name=\"s4\" bitsize=\"32\" regnum=\"20\"/>\
    <reg name=\"s5\" bitsize=\"32\" regnum=\"21\"/>\
    <reg name=\"s6\" bitsize=\"32\" regnum=\"22\"/>\
    <reg name=\"s7\" bitsize=\"32\" regnum=\"23\"/>\
    <reg name=\"s8\" bitsize=\"32\" regnum=\"24\"/>\
    <reg name=\"s9\" bitsize=\"32\" regnum=\"25\"/>\
    <reg name=\"s10\" bitsize=\"32\" regnum=\"26\"/>\
    <reg name=\"s11\" bitsize=\"32\" regnum=\"27\"/>\
    <reg name=\"t3\" bitsize=\"32\" regnum=\"28\"/>\
    <reg name=\"t4\" bitsize=\"32\" regnum=\"29\"/>\
    <reg name=\"t5\" bitsize=\"32\" regnum=\"30\"/>\
    <reg name=\"t6\" bitsize=\"32\" regnum=\"31\"/>\
    <reg name=\"pc\" bitsize=\"32\" regnum=\"32\" type=\"code_ptr\"/>\
    </feature></target>";

/// The document `target.xml`, which describes the registers: RV32's, and `pc`.
pub fn target_document() -> &'static str
    ensures { result.now ≡ target_text }
{
    TARGET
}
