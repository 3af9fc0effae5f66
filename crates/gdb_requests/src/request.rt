//! What GDB asks for.

use std::alloc::Allocator;

/// The threads that a packet speaks of. Hart h is thread h + 1.
#[derive(Clone, Copy, Debug, PartialEq, Eq)]
pub enum Threads {
    /// `-1`: all threads.
    All,
    /// `0`: any thread.
    Any,
    /// A thread by its number, from 1; it need not exist.
    One(u32),
}

/// What threads do until the next stop.
#[derive(Clone, Copy, Debug, PartialEq, Eq)]
pub enum Action {
    /// `c`, or `C` with a signal, which is passed over: go on.
    Continue,
    /// `s`, or `S` with a signal, which is passed over: take a step.
    Step,
    /// `r`: take steps while `pc` is in a range of addresses.
    Range {
        /// The first address of the range.
        from: u32,
        /// The address behind its last.
        to: u32,
    },
}

/// An action, and the threads that take it.
#[derive(Clone, Copy, Debug, PartialEq, Eq)]
pub struct ThreadAction {
    /// What they do.
    pub action: Action,
    /// The threads; `None` for all that no earlier action is for.
    pub threads: Option<Threads>,
}

/// What a point stops at.
#[derive(Clone, Copy, Debug, PartialEq, Eq)]
pub enum PointKind {
    /// `0`: an instruction, by a software breakpoint.
    Software,
    /// `1`: an instruction, by a hardware breakpoint.
    Hardware,
    /// `2`: a change of a byte.
    Write,
    /// `3`: a read of a byte.
    Read,
    /// `4`: an access to a byte.
    Access,
}

/// A breakpoint or a watchpoint.
#[derive(Clone, Copy, Debug, PartialEq, Eq)]
pub struct Point {
    /// What it stops at.
    pub kind: PointKind,
    /// Its first address.
    pub address: u32,
    /// Number of bytes; of a breakpoint, the length of the instruction.
    pub length: u32,
}

/// A request without a list.
#[derive(Clone, Copy, Debug, PartialEq, Eq)]
pub enum Plain {
    /// `qSupported`: what can both sides do?
    Supported {
        /// Whether GDB knows `swbreak` as a reason to stop.
        software_stops: bool,
    },
    /// `QStartNoAckMode`: no packet is acknowledged any more.
    NoAcks,
    /// `?`: why did the last move stop?
    Reason,
    /// `qXfer:features:read:target.xml:A,N`: N bytes from A on of the registers' description.
    Target {
        /// The first byte, from 0.
        from: u32,
        /// Number of bytes.
        length: u32,
    },
    /// `qXfer:threads:read::A,N`: N bytes from A on of the list of threads.
    ThreadList {
        /// The first byte, from 0.
        from: u32,
        /// Number of bytes.
        length: u32,
    },
    /// `qfThreadInfo`: which threads are there?
    FirstThreads,
    /// `qsThreadInfo`: which more?
    MoreThreads,
    /// `qThreadExtraInfo,T`: what is to be said of thread T?
    ThreadState(u32),
    /// `qC`: which thread is at hand?
    CurrentThread,
    /// `qAttached`: was the program running before GDB came?
    Attached,
    /// `qSymbol::`: GDB can look symbols up.
    Symbols,
    /// `HgT`: the thread to read.
    ReadThread(Threads),
    /// `HcT`: the threads to move.
    MoveThreads(Threads),
    /// `TT`: is thread T there?
    IsThere(u32),
    /// `g`: all registers.
    Registers,
    /// `pN`: register N.
    Register(u32),
    /// `mA,N`: N bytes of memory from A on.
    Memory {
        /// The first address.
        address: u32,
        /// Number of bytes.
        length: u32,
    },
    /// `Z`: a point is put in.
    Insert(Point),
    /// `z`: a point is taken out.
    Remove(Point),
    /// `vCont?`: which actions are known?
    Actions,
    /// `c`: go on.
    Continue,
    /// `s`: take a step.
    Step,
    /// `bc`: go back.
    BackContinue,
    /// `bs`: take a step back.
    BackStep,
    /// `G`, `P`, `M` or `X`, whatever follows: write registers or memory.
    Write,
    /// `D`: GDB leaves.
    Detach,
    /// `k`: the session ends.
    Kill,
}

/// What GDB asks for.
#[derive(Drop)]
pub enum Request<A: Allocator> {
    /// A request without a list.
    Plain(Plain),
    /// `vCont;`: the threads take these actions. Of a thread the first that it is named in counts.
    Resume(Vec<ThreadAction, A>),
    /// `qRcmd,`: these bytes are a command to the server, GDB's `monitor`.
    Monitor(Vec<u8, A>),
}
