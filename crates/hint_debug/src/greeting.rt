//! The greeting of a session.

/// The commands, as a person sees them first, in whole lines.
pub const GREETING: &str =
    "commands: help, where, goto K, forward [N], back [N], step H, break A, watch A, rwatch A, awatch A, delete A, go, rgo, steps A B, list [H], regs H [R..], mem A N, quit\n\
    K, N and H are decimal; an address A is written with 0x, as 0x00010008; R is a register, as a0\n";
