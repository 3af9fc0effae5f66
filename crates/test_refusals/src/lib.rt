//! Tests of running out of memory: each call that allocates is made with each of its requests
//! refused in turn, once and for good.
#![tactic(auto)]

// Calls of engines and readers.
#[cfg(test)]
mod engine_calls;
#[cfg(test)]
mod file_calls;
// Sessions with GDB.
#[cfg(test)]
mod gdb_calls;
// Calls of machines, and of the debugger.
#[cfg(test)]
mod machine_calls;
#[cfg(test)]
mod moves;
// Calls that make objects and texts.
#[cfg(test)]
mod object_calls;
#[cfg(test)]
mod text_calls;
