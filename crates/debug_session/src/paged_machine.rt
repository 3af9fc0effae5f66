//! The machine that a debugger runs.

use machine::Machine;
use mem_paged::PageStore;

/// A machine over pages: a copy shares each page that neither it nor its original has written
/// since.
pub type PagedMachine<A> = Machine<PageStore<A>, A>;
