//! The span of a segment, which the checks of places read.

/// The place of a segment, its size, and the number of its bytes in the file.
#[derive(Clone, Copy, PartialEq, Eq)]
pub struct Span {
    /// The first address (p_vaddr).
    pub base: u32,
    /// The size in bytes (p_memsz).
    pub size: u32,
    /// The number of bytes in the file (p_filesz).
    pub file_size: usize,
}
