//! The interface of a memory.
ghost use Rattle.std.specs.Prelude.{◌≡◌, Bool, IfOk};
ghost use Rattle.mem_store.specs.Memory.{Memory};
ghost use Rattle.mem_store.specs.Access.{loaded, fetched, storable, peeked, Stores};
ghost use Rattle.mem_store.specs.Instruction.{instruction_at};

use isa_table::Instr;

/// The fault of a load.
#[derive(Clone, Copy, PartialEq, Eq)]
pub enum AccessFault {
    /// The address is not a multiple of the access size. Checked before the rights.
    Misaligned,
    /// A byte of the access lacks the required right.
    Access,
}

/// The reason why there is no instruction at an address.
#[derive(Clone, Copy, PartialEq, Eq)]
pub enum FetchFault {
    /// A byte of the word is not executable.
    Access,
    /// The word is no instruction.
    Illegal,
}

/// The reason why a store fails; memory is then unchanged.
#[derive(Clone, Copy, PartialEq, Eq)]
pub enum StoreFault {
    /// The address is not a multiple of the access size. Checked before the rights.
    Misaligned,
    /// A byte of the access is not writable.
    Access,
    /// Out of memory.
    Memory,
}

/// A map from 32-bit addresses to a byte and its rights.
///
/// A load needs any right, a fetch the right to execute, a store the right to write, at each byte
/// of the access. Numbers are little-endian.
pub trait Store: Drop {
    /// The rights and the bytes at each address.
    ghost memory: { Self → Memory };

    /// Whether a store may fail when out of memory.
    ghost grows: { Bool };

    /// Loads the byte at an address.
    fn load8(&self, address: u32) -> Result<u8, AccessFault>
        ensures { result ≡ loaded (memory self.now) 1 address };

    /// Loads two bytes at a multiple of 2.
    fn load16(&self, address: u32) -> Result<u16, AccessFault>
        ensures { result ≡ loaded (memory self.now) 2 address };

    /// Loads four bytes at a multiple of 4.
    fn load32(&self, address: u32) -> Result<u32, AccessFault>
        ensures { result ≡ loaded (memory self.now) 4 address };

    /// The instruction word at an address, or `None` if a byte of it is not executable.
    fn fetch(&self, address: u32) -> Option<u32>
        ensures { result ≡ fetched (memory self.now) address };

    /// The instruction that the word at an address spells. A memory may keep it decoded.
    fn instruction(&self, address: u32) -> Result<Instr, FetchFault>
        ensures { result ≡ instruction_at (memory self.now) address };

    /// The byte at an address, whatever its rights, or `None` if the address is not mapped.
    fn peek(&self, address: u32) -> Option<u8>
        ensures { result ≡ peeked (memory self.now) address };

    /// Whether four bytes may be stored at an address.
    fn may_store32(&self, address: u32) -> Result<(), AccessFault>
        ensures { result ≡ storable (memory self.now) 4 address };

    /// Stores a byte.
    fn store8(&mut self, address: u32, value: u8) -> Result<(), StoreFault>
        ensures { Stores grows 1 address value (memory self.old) (memory self.new) result };

    /// Stores two bytes at a multiple of 2.
    fn store16(&mut self, address: u32, value: u16) -> Result<(), StoreFault>
        ensures { Stores grows 2 address value (memory self.old) (memory self.new) result };

    /// Stores four bytes at a multiple of 4.
    fn store32(&mut self, address: u32, value: u32) -> Result<(), StoreFault>
        ensures { Stores grows 4 address value (memory self.old) (memory self.new) result };
}
