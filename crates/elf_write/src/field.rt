//! Numbers as bytes of a file.
ghost use Rattle.std.specs.Prelude.{◌≡◌, ◌++◌, ◌<◌, ◌^◌, OnOk};
ghost use Rattle.elf_write.specs.Field.{field_bytes, bytes_of_all, zero_bytes};

use byteorder::{ByteOrder, LittleEndian};
use std::alloc::{AllocError, Allocator};

/// A number of a header, with its width. Numbers are little-endian.
#[derive(Clone, Copy, PartialEq, Eq)]
pub enum Field {
    Byte(u8),
    Half(u16),
    Word(u32),
}

/// Appends numbers in order. Fails when out of memory.
pub fn write_fields<A: Allocator>(out: &mut Vec<u8, A>, fields: &[Field]) -> Result<(), AllocError>
    ensures { OnOk result (out.new.items ≡ out.old.items ++ bytes_of_all fields.now) }
{
    'fields: for field in fields {
        write_field(out, *field)?;
    }
    Ok(())
}

// Appends one number.
fn write_field<A: Allocator>(out: &mut Vec<u8, A>, field: Field) -> Result<(), AllocError>
    ensures { OnOk result (out.new.items ≡ out.old.items ++ field_bytes field) }
{
    match field {
        Field::Byte(number) => {
            out.push(number)?;
            Ok(())
        }
        Field::Half(number) => {
            let mut bytes = [0u8; 2];
            LittleEndian::write_u16(&mut bytes, number);
            out.extend_from_slice(&bytes)
        }
        Field::Word(number) => {
            let mut bytes = [0u8; 4];
            LittleEndian::write_u32(&mut bytes, number);
            out.extend_from_slice(&bytes)
        }
    }
}

/// Appends `count` zero bytes. Fails when out of memory.
#[tactic(auto, unfolding(crate::specs::Field::zero_bytes))]
pub fn write_zeros<A: Allocator>(out: &mut Vec<u8, A>, count: usize) -> Result<(), AllocError>
    requires { count < 2 ^ 32 }
    ensures { OnOk result (out.new.items ≡ out.old.items ++ zero_bytes count) }
{
    let len = out.len();
    out.resize(len + count, 0)
}
