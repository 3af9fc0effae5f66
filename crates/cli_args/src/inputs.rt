//! Lists of inputs.

ghost use Rattle.std.specs.Prelude.{◌≡◌, ◌≤◌, Some, IfOk, IfErr, length};
ghost use Rattle.std.specs.List.{position_or_len};
ghost use Rattle.cli_args.specs.Inputs.{input_of, inputs_of, ends_part, RefusesInputs};

use crate::line::LineFault;
use crate::numbers::number_in;
use std::alloc::Allocator;

/// The number of one or more decimal digits, if it is below 2^32.
pub fn read_input(digits: &[u8]) -> Option<u32>
    ensures { result ≡ input_of digits.now }
{
    let number = number_in(digits)?;
    u32::try_from(number).ok()
}

/// Number of bytes before the first comma.
pub fn part_len(rest: &[u8]) -> usize
    ensures count { result ≡ position_or_len ends_part rest.now }
    ensures within { result ≤ length rest.now }
{
    rest.iter().take_while(|byte| **byte != b',').count()
}

/// A number below 2^32 of one or more decimal digits. Leading zeros are allowed, a sign isn't.
pub fn read_word(text: &str) -> Option<u32>
    ensures { result ≡ input_of text.now }
{
    read_input(text.as_bytes())
}

/// One or more decimal inputs below 2^32 with commas between them, as `7,9`. Leading zeros are
/// allowed, a sign isn't.
pub fn read_inputs<A: Allocator + Copy>(alloc: A, text: &str) -> Result<Vec<u32, A>, LineFault>
    ensures ok { IfOk result (λ inputs. inputs_of text.now ≡ Some inputs.items) }
    ensures err { IfErr result (RefusesInputs text.now) }
{
    let mut inputs = Vec::new(alloc);
    let mut rest = text.as_bytes();
    'parts: loop {
        let end = part_len(rest);
        let (part, _) = rest.split_at(end);
        let Some(input) = read_input(part) else {
            return Err(LineFault::BadInputs);
        };
        let Ok(()) = inputs.push(input) else {
            return Err(LineFault::Memory);
        };
        if end == rest.len() {
            return Ok(inputs);
        }
        let (_, others) = rest.split_at(end + 1);
        rest = others;
    }
}
