//! The names of the predefined encodings, in upper case.

ghost use Rattle.data_encoding_calls.specs.Names.{FindsNumber, WritesName};

use data_encoding_calls::{named_number, numbered_name};

/// Writes the name of a predefined encoding to the start of `output`, and its length, at most 22,
/// to `written`.
///
/// If the status is not 0, `output` and `written` are unchanged.
#[unsafe(no_mangle)]
pub extern "C" fn de_numbered_name(number: u32, output: &mut [u8], written: &mut usize) -> u32
    ensures { WritesName number output.old output.new written.old written.new result }
{
    numbered_name(number, output, written)
}

/// Writes the number of the predefined encoding with the given name to `number`.
///
/// If there is none, `number` is unchanged.
#[unsafe(no_mangle)]
pub extern "C" fn de_named_number(name: &[u8], number: &mut u32) -> u32
    ensures { FindsNumber name.now number.old number.new result }
{
    named_number(name, number)
}
