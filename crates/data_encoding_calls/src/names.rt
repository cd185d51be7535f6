//! The names of the predefined encodings, in upper case, as the program `basecode` lists them.

ghost use Rattle.data_encoding_calls.specs.Names.{FindsNumber, WritesName};

use crate::status::{OK, SHORT_BUFFER, UNKNOWN_ENCODING};
use data_encoding::{predefined_name, predefined_number};

/// Writes the name of a predefined encoding to the start of `output`, and its length, at most 22,
/// to `written`.
///
/// If the status is not 0, `output` and `written` are unchanged.
pub fn numbered_name(number: u32, output: &mut [u8], written: &mut usize) -> u32
    ensures { WritesName number output.old output.new written.old written.new result }
{
    let Some(name) = predefined_name(number) else {
        return UNKNOWN_ENCODING;
    };
    let name = name.as_bytes();
    if output.len() < name.len() {
        return SHORT_BUFFER;
    }
    output[..name.len()].copy_from_slice(name);
    *written = name.len();
    OK
}

/// Writes the number of the predefined encoding with the given name to `number`.
///
/// If there is none, `number` is unchanged.
pub fn named_number(name: &[u8], number: &mut u32) -> u32
    ensures { FindsNumber name.now number.old number.new result }
{
    let Ok(name) = str::from_utf8(name) else {
        return UNKNOWN_ENCODING;
    };
    let Some(found) = predefined_number(name) else {
        return UNKNOWN_ENCODING;
    };
    *number = found;
    OK
}
