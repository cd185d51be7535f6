//! Encodings of the caller as bytes to be stored: their layouts, which are checked when they are
//! read.

ghost use Rattle.data_encoding.specs.Layout.{layout};
ghost use Rattle.data_encoding.specs.Plain.{base_of_plain};
ghost use Rattle.data_encoding_calls.specs.Calls.{WritesFront};
ghost use Rattle.data_encoding_calls.specs.Custom.{MakesOfLayout};

use crate::make::{Made, accepted, refused};
use crate::status::{NO_ENCODING, OK, SHORT_BUFFER};
use data_encoding::laws::one_layout;
use data_encoding::{Encoding, PlainEncoding};

/// Writes the layout of the encoding to the start of `output`, and its length, at most 770, to
/// `written`.
///
/// If `output` is too short, `output` and `written` are unchanged.
pub fn custom_layout(held: &PlainEncoding, output: &mut [u8], written: &mut usize) -> u32
    ensures { WritesFront (layout (base_of_plain held.now)) output.old output.new written.old
        written.new result }
{
    let bytes = held.by_ref().internal_implementation();
    let bytes = bytes.as_slice();
    if output.len() < bytes.len() {
        return SHORT_BUFFER;
    }
    output[..bytes.len()].copy_from_slice(bytes);
    *written = bytes.len();
    OK
}

/// Returns the encoding with the layout `bytes`, or a status if there is none.
pub fn custom_read(bytes: &[u8]) -> Made
    ensures { MakesOfLayout bytes.now result }
{
    one_layout();
    match Encoding::internal_new(bytes) {
        Some(encoding) => accepted(&encoding),
        None => refused(NO_ENCODING, 0),
    }
}
