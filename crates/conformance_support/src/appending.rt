//! Texts that are appended to other texts, and data that comes in pieces.

ghost use Rattle.std.specs.Prelude.{◌≤◌, length};

use crate::comparison::{Comparison, Differs};
use crate::rows::{bytes_of_length, text_of_field};
use data_encoding::{ENCODE_LIMIT, Encoding};
use std::alloc::{AllocError, Global};
use std::test::Fail;

/// Ends an encoder. A function would take the output that the encoder borrows.
macro_rules! finalize_or_abandon {
    ($encoder:ident) => {
        match $encoder.finalize() {
            Ok(()) => Ok(()),
            Err(encoder) => {
                encoder.abandon();
                Err(AllocError)
            }
        }
    };
}

/// Returns the text after `Result: `.
fn text_after_prefix(alloc: Global, output: &String) -> Result<String, Fail> {
    let rest = output.as_str().strip_prefix("Result: ");
    Ok(String::from_str(alloc, rest.unwrap_or("another result"))?)
}

/// Returns the text that `encode_append` appends for `data`.
pub fn append_data(alloc: Global, encoding: &Encoding, data: &str) -> Result<String, Fail> {
    let mut output = String::from_str(alloc, "Result: ")?;
    if data.len() <= ENCODE_LIMIT {
        encoding.encode_append(data.as_bytes(), &mut output)?;
    }
    text_after_prefix(alloc, &output)
}

/// Appends the text of `pieces`, which slashes separate. If memory runs out, appends the text of
/// the pieces before.
fn append_pieces(
    encoding: &Encoding,
    pieces: &str,
    output: &mut String,
    is_finalized: bool,
) -> Result<(), AllocError> {
    let mut encoder = encoding.new_encoder(output);
    let mut appended = Ok(());
    for piece in pieces.split('/') {
        if appended.is_ok() && piece.len() <= ENCODE_LIMIT {
            appended = encoder.append(piece.as_bytes());
        }
    }
    let ended = if is_finalized {
        finalize_or_abandon!(encoder)
    } else {
        encoder.abandon();
        Ok(())
    };
    appended?;
    ended
}

/// Returns the text that an encoder appends for `pieces`, if it appends the same to an empty text
/// and to another.
pub fn append_pieces_twice(
    alloc: Global,
    encoding: &Encoding,
    pieces: &str,
    is_finalized: bool,
) -> Result<String, Fail> {
    let pieces = text_of_field(alloc, pieces)?;
    let mut output = String::new(alloc);
    append_pieces(encoding, pieces.as_str(), &mut output, is_finalized)?;
    let mut other = String::from_str(alloc, "Result: ")?;
    append_pieces(encoding, pieces.as_str(), &mut other, is_finalized)?;
    if text_after_prefix(alloc, &other)? == output {
        return Ok(output);
    }
    Ok(String::from_str(alloc, "another text after a text")?)
}

/// Writes the text of `input`, cut at `position`, to `output`.
pub fn encode_halves(
    encoding: &Encoding,
    input: &[u8],
    position: usize,
    output: &mut String,
) -> Result<(), AllocError>
    requires limit { length input.now ≤ ENCODE_LIMIT }
    requires inside { position ≤ length input.now }
{
    output.clear();
    let mut encoder = encoding.new_encoder(output);
    let (first, second) = input.split_at(position);
    let one = encoder.append(first);
    let other = encoder.append(second);
    let ended = finalize_or_abandon!(encoder);
    one?;
    other?;
    ended
}

/// Writes the text of `data`, appended byte by byte, to `output`.
fn encode_bytes(encoding: &Encoding, data: &[u8], output: &mut String) -> Result<(), AllocError> {
    output.clear();
    let mut encoder = encoding.new_encoder(output);
    let mut appended = Ok(());
    for byte in data {
        if appended.is_ok() {
            appended = encoder.append(&[*byte]);
        }
    }
    let ended = finalize_or_abandon!(encoder);
    appended?;
    ended
}

/// Compares the texts of data in two pieces, cut anywhere, and byte by byte.
fn compare_data_cuts(comparison: &Comparison<'_>, input: &[u8]) -> Result<(), Differs> {
    if input.len() > ENCODE_LIMIT {
        return Err(Differs {});
    }
    let want = comparison.encoding.encode(comparison.alloc, input)?;
    let mut output = String::new(comparison.alloc);
    encode_bytes(comparison.encoding, input, &mut output)?;
    let mut is_same = output == want;
    for position in 0..=input.len() {
        encode_halves(comparison.encoding, input, position, &mut output)?;
        is_same = is_same && output == want;
    }
    if is_same {
        return Ok(());
    }
    Err(Differs {})
}

/// Compares the texts of data of each length up to 200 bytes, however it is cut.
pub fn compare_data_pieces(comparison: &Comparison<'_>) -> Result<(), Differs> {
    let data = bytes_of_length(comparison.alloc, 200)?;
    for len in 0..=200 {
        compare_data_cuts(comparison, data.get(..len).unwrap_or(&[]))?;
    }
    Ok(())
}
