//! Data of each length up to 8,200 bytes. A call with ample memory never returns out of memory.

ghost use Rattle.std.specs.Prelude.{◌≤◌, length};

use conformance_support::appending::encode_halves;
use conformance_support::comparison::{Comparison, Differs, decode_matches};
use conformance_support::oracle::Expected;
use conformance_support::rows::bytes_of_length;
use data_encoding::{DECODE_LIMIT, ENCODE_LIMIT};

/// Compares `text` with the text of `input`: appended at once and in two pieces, and written with a
/// buffer.
fn compare_appended(comparison: &Comparison<'_>, input: &[u8], text: &str) -> Result<(), Differs>
    requires limit { length input.now ≤ ENCODE_LIMIT }
{
    let encoding = comparison.encoding;
    let mut output = String::new(comparison.alloc);
    encoding.encode_append(input, &mut output)?;
    let is_whole = output.as_str() == text;
    encode_halves(encoding, input, input.len() / 2, &mut output)?;
    let is_joined = output.as_str() == text;
    output.clear();
    let written = encoding.encode_write_buffer(input, &mut output, &mut [0; 600]);
    if is_whole && is_joined && written.is_ok() && output.as_str() == text {
        return Ok(());
    }
    Err(Differs {})
}

/// Compares `input` with the data of its text, at once and in two pieces.
fn compare_round_trip_len(comparison: &mut Comparison<'_>, input: &[u8]) -> Result<(), Differs> {
    if input.len() > ENCODE_LIMIT {
        return Err(Differs {});
    }
    let text = comparison.encoding.encode(comparison.alloc, input)?;
    compare_appended(comparison, input, text.as_str())?;
    let mut want = Expected::new(comparison.alloc);
    want.bytes.extend_from_slice(input)?;
    if text.len() > DECODE_LIMIT
        || !decode_matches(
            comparison.alloc,
            comparison.encoding,
            &want,
            text.as_bytes(),
        )
    {
        return Err(Differs {});
    }
    comparison.compare_cut(&want, text.as_bytes(), text.len() / 2, usize::MAX)
}

/// Compares data of each length.
pub(super) fn compare_each_length(comparison: &mut Comparison<'_>) -> Result<(), Differs> {
    let data = bytes_of_length(comparison.alloc, 8200)?;
    for len in 0..=8200 {
        compare_round_trip_len(comparison, data.get(..len).unwrap_or(&[]))?;
    }
    Ok(())
}
