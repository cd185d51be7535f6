//! Data that is encoded and decoded: all data of one byte and of two, and data in lines.

ghost use Rattle.std.specs.Prelude.{◌≤◌, length};

use conformance_support::comparison::{Comparison, Differs, decode_matches, decode_mut_matches};
use conformance_support::oracle::Expected;
use data_encoding::{DECODE_LIMIT, ENCODE_LIMIT};

/// Compares `input`, of at most two bytes, with the data of its text.
fn compare_short_data(
    comparison: &mut Comparison<'_>,
    want: &mut Expected,
    input: &[u8],
) -> Result<(), Differs>
    requires short { length input.now ≤ 2 }
{
    let mut text = [0; 16];
    let len = comparison.encoding.encode_len(input.len());
    if len > 16 {
        return Err(Differs {});
    }
    comparison.encoding.encode_mut(input, &mut text[..len]);
    want.bytes.clear();
    want.bytes.extend_from_slice(input)?;
    if comparison.encoding.decode_len(len) != Ok(input.len())
        || !decode_mut_matches(comparison.encoding, want, &text[..len])
    {
        return Err(Differs {});
    }
    comparison.compare_pieces(want, &text[..len])
}

/// Compares all data of one byte and of two.
pub(super) fn compare_short(comparison: &mut Comparison<'_>) -> Result<(), Differs> {
    let mut want = Expected::new(comparison.alloc);
    for first in 0..=255u8 {
        compare_short_data(comparison, &mut want, &[first])?;
        for second in 0..=255u8 {
            compare_short_data(comparison, &mut want, &[first, second])?;
        }
    }
    Ok(())
}

/// Returns the text of the data `want`, if it is the text of the oracle and is decoded to the data.
pub(super) fn compare_round_trip(
    comparison: &Comparison<'_>,
    want: &Expected,
) -> Result<String, Differs> {
    let (alloc, encoding) = (comparison.alloc, comparison.encoding);
    if want.bytes.len() > ENCODE_LIMIT {
        return Err(Differs {});
    }
    let text = encoding.encode(alloc, &want.bytes)?;
    if text.len() > DECODE_LIMIT
        || encoding.encode_len(want.bytes.len()) != text.len()
        || comparison.oracle.encode(alloc, &want.bytes)?.as_slice() != text.as_bytes()
        || !decode_matches(alloc, encoding, want, text.as_bytes())
    {
        return Err(Differs {});
    }
    Ok(text)
}

/// Compares data of each length up to three lines and a byte.
pub(super) fn compare_in_lines(comparison: &mut Comparison<'_>) -> Result<(), Differs> {
    let most = comparison.encoding.encode_align().wrapping_mul(3);
    let mut want = Expected::new(comparison.alloc);
    for index in 0..=most.wrapping_add(1) {
        let text = compare_round_trip(comparison, &want)?;
        comparison.compare_pieces(&want, text.as_bytes())?;
        want.bytes
            .extend_from_slice(&[(index.wrapping_mul(37) % 256) as u8])?;
    }
    Ok(())
}
