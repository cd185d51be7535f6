//! Texts of a few hundred bytes in pieces of a few lengths.

use super::damage::{CallSet, compare_damaged};
use conformance_support::comparison::{Comparison, Differs};
use conformance_support::rows::bytes_of_length;

/// Compares a text in pieces of a few lengths.
pub(super) fn compare_long_cuts(
    comparison: &mut Comparison<'_>,
    text: &[u8],
) -> Result<(), Differs> {
    let whole = comparison.oracle.decode(comparison.alloc, text)?;
    let want = comparison.oracle.in_pieces(comparison.alloc, text, whole)?;
    for (position, size) in [
        (0, 1),
        (0, usize::MAX),
        (9, 7),
        (700, usize::MAX),
        (1025, 1024),
    ] {
        let position = position.min(text.len());
        comparison.compare_cut(&want, text, position, size)?;
        comparison.compare_drained(&want, text, position, size)?;
    }
    comparison.compare_stream(&want, text, 1)?;
    comparison.compare_stream(&want, text, usize::MAX)
}

/// Compares a text unchanged, and with another byte at some positions.
fn compare_damaged_places(comparison: &mut Comparison<'_>, text: &mut [u8]) -> Result<(), Differs> {
    if text.len() < 1030 {
        return Err(Differs {});
    }
    for position in [0, 6, 700, 1024, text.len() - 4] {
        compare_damaged(comparison, text, position, b"!=-", CallSet::Pieces)?;
    }
    compare_long_cuts(comparison, text)
}

/// Compares the text of 800 bytes, unchanged and damaged.
pub(super) fn compare_long(comparison: &mut Comparison<'_>) -> Result<(), Differs> {
    let data = bytes_of_length(comparison.alloc, 800)?;
    let mut text = comparison.oracle.encode(comparison.alloc, &data)?;
    compare_damaged_places(comparison, &mut text)
}
