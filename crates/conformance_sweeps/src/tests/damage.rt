//! Texts with other bytes in place of their own.

ghost use Rattle.std.specs.Prelude.{◌≡◌, length};

use super::long_texts::compare_long_cuts;
use conformance_support::comparison::{Comparison, Differs};

/// The calls to compare.
#[derive(Clone, Copy)]
pub(super) enum CallSet {
    /// Each call, on the whole text and on any two pieces of it.
    All,

    /// `decode` and `decode_mut`.
    AtOnce,

    /// A decoder and a stream, on pieces of a few lengths.
    Pieces,
}

/// Compares the results of some calls for a text.
fn compare_text(
    comparison: &mut Comparison<'_>,
    text: &[u8],
    calls: CallSet,
) -> Result<(), Differs> {
    match calls {
        CallSet::All => comparison.compare(text),
        CallSet::AtOnce => comparison.compare_at_once(text),
        CallSet::Pieces => compare_long_cuts(comparison, text),
    }
}

/// Compares a text with each of `bytes` at `position`. The text is then as before.
pub(super) fn compare_damaged(
    comparison: &mut Comparison<'_>,
    text: &mut [u8],
    position: usize,
    bytes: &[u8],
    calls: CallSet,
) -> Result<(), Differs>
    ensures len { length text.new ≡ length text.old }
{
    if position >= text.len() {
        return Err(Differs {});
    }
    let own = text[position];
    for byte in bytes {
        text[position] = *byte;
        compare_text(comparison, text, calls)?;
    }
    text[position] = own;
    Ok(())
}

/// Compares a text with each of `bytes` at each position, and unchanged.
pub(super) fn compare_damaged_anywhere(
    comparison: &mut Comparison<'_>,
    text: &mut [u8],
    bytes: &[u8],
) -> Result<(), Differs>
    ensures len { length text.new ≡ length text.old }
{
    for position in 0..text.len() {
        compare_damaged(comparison, text, position, bytes, CallSet::All)?;
    }
    comparison.compare(text)
}
