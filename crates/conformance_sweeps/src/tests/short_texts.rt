//! Short texts: with each ASCII byte at each position, and with any two lengths of padding.

ghost use Rattle.std.specs.Prelude.{◌≤◌};

use super::damage::compare_damaged_anywhere;
use conformance_support::comparison::{Comparison, Differs};

/// Compares texts of zeros with one other byte: each ASCII byte and two others, at any position.
fn compare_each_ascii_byte(comparison: &mut Comparison<'_>, len: usize) -> Result<(), Differs>
    requires short { len ≤ 17 }
{
    let Some(zero) = comparison.oracle.symbols.first() else {
        return Err(Differs {});
    };
    let mut text = [*zero; 17];
    for position in 0..len {
        for byte in 0..130u8 {
            text[position] = byte;
            comparison.compare(&text[..len])?;
        }
        text[position] = *zero;
    }
    Ok(())
}

/// Compares texts of up to 17 symbols: two of the longest groups, and one more.
pub(super) fn compare_bytes(comparison: &mut Comparison<'_>) -> Result<(), Differs> {
    for len in 0..18 {
        compare_each_ascii_byte(comparison, len)?;
    }
    Ok(())
}

/// The bytes that replace the bytes of a text.
const DAMAGE: [u8; 4] = [128, 255, b'!', b'='];

/// Replaces the last `count` bytes of a group by padding.
pub(super) fn pad(group: &mut [u8], count: usize) {
    let symbols = group.len().saturating_sub(count);
    for index in symbols..group.len() {
        group[index] = b'=';
    }
}

/// Compares two groups with any two lengths of padding.
fn compare_padded_pairs(comparison: &mut Comparison<'_>, symbol: u8) -> Result<(), Differs> {
    let len = comparison.oracle.group_len();
    if len > 8 {
        return Err(Differs {});
    }
    for first in 0..=len {
        for second in 0..=len {
            let mut text = [symbol; 16];
            pad(&mut text[..len], first);
            pad(&mut text[len..2 * len], second);
            compare_damaged_anywhere(comparison, &mut text[..2 * len], &DAMAGE)?;
        }
    }
    Ok(())
}

/// Compares texts of one symbol, of up to two groups and one byte.
fn compare_each_text_length(comparison: &mut Comparison<'_>, symbol: u8) -> Result<(), Differs> {
    let mut text = [symbol; 17];
    for len in 0..=text.len() {
        compare_damaged_anywhere(comparison, &mut text[..len], &DAMAGE)?;
    }
    Ok(())
}

/// Returns the symbols of the values 0 and 1, and the symbol with all bits set.
pub(super) fn extreme_symbols(symbols: &[u8]) -> [u8; 3] {
    match symbols {
        [zero, one, .., last] => [*zero, *one, *last],
        [zero, one] => [*zero, *one, *one],
        _ => [0; 3],
    }
}

/// Compares texts of symbols with no bits, one bit and all bits, with and without padding.
pub(super) fn compare_symbols(comparison: &mut Comparison<'_>) -> Result<(), Differs> {
    for symbol in extreme_symbols(comparison.oracle.symbols) {
        compare_each_text_length(comparison, symbol)?;
        if comparison.oracle.padding.is_some() {
            compare_padded_pairs(comparison, symbol)?;
        }
    }
    Ok(())
}
