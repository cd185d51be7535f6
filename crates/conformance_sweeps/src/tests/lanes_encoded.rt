//! Data of each length up to 200 bytes, and of 200 lengths with longer texts, compared with the
//! oracle, and decoded again.
//!
//! The encodings have every width and both orders, padding or none, and lines or none.

use super::round_trips::compare_round_trip;
use conformance_support::comparison::{Comparison, Differs};
use conformance_support::oracle::Expected;

/// The least number of characters of the longer texts, without padding and separators.
const LONG: usize = 704;

/// Compares each prefix of `data` with at least `least` bytes.
fn compare_prefixes(comparison: &Comparison<'_>, data: &[u8], least: usize) -> Result<(), Differs> {
    for len in least..data.len() + 1 {
        let mut want = Expected::new(comparison.alloc);
        want.bytes.extend_from_slice(&data[..len])?;
        compare_round_trip(comparison, &want)?;
    }
    Ok(())
}

/// Compares data of each length up to 200, and of lengths with long texts.
fn compare_short_and_long(comparison: &Comparison<'_>, data: &[u8; 728]) -> Result<(), Differs> {
    let width = comparison.oracle.symbols.len().trailing_zeros() as usize;
    let long = LONG.wrapping_mul(width) / 8;
    let end = long.wrapping_add(200);
    compare_prefixes(comparison, &data[..200], 0)?;
    compare_prefixes(comparison, data.get(..end).unwrap_or(&[]), long)
}

/// Compares data with different consecutive bytes.
pub(super) fn compare_counted(comparison: &Comparison<'_>) -> Result<(), Differs> {
    let mut data = [0; 728];
    for index in 0..728 {
        data[index] = (index % 256) as u8;
    }
    compare_short_and_long(comparison, &data)
}

/// Compares data of zeros, and of ones, without padding.
pub(super) fn compare_equal_bytes(comparison: &Comparison<'_>) -> Result<(), Differs> {
    if comparison.oracle.padding.is_some() {
        return Ok(());
    }
    compare_short_and_long(comparison, &[0; 728])?;
    compare_short_and_long(comparison, &[255; 728])
}
