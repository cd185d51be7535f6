//! Data of one line and of three, and of a few bytes more. The texts are compared with the oracle,
//! and decoded again.

use super::round_trips::compare_round_trip;
use conformance_support::comparison::{Comparison, Differs};
use conformance_support::oracle::Expected;
use conformance_support::rows::bytes_of_length;

/// Compares data of one line and of three, and a few bytes more.
// Lines of eight groups or more are encoded with SIMD if up to eight more bytes follow them.
pub(super) fn compare_lines(comparison: &Comparison<'_>) -> Result<(), Differs> {
    let line = comparison.encoding.encode_align();
    let data = bytes_of_length(comparison.alloc, line.wrapping_mul(3).wrapping_add(8))?;
    for lines in [1usize, 3] {
        for more in [0, 3, 4, 7, 8] {
            let len = line.wrapping_mul(lines).wrapping_add(more);
            let mut want = Expected::new(comparison.alloc);
            want.bytes
                .extend_from_slice(data.get(..len).unwrap_or(&[]))?;
            compare_round_trip(comparison, &want)?;
        }
    }
    Ok(())
}
