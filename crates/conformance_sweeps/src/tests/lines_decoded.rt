//! Texts of many lines of one length, compared with the oracle.

use super::damage::{CallSet, compare_damaged};
use conformance_support::comparison::{Comparison, Differs};
use std::alloc::AllocError;

/// Lengths of lines: too short for a block, the shortest, one that 16 does not divide, and the
/// longest of a block with one more group.
const LENGTHS: [usize; 6] = [8, 16, 24, 72, 256, 264];

/// Numbers of lines around the numbers of the first blocks.
const COUNTS: [usize; 10] = [1, 3, 4, 5, 6, 8, 9, 12, 13, 14];

/// The number of lines of a text that is damaged.
const MANY: usize = 15;

/// Appends `count` lines of `len` symbols, each followed by the separator.
fn push_lines(
    comparison: &Comparison<'_>,
    len: usize,
    count: usize,
    text: &mut Vec<u8>,
) -> Result<(), AllocError> {
    let symbols = comparison.oracle.symbols;
    for line in 0..count {
        for index in 0..len {
            let place = line.wrapping_mul(7).wrapping_add(index.wrapping_mul(5));
            text.push(*symbols.get(place % symbols.len().max(1)).unwrap_or(&0))?;
        }
        text.extend_from_slice(comparison.oracle.separator)?;
    }
    Ok(())
}

/// Compares `count` lines, followed by a shorter line, and then by longer lines.
fn compare_followed(comparison: &Comparison<'_>, len: usize, count: usize) -> Result<(), Differs> {
    let mut text = Vec::new(comparison.alloc);
    push_lines(comparison, len, count, &mut text)?;
    comparison.compare_at_once(&text)?;
    push_lines(comparison, 8, 1, &mut text)?;
    comparison.compare_at_once(&text)?;
    push_lines(comparison, len.wrapping_add(8), 6, &mut text)?;
    comparison.compare_at_once(&text)?;
    text.extend_from_slice(comparison.oracle.separator)?;
    push_lines(comparison, len, count, &mut text)?;
    comparison.compare_at_once(&text)
}

/// Compares many lines, damaged at the first byte, in the middle and at the end of each, and at its
/// separator.
fn compare_each_place(comparison: &mut Comparison<'_>, len: usize) -> Result<(), Differs> {
    let mut text = Vec::new(comparison.alloc);
    push_lines(comparison, len, MANY, &mut text)?;
    let ignored = *comparison.oracle.separator.first().unwrap_or(&b'!');
    let bytes = [ignored, b'=', b'!', b'1'];
    let line_len = len.wrapping_add(comparison.oracle.separator.len());
    for line in 0..MANY {
        let start = line.wrapping_mul(line_len);
        for place in [
            0,
            len / 2,
            len.wrapping_sub(1),
            len,
            line_len.wrapping_sub(1),
        ] {
            let position = start.wrapping_add(place);
            compare_damaged(comparison, &mut text, position, &bytes, CallSet::AtOnce)?;
        }
    }
    Ok(())
}

/// Compares lines of each length: some numbers of them, and many that are damaged.
pub(super) fn compare_many_lines(comparison: &mut Comparison<'_>) -> Result<(), Differs> {
    for len in LENGTHS {
        for count in COUNTS {
            compare_followed(comparison, len, count)?;
        }
        compare_each_place(comparison, len)?;
    }
    Ok(())
}
