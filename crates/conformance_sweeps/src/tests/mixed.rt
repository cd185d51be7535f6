//! Texts of a few hundred bytes with ignored bytes within groups, close to each other and far
//! apart.

ghost use Rattle.std.specs.Prelude.{◌<◌};

use super::damage::{CallSet, compare_damaged};
use super::long_texts::compare_long_cuts;
use conformance_support::comparison::{Comparison, Differs};
use conformance_support::rows::bytes_of_length;
use std::alloc::AllocError;

/// Appends `bytes`, with `count` ignored bytes after each `every` of them.
fn push_broken(
    text: &mut Vec<u8>,
    bytes: &[u8],
    every: usize,
    count: usize,
) -> Result<(), AllocError>
    requires some { 0 < every }
{
    for part in bytes.chunks(every) {
        text.extend_from_slice(part)?;
        for _ in 0..count {
            text.push(b'-')?;
        }
    }
    Ok(())
}

/// Appends `bytes`, with none to two ignored bytes after each of them.
fn push_scattered(text: &mut Vec<u8>, bytes: &[u8], seed: u32) -> Result<(), AllocError> {
    let mut state = seed;
    for byte in bytes {
        text.push(*byte)?;
        state = state.wrapping_mul(1_664_525).wrapping_add(1_013_904_223);
        for _ in 0..((state >> 16) % 7).saturating_sub(4) {
            text.push(b'-')?;
        }
    }
    Ok(())
}

/// Returns the text of data of `8 * eighths` symbols plus `more` bytes.
fn text_of_length(
    comparison: &Comparison<'_>,
    eighths: usize,
    more: usize,
) -> Result<Vec<u8>, AllocError> {
    let len = eighths.wrapping_mul(comparison.encoding.bit_width());
    let data = bytes_of_length(comparison.alloc, len.wrapping_add(more))?;
    comparison.oracle.encode(comparison.alloc, &data)
}

/// Compares the results for a text at once, and in a few pieces.
fn compare_at_once_and_cut(comparison: &mut Comparison<'_>, text: &[u8]) -> Result<(), Differs> {
    comparison.compare_at_once(text)?;
    compare_long_cuts(comparison, text)
}

/// The numbers of bytes before an ignored byte: within each kind of group, and up to a run that is
/// decoded separately.
const EVERY: [usize; 19] = [
    1, 2, 3, 4, 5, 6, 7, 8, 9, 15, 16, 30, 31, 32, 33, 34, 63, 65, 70,
];

/// Compares the text with ignored bytes after each few bytes, and scattered.
fn compare_broken(comparison: &mut Comparison<'_>, bytes: &[u8]) -> Result<(), Differs> {
    for every in EVERY {
        for count in 2..4 {
            let mut text = Vec::new(comparison.alloc);
            push_broken(&mut text, bytes, every, count)?;
            comparison.compare_at_once(&text)?;
        }
        let mut text = Vec::new(comparison.alloc);
        push_broken(&mut text, bytes, every, 1)?;
        compare_at_once_and_cut(comparison, &text)?;
    }
    for seed in 0..10 {
        let mut text = Vec::new(comparison.alloc);
        push_scattered(&mut text, bytes, seed)?;
        compare_at_once_and_cut(comparison, &text)?;
    }
    Ok(())
}

/// Compares joined short texts, each with ignored bytes among its own, and some after a longer
/// text.
fn compare_joined(comparison: &mut Comparison<'_>, most: usize) -> Result<(), Differs>
    requires some { 0 < most }
{
    for every in [1, 2, 3, 5, 9] {
        let mut text = Vec::new(comparison.alloc);
        for index in 0..40 {
            let bytes = text_of_length(comparison, 0, index % most + 1)?;
            push_broken(&mut text, &bytes, every, 1)?;
            if index % 16 == 15 {
                push_broken(&mut text, &text_of_length(comparison, 20, 0)?, every, 1)?;
            }
        }
        compare_at_once_and_cut(comparison, &text)?;
    }
    Ok(())
}

/// Compares texts with ignored bytes at many places: of whole groups, with an unfinished group, and
/// joined.
pub(super) fn compare_mixed(comparison: &mut Comparison<'_>) -> Result<(), Differs> {
    for (eighths, more) in [(4, 0), (12, 1), (85, 0), (85, 2)] {
        let bytes = text_of_length(comparison, eighths, more)?;
        compare_broken(comparison, &bytes)?;
    }
    for most in [1, 4, 11] {
        compare_joined(comparison, most)?;
    }
    Ok(())
}

/// Returns `true` if a text is damaged at `position`: near the ends of the first blocks that are
/// gathered, and near its end.
fn is_near_block_end(position: usize, len: usize) -> bool {
    let near = [0, 16, 32, 48, 64, 80, 96, 112, 128, 592, 624];
    near.iter().any(|place| position.abs_diff(*place) < 4) || position.wrapping_add(9) >= len
}

/// Compares the text with another byte near the end of each block.
fn compare_damage_near_blocks(
    comparison: &mut Comparison<'_>,
    text: &mut [u8],
) -> Result<(), Differs> {
    for position in 0..text.len() {
        if !is_near_block_end(position, text.len()) {
            continue;
        }
        compare_damaged(comparison, text, position, b"!=-", CallSet::AtOnce)?;
    }
    Ok(())
}

/// Compares texts with ignored bytes at many places, and with faults.
pub(super) fn compare_mixed_faults(comparison: &mut Comparison<'_>) -> Result<(), Differs> {
    for (eighths, more) in [(12, 1), (75, 1)] {
        let bytes = text_of_length(comparison, eighths, more)?;
        for every in [1, 3, 5, 9, 31] {
            let mut text = Vec::new(comparison.alloc);
            push_broken(&mut text, &bytes, every, 1)?;
            compare_damage_near_blocks(comparison, &mut text)?;
        }
    }
    Ok(())
}
