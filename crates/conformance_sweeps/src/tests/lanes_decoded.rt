//! Texts of several groups, with another byte at each position, for every width and both orders,
//! compared with the oracle.

use conformance_support::comparison::{Comparison, Differs, decode_mut_matches};
use data_encoding::{Character, DECODE_LIMIT, DecodeError, DecodeKind, Encoding};
use std::alloc::{AllocError, Global};

/// The numbers of groups: one less than one or two iterations, exactly as many, and one more.
const GROUPS: [usize; 7] = [7, 8, 9, 15, 16, 17, 33];

/// A number of characters that is several iterations in every width.
const LONG: usize = 704;

/// The room for the data of a text, in bytes.
const ROOM: usize = 576;

/// Bytes that are invalid in some encodings, among them the neighbours of ranges of symbols.
const DAMAGE: [u8; 11] = [128, 255, b'/', b':', b'@', b'[', b'`', b'{', b'=', b'\n', 0];

/// Compares the result of `decode_mut`: the fault, the length that was read, and the bytes.
fn compare_decode_mut(comparison: &Comparison<'_>, text: &[u8]) -> Result<(), Differs> {
    let want = comparison.oracle.decode(comparison.alloc, text)?;
    if text.len() <= DECODE_LIMIT && decode_mut_matches(comparison.encoding, &want, text) {
        return Ok(());
    }
    Err(Differs {})
}

/// Returns a text of `len` symbols, with another sequence in each group.
fn cycle_symbols(alloc: Global, symbols: &[u8], len: usize) -> Result<Vec<u8>, AllocError> {
    let mut text = Vec::with_capacity(alloc, len)?;
    let mut index = 0usize;
    for _ in 0..len {
        text.push(*symbols.get(index).unwrap_or(&0))?;
        index = index.wrapping_mul(5).wrapping_add(3) % symbols.len().max(1);
    }
    Ok(text)
}

/// Returns `true` if `decode_mut` reports the invalid byte at `position`, and has decoded the
/// groups before it.
fn stops_at_invalid_byte(
    encoding: &Encoding,
    text: &[u8],
    data: &[u8],
    position: usize,
    group: usize,
) -> bool {
    if text.len() > DECODE_LIMIT || group == 0 {
        return false;
    }
    let Ok(len) = encoding.decode_len(text.len()) else {
        return false;
    };
    if len > ROOM {
        return false;
    }
    let before = position / group * group;
    let fault = DecodeError {
        position,
        kind: DecodeKind::Symbol,
    };
    let mut output = [0; ROOM];
    match encoding.decode_mut(text, &mut output[..len]) {
        Ok(_) => false,
        Err(partial) => {
            partial.error == fault
                && partial.read == before
                && encoding.decode_len(before) == Ok(partial.written)
                && output.get(..partial.written) == data.get(..partial.written)
        }
    }
}

/// Compares a text with each byte of `DAMAGE` at `position`.
fn compare_damaged_group(
    comparison: &Comparison<'_>,
    text: &mut [u8],
    data: &[u8],
    position: usize,
) -> Result<(), Differs> {
    let group = comparison.oracle.group_len();
    for byte in DAMAGE {
        if position < text.len() {
            text[position] = byte;
        }
        match comparison.encoding.interpret_byte(byte) {
            Character::Invalid => {
                if !stops_at_invalid_byte(comparison.encoding, text, data, position, group) {
                    return Err(Differs {});
                }
            }
            _ => compare_decode_mut(comparison, text)?,
        }
    }
    Ok(())
}

/// Compares a text of `groups` groups, unchanged, and with another byte at each position.
fn compare_damaged_groups(comparison: &Comparison<'_>, groups: usize) -> Result<(), Differs> {
    let len = groups.wrapping_mul(comparison.oracle.group_len());
    let mut text = cycle_symbols(comparison.alloc, comparison.oracle.symbols, len)?;
    let data = comparison.oracle.decode(comparison.alloc, &text)?.bytes;
    for position in 0..text.len() {
        if position < text.len() {
            let own = text[position];
            compare_damaged_group(comparison, &mut text, &data, position)?;
            if position < text.len() {
                text[position] = own;
            }
        }
    }
    compare_decode_mut(comparison, &text)
}

/// Compares damaged texts of a few groups.
pub(super) fn compare_few_groups(comparison: &Comparison<'_>) -> Result<(), Differs> {
    for groups in GROUPS {
        compare_damaged_groups(comparison, groups)?;
    }
    Ok(())
}

/// Compares a long damaged text.
pub(super) fn compare_many_groups(comparison: &Comparison<'_>) -> Result<(), Differs> {
    let groups = (LONG / comparison.oracle.group_len()).wrapping_add(9);
    compare_damaged_groups(comparison, groups)
}
