//! Texts that are compared in place of data.

use data_encoding::{ENCODE_LIMIT, Encoding};
use std::alloc::Global;
use std::test::Fail;

/// Returns the text of `input`, or an empty text if it is too long.
fn encode_within_limit(alloc: Global, encoding: &Encoding, input: &[u8]) -> Result<String, Fail> {
    if input.len() > ENCODE_LIMIT {
        return Ok(String::new(alloc));
    }
    Ok(encoding.encode(alloc, input)?)
}

/// Returns `true` if the text of `one` comes before the text of `other`.
fn texts_ascend(
    alloc: Global,
    encoding: &Encoding,
    one: &[u8],
    other: &[u8],
) -> Result<bool, Fail> {
    let first = encode_within_limit(alloc, encoding, one)?;
    let second = encode_within_limit(alloc, encoding, other)?;
    Ok(first.as_bytes() < second.as_bytes())
}

/// Returns the number of symbols, and the difference of bytes with neighbouring first symbols.
fn count_and_step(encoding: &Encoding) -> (u8, u8) {
    match encoding.bit_width() {
        1 => (2, 128),
        2 => (4, 64),
        3 => (8, 32),
        4 => (16, 16),
        5 => (32, 8),
        _ => (64, 4),
    }
}

/// Returns `true` if the texts of bytes with the bits of a symbol, followed by zeros, are in order.
fn symbols_ascend(alloc: Global, encoding: &Encoding) -> Result<bool, Fail> {
    let (count, step) = count_and_step(encoding);
    let mut byte: u8 = 0;
    for _ in 1..count {
        let next = byte.saturating_add(step);
        if !texts_ascend(alloc, encoding, &[byte], &[next])? {
            return Ok(false);
        }
        byte = next;
    }
    Ok(true)
}

/// Returns `true` if no pair of data is found with texts in another order.
pub(super) fn keeps_order(alloc: Global, encoding: &Encoding) -> Result<bool, Fail> {
    Ok(
        texts_ascend(alloc, encoding, &[0], &[1])?
            && texts_ascend(alloc, encoding, &[1], &[count_and_step(encoding).0])?
            && texts_ascend(alloc, encoding, &[0], &[0, 0])?
            && symbols_ascend(alloc, encoding)?,
    )
}
