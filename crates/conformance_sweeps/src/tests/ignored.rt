//! Short texts with ignored bytes, for every width and both orders.

ghost use Rattle.std.specs.Prelude.{◌<◌, ◌≤◌, length};

use super::damage::{CallSet, compare_damaged};
use super::short_texts::{extreme_symbols, pad};
use conformance_support::comparison::{Comparison, Differs};

/// Compares the text unchanged, and with a faulty byte after `position`.
fn compare_next_byte(
    comparison: &mut Comparison<'_>,
    text: &mut [u8],
    position: usize,
) -> Result<(), Differs>
    requires inside { position < length text.old }
{
    comparison.compare(text)?;
    let next = position + 1;
    if next == text.len() {
        return Ok(());
    }
    compare_damaged(comparison, text, next, b"!=", CallSet::All)
}

/// Compares the text with an ignored byte at any position, and with two at any two positions.
fn compare_ignored_bytes(comparison: &mut Comparison<'_>, text: &[u8]) -> Result<(), Differs>
    requires short { length text.now ≤ 16 }
{
    for first in 0..text.len() {
        let mut own = [0; 16];
        let own = &mut own[..text.len()];
        own.copy_from_slice(text);
        own[first] = b'-';
        compare_next_byte(comparison, own, first)?;
        for second in first + 1..text.len() {
            own[second] = b'-';
            comparison.compare(own)?;
            own[second] = text[second];
        }
    }
    Ok(())
}

/// Compares texts of a symbol with one or two ignored bytes. If there is padding, any amount of it
/// ends one of the groups.
fn compare_ignored_in_symbols(
    comparison: &mut Comparison<'_>,
    symbol: u8,
    len: usize,
) -> Result<(), Differs>
    requires short { len ≤ 16 }
{
    let size = comparison.oracle.group_len();
    let (shortest, most) = match comparison.oracle.padding {
        Some(_) => (size.min(len), size),
        None => (len, 0),
    };
    for end in shortest..=len {
        for count in 0..=most {
            let mut text = [symbol; 16];
            pad(&mut text[..end], count);
            compare_ignored_bytes(comparison, &text[..len])?;
        }
    }
    Ok(())
}

/// Compares texts of up to a group and two bytes, with symbols of no bits, one bit and all bits,
/// and texts of ignored bytes.
pub(super) fn compare_ignored(comparison: &mut Comparison<'_>) -> Result<(), Differs> {
    for len in 0..=16 {
        comparison.compare(&[b'-'; 16][..len])?;
    }
    for symbol in extreme_symbols(comparison.oracle.symbols) {
        for len in 0..comparison.oracle.group_len().min(8) + 3 {
            compare_ignored_in_symbols(comparison, symbol, len)?;
        }
    }
    Ok(())
}

/// Compares the text unchanged, and with a faulty byte at any position except `ignored`.
fn compare_faults_around(
    comparison: &mut Comparison<'_>,
    text: &mut [u8],
    ignored: usize,
) -> Result<(), Differs> {
    comparison.compare(text)?;
    for position in 0..text.len() {
        if position == ignored {
            continue;
        }
        let own = text[position];
        for byte in [b'!', b'=', 200] {
            if byte != own {
                text[position] = byte;
                comparison.compare(text)?;
            }
        }
        text[position] = own;
    }
    Ok(())
}

/// Compares texts of a symbol that end with padding, with an ignored byte at any position and at
/// most one faulty byte at another.
fn compare_faults_in_symbols(
    comparison: &mut Comparison<'_>,
    symbol: u8,
    len: usize,
    padding: usize,
) -> Result<(), Differs>
    requires short { len ≤ 17 }
{
    for ignored in 0..len {
        let mut text = [symbol; 17];
        let text = &mut text[..len];
        pad(text, padding);
        text[ignored] = b'-';
        compare_faults_around(comparison, text, ignored)?;
    }
    Ok(())
}

/// Compares texts of up to two groups and one byte, with symbols of no bits and of all bits. One
/// byte is ignored, and at most one is faulty.
pub(super) fn compare_faults(comparison: &mut Comparison<'_>) -> Result<(), Differs> {
    let oracle = comparison.oracle;
    let [zero, _, last] = extreme_symbols(oracle.symbols);
    let size = oracle.group_len().min(8);
    let most = if oracle.padding.is_some() { size } else { 0 };
    for symbol in [zero, last] {
        for len in 0..2 * size + 2 {
            for padding in 0..=most.min(len) {
                compare_faults_in_symbols(comparison, symbol, len, padding)?;
            }
        }
    }
    Ok(())
}

/// Compares the text with an ignored byte before it, after it, and between any two of its bytes.
fn compare_each_insertion(comparison: &mut Comparison<'_>, text: &[u8]) -> Result<(), Differs>
    requires short { length text.now ≤ 16 }
{
    for place in 0..=text.len() {
        let (front, rest) = text.split_at(place);
        let mut spread = [b'-'; 17];
        spread[..place].copy_from_slice(front);
        spread[place + 1..text.len() + 1].copy_from_slice(rest);
        comparison.compare(&spread[..text.len() + 1])?;
    }
    Ok(())
}

/// Compares two groups with any two lengths of padding, and an ignored byte at any position.
pub(super) fn compare_ignored_pairs(comparison: &mut Comparison<'_>) -> Result<(), Differs> {
    let size = comparison.oracle.group_len();
    if size > 8 {
        return Err(Differs {});
    }
    for symbol in extreme_symbols(comparison.oracle.symbols) {
        for first in 0..=size {
            for second in 0..=size {
                let mut text = [symbol; 16];
                pad(&mut text[..size], first);
                pad(&mut text[size..2 * size], second);
                compare_each_insertion(comparison, &text[..2 * size])?;
            }
        }
    }
    Ok(())
}
