//! Layouts, and the encodings that have them.

use super::predefined::named;
use data_encoding::{Encoding, base64_mime, base64_nopad};
use std::alloc::Global;
use std::test::Fail;

/// The encodings with layouts that are damaged in each way.
const DAMAGED: &str = "HEXLOWER BASE64 BASE64_MIME BASE32_NOPAD_VISUAL";

/// Writes `byte` at `position`, if there is such a position.
fn set_byte(layout: &mut [u8], position: usize, byte: u8) {
    if position < layout.len() {
        layout[position] = byte;
    }
}

/// Writes another byte, as 513=12, or cuts a layout or fills it with zeros, as len=515.
fn change_layout(layout: &mut Vec<u8>, change: &str) -> Result<(), Fail> {
    let (position, value) = change.split_once('=').unwrap_or(("", ""));
    if position == "len" {
        layout.resize(value.parse()?, 0)?;
    } else {
        set_byte(layout, position.parse()?, value.parse()?);
    }
    Ok(())
}

/// Returns the layout of an encoding, after `changes`.
fn changed_layout(alloc: Global, encoding: &Encoding, changes: &str) -> Result<Vec<u8>, Fail> {
    let mut layout = Vec::new(alloc);
    layout.extend_from_slice(encoding.internal_implementation().as_slice())?;
    for change in changes.split_whitespace() {
        change_layout(&mut layout, change)?;
    }
    Ok(layout)
}

/// Returns `true` if an encoding has `bytes` as its layout.
fn is_own_layout(bytes: &[u8]) -> bool {
    match Encoding::internal_new(bytes) {
        Some(encoding) => encoding.internal_implementation().as_slice() == bytes,
        None => false,
    }
}

/// Returns the length of a changed layout and its bytes after the tables, or `none` if it is not a
/// layout.
pub(super) fn show_layout(
    alloc: Global,
    encoding: &Encoding,
    changes: &str,
) -> Result<String, Fail> {
    let layout = changed_layout(alloc, encoding, changes)?;
    if !is_own_layout(&layout) {
        return Ok(String::from_str(alloc, "none")?);
    }
    let len = layout.len();
    let ends = layout.get(512..514).unwrap_or(&[]);
    let lines = layout.get(514..len.min(517)).unwrap_or(&[]);
    Ok(format!(in alloc; "{len}: {ends:?} {lines:?}")?)
}

/// Returns `true` if the layout of `encoding`, after `changes`, is the layout of `other`.
pub(super) fn has_layout_of(
    alloc: Global,
    encoding: &Encoding,
    changes: &str,
    other: &Encoding,
) -> Result<bool, Fail> {
    Ok(
        match Encoding::internal_new(&changed_layout(alloc, encoding, changes)?) {
            Some(encoding) => encoding == *other,
            None => false,
        },
    )
}

/// A slow oracle of layouts: the parts of the bytes.
#[derive(Clone, Copy)]
struct LayoutOracle<'a> {
    symbols: &'a [u8],
    values: &'a [u8],
    padding: u8,
    flags: u8,
    lines: &'a [u8],
}

impl LayoutOracle<'_> {
    /// Returns the parts of `bytes`, or `None` if there are too few or too many.
    fn of(bytes: &[u8]) -> Option<LayoutOracle<'_>> {
        if bytes.len() > 770 {
            return None;
        }
        Some(LayoutOracle {
            symbols: bytes.get(..256)?,
            values: bytes.get(256..512)?,
            padding: *bytes.get(512)?,
            flags: *bytes.get(513)?,
            lines: bytes.get(514..)?,
        })
    }

    /// Returns the entry of `byte`.
    fn entry_of(&self, byte: u8) -> u8 {
        self.values.get(byte as usize).copied().unwrap_or(0)
    }

    /// Returns the number of symbols of the encoding and of a whole group, or `None` if the width
    /// is invalid.
    fn symbol_counts(&self) -> Option<(usize, u8)> {
        match self.flags % 8 {
            1 => Some((2, 8)),
            2 => Some((4, 4)),
            3 => Some((8, 8)),
            4 => Some((16, 2)),
            5 => Some((32, 8)),
            6 => Some((64, 4)),
            _ => None,
        }
    }

    /// Returns `true` if the symbols repeat, and each has its own value.
    fn has_symbols(&self, count: usize) -> bool {
        for (index, symbol) in self.symbols.iter().enumerate() {
            let is_own = match index < count {
                true => *symbol < 128 && self.entry_of(*symbol) as usize == index,
                false => self.symbols.get(index - count) == Some(symbol),
            };
            if !is_own {
                return false;
            }
        }
        true
    }

    /// Returns `true` if each entry is the value of a symbol or another meaning, and bytes from 128
    /// on are invalid.
    fn has_entries(&self, count: usize) -> bool {
        for (index, entry) in self.values.iter().enumerate() {
            let is_meaning = match index < 128 {
                true => (*entry as usize) < count || matches!(*entry, 128..=130),
                false => *entry == 128,
            };
            if !is_meaning {
                return false;
            }
        }
        true
    }

    /// Returns `true` if there may be trailing bits.
    fn leaves_bits(&self) -> bool {
        matches!(self.flags % 8, 3 | 5 | 6)
    }

    /// Returns `true` if the padding is allowed, and only its character and translations mean
    /// padding. Padding requires that there may be trailing bits.
    fn has_padding(&self) -> bool {
        if self.padding == 128 {
            return !self.values.contains(&130);
        }
        self.leaves_bits() && self.padding < 128 && self.entry_of(self.padding) == 130
    }

    /// Returns `true` if each flag that is set has an effect.
    fn has_flags(&self) -> bool {
        let checks = self.flags / 16 % 2 == 1;
        let is_single = self.flags / 32 % 2 == 1;
        self.flags < 64 && (checks || self.leaves_bits()) && (!is_single || self.padding != 128)
    }

    /// Returns `true` if the lines are whole groups, and each byte of their separator is ignored.
    fn has_lines(&self, group: u8) -> bool {
        let ignores = self.values.contains(&129);
        match self.lines {
            [] => !ignores,
            [column] => *column == 0 && ignores,
            [column, separator @ ..] => {
                *column != 0 && column.checked_rem(group) == Some(0) && self.ignores(separator)
            }
        }
    }

    /// Returns `true` if each of `bytes` is ignored.
    fn ignores(&self, bytes: &[u8]) -> bool {
        for byte in bytes {
            if self.entry_of(*byte) != 129 {
                return false;
            }
        }
        true
    }
}

/// Returns `true` if `bytes` is a layout by the oracle.
fn is_layout(bytes: &[u8]) -> bool {
    let Some(oracle) = LayoutOracle::of(bytes) else {
        return false;
    };
    let Some((count, group)) = oracle.symbol_counts() else {
        return false;
    };
    oracle.has_symbols(count)
        && oracle.has_entries(count)
        && oracle.has_padding()
        && oracle.has_flags()
        && oracle.has_lines(group)
}

/// Returns `true` if an encoding has `bytes` as its layout exactly if the oracle accepts them.
fn matches_oracle(bytes: &[u8]) -> bool {
    match Encoding::internal_new(bytes) {
        Some(_) => is_layout(bytes) && is_own_layout(bytes),
        None => !is_layout(bytes),
    }
}

/// Returns `true` if the results match with each value of each byte.
fn matches_with_each_byte(layout: &mut [u8]) -> bool {
    for position in 0..layout.len() {
        let kept = layout[position];
        for value in 0..=255u8 {
            layout[position] = value;
            if !matches_oracle(layout) {
                return false;
            }
        }
        layout[position] = kept;
    }
    true
}

/// Returns `true` if the results match at each length, with the layout cut or filled.
fn matches_at_each_length(alloc: Global, layout: &[u8], fill: u8) -> Result<bool, Fail> {
    let mut bytes = Vec::new(alloc);
    bytes.extend_from_slice(layout)?;
    bytes.resize(800, fill)?;
    for len in 0..=bytes.len() {
        if !matches_oracle(bytes.get(..len).unwrap_or(&[])) {
            return Ok(false);
        }
    }
    Ok(true)
}

/// Returns `true` if the results match for all changes to the layout of the encoding `name`.
fn matches_when_damaged(alloc: Global, name: &str) -> Result<bool, Fail> {
    let Some((encoding, _)) = named(name) else {
        return Ok(false);
    };
    let mut layout = changed_layout(alloc, &encoding, "")?;
    let last = layout.last().copied().unwrap_or(0);
    Ok(
        matches_at_each_length(alloc, &layout, 0)?
            && matches_at_each_length(alloc, &layout, last)?
            && matches_with_each_byte(&mut layout),
    )
}

#[test]
fn damaged_layouts_match_oracle(rt: HostRuntime) -> Result<(), Fail> {
    for name in DAMAGED.split(' ') {
        assert!(rt; matches_when_damaged(rt.alloc(), name)?, "{name}");
    }
    Ok(())
}

/// Returns `true` if the encoding with the layout of BASE64_MIME, cut to 515 bytes, ignores CR and
/// LF. It has no lines.
fn ignores_line_ends_when_cut(alloc: Global) -> Result<bool, Fail> {
    let layout = changed_layout(alloc, &base64_mime(), "len=515 514=0")?;
    let Some(encoding) = Encoding::internal_new(&layout) else {
        return Ok(false);
    };
    Ok(
        layout.len() == 515
            && encoding.interpret_byte(b'\r').is_ignored()
            && encoding.interpret_byte(b'\n').is_ignored(),
    )
}

#[test]
fn cut_layout_ignores_line_ends(rt: HostRuntime) -> Result<(), Fail> {
    assert!(rt; ignores_line_ends_when_cut(rt.alloc())?);
    Ok(())
}

#[test]
fn concatenation_needs_padding(rt: HostRuntime) -> Result<(), Fail> {
    let mut specification = base64_nopad().specification(rt.alloc())?;
    specification.concatenate = false;
    let encoding = specification.encoding()?;
    let layout = encoding.internal_implementation();
    assert_eq!(rt; layout.as_slice().get(513), Some(&30));
    Ok(())
}
