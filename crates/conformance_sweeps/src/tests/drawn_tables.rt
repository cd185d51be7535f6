//! Encodings with drawn look-up tables.
//!
//! Their texts are decoded with SIMD. The text of data is compared with the oracle. The data is
//! decoded again if symbols are replaced by bytes that are translated to them. With any byte in
//! place of a symbol, the result is the result of the oracle for that group.

use super::drawn_specifications::{Draw, specify_drawn, specify_odd, specify_shared};
use super::round_trips::compare_round_trip;
use conformance_support::comparison::{Comparison, Differs, Tally, decode_matches};
use conformance_support::oracle::{Expected, Oracle};
use data_encoding::{BitOrder, DECODE_LIMIT, DecodeError, Specification};
use std::alloc::{AllocError, Global};
use std::test::Fail;

/// An encoding with a drawn table, its oracle, and data that it encodes.
#[derive(Drop)]
struct Sweep<'a> {
    comparison: Comparison<'a>,
    specification: &'a Specification,
    data: Expected,
}

impl Sweep<'_> {
    /// Returns the symbol that `byte` is translated to, or `byte` itself.
    fn translated_to(&self, byte: u8) -> u8 {
        let translate = &self.specification.translate;
        for (from, to) in translate
            .from
            .as_bytes()
            .iter()
            .zip(translate.to.as_bytes())
        {
            if *from == byte {
                return *to;
            }
        }
        byte
    }

    /// Returns a byte that is translated to `byte`, drawn from all of them, or `byte` itself if
    /// there is none.
    fn draw_translated(&self, byte: u8, draw: &mut Draw) -> u8 {
        let translate = &self.specification.translate;
        let (mut drawn, mut count) = (byte, 0usize);
        for (from, to) in translate
            .from
            .as_bytes()
            .iter()
            .zip(translate.to.as_bytes())
        {
            if *to == byte {
                count = count.wrapping_add(1);
                // The last of `count` bytes is drawn with a chance of one in `count`.
                if draw.below(count) == 0 {
                    drawn = *from;
                }
            }
        }
        drawn
    }

    /// Replaces about half of the bytes of a text by bytes that are translated to them, and
    /// compares its meaning with the data.
    fn compare_translated(&self, text: &mut [u8], draw: &mut Draw) -> Result<(), Differs> {
        for index in 0..text.len() {
            if draw.below(2) == 0 {
                text[index] = self.draw_translated(text[index], draw);
            }
        }
        let (alloc, encoding) = (self.comparison.alloc, self.comparison.encoding);
        if text.len() <= DECODE_LIMIT && decode_matches(alloc, encoding, &self.data, text) {
            return Ok(());
        }
        Err(Differs {})
    }

    /// Returns the result of the oracle for the first group of `text`.
    fn decode_group_of(&self, text: &[u8]) -> Result<Expected, AllocError> {
        let mut group = Vec::new(self.comparison.alloc);
        for byte in text.iter().take(self.comparison.oracle.group_len()) {
            group.push(self.translated_to(*byte))?;
        }
        self.comparison.oracle.decode(self.comparison.alloc, &group)
    }

    /// Returns `true` if `bytes` starts with `front` bytes of the data, followed by the result for
    /// the next group.
    fn begins_with_group(&self, bytes: &[u8], front: usize, want: &Expected) -> bool {
        bytes.get(..front) == self.data.bytes.get(..front)
            && bytes.get(front..).unwrap_or(&[]).starts_with(&want.bytes)
    }

    /// Returns `true` if `bytes` is the data, except that one group of `size` bytes has the
    /// expected result.
    fn matches_around_group(
        &self,
        bytes: &[u8],
        front: usize,
        size: usize,
        want: &Expected,
    ) -> bool {
        let rest = bytes.get(front.wrapping_add(want.bytes.len())..);
        let data = self.data.bytes.get(front.wrapping_add(size)..);
        self.begins_with_group(bytes, front, want) && rest.unwrap_or(&[]) == data.unwrap_or(&[])
    }

    /// Returns `true` if `decode_mut` returns the expected result for `group`, and the data for the
    /// other groups.
    fn matches_with_group(&self, text: &[u8], group: usize, want: &Expected) -> bool {
        let encoding = self.comparison.encoding;
        if text.len() > DECODE_LIMIT {
            return false;
        }
        let len = encoding.decode_len(text.len()).unwrap_or(1025);
        if len > 1024 {
            return false;
        }
        let symbols = self.comparison.oracle.group_len();
        let size = symbols.wrapping_mul(encoding.bit_width()) / 8;
        let (start, front) = (group.wrapping_mul(symbols), group.wrapping_mul(size));
        let mut output = [0; 1024];
        match encoding.decode_mut(text, &mut output[..len]) {
            Ok(count) => {
                let bytes = output.get(..count).unwrap_or(&[]);
                want.fault.is_none() && self.matches_around_group(bytes, front, size, want)
            }
            Err(partial) => {
                let position = partial.error.position.wrapping_sub(start);
                let kind = partial.error.kind;
                want.fault == Some(DecodeError { position, kind })
                    && (partial.read, partial.written) == (start, front)
                    && self.begins_with_group(&output, front, want)
            }
        }
    }

    /// Compares the result of `decode_mut` for a text with the result of the oracle for the group
    /// at `position`, and with the data.
    fn compare_group(&self, text: &[u8], position: usize) -> Result<(), Differs> {
        let symbols = self.comparison.oracle.group_len();
        let group = position / symbols;
        let start = group.wrapping_mul(symbols);
        let want = self.decode_group_of(text.get(start..).unwrap_or(&[]))?;
        if self.matches_with_group(text, group, &want) {
            return Ok(());
        }
        Err(Differs {})
    }

    /// Compares a text with each byte at `position`, and unchanged.
    fn compare_each_byte(&self, text: &mut [u8], position: usize) -> Result<(), Differs> {
        if position >= text.len() {
            return Err(Differs {});
        }
        let own = text[position];
        for byte in 0..=255u8 {
            text[position] = byte;
            self.compare_group(text, position)?;
        }
        text[position] = own;
        self.compare_group(text, position)
    }

    /// Compares the text of the data with the oracle, and then its meaning: with other bytes for
    /// its symbols, and with each byte at two positions.
    fn compare_all(&self, draw: &mut Draw) -> Result<(), Differs> {
        let mut text = compare_round_trip(&self.comparison, &self.data)?.into_bytes();
        self.compare_translated(&mut text, draw)?;
        for _ in 0..2 {
            let position = draw.below(text.len());
            self.compare_each_byte(&mut text, position)?;
        }
        Ok(())
    }
}

/// Returns `true` if all results match for data of `groups` groups and a byte.
fn data_matches_oracle(
    alloc: Global,
    specification: &Specification,
    draw: &mut Draw,
    groups: usize,
) -> Result<bool, Fail> {
    let encoding = specification.encoding()?;
    let oracle = Oracle::of(specification);
    let len = encoding.encode_align().wrapping_mul(groups).wrapping_add(1);
    let mut data = Expected::new(alloc);
    draw.put_bytes(&mut data.bytes, len)?;
    let sweep = Sweep {
        comparison: Comparison::new(alloc, &encoding, oracle, Tally::zero()),
        specification,
        data,
    };
    Ok(sweep.compare_all(draw).is_ok())
}

/// Compares data of a few groups, and of at least 704 symbols.
fn compare_few_and_many(
    alloc: Global,
    specification: &Specification,
    draw: &mut Draw,
    turn: u32,
) -> Result<(), Fail> {
    let symbols = Oracle::of(specification).group_len();
    let few = draw.below(27).wrapping_add(7);
    let many = (704 / symbols).wrapping_add(draw.below(10));
    if data_matches_oracle(alloc, specification, draw, few)?
        && data_matches_oracle(alloc, specification, draw, many)?
    {
        return Ok(());
    }
    Err(Fail::new(format_args!("turn {turn}")))
}

/// Returns the first bit order in even turns, and the second in odd turns.
fn order_of(turn: u32) -> BitOrder {
    match turn % 2 {
        0 => BitOrder::MostSignificantFirst,
        _ => BitOrder::LeastSignificantFirst,
    }
}

/// Compares a drawn table. The failure names the turn.
fn compare_drawn(alloc: Global, draw: &mut Draw, turn: u32) -> Result<(), Fail> {
    let mut specification = Specification::new(alloc);
    specification.bit_order = order_of(turn / 6);
    let width = turn % 6 + 1;
    specify_drawn(&mut specification, draw, 1 << width)?;
    if turn / 12 % 2 == 0 || 8 % width == 0 {
        specification.padding = None;
    }
    compare_few_and_many(alloc, &specification, draw, turn)
}

/// Compares a table with one exceptional symbol. In 256 turns it is each ASCII byte in both orders.
fn compare_odd(alloc: Global, draw: &mut Draw, turn: u32) -> Result<(), Fail> {
    let mut specification = Specification::new(alloc);
    specification.bit_order = order_of(turn.wrapping_add(turn / 128));
    let width = if turn < 256 { 6 } else { turn % 5 + 1 };
    let is_after = turn / 128 % 2 == 0;
    let byte = (turn % 128) as u8;
    specify_odd(&mut specification, draw, byte, 1 << width, is_after)?;
    compare_few_and_many(alloc, &specification, draw, turn)
}

/// Compares a table with rows that share one, in a text of 16 to 96 symbols.
fn compare_shared(alloc: Global, draw: &mut Draw, turn: u32) -> Result<(), Fail> {
    let mut specification = Specification::new(alloc);
    specification.bit_order = order_of(turn / 6);
    specify_shared(&mut specification, draw, 1 << (turn % 6 + 1))?;
    let symbols = draw.below(81).wrapping_add(16);
    let groups = symbols / Oracle::of(&specification).group_len();
    if data_matches_oracle(alloc, &specification, draw, groups)? {
        return Ok(());
    }
    Err(Fail::new(format_args!("turn {turn}")))
}

#[test]
fn drawn_tables_match_oracle(rt: HostRuntime) -> Result<(), Fail> {
    let mut draw = Draw { state: 1 };
    for turn in 0..96u32 {
        compare_drawn(rt.alloc(), &mut draw, turn)?;
    }
    Ok(())
}

#[test]
fn exceptional_symbols_match_oracle(rt: HostRuntime) -> Result<(), Fail> {
    let mut draw = Draw { state: 2 };
    for turn in 0..512u32 {
        compare_odd(rt.alloc(), &mut draw, turn)?;
    }
    Ok(())
}

#[test]
fn shared_rows_match_oracle(rt: HostRuntime) -> Result<(), Fail> {
    let mut draw = Draw { state: 3 };
    for turn in 0..96u32 {
        compare_shared(rt.alloc(), &mut draw, turn)?;
    }
    Ok(())
}
