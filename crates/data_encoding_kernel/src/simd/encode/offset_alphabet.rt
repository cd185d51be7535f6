//! Alphabets of six bits with symbols that are their value plus an offset.

ghost use Rattle.std.specs.Prelude.{◌≡◌, ◌-◌, ◌<◌, map, slice_index, IsTrue};
ghost use Rattle.std.specs.List.{AllByRecursion, range_with_len};
ghost use Rattle.data_encoding_kernel.specs.OffsetAlphabet.{HoldsOffsetAlphabet, alphabet_of, has_sums, offset_symbol, first_of};

use crate::simd::compare::are_below;
use std::simd::prelude::*;

/// An alphabet computed as `value + offset`, modulo 256.
///
/// The last sixteen values, from 48 on, have an offset each (`last`). Smaller values use `last[0]`.
/// Values below `bound` add `first`, too.
#[derive(Clone, Copy, Drop)]
pub struct OffsetAlphabet {
    /// The offsets of the last sixteen values.
    pub last: u8x16,

    /// Values below this use `first`.
    pub bound: u8,

    /// Added to values below `bound`.
    pub first: u8,
}

/// An offset form as plain data. It is stored with its table.
#[repr(C)]
#[derive(Clone, Copy, Debug, Drop)]
pub struct PlainOffsets {
    /// The field `last` of the [`OffsetAlphabet`].
    pub last: [u8; 16],
    /// The field `bound` of the [`OffsetAlphabet`].
    pub bound: u8,
    /// The field `first` of the [`OffsetAlphabet`].
    pub first: u8,
    /// `true` if the table has an offset form.
    pub has_offsets: bool,
}

impl PlainOffsets {
    /// The form for a table without an offset form.
    pub const NONE: PlainOffsets = PlainOffsets {
        last: [0; 16],
        bound: 0,
        first: 0,
        has_offsets: false,
    };

    /// Returns the form, with its row in lanes.
    #[inline(always)]
    pub fn alphabet(&self) -> OffsetAlphabet
        ensures { result ≡ alphabet_of self.now }
    {
        OffsetAlphabet {
            last: u8x16::from_array(self.last),
            bound: self.bound,
            first: self.first,
        }
    }
}

/// Returns the values from 0 to 63.
#[inline(always)]
fn each_value() -> u8x64
    ensures { result ≡ range_with_len 0 64 }
{
    u8x64::from_array([
        0, 1, 2, 3, 4, 5, 6, 7, 8, 9, 10, 11, 12, 13, 14, 15, 16, 17, 18, 19, 20, 21, 22, 23, 24,
        25, 26, 27, 28, 29, 30, 31, 32, 33, 34, 35, 36, 37, 38, 39, 40, 41, 42, 43, 44, 45, 46, 47,
        48, 49, 50, 51, 52, 53, 54, 55, 56, 57, 58, 59, 60, 61, 62, 63,
    ])
}

/// Returns the offset form of `symbols`, or [`PlainOffsets::NONE`] if the search finds none.
#[inline(never)]
pub fn plain_offsets_of(symbols: &[u8; 256]) -> PlainOffsets
    ensures { IsTrue (has_sums symbols.now result) }
{
    let alphabet = candidate(symbols);
    if !agrees(&alphabet, symbols) {
        return PlainOffsets::NONE;
    }
    PlainOffsets {
        last: alphabet.last.to_array(),
        bound: alphabet.bound,
        first: alphabet.first,
        has_offsets: true,
    }
}

/// Returns the offset form that the symbols suggest. It may disagree with them.
///
/// The values below the bound are the first ones that have one offset.
fn candidate(symbols: &[u8; 256]) -> OffsetAlphabet {
    let moved = u8x64::from_slice(&symbols[..64]) - each_value();
    let numbers = moved.to_array();
    let alike = moved.simd_eq(u8x64::splat(numbers[0])).to_bitmask();
    OffsetAlphabet {
        last: moved.extract::<48, 16>(),
        bound: alike.trailing_ones() as u8,
        first: numbers[0].wrapping_sub(numbers[48]),
    }
}

/// Returns `true` if the sum for each value is its symbol.
#[inline(always)]
fn agrees(alphabet: &OffsetAlphabet, symbols: &[u8; 256]) -> bool
    ensures { IsTrue result → HoldsOffsetAlphabet symbols.now alphabet.now }
{
    let own = u8x64::from_slice(&symbols[..64]);
    let found = offset_symbols_64(alphabet, each_value());
    let same = found.simd_eq(own);
    are_below(1, same.select(u8x64::splat(0), u8x64::splat(1)))
}

/// Returns the symbols of `values`, which are below 64.
#[inline(always)]
pub fn offset_symbols_64(alphabet: &OffsetAlphabet, values: u8x64) -> u8x64
    requires { AllByRecursion (λ value. value < 64) values }
    ensures { result ≡ map (offset_symbol alphabet.now) values }
{
    let numbers = numbers_at(alphabet.last, places_of(values));
    values + numbers + firsts(alphabet, values)
}

/// Returns the index of each value among the last sixteen, or 0 if it is smaller.
#[inline(always)]
fn places_of(values: u8x64) -> u8x64
    ensures { result ≡ map (λ value. value - 48) values }
{
    values.saturating_sub(u8x64::splat(48))
}

/// Returns the numbers at the given indexes.
#[inline(always)]
fn numbers_at(numbers: u8x16, places: u8x64) -> u8x64
    requires { AllByRecursion (λ place. place < 16) places }
    ensures { result ≡ map (slice_index numbers) places }
{
    let repeated = numbers.swizzle::<64>([
        0, 1, 2, 3, 4, 5, 6, 7, 8, 9, 10, 11, 12, 13, 14, 15, 0, 1, 2, 3, 4, 5, 6, 7, 8, 9, 10, 11,
        12, 13, 14, 15, 0, 1, 2, 3, 4, 5, 6, 7, 8, 9, 10, 11, 12, 13, 14, 15, 0, 1, 2, 3, 4, 5, 6,
        7, 8, 9, 10, 11, 12, 13, 14, 15,
    ]);
    repeated.swizzle_dyn_within::<16>(places)
}

/// Returns the additional offset of each value: `first` if it is below the bound, or else 0.
#[inline(always)]
fn firsts(alphabet: &OffsetAlphabet, values: u8x64) -> u8x64
    ensures { result ≡ map (first_of alphabet.now) values }
{
    // The bound is on the left: then SSE compares by `pminub`, without a copy of the values.
    let are_others = u8x64::splat(alphabet.bound).simd_le(values);
    are_others.select(u8x64::splat(0), u8x64::splat(alphabet.first))
}
