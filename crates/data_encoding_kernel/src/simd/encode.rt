//! Encoding of several groups of bytes, with a lane for each digit.

ghost use Rattle.std.specs.Prelude.{◌≡◌, ℕ, ◌+◌, ◌-◌, ◌*◌, ◌/◌, ◌%◌, ◌^◌, ◌<◌, ◌≤◌, List, length, flat_map, map, take, slice_index};
ghost use Rattle.std.specs.List.{AllByRecursion, range_with_len};
ghost use Rattle.data_encoding_kernel.specs.Lanes.{digits_of, group_words};
ghost use Rattle.data_encoding_kernel.specs.OffsetAlphabet.{HoldsOffsetAlphabet};
ghost use Rattle.data_encoding_kernel.specs.Tables.{IsTextBy};

pub mod digit_pairs;
pub mod digits;
pub mod groups;
pub mod offset_alphabet;

use crate::copy::store_front;
use crate::group_size::GroupSize;
use crate::simd::encode::digits::{
    digits_of_eight, digits_of_four, digits_of_two, four_bit_digits, octal_digits_of_four,
    one_bit_digits, two_bit_digits,
};
use crate::simd::encode::offset_alphabet::{OffsetAlphabet, offset_symbols_64};
use crate::simd::padded_load::load_padded;
use data_encoding_meaning::encoding::BitOrder;
use std::simd::prelude::*;

/// The indexes from 0 to 15, four times.
const ROWS: [usize; 64] = [
    0, 1, 2, 3, 4, 5, 6, 7, 8, 9, 10, 11, 12, 13, 14, 15, 0, 1, 2, 3, 4, 5, 6, 7, 8, 9, 10, 11, 12,
    13, 14, 15, 0, 1, 2, 3, 4, 5, 6, 7, 8, 9, 10, 11, 12, 13, 14, 15, 0, 1, 2, 3, 4, 5, 6, 7, 8, 9,
    10, 11, 12, 13, 14, 15,
];

/// Returns the first sixteen entries, four times.
#[inline(always)]
fn rows(entries: &[u8]) -> u8x64
    requires { 16 ≤ length entries.now }
    ensures { result ≡ map (λ lane. slice_index entries.now (lane % 16)) (range_with_len 0 64) }
{
    u8x16::from_slice(entries).swizzle::<64>(ROWS)
}

/// Returns the entry at the lowest four bits of each value.
#[inline(always)]
fn look_in_sixteen(entries: &[u8], values: u8x64) -> u8x64
    requires { 16 ≤ length entries.now }
    ensures { result ≡ map (λ value. slice_index entries.now (value % 16)) values }
{
    rows(entries).swizzle_dyn_within::<16>(values & u8x64::splat(15))
}

/// Returns the entry at the lowest five bits of each value.
#[inline(always)]
fn look_in_thirty_two(entries: &[u8], values: u8x64) -> u8x64
    requires { 32 ≤ length entries.now }
    ensures { result ≡ map (λ value. slice_index entries.now (value % 32)) values }
{
    let even = look_in_sixteen(entries, values);
    let odd = look_in_sixteen(&entries[16..], values);
    let is_odd = (values & u8x64::splat(16)).simd_ne(u8x64::splat(0));
    is_odd.select(odd, even)
}

/// Returns the entry at the lowest six bits of each value.
#[inline(always)]
fn look_in_sixty_four(entries: &[u8], values: u8x64) -> u8x64
    requires { 64 ≤ length entries.now }
    ensures { result ≡ map (λ value. slice_index entries.now (value % 64)) values }
{
    let low = look_in_thirty_two(entries, values);
    let high = look_in_thirty_two(&entries[32..], values);
    let is_high = (values & u8x64::splat(32)).simd_ne(u8x64::splat(0));
    is_high.select(high, low)
}

/// Returns the symbols of `values`, from the rows of the table.
#[inline(always)]
fn look_up<G: GroupSize>(symbols: &[u8; 256], values: u8x64) -> u8x64
    requires below { AllByRecursion (λ value. value < 2 ^ G.WIDTH) values }
    ensures { result ≡ map (slice_index symbols.now) values }
{
    let width = G::WIDTH;
    if width == 6 {
        return look_in_sixty_four(symbols, values);
    }
    if width == 5 {
        return look_in_thirty_two(symbols, values);
    }
    look_in_sixteen(symbols, values)
}

/// Writes the first `8 * G::SYMBOLS` lanes.
#[inline(always)]
fn store<G: GroupSize>(lanes: u8x64, output: &mut [u8])
    requires exact { length output.old ≡ 8 * G.SYMBOLS }
    ensures { output.new ≡ take (8 * G.SYMBOLS) lanes }
{
    let count = G::SYMBOLS;
    if count == 8 {
        lanes.copy_to_slice(output);
    } else if count == 4 {
        store_thirty_two(lanes, output);
    } else {
        store_sixteen(lanes, output);
    }
}

/// Writes the first 32 lanes.
#[inline(always)]
fn store_thirty_two(lanes: u8x64, output: &mut [u8])
    requires exact { length output.old ≡ 32 }
    ensures { output.new ≡ take 32 lanes }
{
    lanes.extract::<0, 32>().copy_to_slice(output);
}

/// Writes the first sixteen lanes.
#[inline(always)]
fn store_sixteen(lanes: u8x64, output: &mut [u8])
    requires exact { length output.old ≡ 16 }
    ensures { output.new ≡ take 16 lanes }
{
    first_sixteen(lanes).copy_to_slice(output);
}

/// Returns the first sixteen lanes.
#[inline(always)]
fn first_sixteen(lanes: u8x64) -> u8x16
    ensures { result ≡ take 16 lanes }
{
    lanes.extract::<0, 16>()
}

/// A way to look up the symbols of values.
pub trait SymbolLookUp: Copy {
    // States that the look-up is for a table of symbols.
    ghost holds: { List ℕ → Self → Type 0 };

    /// Returns the symbols of `values`.
    fn symbols_of<G: GroupSize>(&self, symbols: &[u8; 256], values: u8x64) -> u8x64
        requires held { holds symbols.now self.now }
        requires below { AllByRecursion (λ value. value < 2 ^ G.WIDTH) values }
        ensures { result ≡ map (slice_index symbols.now) values };
}

/// Looks symbols up in the rows of the table.
#[derive(Clone, Copy, Drop)]
pub struct SymbolRows;

impl SymbolLookUp for SymbolRows {
    ghost holds = { λ symbols rows. Unit {0} };

    #[inline(always)]
    fn symbols_of<G: GroupSize>(&self, symbols: &[u8; 256], values: u8x64) -> u8x64 {
        look_up::<G>(symbols, values)
    }
}

impl SymbolLookUp for OffsetAlphabet {
    ghost holds = { λ symbols alphabet. HoldsOffsetAlphabet symbols alphabet };

    // Only values of six bits have offsets.
    #[inline(always)]
    fn symbols_of<G: GroupSize>(&self, symbols: &[u8; 256], values: u8x64) -> u8x64 {
        if G::WIDTH == 6 {
            return offset_symbols_64(self, values);
        }
        look_up::<G>(symbols, values)
    }
}

/// Writes the text of the first eight groups. May load up to eight bytes after them.
#[inline(always)]
pub fn encode_eight<S: SymbolLookUp, G: GroupSize>(
    look_up: &S,
    symbols: &[u8; 256],
    order: BitOrder,
    input: &[u8],
    output: &mut [u8],
)
    requires held { S.holds symbols.now look_up.now }
    requires bytes { 10 * G.BYTES ≤ length input.now + 2 }
    requires exact { length output.old ≡ 8 * G.SYMBOLS }
    ensures { IsTextBy symbols.now G.WIDTH order (take (8 * G.BYTES) input.now) output.new }
{
    let values = digits_of_eight::<G>(order, input);
    store::<G>(look_up.symbols_of::<G>(symbols, values), output);
}

/// Writes the text of data of at most sixteen symbols.
#[inline(always)]
pub fn encode_sixteen<S: SymbolLookUp, G: GroupSize>(
    look_up: &S,
    symbols: &[u8; 256],
    order: BitOrder,
    input: &[u8],
    output: &mut [u8],
)
    requires held { S.holds symbols.now look_up.now }
    requires few { 8 * length input.now ≤ 16 * G.WIDTH }
    requires exact { length output.old ≡ (8 * length input.now + (G.WIDTH - 1)) / G.WIDTH }
    ensures { IsTextBy symbols.now G.WIDTH order input.now output.new }
{
    if input.is_empty() {
        return;
    }
    let bytes = load_padded(input).to_array();
    let values = digits_of_sixteen::<G>(order, &bytes);
    let text = first_sixteen(look_up.symbols_of::<G>(symbols, values)).to_array();
    store_front(&text, output.len(), output);
}

/// Returns the first sixteen digits of the groups, one after another, and others after them.
#[inline(always)]
fn digits_of_sixteen<G: GroupSize>(order: BitOrder, input: &[u8]) -> u8x64
    requires bytes { 16 ≤ length input.now }
    ensures digits { take 16 result
        ≡ flat_map (digits_of order G.WIDTH G.SYMBOLS)
        (group_words order G.BYTES (16 / G.SYMBOLS) input.now) }
    ensures below { AllByRecursion (λ digit. digit < 2 ^ G.WIDTH) result }
{
    let width = G::WIDTH;
    if width == 3 {
        return octal_digits_of_four(order, input);
    }
    if width == 5 {
        return digits_of_two(order, input);
    }
    if width == 6 {
        return digits_of_four(order, input);
    }
    if width == 1 {
        return one_bit_digits(order, input);
    }
    if width == 2 {
        return two_bit_digits(order, input);
    }
    four_bit_digits(order, input)
}
