//! Decoding of eight groups of symbols, with a lane for each group.

ghost use Rattle.std.specs.Prelude.{◌≡◌, ℕ, ◌+◌, ◌-◌, ◌*◌, ◌/◌, ◌%◌, ◌^◌, ◌<◌, ◌≤◌, List, length, map, take, slice_index, flat_map};
ghost use Rattle.std.specs.List.{AllByRecursion, range_with_len};
ghost use Rattle.std.specs.Simd.{first_chunks};
ghost use Rattle.data_encoding_kernel.specs.Runs.{IsRunBy};
ghost use Rattle.data_encoding_kernel.specs.Values.{AreValues, joined};
ghost use Rattle.data_encoding_kernel.specs.Words.{digit, word_of};

pub mod affine;
pub mod last_symbols;
pub mod look_up;
pub mod table_rows;

use crate::group_size::GroupSize;
use crate::simd::compare::count_below;
use crate::simd::decode::look_up::LookUp;
use crate::words::weight_at;
use data_encoding_meaning::encoding::BitOrder;
use std::simd::prelude::*;

/// Returns the two halves of each lane, each a digit of `size` bits, as one number.
#[inline(always)]
fn halves_16<const N: usize>(order: BitOrder, size: usize, lanes: Simd<u16, N>) -> Simd<u16, N>
    requires { size ≤ 8 }
    ensures { result ≡ map (joined order 8 size) lanes.entry }
{
    let low = lanes & Simd::<u16, N>::splat(0xff);
    let high = lanes >> Simd::<u16, N>::splat(8);
    let low_weight = weight_at(order, size, 2, 0) as u16;
    let high_weight = weight_at(order, size, 2, 1) as u16;
    (low << Simd::<u16, N>::splat(low_weight)) + (high << Simd::<u16, N>::splat(high_weight))
}

/// Like [`halves_16`], for lanes of 32 bits.
#[inline(always)]
fn halves_32<const N: usize>(order: BitOrder, size: usize, lanes: Simd<u32, N>) -> Simd<u32, N>
    requires { size ≤ 16 }
    ensures { result ≡ map (joined order 16 size) lanes.entry }
{
    let low = lanes & Simd::<u32, N>::splat(0xffff);
    let high = lanes >> Simd::<u32, N>::splat(16);
    let low_weight = weight_at(order, size, 2, 0) as u32;
    let high_weight = weight_at(order, size, 2, 1) as u32;
    (low << Simd::<u32, N>::splat(low_weight)) + (high << Simd::<u32, N>::splat(high_weight))
}

/// Like [`halves_16`], for lanes of 64 bits.
#[inline(always)]
fn halves_64<const N: usize>(order: BitOrder, size: usize, lanes: Simd<u64, N>) -> Simd<u64, N>
    requires { size ≤ 32 }
    ensures { result ≡ map (joined order 32 size) lanes.entry }
{
    let low = lanes & Simd::<u64, N>::splat(0xffff_ffff);
    let high = lanes >> Simd::<u64, N>::splat(32);
    let low_weight = weight_at(order, size, 2, 0) as u64;
    let high_weight = weight_at(order, size, 2, 1) as u64;
    (low << Simd::<u64, N>::splat(low_weight)) + (high << Simd::<u64, N>::splat(high_weight))
}

/// Returns the words of eight groups of two entries.
///
/// The words are right for the groups before the first entry that is not a value.
#[inline(always)]
fn words_of_two(order: BitOrder, width: usize, values: u8x16) -> u64x8
    requires { width ≤ 8 }
    ensures { (n : ℕ) → n ≤ 8
        → AllByRecursion (λ value. value < 2 ^ width) (take (n * 2) values)
        → take n result ≡ map (word_of order width 2) (first_chunks 2 n values) }
{
    halves_16(order, width, u16x8::from_le_bytes(values)).cast::<u64>()
}

/// Returns the words of eight groups of four entries, like [`words_of_two`].
#[inline(always)]
fn words_of_four(order: BitOrder, width: usize, values: u8x32) -> u64x8
    requires { width ≤ 8 }
    ensures { (n : ℕ) → n ≤ 8
        → AllByRecursion (λ value. value < 2 ^ width) (take (n * 4) values)
        → take n result ≡ map (word_of order width 4) (first_chunks 4 n values) }
{
    let pairs = halves_16(order, width, u16x16::from_le_bytes(values));
    let fours = u32x8::from_le_bytes(pairs.to_le_bytes());
    halves_32(order, 2 * width, fours).cast::<u64>()
}

/// Returns the words of eight groups of eight entries, like [`words_of_two`].
#[inline(always)]
fn words_of_eight(order: BitOrder, width: usize, values: u8x64) -> u64x8
    requires { width ≤ 8 }
    ensures { (n : ℕ) → n ≤ 8
        → AllByRecursion (λ value. value < 2 ^ width) (take (n * 8) values)
        → take n result ≡ map (word_of order width 8) (first_chunks 8 n values) }
{
    let pairs = halves_16(order, width, u16x32::from_le_bytes(values));
    let fours = halves_32(order, 2 * width, u32x16::from_le_bytes(pairs.to_le_bytes()));
    halves_64(order, 4 * width, u64x8::from_le_bytes(fours.to_le_bytes()))
}

/// Returns the words of eight groups, and the number of bytes before the first one that is not a
/// symbol.
///
/// The words are right for the whole groups before it. The comparison with 128 is the only test: an
/// entry below 128 is a value.
#[inline(always)]
fn words_of_groups<L: LookUp, G: GroupSize>(
    look_up: &L,
    order: BitOrder,
    input: &[u8],
) -> (u64x8, usize)
    requires symbols { length input.now ≡ 8 * G.SYMBOLS }
    ensures few { result.1 ≤ 8 * G.SYMBOLS }
    ensures words { (values : List ℕ) → L.holds values look_up.now → AreValues values G.WIDTH
        → take (result.1 / G.SYMBOLS) result.0 ≡ map (word_of order G.WIDTH G.SYMBOLS)
        (first_chunks G.SYMBOLS (result.1 / G.SYMBOLS) (map (slice_index values) input.now)) }
    ensures symbols { (values : List ℕ) → L.holds values look_up.now
        → (k : ℕ) → k < result.1 → slice_index values (slice_index input.now k) < 128 }
    ensures stop { (values : List ℕ) → L.holds values look_up.now → result.1 < 8 * G.SYMBOLS
        → 128 ≤ slice_index values (slice_index input.now result.1) }
{
    let width = G::WIDTH;
    match G::SYMBOLS {
        2 => {
            let entries = look_up.look_up_16(u8x16::from_slice(input));
            (
                words_of_two(order, width, entries),
                count_below(128, entries),
            )
        }
        4 => {
            let entries = look_up.look_up_32(u8x32::from_slice(input));
            (
                words_of_four(order, width, entries),
                count_below(128, entries),
            )
        }
        _ => {
            let entries = look_up.look_up_64(u8x64::from_slice(input));
            (
                words_of_eight(order, width, entries),
                count_below(128, entries),
            )
        }
    }
}

/// Returns the lowest `count` bits of each word.
#[inline(always)]
fn low_bits<const N: usize>(count: usize, words: Simd<u64, N>) -> Simd<u64, N>
    requires { count < 64 }
    ensures { result ≡ map (λ word. word % 2 ^ count) words.entry }
{
    words & Simd::<u64, N>::splat((1 << count) - 1)
}

/// Writes the lowest three bytes of each of eight words.
#[inline(always)]
fn store_three(order: BitOrder, words: u64x8, output: &mut [u8])
    requires exact { length output.old ≡ 24 }
    ensures { output.new
        ≡ flat_map (λ word. map (digit order 8 3 word) (range_with_len 0 3)) words }
{
    let bytes = low_bits(32, words).cast::<u32>().to_le_bytes();
    // Twelve bytes of each half, and four that are written over.
    let parts = match order {
        BitOrder::MostSignificantFirst => bytes.swizzle::<32>([
            2, 1, 0, 6, 5, 4, 10, 9, 8, 14, 13, 12, 0, 0, 0, 0, 18, 17, 16, 22, 21, 20, 26, 25, 24,
            30, 29, 28, 16, 16, 16, 16,
        ]),
        BitOrder::LeastSignificantFirst => bytes.swizzle::<32>([
            0, 1, 2, 4, 5, 6, 8, 9, 10, 12, 13, 14, 0, 0, 0, 0, 16, 17, 18, 20, 21, 22, 24, 25, 26,
            28, 29, 30, 16, 16, 16, 16,
        ]),
    };
    parts.extract::<0, 16>().copy_to_slice(output);
    parts.extract::<16, 8>().copy_to_slice(&mut output[12..]);
    // As a lane of 32 bits: the compiler would shuffle four bytes once more.
    let last = u32x8::from_le_bytes(parts).extract::<6, 1>();
    last.to_le_bytes().copy_to_slice(&mut output[20..]);
}

/// Writes the lowest five bytes of each of eight words.
#[inline(always)]
fn store_five(order: BitOrder, words: u64x8, output: &mut [u8])
    requires exact { length output.old ≡ 40 }
    ensures { output.new
        ≡ flat_map (λ word. map (digit order 8 5 word) (range_with_len 0 5)) words }
{
    let bytes = words.to_le_bytes();
    // Ten bytes of each quarter, and six that are written over.
    let parts = match order {
        BitOrder::MostSignificantFirst => bytes.swizzle::<64>([
            4, 3, 2, 1, 0, 12, 11, 10, 9, 8, 0, 0, 0, 0, 0, 0, 20, 19, 18, 17, 16, 28, 27, 26, 25,
            24, 16, 16, 16, 16, 16, 16, 36, 35, 34, 33, 32, 44, 43, 42, 41, 40, 32, 32, 32, 32, 32,
            32, 52, 51, 50, 49, 48, 60, 59, 58, 57, 56, 48, 48, 48, 48, 48, 48,
        ]),
        BitOrder::LeastSignificantFirst => bytes.swizzle::<64>([
            0, 1, 2, 3, 4, 8, 9, 10, 11, 12, 0, 0, 0, 0, 0, 0, 16, 17, 18, 19, 20, 24, 25, 26, 27,
            28, 16, 16, 16, 16, 16, 16, 32, 33, 34, 35, 36, 40, 41, 42, 43, 44, 32, 32, 32, 32, 32,
            32, 48, 49, 50, 51, 52, 56, 57, 58, 59, 60, 48, 48, 48, 48, 48, 48,
        ]),
    };
    parts.extract::<0, 16>().copy_to_slice(output);
    parts.extract::<16, 16>().copy_to_slice(&mut output[10..]);
    parts.extract::<32, 16>().copy_to_slice(&mut output[20..]);
    parts.extract::<48, 8>().copy_to_slice(&mut output[30..]);
    parts.extract::<56, 2>().copy_to_slice(&mut output[38..]);
}

/// Writes the lowest `G::BYTES` bytes of each of eight words.
#[inline(always)]
fn store<G: GroupSize>(order: BitOrder, words: u64x8, output: &mut [u8])
    requires exact { length output.old ≡ 8 * G.BYTES }
    ensures { output.new
        ≡ flat_map (λ word. map (digit order 8 G.BYTES word) (range_with_len 0 G.BYTES)) words }
{
    match G::BYTES {
        1 => low_bits(8, words).cast::<u8>().copy_to_slice(output),
        3 => store_three(order, words, output),
        _ => store_five(order, words, output),
    }
}

/// Decodes eight groups, and returns the number of bytes before the first that is not a symbol.
///
/// The output after the bytes of the whole groups before it is unspecified.
#[inline(always)]
pub fn decode_eight<L: LookUp, G: GroupSize>(
    look_up: &L,
    order: BitOrder,
    input: &[u8],
    output: &mut [u8],
) -> usize
    requires symbols { length input.now ≡ 8 * G.SYMBOLS }
    requires exact { length output.old ≡ 8 * G.BYTES }
    ensures few { result ≤ 8 * G.SYMBOLS }
    ensures run { (values : List ℕ) → L.holds values look_up.now
        → IsRunBy values G.WIDTH order input.now (result / G.SYMBOLS) output.old output.new }
    ensures stop { (values : List ℕ) → L.holds values look_up.now → result < 8 * G.SYMBOLS
        → 128 ≤ slice_index values (slice_index input.now result) }
{
    let (words, count) = words_of_groups::<L, G>(look_up, order, input);
    store::<G>(order, words, output);
    count
}
