//! The digits of several groups of bytes, in lanes.

ghost use Rattle.std.specs.Prelude.{◌≡◌, ℕ, ◌+◌, ◌*◌, ◌^◌, ◌<◌, ◌≤◌, List, ◌++◌, length, map, take, flat_map};
ghost use Rattle.std.specs.List.{AllByRecursion};
ghost use Rattle.data_encoding_kernel.specs.Lanes.{group_words, digits_of, spread_word, halved_lane};

use crate::group_size::GroupSize;
use crate::simd::encode::digit_pairs::{
    five_bit_digits_of_eight, five_bit_digits_of_twos, six_bit_digits_of_fours,
};
use crate::simd::encode::groups::{eight_fives, eight_ones, eight_threes, four_threes, two_fives};
use data_encoding_meaning::encoding::BitOrder;
use std::simd::prelude::*;

/// The index of the digit for each lane. The eight digits of a word are reversed.
const EIGHTS_FROM_LAST: [usize; 64] = [
    7, 6, 5, 4, 3, 2, 1, 0, 15, 14, 13, 12, 11, 10, 9, 8, 23, 22, 21, 20, 19, 18, 17, 16, 31, 30,
    29, 28, 27, 26, 25, 24, 39, 38, 37, 36, 35, 34, 33, 32, 47, 46, 45, 44, 43, 42, 41, 40, 55, 54,
    53, 52, 51, 50, 49, 48, 63, 62, 61, 60, 59, 58, 57, 56,
];

/// The index of the digit for each lane. The four digits of a word are reversed. All are repeated.
const FOURS_FROM_LAST: [usize; 64] = [
    3, 2, 1, 0, 7, 6, 5, 4, 11, 10, 9, 8, 15, 14, 13, 12, 19, 18, 17, 16, 23, 22, 21, 20, 27, 26,
    25, 24, 31, 30, 29, 28, 3, 2, 1, 0, 7, 6, 5, 4, 11, 10, 9, 8, 15, 14, 13, 12, 19, 18, 17, 16,
    23, 22, 21, 20, 27, 26, 25, 24, 31, 30, 29, 28,
];

/// The first 32 indexes, twice.
const FOURS_FROM_FIRST: [usize; 64] = [
    0, 1, 2, 3, 4, 5, 6, 7, 8, 9, 10, 11, 12, 13, 14, 15, 16, 17, 18, 19, 20, 21, 22, 23, 24, 25,
    26, 27, 28, 29, 30, 31, 0, 1, 2, 3, 4, 5, 6, 7, 8, 9, 10, 11, 12, 13, 14, 15, 16, 17, 18, 19,
    20, 21, 22, 23, 24, 25, 26, 27, 28, 29, 30, 31,
];

/// The index of the digit for each lane. The two digits of a word are reversed. All are repeated.
const TWOS_FROM_LAST: [usize; 64] = [
    1, 0, 3, 2, 5, 4, 7, 6, 9, 8, 11, 10, 13, 12, 15, 14, 1, 0, 3, 2, 5, 4, 7, 6, 9, 8, 11, 10, 13,
    12, 15, 14, 1, 0, 3, 2, 5, 4, 7, 6, 9, 8, 11, 10, 13, 12, 15, 14, 1, 0, 3, 2, 5, 4, 7, 6, 9, 8,
    11, 10, 13, 12, 15, 14,
];

/// The first 16 indexes, four times.
const TWOS_FROM_FIRST: [usize; 64] = [
    0, 1, 2, 3, 4, 5, 6, 7, 8, 9, 10, 11, 12, 13, 14, 15, 0, 1, 2, 3, 4, 5, 6, 7, 8, 9, 10, 11, 12,
    13, 14, 15, 0, 1, 2, 3, 4, 5, 6, 7, 8, 9, 10, 11, 12, 13, 14, 15, 0, 1, 2, 3, 4, 5, 6, 7, 8, 9,
    10, 11, 12, 13, 14, 15,
];

/// Returns the bits of each lane under the mask `LOW`, and its bits under `HIGH` moved up by `UP`.
#[inline(always)]
fn halved_wide<const LOW: u64, const HIGH: u64, const UP: u64>(lanes: u64x8) -> u64x8
    requires { UP < 64 }
    ensures { result ≡ map (halved_lane 64 LOW HIGH UP) lanes }
{
    (lanes & u64x8::splat(LOW)) | ((lanes & u64x8::splat(HIGH)) << u64x8::splat(UP))
}

/// Like [`halved_wide`], for lanes of 32 bits.
#[inline(always)]
fn halved<const LOW: u32, const HIGH: u32, const UP: u32>(lanes: u32x8) -> u32x8
    requires { UP < 32 }
    ensures { result ≡ map (halved_lane 32 LOW HIGH UP) lanes }
{
    (lanes & u32x8::splat(LOW)) | ((lanes & u32x8::splat(HIGH)) << u32x8::splat(UP))
}

/// Like [`halved_wide`], for lanes of 16 bits.
#[inline(always)]
fn halved_narrow<const LOW: u16, const HIGH: u16, const UP: u16>(lanes: u16x8) -> u16x8
    requires { UP < 16 }
    ensures { result ≡ map (halved_lane 16 LOW HIGH UP) lanes }
{
    (lanes & u16x8::splat(LOW)) | ((lanes & u16x8::splat(HIGH)) << u16x8::splat(UP))
}

/// Returns the eight one-bit digits of each word, in a byte each.
#[inline(always)]
fn spread_one_bit(words: u64x8) -> u64x8
    requires { AllByRecursion (λ word. word < 2 ^ 8) words }
    ensures { result ≡ map (spread_word 1 8) words }
{
    let fours = halved_wide::<0xf, 0xf0, 28>(words);
    let twos = halved_wide::<0x3_0000_0003, 0xc_0000_000c, 14>(fours);
    halved_wide::<0x1_0001_0001_0001, 0x2_0002_0002_0002, 7>(twos)
}

/// Returns the four two-bit digits of each word, in a byte each.
#[inline(always)]
fn spread_two_bits(words: u32x8) -> u32x8
    requires { AllByRecursion (λ word. word < 2 ^ 8) words }
    ensures { result ≡ map (spread_word 2 4) words }
{
    let twos = halved::<0xf, 0xf0, 12>(words);
    halved::<0x3_0003, 0xc_000c, 6>(twos)
}

/// Returns the eight three-bit digits of each word, in a byte each.
#[inline(always)]
fn spread_three_bits(words: u64x8) -> u64x8
    requires { AllByRecursion (λ word. word < 2 ^ 24) words }
    ensures { result ≡ map (spread_word 3 8) words }
{
    let fours = halved_wide::<0xfff, 0xff_f000, 20>(words);
    let twos = halved_wide::<0x3f_0000_003f, 0xfc0_0000_0fc0, 10>(fours);
    halved_wide::<0x7_0007_0007_0007, 0x38_0038_0038_0038, 5>(twos)
}

/// Returns the two four-bit digits of each word, in a byte each.
#[inline(always)]
fn spread_four_bits(words: u16x8) -> u16x8
    requires { AllByRecursion (λ word. word < 2 ^ 8) words }
    ensures { result ≡ map (spread_word 4 2) words }
{
    halved_narrow::<0xf, 0xf0, 4>(words)
}

/// Returns the eight five-bit digits of each word, in a byte each.
#[inline(always)]
fn spread_five_bits(words: u64x8) -> u64x8
    requires { AllByRecursion (λ word. word < 2 ^ 40) words }
    ensures { result ≡ map (spread_word 5 8) words }
{
    let fours = halved_wide::<0xf_ffff, 0xff_fff0_0000, 12>(words);
    let twos = halved_wide::<0x3ff_0000_03ff, 0xf_fc00_000f_fc00, 6>(fours);
    halved_wide::<0x1f_001f_001f_001f, 0x3e0_03e0_03e0_03e0, 3>(twos)
}

/// Returns the four six-bit digits of each word, in a byte each.
#[inline(always)]
fn spread_six_bits(words: u32x8) -> u32x8
    requires { AllByRecursion (λ word. word < 2 ^ 24) words }
    ensures { result ≡ map (spread_word 6 4) words }
{
    let twos = halved::<0xfff, 0xff_f000, 4>(words);
    halved::<0x3f_003f, 0xfc0_0fc0, 2>(twos)
}

/// Returns the digits of the words, one after another.
#[inline(always)]
fn join_eights(order: BitOrder, lanes: u64x8) -> u8x64
    ensures { (width : ℕ) (words : List ℕ) → width ≤ 8 → lanes ≡ map (spread_word width 8) words
        → result ≡ flat_map (digits_of order width 8) words }
{
    match order {
        BitOrder::MostSignificantFirst => lanes.to_le_bytes().swizzle::<64>(EIGHTS_FROM_LAST),
        BitOrder::LeastSignificantFirst => lanes.to_le_bytes(),
    }
}

/// Returns the digits of the words, one after another, twice.
#[inline(always)]
fn join_fours(order: BitOrder, lanes: u32x8) -> u8x64
    ensures { (width : ℕ) (words : List ℕ) → width ≤ 8 → lanes ≡ map (spread_word width 4) words
        → result ≡ flat_map (digits_of order width 4) (words ++ words) }
{
    match order {
        BitOrder::MostSignificantFirst => lanes.to_le_bytes().swizzle::<64>(FOURS_FROM_LAST),
        BitOrder::LeastSignificantFirst => lanes.to_le_bytes().swizzle::<64>(FOURS_FROM_FIRST),
    }
}

/// Returns the digits of the words, one after another, four times.
#[inline(always)]
fn join_twos(order: BitOrder, lanes: u16x8) -> u8x64
    ensures { (width : ℕ) (words : List ℕ) → width ≤ 8 → lanes ≡ map (spread_word width 2) words
        → result ≡ flat_map (digits_of order width 2) (words ++ words ++ words ++ words) }
{
    match order {
        BitOrder::MostSignificantFirst => lanes.to_le_bytes().swizzle::<64>(TWOS_FROM_LAST),
        BitOrder::LeastSignificantFirst => lanes.to_le_bytes().swizzle::<64>(TWOS_FROM_FIRST),
    }
}

/// Returns the one-bit digits of the first eight groups, one after another.
#[inline(always)]
pub fn one_bit_digits(order: BitOrder, input: &[u8]) -> u8x64
    requires { 8 ≤ length input.now }
    ensures digits { take 64 result
        ≡ flat_map (digits_of order 1 8) (group_words order 1 8 input.now) }
    ensures below { AllByRecursion (λ digit. digit < 2 ^ 1) result }
{
    join_eights(order, spread_one_bit(eight_ones(input).cast::<u64>()))
}

/// Returns the two-bit digits of the first eight groups, one after another.
#[inline(always)]
pub fn two_bit_digits(order: BitOrder, input: &[u8]) -> u8x64
    requires { 8 ≤ length input.now }
    ensures digits { take 32 result
        ≡ flat_map (digits_of order 2 4) (group_words order 1 8 input.now) }
    ensures below { AllByRecursion (λ digit. digit < 2 ^ 2) result }
{
    join_fours(order, spread_two_bits(eight_ones(input).cast::<u32>()))
}

/// Returns the three-bit digits of the first eight groups, one after another.
#[inline(always)]
fn three_bit_digits(order: BitOrder, input: &[u8]) -> u8x64
    requires { 28 ≤ length input.now }
    ensures digits { take 64 result
        ≡ flat_map (digits_of order 3 8) (group_words order 3 8 input.now) }
    ensures below { AllByRecursion (λ digit. digit < 2 ^ 3) result }
{
    join_eights(
        order,
        spread_three_bits(eight_threes(order, input).cast::<u64>()),
    )
}

/// Returns the four-bit digits of the first eight groups, one after another.
#[inline(always)]
pub fn four_bit_digits(order: BitOrder, input: &[u8]) -> u8x64
    requires { 8 ≤ length input.now }
    ensures digits { take 16 result
        ≡ flat_map (digits_of order 4 2) (group_words order 1 8 input.now) }
    ensures below { AllByRecursion (λ digit. digit < 2 ^ 4) result }
{
    join_twos(order, spread_four_bits(eight_ones(input).cast::<u16>()))
}

/// Returns the five-bit digits of the first eight groups, one after another.
#[inline(always)]
fn five_bit_digits(order: BitOrder, input: &[u8]) -> u8x64
    requires { 46 ≤ length input.now }
    ensures digits { take 64 result
        ≡ flat_map (digits_of order 5 8) (group_words order 5 8 input.now) }
    ensures below { AllByRecursion (λ digit. digit < 2 ^ 5) result }
{
    match order {
        BitOrder::MostSignificantFirst => five_bit_digits_of_eight(input),
        BitOrder::LeastSignificantFirst => {
            join_eights(order, spread_five_bits(eight_fives(order, input)))
        }
    }
}

/// Returns the six-bit digits of the first eight groups, one after another.
#[inline(always)]
fn six_bit_digits(order: BitOrder, input: &[u8]) -> u8x64
    requires { 28 ≤ length input.now }
    ensures digits { take 32 result
        ≡ flat_map (digits_of order 6 4) (group_words order 3 8 input.now) }
    ensures below { AllByRecursion (λ digit. digit < 2 ^ 6) result }
{
    match order {
        BitOrder::MostSignificantFirst => {
            six_bit_digits_of_fours(input, &input[12..]).swizzle::<64>(FOURS_FROM_FIRST)
        }
        BitOrder::LeastSignificantFirst => {
            join_fours(order, spread_six_bits(eight_threes(order, input)))
        }
    }
}

/// Returns the digits of the first eight groups, one after another. May load up to six bytes after
/// them.
#[inline(always)]
pub fn digits_of_eight<G: GroupSize>(order: BitOrder, input: &[u8]) -> u8x64
    requires bytes { 10 * G.BYTES ≤ length input.now + 2 }
    ensures digits { take (8 * G.SYMBOLS) result
        ≡ flat_map (digits_of order G.WIDTH G.SYMBOLS)
        (group_words order G.BYTES 8 input.now) }
    ensures below { AllByRecursion (λ digit. digit < 2 ^ G.WIDTH) result }
{
    let width = G::WIDTH;
    if width == 1 {
        return one_bit_digits(order, input);
    }
    if width == 2 {
        return two_bit_digits(order, input);
    }
    if width == 3 {
        return three_bit_digits(order, input);
    }
    if width == 4 {
        return four_bit_digits(order, input);
    }
    if width == 5 {
        return five_bit_digits(order, input);
    }
    six_bit_digits(order, input)
}

/// Returns the six-bit digits of the first four groups, one after another, repeated. Loads four
/// bytes after them, too.
// The result is as wide as for eight groups, so that the next steps serve both. The compiler drops
// unused lanes.
#[inline(always)]
pub fn digits_of_four(order: BitOrder, input: &[u8]) -> u8x64
    requires { 16 ≤ length input.now }
    ensures digits { take 16 result
        ≡ flat_map (digits_of order 6 4) (group_words order 3 4 input.now) }
    ensures below { AllByRecursion (λ digit. digit < 2 ^ 6) result }
{
    match order {
        BitOrder::MostSignificantFirst => {
            six_bit_digits_of_fours(input, input).swizzle::<64>(FOURS_FROM_FIRST)
        }
        BitOrder::LeastSignificantFirst => {
            let words = four_threes(order, input).swizzle::<8>([0, 1, 2, 3, 0, 1, 2, 3]);
            join_fours(order, spread_six_bits(words))
        }
    }
}

/// Returns the three-bit digits of the first four groups, one after another, twice. Loads four
/// bytes after them, too.
#[inline(always)]
pub fn octal_digits_of_four(order: BitOrder, input: &[u8]) -> u8x64
    requires { 16 ≤ length input.now }
    ensures digits { take 32 result
        ≡ flat_map (digits_of order 3 8) (group_words order 3 4 input.now) }
    ensures below { AllByRecursion (λ digit. digit < 2 ^ 3) result }
{
    let words = four_threes(order, input).swizzle::<8>([0, 1, 2, 3, 0, 1, 2, 3]);
    join_eights(order, spread_three_bits(words.cast::<u64>()))
}

/// Returns the five-bit digits of the first two groups, one after another, repeated. Loads six
/// bytes after them, too.
#[inline(always)]
pub fn digits_of_two(order: BitOrder, input: &[u8]) -> u8x64
    requires { 16 ≤ length input.now }
    ensures digits { take 16 result
        ≡ flat_map (digits_of order 5 8) (group_words order 5 2 input.now) }
    ensures below { AllByRecursion (λ digit. digit < 2 ^ 5) result }
{
    match order {
        BitOrder::MostSignificantFirst => {
            five_bit_digits_of_twos(input, input).swizzle::<64>(FOURS_FROM_FIRST)
        }
        BitOrder::LeastSignificantFirst => {
            let words = two_fives(order, input).swizzle::<8>([0, 1, 0, 1, 0, 1, 0, 1]);
            join_eights(order, spread_five_bits(words))
        }
    }
}
