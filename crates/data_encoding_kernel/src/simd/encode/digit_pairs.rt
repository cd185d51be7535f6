//! The digits of groups of symbols of five or six bits, the most significant bit first.
//!
//! Each lane of sixteen bits has the two digits of a pair. Two multiplications move them to a byte
//! each.

ghost use Rattle.std.specs.Prelude.{◌≡◌, ◌≤◌, ◌++◌, length, flat_map};
ghost use Rattle.data_encoding_meaning.specs.declared.encoding.BitOrder.TheVariants.{MostSignificantFirst};
ghost use Rattle.data_encoding_kernel.specs.Lanes.{group_words, digits_of};
ghost use Rattle.data_encoding_kernel.specs.DigitPairs.{split_lanes};

use std::simd::prelude::*;

/// The index of the byte for each byte of a lane of 16 bits, the lower first.
///
/// The two digits of a pair are in two consecutive bytes.
const SIX_BIT_PAIRS: [u8; 32] = [
    1, 0, 2, 1, 4, 3, 5, 4, 7, 6, 8, 7, 10, 9, 11, 10, 1, 0, 2, 1, 4, 3, 5, 4, 7, 6, 8, 7, 10, 9,
    11, 10,
];

/// Like `SIX_BIT_PAIRS`, for digits of five bits.
const FIVE_BIT_PAIRS: [u8; 32] = [
    1, 0, 2, 1, 3, 2, 4, 3, 6, 5, 7, 6, 8, 7, 9, 8, 1, 0, 2, 1, 3, 2, 4, 3, 6, 5, 7, 6, 8, 7, 9, 8,
];

/// The indexes from 0 to 31.
const FIRST_32: [usize; 32] = [
    0, 1, 2, 3, 4, 5, 6, 7, 8, 9, 10, 11, 12, 13, 14, 15, 16, 17, 18, 19, 20, 21, 22, 23, 24, 25,
    26, 27, 28, 29, 30, 31,
];

/// The indexes from 0 to 63.
const FIRST_64: [usize; 64] = [
    0, 1, 2, 3, 4, 5, 6, 7, 8, 9, 10, 11, 12, 13, 14, 15, 16, 17, 18, 19, 20, 21, 22, 23, 24, 25,
    26, 27, 28, 29, 30, 31, 32, 33, 34, 35, 36, 37, 38, 39, 40, 41, 42, 43, 44, 45, 46, 47, 48, 49,
    50, 51, 52, 53, 54, 55, 56, 57, 58, 59, 60, 61, 62, 63,
];

/// The masks and factors that move the two digits of each lane to a byte each.
struct Split {
    /// The bits of the first digit.
    masks: [u16; 16],

    /// The factors that move the first digit up, to bit 16 and the next ones.
    downs: [u16; 16],

    /// The factors that move the second digit to the higher byte.
    ups: [u16; 16],

    /// The bits of the second digit in the higher byte.
    kept: [u16; 16],
}

/// The split of digits of six bits.
// Each factor has one more bit, which changes no digit. A product with powers of two is compiled to
// several shifts and choices.
const SIX_BIT_SPLIT: Split = Split {
    masks: [
        0xfc00, 0x0fc0, 0xfc00, 0x0fc0, 0xfc00, 0x0fc0, 0xfc00, 0x0fc0, 0xfc00, 0x0fc0, 0xfc00,
        0x0fc0, 0xfc00, 0x0fc0, 0xfc00, 0x0fc0,
    ],
    downs: [
        0x0041, 0x0401, 0x0041, 0x0401, 0x0041, 0x0401, 0x0041, 0x0401, 0x0041, 0x0401, 0x0041,
        0x0401, 0x0041, 0x0401, 0x0041, 0x0401,
    ],
    ups: [
        0x8010, 0x8100, 0x8010, 0x8100, 0x8010, 0x8100, 0x8010, 0x8100, 0x8010, 0x8100, 0x8010,
        0x8100, 0x8010, 0x8100, 0x8010, 0x8100,
    ],
    kept: [0x3f00; 16],
};

/// The split of digits of five bits.
const FIVE_BIT_SPLIT: Split = Split {
    masks: [
        0xf800, 0x3e00, 0x0f80, 0x03e0, 0xf800, 0x3e00, 0x0f80, 0x03e0, 0xf800, 0x3e00, 0x0f80,
        0x03e0, 0xf800, 0x3e00, 0x0f80, 0x03e0,
    ],
    downs: [
        0x0021, 0x0081, 0x0201, 0x0801, 0x0021, 0x0081, 0x0201, 0x0801, 0x0021, 0x0081, 0x0201,
        0x0801, 0x0021, 0x0081, 0x0201, 0x0801,
    ],
    ups: [
        0x8004, 0x8010, 0x8040, 0x8100, 0x8004, 0x8010, 0x8040, 0x8100, 0x8004, 0x8010, 0x8040,
        0x8100, 0x8004, 0x8010, 0x8040, 0x8100,
    ],
    kept: [0x1f00; 16],
};

/// Returns the two digits of each lane, in a byte each.
#[inline(always)]
fn split_pairs(by: &Split, lanes: u16x16) -> u16x16
    ensures { result ≡ split_lanes by.now.masks by.now.downs by.now.ups by.now.kept lanes }
{
    let first = lanes & u16x16::from_array(by.masks);
    let lifted = first.cast::<u32>() * u16x16::from_array(by.downs).cast::<u32>();
    let second = lanes * u16x16::from_array(by.ups);
    (lifted >> u32x16::splat(16)).cast::<u16>() | (second & u16x16::from_array(by.kept))
}

/// Returns the six-bit digits of the first four groups of each input, one after another. Loads four
/// bytes after them, too.
// The loads are joined before the products: otherwise the compiler takes products of wide vectors
// apart.
#[inline(always)]
pub fn six_bit_digits_of_fours(first: &[u8], second: &[u8]) -> u8x32
    requires first { 16 ≤ length first.now }
    requires second { 16 ≤ length second.now }
    ensures { result ≡ flat_map (digits_of MostSignificantFirst 6 4)
        (group_words MostSignificantFirst 3 4 first.now
        ++ group_words MostSignificantFirst 3 4 second.now) }
{
    let bytes = u8x16::from_slice(first).shuffle::<32>(u8x16::from_slice(second), FIRST_32);
    let pairs = bytes.swizzle_dyn_within::<16>(u8x32::from_array(SIX_BIT_PAIRS));
    split_pairs(&SIX_BIT_SPLIT, u16x16::from_le_bytes(pairs)).to_le_bytes()
}

/// Returns the five-bit digits of the first two groups of each input, one after another. Loads six
/// bytes after them, too.
#[inline(always)]
pub fn five_bit_digits_of_twos(first: &[u8], second: &[u8]) -> u8x32
    requires first { 16 ≤ length first.now }
    requires second { 16 ≤ length second.now }
    ensures { result ≡ flat_map (digits_of MostSignificantFirst 5 8)
        (group_words MostSignificantFirst 5 2 first.now
        ++ group_words MostSignificantFirst 5 2 second.now) }
{
    let bytes = u8x16::from_slice(first).shuffle::<32>(u8x16::from_slice(second), FIRST_32);
    let pairs = bytes.swizzle_dyn_within::<16>(u8x32::from_array(FIVE_BIT_PAIRS));
    split_pairs(&FIVE_BIT_SPLIT, u16x16::from_le_bytes(pairs)).to_le_bytes()
}

/// Returns the five-bit digits of the first eight groups, one after another. Loads six bytes after
/// them, too.
#[inline(always)]
pub fn five_bit_digits_of_eight(input: &[u8]) -> u8x64
    requires { 46 ≤ length input.now }
    ensures { result ≡ flat_map (digits_of MostSignificantFirst 5 8)
        (group_words MostSignificantFirst 5 8 input.now) }
{
    let low = five_bit_digits_of_twos(input, &input[10..]);
    let high = five_bit_digits_of_twos(&input[20..], &input[30..]);
    low.shuffle::<64>(high, FIRST_64)
}
