//! The words of several groups of bytes, with a lane for each group.

ghost use Rattle.std.specs.Prelude.{◌≡◌, ◌≤◌, length};
ghost use Rattle.data_encoding_kernel.specs.Lanes.{group_words};
ghost use Rattle.data_encoding_meaning.specs.declared.encoding.BitOrder.{BitOrder};
ghost use Rattle.data_encoding_meaning.specs.declared.encoding.BitOrder.TheVariants.{MostSignificantFirst, LeastSignificantFirst};

use data_encoding_meaning::encoding::BitOrder;
use std::simd::prelude::*;

/// The index of the byte for each byte of a lane of 32 bits, the lowest first. 128 gives a zero.
const THREES_FROM_LAST: [u8; 16] = [2, 1, 0, 128, 5, 4, 3, 128, 8, 7, 6, 128, 11, 10, 9, 128];

/// Like `THREES_FROM_LAST`, without reversal.
const THREES_FROM_FIRST: [u8; 16] = [0, 1, 2, 128, 3, 4, 5, 128, 6, 7, 8, 128, 9, 10, 11, 128];

/// The index of the byte for each byte of a lane of 64 bits, the lowest first. 128 gives a zero.
const FIVES_FROM_LAST: [u8; 16] = [4, 3, 2, 1, 0, 128, 128, 128, 9, 8, 7, 6, 5, 128, 128, 128];

/// Like `FIVES_FROM_LAST`, without reversal.
const FIVES_FROM_FIRST: [u8; 16] = [0, 1, 2, 3, 4, 128, 128, 128, 5, 6, 7, 8, 9, 128, 128, 128];

/// Returns the words of the first eight groups of one byte.
#[inline(always)]
pub fn eight_ones(input: &[u8]) -> u8x8
    requires { 8 ≤ length input.now }
    ensures { (order : BitOrder) → result ≡ group_words order 1 8 input.now }
{
    u8x8::from_slice(input)
}

/// Returns the words of the first four groups of three bytes, the first byte as the highest.
#[inline(always)]
fn big_endian_threes(input: &[u8]) -> u32x4
    requires { 16 ≤ length input.now }
    ensures { result ≡ group_words MostSignificantFirst 3 4 input.now }
{
    let bytes = u8x16::from_slice(input);
    u32x4::from_le_bytes(bytes.swizzle_dyn(u8x16::from_array(THREES_FROM_LAST)))
}

/// Returns the words of the first four groups of three bytes, the first byte as the lowest.
#[inline(always)]
fn little_endian_threes(input: &[u8]) -> u32x4
    requires { 16 ≤ length input.now }
    ensures { result ≡ group_words LeastSignificantFirst 3 4 input.now }
{
    let bytes = u8x16::from_slice(input);
    u32x4::from_le_bytes(bytes.swizzle_dyn(u8x16::from_array(THREES_FROM_FIRST)))
}

/// Returns the words of the first four groups of three bytes. Loads four bytes after the last, too.
#[inline(always)]
pub fn four_threes(order: BitOrder, input: &[u8]) -> u32x4
    requires { 16 ≤ length input.now }
    ensures { result ≡ group_words order 3 4 input.now }
{
    match order {
        BitOrder::MostSignificantFirst => big_endian_threes(input),
        BitOrder::LeastSignificantFirst => little_endian_threes(input),
    }
}

/// Returns the words of the first eight groups of three bytes. Loads four bytes after the last,
/// too.
#[inline(always)]
pub fn eight_threes(order: BitOrder, input: &[u8]) -> u32x8
    requires { 28 ≤ length input.now }
    ensures { result ≡ group_words order 3 8 input.now }
{
    let low = four_threes(order, input);
    let high = four_threes(order, &input[12..]);
    low.shuffle::<8>(high, [0, 1, 2, 3, 4, 5, 6, 7])
}

/// Returns the words of the first two groups of five bytes, the first byte as the highest.
#[inline(always)]
fn big_endian_fives(input: &[u8]) -> u64x2
    requires { 16 ≤ length input.now }
    ensures { result ≡ group_words MostSignificantFirst 5 2 input.now }
{
    let bytes = u8x16::from_slice(input);
    u64x2::from_le_bytes(bytes.swizzle_dyn(u8x16::from_array(FIVES_FROM_LAST)))
}

/// Returns the words of the first two groups of five bytes, the first byte as the lowest.
#[inline(always)]
fn little_endian_fives(input: &[u8]) -> u64x2
    requires { 16 ≤ length input.now }
    ensures { result ≡ group_words LeastSignificantFirst 5 2 input.now }
{
    let bytes = u8x16::from_slice(input);
    u64x2::from_le_bytes(bytes.swizzle_dyn(u8x16::from_array(FIVES_FROM_FIRST)))
}

/// Returns the words of the first two groups of five bytes. Loads six bytes after the last, too.
#[inline(always)]
pub fn two_fives(order: BitOrder, input: &[u8]) -> u64x2
    requires { 16 ≤ length input.now }
    ensures { result ≡ group_words order 5 2 input.now }
{
    match order {
        BitOrder::MostSignificantFirst => big_endian_fives(input),
        BitOrder::LeastSignificantFirst => little_endian_fives(input),
    }
}

/// Returns the words of the first eight groups of five bytes. Loads six bytes after the last, too.
#[inline(always)]
pub fn eight_fives(order: BitOrder, input: &[u8]) -> u64x8
    requires { 46 ≤ length input.now }
    ensures { result ≡ group_words order 5 8 input.now }
{
    let first = two_fives(order, input);
    let second = two_fives(order, &input[10..]);
    let third = two_fives(order, &input[20..]);
    let fourth = two_fives(order, &input[30..]);
    let low = first.shuffle::<4>(second, [0, 1, 2, 3]);
    let high = third.shuffle::<4>(fourth, [0, 1, 2, 3]);
    low.shuffle::<8>(high, [0, 1, 2, 3, 4, 5, 6, 7])
}
