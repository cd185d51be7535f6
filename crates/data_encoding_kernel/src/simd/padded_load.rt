//! Loads of up to sixteen bytes, followed by zeros.

ghost use Rattle.std.specs.Prelude.{◌≡◌, ◌-◌, ◌^◌, ◌<◌, ◌≤◌, ◌++◌, length, replicate};
ghost use Rattle.std.specs.Simd.Lanes.{number_l};

use std::simd::prelude::*;

/// Returns the bytes of `input`, followed by zeros.
// Loads that overlap keep the bytes in registers. A load from a copy would wait for its stores.
#[inline(always)]
pub fn load_padded(input: &[u8]) -> u8x16
    requires few { length input.now ≤ 16 }
    ensures { result ≡ input.now ++ replicate (16 - length input.now) 0 }
{
    let len = input.len();
    if len <= 8 {
        return u64x2::from_array([number_of_few(input), 0]).to_le_bytes();
    }
    let low = number_of_eight(&input[..8]);
    let high = number_of_eight(&input[len - 8..]) >> (8 * (16 - len));
    u64x2::from_array([low, high]).to_le_bytes()
}

/// Returns up to eight bytes as a number, the first byte the lowest.
#[inline(always)]
fn number_of_few(input: &[u8]) -> u64
    requires few { length input.now ≤ 8 }
    ensures number { result ≡ number_l 256 input.now }
{
    let len = input.len();
    if len < 4 {
        return number_of_three(input);
    }
    let low = number_of_four(&input[..4]);
    let high = number_of_four(&input[len - 4..]) >> (8 * (8 - len));
    low + (high << 32)
}

/// Returns up to three bytes as a number, the first byte the lowest.
#[inline(always)]
fn number_of_three(input: &[u8]) -> u64
    requires few { length input.now ≤ 3 }
    ensures { result ≡ number_l 256 input.now }
{
    let mut number = 0;
    for index in 0..3 {
        if index == input.len() {
            break;
        }
        number += (input[index] as u64) << (8 * index);
    }
    number
}

/// Returns four bytes as a number, the first byte the lowest.
#[inline(always)]
fn number_of_four(input: &[u8]) -> u64
    requires { length input.now ≡ 4 }
    ensures number { result ≡ number_l 256 input.now }
    ensures fits { result < 2 ^ 32 }
{
    u32x1::from_le_bytes(u8x4::from_slice(input))
        .cast::<u64>()
        .to_array()[0]
}

/// Returns eight bytes as a number, the first byte the lowest.
#[inline(always)]
fn number_of_eight(input: &[u8]) -> u64
    requires { length input.now ≡ 8 }
    ensures { result ≡ number_l 256 input.now }
{
    u64x1::from_le_bytes(u8x8::from_slice(input)).to_array()[0]
}
