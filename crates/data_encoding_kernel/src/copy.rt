//! Copies of few bytes.

ghost use Rattle.std.specs.Prelude.{◌≡◌, ◌*◌, ◌≤◌, ◌++◌, length, take, drop};

use crate::platform::has_simd;
use std::simd::prelude::*;

/// Copies `input`, which is usually short.
// Two copies of constant length take less time than a call that copies any number of bytes.
#[inline(always)]
pub fn copy_short(input: &[u8], output: &mut [u8])
    requires exact { length output.old ≡ length input.now }
    ensures { output.new ≡ input.now }
{
    let len = input.len();
    if len == 0 {
        return;
    }
    if len == 1 {
        output[0] = input[0];
    } else if !has_simd() || 128 < len {
        output.copy_from_slice(input);
    } else if len <= 4 {
        copy_ends::<2>(input, output);
    } else if len <= 8 {
        copy_ends::<4>(input, output);
    } else if len <= 16 {
        copy_ends::<8>(input, output);
    } else if len <= 32 {
        copy_ends::<16>(input, output);
    } else if len <= 64 {
        copy_ends::<32>(input, output);
    } else {
        copy_ends::<64>(input, output);
    }
}

/// Copies the first and the last `N` bytes, which are all bytes. They may overlap.
#[inline(always)]
fn copy_ends<const N: usize>(input: &[u8], output: &mut [u8])
    requires enough { N ≤ length input.now }
    requires few { length input.now ≤ 2 * N }
    requires exact { length output.old ≡ length input.now }
    ensures { output.new ≡ input.now }
{
    let end = input.len() - N;
    let first = Simd::<u8, N>::from_slice(&input[..N]);
    let last = Simd::<u8, N>::from_slice(&input[end..]);
    first.copy_to_slice(&mut output[..N]);
    last.copy_to_slice(&mut output[end..]);
}

/// Writes the first `count` bytes to the start of `output`.
// Two copies of constant length, which may overlap. There is no call for a count of 0.
#[inline(always)]
pub fn store_front(bytes: &[u8; 16], count: usize, output: &mut [u8])
    requires few { count ≤ 16 }
    requires room { count ≤ length output.old }
    ensures { output.new ≡ take count bytes.now ++ drop count output.old }
{
    if count >= 8 {
        copy_ends::<8>(&bytes[..count], &mut output[..count]);
    } else if count >= 4 {
        copy_ends::<4>(&bytes[..count], &mut output[..count]);
    } else if count >= 2 {
        copy_ends::<2>(&bytes[..count], &mut output[..count]);
    } else if count == 1 {
        output[0] = bytes[0];
    }
}
