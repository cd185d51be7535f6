//! Comparison of lanes with a limit.

ghost use Rattle.std.specs.Prelude.{◌≡◌, ℕ, ◌<◌, ◌≤◌, length, slice_index, IsTrue};
ghost use Rattle.std.specs.List.{AllByRecursion};

use std::simd::prelude::*;

/// Returns `true` if each lane is less than `limit`.
#[inline(always)]
pub fn are_below<const N: usize>(limit: u8, lanes: Simd<u8, N>) -> bool
    requires { N ≤ 64 }
    ensures lanes { length lanes.entry ≡ N }
    ensures below { IsTrue result → AllByRecursion (λ lane. lane < limit) lanes.entry }
    ensures all { ((k : ℕ) → k < N → slice_index lanes.entry k < limit) → IsTrue result }
{
    !lanes.simd_ge(Simd::<u8, N>::splat(limit)).any()
}

/// Returns the number of lanes before the first that is not less than `limit`.
#[inline(always)]
pub fn count_below<const N: usize>(limit: u8, lanes: Simd<u8, N>) -> usize
    requires { N ≤ 64 }
    ensures lanes { length lanes.entry ≡ N }
    ensures few { result ≤ N }
    ensures below { (k : ℕ) → k < result → slice_index lanes.entry k < limit }
    ensures stop { result < N → limit ≤ slice_index lanes.entry result }
{
    let others = lanes.simd_ge(Simd::<u8, N>::splat(limit));
    if !others.any() {
        return N;
    }
    others.to_bitmask().trailing_zeros() as usize
}
