//! The entries of bytes, from a look-up table in rows of sixteen entries.

ghost use Rattle.std.specs.Prelude.{◌≡◌, ℕ, ◌+◌, ◌%◌, ◌<◌, List, map, slice_index};
ghost use Rattle.data_encoding_kernel.specs.Values.{AreExact, HoldsRows, IsAsciiTable, IsRow, chosen_by, low_entry};

use std::simd::prelude::*;

/// The lower half of a table of 256 entries, in rows of sixteen.
#[derive(Clone, Copy, Drop)]
pub struct Rows {
    pub first: u8x16,
    pub second: u8x16,
    pub third: u8x16,
    pub fourth: u8x16,
    pub fifth: u8x16,
    pub sixth: u8x16,
    pub seventh: u8x16,
    pub eighth: u8x16,
}

/// Returns the rows of the lower half of `values`.
#[inline(always)]
pub fn rows_of(values: &[u8; 256]) -> Rows
    requires ascii { IsAsciiTable values.now }
    ensures { HoldsRows values.now result }
{
    Rows {
        first: u8x16::from_slice(&values[..16]),
        second: u8x16::from_slice(&values[16..32]),
        third: u8x16::from_slice(&values[32..48]),
        fourth: u8x16::from_slice(&values[48..64]),
        fifth: u8x16::from_slice(&values[64..80]),
        sixth: u8x16::from_slice(&values[80..96]),
        seventh: u8x16::from_slice(&values[96..112]),
        eighth: u8x16::from_slice(&values[112..128]),
    }
}

/// Returns the entry of `row` at the lowest four bits of each byte, or 0 if its highest bit is set.
// `pshufb` reads only these bits of an index, so the compiler drops the mask where it can.
#[inline(always)]
pub fn in_row_16(row: u8x16, bytes: u8x16) -> u8x16
    ensures { (values : List ℕ) → (start : ℕ) → IsRow values start row
        → result ≡ map (low_entry values start) bytes }
{
    row.swizzle_dyn_within::<16>(bytes & u8x16::splat(0x8f))
}

/// Like [`in_row_16`], for 32 bytes.
#[inline(always)]
pub fn in_row_32(row: u8x16, bytes: u8x32) -> u8x32
    ensures { (values : List ℕ) → (start : ℕ) → IsRow values start row
        → result ≡ map (low_entry values start) bytes }
{
    let repeated = row.swizzle::<32>([
        0, 1, 2, 3, 4, 5, 6, 7, 8, 9, 10, 11, 12, 13, 14, 15, 0, 1, 2, 3, 4, 5, 6, 7, 8, 9, 10, 11,
        12, 13, 14, 15,
    ]);
    repeated.swizzle_dyn_within::<16>(bytes & u8x32::splat(0x8f))
}

/// Like [`in_row_16`], for 64 bytes.
#[inline(always)]
pub fn in_row_64(row: u8x16, bytes: u8x64) -> u8x64
    ensures { (values : List ℕ) → (start : ℕ) → IsRow values start row
        → result ≡ map (low_entry values start) bytes }
{
    let repeated = row.swizzle::<64>([
        0, 1, 2, 3, 4, 5, 6, 7, 8, 9, 10, 11, 12, 13, 14, 15, 0, 1, 2, 3, 4, 5, 6, 7, 8, 9, 10, 11,
        12, 13, 14, 15, 0, 1, 2, 3, 4, 5, 6, 7, 8, 9, 10, 11, 12, 13, 14, 15, 0, 1, 2, 3, 4, 5, 6,
        7, 8, 9, 10, 11, 12, 13, 14, 15,
    ]);
    repeated.swizzle_dyn_within::<16>(bytes & u8x64::splat(0x8f))
}

/// Returns the lanes of `ones` where a shift by `up` sets the highest bit of the byte, and the
/// lanes of `zeros` elsewhere.
#[inline(always)]
fn by_bit<const N: usize>(
    up: u8,
    bytes: Simd<u8, N>,
    ones: Simd<u8, N>,
    zeros: Simd<u8, N>,
) -> Simd<u8, N>
    requires { up < 8 }
    ensures { (f : ℕ → ℕ) → (g : ℕ → ℕ) → ones.entry ≡ map f bytes.entry
        → zeros.entry ≡ map g bytes.entry
        → result ≡ map (chosen_by up f g) bytes.entry }
{
    let bits = bytes << Simd::<u8, N>::splat(up);
    bits.simd_ge(Simd::<u8, N>::splat(128)).select(ones, zeros)
}

// Looks bytes up in the rows. `$in_row` looks them up in one row. The highest bit of a byte is
// kept.
macro_rules! entries_by_rows {
    ($rows:ident, $bytes:ident, $in_row:ident, $lanes:ident) => {{
        let first = by_bit(
            3,
            $bytes,
            $in_row($rows.second, $bytes),
            $in_row($rows.first, $bytes),
        );
        let second = by_bit(
            3,
            $bytes,
            $in_row($rows.fourth, $bytes),
            $in_row($rows.third, $bytes),
        );
        let third = by_bit(
            3,
            $bytes,
            $in_row($rows.sixth, $bytes),
            $in_row($rows.fifth, $bytes),
        );
        let fourth = by_bit(
            3,
            $bytes,
            $in_row($rows.eighth, $bytes),
            $in_row($rows.seventh, $bytes),
        );
        let below = by_bit(2, $bytes, second, first);
        let above = by_bit(2, $bytes, fourth, third);
        by_bit(1, $bytes, above, below) | ($bytes & $lanes::splat(128))
    }};
}

/// Returns the entries of 16 bytes. The entry of a byte of 128 or more is 128 or more.
#[inline(always)]
pub fn entries_16(rows: &Rows, bytes: u8x16) -> u8x16
    ensures { (values : List ℕ) → HoldsRows values rows.now
        → AreExact values bytes result }
{
    entries_by_rows!(rows, bytes, in_row_16, u8x16)
}

/// Like [`entries_16`], for 32 bytes.
#[inline(always)]
pub fn entries_32(rows: &Rows, bytes: u8x32) -> u8x32
    ensures { (values : List ℕ) → HoldsRows values rows.now
        → AreExact values bytes result }
{
    entries_by_rows!(rows, bytes, in_row_32, u8x32)
}

/// Like [`entries_16`], for 64 bytes.
#[inline(always)]
pub fn entries_64(rows: &Rows, bytes: u8x64) -> u8x64
    ensures { (values : List ℕ) → HoldsRows values rows.now
        → AreExact values bytes result }
{
    entries_by_rows!(rows, bytes, in_row_64, u8x64)
}
