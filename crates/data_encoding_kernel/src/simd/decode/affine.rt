//! The entries of bytes, from a table that is affine in each row of sixteen bytes.

ghost use Rattle.std.specs.Prelude.{◌≡◌, ℕ, ◌+◌, ◌*◌, ◌%◌, ◌/◌, ◌<◌, List, map, slice_index, IsTrue, IfSome};
ghost use Rattle.std.specs.List.{range_with_len};
ghost use Rattle.data_encoding_kernel.specs.Affine.{AgreesWith, HoldsAffine, affine_entry, agrees, bits_of_rows, form_of};
ghost use Rattle.data_encoding_kernel.specs.Values.{AreExact, IsExact, in_row, low_entry};

use crate::simd::compare::are_below;
use crate::simd::decode::table_rows::{in_row_16, in_row_32, in_row_64};
use std::simd::prelude::*;

/// The affine form of a table: the value of a symbol is its byte plus a constant of its row of
/// sixteen bytes.
///
/// Rows without such a constant have their entries in one more row, which they share.
#[derive(Clone, Copy, Drop)]
pub struct Affine {
    /// `symbols[low]` has bit `high` set if the byte `high << 4 | low` is a symbol.
    pub symbols: u8x16,
    /// `deltas[high]` is added to a byte of row `high`, modulo 256. The sum is 128 or more if the
    /// value is in the shared row.
    pub deltas: u8x16,
    /// The entries of the shared row, by the lowest four bits of a byte.
    pub shared: u8x16,
}

/// An affine form as plain data. It is stored with its table.
#[repr(C)]
#[derive(Clone, Copy, Debug, Drop)]
pub struct PlainAffine {
    /// The field `symbols` of the [`Affine`].
    pub symbols: [u8; 16],
    /// The field `deltas` of the [`Affine`].
    pub deltas: [u8; 16],
    /// The field `shared` of the [`Affine`].
    pub shared: [u8; 16],
    /// `true` if the table has an affine form. Without one, no byte is a symbol by `symbols`.
    pub is_affine: bool,
}

impl PlainAffine {
    /// The form for a table without an affine form.
    pub const NONE: PlainAffine = PlainAffine {
        symbols: [0; 16],
        deltas: [0; 16],
        shared: [0; 16],
        is_affine: false,
    };

    /// Returns the form, with its rows in lanes.
    #[inline(always)]
    pub fn form(&self) -> Affine
        ensures { result ≡ form_of self.now }
    {
        Affine {
            symbols: u8x16::from_array(self.symbols),
            deltas: u8x16::from_array(self.deltas),
            shared: u8x16::from_array(self.shared),
        }
    }
}

/// Returns the affine form of `values`, or [`PlainAffine::NONE`] if the search finds none.
///
/// The symbols are the bytes with a value below `limit`.
#[inline(never)]
pub fn plain_affine_of(values: &[u8; 256], limit: u8) -> PlainAffine
    ensures { IsTrue (agrees values.now result) }
{
    match affine_of(values, limit) {
        Some(affine) => PlainAffine {
            symbols: affine.symbols.to_array(),
            deltas: affine.deltas.to_array(),
            shared: affine.shared.to_array(),
            is_affine: true,
        },
        None => PlainAffine::NONE,
    }
}

/// Returns the affine form of `values`, if the search finds one.
fn affine_of(values: &[u8; 256], limit: u8) -> Option<Affine>
    ensures { IfSome result (AgreesWith values.now) }
{
    let affine = candidate(values, limit);
    for row in 0..8 {
        if !agrees_in_row(&affine, values, row) {
            return None;
        }
    }
    Some(affine)
}

/// Returns the affine form that the rows of the table suggest. It may disagree with the table.
///
/// Rows without a constant share one row. If several have a symbol at an index, the last one wins.
fn candidate(values: &[u8; 256], limit: u8) -> Affine {
    let mut symbols = u8x16::splat(0);
    let mut deltas = [0; 16];
    let mut shared = u8x16::splat(0);
    for row in 0..8 {
        let start = 16 * row;
        let entries = u8x16::from_slice(&values[start..start + 16]);
        let are_symbols = entries.simd_lt(u8x16::splat(limit));
        symbols = symbols | are_symbols.select(u8x16::splat(1 << row), u8x16::splat(0));
        match constant_of(entries - bytes_of_row(row), are_symbols.to_bitmask()) {
            Some(delta) => deltas[row] = delta,
            None => {
                deltas[row] = (128 - start) as u8;
                shared = are_symbols.select(entries, shared);
            }
        }
    }
    Affine {
        symbols,
        deltas: u8x16::from_array(deltas),
        shared,
    }
}

/// Returns the number of all lanes that `mask` selects, or `None` if they differ. Returns 0 if it
/// selects none.
fn constant_of(numbers: u8x16, mask: u64) -> Option<u8> {
    if mask == 0 {
        return Some(0);
    }
    let first = numbers.to_array()[mask.trailing_zeros() as usize % 16];
    if mask & numbers.simd_ne(u8x16::splat(first)).to_bitmask() != 0 {
        return None;
    }
    Some(first)
}

/// Returns the bytes of a row.
#[inline(always)]
fn bytes_of_row(row: usize) -> u8x16
    requires { row < 8 }
    ensures { result ≡ map (λ k. 16 * row + k) (range_with_len 0 16) }
{
    let indexes = u8x16::from_array([0, 1, 2, 3, 4, 5, 6, 7, 8, 9, 10, 11, 12, 13, 14, 15]);
    indexes + u8x16::splat((16 * row) as u8)
}

/// Returns `true` if each entry that the form finds for `row` is exact.
#[inline(always)]
fn agrees_in_row(affine: &Affine, values: &[u8; 256], row: usize) -> bool
    requires { row < 8 }
    ensures { IsTrue result → (k : ℕ) → k < 16
        → IsExact (affine_entry affine.now (16 * row + k)) (slice_index values.now (16 * row + k)) }
{
    let start = 16 * row;
    let entries = u8x16::from_slice(&values[start..start + 16]);
    let found = found_16(affine, bytes_of_row(row));
    // The highest bit is clear where both are 128 or more.
    let both = (found & entries) + u8x16::splat(128);
    are_below(128, found.simd_eq(entries).select(u8x16::splat(0), both))
}

// Finds the entries of bytes. `$in_row` looks bytes up in sixteen entries.
macro_rules! found_by_rows {
    ($affine:ident, $bytes:ident, $in_row:ident, $lanes:ident) => {{
        let rows = $bytes >> $lanes::splat(4);
        found(
            $affine,
            $bytes,
            $in_row($affine.symbols, $bytes),
            $in_row(bits(), rows),
            $in_row($affine.deltas, rows),
            $in_row($affine.shared, $bytes),
        )
    }};
}

/// Returns the entries that the form finds for 16 bytes.
#[inline(always)]
fn found_16(affine: &Affine, bytes: u8x16) -> u8x16
    ensures { result ≡ map (affine_entry affine.now) bytes }
{
    found_by_rows!(affine, bytes, in_row_16, u8x16)
}

/// Returns the entries that the form finds for 32 bytes.
#[inline(always)]
fn found_32(affine: &Affine, bytes: u8x32) -> u8x32
    ensures { result ≡ map (affine_entry affine.now) bytes }
{
    found_by_rows!(affine, bytes, in_row_32, u8x32)
}

/// Returns the entries that the form finds for 64 bytes.
#[inline(always)]
fn found_64(affine: &Affine, bytes: u8x64) -> u8x64
    ensures { result ≡ map (affine_entry affine.now) bytes }
{
    found_by_rows!(affine, bytes, in_row_64, u8x64)
}

/// Returns the bit of each row. It is 0 for the rows of bytes from 128 on.
#[inline(always)]
pub(crate) fn bits() -> u8x16
    ensures { result ≡ bits_of_rows }
{
    u8x16::from_array([1, 2, 4, 8, 16, 32, 64, 128, 0, 0, 0, 0, 0, 0, 0, 0])
}

/// Returns the entries that the form finds for `bytes`, from four look-ups.
#[inline(always)]
fn found<const N: usize>(
    affine: &Affine,
    bytes: Simd<u8, N>,
    symbols: Simd<u8, N>,
    bits: Simd<u8, N>,
    deltas: Simd<u8, N>,
    shared: Simd<u8, N>,
) -> Simd<u8, N>
    requires symbols { symbols ≡ map (low_entry affine.now.symbols 0) bytes }
    requires bits { bits ≡ map (λ byte. in_row bits_of_rows 0 (byte / 16)) bytes }
    requires deltas { deltas ≡ map (λ byte. in_row affine.now.deltas 0 (byte / 16)) bytes }
    requires shared { shared ≡ map (low_entry affine.now.shared 0) bytes }
    ensures { result ≡ map (affine_entry affine.now) bytes.entry }
{
    let moved = bytes + deltas;
    let are_shared = moved.simd_ge(Simd::<u8, N>::splat(128));
    let values = are_shared.select(shared, moved);
    let is_none = (symbols & bits).simd_eq(Simd::<u8, N>::splat(0));
    is_none.select(Simd::<u8, N>::splat(255), values)
}

/// Returns the entries of 16 bytes. The entry of a byte of 128 or more is 128 or more.
#[inline(always)]
pub fn affine_entries_16(affine: &Affine, bytes: u8x16) -> u8x16
    ensures { (values : List ℕ) → HoldsAffine values affine.now
        → AreExact values bytes result }
{
    found_16(affine, bytes)
}

/// Like [`affine_entries_16`], for 32 bytes.
#[inline(always)]
pub fn affine_entries_32(affine: &Affine, bytes: u8x32) -> u8x32
    ensures { (values : List ℕ) → HoldsAffine values affine.now
        → AreExact values bytes result }
{
    found_32(affine, bytes)
}

/// Like [`affine_entries_16`], for 64 bytes.
#[inline(always)]
pub fn affine_entries_64(affine: &Affine, bytes: u8x64) -> u8x64
    ensures { (values : List ℕ) → HoldsAffine values affine.now
        → AreExact values bytes result }
{
    found_64(affine, bytes)
}
