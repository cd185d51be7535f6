//! The ways to look up the entries of bytes, with a lane for each byte.

ghost use Rattle.std.specs.Prelude.{◌≡◌, ℕ, List, true, slice_index, IsTrue, ⊤};
ghost use Rattle.data_encoding_kernel.specs.Affine.{HoldsAffine, agrees};
ghost use Rattle.data_encoding_kernel.specs.declared.simd.decode.affine.PlainAffine.{PlainAffine};
ghost use Rattle.data_encoding_kernel.specs.Values.{AreExact, HoldsRows, IsAsciiTable};

use crate::platform::has_simd;
use crate::simd::decode::affine::{
    Affine, affine_entries_16, affine_entries_32, affine_entries_64,
};
use crate::simd::decode::table_rows::{Rows, entries_16, entries_32, entries_64, rows_of};
use crate::value_table::ValueTable;
use std::simd::prelude::*;

/// A way to look up the entries of a table. It finds the entry of each symbol, and 128 or more for
/// any other byte.
pub trait LookUp: Copy {
    // States that a table with this form has such a look-up.
    ghost serves: { PlainAffine → Type 0 };

    // States that the look-up is for a table of values.
    ghost holds: { List ℕ → Self → Type 0 };

    /// Returns the look-up for `table`.
    fn of(table: &ValueTable) -> Self
        requires form { serves table.now.form }
        requires agrees { IsTrue (agrees table.now.entries table.now.form) }
        requires ascii { IsAsciiTable table.now.entries }
        ensures { holds table.now.entries result };

    /// Returns the entries of 16 bytes.
    fn look_up_16(&self, bytes: u8x16) -> u8x16
        ensures { (values : List ℕ) → holds values self.now
            → AreExact values bytes result };

    /// Returns the entries of 32 bytes.
    fn look_up_32(&self, bytes: u8x32) -> u8x32
        ensures { (values : List ℕ) → holds values self.now
            → AreExact values bytes result };

    /// Returns the entries of 64 bytes.
    fn look_up_64(&self, bytes: u8x64) -> u8x64
        ensures { (values : List ℕ) → holds values self.now
            → AreExact values bytes result };
}

impl LookUp for Rows {
    ghost serves = { λ form. ⊤ };

    ghost holds = { λ values rows. HoldsRows values rows };

    #[inline(always)]
    fn of(table: &ValueTable) -> Rows {
        rows_of(&table.entries)
    }

    #[inline(always)]
    fn look_up_16(&self, bytes: u8x16) -> u8x16 {
        entries_16(self, bytes)
    }

    #[inline(always)]
    fn look_up_32(&self, bytes: u8x32) -> u8x32 {
        entries_32(self, bytes)
    }

    #[inline(always)]
    fn look_up_64(&self, bytes: u8x64) -> u8x64 {
        entries_64(self, bytes)
    }
}

impl LookUp for Affine {
    ghost serves = { λ form. form.is_affine ≡ true };

    ghost holds = { λ values affine. HoldsAffine values affine };

    #[inline(always)]
    fn of(table: &ValueTable) -> Affine {
        table.affine()
    }

    #[inline(always)]
    fn look_up_16(&self, bytes: u8x16) -> u8x16 {
        affine_entries_16(self, bytes)
    }

    #[inline(always)]
    fn look_up_32(&self, bytes: u8x32) -> u8x32 {
        affine_entries_32(self, bytes)
    }

    #[inline(always)]
    fn look_up_64(&self, bytes: u8x64) -> u8x64 {
        affine_entries_64(self, bytes)
    }
}

/// Returns the entry of `byte` in the table `values`.
///
/// No address depends on a symbol: the table is read at other bytes only.
#[inline(always)]
pub fn look_up_byte<L: LookUp>(values: &[u8; 256], look_up: &L, byte: u8) -> u8
    requires held { L.holds values.now look_up.now }
    ensures { result ≡ slice_index values.now byte }
{
    if has_simd() {
        let entry = look_up.look_up_16(u8x16::splat(byte)).to_array()[0];
        if entry < 128 {
            return entry;
        }
    }
    values[byte as usize]
}
