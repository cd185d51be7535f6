//! The table of values, and its affine form.

ghost use Rattle.std.specs.Prelude.{◌≡◌, true, slice_index, IsTrue};
ghost use Rattle.data_encoding_kernel.specs.Affine.{HoldsAffine, agrees};
ghost use Rattle.data_encoding_kernel.specs.Values.{IsAsciiTable};

use crate::simd::decode::affine::{Affine, PlainAffine, plain_affine_of};
use crate::simd::decode::look_up::look_up_byte;
use crate::simd::decode::table_rows::{Rows, rows_of};

/// The value of each byte, and the affine form of this table.
///
/// A byte that is not a symbol has an entry of 128 or more. The affine form is found once, when an
/// encoding is built.
// A struct with a ghost field can't be part of a `static`, so functions require that both agree.
#[repr(C)]
#[derive(Clone, Copy, Debug, Drop)]
pub struct ValueTable {
    /// The entry of each byte.
    pub entries: [u8; 256],
    /// The affine form, or [`PlainAffine::NONE`].
    pub form: PlainAffine,
}

impl ValueTable {
    /// Returns the table with its affine form, if the search finds one.
    ///
    /// The symbols are the bytes with a value below `limit`.
    pub fn new(entries: [u8; 256], limit: u8) -> ValueTable
        ensures entries { result.entries ≡ entries }
        ensures agrees { IsTrue (agrees entries result.form) }
    {
        ValueTable {
            form: plain_affine_of(&entries, limit),
            entries,
        }
    }

    /// Returns `true` if the table has an affine form.
    #[inline(always)]
    pub fn is_affine(&self) -> bool
        ensures { result ≡ self.now.form.is_affine }
    {
        self.form.is_affine
    }

    /// Returns the affine form.
    #[inline(always)]
    pub fn affine(&self) -> Affine
        requires form { self.now.form.is_affine ≡ true }
        requires agrees { IsTrue (agrees self.now.entries self.now.form) }
        requires ascii { IsAsciiTable self.now.entries }
        ensures { HoldsAffine self.now.entries result }
    {
        self.form.form()
    }

    /// Returns the entry of `byte`. No address depends on a symbol.
    #[inline]
    pub fn entry(&self, byte: u8) -> u8
        requires agrees { IsTrue (agrees self.now.entries self.now.form) }
        requires ascii { IsAsciiTable self.now.entries }
        ensures { result ≡ slice_index self.now.entries byte }
    {
        if self.is_affine() {
            return look_up_byte::<Affine>(&self.entries, &self.affine(), byte);
        }
        look_up_byte::<Rows>(&self.entries, &rows_of(&self.entries), byte)
    }
}
