//! The table of symbols, and its offset form.

ghost use Rattle.std.specs.Prelude.{◌≡◌, IfSome, IsTrue};
ghost use Rattle.data_encoding_kernel.specs.OffsetAlphabet.{HoldsOffsetAlphabet, has_sums};

use crate::simd::encode::offset_alphabet::{OffsetAlphabet, PlainOffsets, plain_offsets_of};

/// The symbol of each value, repeated to fill the table, and the offset form of this table.
///
/// The offset form is found once, when an encoding is built.
// A struct with a ghost field can't be part of a `static`, so functions require that both agree.
#[repr(C)]
#[derive(Clone, Copy, Debug, Drop)]
pub struct SymbolTable {
    /// The symbols.
    pub entries: [u8; 256],
    /// The offset form, or [`PlainOffsets::NONE`].
    pub form: PlainOffsets,
}

impl SymbolTable {
    /// Returns the table with its offset form, if the search finds one.
    pub fn new(entries: [u8; 256]) -> SymbolTable
        ensures entries { result.entries ≡ entries }
        ensures agrees { IsTrue (has_sums entries result.form) }
    {
        SymbolTable {
            form: plain_offsets_of(&entries),
            entries,
        }
    }

    /// Returns the alphabet as offsets, if it has that form.
    #[inline(always)]
    pub fn offsets(&self) -> Option<OffsetAlphabet>
        requires { IsTrue (has_sums self.now.entries self.now.form) }
        ensures { IfSome result (HoldsOffsetAlphabet self.now.entries) }
    {
        if self.form.has_offsets {
            Some(self.form.alphabet())
        } else {
            None
        }
    }
}
