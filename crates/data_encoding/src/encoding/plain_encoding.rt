//! The tables of an encoding as plain data, which can be passed to C.

ghost use Rattle.std.specs.Prelude.{◌≡◌, ◌<◌, length, is_some, take};
ghost use Rattle.data_encoding.specs.Encoding.{KeepsRules};
ghost use Rattle.data_encoding.specs.PlainTables.{order_by, padding_by, plain_tables};

use crate::encoding::{BitOrder, Encoding, EncodingRef};
use data_encoding_kernel::symbol_table::SymbolTable;
use data_encoding_kernel::value_table::ValueTable;

// The tables of an encoding except for the separator, with numbers for the types that C does not
// have.
#[repr(C)]
#[derive(Clone, Copy, Debug, Drop)]
pub struct PlainFields {
    // The symbols in order of value, repeated to fill the table.
    pub(crate) symbols: SymbolTable,

    // The value of each symbol and of each byte that is translated to it. An invalid byte has 128,
    // an ignored one 129, and padding 130.
    pub(crate) values: ValueTable,

    pub(crate) width: u8,

    // The length of a line, or 0.
    pub(crate) column: u8,

    // The padding character, or 128.
    pub(crate) padding: u8,

    pub(crate) least_significant_first: bool,
    pub(crate) checks_trailing_bits: bool,

    // `true` if a text may continue after a padded group.
    pub(crate) concatenates: bool,

    // `true` if some byte is ignored, by the table of values.
    pub(crate) ignores: bool,
}

impl PlainFields {
    /// Returns the order of the bits.
    #[inline(always)]
    pub(crate) fn order(&self) -> BitOrder
        ensures { result ≡ order_by self.now.least_significant_first }
    {
        if self.least_significant_first {
            BitOrder::LeastSignificantFirst
        } else {
            BitOrder::MostSignificantFirst
        }
    }

    /// Returns the padding character.
    #[inline(always)]
    pub(crate) fn padding_character(&self) -> Option<u8>
        ensures { result ≡ padding_by self.now.padding }
    {
        padding_of(self.padding)
    }

    /// Returns `true` if there is a padding character.
    #[inline(always)]
    pub(crate) fn is_padded(&self) -> bool
        ensures { result ≡ is_some (padding_by self.now.padding) }
    {
        self.padding < 128
    }
}

/// Returns the padding character of an entry, or `None` for 128.
#[inline(always)]
pub(crate) fn padding_of(entry: u8) -> Option<u8>
    ensures { result ≡ padding_by entry }
{
    if entry < 128 { Some(entry) } else { None }
}

/// An encoding as plain data, which can be passed to C.
#[repr(C)]
#[derive(Clone, Copy, Debug, Drop)]
pub struct PlainEncoding {
    fields: PlainFields,

    // The separator, followed by zeros, and its length.
    separator: [u8; 255],
    separator_len: u8,

    ghost kept: { ∥ KeepsRules (plain_tables fields (take separator_len separator)) ∥₁ },
}

impl PlainEncoding {
    ghost use Rattle.data_encoding.specs.Plain.{base_of_plain};

    /// Returns a reference to the encoding.
    #[inline(always)]
    pub fn by_ref(&self) -> EncodingRef<'_>
        ensures { result ≡ base_of_plain self.now }
    {
        EncodingRef {
            fields: &self.fields,
            separator: &self.separator[..self.separator_len as usize],
        }
    }

    /// Returns the encoding, with a copy of the tables.
    pub fn encoding(&self) -> Encoding
        ensures { result ≡ base_of_plain self.now }
    {
        self.by_ref().encoding()
    }
}

impl Encoding {
    ghost use Rattle.data_encoding.specs.Plain.{base_of_plain};

    /// Returns a copy of the encoding as plain data.
    pub fn to_plain(&self) -> PlainEncoding
        ensures { base_of_plain result ≡ self.now }
    {
        PlainEncoding {
            fields: self.fields,
            separator: filled(self.separator.as_slice()),
            separator_len: self.separator.len() as u8,
        }
    }
}

/// Returns the bytes, followed by zeros.
fn filled(bytes: &[u8]) -> [u8; 255]
    requires { length bytes.now < 256 }
    ensures { take (length bytes.now) result ≡ bytes.now }
{
    let mut room = [0; 255];
    room[..bytes.len()].copy_from_slice(bytes);
    room
}
