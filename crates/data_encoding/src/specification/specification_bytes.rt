//! The specification of an encoding as bytes, without allocation.

ghost use Rattle.std.specs.Prelude.{◌≡◌};
ghost use Rattle.data_encoding_meaning.specs.specification.Layout.{fields_of};
ghost use Rattle.data_encoding.specs.Specification.{fields_of_bytes, fields_of_parts};

use crate::encoding::{BitOrder, Encoding, EncodingRef, copied};
use crate::specification::borrowed_specification::SpecificationParts;
use crate::specification::from_tables::character;
use arrayvec::ArrayVec;

/// A specification of an encoding, like [`Specification`](crate::Specification), with texts as
/// ASCII bytes.
#[derive(Debug, Drop)]
pub struct SpecificationBytes {
    /// The symbols, in order of value.
    pub symbols: ArrayVec<u8, 64>,

    /// The order of the bits of a byte.
    pub bit_order: BitOrder,

    /// `true` if the trailing bits of a text must be zeros.
    pub check_trailing_bits: bool,

    /// `true` if concatenated padded texts are decoded as one.
    pub concatenate: bool,

    /// The character that fills the last group of a text.
    pub padding: Option<u8>,

    /// The ignored bytes: they may be anywhere in a text, and add nothing to it.
    pub ignore: ArrayVec<u8, 128>,

    /// The number of characters of a line. 0 means no lines.
    pub wrap_width: usize,

    /// The separator that follows each line. An empty one means no lines.
    pub wrap_separator: ArrayVec<u8, 255>,

    /// The bytes that are translated.
    pub translate_from: ArrayVec<u8, 128>,

    /// The byte for each of them, in the same order.
    pub translate_to: ArrayVec<u8, 128>,
}

impl SpecificationBytes {
    /// Returns the specification by reference. An encoding can be built from it.
    pub fn parts(&self) -> SpecificationParts<'_>
        ensures { fields_of_parts result ≡ fields_of_bytes self.now }
    {
        SpecificationParts {
            symbols: self.symbols.as_slice(),
            bit_order: self.bit_order,
            check_trailing_bits: self.check_trailing_bits,
            concatenate: self.concatenate,
            padding: character(self.padding),
            ignore: self.ignore.as_slice(),
            wrap_width: self.wrap_width,
            wrap_separator: self.wrap_separator.as_slice(),
            translate_from: self.translate_from.as_slice(),
            translate_to: self.translate_to.as_slice(),
        }
    }
}

impl EncodingRef<'_> {
    /// Like [`Encoding::specification_bytes`].
    pub fn specification_bytes(&self) -> SpecificationBytes
        ensures { fields_of_bytes result ≡ fields_of self.now }
    {
        let tables = self.tables();
        let translations = tables.translations();
        let mut symbols = ArrayVec::new();
        symbols.try_extend_from_slice(tables.symbols).unwrap();
        SpecificationBytes {
            symbols,
            bit_order: self.fields.order(),
            check_trailing_bits: self.fields.checks_trailing_bits,
            concatenate: self.fields.concatenates,
            padding: self.fields.padding_character(),
            ignore: tables.ignored(),
            wrap_width: self.fields.column as usize,
            wrap_separator: copied(self.separator),
            translate_from: translations.from,
            translate_to: translations.to,
        }
    }
}
