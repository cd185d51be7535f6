//! A specification with texts that are borrowed bytes.

ghost use Rattle.std.specs.Prelude.{◌≡◌, IfOk, IfErr, Ok, Err};
ghost use Rattle.data_encoding_meaning.specs.specification.Fields.{base_of};
ghost use Rattle.data_encoding.specs.Specification.{fields_of_parts, refusal_of};

use crate::encoding::{BitOrder, Encoding};
use crate::specification::SpecificationError;
use crate::specification::builder::build;

/// A specification of an encoding, like [`Specification`](crate::Specification), with texts that
/// are borrowed bytes.
///
/// The bytes need not be UTF-8. A byte that is not ASCII is refused.
#[derive(Clone, Copy, Debug, Drop)]
pub struct SpecificationParts<'a> {
    /// The symbols, in order of value: 2, 4, 8, 16, 32 or 64 ASCII characters.
    pub symbols: &'a [u8],

    /// The order of the bits of a byte.
    pub bit_order: BitOrder,

    /// `true` if the trailing bits of a text must be zeros.
    pub check_trailing_bits: bool,

    /// `true` if concatenated padded texts are decoded as one.
    pub concatenate: bool,

    /// The character that fills the last group of a text.
    pub padding: Option<char>,

    /// The ignored bytes: they may be anywhere in a text, and add nothing to it.
    pub ignore: &'a [u8],

    /// The number of characters of a line. 0 means no lines.
    pub wrap_width: usize,

    /// The separator that follows each line. An empty one means no lines.
    pub wrap_separator: &'a [u8],

    /// The bytes that are translated.
    pub translate_from: &'a [u8],

    /// The byte for each of them, in the same order.
    pub translate_to: &'a [u8],
}

impl SpecificationParts<'_> {
    /// Returns the encoding that the specification describes, or the first reason to refuse it,
    /// like [`Specification::encoding`](crate::Specification::encoding).
    pub fn encoding(&self) -> Result<Encoding, SpecificationError>
        ensures is_built { IfOk result (λ base. base_of (fields_of_parts self.now) ≡ Ok base) }
        ensures refused { IfErr result
            (λ error. base_of (fields_of_parts self.now) ≡ Err (refusal_of error)) }
    {
        match build(self) {
            Ok(encoding) => Ok(encoding),
            Err(refusal) => Err(SpecificationError { refusal }),
        }
    }
}
