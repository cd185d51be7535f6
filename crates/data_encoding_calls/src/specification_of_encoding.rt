//! The specification that describes an encoding.

ghost use Rattle.std.specs.Prelude.{◌≡◌};
ghost use Rattle.data_encoding.specs.Specification.{fields_of_bytes};
ghost use Rattle.data_encoding_calls.specs.Facts.{texts_of, GivesBack};
ghost use Rattle.data_encoding_calls.specs.Custom.{fields_asked};

use crate::make::Form;
use crate::status::{OK, SHORT_BUFFER};
use arrayvec::ArrayVec;
use data_encoding::{BitOrder, EncodingRef, SpecificationBytes};

/// The lengths in bytes of the texts of a specification.
#[repr(C)]
#[derive(Clone, Copy, Drop)]
pub struct TextLengths {
    /// The number of symbols.
    pub symbols: usize,

    /// The number of ignored bytes.
    pub ignore: usize,

    /// The length of the separator.
    pub separator: usize,

    /// The number of translated bytes.
    pub translate_from: usize,

    /// The number of bytes to which they are translated.
    pub translate_to: usize,
}

/// Writes a specification of the encoding: its texts one after another to the start of `texts`,
/// their lengths to `lengths`, and the rest to `form`.
///
/// If `texts` is too short, nothing is changed.
pub fn specification(
    encoding: &EncodingRef<'_>,
    form: &mut Form,
    lengths: &mut TextLengths,
    texts: &mut [u8],
) -> u32
    ensures { GivesBack encoding.now
        (record { form = form.old; lengths = lengths.old; texts = texts.old })
        (record { form = form.new; lengths = lengths.new; texts = texts.new }) result }
{
    let given = encoding.specification_bytes();
    let bytes = joined(&given);
    let bytes = bytes.as_slice();
    if texts.len() < bytes.len() {
        return SHORT_BUFFER;
    }
    texts[..bytes.len()].copy_from_slice(bytes);
    *form = form_of(&given);
    *lengths = TextLengths {
        symbols: given.symbols.len(),
        ignore: given.ignore.len(),
        separator: given.wrap_separator.len(),
        translate_from: given.translate_from.len(),
        translate_to: given.translate_to.len(),
    };
    OK
}

/// Returns the texts of the specification, one after another.
fn joined(given: &SpecificationBytes) -> ArrayVec<u8, 703>
    ensures { result.items ≡ texts_of (fields_of_bytes given.now) }
{
    let mut bytes = ArrayVec::new();
    bytes
        .try_extend_from_slice(given.symbols.as_slice())
        .unwrap();
    bytes
        .try_extend_from_slice(given.ignore.as_slice())
        .unwrap();
    bytes
        .try_extend_from_slice(given.wrap_separator.as_slice())
        .unwrap();
    bytes
        .try_extend_from_slice(given.translate_from.as_slice())
        .unwrap();
    bytes
        .try_extend_from_slice(given.translate_to.as_slice())
        .unwrap();
    bytes
}

/// Returns the parts of the specification that are not texts.
fn form_of(given: &SpecificationBytes) -> Form
    ensures { fields_asked result given.now.symbols.items given.now.ignore.items
        given.now.wrap_separator.items given.now.translate_from.items given.now.translate_to.items
        ≡ fields_of_bytes given.now }
{
    Form {
        wrap_width: given.wrap_width,
        padding: given.padding.unwrap_or(0),
        has_padding: given.padding.is_some(),
        least_significant_first: matches!(given.bit_order, BitOrder::LeastSignificantFirst),
        check_trailing_bits: given.check_trailing_bits,
        concatenate: given.concatenate,
    }
}
