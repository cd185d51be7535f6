//! Building an encoding of the caller from a specification.

ghost use Rattle.std.specs.Prelude.{◌≡◌};
ghost use Rattle.data_encoding.specs.Fields.{base_of};
ghost use Rattle.data_encoding.specs.Plain.{base_of_plain};
ghost use Rattle.data_encoding_calls.specs.Custom.{Makes, fields_asked, order_asked, padding_asked};

use crate::status::{OK, detail_of_refusal, status_of_refusal};
use data_encoding::{BitOrder, Encoding, PlainEncoding, SpecificationParts, hexlower};

/// The parts of a specification that are not texts.
#[repr(C)]
#[derive(Clone, Copy, Drop)]
pub struct Form {
    /// The number of characters of a line. If it is 0, texts have no lines.
    pub wrap_width: usize,

    /// The character that fills the last group, if there is padding.
    pub padding: u8,

    /// `true` if there is padding.
    pub has_padding: bool,

    /// `true` if the bit of weight 1 comes first.
    pub least_significant_first: bool,

    /// `true` if the trailing bits of a text must be zeros.
    pub check_trailing_bits: bool,

    /// `true` if concatenated padded texts are decoded as one.
    pub concatenate: bool,
}

/// The result of building an encoding from a specification or a layout.
#[repr(C)]
#[derive(Clone, Copy, Drop)]
pub struct Made {
    /// 0 if an encoding was built, or the status of the refusal.
    pub status: u32,

    /// The byte or the number that a refusal names, or 0.
    pub detail: usize,

    /// The encoding, if one was built, and otherwise an unspecified encoding.
    pub held: PlainEncoding,
}

/// Returns the encoding that the specification describes, or the first reason to refuse it.
///
/// The specification is `form` and the texts `symbols`, `ignore`, `separator`, `from` and `to`.
pub fn custom_new(
    form: &Form,
    symbols: &[u8],
    ignore: &[u8],
    separator: &[u8],
    from: &[u8],
    to: &[u8],
) -> Made
    ensures { Makes (base_of (fields_asked form.now symbols.now ignore.now separator.now from.now
        to.now)) result }
{
    let parts = SpecificationParts {
        symbols,
        bit_order: bit_order(form.least_significant_first),
        check_trailing_bits: form.check_trailing_bits,
        concatenate: form.concatenate,
        padding: padding(form.has_padding, form.padding),
        ignore,
        wrap_width: form.wrap_width,
        wrap_separator: separator,
        translate_from: from,
        translate_to: to,
    };
    match parts.encoding() {
        Ok(encoding) => accepted(&encoding),
        Err(error) => {
            let refusal = error.refusal();
            refused(status_of_refusal(refusal), detail_of_refusal(refusal))
        }
    }
}

/// Returns the result with `encoding`.
pub(crate) fn accepted(encoding: &Encoding) -> Made
    ensures status { result.status ≡ OK }
    ensures held { base_of_plain result.held ≡ encoding.now }
{
    Made {
        status: OK,
        detail: 0,
        held: encoding.to_plain(),
    }
}

/// Returns the result without an encoding.
pub(crate) fn refused(status: u32, detail: usize) -> Made
    ensures status { result.status ≡ status }
    ensures detail { result.detail ≡ detail }
{
    Made {
        status,
        detail,
        held: hexlower().to_plain(),
    }
}

/// Returns the order of bits that the caller's flag means.
fn bit_order(least_significant_first: bool) -> BitOrder
    ensures { result ≡ order_asked least_significant_first }
{
    if least_significant_first {
        BitOrder::LeastSignificantFirst
    } else {
        BitOrder::MostSignificantFirst
    }
}

/// Returns the padding that the caller's values mean.
fn padding(has_padding: bool, padding: u8) -> Option<char>
    ensures { result ≡ padding_asked has_padding padding }
{
    if has_padding {
        Some(char::from(padding))
    } else {
        None
    }
}
