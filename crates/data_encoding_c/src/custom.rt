//! Calls with an encoding of the caller, as plain data. A call neither builds nor copies its
//! tables.

ghost use Rattle.data_encoding.specs.Fields.{base_of};
ghost use Rattle.data_encoding.specs.Plain.{base_of_plain};
ghost use Rattle.data_encoding_calls.specs.Custom.{Makes, MakesOfLayout, fields_asked};
ghost use Rattle.data_encoding_calls.specs.Calls.{Decodes, Encodes, TellsIfCanonical, TellsMost, TellsTextLength, WritesFront};
ghost use Rattle.data_encoding.specs.Layout.{layout};

use data_encoding::PlainEncoding;
use data_encoding_calls::{
    Decoded, Form, Made, custom_layout, custom_new, custom_read, decode, decode_len, encode,
    encode_len, is_canonical,
};

/// Returns the encoding that the specification describes, or the first reason to refuse it.
///
/// The specification is `form` and the texts `symbols`, `ignore`, `separator`, `from` and `to`.
#[unsafe(no_mangle)]
pub extern "C" fn de_custom_new(
    form: &Form,
    symbols: &[u8],
    ignore: &[u8],
    separator: &[u8],
    from: &[u8],
    to: &[u8],
) -> Made
    ensures { Makes (base_of (fields_asked form.now symbols.now ignore.now separator.now from.now
        to.now)) result }
{
    custom_new(form, symbols, ignore, separator, from, to)
}

/// Like `de_numbered_encode_len`, for an encoding of the caller.
#[unsafe(no_mangle)]
pub extern "C" fn de_custom_encode_len(
    held: &PlainEncoding,
    len: usize,
    text_len: &mut usize,
) -> u32
    ensures { TellsTextLength (base_of_plain held.now) len text_len.old text_len.new result }
{
    encode_len(&held.by_ref(), len, text_len)
}

/// Like `de_numbered_encode`, for an encoding of the caller.
#[unsafe(no_mangle)]
pub extern "C" fn de_custom_encode(
    held: &PlainEncoding,
    input: &[u8],
    output: &mut [u8],
    written: &mut usize,
) -> u32
    ensures { Encodes (base_of_plain held.now) input.now output.old output.new written.old
        written.new result }
{
    encode(&held.by_ref(), input, output, written)
}

/// Like `de_numbered_decode_len`, for an encoding of the caller.
#[unsafe(no_mangle)]
pub extern "C" fn de_custom_decode_len(held: &PlainEncoding, len: usize, most: &mut usize) -> u32
    ensures { TellsMost (base_of_plain held.now) len most.old most.new result }
{
    decode_len(&held.by_ref(), len, most)
}

/// Like `de_numbered_decode`, for an encoding of the caller.
#[unsafe(no_mangle)]
pub extern "C" fn de_custom_decode(
    held: &PlainEncoding,
    input: &[u8],
    output: &mut [u8],
    decoded: &mut Decoded,
) -> u32
    ensures { Decodes (base_of_plain held.now) input.now output.old output.new decoded.old
        decoded.new result }
{
    decode(&held.by_ref(), input, output, decoded)
}

/// Like `de_numbered_is_canonical`, for an encoding of the caller.
#[unsafe(no_mangle)]
pub extern "C" fn de_custom_is_canonical(held: &PlainEncoding, answer: &mut bool) -> u32
    ensures { TellsIfCanonical (base_of_plain held.now) answer.new result }
{
    is_canonical(&held.by_ref(), answer)
}

/// Writes the layout of the encoding to the start of `output`, and its length, at most 770, to
/// `written`.
///
/// If `output` is too short, `output` and `written` are unchanged.
#[unsafe(no_mangle)]
pub extern "C" fn de_custom_layout(
    held: &PlainEncoding,
    output: &mut [u8],
    written: &mut usize,
) -> u32
    ensures { WritesFront (layout (base_of_plain held.now)) output.old output.new written.old
        written.new result }
{
    custom_layout(held, output, written)
}

/// Returns the encoding with the layout `bytes`, or a status if there is none.
#[unsafe(no_mangle)]
pub extern "C" fn de_custom_read(bytes: &[u8]) -> Made
    ensures { MakesOfLayout bytes.now result }
{
    custom_read(bytes)
}
