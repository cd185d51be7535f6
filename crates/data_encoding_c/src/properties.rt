//! Properties of an encoding, and the specification that describes it.

ghost use Rattle.std.specs.Prelude.{◌≡◌};
ghost use Rattle.data_encoding.specs.Plain.{base_of_plain};
ghost use Rattle.data_encoding_calls.specs.Calls.{ByNumber};
ghost use Rattle.data_encoding_calls.specs.Facts.{TellsAlignment, TellsWidth};
ghost use Rattle.data_encoding_calls.specs.Numbered.{GivesBackByCustom, GivesBackByNumber};

use data_encoding::{PlainEncoding, predefined_numbered};
use data_encoding_calls::{Form, OK, TextLengths, UNKNOWN_ENCODING, specification};

/// Writes the number of bytes in a block to `align`. A block is a whole line, or a whole group if
/// texts have no lines.
#[unsafe(no_mangle)]
pub extern "C" fn de_numbered_encode_align(number: u32, align: &mut usize) -> u32
    ensures { ByNumber number result (align.new ≡ align.old)
        (λ base. TellsAlignment base align.new result) }
{
    let Some(encoding) = predefined_numbered(number) else {
        return UNKNOWN_ENCODING;
    };
    *align = encoding.encode_align();
    OK
}

/// Like `de_numbered_encode_align`, for an encoding of the caller.
#[unsafe(no_mangle)]
pub extern "C" fn de_custom_encode_align(held: &PlainEncoding, align: &mut usize) -> u32
    ensures { TellsAlignment (base_of_plain held.now) align.new result }
{
    *align = held.by_ref().encode_align();
    OK
}

/// Writes the number of bits of a symbol to `width`.
#[unsafe(no_mangle)]
pub extern "C" fn de_numbered_bit_width(number: u32, width: &mut usize) -> u32
    ensures { ByNumber number result (width.new ≡ width.old)
        (λ base. TellsWidth base width.new result) }
{
    let Some(encoding) = predefined_numbered(number) else {
        return UNKNOWN_ENCODING;
    };
    *width = encoding.bit_width();
    OK
}

/// Like `de_numbered_bit_width`, for an encoding of the caller.
#[unsafe(no_mangle)]
pub extern "C" fn de_custom_bit_width(held: &PlainEncoding, width: &mut usize) -> u32
    ensures { TellsWidth (base_of_plain held.now) width.new result }
{
    *width = held.by_ref().bit_width();
    OK
}

/// Writes a specification of the encoding: its texts one after another to the start of `texts`,
/// their lengths to `lengths`, and the rest to `form`.
///
/// If the status is not 0, nothing is changed.
#[unsafe(no_mangle)]
pub extern "C" fn de_numbered_specification(
    number: u32,
    form: &mut Form,
    lengths: &mut TextLengths,
    texts: &mut [u8],
) -> u32
    ensures { GivesBackByNumber number form.old form.new lengths.old lengths.new
        texts.old texts.new result }
{
    let Some(encoding) = predefined_numbered(number) else {
        return UNKNOWN_ENCODING;
    };
    specification(&encoding, form, lengths, texts)
}

/// Like `de_numbered_specification`, for an encoding of the caller.
#[unsafe(no_mangle)]
pub extern "C" fn de_custom_specification(
    held: &PlainEncoding,
    form: &mut Form,
    lengths: &mut TextLengths,
    texts: &mut [u8],
) -> u32
    ensures { GivesBackByCustom held.now form.old form.new lengths.old lengths.new
        texts.old texts.new result }
{
    specification(&held.by_ref(), form, lengths, texts)
}
