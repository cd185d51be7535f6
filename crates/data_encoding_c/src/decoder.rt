//! Calls that decode a text in pieces, with the number of a predefined encoding or with an encoding
//! of the caller.

ghost use Rattle.std.specs.Prelude.{[], ◌≡◌};
ghost use Rattle.data_encoding.specs.Base.{Base};
ghost use Rattle.data_encoding.specs.Fields.{IsSpecified};
ghost use Rattle.data_encoding.specs.Plain.{base_of_plain};
ghost use Rattle.data_encoding_calls.specs.Calls.{ByNumber};
ghost use Rattle.data_encoding_calls.specs.DecoderState.{FinishesText, TellsRoom, WasGiven};
ghost use Rattle.data_encoding_calls.specs.Numbered.{FinishesTextByNumber, ReadsPieceByCustom, ReadsPieceByNumber};

use data_encoding::{PlainEncoding, predefined_numbered};
use data_encoding_calls::{
    Decoded, PlainKept, UNKNOWN_ENCODING, decoder_finish, decoder_most, decoder_read,
    plain_decoder_new,
};

/// Sets `decoder` to the state after the empty text, for every encoding.
#[unsafe(no_mangle)]
pub extern "C" fn de_plain_decoder_new(decoder: &mut PlainKept)
    ensures { (base : Base) → IsSpecified base → WasGiven base decoder.new [] }
{
    plain_decoder_new(decoder);
}

/// Writes the greatest number of bytes that `len` more bytes of the text may complete to `most`.
///
/// If the status is not 0, `most` is unchanged.
#[unsafe(no_mangle)]
pub extern "C" fn de_numbered_decoder_most(
    number: u32,
    decoder: &PlainKept,
    len: usize,
    most: &mut usize,
) -> u32
    ensures { ByNumber number result (most.new ≡ most.old)
        (λ base. TellsRoom base decoder.now len most.old most.new result) }
{
    let Some(encoding) = predefined_numbered(number) else {
        return UNKNOWN_ENCODING;
    };
    decoder_most(&encoding, decoder, len, most)
}

/// Decodes `piece`: writes the bytes of the groups that it completes to the start of `output`, and
/// their number to `written`.
///
/// If the status is not 0, `decoder`, `output` and `written` are unchanged.
#[unsafe(no_mangle)]
pub extern "C" fn de_numbered_decoder_read(
    number: u32,
    decoder: &mut PlainKept,
    piece: &[u8],
    output: &mut [u8],
    written: &mut usize,
) -> u32
    ensures { ReadsPieceByNumber number piece.now decoder.old decoder.new output.old output.new
        written.old written.new result }
{
    let Some(encoding) = predefined_numbered(number) else {
        return UNKNOWN_ENCODING;
    };
    decoder_read(&encoding, decoder, piece, output, written)
}

/// Ends the text: writes the bytes of its last group to the start of `output`, and returns the
/// status of the whole text.
///
/// `decoded` gets the length of the text, the number of bytes written, and the position of the
/// fault. If `number` is unknown, `decoder` is not a state of a decoder, or `output` is too short,
/// `output` and `decoded` are unchanged.
#[unsafe(no_mangle)]
pub extern "C" fn de_numbered_decoder_finish(
    number: u32,
    decoder: &PlainKept,
    output: &mut [u8],
    decoded: &mut Decoded,
) -> u32
    ensures { FinishesTextByNumber number decoder.now output.old output.new decoded.old decoded.new
        result }
{
    let Some(encoding) = predefined_numbered(number) else {
        return UNKNOWN_ENCODING;
    };
    decoder_finish(&encoding, decoder, output, decoded)
}

/// Like `de_numbered_decoder_most`, for an encoding of the caller.
#[unsafe(no_mangle)]
pub extern "C" fn de_custom_decoder_most(
    held: &PlainEncoding,
    decoder: &PlainKept,
    len: usize,
    most: &mut usize,
) -> u32
    ensures { TellsRoom (base_of_plain held.now) decoder.now len most.old most.new result }
{
    decoder_most(&held.by_ref(), decoder, len, most)
}

/// Like `de_numbered_decoder_read`, for an encoding of the caller.
#[unsafe(no_mangle)]
pub extern "C" fn de_custom_decoder_read(
    held: &PlainEncoding,
    decoder: &mut PlainKept,
    piece: &[u8],
    output: &mut [u8],
    written: &mut usize,
) -> u32
    ensures { ReadsPieceByCustom held.now piece.now decoder.old decoder.new output.old output.new
        written.old written.new result }
{
    decoder_read(&held.by_ref(), decoder, piece, output, written)
}

/// Like `de_numbered_decoder_finish`, for an encoding of the caller.
#[unsafe(no_mangle)]
pub extern "C" fn de_custom_decoder_finish(
    held: &PlainEncoding,
    decoder: &PlainKept,
    output: &mut [u8],
    decoded: &mut Decoded,
) -> u32
    ensures { FinishesText (base_of_plain held.now) decoder.now output.old output.new decoded.old
        decoded.new result }
{
    decoder_finish(&held.by_ref(), decoder, output, decoded)
}
