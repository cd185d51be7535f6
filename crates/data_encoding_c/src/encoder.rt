//! Calls that encode data in pieces, with the number of a predefined encoding or with an encoding
//! of the caller.

ghost use Rattle.std.specs.Prelude.{[], ◌≡◌};
ghost use Rattle.data_encoding.specs.Base.{Base};
ghost use Rattle.data_encoding.specs.Fields.{IsSpecified};
ghost use Rattle.data_encoding.specs.Plain.{base_of_plain};
ghost use Rattle.encoding_stream.specs.BufferEncoder.{HasWritten};
ghost use Rattle.data_encoding_calls.specs.EncoderState.{FinishesData, TellsDue};
ghost use Rattle.data_encoding_calls.specs.Calls.{ByNumber};
ghost use Rattle.data_encoding_calls.specs.Numbered.{EncodesPieceByCustom, EncodesPieceByNumber, FinishesDataByNumber};

use data_encoding::{PlainEncoding, predefined_numbered};
use data_encoding_calls::{
    UNKNOWN_ENCODING, encoder_finish, encoder_most, encoder_read, plain_encoder_new,
};
use encoding_stream::KeptData;

/// Sets `encoder` to the state after no data, for every encoding.
#[unsafe(no_mangle)]
pub extern "C" fn de_plain_encoder_new(encoder: &mut KeptData)
    ensures { (base : Base) → IsSpecified base → HasWritten base encoder.new [] [] }
{
    plain_encoder_new(encoder);
}

/// Writes the length of the text that `len` more bytes of data complete to `most`.
///
/// If the status is not 0, `most` is unchanged.
#[unsafe(no_mangle)]
pub extern "C" fn de_numbered_encoder_most(
    number: u32,
    encoder: &KeptData,
    len: usize,
    most: &mut usize,
) -> u32
    ensures { ByNumber number result (most.new ≡ most.old)
        (λ base. TellsDue base encoder.now len most.old most.new result) }
{
    let Some(encoding) = predefined_numbered(number) else {
        return UNKNOWN_ENCODING;
    };
    encoder_most(&encoding, encoder, len, most)
}

/// Encodes `piece`: writes the text of the blocks that it completes to the start of `output`, and
/// the length of that text to `written`.
///
/// If the status is not 0, `encoder`, `output` and `written` are unchanged.
#[unsafe(no_mangle)]
pub extern "C" fn de_numbered_encoder_read(
    number: u32,
    encoder: &mut KeptData,
    piece: &[u8],
    output: &mut [u8],
    written: &mut usize,
) -> u32
    ensures { EncodesPieceByNumber number piece.now encoder.old encoder.new output.old output.new
        written.old written.new result }
{
    let Some(encoding) = predefined_numbered(number) else {
        return UNKNOWN_ENCODING;
    };
    encoder_read(&encoding, encoder, piece, output, written)
}

/// Ends the data: writes the text of the held bytes to the start of `output`, and its length to
/// `written`.
///
/// If the status is not 0, `output` and `written` are unchanged.
#[unsafe(no_mangle)]
pub extern "C" fn de_numbered_encoder_finish(
    number: u32,
    encoder: &KeptData,
    output: &mut [u8],
    written: &mut usize,
) -> u32
    ensures { FinishesDataByNumber number encoder.now output.old output.new written.old written.new
        result }
{
    let Some(encoding) = predefined_numbered(number) else {
        return UNKNOWN_ENCODING;
    };
    encoder_finish(&encoding, encoder, output, written)
}

/// Like `de_numbered_encoder_most`, for an encoding of the caller.
#[unsafe(no_mangle)]
pub extern "C" fn de_custom_encoder_most(
    held: &PlainEncoding,
    encoder: &KeptData,
    len: usize,
    most: &mut usize,
) -> u32
    ensures { TellsDue (base_of_plain held.now) encoder.now len most.old most.new result }
{
    encoder_most(&held.by_ref(), encoder, len, most)
}

/// Like `de_numbered_encoder_read`, for an encoding of the caller.
#[unsafe(no_mangle)]
pub extern "C" fn de_custom_encoder_read(
    held: &PlainEncoding,
    encoder: &mut KeptData,
    piece: &[u8],
    output: &mut [u8],
    written: &mut usize,
) -> u32
    ensures { EncodesPieceByCustom held.now piece.now encoder.old encoder.new output.old output.new
        written.old written.new result }
{
    encoder_read(&held.by_ref(), encoder, piece, output, written)
}

/// Like `de_numbered_encoder_finish`, for an encoding of the caller.
#[unsafe(no_mangle)]
pub extern "C" fn de_custom_encoder_finish(
    held: &PlainEncoding,
    encoder: &KeptData,
    output: &mut [u8],
    written: &mut usize,
) -> u32
    ensures { FinishesData (base_of_plain held.now) encoder.now output.old output.new written.old
        written.new result }
{
    encoder_finish(&held.by_ref(), encoder, output, written)
}
