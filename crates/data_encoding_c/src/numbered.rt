//! Calls with the number of a predefined encoding.

ghost use Rattle.std.specs.Prelude.{◌≡◌};
ghost use Rattle.data_encoding_calls.specs.Calls.{ByNumber, TellsIfCanonical, TellsMost, TellsTextLength};
ghost use Rattle.data_encoding_calls.specs.Numbered.{DecodesByNumber, EncodesByNumber};

use data_encoding::predefined_numbered;
use data_encoding_calls::{
    Decoded, UNKNOWN_ENCODING, decode, decode_len, encode, encode_len, is_canonical,
};

/// Writes the length of the text of `len` bytes of data to `text_len`.
///
/// If the status is not 0, `text_len` is unchanged.
#[unsafe(no_mangle)]
pub extern "C" fn de_numbered_encode_len(number: u32, len: usize, text_len: &mut usize) -> u32
    ensures { ByNumber number result (text_len.new ≡ text_len.old)
        (λ base. TellsTextLength base len text_len.old text_len.new result) }
{
    let Some(encoding) = predefined_numbered(number) else {
        return UNKNOWN_ENCODING;
    };
    encode_len(&encoding, len, text_len)
}

/// Writes the text of the data `input` to the start of `output`, and its length to `written`.
///
/// If the status is not 0, `output` and `written` are unchanged.
#[unsafe(no_mangle)]
pub extern "C" fn de_numbered_encode(
    number: u32,
    input: &[u8],
    output: &mut [u8],
    written: &mut usize,
) -> u32
    ensures { EncodesByNumber number input.now output.old output.new written.old written.new
        result }
{
    let Some(encoding) = predefined_numbered(number) else {
        return UNKNOWN_ENCODING;
    };
    encode(&encoding, input, output, written)
}

/// Writes the greatest number of bytes that a text of `len` bytes may mean to `most`, or the
/// position of the fault of that length.
///
/// If `number` is unknown or `len` is above the limit, `most` is unchanged.
#[unsafe(no_mangle)]
pub extern "C" fn de_numbered_decode_len(number: u32, len: usize, most: &mut usize) -> u32
    ensures { ByNumber number result (most.new ≡ most.old)
        (λ base. TellsMost base len most.old most.new result) }
{
    let Some(encoding) = predefined_numbered(number) else {
        return UNKNOWN_ENCODING;
    };
    decode_len(&encoding, len, most)
}

/// Writes the data that the text `input` means to the start of `output`, or the data before its
/// fault.
///
/// `decoded` gets the numbers of bytes read and written, and the position of the fault. If `number`
/// is unknown or `input` is too long, `output` and `decoded` are unchanged.
///
/// Any output that holds the data is long enough. If the data does not fit, the status is 4,
/// `decoded.written` is its length, and `output` is unspecified. If `output` has fewer bytes than
/// `de_numbered_decode_len` writes, it is unspecified after a fault too, and both numbers are 0.
#[unsafe(no_mangle)]
pub extern "C" fn de_numbered_decode(
    number: u32,
    input: &[u8],
    output: &mut [u8],
    decoded: &mut Decoded,
) -> u32
    ensures { DecodesByNumber number input.now output.old output.new decoded.old decoded.new
        result }
{
    let Some(encoding) = predefined_numbered(number) else {
        return UNKNOWN_ENCODING;
    };
    decode(&encoding, input, output, decoded)
}

/// Sets `answer` to `true` if no two different texts mean the same data, and to `false` otherwise.
///
/// If `number` is unknown, `answer` is unchanged.
#[unsafe(no_mangle)]
pub extern "C" fn de_numbered_is_canonical(number: u32, answer: &mut bool) -> u32
    ensures { ByNumber number result (answer.new ≡ answer.old)
        (λ base. TellsIfCanonical base answer.new result) }
{
    let Some(encoding) = predefined_numbered(number) else {
        return UNKNOWN_ENCODING;
    };
    is_canonical(&encoding, answer)
}
