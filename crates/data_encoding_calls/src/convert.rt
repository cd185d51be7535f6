//! Calls that encode data or decode a text, and their lengths.

ghost use Rattle.std.specs.Prelude.{◌≡◌, ◌↔◌, ◌<◌, ◌≤◌, ◌⊎◌, ℕ, List, length, take, drop, IsTrue, Ok, Err, Some};
ghost use Rattle.data_encoding.specs.declared.decode.TheConstants.{DECODE_LIMIT};
ghost use Rattle.data_encoding.specs.Canonical.{IsCanonical};
ghost use Rattle.data_encoding.specs.Fault.{fault_of, sound_bytes};
ghost use Rattle.data_encoding.specs.Grammar.{Means};
ghost use Rattle.data_encoding.specs.Lengths.{decoded_len};
ghost use Rattle.data_encoding.specs.Partial.{partial_of};
ghost use Rattle.data_encoding.specs.Text.{text_of};
ghost use Rattle.data_encoding_calls.specs.Calls.{decode_len_status, decode_status, encode_len_status, encode_status, over, status_by_room, StopsAtFault};

use crate::short_output::{decode_and_count, decode_in_two};
use crate::status::{OK, SHORT_BUFFER, TOO_LONG, status_of_kind};
use data_encoding::laws::sound_text;
use data_encoding::{DECODE_LIMIT, DecodeError, DecodePartial, ENCODE_LIMIT, EncodingRef};

/// Writes the length of the text of `len` bytes to `text_len`.
pub fn encode_len(encoding: &EncodingRef<'_>, len: usize, text_len: &mut usize) -> u32
    ensures status { result ≡ encode_len_status len }
    ensures length { result ≡ OK → (bytes : List ℕ) → length bytes ≡ len
        → length (text_of encoding.now bytes) ≡ text_len.new }
    ensures refused { (result ≡ OK → ⊥) → text_len.new ≡ text_len.old }
{
    if len > ENCODE_LIMIT {
        return TOO_LONG;
    }
    *text_len = encoding.encode_len(len);
    OK
}

/// Writes the text of `input` to the start of `output`.
#[inline(always)]
pub fn encode(
    encoding: &EncodingRef<'_>,
    input: &[u8],
    output: &mut [u8],
    written: &mut usize,
) -> u32
    ensures status { result ≡ encode_status encoding.now input.now (length output.old) }
    ensures text { result ≡ OK → output.new ≡ over (text_of encoding.now input.now) output.old }
    ensures written { result ≡ OK → written.new ≡ length (text_of encoding.now input.now) }
    ensures refused { (result ≡ OK → ⊥)
        → (output.new ≡ output.old) × (written.new ≡ written.old) }
{
    if input.len() > ENCODE_LIMIT {
        return TOO_LONG;
    }
    let len = encoding.encode_len(input.len());
    if output.len() < len {
        return SHORT_BUFFER;
    }
    // Nothing follows the call, so that little is kept across it.
    *written = len;
    encoding.encode_mut(input, &mut output[..len]);
    OK
}

/// The result of a decoding.
#[repr(C)]
#[derive(Clone, Copy, Drop)]
pub struct Decoded {
    /// The number of bytes of the text that were read.
    pub read: usize,

    /// The number of bytes of data that they mean. These are at the start of the output. If the
    /// data does not fit, this is its length, and the other numbers are 0.
    pub written: usize,

    /// The position of the fault of the text, or the length of the text if it has none.
    pub position: usize,
}

/// Writes the greatest number of bytes that a text of `len` bytes may mean to `most`, or the
/// position of the fault of that length.
pub fn decode_len(encoding: &EncodingRef<'_>, len: usize, most: &mut usize) -> u32
    ensures status { result ≡ decode_len_status encoding.now len }
    ensures value { result ≡ OK → decoded_len encoding.now len ≡ Ok most.new }
    ensures fault { (error : DecodeError) → decoded_len encoding.now len ≡ Err error
        → (result ≡ TOO_LONG → ⊥) → most.new ≡ error.position }
    ensures refused { result ≡ TOO_LONG → most.new ≡ most.old }
{
    if len > DECODE_LIMIT {
        return TOO_LONG;
    }
    match encoding.decode_len(len) {
        Ok(bytes) => {
            *most = bytes;
            OK
        }
        Err(error) => {
            *most = error.position;
            status_of_kind(error.kind)
        }
    }
}

/// Writes the data that the text `input` means to the start of `output`.
///
/// Uses only as many bytes of `output` as a text of that length may mean. If `output` has fewer,
/// the data may still fit.
#[inline(always)]
pub fn decode(
    encoding: &EncodingRef<'_>,
    input: &[u8],
    output: &mut [u8],
    decoded: &mut Decoded,
) -> u32
    ensures status { result ≡ decode_status encoding.now input.now (length output.old) }
    ensures means { result ≡ OK → Means encoding.now input.now
        (take decoded.new.written output.new) }
    ensures all { result ≡ OK → decoded.new.read ≡ length input.now }
    ensures end { result ≡ OK → decoded.new.position ≡ length input.now }
    ensures refused { result ≡ TOO_LONG
        → (output.new ≡ output.old) × (decoded.new ≡ decoded.old) }
    ensures needed { result ≡ SHORT_BUFFER → decoded.new ≡ record {
      read = 0;
      written = length (sound_bytes encoding.now input.now);
      position = 0;
    } }
    ensures by_length { (error : DecodeError) → (result ≡ TOO_LONG → ⊥)
        → decoded_len encoding.now (length input.now) ≡ Err error
        → (output.new ≡ output.old)
        × (decoded.new ≡ record { read = 0; written = 0; position = error.position }) }
    ensures fault { (partial : DecodePartial) (most : ℕ) → (result ≡ TOO_LONG → ⊥)
        → decoded_len encoding.now (length input.now) ≡ Ok most → most ≤ length output.old
        → partial_of encoding.now input.now ≡ Some partial
        → StopsAtFault encoding.now input.now output.new partial decoded.new }
    ensures short_fault { (error : DecodeError) (most : ℕ) → (result ≡ TOO_LONG → ⊥)
        → decoded_len encoding.now (length input.now) ≡ Ok most → length output.old < most
        → fault_of encoding.now input.now ≡ Some error
        → decoded.new ≡ record { read = 0; written = 0; position = error.position } }
    ensures within { (result ≡ SHORT_BUFFER → ⊥)
        → decoded.new ≡ decoded.old ⊎ decoded.new.written ≤ length output.new }
    ensures after { (most : ℕ) → decoded_len encoding.now (length input.now) ≡ Ok most
        → drop most output.new ≡ drop most output.old }
    ensures len { length output.new ≡ length output.old }
{
    if input.len() > DECODE_LIMIT {
        return TOO_LONG;
    }
    let most = match encoding.decode_len(input.len()) {
        Ok(most) => most,
        Err(error) => {
            *decoded = Decoded {
                read: 0,
                written: 0,
                position: error.position,
            };
            return status_of_kind(error.kind);
        }
    };
    if output.len() < most {
        return decode_to_fit(encoding, input, output, decoded);
    }
    match encoding.decode_mut(input, &mut output[..most]) {
        Ok(written) => {
            *decoded = Decoded {
                read: input.len(),
                written,
                position: input.len(),
            };
            OK
        }
        Err(partial) => {
            *decoded = Decoded {
                read: partial.read,
                written: partial.written,
                position: partial.error.position,
            };
            status_of_kind(partial.error.kind)
        }
    }
}

/// Like [`decode`], for an output that may be too short for the data.
///
/// If the data does not fit, the status is `SHORT_BUFFER`, and `decoded.written` is its length.
// A function of its own, so that `decode` saves no registers for it.
#[inline(never)]
fn decode_to_fit(
    encoding: &EncodingRef<'_>,
    input: &[u8],
    output: &mut [u8],
    decoded: &mut Decoded,
) -> u32
    requires limit { length input.now ≤ DECODE_LIMIT }
    ensures status { result ≡ status_by_room (fault_of encoding.now input.now)
        (length (sound_bytes encoding.now input.now)) (length output.old) }
    ensures means { result ≡ OK → Means encoding.now input.now
        (take decoded.new.written output.new) }
    ensures all { result ≡ OK → decoded.new.read ≡ length input.now }
    ensures end { result ≡ OK → decoded.new.position ≡ length input.now }
    ensures needed { result ≡ SHORT_BUFFER → decoded.new ≡ record {
      read = 0;
      written = length (sound_bytes encoding.now input.now);
      position = 0;
    } }
    ensures fault { (error : DecodeError) → fault_of encoding.now input.now ≡ Some error
        → decoded.new ≡ record { read = 0; written = 0; position = error.position } }
    ensures within { (result ≡ SHORT_BUFFER → ⊥) → decoded.new.written ≤ length output.new }
    ensures len { length output.new ≡ length output.old }
{
    sound_text();
    if let Some(written) = decode_in_two(encoding, input, output) {
        *decoded = Decoded {
            read: input.len(),
            written,
            position: input.len(),
        };
        return OK;
    }
    let (needed, verdict) = decode_and_count(encoding, input, output);
    let (read, written, position, status) = match verdict {
        Ok(()) if needed <= output.len() => (input.len(), needed, input.len(), OK),
        Ok(()) => (0, needed, 0, SHORT_BUFFER),
        Err(error) => (0, 0, error.position, status_of_kind(error.kind)),
    };
    *decoded = Decoded {
        read,
        written,
        position,
    };
    status
}

/// Sets `answer` to `true` if no two different texts mean the same data, and to `false` otherwise.
pub fn is_canonical(encoding: &EncodingRef<'_>, answer: &mut bool) -> u32
    ensures status { result ≡ OK }
    ensures canonical { IsTrue answer.new ↔ IsCanonical encoding.now }
{
    *answer = encoding.is_canonical();
    OK
}
