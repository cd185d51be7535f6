//! Decoding to an output that may be too short.

ghost use Rattle.std.specs.Prelude.{◌≡◌, ◌+◌, ◌≤◌, ◌++◌, length, take, IfSome, IsSome};
ghost use Rattle.data_encoding.specs.declared.decode.TheConstants.{DECODE_LIMIT};
ghost use Rattle.data_encoding.specs.Fault.{fault_of, sound_bytes};
ghost use Rattle.data_encoding.specs.Fields.{IsSpecified};
ghost use Rattle.data_encoding.specs.Grammar.{Means};
ghost use Rattle.encoding_stream.specs.BufferDecoder.{verdict_of};

use data_encoding::{DECODE_LIMIT, DecodeError, EncodingRef};
use encoding_stream::BufferDecoder;

/// The number of bytes of the text that are decoded at a time.
// Such texts are mostly keys, which one piece holds. A longer buffer would take more of the stack,
// and more time to be filled with zeros.
const PIECE: usize = 512;

/// The room for the data of a piece: at most seven bytes more.
const ROOM: usize = PIECE + 8;

/// The greatest length of the last part of a text: whole groups of every width.
const END: usize = 16;

/// The room for the data of the last part: each symbol has at most six bits.
const END_ROOM: usize = 12;

/// Decodes the text `input` to the start of `output`, if the data fits.
///
/// Returns the length of the data before a fault, and the verdict on the text. If the data does not
/// fit, `output` is unspecified.
pub(crate) fn decode_and_count(
    encoding: &EncodingRef<'_>,
    input: &[u8],
    output: &mut [u8],
) -> (usize, Result<(), DecodeError>)
    requires limit { length input.now ≤ DECODE_LIMIT }
    ensures length { result.0 ≡ length (sound_bytes encoding.now input.now) }
    ensures verdict { result.1 ≡ verdict_of (fault_of encoding.now input.now) }
    ensures bytes { result.0 ≤ length output.old
        → take result.0 output.new ≡ sound_bytes encoding.now input.now }
    ensures len { length output.new ≡ length output.old }
    ensures specified { IsSpecified encoding.now }
{
    let mut decoder = BufferDecoder::new_by_ref(encoding);
    let mut buffer = [0; ROOM];
    let mut read = 0;
    let mut needed = 0;
    while read < input.len() {
        let end = input.len().min(read + PIECE);
        let most = decoder.most(end - read);
        let count = decoder.read(&input[read..end], &mut buffer[..most]);
        write_if_fits(output, needed, &buffer[..count]);
        needed += count;
        read = end;
    }
    let (count, verdict) = decoder.finish(&mut buffer);
    write_if_fits(output, needed, &buffer[..count]);
    (needed + count, verdict)
}

/// Decodes the text `input` to the start of `output` in two parts, and returns the length of the
/// data.
///
/// Returns `None` if a part has a fault, if the first has padding, if the data does not fit, or if
/// the encoding ignores bytes. `output` is then unspecified.
// Two calls of `decode_mut` take less time than a `BufferDecoder`. Each needs an output of exactly
// the length that its text may mean, and only at the end of a text is the data shorter.
pub(crate) fn decode_in_two(
    encoding: &EncodingRef<'_>,
    input: &[u8],
    output: &mut [u8],
) -> Option<usize>
    requires limit { length input.now ≤ DECODE_LIMIT }
    ensures means { IfSome result (λ written. Means encoding.now input.now
        (take written output.new)) }
    ensures fits { IfSome result (λ written. written ≤ length output.new) }
    ensures specified { IsSome result → IsSpecified encoding.now }
    ensures len { length output.new ≡ length output.old }
{
    if encoding.ignores_bytes() {
        return None;
    }
    let (front, end) = input.split_at(input.len().saturating_sub(1) / END * END);
    let (Ok(start), Ok(most)) = (
        encoding.decode_len(front.len()),
        encoding.decode_len(end.len()),
    ) else {
        return None;
    };
    if output.len() < start {
        return None;
    }
    let Ok(written) = encoding.decode_mut(front, &mut output[..start]) else {
        return None;
    };
    let mut buffer = [0; END_ROOM];
    let Ok(count) = encoding.decode_mut(end, &mut buffer[..most]) else {
        return None;
    };
    if written < start || output.len() - start < count {
        return None;
    }
    write_if_fits(output, start, &buffer[..count]);
    Some(start + count)
}

/// Writes `bytes` to `output` from index `start` on, if they fit.
fn write_if_fits(output: &mut [u8], start: usize, bytes: &[u8])
    ensures written { start + length bytes.now ≤ length output.old
        → take (start + length bytes.now) output.new ≡ take start output.old ++ bytes.now }
    ensures len { length output.new ≡ length output.old }
{
    if start <= output.len() && bytes.len() <= output.len() - start {
        output[start..start + bytes.len()].copy_from_slice(bytes);
    }
}
