//! Callers of streams, and of decoders of texts that come in pieces.

ghost use Rattle.std.specs.Prelude.{◌≡◌, ◌≢◌, ◌<◌, ◌≤◌, ℕ, List, ◌+◌, ◌%◌, ◌++◌, flat_map, length, Err, IfOk, Ok, OnOk, Some};
ghost use Rattle.data_encoding.specs.Eighteen.{Builds};
ghost use Rattle.data_encoding.specs.Fault.{fault_of, sound_bytes};
ghost use Rattle.data_encoding.specs.Fields.{base_of};
ghost use Rattle.data_encoding.specs.Grammar.{Means};
ghost use Rattle.data_encoding.specs.Laws.{Resumes};
ghost use Rattle.data_encoding.specs.Predefined.{base64_fields, base64_mime_fields};
ghost use Rattle.data_encoding.specs.Text.{text_of};
ghost use Rattle.encoding_stream.specs.BufferDecoder.{verdict_of};
ghost use Rattle.conformance.specs.Results.{IsFault};
ghost use Rattle.conformance.specs.Texts.{IsFaultOfAll, MeansSoundBytes};

use data_encoding::laws::steps::whole_groups;
use data_encoding::laws::{fault_stays, join_decode, join_fault, resume, round_trip, sound_text};
use data_encoding::{DECODE_LIMIT, DecodeError, DecodeFault, Encoding, base64};
use encoding_stream::{Decoder, StreamFault, Watch, decode_stream, encode_stream};
use std::alloc::{AllocError, Global};

/// Decodes a text that comes in pieces through a small buffer, and returns the verdict on the whole
/// text.
///
/// The bytes that a piece appends to the buffer are appended to `output`, and the buffer is
/// cleared.
pub fn decode_pieces(
    alloc: Global,
    encoding: &Encoding,
    pieces: &[&[u8]],
    output: &mut Vec<u8>,
) -> Result<Result<(), DecodeError>, AllocError>
    requires limit { length (flat_map (λ piece. piece.now) pieces.now) ≤ DECODE_LIMIT }
    ensures sound { OnOk result (output.new.items ≡ output.old.items
        ++ sound_bytes encoding.now (flat_map (λ piece. piece.now) pieces.now)) }
    ensures verdict { IfOk result (λ verdict. verdict
        ≡ verdict_of (fault_of encoding.now (flat_map (λ piece. piece.now) pieces.now))) }
    ensures means { IfOk result (λ verdict. OnOk verdict
        (MeansSoundBytes encoding.now (flat_map (λ piece. piece.now) pieces.now))) }
{
    encoding.bit_width();
    sound_text();
    let mut decoder = Decoder::new(encoding);
    let mut buffer = Vec::new(alloc);
    for piece in pieces {
        decoder.push(piece, &mut buffer)?;
        output.extend_from_slice(&buffer)?;
        buffer.clear();
    }
    match decoder.finish(&mut buffer) {
        Ok(finished) => {
            output.extend_from_slice(&buffer)?;
            Ok(finished.verdict)
        }
        Err(_) => Err(AllocError),
    }
}

/// Returns `input` again, with two streams: its text is written to memory, and read from there.
pub fn streamed_back(
    alloc: Global,
    encoding: &Encoding,
    input: &[u8],
) -> Result<Vec<u8>, StreamFault>
    ensures same { IfOk result (λ bytes. bytes.items ≡ input.now) }
    ensures no_fault { (error : DecodeError) → result ≢ Err (StreamFault.Decode error) }
    ensures too_long { result ≡ Err StreamFault.TooLong
        → DECODE_LIMIT < length (text_of encoding.now input.now) }
{
    encoding.bit_width();
    round_trip();
    sound_text();
    let mut reader = Watch::new(input);
    let mut writer = Watch::new(Vec::new(alloc));
    encode_stream(encoding, &mut reader, &mut writer)?;
    let text = writer.into_inner();
    let mut text_reader = Watch::new(text.as_slice());
    let mut output = Watch::new(Vec::new(alloc));
    decode_stream(encoding, &mut text_reader, &mut output)?;
    Ok(output.into_inner())
}

/// Decodes lines of base64 that come in two pieces, cut anywhere.
///
/// If the decoding of the first stops, it continues with the rest of that piece, followed by the
/// second.
pub fn decode_in_two(
    alloc: Global,
    encoding: &Encoding,
    piece: &[u8],
    next: &[u8],
) -> Result<Vec<u8>, DecodeFault>
    requires lines { base_of base64_mime_fields ≡ Ok encoding.now }
    requires limit { length piece.now + length next.now ≤ DECODE_LIMIT }
    ensures means { IfOk result (λ bytes. Means encoding.now (piece.now ++ next.now) bytes.items) }
    ensures fault { (error : DecodeError) → IsFault result error
        → fault_of encoding.now (piece.now ++ next.now) ≡ Some error }
{
    let (read, mut bytes) = decode_front(alloc, encoding, piece)?;
    let mut rest = Vec::new(alloc);
    rest.extend_from_slice(&piece[read..])?;
    rest.extend_from_slice(next)?;
    match encoding.decode(alloc, &rest) {
        Ok(more) => {
            bytes.extend_from_slice(&more)?;
            Ok(bytes)
        }
        Err(DecodeFault::Error(error)) => Err(DecodeFault::Error(DecodeError {
            position: read + error.position,
            kind: error.kind,
        })),
        Err(DecodeFault::OutOfMemory) => Err(DecodeFault::OutOfMemory),
    }
}

/// Decodes a prefix of a text in base64, of whole groups of 4 characters.
///
/// Its fault is the fault of each text of a valid length with this prefix, so a long text can be
/// refused early.
pub fn decoded_early(alloc: Global, front: &[u8]) -> Result<Vec<u8>, DecodeFault>
    requires limit { length front.now ≤ DECODE_LIMIT }
    requires whole { length front.now % 4 ≡ 0 }
    ensures means { Builds (λ base. IfOk result (λ bytes. Means base front.now bytes.items))
        base64_fields }
    ensures fault { Builds (λ base. (error : DecodeError) → IsFault result error
        → IsFaultOfAll base front.now error) base64_fields }
{
    fault_stays();
    whole_groups();
    base64().decode(alloc, front)
}

/// Decodes a piece up to its first fault. Returns the length that was read, and its data.
fn decode_front(
    alloc: Global,
    encoding: &Encoding,
    piece: &[u8],
) -> Result<(usize, Vec<u8>), AllocError>
    requires lines { base_of base64_mime_fields ≡ Ok encoding.now }
    requires limit { length piece.now ≤ DECODE_LIMIT }
    ensures within { IfOk result (λ front. front.0 ≤ length piece.now) }
    ensures resumes { IfOk result (λ front. (next : List ℕ)
        → Resumes encoding.now piece.now next front.0 front.1.items) }
{
    encoding.bit_width();
    join_decode();
    join_fault();
    resume();
    sound_text();
    let Ok(len) = encoding.decode_len(piece.len()) else {
        unreachable!()
    };
    let mut bytes = Vec::new(alloc);
    bytes.resize(len, 0)?;
    match encoding.decode_mut(piece, &mut bytes) {
        Ok(written) => {
            bytes.truncate(written);
            Ok((piece.len(), bytes))
        }
        Err(partial) => {
            bytes.truncate(partial.written);
            Ok((partial.read, bytes))
        }
    }
}
