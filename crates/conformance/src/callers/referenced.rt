//! Callers of encodings by reference. They hold no tables.

ghost use Rattle.std.specs.Prelude.{◌≡◌, ◌↔◌, ℕ, ◌+◌, ◌<◌, ◌≤◌, List, ◌++◌, length, take, None, Ok, IfSome, IsSome, IsTrue};
ghost use Rattle.data_encoding.specs.Base.{group_symbols};
ghost use Rattle.data_encoding.specs.Grammar.{Means};
ghost use Rattle.data_encoding.specs.Lengths.{alignment, decoded_len};
ghost use Rattle.data_encoding.specs.Pieces.{whole_bytes};
ghost use Rattle.data_encoding.specs.Text.{text_of};
ghost use Rattle.data_encoding.specs.KeptData.{piece_text, text_of_blocks};
ghost use Rattle.encoding_stream.specs.BufferEncoder.{EncodesOn, HasWritten};
ghost use Rattle.encoding_stream.specs.BufferDecoder.{Keeps};
ghost use Rattle.encoding_stream.specs.Resume.{IsKept};
ghost use Rattle.conformance.specs.Texts.{IsFaultOfAll, MeansSome};

use data_encoding::laws::fault_stays;
use data_encoding::{DECODE_LIMIT, ENCODE_LIMIT, EncodingRef};
use encoding_stream::{BufferDecoder, BufferEncoder, Kept, KeptData};

/// Encodes `input` to `output` and returns `true`, if the lengths are right.
///
/// `input` must have at most `ENCODE_LIMIT` bytes, and `output` exactly the length of the text.
/// Otherwise writes nothing and returns `false`.
pub fn encode_exactly(encoding: &EncodingRef<'_>, input: &[u8], output: &mut [u8]) -> bool
    ensures text { IsTrue result → output.new ≡ text_of encoding.now input.now }
    ensures exact { IsTrue result ↔ ((length input.now ≤ ENCODE_LIMIT)
        × (length output.old ≡ length (text_of encoding.now input.now))) }
{
    if input.len() > ENCODE_LIMIT || encoding.encode_len(input.len()) != output.len() {
        return false;
    }
    encoding.encode_mut(input, output);
    true
}

/// Decodes the text `input` to the start of `output`, and returns the number of bytes that it
/// means.
///
/// Decodes only if `input` has at most `DECODE_LIMIT` bytes and `output` has exactly the length
/// that `decode_len` returns. Otherwise writes nothing and returns `None`. Also returns `None` if
/// the text has a fault. The bytes before the fault may have been written then.
pub fn decode_exactly(encoding: &EncodingRef<'_>, input: &[u8], output: &mut [u8]) -> Option<usize>
    ensures means { IfSome result (λ len. Means encoding.now input.now (take len output.new)) }
    ensures exact { IsSome result ↔ ((length input.now ≤ DECODE_LIMIT)
        × (decoded_len encoding.now (length input.now) ≡ Ok (length output.old))
        × MeansSome encoding.now input.now) }
{
    if input.len() > DECODE_LIMIT || encoding.decode_len(input.len()) != Ok(output.len()) {
        return None;
    }
    match encoding.decode_mut(input, output) {
        Ok(len) => Some(len),
        Err(_) => None,
    }
}

/// Returns the lengths of the texts of data of two lengths. Each is computed with a copy of a lent
/// encoding.
pub fn text_lengths(encoding: &EncodingRef<'_>, one: usize, other: usize) -> (usize, usize)
    requires one { one ≤ ENCODE_LIMIT }
    requires other { other ≤ ENCODE_LIMIT }
    ensures one { (bytes : List ℕ) → length bytes ≡ one
        → length (text_of encoding.now bytes) ≡ result.0 }
    ensures other { (bytes : List ℕ) → length bytes ≡ other
        → length (text_of encoding.now bytes) ≡ result.1 }
{
    let lent = encoding.lend();
    let copy = lent;
    (
        lent.by_ref().encode_len(one),
        copy.by_ref().encode_len(other),
    )
}

/// Decodes the first piece of a text to the start of `output`. Returns the number of bytes written,
/// and the decoder state, which is all that is needed to continue.
pub fn decode_first(encoding: &EncodingRef<'_>, piece: &[u8], output: &mut [u8]) -> (usize, Kept)
    requires limit { length piece.now ≤ DECODE_LIMIT }
    requires room { length piece.now + 7 ≤ length output.old }
    ensures keeps { Keeps encoding.now result.1 piece.now }
    ensures bytes { whole_bytes encoding.now piece.now ≡ take result.0 output.new }
    ensures stays { IfSome result.1.fault (λ error.
        IsFaultOfAll encoding.now piece.now error) }
{
    fault_stays();
    let mut decoder = BufferDecoder::new_by_ref(encoding);
    decoder.most(piece.len());
    let written = decoder.read(piece, output);
    (written, decoder.kept())
}

/// Decodes the next piece of a text to the start of `output`, from the decoder state `kept`.
///
/// Returns the number of bytes written and the new state, or `None` if `kept` fails the checks of a
/// state.
pub fn decode_next(
    encoding: &EncodingRef<'_>,
    kept: Kept,
    piece: &[u8],
    output: &mut [u8],
) -> Option<(usize, Kept)>
    requires limit { kept.len + length piece.now ≤ DECODE_LIMIT }
    requires room { length piece.now + 7 ≤ length output.old }
    ensures keeps { IfSome result (λ next. (text : List ℕ) → Keeps encoding.now kept text
        → Keeps encoding.now next.1 (text ++ piece.now)) }
    ensures bytes { IfSome result (λ next. (text : List ℕ) → Keeps encoding.now kept text
        → whole_bytes encoding.now (text ++ piece.now)
        ≡ whole_bytes encoding.now text ++ take next.0 output.new) }
    ensures taken { IsKept encoding.now kept → IsSome result }
    ensures tested { IsSome result → kept.count < group_symbols encoding.now.width }
{
    let Some(mut decoder) = BufferDecoder::resumed_by_ref(encoding, kept) else {
        return None;
    };
    decoder.most(piece.len());
    let written = decoder.read(piece, output);
    Some((written, decoder.kept()))
}

/// Encodes the whole blocks of the first piece of data to the start of `output`, if it has room for
/// their text.
///
/// Returns the length of the text and the encoder state, with the rest of the piece. If `output` is
/// too short, writes nothing and returns `None`.
pub fn encode_first(
    encoding: &EncodingRef<'_>,
    piece: &[u8],
    output: &mut [u8],
) -> Option<(usize, KeptData)>
    requires limit { length piece.now ≤ ENCODE_LIMIT }
    ensures encodes { IfSome result (λ first. HasWritten encoding.now first.1 piece.now
        (take first.0 output.new)) }
    ensures fits { IsSome result
        ↔ (length (text_of_blocks encoding.now piece.now) ≤ length output.old) }
{
    let mut encoder = BufferEncoder::new_by_ref(encoding);
    if output.len() < encoder.due(piece.len()) {
        return None;
    }
    let written = encoder.read(piece, output);
    Some((written, encoder.kept()))
}

/// Encodes the whole blocks of the held bytes and the next piece to the start of `output`, if
/// `kept` is a state of an encoder and `output` has room for their text.
///
/// Returns the length of the text and the new state. Otherwise writes nothing and returns `None`.
pub fn encode_next(
    encoding: &EncodingRef<'_>,
    kept: KeptData,
    piece: &[u8],
    output: &mut [u8],
) -> Option<(usize, KeptData)>
    requires limit { length piece.now ≤ ENCODE_LIMIT }
    ensures encodes { IfSome result (λ next. EncodesOn encoding.now kept next.1 piece.now
        (take next.0 output.new)) }
    ensures refused { alignment encoding.now ≤ kept.count → result ≡ None }
    ensures fits { IsSome result ↔ ((kept.count < alignment encoding.now)
        × (length (piece_text encoding.now kept piece.now) ≤ length output.old)) }
{
    let Some(mut encoder) = BufferEncoder::resumed_by_ref(encoding, kept) else {
        return None;
    };
    if output.len() < encoder.due(piece.len()) {
        return None;
    }
    let written = encoder.read(piece, output);
    Some((written, encoder.kept()))
}
