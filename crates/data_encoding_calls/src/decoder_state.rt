//! Texts in pieces: the state that a caller keeps between calls, as plain numbers.

ghost use Rattle.std.specs.Prelude.{◌≡◌, [], ℕ, List, IfSome, IsSome, Some};
ghost use Rattle.data_encoding.specs.Base.{Base};
ghost use Rattle.data_encoding.specs.Fields.{IsSpecified};
ghost use Rattle.encoding_stream.specs.BufferDecoder.{base_of_pieces, kept_by};
ghost use Rattle.data_encoding_calls.specs.DecoderState.{kept_told, kind_told, FinishesText, MayBeGiven, ReadsPiece, TellsRoom, WasGiven};

use crate::convert::Decoded;
use crate::status::{NO_DECODER, OK, SHORT_BUFFER, TOO_LONG, status_of_kind};
use data_encoding::laws::steps::pieces;
use data_encoding::{DECODE_LIMIT, DecodeError, DecodeKind, EncodingRef};
use encoding_stream::{BufferDecoder, Kept};

/// The state of a decoder between two pieces of a text. For the empty text it is all zeros.
#[repr(C)]
#[derive(Clone, Copy, Drop)]
pub struct PlainKept {
    /// The number of bytes of the text so far.
    pub len: usize,

    /// The number of held bytes of an unfinished group.
    pub count: usize,

    /// The positions of the held bytes in the text.
    pub positions: [usize; 8],

    /// The position of the first fault.
    pub fault_position: usize,

    /// The status of the first fault, or 0.
    pub fault: u32,

    /// 1 if a group was final, and 0 otherwise.
    pub ended: u32,

    /// The held bytes.
    pub bytes: [u8; 8],
}

/// Sets `decoder` to the state after the empty text, for every encoding.
pub fn plain_decoder_new(decoder: &mut PlainKept)
    ensures { (base : Base) → IsSpecified base → WasGiven base decoder.new [] }
{
    pieces();
    *decoder = PlainKept {
        len: 0,
        count: 0,
        positions: [0; 8],
        fault_position: 0,
        fault: 0,
        ended: 0,
        bytes: [0; 8],
    };
}

/// Returns the kind of fault with the given status.
fn kind_of_status(status: u32) -> Option<DecodeKind>
    ensures { result ≡ kind_told status }
{
    if status == 6 {
        return Some(DecodeKind::Length);
    }
    if status == 7 {
        return Some(DecodeKind::Symbol);
    }
    if status == 8 {
        return Some(DecodeKind::Trailing);
    }
    if status == 9 {
        return Some(DecodeKind::Padding);
    }
    None
}

/// Returns the state that the plain numbers mean, if their status is valid.
fn kept_of(plain: &PlainKept) -> Option<Kept>
    ensures { result ≡ kept_told plain.now }
{
    let fault = if plain.fault == 0 {
        None
    } else {
        Some(DecodeError {
            position: plain.fault_position,
            kind: kind_of_status(plain.fault)?,
        })
    };
    Some(Kept {
        len: plain.len,
        fault,
        positions: plain.positions,
        bytes: plain.bytes,
        count: plain.count,
        ended: plain.ended == 1,
    })
}

/// Returns the state as plain numbers.
fn plain_of(kept: &Kept) -> PlainKept
    ensures { kept_told result ≡ Some kept.now }
{
    let (fault, fault_position) = match kept.fault {
        Some(error) => (status_of_kind(error.kind), error.position),
        None => (0, 0),
    };
    PlainKept {
        len: kept.len,
        count: kept.count,
        positions: kept.positions,
        fault_position,
        fault,
        ended: kept.ended as u32,
        bytes: kept.bytes,
    }
}

/// Returns the decoder with the state that the plain numbers mean, if it passes the checks.
fn decoder_of<'a>(encoding: &EncodingRef<'a>, plain: &PlainKept) -> Option<BufferDecoder<'a>>
    ensures base { IfSome result (λ decoder. base_of_pieces decoder ≡ encoding.now) }
    ensures kept { IfSome result (λ decoder. kept_told plain.now ≡ Some (kept_by decoder)) }
    ensures given { IsSome result → MayBeGiven encoding.now plain.now }
    ensures stands { (text : List ℕ) → WasGiven encoding.now plain.now text → IsSome result }
{
    BufferDecoder::resumed_by_ref(encoding, kept_of(plain)?)
}

/// Writes the greatest number of bytes that `len` more bytes of the text may complete to `most`.
pub fn decoder_most(
    encoding: &EncodingRef<'_>,
    plain: &PlainKept,
    len: usize,
    most: &mut usize,
) -> u32
    ensures { TellsRoom encoding.now plain.now len most.old most.new result }
{
    let Some(decoder) = decoder_of(encoding, plain) else {
        return NO_DECODER;
    };
    if len > DECODE_LIMIT - decoder.len() {
        return TOO_LONG;
    }
    *most = decoder.most(len);
    OK
}

/// Decodes a piece: writes the bytes of the groups that it completes to the start of `output`.
pub fn decoder_read(
    encoding: &EncodingRef<'_>,
    plain: &mut PlainKept,
    piece: &[u8],
    output: &mut [u8],
    written: &mut usize,
) -> u32
    ensures { ReadsPiece encoding.now piece.now
        (record { decoder = plain.old; output = output.old; written = written.old })
        (record { decoder = plain.new; output = output.new; written = written.new }) result }
{
    let Some(mut decoder) = decoder_of(encoding, plain) else {
        return NO_DECODER;
    };
    if piece.len() > DECODE_LIMIT - decoder.len() {
        return TOO_LONG;
    }
    let most = decoder.most(piece.len());
    if output.len() < most {
        return SHORT_BUFFER;
    }
    *written = decoder.read(piece, &mut output[..most]);
    *plain = plain_of(&decoder.kept());
    OK
}

/// Ends the text: writes the bytes of its last group to the start of `output`, and returns the
/// status of the whole text.
pub fn decoder_finish(
    encoding: &EncodingRef<'_>,
    plain: &PlainKept,
    output: &mut [u8],
    decoded: &mut Decoded,
) -> u32
    ensures { FinishesText encoding.now plain.now output.old output.new decoded.old decoded.new
        result }
{
    let Some(decoder) = decoder_of(encoding, plain) else {
        return NO_DECODER;
    };
    let mut last = [0; 5];
    let (written, verdict) = decoder.finish(&mut last);
    if output.len() < written {
        return SHORT_BUFFER;
    }
    output[..written].copy_from_slice(&last[..written]);
    let read = decoder.len();
    let (position, status) = match verdict {
        Ok(()) => (read, OK),
        Err(error) => (error.position, status_of_kind(error.kind)),
    };
    *decoded = Decoded {
        read,
        written,
        position,
    };
    status
}
