//! Callers of a decoder to buffers, which continue from its state.

ghost use Rattle.std.specs.Prelude.{◌≡◌, ◌+◌, ◌≤◌, ◌++◌, length, Some, IfSome, OnOk};
ghost use Rattle.std.specs.String.{string_bytes};
ghost use Rattle.data_encoding.specs.Fault.{fault_of, first_fault, sound_bytes};
ghost use Rattle.data_encoding.specs.Grammar.{Means};
ghost use Rattle.data_encoding.specs.Pieces.{whole_groups};
ghost use Rattle.data_encoding.specs.Text.{text_of};
ghost use Rattle.encoding_stream.specs.BufferDecoder.{verdict_of};
ghost use Rattle.conformance.specs.Results.{bytes_filled};
ghost use Rattle.conformance.specs.Texts.{IsFaultOfAll};

use data_encoding::laws::{fault_stays, sound_text};
use data_encoding::{DECODE_LIMIT, DecodeError, ENCODE_LIMIT, Encoding};
use encoding_stream::BufferDecoder;
use std::alloc::AllocError;

/// The number of bytes written to each buffer, and the verdict on the text.
#[derive(Clone, Copy, Debug, Drop)]
pub struct Filled {
    /// For the first piece.
    pub front: usize,

    /// For the next piece.
    pub next: usize,

    /// For the end of the text.
    pub last: usize,

    /// The fault of the text, if it has one.
    pub verdict: Result<(), DecodeError>,
}

/// Decodes a text that comes in two pieces, cut anywhere, to three buffers.
///
/// Another decoder reads the second piece. It continues from the state of the first.
pub fn decode_kept(
    encoding: &Encoding,
    piece: &[u8],
    next_piece: &[u8],
    front: &mut [u8],
    next: &mut [u8],
    last: &mut [u8],
) -> Filled
    requires limit { length piece.now + length next_piece.now ≤ DECODE_LIMIT }
    requires front { length piece.now + 7 ≤ length front.old }
    requires next { length next_piece.now + 7 ≤ length next.old }
    requires last { 5 ≤ length last.old }
    ensures sound { bytes_filled result front.new next.new last.new
        ≡ sound_bytes encoding.now (piece.now ++ next_piece.now) }
    ensures verdict { result.verdict
        ≡ verdict_of (fault_of encoding.now (piece.now ++ next_piece.now)) }
    ensures means { OnOk result.verdict (Means encoding.now (piece.now ++ next_piece.now)
        (bytes_filled result front.new next.new last.new)) }
{
    encoding.bit_width();
    sound_text();
    let mut decoder = BufferDecoder::new(encoding);
    decoder.most(piece.len());
    let in_front = decoder.read(piece, front);
    let kept = decoder.kept();
    let Some(mut resumed) = BufferDecoder::resumed(encoding, kept) else {
        unreachable!()
    };
    resumed.most(next_piece.len());
    let in_next = resumed.read(next_piece, next);
    let (in_last, verdict) = resumed.finish(last);
    Filled {
        front: in_front,
        next: in_next,
        last: in_last,
        verdict,
    }
}

/// Returns the fault of each text that begins with `front`, if one of its whole groups has a fault.
///
/// An unfinished group at the end is not checked.
pub fn fault_so_far(encoding: &Encoding, front: &[u8], output: &mut [u8]) -> Option<DecodeError>
    requires limit { length front.now ≤ DECODE_LIMIT }
    requires room { length front.now + 7 ≤ length output.old }
    ensures first { result ≡ first_fault encoding.now (whole_groups encoding.now front.now) }
    ensures stays { IfSome result (λ error. IsFaultOfAll encoding.now front.now error) }
{
    encoding.bit_width();
    fault_stays();
    let mut decoder = BufferDecoder::new(encoding);
    decoder.most(front.len());
    decoder.read(front, output);
    decoder.kept().fault
}

/// Writes the text of `input` to an output of exactly its length, and appends it to `log`.
///
/// `encode_mut` states the contents of the output, and `str::from_utf8` that they are UTF-8.
pub fn encode_and_log(
    encoding: &Encoding,
    input: &[u8],
    output: &mut [u8],
    log: &mut String,
) -> Result<(), AllocError>
    requires limit { length input.now ≤ ENCODE_LIMIT }
    requires exact { length output.old ≡ length (text_of encoding.now input.now) }
    ensures output { output.new ≡ text_of encoding.now input.now }
    ensures log { OnOk result
        (string_bytes log.new ≡ string_bytes log.old ++ text_of encoding.now input.now) }
{
    encoding.encode_mut(input, output);
    match str::from_utf8(output) {
        Ok(text) => log.push_str(text),
        Err(_) => unreachable!(),
    }
}
