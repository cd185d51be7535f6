//! Data and texts in pieces with a state that the caller keeps, and an encoding that is built
//! again.

ghost use Rattle.std.specs.Prelude.{◌≡◌, ◌<◌, ◌≤◌, ◌++◌, ◌||◌, length, IfSome};
ghost use Rattle.data_encoding.specs.Base.{is_padded};
ghost use Rattle.data_encoding.specs.Text.{text_of};
ghost use Rattle.conformance.specs.Results.{text_filled};

use data_encoding::laws::specification_again;
use data_encoding::{ENCODE_LIMIT, Encoding};
use encoding_stream::{BufferDecoder, BufferEncoder, Kept};

/// The lengths of the text written to each buffer.
#[derive(Clone, Copy, Debug, Drop)]
pub struct Lengths {
    /// For the first piece.
    pub front: usize,

    /// For the next piece.
    pub next: usize,

    /// For the end of the data.
    pub last: usize,
}

/// Encodes data that comes in two pieces, cut anywhere, to three buffers.
///
/// Another encoder reads the second piece. It continues from the state of the first. Returns `None`
/// if a buffer is too short.
pub fn encode_kept(
    encoding: &Encoding,
    piece: &[u8],
    next_piece: &[u8],
    front: &mut [u8],
    next: &mut [u8],
    last: &mut [u8],
) -> Option<Lengths>
    requires limit { length piece.now ≤ ENCODE_LIMIT }
    requires next_limit { length next_piece.now ≤ ENCODE_LIMIT }
    ensures { IfSome result (λ all. text_of encoding.now (piece.now ++ next_piece.now)
        ≡ text_filled all front.new next.new last.new) }
{
    let mut encoder = BufferEncoder::new(encoding);
    if front.len() < encoder.due(piece.len()) {
        return None;
    }
    let in_front = encoder.read(piece, front);
    let kept = encoder.kept();
    let mut resumed = BufferEncoder::resumed(encoding, kept)?;
    if next.len() < resumed.due(next_piece.len()) {
        return None;
    }
    let in_next = resumed.read(next_piece, next);
    let kept = resumed.kept();
    let ended = BufferEncoder::resumed(encoding, kept)?;
    if last.len() < encoding.encode_len(kept.count) {
        return None;
    }
    let in_last = ended.finish(last);
    Some(Lengths {
        front: in_front,
        next: in_next,
        last: in_last,
    })
}

/// Returns the position of the fault of a text with the decoder state `kept`, if it has one.
///
/// The position is inside a text of this length, even if `kept` is not the state of any decoder.
pub fn fault_within(encoding: &Encoding, kept: Kept, text: &[u8]) -> Option<usize>
    requires whole { length text.now ≡ kept.len }
    ensures { IfSome result (λ position. position < length text.now) }
{
    let decoder = BufferDecoder::resumed(encoding, kept)?;
    let mut last = [0; 5];
    let (_, verdict) = decoder.finish(&mut last);
    match verdict {
        Ok(()) => None,
        Err(error) => Some(error.position),
    }
}

/// Returns the encoding, built again from its specification without allocation.
pub fn made_again(encoding: &Encoding) -> Encoding
    ensures { result ≡ encoding.now }
{
    specification_again();
    encoding.group_len();
    let given = encoding.specification_bytes();
    match given.parts().encoding() {
        Ok(made) => made,
        Err(_) => unreachable!(),
    }
}

/// Returns `true` if the end of a text is checked: its padding, or its trailing bits.
pub fn checks_ends(encoding: &Encoding) -> bool
    ensures { result ≡ (is_padded encoding.now || encoding.now.checks_trailing_bits) }
{
    encoding.is_padded() || encoding.checks_trailing_bits()
}
