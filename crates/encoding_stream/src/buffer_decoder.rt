//! Decoding of a text in pieces, to buffers.

ghost use Rattle.std.proofs.Props.{props};
ghost use Rattle.std.specs.Prelude.{◌≡◌, ℕ, ◌+◌, ◌<◌, ◌≤◌, List, [], length, take, All, IfSome, IsSome};
ghost use Rattle.data_encoding.specs.declared.decode.TheConstants.{DECODE_LIMIT};
ghost use Rattle.data_encoding.specs.Base.{IsWidth, group_symbols};
ghost use Rattle.data_encoding.specs.Lent.{base_of_lent};
ghost use Rattle.encoding_stream.specs.Specified.{HasLaws, IsBuiltAgain};

mod runs;
mod single_bytes;
mod single_group;

use data_encoding::laws::specification_again;
use data_encoding::laws::steps::{pieces, whole_groups};
use data_encoding::{DECODE_LIMIT, DecodeError, Encoding, EncodingRef, LentEncoding};

/// The state of a decoder between two pieces of a text, as plain numbers.
#[derive(Clone, Copy, Debug, Drop)]
pub struct Kept {
    /// The number of bytes of the text so far.
    pub len: usize,

    /// The first fault of its whole groups.
    pub fault: Option<DecodeError>,

    /// The positions in the text of the held bytes of an unfinished group. A decoder that began
    /// with `BufferDecoder::new` keeps zeros after them.
    pub positions: [usize; 8],

    /// The held bytes. A decoder that began with `BufferDecoder::new` keeps zeros after them.
    pub bytes: [u8; 8],

    /// The number of held bytes. After a fault it is 0.
    pub count: usize,

    /// `true` if one of the whole groups is final, so that no group may follow.
    pub ended: bool,
}

/// Decodes a text that comes in pieces, cut anywhere, into buffers of the caller.
///
/// The bytes of a group are written when the group is complete. The state of the decoder is plain
/// numbers: `kept` returns them, and `resumed` continues from them.
#[derive(Clone, Copy, Debug, Drop)]
pub struct BufferDecoder<'a> {
    pub(crate) encoding: LentEncoding<'a>,
    pub(crate) kept: Kept,
    ghost laws: { HasLaws } by { Prim.hlevel props },
    ghost specified: { IsBuiltAgain (base_of_lent encoding) },
    ghost width: { IsWidth (base_of_lent encoding).width },
    ghost short: { kept.count < group_symbols (base_of_lent encoding).width },
    ghost held: { kept.count ≤ kept.len },
    ghost clear: { IsSome kept.fault → kept.count ≡ 0 },
    ghost limit: { kept.len ≤ DECODE_LIMIT },
    ghost inside: { All (λ position. position < kept.len) (take kept.count kept.positions) },
    ghost fault_inside: { IfSome kept.fault (λ e. e.position < kept.len) } by { Prim.hlevel props },
}

impl<'a> BufferDecoder<'a> {
    ghost use Rattle.data_encoding.specs.Fields.{IsSpecified};
    ghost use Rattle.data_encoding.specs.Pieces.{whole_bytes};
    ghost use Rattle.encoding_stream.specs.BufferDecoder.{base_of_pieces, kept_by, most_completed, HasState, Keeps};
    ghost use Rattle.encoding_stream.specs.Reading.{ReadsOn};
    ghost use Rattle.encoding_stream.specs.Resume.{IsKept, MayBeKept};

    /// Returns a decoder that has read nothing.
    pub fn new(encoding: &'a Encoding) -> BufferDecoder<'a>
        ensures base { base_of_pieces result ≡ encoding.now }
        ensures nothing { Keeps encoding.now (kept_by result) [] }
        ensures no_bytes { whole_bytes encoding.now [] ≡ [] }
        ensures specified { IsSpecified encoding.now }
    {
        BufferDecoder::new_by_ref(&encoding.by_ref())
    }

    /// Like [`new`](BufferDecoder::new), for an encoding by reference.
    pub fn new_by_ref(encoding: &EncodingRef<'a>) -> BufferDecoder<'a>
        ensures base { base_of_pieces result ≡ encoding.now }
        ensures nothing { Keeps encoding.now (kept_by result) [] }
        ensures no_bytes { whole_bytes encoding.now [] ≡ [] }
        ensures specified { IsSpecified encoding.now }
    {
        pieces();
        whole_groups();
        specification_again();
        // Its clause has the facts on the encoding that the invariant needs.
        encoding.group_len();
        BufferDecoder {
            encoding: encoding.lend(),
            kept: Kept {
                len: 0,
                fault: None,
                positions: [0; 8],
                bytes: [0; 8],
                count: 0,
                ended: false,
            },
        }
    }

    /// Returns a decoder that continues from the state `kept` of another decoder of the same
    /// encoding.
    ///
    /// Any numbers may be passed, and are checked. Returns `None` in these cases:
    ///
    /// - The length of the text is above `DECODE_LIMIT`.
    /// - A whole group is held.
    /// - A held byte is ignored, or the positions of the held bytes do not ascend or are not below
    ///   the length.
    /// - Bytes are held after a fault.
    /// - The fault is not in the text, or it is one that a whole group cannot have: a fault of the
    ///   length, of trailing bits if they are not checked, or of padding if there is none.
    /// - The fault is `None`, and a group was final although texts may be concatenated.
    ///
    /// Some numbers that no decoder keeps are accepted, too. For these it is only guaranteed that
    /// each call is safe, and that a fault that `finish` returns is in the text.
    pub fn resumed(encoding: &'a Encoding, kept: Kept) -> Option<BufferDecoder<'a>>
        ensures goes_on { IfSome result (HasState encoding.now kept) }
        ensures tested { IsSome result → MayBeKept encoding.now kept }
        ensures resumes { IsKept encoding.now kept → IsSome result }
    {
        BufferDecoder::resumed_by_ref(&encoding.by_ref(), kept)
    }

    /// Like [`resumed`](BufferDecoder::resumed), for an encoding by reference.
    pub fn resumed_by_ref(encoding: &EncodingRef<'a>, kept: Kept) -> Option<BufferDecoder<'a>>
        ensures goes_on { IfSome result (HasState encoding.now kept) }
        ensures tested { IsSome result → MayBeKept encoding.now kept }
        ensures resumes { IsKept encoding.now kept → IsSome result }
    {
        let mut decoder = BufferDecoder::new_by_ref(encoding);
        if kept.len > DECODE_LIMIT || kept.count >= encoding.group_len() || kept.count > kept.len {
            return None;
        }
        if !kept.is_in_order() || kept.holds_ignored(encoding) {
            return None;
        }
        if !kept.has_possible_fault(encoding) {
            return None;
        }
        decoder.kept = kept;
        Some(decoder)
    }

    /// Returns the state of the decoder. `resumed` makes the decoder again from it.
    pub fn kept(&self) -> Kept
        ensures value { result ≡ kept_by self.now }
        ensures limit { result.len ≤ DECODE_LIMIT }
        ensures clear { IsSome result.fault → result.count ≡ 0 }
    {
        self.kept
    }

    /// Returns the number of bytes of the text so far.
    pub fn len(&self) -> usize
        ensures value { result ≡ (kept_by self.now).len }
        ensures limit { result ≤ DECODE_LIMIT }
        ensures read { (text : List ℕ) → Keeps (base_of_pieces self.now) (kept_by self.now) text
            → result ≡ length text }
    {
        self.kept.len
    }

    /// Returns the greatest number of bytes of data that `len` more bytes of the text may complete.
    ///
    /// `read` needs an output of at least this length. Together with the `len` bytes, the text must
    /// have at most `DECODE_LIMIT` bytes.
    pub fn most(&self, len: usize) -> usize
        requires limit { (kept_by self.now).len + len ≤ DECODE_LIMIT }
        ensures value { result ≡ most_completed (base_of_pieces self.now) (kept_by self.now) len }
        ensures few { result ≤ len + 7 }
    {
        if self.kept.fault.is_some() {
            return 0;
        }
        self.completed_groups(self.kept.count + len).1
    }

    /// Decodes `piece`: writes the bytes of the groups that it completes to the start of `output`,
    /// and returns their number.
    ///
    /// Together with the piece, the text must have at most `DECODE_LIMIT` bytes. `output` must have
    /// at least the length that `most` returns for `piece.len()`. Of the bytes of that length,
    /// those after the written ones are unspecified.
    ///
    /// Nothing is written from the first faulty group on. `finish` returns the fault of the text.
    pub fn read(&mut self, piece: &[u8], output: &mut [u8]) -> usize
        requires limit { (kept_by self.old).len + length piece.now ≤ DECODE_LIMIT }
        requires room { most_completed (base_of_pieces self.old) (kept_by self.old)
            (length piece.now) ≤ length output.old }
        ensures base { base_of_pieces self.new ≡ base_of_pieces self.old }
        ensures reads { ReadsOn (base_of_pieces self.old) (kept_by self.old) (kept_by self.new)
            piece.now (take result output.new) }
        ensures within { result ≤ length output.new }
        ensures len { length output.new ≡ length output.old }
    {
        let (first_read, first) = self.read_bytes(1, piece, output);
        let (run_read, run) = self.read_run(&piece[first_read..], &mut output[first..]);
        let read = first_read + run_read;
        let written = first + run;
        written + self.read_each(&piece[read..], &mut output[written..])
    }
}
