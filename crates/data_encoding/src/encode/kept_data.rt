//! Data that is encoded piece by piece: the state between the pieces, and the encoding of a piece.

ghost use Rattle.std.specs.Prelude.{◌≡◌, ℕ, ◌+◌, ◌<◌, ◌≤◌, List, ◌++◌, All, length};
ghost use Rattle.data_encoding.specs.KeptData.{after_blocks, held_data, piece_text, IsDue};
ghost use Rattle.data_encoding_meaning.specs.text.EncodedPieces.{HasEncoded};
ghost use Rattle.data_encoding_meaning.specs.text.Lengths.{alignment};
ghost use Rattle.data_encoding_meaning.specs.text.Text.{text_of};

use crate::encode::ENCODE_LIMIT;
use crate::encoding::EncodingRef;
use data_encoding_kernel::copy::copy_short;

/// The state of an encoder between two pieces of data, as plain numbers.
#[repr(C)]
#[derive(Clone, Copy, Debug, Drop)]
pub struct KeptData {
    /// The number of held bytes of an unfinished block.
    pub count: usize,

    /// The held bytes are the first `count` of these.
    pub bytes: [u8; 189],
}

/// The lengths, in bytes, of the text that a piece completes, and of its blocks.
#[derive(Clone, Copy, Debug, Drop)]
pub struct DueLen {
    /// The length of the text of one block, or 0 if no block is completed.
    pub block: usize,

    /// The length of the text of all completed blocks.
    pub total: usize,

    /// The length of the piece's whole blocks after the first completed one.
    pub whole: usize,
}

impl KeptData {
    /// Holds more bytes.
    fn hold(&mut self, more: &[u8])
        requires room { self.old.count + length more.now ≤ 189 }
        ensures held { held_data self.new ≡ held_data self.old ++ more.now }
        ensures count { self.new.count ≡ self.old.count + length more.now }
    {
        let end = self.count + more.len();
        copy_short(more, &mut self.bytes[self.count..end]);
        self.count = end;
    }
}

impl EncodingRef<'_> {
    /// Returns the lengths of the text that a piece of `len` bytes completes after the bytes that
    /// `kept` holds.
    ///
    /// `len` must be at most `ENCODE_LIMIT`. `block_len` must be the length of a block, as
    /// `encode_align` returns it, and `kept` must hold fewer bytes.
    #[inline(always)]
    pub fn due_len(&self, block_len: usize, kept: &KeptData, len: usize) -> DueLen
        requires limit { len ≤ ENCODE_LIMIT }
        requires block { block_len ≡ alignment self.now }
        requires most { block_len ≤ 189 }
        requires short { kept.now.count < block_len }
        ensures { IsDue self.now kept.now len result }
    {
        // The invariant is known where a field is used, and the early return needs it too.
        let _ = &self.fields;
        let missing = block_len - kept.count;
        if len < missing {
            return DueLen {
                block: 0,
                total: 0,
                whole: 0,
            };
        }
        let rest = len - missing;
        let block = self.encode_len(block_len);
        let count = rest / block_len;
        DueLen {
            block,
            total: block + count * block,
            whole: count * block_len,
        }
    }

    /// Encodes `piece`: writes the text of the blocks that it completes to `output`, and holds the
    /// other bytes in `kept`.
    ///
    /// `piece` must have at most `ENCODE_LIMIT` bytes. `block_len` must be the length of a block,
    /// as `encode_align` returns it, and `kept` must hold fewer bytes. `due` must be the result of
    /// `due_len` for the piece, and `output` must have `due.total` bytes.
    #[inline(always)]
    pub fn read_piece(
        &self,
        block_len: usize,
        kept: &mut KeptData,
        piece: &[u8],
        due: DueLen,
        output: &mut [u8],
    )
        requires limit { length piece.now ≤ ENCODE_LIMIT }
        requires block { block_len ≡ alignment self.now }
        requires most { block_len ≤ 189 }
        requires short { kept.old.count < block_len }
        requires due { IsDue self.now kept.old (length piece.now) due }
        requires exact { length output.old ≡ due.total }
        ensures text { output.new ≡ piece_text self.now kept.old piece.now }
        ensures ascii { All (λ byte. byte < 128) output.new }
        ensures held { held_data kept.new
            ≡ after_blocks self.now (held_data kept.old ++ piece.now) }
        ensures encodes { (before bytes written : List ℕ)
            → HasEncoded self.now before bytes written (held_data kept.old)
            → HasEncoded self.now before (bytes ++ piece.now) (written ++ output.new)
            (held_data kept.new) }
        ensures short { kept.new.count < block_len }
    {
        let missing = block_len - kept.count;
        if piece.len() < missing {
            kept.hold(piece);
            return;
        }
        let (first, rest) = piece.split_at(missing);
        let (blocks, left) = rest.split_at(due.whole);
        kept.hold(first);
        self.encode_both(&kept.bytes[..block_len], due.block, blocks, output);
        *kept = KeptData {
            count: 0,
            bytes: [0; 189],
        };
        kept.hold(left);
    }

    /// Writes the texts of two inputs one after the other. The first text has `len` bytes.
    fn encode_both(&self, first: &[u8], len: usize, second: &[u8], output: &mut [u8])
        requires first { length first.now ≤ ENCODE_LIMIT }
        requires second { length second.now ≤ ENCODE_LIMIT }
        requires len { len ≡ length (text_of self.now first.now) }
        requires exact { length output.old ≡ len + length (text_of self.now second.now) }
        ensures text { output.new ≡ text_of self.now first.now ++ text_of self.now second.now }
        ensures ascii { All (λ byte. byte < 128) output.new }
    {
        self.encode_mut(first, &mut output[..len]);
        if len < output.len() {
            self.encode_mut(second, &mut output[len..]);
        }
    }
}
