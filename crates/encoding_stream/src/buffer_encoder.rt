//! Encoding of data in pieces, to buffers.

ghost use Rattle.std.specs.Prelude.{◌≡◌, ℕ, ◌+◌, ◌<◌, ◌≤◌, ◌↔◌, List, [], ◌++◌, length, take, drop, None, IfSome};
ghost use Rattle.data_encoding.specs.Fields.{IsSpecified};
ghost use Rattle.data_encoding.specs.Lengths.{alignment};
ghost use Rattle.data_encoding.specs.Lent.{base_of_lent};
ghost use Rattle.data_encoding.specs.Text.{text_of};
ghost use Rattle.encoding_stream.specs.Specified.{IsBuiltAgain};

use data_encoding::laws::{join_encode, specification_again};
use data_encoding::{ENCODE_LIMIT, Encoding, EncodingRef, KeptData, LentEncoding};

/// Encodes data that comes in pieces, cut anywhere, into buffers of the caller.
///
/// A block is `encode_align` bytes of data: a whole line, or a whole group in an encoding without
/// lines.
/// The text of a block is written when the block is complete. The state of the encoder is plain
/// numbers: `kept` returns them, and `resumed` continues from them.
#[derive(Clone, Copy, Debug, Drop)]
pub struct BufferEncoder<'a> {
    encoding: LentEncoding<'a>,
    block: usize,
    kept: KeptData,
    ghost specified: { IsBuiltAgain (base_of_lent encoding) },
    ghost block_len: { block ≡ alignment (base_of_lent encoding) },
    ghost most: { block ≤ 189 },
    ghost short: { kept.count < block },
}

impl<'a> BufferEncoder<'a> {
    ghost use Rattle.data_encoding.specs.KeptData.{after_blocks, held_data, piece_text};
    ghost use Rattle.encoding_stream.specs.BufferEncoder.{base_of_blocks, data_kept, EncodesOn, EndsBlocks, HasWritten};

    /// Returns an encoder that has read nothing.
    pub fn new(encoding: &'a Encoding) -> BufferEncoder<'a>
        ensures base { base_of_blocks result ≡ encoding.now }
        ensures nothing { HasWritten encoding.now (data_kept result) [] [] }
        ensures specified { IsSpecified encoding.now }
    {
        BufferEncoder::new_by_ref(&encoding.by_ref())
    }

    /// Like [`new`](BufferEncoder::new), for an encoding by reference.
    pub fn new_by_ref(encoding: &EncodingRef<'a>) -> BufferEncoder<'a>
        ensures base { base_of_blocks result ≡ encoding.now }
        ensures nothing { HasWritten encoding.now (data_kept result) [] [] }
        ensures specified { IsSpecified encoding.now }
    {
        join_encode();
        specification_again();
        BufferEncoder {
            encoding: encoding.lend(),
            block: encoding.encode_align(),
            kept: KeptData {
                count: 0,
                bytes: [0; 189],
            },
        }
    }

    /// Returns an encoder that continues from the state `kept` of another encoder of the same
    /// encoding.
    ///
    /// Returns `None` if a whole block is held, which is so for no encoder. Any other numbers are
    /// accepted: they are the state of an encoder that has read only the held bytes.
    pub fn resumed(encoding: &'a Encoding, kept: KeptData) -> Option<BufferEncoder<'a>>
        ensures base { IfSome result (λ encoder. base_of_blocks encoder ≡ encoding.now) }
        ensures kept { IfSome result (λ encoder. data_kept encoder ≡ kept) }
        ensures short { IfSome result (λ _. kept.count < alignment encoding.now) }
        ensures few { IfSome result (λ _. kept.count ≤ 188) }
        ensures refused { (result ≡ None) ↔ (alignment encoding.now ≤ kept.count) }
    {
        BufferEncoder::resumed_by_ref(&encoding.by_ref(), kept)
    }

    /// Like [`resumed`](BufferEncoder::resumed), for an encoding by reference.
    pub fn resumed_by_ref(encoding: &EncodingRef<'a>, kept: KeptData) -> Option<BufferEncoder<'a>>
        ensures base { IfSome result (λ encoder. base_of_blocks encoder ≡ encoding.now) }
        ensures kept { IfSome result (λ encoder. data_kept encoder ≡ kept) }
        ensures short { IfSome result (λ _. kept.count < alignment encoding.now) }
        ensures few { IfSome result (λ _. kept.count ≤ 188) }
        ensures refused { (result ≡ None) ↔ (alignment encoding.now ≤ kept.count) }
    {
        specification_again();
        let block = encoding.encode_align();
        if kept.count >= block {
            return None;
        }
        let lent = encoding.lend();
        Some(BufferEncoder {
            encoding: lent,
            block,
            kept,
        })
    }

    /// Returns the state of the encoder. `resumed` makes the encoder again from it.
    pub fn kept(&self) -> KeptData
        ensures value { result ≡ data_kept self.now }
        ensures short { result.count < alignment (base_of_blocks self.now) }
    {
        self.kept
    }

    /// Returns the length in bytes of the text of the blocks that `len` more bytes of data
    /// complete.
    ///
    /// `len` must be at most `ENCODE_LIMIT`. `read` needs an output of at least this length.
    pub fn due(&self, len: usize) -> usize
        requires limit { len ≤ ENCODE_LIMIT }
        ensures value { (piece : List ℕ) → length piece ≡ len
            → length (piece_text (base_of_blocks self.now) (data_kept self.now) piece) ≡ result }
    {
        let encoding = self.encoding.by_ref();
        encoding.due_len(self.block, &self.kept, len).total
    }

    /// Encodes `piece`: writes the text of the blocks that it completes to the start of `output`,
    /// and returns the length of that text.
    ///
    /// `piece` must have at most `ENCODE_LIMIT` bytes. `output` must have at least the length that
    /// `due` returns for `piece.len()`. The bytes of `output` after the text are unchanged.
    pub fn read(&mut self, piece: &[u8], output: &mut [u8]) -> usize
        requires limit { length piece.now ≤ ENCODE_LIMIT }
        requires room { length (piece_text (base_of_blocks self.old) (data_kept self.old) piece.now)
            ≤ length output.old }
        ensures base { base_of_blocks self.new ≡ base_of_blocks self.old }
        ensures text { take result output.new
            ≡ piece_text (base_of_blocks self.old) (data_kept self.old) piece.now }
        ensures held { held_data (data_kept self.new) ≡ after_blocks (base_of_blocks self.old)
            (held_data (data_kept self.old) ++ piece.now) }
        ensures encodes { EncodesOn (base_of_blocks self.old) (data_kept self.old)
            (data_kept self.new) piece.now (take result output.new) }
        ensures within { result ≤ length output.new }
        ensures after { drop result output.new ≡ drop result output.old }
        ensures len { length output.new ≡ length output.old }
    {
        let encoding = self.encoding.by_ref();
        let due = encoding.due_len(self.block, &self.kept, piece.len());
        encoding.read_piece(
            self.block,
            &mut self.kept,
            piece,
            due,
            &mut output[..due.total],
        );
        due.total
    }

    /// Ends the data: writes the text of the held bytes, with its padding and line separator, to
    /// the start of `output`, and returns its length.
    ///
    /// `output` must be at least as long as that text. The bytes of `output` after the text are
    /// unchanged.
    pub fn finish(&self, output: &mut [u8]) -> usize
        requires room { length (text_of (base_of_blocks self.now)
            (held_data (data_kept self.now))) ≤ length output.old }
        ensures text { take result output.new ≡ text_of (base_of_blocks self.now)
            (held_data (data_kept self.now)) }
        ensures whole { EndsBlocks (base_of_blocks self.now) (data_kept self.now)
            (take result output.new) }
        ensures within { result ≤ length output.new }
        ensures after { drop result output.new ≡ drop result output.old }
        ensures len { length output.new ≡ length output.old }
    {
        join_encode();
        write_front(self.encoding, &self.kept.bytes[..self.kept.count], output)
    }
}

/// Writes the text of `input` to the start of `output`, and returns its length.
fn write_front(lent: LentEncoding<'_>, input: &[u8], output: &mut [u8]) -> usize
    requires limit { length input.now ≤ ENCODE_LIMIT }
    requires room { length (text_of (base_of_lent lent) input.now) ≤ length output.old }
    ensures text { take result output.new ≡ text_of (base_of_lent lent.entry) input.now }
    ensures after { drop result output.new ≡ drop result output.old }
    ensures value { result ≡ length (text_of (base_of_lent lent.entry) input.now) }
    ensures len { length output.new ≡ length output.old }
{
    let encoding = lent.by_ref();
    let len = encoding.encode_len(input.len());
    encoding.encode_mut(input, &mut output[..len]);
    len
}
