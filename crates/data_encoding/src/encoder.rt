//! Encoding of data that comes in pieces.

ghost use Rattle.std.specs.Prelude.{◌≡◌, ℕ, ◌+◌, ◌<◌, ◌≤◌, List, [], ◌++◌, length, IfErr, IsOk, OnErr, OnOk};
ghost use Rattle.std.specs.Borrow.{sem};
ghost use Rattle.std.specs.String.{string_bytes, string_capacity};
ghost use Rattle.data_encoding.specs.KeptData.{held_data};
ghost use Rattle.data_encoding_meaning.specs.text.Base.{Base};
ghost use Rattle.data_encoding_meaning.specs.text.EncodedPieces.{HasEncoded};
ghost use Rattle.data_encoding_meaning.specs.text.Lengths.{alignment};

use crate::encode::ENCODE_LIMIT;
use crate::encode::kept_data::KeptData;
use crate::encoding::{Encoding, EncodingRef};
use std::alloc::{AllocError, Allocator};

/// An encoding that an [`Encoder`] can borrow.
///
/// It is a type parameter because the prover tracks the text only if it is the encoder's only
/// reference.
pub trait Encodes: Copy {
    ghost base: { Self → Base };

    /// Returns a reference to the encoding.
    fn by_ref(&self) -> EncodingRef<'_>
        ensures { result ≡ Self.base self.now };
}

impl Encodes for &Encoding {
    ghost base = { λ encoding. encoding.now };

    #[inline(always)]
    fn by_ref(&self) -> EncodingRef<'_> {
        Encoding::by_ref(self)
    }
}

/// Encodes data that comes in pieces, and appends its text to a string.
///
/// It borrows the string and the encoding. A block is `encode_align` bytes of data: a whole line,
/// or a whole group if there are no lines. The text of a block is appended when the block is
/// complete. The encoder holds the bytes of an unfinished block.
///
/// An encoder must be consumed by `finalize` or `abandon`: a program that drops one does not
/// compile.
#[derive(Debug)]
pub struct Encoder<'a, E: Encodes = &'a Encoding> {
    encoding: E,
    output: &'a mut String,
    kept: KeptData,
    block_len: usize,
    ghost block: { block_len ≡ alignment (E.base encoding) },
    ghost most: { block_len ≤ 189 },
    ghost short: { kept.count < block_len },
}

impl Encoding {
    ghost use Rattle.data_encoding.specs.Encoder.{base_of_encoder, output_name, HasTaken};

    /// Returns an encoder that appends to `output`. It holds no bytes.
    pub fn new_encoder<'a>(&'a self, output: &'a mut String) -> Encoder<'a>
        ensures output { output_name result ≡ output.entry.ghost_name }
        ensures base { base_of_encoder result ≡ self.now }
        ensures pieces { HasTaken result (string_bytes output.old) [] }
    {
        let block_len = self.encode_align();
        Encoder {
            encoding: self,
            output,
            kept: KeptData {
                count: 0,
                bytes: [0; 189],
            },
            block_len,
        }
    }
}

impl EncodingRef<'_> {
    /// Appends the text of the blocks that the input completes, and holds the rest.
    fn append_blocks<A: Allocator + Copy>(
        &self,
        input: &[u8],
        kept: &mut KeptData,
        block_len: usize,
        output: &mut String<A>,
    ) -> Result<(), AllocError>
        requires limit { length input.now ≤ ENCODE_LIMIT }
        requires block { block_len ≡ alignment self.now }
        requires most { block_len ≤ 189 }
        requires short { kept.old.count < block_len }
        ensures pieces { OnOk result ((before bytes : List ℕ)
            → HasEncoded self.now before bytes (string_bytes output.old) (held_data kept.old)
            → HasEncoded self.now before (bytes ++ input.now) (string_bytes output.new)
            (held_data kept.new)) }
        ensures short { kept.new.count < block_len }
        ensures kept { OnErr result (kept.new ≡ kept.old) }
        ensures unchanged { OnErr result (string_bytes output.new ≡ string_bytes output.old) }
        ensures capacity { OnErr result (string_capacity output.new
            ≡ string_capacity output.old) }
        ensures no_block { kept.old.count + length input.now < block_len → IsOk result }
    {
        let due = self.due_len(block_len, kept, input.len());
        if due.total == 0 {
            self.read_piece(block_len, kept, input, due, &mut []);
            return Ok(());
        }
        output.reserve(due.total)?;
        self.append_piece(block_len, kept, input, due, output);
        Ok(())
    }
}

impl<'a, E: Encodes> Encoder<'a, E> {
    ghost use Rattle.data_encoding.specs.Encoder.{base_of_encoder, held, output_name, written, Finalizes, HasTaken, IsUnchanged};

    /// Encodes the piece `input`: appends the text of the blocks that it completes, and holds the
    /// other bytes.
    ///
    /// `input` must have at most `ENCODE_LIMIT` bytes.
    ///
    /// Returns an error only if memory runs out, and never if no block is completed. The bytes and
    /// the capacity of the text, and the held bytes, are then unchanged.
    pub fn append(&mut self, input: &[u8]) -> Result<(), AllocError>
        requires limit { length input.now ≤ ENCODE_LIMIT }
        ensures output { output_name self.new ≡ output_name self.old }
        ensures base { base_of_encoder self.new ≡ base_of_encoder self.old }
        ensures pieces { OnOk result ((before bytes : List ℕ)
            → HasTaken self.old before bytes → HasTaken self.new before (bytes ++ input.now)) }
        ensures unchanged { OnErr result (IsUnchanged self.old self.new) }
        ensures no_block { length (held self.old) + length input.now
            < alignment (base_of_encoder self.old) → IsOk result }
    {
        self.encoding
            .by_ref()
            .append_blocks(input, &mut self.kept, self.block_len, self.output)
    }

    /// Appends the text of the held bytes, with its padding and line separator.
    ///
    /// Returns the encoder if memory runs out, which never happens if no byte is held. The encoder,
    /// and the bytes and the capacity of the text, are then unchanged.
    pub fn finalize(self) -> Result<(), Encoder<'a, E>>
        ensures* text { sem 𝓛 (Finalizes self.entry result) }
        ensures unchanged { IfErr result (λ encoder. IsUnchanged self.entry encoder) }
        ensures empty { length (held self.entry) ≡ 0 → IsOk result }
    {
        let Encoder {
            encoding,
            output,
            kept,
            block_len,
        } = self;
        if encoding
            .by_ref()
            .append_in(&kept.bytes[..kept.count], output)
            .is_err()
        {
            return Err(Encoder {
                encoding,
                output,
                kept,
                block_len,
            });
        }
        Ok(())
    }

    /// Discards the held bytes. The text of the completed blocks stays.
    pub fn abandon(self)
        ensures { string_bytes self.exit.1.0.now ≡ written self.entry }
    {
        let Encoder {
            encoding: _,
            output: _,
            kept: _,
            block_len: _,
        } = self;
    }
}

// The compiler refuses two impls for one type, so the crate compiles only while an encoder is not
// `Drop`.
trait MustBeSpent {}

impl<T: Drop> MustBeSpent for T {}

impl MustBeSpent for Encoder<'_> {}
