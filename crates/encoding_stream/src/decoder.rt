//! Decoding of a text in pieces, to a vector.

ghost use Rattle.std.specs.Prelude.{◌≡◌, ℕ, ◌+◌, ◌≤◌, List, ◌++◌, length, vec_capacity, IfOk, IsOk, OnErr, OnOk};
ghost use Rattle.data_encoding.specs.declared.decode.TheConstants.{DECODE_LIMIT};
ghost use Rattle.encoding_stream.specs.BufferDecoder.{base_of_pieces, Keeps};
ghost use Rattle.encoding_stream.specs.Reading.{AppendsLast, HasNoLastBytes, HasVerdict};

use crate::append_piece::{append_piece, append_within};
use crate::buffer_decoder::BufferDecoder;
use data_encoding::{DECODE_LIMIT, DecodeError, Encoding};
use std::alloc::{AllocError, Allocator};

/// Decodes a text that comes in pieces, cut anywhere.
///
/// The bytes of a group are appended when the group is complete. The decoder keeps the length of
/// the text, its first fault, and at most seven bytes of an unfinished group with their positions.
/// It does not allocate for itself.
#[derive(Debug, Drop)]
pub struct Decoder<'a> {
    pieces: BufferDecoder<'a>,
}

/// The result of `Decoder::finish` for the whole text.
#[derive(Clone, Copy, Debug, PartialEq, Eq)]
pub struct Finished {
    /// The fault of the text, if it has one, as `Encoding::decode` returns it.
    pub verdict: Result<(), DecodeError>,
}

impl<'a> Decoder<'a> {
    ghost use Rattle.std.specs.Prelude.{◌≡◌, ℕ, ◌+◌, ◌≤◌, List, [], ◌++◌, length, vec_capacity, IfErr, IfOk, IsOk, OnErr, OnOk};
    ghost use Rattle.data_encoding.specs.Fields.{IsSpecified};
    ghost use Rattle.data_encoding.specs.Pieces.{whole_bytes};
    ghost use Rattle.encoding_stream.specs.Decoder.{base_of_decoder, decoder_len, AppendsFinished, AppendsPushed, FinishesWith, HasConsumed};
    ghost use Rattle.encoding_stream.specs.Reading.{CompletesNothing, HasNoLastBytes};

    /// Returns a decoder that has read nothing.
    pub fn new(encoding: &'a Encoding) -> Decoder<'a>
        ensures base { base_of_decoder result ≡ encoding.now }
        ensures nothing { HasConsumed result [] }
        ensures no_bytes { whole_bytes encoding.now [] ≡ [] }
        ensures specified { IsSpecified encoding.now }
    {
        Decoder {
            pieces: BufferDecoder::new(encoding),
        }
    }

    /// Returns the number of bytes of text that were pushed.
    pub fn len(&self) -> usize
        ensures value { result ≡ decoder_len self.now }
        ensures pushed { (text : List ℕ) → HasConsumed self.now text → result ≡ length text }
    {
        self.pieces.kept.len
    }

    /// Decodes `piece`: appends the bytes of the groups that it completes to `output`, up to the
    /// first faulty group.
    ///
    /// Together with the piece, the text must have at most `DECODE_LIMIT` bytes. `output` may hold
    /// anything: it may be drained or exchanged between pieces.
    ///
    /// Returns an error only if memory runs out, and never if no byte is to be appended. The
    /// decoder, and the bytes and the capacity of `output`, are then unchanged. `finish` returns
    /// the fault of the text.
    pub fn push(&mut self, piece: &[u8], output: &mut Vec<u8>) -> Result<(), AllocError>
        requires limit { decoder_len self.old + length piece.now ≤ DECODE_LIMIT }
        ensures base { base_of_decoder self.new ≡ base_of_decoder self.old }
        ensures len { OnOk result (decoder_len self.new
            ≡ decoder_len self.old + length piece.now) }
        ensures stands { OnOk result ((text : List ℕ) → HasConsumed self.old text
            → HasConsumed self.new (text ++ piece.now)) }
        ensures appends { OnOk result (AppendsPushed self.old piece.now output.old.items
            output.new.items) }
        ensures unchanged { OnErr result ((self.new ≡ self.old)
            × (output.new.items ≡ output.old.items)) }
        ensures capacity { OnErr result (vec_capacity output.new ≡ vec_capacity output.old) }
        ensures no_group { (text : List ℕ) → HasConsumed self.old text
            → CompletesNothing (base_of_decoder self.old) text piece.now → IsOk result }
    {
        let most = self.pieces.most(piece.len());
        if most <= output.capacity() - output.len() {
            append_within(&mut self.pieces, piece, most, output);
            return Ok(());
        }
        let mut pieces = self.pieces;
        append_piece(&mut pieces, piece, output)?;
        self.pieces = pieces;
        Ok(())
    }

    /// Ends the text: appends the bytes of its last group to `output`, and returns the fault of the
    /// whole text, if it has one.
    ///
    /// Nothing is appended if the last group or a group before it has a fault.
    ///
    /// Returns the decoder if memory runs out, which never happens if no byte is to be appended.
    /// The decoder, and the bytes and the capacity of `output`, are then unchanged.
    pub fn finish(self, output: &mut Vec<u8>) -> Result<Finished, Decoder<'a>>
        ensures verdict { IfOk result (λ finished. FinishesWith self.entry finished.verdict) }
        ensures appends { OnOk result (AppendsFinished self.entry output.old.items
            output.new.items) }
        ensures unchanged { IfErr result (λ decoder. (decoder ≡ self.entry)
            × (output.new.items ≡ output.old.items)) }
        ensures capacity { OnErr result (vec_capacity output.new ≡ vec_capacity output.old) }
        ensures no_bytes { (text : List ℕ) → HasConsumed self.entry text
            → HasNoLastBytes (base_of_decoder self.entry) text → IsOk result }
    {
        match append_last(&self.pieces, output) {
            Ok(verdict) => Ok(Finished { verdict }),
            Err(_) => Err(self),
        }
    }
}

/// Like [`Decoder::finish`], for any allocator.
fn append_last<A: Allocator + Copy>(
    pieces: &BufferDecoder<'_>,
    output: &mut Vec<u8, A>,
) -> Result<Result<(), DecodeError>, AllocError>
    ensures verdict { IfOk result (λ verdict.
        HasVerdict (base_of_pieces pieces.now) pieces.now.kept verdict) }
    ensures appends { OnOk result (AppendsLast (base_of_pieces pieces.now) pieces.now.kept
        output.old.items output.new.items) }
    ensures unchanged { OnErr result (output.new.items ≡ output.old.items) }
    ensures capacity { OnErr result (vec_capacity output.new ≡ vec_capacity output.old) }
    ensures no_bytes { (text : List ℕ)
        → Keeps (base_of_pieces pieces.now) pieces.now.kept text
        → HasNoLastBytes (base_of_pieces pieces.now) text → IsOk result }
{
    let mut bytes = [0; 8];
    let (count, verdict) = pieces.finish(&mut bytes);
    if count > 0 {
        output.reserve(count)?;
        output.extend_from_slice(&bytes[..count]).unwrap();
    }
    Ok(verdict)
}
