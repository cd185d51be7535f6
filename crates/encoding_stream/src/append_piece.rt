//! Decoding of a piece of a text to the end of a vector.

ghost use Rattle.std.specs.Prelude.{◌≡◌, ℕ, ◌+◌, ◌≤◌, ◌⊎◌, List, length, vec_capacity, vec_len, IsOk, OnErr, OnOk};
ghost use Rattle.data_encoding.specs.declared.decode.TheConstants.{DECODE_LIMIT};
ghost use Rattle.encoding_stream.specs.Appending.{IsAsBefore};
ghost use Rattle.encoding_stream.specs.BufferDecoder.{base_of_pieces, most_completed, Keeps};
ghost use Rattle.encoding_stream.specs.Reading.{AppendsPiece, CompletesNothing};

use crate::buffer_decoder::BufferDecoder;
use data_encoding::DECODE_LIMIT;
use std::alloc::{AllocError, Allocator};

// The number of bytes of a piece that are decoded at a time. Each costs a call of the decoder, and
// room for it is filled with zeros once for a piece: a greater number makes short pieces slower, a
// smaller one long pieces.
const CHUNK: usize = 512;

// The length of the buffer for their data: at most seven bytes more.
const ROOM: usize = CHUNK + 8;

/// Decodes a piece, and appends the bytes of the groups that it completes.
///
/// The output grows once, before the first byte is appended. If that fails, the decoder is no
/// longer usable.
pub(crate) fn append_piece<A: Allocator + Copy>(
    pieces: &mut BufferDecoder<'_>,
    piece: &[u8],
    output: &mut Vec<u8, A>,
) -> Result<(), AllocError>
    requires limit { pieces.old.kept.len + length piece.now ≤ DECODE_LIMIT }
    ensures base { base_of_pieces pieces.new ≡ base_of_pieces pieces.old }
    ensures appends { OnOk result (AppendsPiece (base_of_pieces pieces.old) pieces.old.kept
        pieces.new.kept piece.now output.old.items output.new.items) }
    ensures unchanged { OnErr result (output.new.items ≡ output.old.items) }
    ensures capacity { OnErr result (vec_capacity output.new ≡ vec_capacity output.old) }
    ensures no_group { (text : List ℕ)
        → Keeps (base_of_pieces pieces.old) pieces.old.kept text
        → CompletesNothing (base_of_pieces pieces.old) text piece.now → IsOk result }
{
    let mut buffer = [0; ROOM];
    let mut read = 0;
    while read < piece.len() {
        let end = piece.len().min(read + CHUNK);
        let rest = piece.len() - end;
        append_chunk(pieces, &piece[read..end], rest, &mut buffer, output)?;
        read = end;
    }
    Ok(())
}

/// Decodes a piece to the end of `output`, which has room for the `most` bytes that the piece may
/// complete.
pub(crate) fn append_within<A: Allocator + Copy>(
    pieces: &mut BufferDecoder<'_>,
    piece: &[u8],
    most: usize,
    output: &mut Vec<u8, A>,
)
    requires limit { pieces.old.kept.len + length piece.now ≤ DECODE_LIMIT }
    requires most { most ≡ most_completed (base_of_pieces pieces.old) pieces.old.kept
        (length piece.now) }
    requires room { vec_len output.old + most ≤ vec_capacity output.old }
    ensures base { base_of_pieces pieces.new ≡ base_of_pieces pieces.old }
    ensures appends { AppendsPiece (base_of_pieces pieces.old) pieces.old.kept
        pieces.new.kept piece.now output.old.items output.new.items }
{
    let start = output.len();
    output.resize(start + most, 0).unwrap();
    let written = pieces.read(piece, &mut output[start..]);
    output.truncate(start + written);
}

/// Decodes a part of a piece to `buffer`, and appends the decoded bytes to `output`.
///
/// If there are any, `output` first grows for them and for the bytes that the next `rest` bytes of
/// the piece may complete.
fn append_chunk<A: Allocator + Copy>(
    pieces: &mut BufferDecoder<'_>,
    chunk: &[u8],
    rest: usize,
    buffer: &mut [u8],
    output: &mut Vec<u8, A>,
) -> Result<(), AllocError>
    requires limit { pieces.old.kept.len + (length chunk.now + rest) ≤ DECODE_LIMIT }
    requires buffer { length chunk.now + 8 ≤ length buffer.old }
    ensures base { base_of_pieces pieces.new ≡ base_of_pieces pieces.old }
    ensures appends { OnOk result (AppendsPiece (base_of_pieces pieces.old) pieces.old.kept
        pieces.new.kept chunk.now output.old.items output.new.items) }
    ensures unchanged { OnErr result (output.new.items ≡ output.old.items) }
    ensures capacity { OnErr result (vec_capacity output.new ≡ vec_capacity output.old) }
    ensures room { vec_len output.old + most_completed (base_of_pieces pieces.old)
        pieces.old.kept (length chunk.now + rest) ≤ vec_capacity output.old → IsOk result }
    ensures rest { OnOk result ((vec_len output.old + most_completed (base_of_pieces pieces.old)
        pieces.old.kept (length chunk.now + rest) ≤ vec_capacity output.old)
        → vec_len output.new + most_completed (base_of_pieces pieces.old) pieces.new.kept rest
        ≤ vec_capacity output.new) }
    ensures grows { OnOk result (IsAsBefore output.old output.new
        ⊎ (vec_len output.new + most_completed (base_of_pieces pieces.old)
        pieces.new.kept rest ≤ vec_capacity output.new)) }
    ensures no_group { (text : List ℕ)
        → Keeps (base_of_pieces pieces.old) pieces.old.kept text
        → CompletesNothing (base_of_pieces pieces.old) text chunk.now → IsOk result }
    ensures len { length buffer.new ≡ length buffer.old }
{
    let written = pieces.read(chunk, buffer);
    if written == 0 {
        return Ok(());
    }
    let more = pieces.most(rest);
    output.reserve(written + more)?;
    output.extend_from_slice(&buffer[..written]).unwrap();
    Ok(())
}
