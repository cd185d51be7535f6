//! Decoding of a reader to a writer.

ghost use Rattle.std.specs.Prelude.{◌≡◌, ℕ, ◌≤◌, ◌↔◌, List, length, false, Err, IsTrue, OnOk};
ghost use Rattle.std.specs.Io.KnownBytes.{IsAtEnd};
ghost use Rattle.data_encoding.specs.Fault.{fault_of};
ghost use Rattle.encoding_stream.specs.Decoded.{result_of, JudgesText, DecodesFront, DecodesJudged, EndsText};
ghost use Rattle.encoding_stream.specs.Encoded.{ReadsMore};
ghost use Rattle.encoding_stream.specs.BufferDecoder.{base_of_pieces, Keeps};
ghost use Rattle.encoding_stream.specs.Watch.{has_failed, inner_of, seen};

use crate::buffer_decoder::BufferDecoder;
use crate::error::StreamFault;
use crate::failure_watch::Watch;
use crate::fill::fill;
use data_encoding::{DECODE_LIMIT, DecodeError, Encoding};
use std::io::{Read, Write};

// The number of bytes of text that are decoded at a time.
const CHUNK: usize = 32768;

// The length of the buffer for their data.
const ROOM: usize = CHUNK + 8;

/// Reads a text to its end, writes its data, and flushes the writer once.
///
/// No call of the reader or the writer may have failed before. Nothing is allocated: the buffers
/// are 64 KiB on the stack. A read asks for at most 8,192 bytes.
///
/// A text with a fault is read to its end, too. The bytes of the groups before the first faulty one
/// are written, the writer is flushed, and the fault of the whole text is returned.
///
/// The first failed call of the reader or the writer, even an interrupted one, ends the stream.
/// More than `DECODE_LIMIT` bytes are too long. If the stream ends early, a prefix of the data is
/// written. If a read failed or the input is too long, the writer is not flushed.
///
/// ```
/// let mut text = Watch::new(b"SGVsbG8=".as_slice());
/// let mut data = Watch::new(Vec::new(alloc));
/// decode_stream(&base64(), &mut text, &mut data)?;
/// assert!(rt; data.into_inner().as_slice() == b"Hello".as_slice());
/// ```
pub fn decode_stream<R: Read, W: Write>(
    encoding: &Encoding,
    reader: &mut Watch<R>,
    writer: &mut Watch<W>,
) -> Result<(), StreamFault>
    requires reader_works { has_failed reader.old ≡ false }
    requires writer_works { has_failed writer.old ≡ false }

    // If the result is Ok or the fault of the text, all was read, and its sound bytes were written.
    ensures all_read { OnOk result (IsAtEnd (R.remaining (inner_of reader.new))) }
    ensures all { DecodesJudged encoding.now result
        (seen R.remaining reader.old reader.new) (seen W.contents writer.old writer.new) }

    // In every case a prefix of the sound bytes is written.
    ensures begun { DecodesFront encoding.now
        (seen R.remaining reader.old reader.new) (seen W.contents writer.old writer.new) }

    // Each result is returned exactly for its cause.
    ensures judges { JudgesText encoding.now result (R.remaining (inner_of reader.old))
        (has_failed reader.new) (has_failed writer.new) }
    ensures read { (result ≡ Err StreamFault.Read) ↔ IsTrue (has_failed reader.new) }
    ensures write { (result ≡ Err StreamFault.Write) ↔ IsTrue (has_failed writer.new) }
    ensures too_long { result ≡ Err StreamFault.TooLong
        → ReadsMore DECODE_LIMIT (seen R.remaining reader.old reader.new) }
{
    let mut pieces = BufferDecoder::new(encoding);
    let mut buffer = [0; CHUNK];
    let mut output = [0; ROOM];
    loop {
        let left = DECODE_LIMIT - pieces.kept.len;
        let asked = CHUNK.min(left + 1);
        let count = match fill(reader, &mut buffer[..asked]) {
            Ok(count) => count,
            Err(_) => return Err(StreamFault::Read),
        };
        if count > left {
            return Err(StreamFault::TooLong);
        }
        let written = pieces.read(&buffer[..count], &mut output);
        if writer.write_all(&output[..written]).is_err() {
            return Err(StreamFault::Write);
        }
        if count < asked {
            return end(&pieces, &mut output, writer);
        }
    }
}

/// Writes the bytes of the last group, flushes the writer, and returns the verdict on the text.
fn end<W: Write>(
    pieces: &BufferDecoder<'_>,
    output: &mut [u8],
    writer: &mut Watch<W>,
) -> Result<(), StreamFault>
    requires room { 8 ≤ length output.old }
    requires works { has_failed writer.old ≡ false }
    ensures last { EndsText (base_of_pieces pieces.now) pieces.now.kept
        (has_failed writer.new) (W.contents (inner_of writer.old))
        (W.contents (inner_of writer.new)) }
    ensures verdict { (text : List ℕ) → Keeps (base_of_pieces pieces.now) pieces.now.kept text
        → has_failed writer.new ≡ false
        → result ≡ result_of (fault_of (base_of_pieces pieces.now) text) }
    ensures write { IsTrue (has_failed writer.new) → result ≡ Err StreamFault.Write }
{
    let (written, verdict) = pieces.finish(output);
    if writer.write_all(&output[..written]).is_err() || writer.flush().is_err() {
        return Err(StreamFault::Write);
    }
    match verdict {
        Ok(()) => Ok(()),
        Err(error) => Err(StreamFault::Decode(error)),
    }
}
