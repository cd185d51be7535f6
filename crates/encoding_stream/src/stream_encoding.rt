//! Encoding of a reader to a writer.

ghost use Rattle.std.specs.Prelude.{◌≡◌, ◌≢◌, ◌^◌, ◌+◌, ◌-◌, ◌<◌, ◌≤◌, ◌↔◌, length, false, is_err, Err, IsTrue, OnOk};
ghost use Rattle.std.specs.Io.KnownBytes.{Appends, IsAtEnd};
ghost use Rattle.data_encoding.specs.Text.{text_of};
ghost use Rattle.encoding_stream.specs.Encoded.{EncodesAll, EncodesFront, ReadsMore, Succeeds, WritesText};
ghost use Rattle.encoding_stream.specs.Watch.{AppendsFront, has_failed, inner_of, seen};

use crate::error::StreamFault;
use crate::failure_watch::Watch;
use crate::fill::fill;
use data_encoding::laws::join_encode;
use data_encoding::{DecodeError, ENCODE_LIMIT, Encoding};
use std::io;
use std::io::{Read, Write};

// The room for the text that is encoded at a time, and written in one call.
const ROOM: usize = 49152;

/// Reads data to its end, writes its text, and flushes the writer once.
///
/// No call of the reader or the writer may have failed before. Nothing is allocated: the buffers
/// are 96 KiB on the stack. A read asks for at most 8,192 bytes.
///
/// The first failed call of the reader or the writer, even an interrupted one, ends the stream.
/// More than `u64::MAX` bytes are too long. If the stream ends early, a prefix of the text is
/// written. If a read failed or the input is too long, the writer is not flushed.
///
/// ```
/// let mut data = Watch::new(b"Hello".as_slice());
/// let mut text = Watch::new(Vec::new(alloc));
/// encode_stream(&base64(), &mut data, &mut text)?;
/// assert!(rt; text.into_inner().as_slice() == b"SGVsbG8=".as_slice());
/// ```
pub fn encode_stream<R: Read, W: Write>(
    encoding: &Encoding,
    reader: &mut Watch<R>,
    writer: &mut Watch<W>,
) -> Result<(), StreamFault>
    requires reader_works { has_failed reader.old ≡ false }
    requires writer_works { has_failed writer.old ≡ false }

    // After Ok, all was read and its text was written.
    ensures all_read { OnOk result (IsAtEnd (R.remaining (inner_of reader.new))) }
    ensures all_written { OnOk result (WritesText encoding.now
        (seen R.remaining reader.old reader.new) (seen W.contents writer.old writer.new)) }
    ensures whole { OnOk result (EncodesAll encoding.now
        (seen R.remaining reader.old reader.new) (seen W.contents writer.old writer.new)) }

    // In every case a prefix of the text is written.
    ensures begun { EncodesFront encoding.now
        (seen R.remaining reader.old reader.new) (seen W.contents writer.old writer.new) }

    // Each fault is returned exactly for its cause.
    ensures succeeds { Succeeds result (R.remaining (inner_of reader.old))
        (has_failed reader.new) (has_failed writer.new) }
    ensures read { (result ≡ Err StreamFault.Read) ↔ IsTrue (has_failed reader.new) }
    ensures write { (result ≡ Err StreamFault.Write) ↔ IsTrue (has_failed writer.new) }
    ensures too_long { result ≡ Err StreamFault.TooLong
        → ReadsMore (2 ^ 64 - 1) (seen R.remaining reader.old reader.new) }
    ensures no_text { (error : DecodeError) → result ≢ Err (StreamFault.Decode error) }
{
    let piece = encoding.encode_piece_len(ROOM);
    let mut buffer = [0; ROOM];
    let mut output = [0; ROOM];
    let mut total: u64 = 0;
    join_encode();
    loop {
        let left = u64::MAX - total;
        let asked = asked_for(piece, left);
        let count = match fill(reader, &mut buffer[..asked]) {
            Ok(count) => count,
            Err(_) => return Err(StreamFault::Read),
        };
        if count as u64 > left {
            return Err(StreamFault::TooLong);
        }
        total += count as u64;
        let Ok(()) = write_text(encoding, &buffer[..count], &mut output, writer) else {
            return Err(StreamFault::Write);
        };
        if count < asked {
            return match writer.flush() {
                Ok(()) => Ok(()),
                Err(_) => Err(StreamFault::Write),
            };
        }
    }
}

/// Returns the number of bytes to read next: `piece`, or `left + 1` if fewer may still come.
fn asked_for(piece: usize, left: u64) -> usize
    requires { 0 < piece }
    ensures some { 0 < result }
    ensures few { result ≤ piece }
    ensures one { result ≤ left + 1 }
    ensures whole { result ≤ left → result ≡ piece }
{
    if left < piece as u64 {
        left as usize + 1
    } else {
        piece
    }
}

/// Writes the text of `input` in one call of `write_all`.
///
/// `output` must be at least as long as the text.
fn write_text<W: Write>(
    encoding: &Encoding,
    input: &[u8],
    output: &mut [u8],
    writer: &mut Watch<W>,
) -> io::Result<()>
    requires limit { length input.now ≤ ENCODE_LIMIT }
    requires fits { length (text_of encoding.now input.now) ≤ length output.old }
    requires works { has_failed writer.old ≡ false }
    ensures text { OnOk result (Appends (W.contents (inner_of writer.old))
        (W.contents (inner_of writer.new)) (text_of encoding.now input.now)) }
    ensures begun { AppendsFront (W.contents (inner_of writer.old))
        (W.contents (inner_of writer.new)) (text_of encoding.now input.now) }
    ensures failed { has_failed writer.new ≡ is_err result }
{
    let text = &mut output[..encoding.encode_len(input.len())];
    encoding.encode_mut(input, text);
    writer.write_all(text)
}
