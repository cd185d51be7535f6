//! A run of the program, over a reader and two writers.

ghost use Rattle.std.specs.Prelude.{◌≡◌, ◌≢◌, ◌≤◌, ◌↔◌, ◌⊎◌, false, IsTrue, IfErr, IsErr, OnOk, Err, None};
ghost use Rattle.std.specs.Io.KnownBytes.{Appends};
ghost use Rattle.basecode.specs.Faults.{status_after};
ghost use Rattle.basecode.specs.Run.{AskConversion, Begins, Begun, Converts, Done, CausesFault, Refused, IsCanonicalLine};
ghost use Rattle.encoding_stream.specs.Watch.{AppendsFront, has_failed, inner_of, seen};
ghost use Rattle.basecode.specs.Arguments.{request_of, texts};

use crate::command::{Ask, Request, Verb, request_named};
use crate::fault::{exit_status, print_fault};
use data_encoding::laws::sound_text;
use data_encoding::{Encoding, predefined_names};
use encoding_stream::{StreamFault, Watch, decode_stream, encode_stream};
use std::alloc::Global;
use std::io::{Read, Write};

/// Does the request of the arguments `words`, and returns the exit status.
///
/// Nothing is allocated: the allocator is not used. No call of `reader` or `writer` may have failed
/// before.
///
/// `list` writes the names of the encodings, each followed by LF. `canonical NAME` writes `true` if
/// data has only one text in an encoding, and `false` otherwise, followed by LF. Neither reads
/// anything. `encode NAME` reads the input to its end and writes its text. `decode NAME` reads the
/// input to its end and writes the data that it means. The output is flushed once, and the status
/// is 0.
///
/// A text with a fault is read to its end, too. The bytes of the groups before the first faulty one
/// are written and flushed, and the status is 1. An input above the limit, `u64::MAX` bytes of data
/// or `DECODE_LIMIT` bytes of text, also has status 1. It is not read to its end, and nothing is
/// flushed. If the usage is wrong, the status is 2, and nothing is read or written. A read, a write
/// or a flush that fails ends the run with status 3.
///
/// Unless the usage is wrong, a prefix of the requested output is written in every case. A line
/// about the fault is printed to `faults`. A failure to print it is ignored.
pub fn run<R: Read, W: Write, F: Write>(
    _alloc: Global,
    words: &[String],
    reader: &mut Watch<R>,
    writer: &mut Watch<W>,
    faults: &mut F,
) -> u8
    requires reader_works { has_failed reader.old ≡ false }
    requires writer_works { has_failed writer.old ≡ false }
    ensures status { result ≤ 3 }
    ensures done { result ≡ 0 → Done (texts words.now)
        (seen R.remaining reader.old reader.new) (seen W.contents writer.old writer.new) }
    ensures refused { result ≡ 1 → Refused (texts words.now)
        (seen R.remaining reader.old reader.new) (seen W.contents writer.old writer.new) }
    ensures usage { (result ≡ 2) ↔ (request_of (texts words.now) ≡ None) }
    ensures untouched { result ≡ 2 → (reader.new ≡ reader.old) × (writer.new ≡ writer.old) }
    ensures failed { (result ≡ 3)
        ↔ (IsTrue (has_failed reader.new) ⊎ IsTrue (has_failed writer.new)) }

    // Only a conversion reads, and only the requested output is written.
    ensures reads { IsTrue (has_failed reader.new) → AskConversion (texts words.now) }
    ensures begun { result ≢ 2 → Begun (texts words.now)
        (seen R.remaining reader.old reader.new) (seen W.contents writer.old writer.new) }
{
    match request_named(words) {
        Ok(Request::List) => settle(send(predefined_names().as_bytes(), writer), faults),
        Ok(Request::Of(task)) => match task.ask {
            Ask::Question => settle(send(truth_of(&task.encoding), writer), faults),
            Ask::Conversion(verb) => {
                sound_text();
                settle(convert(verb, &task.encoding, reader, writer), faults)
            }
        },
        Err(fault) => {
            let _ = print_fault(faults, &fault);
            2
        }
    }
}

/// Returns the line `true` if data has only one text in the encoding, and the line `false`
/// otherwise.
fn truth_of(encoding: &Encoding) -> &'static [u8]
    ensures { IsCanonicalLine encoding.now result.now }
{
    if encoding.is_canonical() {
        b"true\n"
    } else {
        b"false\n"
    }
}

/// Returns the exit status of an outcome, and prints its fault.
fn settle<F: Write>(outcome: Result<(), StreamFault>, faults: &mut F) -> u8
    ensures { result ≡ status_after outcome }
{
    match outcome {
        Ok(()) => 0,
        Err(fault) => {
            let _ = print_fault(faults, &fault);
            exit_status(fault)
        }
    }
}

/// Reads an input to its end, and writes the converted pieces as they come.
fn convert<R: Read, W: Write>(
    verb: Verb,
    encoding: &Encoding,
    reader: &mut Watch<R>,
    writer: &mut Watch<W>,
) -> Result<(), StreamFault>
    requires reader_works { has_failed reader.old ≡ false }
    requires writer_works { has_failed writer.old ≡ false }
    ensures done { OnOk result (Converts verb encoding.now
        (seen R.remaining reader.old reader.new) (seen W.contents writer.old writer.new)) }
    ensures fault { IfErr result (CausesFault verb encoding.now
        (seen R.remaining reader.old reader.new) (seen W.contents writer.old writer.new)) }
    ensures read { (result ≡ Err StreamFault.Read) ↔ IsTrue (has_failed reader.new) }
    ensures write { (result ≡ Err StreamFault.Write) ↔ IsTrue (has_failed writer.new) }
    ensures begun { Begins verb encoding.now
        (seen R.remaining reader.old reader.new) (seen W.contents writer.old writer.new) }
{
    match verb {
        Verb::Encode => encode_stream(encoding, reader, writer),
        Verb::Decode => decode_stream(encoding, reader, writer),
    }
}

/// Writes `bytes`, and flushes once.
fn send<W: Write>(bytes: &[u8], writer: &mut Watch<W>) -> Result<(), StreamFault>
    requires writer_works { has_failed writer.old ≡ false }
    ensures sent { OnOk result (Appends (W.contents (inner_of writer.old))
        (W.contents (inner_of writer.new)) bytes.now) }
    ensures begun { AppendsFront (W.contents (inner_of writer.old))
        (W.contents (inner_of writer.new)) bytes.now }
    ensures fault { IfErr result (λ fault. fault ≡ StreamFault.Write) }
    ensures failed { IsErr result ↔ IsTrue (has_failed writer.new) }
{
    if writer.write_all(bytes).is_err() || writer.flush().is_err() {
        return Err(StreamFault::Write);
    }
    Ok(())
}

#[cfg(test)]
mod tests;
