//! Reading until a buffer is full.

ghost use Rattle.std.specs.Prelude.{◌≡◌, ℕ, ◌<◌, ◌≤◌, ◌||◌, List, length, take, false, is_err, IfOk, OnErr};
ghost use Rattle.std.specs.Io.{ReadsAtMost};
ghost use Rattle.std.specs.Io.KnownBytes.{Consumes, IsAtEnd, ReadConsumes};
ghost use Rattle.encoding_stream.specs.Watch.{has_failed, inner_of};

use crate::failure_watch::Watch;
use std::io;
use std::io::Read;

// The greatest number of bytes that one read asks for.
const MAX_READ: usize = 8192;

/// Reads until `buffer` is full or the reader is at its end, and returns the number of bytes read.
///
/// A read asks for at most 8,192 bytes. The first failed call, even an interrupted one, ends it.
pub(crate) fn fill<R: Read>(reader: &mut Watch<R>, buffer: &mut [u8]) -> io::Result<usize>
    requires works { has_failed reader.old ≡ false }
    ensures bound { IfOk result (λ count. count ≤ length buffer.new) }
    ensures bytes { IfOk result (λ count. Consumes (R.remaining (inner_of reader.old))
        (R.remaining (inner_of reader.new)) (take count buffer.new)) }
    ensures at_end { IfOk result (λ count. count < length buffer.new
        → IsAtEnd (R.remaining (inner_of reader.new))) }
    ensures begun { OnErr result ((bytes : List ℕ)
        × Consumes (R.remaining (inner_of reader.old)) (R.remaining (inner_of reader.new)) bytes) }
    ensures failed { has_failed reader.new ≡ is_err result }
{
    let mut filled = 0;
    while filled < buffer.len() {
        let count = read_once(reader, &mut buffer[filled..])?;
        if count == 0 {
            break;
        }
        filled += count;
    }
    Ok(filled)
}

/// Reads once, and asks for at most `MAX_READ` bytes.
fn read_once<R: Read>(reader: &mut Watch<R>, buf: &mut [u8]) -> io::Result<usize>
    ensures bound { ReadsAtMost result buf.new }
    ensures bytes { ReadConsumes (R.remaining (inner_of reader.old))
        (R.remaining (inner_of reader.new)) result buf.new }
    ensures failed { has_failed reader.new ≡ (has_failed reader.old || is_err result) }
    ensures len { length buf.new ≡ length buf.old }
{
    let len = buf.len().min(MAX_READ);
    reader.read(&mut buf[..len])
}
