//! Streams of many lengths, and streams that a failed call ends.

use conformance_support::comparison::{Comparison, Differs};
use conformance_support::rows::bytes_of_length;
use conformance_support::slow::{Failure, Narrow, reader_of};
use conformance_support::streams::{Way, run_slowly, run_stream};
use data_encoding::{ENCODE_LIMIT, Encoding, hexlower};
use encoding_stream::StreamFault;
use std::alloc::{AllocError, Global};

/// The room for the text of the bytes that a stream reads at a time.
const ROOM: usize = 49_152;

/// A stream, its input, and its output if no call fails.
#[derive(Clone, Copy)]
struct Stream<'a> {
    way: Way,
    alloc: Global,
    encoding: &'a Encoding,
    input: &'a [u8],
    output: &'a [u8],
}

/// Compares the output of a stream of `len` bytes with the text of `encode`.
///
/// `most` has the most bytes of a read and of a write.
fn compare_stream_len(
    comparison: &Comparison<'_>,
    len: usize,
    most: (usize, usize),
) -> Result<(), Differs> {
    let (alloc, encoding) = (comparison.alloc, comparison.encoding);
    let bytes = bytes_of_length(alloc, len)?;
    if bytes.len() > ENCODE_LIMIT {
        return Err(Differs {});
    }
    let text = encoding.encode(alloc, &bytes)?;
    let got = run_slowly(alloc, Way::Encode, encoding, &bytes, most);
    if got.is_whole(None, text.as_bytes()) {
        return Ok(());
    }
    Err(Differs {})
}

/// Compares streams of some lengths, read in pieces of a thousand bytes and byte by byte.
pub(super) fn compare_streams(comparison: &Comparison<'_>) -> Result<(), Differs> {
    let most = comparison.encoding.encode_piece_len(ROOM);
    for len in [0, 1, 2, 5, most - 1, most, most.saturating_add(1)] {
        compare_stream_len(comparison, len, (1000, usize::MAX))?;
    }
    compare_stream_len(comparison, 300, (1, 1))
}

impl Stream<'_> {
    /// Returns `true` if the read after `good` reads ends a stream, and nothing is flushed.
    fn ends_at_read(&self, good: usize) -> bool {
        let mut reader = reader_of(self.input, 1000);
        reader.good = good;
        let writer = Narrow::new(self.alloc, usize::MAX, Failure::Nothing, 0);
        let got = run_stream(self.way, self.encoding, reader, writer);
        got.is_fault(StreamFault::Read, self.output)
            && got.reads == good.wrapping_add(1)
            && got.writer.flushes == 0
    }

    /// Returns `true` if the write after `good` writes ends a stream, and nothing is flushed.
    fn ends_at_write(&self, failure: Failure, good: usize) -> bool {
        let writer = Narrow::new(self.alloc, 1000, failure, good);
        let got = run_stream(
            self.way,
            self.encoding,
            reader_of(self.input, usize::MAX),
            writer,
        );
        got.is_fault(StreamFault::Write, self.output)
            && got.writer.writes == good.wrapping_add(1)
            && got.writer.flushes == 0
    }

    /// Returns `true` if a flush that fails ends a stream, after the whole output was written.
    fn ends_at_flush(&self, most_read: usize, most_written: usize) -> bool {
        let writer = Narrow::new(self.alloc, most_written, Failure::Flush, 0);
        let got = run_stream(
            self.way,
            self.encoding,
            reader_of(self.input, most_read),
            writer,
        );
        got.is_fault(StreamFault::Write, self.output)
            && got.writer.bytes.as_slice() == self.output
            && got.writer.flushes == 1
    }

    /// Returns the numbers of reads and writes of a stream, with a thousand bytes each.
    fn count_calls(&self) -> (usize, usize) {
        let reads = run_slowly(
            self.alloc,
            self.way,
            self.encoding,
            self.input,
            (1000, usize::MAX),
        )
        .reads;
        let whole = run_slowly(
            self.alloc,
            self.way,
            self.encoding,
            self.input,
            (usize::MAX, 1000),
        );
        (reads, whole.writer.writes)
    }

    /// Returns `true` if a stream makes `reads` reads and `writes` writes, and the first that fails
    /// ends it.
    fn ends_at_any_call(&self, (reads, writes): (usize, usize)) -> bool {
        if self.count_calls() != (reads, writes) {
            return false;
        }
        for good in 0..reads {
            if !self.ends_at_read(good) {
                return false;
            }
        }
        for good in 0..writes {
            if !self.ends_at_write(Failure::Write, good)
                || !self.ends_at_write(Failure::Take, good)
            {
                return false;
            }
        }
        self.ends_at_flush(1000, 1000)
    }
}

/// The numbers of reads and writes of a stream that encodes, and of one that decodes, with a
/// thousand bytes each.
#[derive(Clone, Copy)]
pub(super) struct Calls {
    pub(super) encode: (usize, usize),
    pub(super) decode: (usize, usize),
}

/// Returns `true` if the first call that fails ends the stream of `data`, or of its text.
fn ends_at_failures(
    comparison: &Comparison<'_>,
    way: Way,
    data: &[u8],
    text: &[u8],
    calls: (usize, usize),
) -> bool {
    let (input, output) = match way {
        Way::Encode => (data, text),
        Way::Decode => (text, data),
    };
    let stream = Stream {
        way,
        alloc: comparison.alloc,
        encoding: comparison.encoding,
        input,
        output,
    };
    stream.ends_at_any_call(calls)
}

/// Returns `true` if the first call that fails ends the stream of a text with an invalid byte in
/// one of the last groups.
fn ends_before_fault(
    comparison: &Comparison<'_>,
    text: &mut [u8],
    calls: (usize, usize),
) -> Result<bool, AllocError> {
    if text.len() < 10 {
        return Ok(false);
    }
    let position = text.len() - 10;
    text[position] = b'!';
    let whole = comparison.oracle.decode(comparison.alloc, text)?;
    let want = comparison.oracle.in_pieces(comparison.alloc, text, whole)?;
    Ok(want.fault.is_some() && ends_at_failures(comparison, Way::Decode, &want.bytes, text, calls))
}

/// Compares the ends of streams of 60,000 bytes, and of the text of 30,000.
pub(super) fn compare_ends(comparison: &Comparison<'_>, calls: Calls) -> Result<(), Differs> {
    let data = bytes_of_length(comparison.alloc, 60_000)?;
    let half = data.get(..30_000).unwrap_or(&[]);
    let text = comparison.oracle.encode(comparison.alloc, &data)?;
    let mut half_text = comparison.oracle.encode(comparison.alloc, half)?;
    if ends_at_failures(comparison, Way::Encode, &data, &text, calls.encode)
        && ends_at_failures(comparison, Way::Decode, half, &half_text, calls.decode)
        && ends_before_fault(comparison, &mut half_text, calls.decode)?
    {
        return Ok(());
    }
    Err(Differs {})
}

/// Returns `true` if a flush that fails ends the stream of a short text, read by two bytes and
/// written by three.
pub(super) fn ends_at_short_flush(alloc: Global) -> bool {
    let short = Stream {
        way: Way::Encode,
        alloc,
        encoding: &hexlower(),
        input: b"Hello",
        output: b"48656c6c6f",
    };
    short.ends_at_flush(2, 3)
}
