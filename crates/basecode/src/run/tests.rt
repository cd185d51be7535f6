//! Runs over readers and writers that give few bytes, take few bytes, or fail once.

mod answers;
mod failing_streams;
mod refused_inputs;

use super::*;
use std::alloc::AllocError;
use std::io;
use std::io::ErrorKind;
use std::test::Fail;

/// A reader that gives at most `most` bytes in each call. The call after the good ones is
/// interrupted, and later calls succeed again.
#[derive(Drop)]
struct FakeReader<'a> {
    bytes: &'a [u8],
    most: usize,
    good_calls: usize,
    calls: usize,
}

impl FakeReader<'_> {
    /// Returns a reader that is never interrupted in a test.
    fn new(bytes: &[u8], most: usize) -> FakeReader<'_> {
        FakeReader {
            bytes,
            most,
            good_calls: usize::MAX,
            calls: 0,
        }
    }
}

impl Read for FakeReader<'_> {
    fn read(&mut self, buf: &mut [u8]) -> io::Result<usize> {
        let call = self.calls;
        self.calls = call.saturating_add(1);
        if call == self.good_calls {
            return Err(io::Error::from(ErrorKind::Interrupted));
        }
        let count = self.most.min(buf.len()).min(self.bytes.len());
        let (front, rest) = self.bytes.split_at(count);
        buf[..count].copy_from_slice(front);
        self.bytes = rest;
        Ok(count)
    }
}

/// The call that a writer fails once.
#[derive(Clone, Copy, Debug, PartialEq, Eq)]
enum Failure {
    Nothing,
    Write,
    Take,
    Flush,
}

/// A writer that takes at most three bytes in each call, fails once after the good writes, and
/// counts its calls.
#[derive(Drop)]
struct FakeWriter {
    bytes: Vec<u8>,
    failure: Failure,
    good_writes: usize,
    writes: usize,
    flushes: usize,
    writes_when_flushed: usize,
}

impl FakeWriter {
    /// Returns a writer that does not allocate to write a line.
    fn new(alloc: Global, failure: Failure, good_writes: usize) -> Result<FakeWriter, AllocError> {
        Ok(FakeWriter {
            bytes: Vec::with_capacity(alloc, 128)?,
            failure,
            good_writes,
            writes: 0,
            flushes: 0,
            writes_when_flushed: 0,
        })
    }
}

impl Write for FakeWriter {
    fn write(&mut self, buf: &[u8]) -> io::Result<usize> {
        let write = self.writes;
        self.writes = write.saturating_add(1);
        if write == self.good_writes {
            match self.failure {
                Failure::Write => return Err(io::Error::from(ErrorKind::Interrupted)),
                Failure::Take => return Ok(0),
                Failure::Nothing | Failure::Flush => {}
            }
        }
        let count = buf.len().min(3);
        self.bytes.extend_from_slice(&buf[..count])?;
        Ok(count)
    }

    fn flush(&mut self) -> io::Result<()> {
        let flush = self.flushes;
        self.flushes = flush.saturating_add(1);
        self.writes_when_flushed = self.writes;
        if flush == 0 && self.failure == Failure::Flush {
            return Err(io::Error::from(ErrorKind::Interrupted));
        }
        Ok(())
    }
}

/// Returns the words of a command line.
fn words_of(alloc: Global, line: &str) -> Result<Vec<String>, AllocError> {
    let mut words = Vec::new(alloc);
    for word in line.split_whitespace() {
        words.push(String::from_str(alloc, word)?)?;
    }
    Ok(words)
}

/// The result of a run.
#[derive(Drop)]
struct Outcome {
    status: u8,
    reads: usize,
    read_failed: bool,
    write_failed: bool,
    writer: FakeWriter,
    line: Vec<u8>,
}

/// Does the request of a command line.
fn outcome_of(
    alloc: Global,
    line: &str,
    reader: FakeReader<'_>,
    writer: FakeWriter,
) -> Result<Outcome, AllocError> {
    let faults = FakeWriter::new(alloc, Failure::Nothing, 0)?;
    outcome_with(alloc, line, reader, writer, faults)
}

/// Like [`outcome_of`], but prints lines about faults to `faults`.
fn outcome_with(
    alloc: Global,
    line: &str,
    reader: FakeReader<'_>,
    writer: FakeWriter,
    mut faults: FakeWriter,
) -> Result<Outcome, AllocError> {
    let words = words_of(alloc, line)?;
    let mut reader = Watch::new(reader);
    let mut writer = Watch::new(writer);
    let status = run(alloc, &words, &mut reader, &mut writer, &mut faults);
    Ok(Outcome {
        status,
        read_failed: reader.failed(),
        write_failed: writer.failed(),
        reads: reader.into_inner().calls,
        writer: writer.into_inner(),
        line: faults.bytes,
    })
}

/// Does the request of a command line with an input that comes byte by byte. No call fails.
fn done(alloc: Global, line: &str, input: &[u8]) -> Result<Outcome, AllocError> {
    let writer = FakeWriter::new(alloc, Failure::Nothing, 0)?;
    outcome_of(alloc, line, FakeReader::new(input, 1), writer)
}

impl Outcome {
    /// Returns `true` if the answer was written and flushed once, and no line was printed.
    fn is_answer(&self, answer: &[u8]) -> bool {
        self.status == 0
            && self.writer.bytes.as_slice() == answer
            && self.writer.flushes == 1
            && self.writer.writes_when_flushed == self.writer.writes
            && self.line.is_empty()
    }

    /// Returns `true` if the line was printed, and the data before the fault was written and
    /// flushed once.
    fn is_refusal(&self, line: &str, written: &[u8]) -> bool {
        self.status == 1
            && self.line.as_slice() == line.as_bytes()
            && self.writer.bytes.as_slice() == written
            && self.writer.flushes == 1
    }

    /// Returns `true` if the line was printed, and nothing was written or flushed.
    fn is_fault(&self, status: u8, line: &str) -> bool {
        self.status == status
            && self.line.as_slice() == line.as_bytes()
            && self.writer.writes == 0
            && self.writer.flushes == 0
    }
}
