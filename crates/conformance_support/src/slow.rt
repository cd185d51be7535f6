//! Readers and writers that give few bytes, take few bytes, or fail once, and the effect of a
//! stream on them.

use encoding_stream::{StreamFault, Watch};
use std::alloc::Global;
use std::io;
use std::io::{ErrorKind, Read, Write};

/// A reader that gives at most `most` bytes in each call, and records the greatest length that it
/// was asked for.
///
/// The call after `good` calls is interrupted. Later calls succeed.
#[derive(Drop)]
pub struct Slow<'a> {
    bytes: &'a [u8],
    most: usize,
    pub good: usize,
    calls: usize,
    asked: usize,
}

impl Read for Slow<'_> {
    fn read(&mut self, buf: &mut [u8]) -> io::Result<usize> {
        let call = self.calls;
        self.calls = call.saturating_add(1);
        self.asked = self.asked.max(buf.len());
        if call == self.good {
            return Err(io::Error::from(ErrorKind::Interrupted));
        }
        let count = self.most.min(buf.len()).min(self.bytes.len());
        let (front, rest) = self.bytes.split_at(count);
        buf[..count].copy_from_slice(front);
        self.bytes = rest;
        Ok(count)
    }
}

/// The call that a writer fails once.
#[derive(Clone, Copy)]
pub enum Failure {
    /// None.
    Nothing,

    /// A write is interrupted.
    Write,

    /// A write takes no bytes.
    Take,

    /// The flush is interrupted.
    Flush,
}

/// A writer that takes at most `most` bytes in each call, and fails once after `good` writes.
#[derive(Drop)]
pub struct Narrow {
    pub bytes: Vec<u8>,
    most: usize,
    failure: Failure,
    good: usize,
    pub writes: usize,
    pub flushes: usize,
    writes_when_flushed: usize,
}

impl Narrow {
    /// Returns a writer without bytes.
    pub fn new(alloc: Global, most: usize, failure: Failure, good: usize) -> Narrow {
        Narrow {
            bytes: Vec::new(alloc),
            most,
            failure,
            good,
            writes: 0,
            flushes: 0,
            writes_when_flushed: 0,
        }
    }
}

impl Write for Narrow {
    fn write(&mut self, buf: &[u8]) -> io::Result<usize> {
        let write = self.writes;
        self.writes = write.saturating_add(1);
        if write == self.good {
            match self.failure {
                Failure::Write => return Err(io::Error::from(ErrorKind::Interrupted)),
                Failure::Take => return Ok(0),
                Failure::Nothing | Failure::Flush => {}
            }
        }
        let count = self.most.min(buf.len());
        self.bytes.extend_from_slice(&buf[..count])?;
        Ok(count)
    }

    fn flush(&mut self) -> io::Result<()> {
        self.flushes = self.flushes.saturating_add(1);
        self.writes_when_flushed = self.writes;
        if matches!(self.failure, Failure::Flush) {
            return Err(io::Error::from(ErrorKind::Interrupted));
        }
        Ok(())
    }
}

/// The effect of a stream.
#[derive(Drop)]
pub struct Outcome {
    pub result: Result<(), StreamFault>,
    pub reads: usize,
    pub asked: usize,
    read_failed: bool,
    write_failed: bool,
    pub writer: Narrow,
}

impl Outcome {
    /// Returns the effect on a reader and a writer that were watched.
    pub fn of(
        answer: Result<(), StreamFault>,
        reader: Watch<Slow<'_>>,
        writer: Watch<Narrow>,
    ) -> Outcome {
        let read_failed = reader.failed();
        let reader = reader.into_inner();
        Outcome {
            result: answer,
            read_failed,
            write_failed: writer.failed(),
            reads: reader.calls,
            asked: reader.asked,
            writer: writer.into_inner(),
        }
    }

    /// Returns `true` if the result is `fault`, or Ok if that is `None`, and `bytes` was written,
    /// and flushed once, after the last write.
    pub fn is_whole(&self, fault: Option<StreamFault>, bytes: &[u8]) -> bool {
        self.result.err() == fault
            && self.writer.bytes.as_slice() == bytes
            && self.writer.flushes == 1
            && self.writer.writes_when_flushed == self.writer.writes
    }

    /// Returns `true` if the result is `fault`, its watch has failed, and a prefix of `bytes` was
    /// written.
    pub fn is_fault(&self, fault: StreamFault, bytes: &[u8]) -> bool {
        self.result == Err(fault)
            && self.read_failed == (fault == StreamFault::Read)
            && self.write_failed == (fault == StreamFault::Write)
            && bytes.starts_with(self.writer.bytes.as_slice())
    }
}

/// Returns a reader of `bytes` without a failure.
pub fn reader_of(bytes: &[u8], most: usize) -> Slow<'_> {
    Slow {
        bytes,
        most,
        good: usize::MAX,
        calls: 0,
        asked: 0,
    }
}
