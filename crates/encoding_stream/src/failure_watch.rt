//! A reader or a writer with a record of its failures.

ghost use Rattle.std.specs.Prelude.{◌≡◌, ◌||◌, false, is_err, OnOk};
ghost use Rattle.std.specs.Io.{ReadsAtMost, WritesAtMost};
ghost use Rattle.std.specs.Io.KnownBytes.{Appends, Keeps, ReadConsumes, WriteAppends};
ghost use Rattle.encoding_stream.specs.Watch.{AppendsFront, has_failed, inner_of, is_refused};

use std::io;
use std::io::{Read, Write};

/// Passes each call to a reader or a writer, and records whether one of them failed.
///
/// A call fails if it returns an error of any kind, even an interruption, or if a write of one or
/// more bytes takes none. Once a call has failed, `failed` stays `true`.
#[derive(Debug, Drop)]
pub struct Watch<T> {
    inner: T,
    has_failed: bool,
}

impl<T> Watch<T> {
    /// Returns a watch of `inner` that has recorded no failure.
    pub fn new(inner: T) -> Watch<T>
        ensures inner { inner_of result ≡ inner }
        ensures fresh { has_failed result ≡ false }
    {
        Watch {
            inner,
            has_failed: false,
        }
    }

    /// Returns `true` if a call has failed since the watch was made.
    pub fn failed(&self) -> bool
        ensures { result ≡ has_failed self.now }
    {
        self.has_failed
    }

    /// Returns the watched reader or writer.
    pub fn into_inner(self) -> T
        ensures { result ≡ inner_of self }
    {
        let Watch {
            inner,
            has_failed: _,
        } = self;
        inner
    }
}

impl<T: Read> Read for Watch<T> {
    ghost remaining = { λ w. T.remaining (inner_of w) };

    /// Reads once. If it fails, nothing was read.
    fn read(&mut self, buf: &mut [u8]) -> io::Result<usize>
        ensures bound { ReadsAtMost result buf.new }
        ensures bytes { ReadConsumes (T.remaining (inner_of self.old))
            (T.remaining (inner_of self.new)) result buf.new }
        ensures failed { has_failed self.new ≡ (has_failed self.old || is_err result) }
    {
        let result = self.inner.read(buf);
        if result.is_err() {
            self.has_failed = true;
        }
        result
    }
}

impl<T: Write> Write for Watch<T> {
    ghost contents = { λ w. T.contents (inner_of w) };

    /// Writes once. If it fails, nothing was written.
    fn write(&mut self, buf: &[u8]) -> io::Result<usize>
        ensures bound { WritesAtMost result buf.now }
        ensures bytes { WriteAppends (T.contents (inner_of self.old))
            (T.contents (inner_of self.new)) result buf.now }
        ensures failed { has_failed self.new ≡ (has_failed self.old || is_refused result buf.now) }
    {
        let result = self.inner.write(buf);
        match &result {
            Ok(0) if !buf.is_empty() => self.has_failed = true,
            Ok(_) => {}
            Err(_) => self.has_failed = true,
        }
        result
    }

    /// Writes all bytes of `buf`.
    ///
    /// The first failed call, even an interrupted one, ends it. A prefix of the bytes is then
    /// written.
    fn write_all(&mut self, buf: &[u8]) -> io::Result<()>
        ensures bytes { OnOk result (Appends (T.contents (inner_of self.old))
            (T.contents (inner_of self.new)) buf.now) }
        ensures begun { AppendsFront (T.contents (inner_of self.old))
            (T.contents (inner_of self.new)) buf.now }
        ensures failed { has_failed self.new ≡ (has_failed self.old || is_err result) }
    {
        let mut done = 0;
        while done < buf.len() {
            let count = self.write(&buf[done..])?;
            if count == 0 {
                return Err(io::Error::from(io::ErrorKind::WriteZero));
            }
            done += count;
        }
        Ok(())
    }

    /// Flushes once. Nothing is written.
    fn flush(&mut self) -> io::Result<()>
        ensures bytes { Keeps (T.contents (inner_of self.old)) (T.contents (inner_of self.new)) }
        ensures failed { has_failed self.new ≡ (has_failed self.old || is_err result) }
    {
        let result = self.inner.flush();
        if result.is_err() {
            self.has_failed = true;
        }
        result
    }
}
