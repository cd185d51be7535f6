//! Data that is encoded, and texts that are decoded, from a reader to a writer.

use crate::oracle::Expected;
use crate::rows::{bytes_of_length, show_bytes};
use crate::slow::{Failure, Narrow, Outcome, Slow, reader_of};
use data_encoding::Encoding;
use encoding_stream::{StreamFault, Watch, decode_stream, encode_stream};
use std::alloc::Global;
use std::test::Fail;

/// The direction of a stream.
#[derive(Clone, Copy)]
pub enum Way {
    Encode,
    Decode,
}

/// Returns the effect of a stream from `reader` to `writer`.
pub fn run_stream(way: Way, encoding: &Encoding, reader: Slow<'_>, writer: Narrow) -> Outcome {
    let mut reader = Watch::new(reader);
    let mut writer = Watch::new(writer);
    let result = match way {
        Way::Encode => encode_stream(encoding, &mut reader, &mut writer),
        Way::Decode => decode_stream(encoding, &mut reader, &mut writer),
    };
    Outcome::of(result, reader, writer)
}

/// Returns the effect of a stream that reads at most `most_read` bytes in a call, and writes at
/// most `most_written`.
pub fn run_slowly(
    alloc: Global,
    way: Way,
    encoding: &Encoding,
    input: &[u8],
    (most_read, most_written): (usize, usize),
) -> Outcome {
    let writer = Narrow::new(alloc, most_written, Failure::Nothing, 0);
    run_stream(way, encoding, reader_of(input, most_read), writer)
}

/// Returns `true` if a stream that reads and writes at most `most` bytes has the expected result
/// for `text`.
pub fn stream_decodes(
    alloc: Global,
    encoding: &Encoding,
    want: &Expected,
    text: &[u8],
    most: usize,
) -> bool {
    let fault = match want.fault {
        Some(error) => Some(StreamFault::Decode(error)),
        None => None,
    };
    run_slowly(alloc, Way::Decode, encoding, text, (most, most)).is_whole(fault, &want.bytes)
}

/// Returns the output and the fault of a stream, separated by a slash, if a stream that reads and
/// writes single bytes has the same.
pub fn show_decode_stream(alloc: Global, encoding: &Encoding, text: &[u8]) -> Result<String, Fail> {
    let got = run_slowly(alloc, Way::Decode, encoding, text, (usize::MAX, usize::MAX));
    let slow = run_slowly(alloc, Way::Decode, encoding, text, (1, 1));
    let fault = got.result.err();
    let mut answer = show_bytes(alloc, &got.writer.bytes)?;
    if !got.is_whole(fault, &got.writer.bytes) || !slow.is_whole(fault, &got.writer.bytes) {
        answer.push_str("/streamed otherwise")?;
    }
    answer.push('/')?;
    if let Some(fault) = fault {
        answer.push_str(fault.to_string(alloc)?.as_str())?;
    }
    Ok(answer)
}

/// Returns the text of `data` that a stream writes.
pub fn show_encode_stream(alloc: Global, encoding: &Encoding, data: &[u8]) -> Result<String, Fail> {
    let got = run_slowly(alloc, Way::Encode, encoding, data, (usize::MAX, usize::MAX));
    let mut answer = show_bytes(alloc, &got.writer.bytes)?;
    if !got.is_whole(None, &got.writer.bytes) {
        answer.push_str("/streamed otherwise")?;
    }
    Ok(answer)
}

/// Returns the numbers of reads and writes for `len` bytes, and the greatest length of a read.
pub fn show_encode_calls(alloc: Global, encoding: &Encoding, len: &str) -> Result<String, Fail> {
    let bytes = bytes_of_length(alloc, len.parse()?)?;
    let most = (usize::MAX, usize::MAX);
    let got = run_slowly(alloc, Way::Encode, encoding, &bytes, most);
    let (reads, asked, writes) = (got.reads, got.asked, got.writer.writes);
    Ok(format!(in alloc; "{reads} reads of {asked}, {writes} writes")?)
}

/// Returns the number of reads for a text, and the greatest length of a read.
pub fn show_decode_reads(alloc: Global, encoding: &Encoding, text: &[u8]) -> Result<String, Fail> {
    let most = (usize::MAX, usize::MAX);
    let got = run_slowly(alloc, Way::Decode, encoding, text, most);
    let (reads, asked) = (got.reads, got.asked);
    Ok(format!(in alloc; "{reads} reads of {asked}")?)
}
