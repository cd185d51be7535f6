//! Texts that are written call by call, or displayed.

ghost use Rattle.std.specs.Prelude.{◌≤◌, length};

use conformance_support::rows::bytes_of_length;
use data_encoding::{ENCODE_LIMIT, Encoding};
use std::alloc::{AllocError, Global};
use std::fmt;
use std::fmt::Write;
use std::test::Fail;

/// The call that writes a text.
#[derive(Clone, Copy)]
pub(super) enum Writer {
    Buffer,
    NoBuffer,
    Display,
}

/// A writer that records the texts of its calls, and fails once after `good` calls.
#[derive(Drop)]
struct Calls {
    text: String,
    lengths: Vec<usize>,
    good: usize,
    count: usize,
}

impl Calls {
    /// Returns a writer without calls.
    fn new(alloc: Global, good: usize) -> Calls {
        Calls {
            text: String::new(alloc),
            lengths: Vec::new(alloc),
            good,
            count: 0,
        }
    }
}

impl fmt::Write for Calls {
    fn write_str(&mut self, part: &str) -> fmt::Result {
        let call = self.count;
        self.count = call.saturating_add(1);
        if call == self.good {
            return Err(fmt::Error);
        }
        self.text.push_str(part)?;
        self.lengths.extend_from_slice(&[part.len()])?;
        Ok(())
    }
}

/// Writes the text of `input`. Returns `true` if that succeeds.
fn writes_text(encoding: &Encoding, input: &[u8], calls: &mut Calls, writer: Writer) -> bool
    requires limit { length input.now ≤ ENCODE_LIMIT }
{
    match writer {
        Writer::Buffer => encoding
            .encode_write_buffer(input, calls, &mut [0; 510])
            .is_ok(),
        Writer::NoBuffer => encoding.encode_write(input, calls).is_ok(),
        Writer::Display => write!(calls, "{}", encoding.encode_display(input)).is_ok(),
    }
}

/// Returns `true` if the call after `calls.good` calls ends the writing, and the calls before it
/// were the same as in `whole`.
fn ends_at_call(
    encoding: &Encoding,
    input: &[u8],
    whole: &Calls,
    writer: Writer,
    mut calls: Calls,
) -> bool
    requires limit { length input.now ≤ ENCODE_LIMIT }
{
    !writes_text(encoding, input, &mut calls, writer)
        && calls.count == calls.good.wrapping_add(1)
        && whole.lengths.get(..calls.good) == Some(calls.lengths.as_slice())
        && whole.text.as_str().starts_with(calls.text.as_str())
}

/// Returns `true` if each call that fails ends the writing.
fn ends_at_each_call(
    alloc: Global,
    encoding: &Encoding,
    input: &[u8],
    whole: &Calls,
    writer: Writer,
) -> bool
    requires limit { length input.now ≤ ENCODE_LIMIT }
{
    for good in 0..whole.count {
        if !ends_at_call(encoding, input, whole, writer, Calls::new(alloc, good)) {
            return false;
        }
    }
    true
}

/// Returns the lengths of the parts that are written for `input`, if they are its text.
fn show_lengths(
    alloc: Global,
    encoding: &Encoding,
    input: &[u8],
    writer: Writer,
) -> Result<String, AllocError>
    requires limit { length input.now ≤ ENCODE_LIMIT }
{
    let mut whole = Calls::new(alloc, usize::MAX);
    let is_ok = writes_text(encoding, input, &mut whole, writer);
    let is_text = encoding.encode(alloc, input)? == whole.text;
    if !is_ok || !is_text || !ends_at_each_call(alloc, encoding, input, &whole, writer) {
        return String::from_str(alloc, "written otherwise");
    }
    let lengths = whole.lengths.as_slice();
    format!(in alloc; "{lengths:?}")
}

/// Returns the lengths of the parts that are written for `len` bytes.
pub(super) fn show_calls(
    alloc: Global,
    encoding: &Encoding,
    writer: Writer,
    len: &str,
) -> Result<String, Fail> {
    let input = bytes_of_length(alloc, len.parse()?)?;
    if input.len() > ENCODE_LIMIT {
        return Ok(String::from_str(alloc, "too long")?);
    }
    Ok(show_lengths(alloc, encoding, &input, writer)?)
}

/// Returns the text of `input` after other text, and in a wider field. A width and a fill change
/// nothing.
pub(super) fn show_displayed(
    alloc: Global,
    encoding: &Encoding,
    input: &[u8],
) -> Result<String, AllocError>
    requires limit { length input.now ≤ ENCODE_LIMIT }
{
    let shown = encoding.encode_display(input);
    let copied = shown;
    format!(in alloc; "Payload: {shown} {copied:*>20}")
}
