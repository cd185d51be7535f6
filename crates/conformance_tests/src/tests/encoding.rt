//! Encoding: from data to text.

ghost use Rattle.std.specs.Prelude.{◌≤◌, length};

use conformance::callers::there_and_back;
use data_encoding::{DECODE_LIMIT, ENCODE_LIMIT, Encoding, Specification};
use std::alloc::Global;
use std::test::Fail;

/// Returns `true` if `encode_mut` and `encode_mut_str` write `text` to an output of its length.
pub(super) fn encode_mut_writes(encoding: &Encoding, input: &[u8], text: &[u8]) -> bool
    requires limit { length input.now ≤ ENCODE_LIMIT }
{
    let mut output = [0; 80];
    let len = encoding.encode_len(input.len());
    if len > output.len() {
        return false;
    }
    encoding.encode_mut(input, &mut output[..len]);
    if &output[..len] != text {
        return false;
    }
    output = [0; 80];
    let is_text = encoding
        .encode_mut_str(input, &mut output[..len])
        .as_bytes()
        == text;
    is_text && &output[..len] == text
}

/// Returns the text of data, if each call writes it.
pub(super) fn encode_by_each_call(
    alloc: Global,
    encoding: &Encoding,
    input: &[u8],
) -> Result<String, Fail>
    requires limit { length input.now ≤ ENCODE_LIMIT }
{
    let text = encoding.encode(alloc, input)?;
    if encode_mut_writes(encoding, input, text.as_bytes()) {
        return Ok(text);
    }
    Ok(String::from_str(alloc, "written otherwise")?)
}

/// Returns `true` if the text of `data` is decoded to `data`.
pub(super) fn round_trips(alloc: Global, specification: &Specification, data: &[u8]) -> bool {
    match there_and_back(alloc, specification, data) {
        Ok(bytes) => bytes.as_slice() == data,
        Err(_) => false,
    }
}

/// Returns the text of `input`, if it is decoded to `input`, also by a caller.
pub(super) fn encode_and_decode(
    alloc: Global,
    encoding: &Encoding,
    specification: &Specification,
    input: &[u8],
) -> Result<String, Fail>
    requires limit { length input.now ≤ ENCODE_LIMIT }
{
    let text = encode_by_each_call(alloc, encoding, input)?;
    if text.len() <= DECODE_LIMIT
        && encoding.decode(alloc, text.as_bytes())?.as_slice() == input
        && round_trips(alloc, specification, input)
    {
        return Ok(text);
    }
    Ok(String::from_str(alloc, "decoded otherwise")?)
}
