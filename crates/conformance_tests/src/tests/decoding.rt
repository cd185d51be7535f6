//! Decoding: from text to data.

ghost use Rattle.std.specs.Prelude.{◌≤◌, length};

use conformance_support::rows::show_bytes;
use data_encoding::{DECODE_LIMIT, Encoding, base64_nopad};
use std::alloc::Global;
use std::test::Fail;

/// Returns the result of `decode`, as a row writes it.
pub(super) fn show_decode(alloc: Global, encoding: &Encoding, text: &[u8]) -> Result<String, Fail>
    requires limit { length text.now ≤ DECODE_LIMIT }
{
    Ok(match encoding.decode(alloc, text) {
        Ok(bytes) => show_bytes(alloc, &bytes)?,
        Err(fault) => fault.to_string(alloc)?,
    })
}

/// Returns the result of `decode_len`, as a row writes it.
pub(super) fn show_decode_len(
    alloc: Global,
    encoding: &Encoding,
    len: usize,
) -> Result<String, Fail>
    requires limit { len ≤ DECODE_LIMIT }
{
    Ok(match encoding.decode_len(len) {
        Ok(most) => format!(in alloc; "{most}")?,
        Err(fault) => fault.to_string(alloc)?,
    })
}

/// Returns the lengths that `decode_mut` reads and writes, and its fault.
pub(super) fn show_decode_mut(
    alloc: Global,
    encoding: &Encoding,
    text: &[u8],
) -> Result<String, Fail>
    requires limit { length text.now ≤ DECODE_LIMIT }
{
    let Ok(most) = encoding.decode_len(text.len()) else {
        return Ok(String::new(alloc));
    };
    let mut output = Vec::new(alloc);
    output.resize(most, 0)?;
    Ok(match encoding.decode_mut(text, &mut output) {
        Ok(count) => format!(in alloc; "{count} in all")?,
        Err(partial) => {
            let (read, written, error) = (partial.read, partial.written, partial.error);
            format!(in alloc; "{read} read, {written} written, {error}")?
        }
    })
}

/// Returns `true` if `decode_mut` decodes `text` to zeros, as many as `output` has.
fn decodes_to_zeros(encoding: &Encoding, text: &[u8], output: &mut [u8]) -> bool
    requires limit { length text.now ≤ DECODE_LIMIT }
{
    if encoding.decode_len(text.len()) != Ok(output.len()) {
        return false;
    }
    let len = output.len();
    encoding.decode_mut(text, output) == Ok(len) && output.iter().all(|byte| *byte == 0)
}

#[test]
fn decode_mut_of_halves(rt: HostRuntime) {
    let encoding = base64_nopad();
    let mut output = [1; 3];
    assert!(rt; decodes_to_zeros(&encoding, b"AA", &mut output[..1]));
    assert!(rt; decodes_to_zeros(&encoding, b"AA", &mut output[1..2]));
    assert_eq!(rt; output, [0, 0, 1]);
    assert!(rt; decodes_to_zeros(&encoding, b"AAAA", &mut output));
}
