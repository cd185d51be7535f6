//! Encodings that are stored as bytes, and texts that are appended to another.

use conformance::callers::buffers::encode_and_log;
use conformance::callers::marked::{finish_or_mark, push_or_mark};
use conformance::callers::stored::{
    encoded_at_second_try, finalized, is_stored_alike, restored, show_nothing, stands_for_some,
    write_at_end,
};
use data_encoding::{Encoding, base32, base64, base64_mime, hexlower};
use encoding_stream::Decoder;
use std::alloc::Global;
use std::fmt;
use std::test::Fail;

/// A writer that fails at each call.
#[derive(Drop)]
struct Refusing {}

impl fmt::Write for Refusing {
    fn write_str(&mut self, _part: &str) -> fmt::Result {
        Err(fmt::Error)
    }
}

/// Returns `true` if the encoding is restored from its layout, its layout is not the layout of
/// `other`, and no layout is empty.
pub(super) fn restores_layout(encoding: &Encoding, other: &Encoding) -> bool {
    let bytes = encoding.internal_implementation();
    let is_back = match restored(encoding) {
        Some(back) => back == *encoding,
        None => false,
    };
    is_back
        && is_stored_alike(encoding, encoding)
        && !is_stored_alike(encoding, other)
        && stands_for_some(bytes.as_slice())
        && !stands_for_some(b"")
}

/// Returns `true` if the text of `byte` is appended by `finalized`.
fn appends_by_finalized(encoding: &Encoding, byte: u8, output: &mut String) -> bool {
    let mut encoder = encoding.new_encoder(output);
    let is_taken = encoder.append(&[byte]).is_ok();
    match finalized(encoder) {
        Ok(()) => is_taken,
        Err(encoder) => {
            encoder.abandon();
            false
        }
    }
}

/// Returns `true` if the callers append their texts.
fn appends_texts(alloc: Global) -> Result<bool, Fail> {
    let mut output = String::from_str(alloc, "Payload: ")?;
    let is_ok = write_at_end(&hexlower(), b"Hello", &mut output).is_ok();
    encoded_at_second_try(&base32(), b"Hello ", b"world", &mut output)?;
    encoded_at_second_try(&base64_mime(), b"", b"", &mut output)?;
    let is_last = appends_by_finalized(&base64(), b'!', &mut output);
    let want = "Payload: 48656c6c6fJBSWY3DPEB3W64TMMQ======IQ==";
    Ok(is_ok && is_last && output.as_str() == want)
}

/// Returns `true` if the text of two bytes is written, and appended to a log.
fn logs_text(alloc: Global) -> Result<bool, Fail> {
    let mut log = String::from_str(alloc, "log: ")?;
    let mut output = [0; 4];
    let encoding = hexlower();
    if encoding.encode_len(2) != output.len() {
        return Ok(false);
    }
    encode_and_log(&encoding, b"hi", &mut output, &mut log)?;
    Ok(log.as_str() == "log: 6869" && output.as_slice() == "6869".as_bytes())
}

/// Returns `true` if a text is decoded to an output with room for one byte, without a mark, since
/// memory suffices.
fn decodes_without_mark(alloc: Global) -> Result<bool, Fail> {
    let encoding = base64();
    let mut decoder = Decoder::new(&encoding);
    let mut output = Vec::with_capacity(alloc, 1)?;
    let is_pushed = push_or_mark(&mut decoder, b"SGVs", b'?', &mut output);
    output.reserve(1)?;
    let finished = finish_or_mark(decoder, b'?', &mut output);
    Ok(is_pushed && finished.is_some() && output.as_slice() == b"Hel".as_slice())
}

/// Returns `true` if a writer that fails at each call displays empty data, and no other data.
fn displays_no_data() -> bool {
    let mut plain = fmt::Formatter::new(Refusing {});
    show_nothing(&base64_mime(), &mut plain).is_ok()
        && write!(plain, "{}", base64().encode_display(b"")).is_ok()
        && write!(plain, "{}", base64().encode_display(b"A")).is_err()
}

#[test]
fn append_texts(rt: HostRuntime) -> Result<(), Fail> {
    assert!(rt; appends_texts(rt.alloc())?);
    Ok(())
}

#[test]
fn log_text(rt: HostRuntime) -> Result<(), Fail> {
    assert!(rt; logs_text(rt.alloc())?);
    Ok(())
}

#[test]
fn decode_without_mark(rt: HostRuntime) -> Result<(), Fail> {
    assert!(rt; decodes_without_mark(rt.alloc())?);
    Ok(())
}

#[test]
fn display_no_data(rt: HostRuntime) {
    assert!(rt; displays_no_data());
}
