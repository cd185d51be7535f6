//! Calls of the libraries, whose results go to a digest.

use crate::digest::Digest;
use anyhow::{Result, ensure};
use data_encoding::{
    DECODE_LIMIT, DecodeError, DecodeFault, DecodeKind, ENCODE_LIMIT, Encoding, Specification, Wrap,
};
use encoding_stream::{StreamFault, Watch, decode_stream};
use std::alloc::Global;

/// Adds a fault.
pub fn add_fault(digest: &mut Digest, error: DecodeError) {
    let kind: u64 = match error.kind {
        DecodeKind::Length => 1,
        DecodeKind::Symbol => 2,
        DecodeKind::Trailing => 3,
        DecodeKind::Padding => 4,
    };
    digest.add(kind);
    digest.add(error.position as u64);
}

/// Returns the text of the data.
pub fn encoded(alloc: Global, encoding: &Encoding, data: &[u8]) -> Result<String> {
    ensure!(data.len() <= ENCODE_LIMIT, "too much data");
    Ok(encoding.encode(alloc, data)?)
}

/// Decodes a text by `decode`, and adds its data or its fault.
pub fn decode(alloc: Global, encoding: &Encoding, text: &[u8], digest: &mut Digest) -> Result<()> {
    ensure!(text.len() <= DECODE_LIMIT, "the text is too long");
    match encoding.decode(alloc, text) {
        Ok(bytes) => digest.add_bytes(&bytes),
        Err(DecodeFault::Error(error)) => add_fault(digest, error),
        Err(DecodeFault::OutOfMemory) => ensure!(false, "out of memory"),
    }
    Ok(())
}

/// Decodes a text by `decode_mut` into a buffer, and adds its data or its fault.
pub fn decode_into(
    encoding: &Encoding,
    text: &[u8],
    buffer: &mut [u8],
    digest: &mut Digest,
) -> Result<()> {
    ensure!(text.len() <= DECODE_LIMIT, "the text is too long");
    let most = match encoding.decode_len(text.len()) {
        Ok(most) => most,
        Err(error) => {
            add_fault(digest, error);
            return Ok(());
        }
    };
    ensure!(most <= buffer.len(), "the buffer is too small");
    match encoding.decode_mut(text, &mut buffer[..most]) {
        Ok(written) if written <= most => digest.add_bytes(&buffer[..written]),
        Ok(_) => {}
        Err(partial) => {
            digest.add(partial.read as u64);
            digest.add(partial.written as u64);
            add_fault(digest, partial.error);
        }
    }
    Ok(())
}

/// Decodes a text by `decode_stream`, and adds its data and its fault.
pub fn decode_streamed(encoding: &Encoding, text: &[u8], digest: &mut Digest) -> Result<()> {
    let mut reader = Watch::new(text);
    let mut writer = Watch::new(Digest::new());
    let result = decode_stream(encoding, &mut reader, &mut writer);
    digest.add(writer.into_inner().value());
    match result {
        Ok(()) => {}
        Err(StreamFault::Decode(error)) => add_fault(digest, error),
        Err(_) => ensure!(false, "a call failed"),
    }
    Ok(())
}

/// Returns the specification of base64 in lines of this width.
pub fn in_lines(alloc: Global, width: usize, separator: &str) -> Result<Specification> {
    let mut specification = Specification::new(alloc);
    specification.symbols = String::from_str(
        alloc,
        "ABCDEFGHIJKLMNOPQRSTUVWXYZabcdefghijklmnopqrstuvwxyz0123456789+/",
    )?;
    specification.padding = Some('=');
    specification.ignore = String::from_str(alloc, separator)?;
    specification.wrap = Wrap {
        width,
        separator: String::from_str(alloc, separator)?,
    };
    Ok(specification)
}
