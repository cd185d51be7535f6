//! Data and texts that are in memory as a whole.

use anyhow::{Context, Result, ensure};
use data_encoding::{DECODE_LIMIT, ENCODE_LIMIT, base64};
use std::alloc::Global;

/// Returns the text of the data, in base64.
pub fn encoded(alloc: Global, data: &[u8]) -> Result<String> {
    ensure!(data.len() <= ENCODE_LIMIT, "too much data");
    Ok(base64().encode(alloc, data)?)
}

/// Returns the data that a text in base64 means.
pub fn decoded(alloc: Global, text: &str) -> Result<Vec<u8>> {
    ensure!(text.len() <= DECODE_LIMIT, "the text is too long");
    let bytes = base64().decode(alloc, text.as_bytes());
    bytes.context(format_args!("decoding {text:?}"))
}
