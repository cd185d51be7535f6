//! Files of megabytes from a reader to a writer, as text and back.

use super::calls::decode_streamed;
use crate::digest::Digest;
use crate::inputs::{InputReader, Inputs};
use anyhow::{Result, ensure};
use data_encoding::{Encoding, base32, base64, base64_mime, hexlower};
use encoding_stream::{Watch, encode_stream};
use std::alloc::Global;

// The most bytes of a file.
const MOST: usize = 4_194_304;

/// Encodes a file in each of four encodings, and decodes the text.
pub fn run(alloc: Global, inputs: &mut Inputs, rounds: u64, digest: &mut Digest) -> Result<()> {
    let encodings = [hexlower(), base32(), base64(), base64_mime()];
    let mut text = Vec::with_capacity(alloc, 2 * MOST)?;
    for _ in 0..rounds {
        for encoding in &encodings {
            text.clear();
            text = convert(inputs, encoding, text, digest)?;
        }
    }
    Ok(())
}

// Encodes a file into a buffer, decodes what is written there, and returns the buffer.
fn convert(
    inputs: &mut Inputs,
    encoding: &Encoding,
    text: Vec<u8>,
    digest: &mut Digest,
) -> Result<Vec<u8>> {
    let left = inputs.between(MOST / 2, MOST);
    let mut reader = Watch::new(InputReader { inputs, left });
    let mut writer = Watch::new(text);
    ensure!(
        encode_stream(encoding, &mut reader, &mut writer).is_ok(),
        "a call failed"
    );
    let text = writer.into_inner();
    decode_streamed(encoding, &text, digest)?;
    Ok(text)
}
