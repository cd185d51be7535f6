//! Bodies of mail and key files: base64 in lines.

use super::calls::{decode, decode_streamed, encoded, in_lines};
use crate::digest::Digest;
use crate::inputs::Inputs;
use anyhow::Result;
use data_encoding::{Encoding, base64_mime};
use std::alloc::Global;

/// Encodes bodies and key files in lines, and decodes their texts as base64 of mail.
pub fn run(alloc: Global, inputs: &mut Inputs, rounds: u64, digest: &mut Digest) -> Result<()> {
    let mime = base64_mime();
    let narrow = in_lines(alloc, 60, "\n")?.encoding()?;
    let key = in_lines(alloc, 64, "\n")?.encoding()?;
    let wide = in_lines(alloc, 72, "\n")?.encoding()?;
    for _ in 0..rounds {
        for encoding in [&mime, &narrow, &key, &wide] {
            let len = inputs.between(768, 150_000);
            convert(alloc, inputs, encoding, &mime, len, digest)?;
        }
        for _ in 0..16 {
            let len = inputs.between(200, 2_400);
            convert(alloc, inputs, &key, &mime, len, digest)?;
        }
    }
    Ok(())
}

// Encodes data of two lengths, and decodes one text as a whole and one from a reader.
fn convert(
    alloc: Global,
    inputs: &mut Inputs,
    encoding: &Encoding,
    mime: &Encoding,
    len: usize,
    digest: &mut Digest,
) -> Result<()> {
    let text = encoded(alloc, encoding, &inputs.bytes(alloc, len)?)?;
    digest.add_bytes(text.as_bytes());
    decode(alloc, mime, text.as_bytes(), digest)?;

    let other = inputs.bytes(alloc, len.saturating_add(1))?;
    let text = encoded(alloc, encoding, &other)?;
    digest.add_bytes(text.as_bytes());
    decode_streamed(mime, text.as_bytes(), digest)
}
