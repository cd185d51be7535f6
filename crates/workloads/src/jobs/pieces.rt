//! Texts and data in pieces, as they come from a socket.

use super::calls::{add_fault, encoded};
use crate::digest::Digest;
use crate::inputs::Inputs;
use anyhow::{Result, bail, ensure};
use data_encoding::{DECODE_LIMIT, ENCODE_LIMIT, Encoding, base32, base64, base64_mime, hexlower};
use encoding_stream::{BufferDecoder, Decoder};
use std::alloc::Global;

// The most bytes of a piece.
const MOST: usize = 1460;

/// Encodes and decodes in pieces of four sizes, in four encodings.
pub fn run(alloc: Global, inputs: &mut Inputs, rounds: u64, digest: &mut Digest) -> Result<()> {
    let encodings = [hexlower(), base32(), base64(), base64_mime()];
    for _ in 0..rounds {
        for encoding in &encodings {
            for (size, len) in [(MOST, 32_768), (512, 32_768), (64, 8_192), (7, 1_024)] {
                convert(alloc, inputs, encoding, (size, len), digest)?;
            }
        }
    }
    Ok(())
}

// Encodes data in pieces, and decodes two texts in pieces.
fn convert(
    alloc: Global,
    inputs: &mut Inputs,
    encoding: &Encoding,
    (size, len): (usize, usize),
    digest: &mut Digest,
) -> Result<()> {
    let data = inputs.bytes(alloc, len)?;
    let mut text = String::new(alloc);
    append(inputs, encoding, &data, size, &mut text)?;
    digest.add_bytes(text.as_bytes());
    push(alloc, inputs, encoding, text.as_bytes(), size, digest)?;

    let data = inputs.bytes(alloc, len.saturating_sub(1))?;
    let text = encoded(alloc, encoding, &data)?;
    read(inputs, encoding, text.as_bytes(), size, digest)
}

// Where the piece ends that begins at a position: after a number of bytes up to `size`, mostly just
// that many.
fn piece_end(inputs: &mut Inputs, start: usize, len: usize, size: usize) -> usize {
    let count = if inputs.below(4) == 0 {
        inputs.between(1, size.clamp(1, MOST))
    } else {
        size
    };
    len.min(start.saturating_add(count))
}

// Appends the text of data that comes in pieces.
fn append(
    inputs: &mut Inputs,
    encoding: &Encoding,
    data: &[u8],
    size: usize,
    text: &mut String,
) -> Result<()> {
    let mut encoder = encoding.new_encoder(text);
    let mut start = 0;
    for _ in 0..data.len() {
        if start == data.len() {
            break;
        }
        let end = piece_end(inputs, start, data.len(), size);
        let Some(piece) = data.get(start..end) else {
            break;
        };
        if piece.len() > ENCODE_LIMIT || encoder.append(piece).is_err() {
            encoder.abandon();
            bail!("out of memory");
        }
        start = end;
    }
    if let Err(encoder) = encoder.finalize() {
        encoder.abandon();
        bail!("out of memory");
    }
    Ok(())
}

// Decodes a text that comes in pieces into a vector.
fn push(
    alloc: Global,
    inputs: &mut Inputs,
    encoding: &Encoding,
    text: &[u8],
    size: usize,
    digest: &mut Digest,
) -> Result<()> {
    let mut decoder = Decoder::new(encoding);
    let mut output = Vec::new(alloc);
    let mut start = 0;
    for _ in 0..text.len() {
        if start == text.len() {
            break;
        }
        let end = piece_end(inputs, start, text.len(), size);
        let Some(piece) = text.get(start..end) else {
            break;
        };
        match decoder.len().checked_add(piece.len()) {
            Some(len) if len <= DECODE_LIMIT => decoder.push(piece, &mut output)?,
            _ => bail!("the text is too long"),
        }
        start = end;
    }
    let Ok(finished) = decoder.finish(&mut output) else {
        bail!("out of memory");
    };
    digest.add_bytes(&output);
    if let Err(error) = finished.verdict {
        add_fault(digest, error);
    }
    Ok(())
}

// Decodes a text that comes in pieces into a buffer.
fn read(
    inputs: &mut Inputs,
    encoding: &Encoding,
    text: &[u8],
    size: usize,
    digest: &mut Digest,
) -> Result<()> {
    let mut decoder = BufferDecoder::new(encoding);
    let mut buffer = [0; MOST + 8];
    let mut start = 0;
    for _ in 0..text.len() {
        if start == text.len() {
            break;
        }
        let end = piece_end(inputs, start, text.len(), size);
        let Some(piece) = text.get(start..end) else {
            break;
        };
        match decoder.len().checked_add(piece.len()) {
            Some(len) if len <= DECODE_LIMIT => {}
            _ => bail!("the text is too long"),
        }
        ensure!(decoder.most(piece.len()) <= buffer.len(), "no room");
        let written = decoder.read(piece, &mut buffer);
        digest.add_bytes(&buffer[..written]);
        start = end;
    }
    let (written, verdict) = decoder.finish(&mut buffer);
    digest.add_bytes(&buffer[..written]);
    if let Err(error) = verdict {
        add_fault(digest, error);
    }
    Ok(())
}
