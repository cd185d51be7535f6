//! Texts that are hard to decode fast: ignored bytes within groups, short lines, long separators,
//! short padded texts one after another, and faults at the end.

use super::calls::{decode, encoded, in_lines};
use crate::digest::Digest;
use crate::inputs::Inputs;
use anyhow::Result;
use data_encoding::{Encoding, Specification, base32, base64, base64_mime};
use std::alloc::{AllocError, Global};

/// Decodes texts of each kind.
pub fn run(alloc: Global, inputs: &mut Inputs, rounds: u64, digest: &mut Digest) -> Result<()> {
    let typed = typed_key(alloc)?;
    let spaced = in_lines(alloc, 64, " ")?.encoding()?;
    let mime = base64_mime();
    let short = in_lines(alloc, 12, "\n")?.encoding()?;
    let far = far_apart(alloc)?;
    for _ in 0..rounds {
        for every in 3..6 {
            decode_broken(alloc, inputs, &spaced, (b' ', every), digest)?;
            decode_broken(alloc, inputs, &typed, (b'-', every), digest)?;
        }
        for every in [4, 10, 16] {
            decode_broken(alloc, inputs, &mime, (b'\n', every), digest)?;
        }
        convert(alloc, inputs, &short, digest)?;
        convert(alloc, inputs, &far, digest)?;
        decode_joined(alloc, inputs, &base64(), digest)?;
        decode_joined(alloc, inputs, &base32(), digest)?;
        decode_joined(alloc, inputs, &mime, digest)?;
    }
    Ok(())
}

// Base32 as it is typed: hyphens are ignored, and upper case is accepted.
fn typed_key(alloc: Global) -> Result<Encoding> {
    let mut specification = Specification::new(alloc);
    specification.symbols = String::from_str(alloc, "0123456789abcdefghjkmnpqrstvwxyz")?;
    specification.translate.from = String::from_str(alloc, "ABCDEFGHJKMNPQRSTVWXYZ")?;
    specification.translate.to = String::from_str(alloc, "abcdefghjkmnpqrstvwxyz")?;
    specification.ignore = String::from_str(alloc, "-")?;
    Ok(specification.encoding()?)
}

// Base64 in lines of 76 with a separator of 120 bytes, a prefix of the next line as in quotations.
fn far_apart(alloc: Global) -> Result<Encoding> {
    let mut separator = String::from_str(alloc, "\n")?;
    for _ in 0..119 {
        separator.push(' ')?;
    }
    let mut specification = in_lines(alloc, 76, separator.as_str())?;
    specification.ignore = String::from_str(alloc, "\n ")?;
    Ok(specification.encoding()?)
}

// The text with a byte after each `every` bytes.
fn broken(alloc: Global, text: &[u8], byte: u8, every: usize) -> Result<Vec<u8>, AllocError> {
    let mut bytes = vec![in alloc; byte; text.len().saturating_add(text.len() / 2)]?;
    let mut at: usize = 0;
    let mut left = every;
    for each in text {
        if left == 0 {
            at = at.wrapping_add(1);
            left = every;
        }
        if at >= bytes.len() {
            break;
        }
        bytes[at] = *each;
        at = at.wrapping_add(1);
        left = left.wrapping_sub(1);
    }
    bytes.truncate(at);
    Ok(bytes)
}

// Decodes a text with an ignored byte after each few symbols.
fn decode_broken(
    alloc: Global,
    inputs: &mut Inputs,
    encoding: &Encoding,
    (byte, every): (u8, usize),
    digest: &mut Digest,
) -> Result<()> {
    let len = inputs.between(500, 8_000);
    let text = encoded(alloc, encoding, &inputs.bytes(alloc, len)?)?;
    let text = broken(alloc, text.as_bytes(), byte, every)?;
    decode(alloc, encoding, &text, digest)
}

// Encodes data, and decodes its text, with a fault in its last symbol one time in three.
fn convert(
    alloc: Global,
    inputs: &mut Inputs,
    encoding: &Encoding,
    digest: &mut Digest,
) -> Result<()> {
    let len = inputs.between(500, 20_000);
    let mut text = encoded(alloc, encoding, &inputs.bytes(alloc, len)?)?.into_bytes();
    digest.add_bytes(&text);
    if inputs.below(3) == 0 {
        if let Some(last) = text.iter().rposition(|byte| byte.is_ascii_alphanumeric()) {
            if last < text.len() {
                text[last] = b'!';
            }
        }
    }
    decode(alloc, encoding, &text, digest)
}

// Decodes short texts one after another as one.
fn decode_joined(
    alloc: Global,
    inputs: &mut Inputs,
    encoding: &Encoding,
    digest: &mut Digest,
) -> Result<()> {
    let mut joined = Vec::new(alloc);
    let mut data = [0; 40];
    for _ in 0..200 {
        let len = inputs.between(1, 40);
        inputs.fill(&mut data[..len]);
        let text = encoding.encode(alloc, &data[..len])?;
        joined.extend_from_slice(text.as_bytes())?;
    }
    decode(alloc, encoding, &joined, digest)
}
