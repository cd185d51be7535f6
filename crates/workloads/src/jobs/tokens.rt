//! Short texts by the thousand: digests, identifiers, keys, names and tokens.

use super::calls::{decode, decode_into};
use crate::digest::Digest;
use crate::inputs::Inputs;
use anyhow::Result;
use data_encoding::{Encoding, base32_dnscurve, base32_dnssec, base64url_nopad, hexlower};
use std::alloc::Global;

// How many texts of each kind there are in a round.
const COUNT: usize = 64;

// The most bytes of data of a token.
const MOST: usize = 675;

/// Encodes and decodes short data in four encodings.
pub fn run(alloc: Global, inputs: &mut Inputs, rounds: u64, digest: &mut Digest) -> Result<()> {
    let hex = hexlower();
    let dnssec = base32_dnssec();
    let dnscurve = base32_dnscurve();
    let tokens = base64url_nopad();
    for _ in 0..rounds {
        convert_all(alloc, inputs, &hex, (16, 32), digest)?;
        convert_all(alloc, inputs, &dnssec, (20, 20), digest)?;
        convert_all(alloc, inputs, &dnscurve, (32, 32), digest)?;
        convert_all(alloc, inputs, &tokens, (22, MOST), digest)?;
    }
    Ok(())
}

// Encodes data of lengths in a range by two calls, and decodes each text by one call.
fn convert_all(
    alloc: Global,
    inputs: &mut Inputs,
    encoding: &Encoding,
    (least, most): (usize, usize),
    digest: &mut Digest,
) -> Result<()> {
    let least = least.min(MOST);
    let most = most.min(MOST).max(least);
    let mut data = [0; MOST];
    let mut buffer = [0; MOST];
    let mut text = String::new(alloc);
    for _ in 0..COUNT {
        let len = inputs.between(least, most);
        inputs.fill(&mut data[..len]);
        let mut bytes = encoding.encode(alloc, &data[..len])?.into_bytes();
        digest.add_bytes(&bytes);
        damage_some(inputs, &mut bytes);
        decode(alloc, encoding, &bytes, digest)?;

        let len = inputs.between(least, most);
        inputs.fill(&mut data[..len]);
        text.clear();
        encoding.encode_append(&data[..len], &mut text)?;
        digest.add_bytes(text.as_bytes());
        decode_into(encoding, text.as_bytes(), &mut buffer, digest)?;
    }
    Ok(())
}

// One text in ten has a fault: a byte that is no symbol, trailing bits that are not zeros in some
// encodings, or a length that no text may have.
fn damage_some(inputs: &mut Inputs, text: &mut Vec<u8>) {
    let kind = inputs.below(30);
    if text.is_empty() || kind > 2 {
        return;
    }
    let len = text.len();
    match kind {
        0 => {
            let position = inputs.below(len);
            text[position] = b'!';
        }
        1 => text[len - 1] = b'9',
        _ => text.truncate(len - 1),
    }
}
