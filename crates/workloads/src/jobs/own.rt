//! Encodings that are built from a specification, or from a layout, and used for a few texts.

use super::calls::{decode, encoded};
use crate::digest::Digest;
use crate::inputs::Inputs;
use anyhow::{Context, Result};
use data_encoding::{BitOrder, Encoding, Specification};
use std::alloc::Global;

const LETTERS: &[u8] = b"ABCDEFGHIJKLMNOPQRSTUVWXYZ";

const SYMBOLS: &[u8; 64] = b"ABCDEFGHIJKLMNOPQRSTUVWXYZabcdefghijklmnopqrstuvwxyz0123456789_.";

// How many encodings of each width there are in a round.
const COUNT: usize = 16;

/// Builds encodings of each width, and uses each of them for a few texts.
pub fn run(alloc: Global, inputs: &mut Inputs, rounds: u64, digest: &mut Digest) -> Result<()> {
    for _ in 0..rounds {
        for _ in 0..COUNT {
            for count in [16, 32, 64, 64] {
                let encoding = build(alloc, inputs, count)?;
                convert(alloc, inputs, &encoding, digest)?;
                let layout = encoding.internal_implementation();
                digest.add_bytes(layout.as_slice());
                let again = Encoding::internal_new(layout.as_slice()).context("no layout")?;
                digest.add(u64::from(again.is_canonical()));
                convert(alloc, inputs, &again, digest)?;
            }
        }
    }
    Ok(())
}

// An encoding of this many symbols: shuffled, or in order; for up to 32 symbols upper case is often
// translated to lower case, and there may be padding and ignored bytes.
fn build(alloc: Global, inputs: &mut Inputs, count: usize) -> Result<Encoding> {
    let mut symbols = *SYMBOLS;
    if count <= 32 {
        symbols = *b"0123456789abcdefghijklmnopqrstuvwxyz0123456789abcdefghijklmnopqr";
        inputs.shuffle(&mut symbols[..36]);
    } else if inputs.below(2) == 0 {
        inputs.shuffle(&mut symbols);
    }
    let mut specification = Specification::new(alloc);
    for symbol in symbols.iter().take(count) {
        specification.symbols.push(char::from(*symbol))?;
        let capital = symbol.to_ascii_uppercase();
        if count <= 32 && capital != *symbol && LETTERS.contains(&capital) {
            specification.translate.from.push(char::from(capital))?;
            specification.translate.to.push(char::from(*symbol))?;
        }
    }
    if inputs.below(3) == 0 {
        specification.ignore = String::from_str(alloc, "- ")?;
    }
    if count > 16 && inputs.below(3) == 0 {
        specification.padding = Some('=');
    }
    if inputs.below(5) == 0 {
        specification.bit_order = BitOrder::LeastSignificantFirst;
    }
    Ok(specification.encoding()?)
}

// Encodes and decodes data of three lengths.
fn convert(
    alloc: Global,
    inputs: &mut Inputs,
    encoding: &Encoding,
    digest: &mut Digest,
) -> Result<()> {
    for most in [32, 200, 1_000] {
        let len = inputs.between(16, most);
        let text = encoded(alloc, encoding, &inputs.bytes(alloc, len)?)?;
        digest.add_bytes(text.as_bytes());
        decode(alloc, encoding, text.as_bytes(), digest)?;
    }
    Ok(())
}
