//! Data and texts that come in pieces.

use anyhow::{Result, bail, ensure};
use data_encoding::{DECODE_LIMIT, ENCODE_LIMIT, Encoding, base64};
use encoding_stream::Decoder;
use std::alloc::Global;

/// Returns the data of a text in base64 that comes in pieces, cut anywhere.
pub fn decoded_pieces(alloc: Global, pieces: &[&str]) -> Result<Vec<u8>> {
    let encoding = base64();
    let mut decoder = Decoder::new(&encoding);
    let mut output = Vec::new(alloc);
    for piece in pieces {
        match decoder.len().checked_add(piece.len()) {
            Some(len) if len <= DECODE_LIMIT => decoder.push(piece.as_bytes(), &mut output)?,
            _ => bail!("the text is too long"),
        }
    }
    let Ok(finished) = decoder.finish(&mut output) else {
        bail!("out of memory");
    };
    finished.verdict?;
    Ok(output)
}

/// Appends the text of data that comes in two pieces. After an error the output may end with a
/// prefix of that text.
pub fn append_both(
    encoding: &Encoding,
    one: &[u8],
    other: &[u8],
    output: &mut String,
) -> Result<()> {
    ensure!(one.len() <= ENCODE_LIMIT, "too much data");
    ensure!(other.len() <= ENCODE_LIMIT, "too much data");
    let mut encoder = encoding.new_encoder(output);
    if encoder.append(one).is_err() || encoder.append(other).is_err() {
        encoder.abandon();
        bail!("out of memory");
    }
    if let Err(encoder) = encoder.finalize() {
        encoder.abandon();
        bail!("out of memory");
    }
    Ok(())
}
