//! Texts and data in buffers of the caller.

use anyhow::{Result, bail, ensure};
use data_encoding::{DECODE_LIMIT, ENCODE_LIMIT, Encoding};
use std::alloc::Global;

/// Returns the text of the data, in a vector of exactly its length.
pub fn encoded_exactly(alloc: Global, encoding: &Encoding, data: &[u8]) -> Result<Vec<u8>> {
    ensure!(data.len() <= ENCODE_LIMIT, "too much data");
    let mut text = vec![in alloc; 0; encoding.encode_len(data.len())]?;
    encoding.encode_mut(data, &mut text);
    Ok(text)
}

/// Prints the text, of at most 64 characters, without allocating.
pub fn print_text(rt: &impl Print, encoding: &Encoding, data: &[u8]) -> Result<()> {
    ensure!(data.len() <= ENCODE_LIMIT, "too much data");
    let mut buffer = [0; 64];
    let len = encoding.encode_len(data.len());
    ensure!(len <= buffer.len(), "the text has {len} characters");
    let text = encoding.encode_mut_str(data, &mut buffer[..len]);
    println!(rt; "{text}")?;
    Ok(())
}

/// Decodes to the start of the buffer, and returns how many bytes were written.
pub fn decode_into(encoding: &Encoding, text: &[u8], buffer: &mut [u8]) -> Result<usize> {
    ensure!(text.len() <= DECODE_LIMIT, "the text is too long");
    let most = encoding.decode_len(text.len())?;
    ensure!(most <= buffer.len(), "the text may mean {most} bytes");
    match encoding.decode_mut(text, &mut buffer[..most]) {
        Ok(written) => Ok(written),
        Err(partial) => {
            let (read, written) = (partial.read, partial.written);
            let error = partial.error;
            bail!("{error}, after {read} characters that mean {written} bytes")
        }
    }
}
