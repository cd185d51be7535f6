//! From a reader to a writer.

use anyhow::{Result, bail, ensure};
use data_encoding::Encoding;
use encoding_stream::{StreamFault, Watch, decode_stream};
use std::io::{Read, Write};

/// Reads a text to its end, and writes the data that it means as it comes.
pub fn decode_all<R: Read, W: Write>(
    encoding: &Encoding,
    reader: &mut Watch<R>,
    writer: &mut Watch<W>,
) -> Result<()> {
    ensure!(
        !reader.failed() && !writer.failed(),
        "a call has failed before"
    );
    match decode_stream(encoding, reader, writer) {
        Ok(()) => Ok(()),
        Err(StreamFault::Read) => bail!("the text can't be read"),
        Err(StreamFault::Write) => bail!("the data can't be written"),
        Err(StreamFault::Decode(error)) => bail!("a fault of the text: {error}"),
        Err(StreamFault::TooLong) => bail!("the text is too long"),
    }
}
