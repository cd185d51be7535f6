//! Texts that come in pieces, cut anywhere.

use crate::rows::{bytes_of_field, show_bytes};
use data_encoding::{DECODE_LIMIT, DecodeError, Encoding};
use encoding_stream::Decoder;
use std::alloc::{AllocError, Global};
use std::test::Fail;

/// Pushes a piece, if the text stays within its limit.
pub fn push_within_limit(
    decoder: &mut Decoder<'_>,
    piece: &[u8],
    output: &mut Vec<u8>,
) -> Result<(), AllocError> {
    let len = decoder.len();
    if len > DECODE_LIMIT || piece.len() > DECODE_LIMIT - len {
        return Err(AllocError);
    }
    decoder.push(piece, output)
}

/// Ends a text. Returns its fault.
pub fn finish_text(
    decoder: Decoder<'_>,
    output: &mut Vec<u8>,
) -> Result<Option<DecodeError>, AllocError> {
    match decoder.finish(output) {
        Ok(finished) => Ok(finished.verdict.err()),
        Err(_) => Err(AllocError),
    }
}

/// Moves the output to the end of an answer, followed by a slash.
fn move_output(alloc: Global, output: &mut Vec<u8>, answer: &mut String) -> Result<(), AllocError> {
    answer.push_str(show_bytes(alloc, output)?.as_str())?;
    output.clear();
    answer.push('/')
}

/// Returns the output for each piece of a text and for its end, and the fault. A slash separates
/// two pieces, and two outputs.
pub fn show_pieces(alloc: Global, encoding: &Encoding, text: &str) -> Result<String, Fail> {
    let mut decoder = Decoder::new(encoding);
    let mut answer = String::new(alloc);
    let mut output = Vec::new(alloc);
    for piece in text.split('/') {
        push_within_limit(&mut decoder, &bytes_of_field(alloc, piece)?, &mut output)?;
        move_output(alloc, &mut output, &mut answer)?;
    }
    let fault = finish_text(decoder, &mut output)?;
    move_output(alloc, &mut output, &mut answer)?;
    if let Some(error) = fault {
        answer.push_str(error.to_string(alloc)?.as_str())?;
    }
    Ok(answer)
}
