//! The state of a decoder after a piece that ends in padding, with zeros after the held bytes, and
//! after longer pieces, with room in the output or without. Zeros also follow the held bytes of an
//! encoder.

use conformance_support::rows::{bytes_of_field, row_of};
use data_encoding::{DECODE_LIMIT, Encoding};
use encoding_stream::{BufferDecoder, BufferEncoder, Decoder, Kept};
use std::alloc::Global;
use std::test::Fail;

/// Texts with a last group of fewer bytes than a group has.
const ROWS: &str = "\
base64|most|check|=||76|←↵|||AA==←↵
base64|most|check|=||76|←↵|||QUJDAA=←↵=←↵
base64|most|check|=||76|←↵|||AAA=←↵←↵QUJD←↵
base64|most|single check|=||0||||QUJDAAA=
base64|most|single check|=|-|0||||QUJD-A-A==-
base32|least|check|=|-|0||||AA--======AAAA--A===";

/// Reads a piece of at most 64 bytes. Returns `false` if the text would exceed its limit.
fn read_within_limit(decoder: &mut BufferDecoder<'_>, piece: &[u8]) -> bool {
    let mut output = [0; 72];
    let len = decoder.len();
    if len > DECODE_LIMIT || piece.len() > DECODE_LIMIT - len {
        return false;
    }
    if decoder.most(piece.len()) > output.len() {
        return false;
    }
    decoder.read(piece, &mut output);
    true
}

/// Returns `true` if zeros follow the held bytes and their positions.
fn has_cleared_rest(kept: &Kept) -> bool {
    kept.positions
        .iter()
        .skip(kept.count)
        .all(|position| *position == 0)
        && kept.bytes.iter().skip(kept.count).all(|byte| *byte == 0)
}

/// Returns `true` if a decoder has the same state after `text` and after its bytes one by one, with
/// zeros after the held bytes.
fn states_match(alloc: Global, encoding: &Encoding, text: &[u8]) -> Result<bool, Fail> {
    let mut whole = BufferDecoder::new(encoding);
    let mut each = BufferDecoder::new(encoding);
    let mut is_read = read_within_limit(&mut whole, text);
    for byte in text {
        is_read = read_within_limit(&mut each, &[*byte])
            && has_cleared_rest(&each.kept())
            && is_read;
    }
    let (one, other) = (whole.kept(), each.kept());
    Ok(is_read && format!(in alloc; "{one:?}")? == format!(in alloc; "{other:?}")?)
}

#[test]
fn decoder_clears_rest_of_held_bytes(rt: HostRuntime) -> Result<(), Fail> {
    for line in ROWS.split('\n') {
        let row = row_of(rt.alloc(), line)?;
        let encoding = row.specification.encoding()?;
        let text = bytes_of_field(rt.alloc(), row.want)?;
        assert!(rt; states_match(rt.alloc(), &encoding, &text)?, "{line}");
    }
    Ok(())
}

/// The lengths of longer pieces, around the lengths that a decoder reads at a time.
const LENGTHS: [usize; 7] = [65, 100, 1023, 1024, 1025, 2000, 3000];

/// Returns the states of a decoder after each piece of `len` bytes.
///
/// With room, the output has room for all pieces. Otherwise each piece gets a new output.
fn print_states(
    alloc: Global,
    encoding: &Encoding,
    text: &[u8],
    len: usize,
    has_room: bool,
) -> Result<String, Fail> {
    let mut decoder = Decoder::new(encoding);
    let mut output = Vec::with_capacity(alloc, 8192)?;
    let mut lines = String::new(alloc);
    for piece in text.chunks(len.max(1)) {
        if piece.len() > DECODE_LIMIT || decoder.len() > DECODE_LIMIT - piece.len() {
            return Ok(lines);
        }
        if !has_room {
            output = Vec::new(alloc);
        }
        decoder.push(piece, &mut output)?;
        lines.push_str(format!(in alloc; "{decoder:?}\n")?.as_str())?;
    }
    Ok(lines)
}

#[test]
fn decoder_state_is_independent_of_room(rt: HostRuntime) -> Result<(), Fail> {
    for line in ROWS.split('\n') {
        let row = row_of(rt.alloc(), line)?;
        let encoding = row.specification.encoding()?;
        let part = bytes_of_field(rt.alloc(), row.want)?;
        let mut text = Vec::new(rt.alloc());
        for _ in 0..300 {
            text.extend_from_slice(&part)?;
        }
        for len in LENGTHS {
            let one = print_states(rt.alloc(), &encoding, &text, len, true)?;
            let other = print_states(rt.alloc(), &encoding, &text, len, false)?;
            assert!(rt; one == other, "{line} {len}");
        }
    }
    Ok(())
}

/// Reads a byte of data. Returns `true` if zeros follow the held bytes.
fn clears_rest_after(encoder: &mut BufferEncoder<'_>, byte: u8) -> bool {
    let mut output = [0; 600];
    if encoder.due(1) > output.len() {
        return false;
    }
    encoder.read(&[byte], &mut output);
    let kept = encoder.kept();
    kept.bytes.iter().skip(kept.count).all(|byte| *byte == 0)
}

#[test]
fn encoder_clears_rest_of_held_bytes(rt: HostRuntime) -> Result<(), Fail> {
    for line in ROWS.split('\n') {
        let row = row_of(rt.alloc(), line)?;
        let encoding = row.specification.encoding()?;
        let mut encoder = BufferEncoder::new(&encoding);
        for byte in 1..=255 {
            assert!(rt; clears_rest_after(&mut encoder, byte), "{line} {byte}");
        }
    }
    Ok(())
}
