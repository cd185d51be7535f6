//! Calls that encode.

use crate::hog::Hog;
use data_encoding::{ENCODE_LIMIT, Encoding, base64, base64_mime};

/// A few bytes.
const HELLO: &[u8] = b"Hello";

/// Data of two lines and more, if there are lines.
const DATA: &[u8] = b"Data that come in pieces are encoded block by block, and the few bytes \
    that complete no block are held until they do, or until the text is finished.";

/// The output before a call appends to it.
const BEFORE: &str = "Result: ";

/// Tests `Encoding::encode`.
pub fn encodes(hog: &mut Hog) -> bool {
    hog.fill();
    let first = base64().encode(hog.alloc, HELLO);
    hog.clear();
    let second = base64().encode(hog.alloc, HELLO);
    first.is_err() == hog.has_refused(true)
        && match second {
            Ok(text) => text.as_str() == "SGVsbG8=",
            Err(_) => false,
        }
}

/// Tests `Encoding::encode_append`.
pub fn appends(hog: &mut Hog) -> bool {
    for encoding in [base64(), base64_mime()] {
        for len in [57, 130] {
            let input = DATA.get(..len).unwrap_or(&[]);
            if !is_appended(hog, &encoding, input) {
                return false;
            }
        }
    }
    true
}

/// Returns `true` if a text is unchanged if memory runs out, and the same call appends to it later.
fn is_appended(hog: &mut Hog, encoding: &Encoding, input: &[u8]) -> bool {
    if input.len() > ENCODE_LIMIT {
        return false;
    }
    let Ok(want) = encoding.encode(hog.alloc, input) else {
        return false;
    };
    let Ok(mut output) = String::from_str(hog.alloc, BEFORE) else {
        return false;
    };
    let capacity = output.capacity();
    hog.fill();
    let first = encoding.encode_append(input, &mut output);
    hog.clear();
    if first.is_err() != hog.has_refused(true) {
        return false;
    }
    if first.is_err() {
        if output.as_str() != BEFORE || output.capacity() != capacity {
            return false;
        }
        if encoding.encode_append(input, &mut output).is_err() {
            return false;
        }
    }
    output.as_str().strip_prefix(BEFORE) == Some(want.as_str())
}

/// Tests `Encoder::append`, followed by `finalize`.
pub fn appends_pieces(hog: &mut Hog) -> bool {
    for encoding in [base64(), base64_mime()] {
        for blocks in 0..3usize {
            let len = blocks * encoding.encode_align() + 2;
            let input = DATA.get(..len).unwrap_or(HELLO);
            if !is_encoded(hog, &encoding, input, blocks != 0) {
                return false;
            }
        }
    }
    true
}

/// Returns `true` if data is encoded after its first byte was appended.
///
/// The call that appends the rest needs memory if it completes a block. If it runs out of memory,
/// the same call succeeds later.
fn is_encoded(hog: &mut Hog, encoding: &Encoding, input: &[u8], has_block: bool) -> bool {
    if input.is_empty() || input.len() > ENCODE_LIMIT {
        return false;
    }
    let Ok(want) = encoding.encode(hog.alloc, input) else {
        return false;
    };
    let (front, rest) = input.split_at(1);
    let mut output = String::new(hog.alloc);
    let mut encoder = encoding.new_encoder(&mut output);
    let held = encoder.append(front);
    hog.fill();
    let first = encoder.append(rest);
    hog.clear();
    let second = if first.is_err() {
        encoder.append(rest)
    } else {
        Ok(())
    };
    let is_finalized = match encoder.finalize() {
        Ok(()) => true,
        Err(encoder) => {
            encoder.abandon();
            false
        }
    };
    held.is_ok()
        && second.is_ok()
        && is_finalized
        && first.is_err() == hog.has_refused(has_block)
        && output.as_str() == want.as_str()
}

/// Tests `Encoder::finalize`, which returns the encoder if memory runs out.
pub fn finalizes(hog: &mut Hog) -> bool {
    is_finalized(hog, &base64(), "SA==") && is_finalized(hog, &base64_mime(), "SA==\r\n")
}

/// Returns `true` if one byte is encoded to `text`, at the second call if the first runs out of
/// memory.
fn is_finalized(hog: &mut Hog, encoding: &Encoding, text: &str) -> bool {
    let mut output = String::new(hog.alloc);
    let mut encoder = encoding.new_encoder(&mut output);
    let held = encoder.append(b"H");
    hog.fill();
    let first = encoder.finalize();
    hog.clear();
    let is_refused = first.is_err();
    let is_finalized = match first {
        Ok(()) => true,
        Err(encoder) => match encoder.finalize() {
            Ok(()) => true,
            Err(encoder) => {
                encoder.abandon();
                false
            }
        },
    };
    is_finalized && held.is_ok() && is_refused == hog.has_refused(true) && output.as_str() == text
}
