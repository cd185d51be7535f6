//! Calls that decode.

use crate::hog::Hog;
use data_encoding::{
    DecodeError, DecodeFault, DecodeKind, Encoding, base64, base64_mime, base64_nopad, hexlower,
};
use encoding_stream::Decoder;

/// A text with an unfinished group.
const TEXT: &[u8] = b"SGVsbG8";

/// Tests `Encoding::decode`, which does not allocate if the length of the text is invalid.
pub fn decodes(hog: &mut Hog) -> bool {
    hog.fill();
    let first = base64_nopad().decode(hog.alloc, TEXT);
    hog.clear();
    let is_refused = matches!(first, Err(DecodeFault::OutOfMemory));
    let second = base64_nopad().decode(hog.alloc, TEXT);
    is_refused == hog.has_refused(true)
        && first.is_err() == is_refused
        && match second {
            Ok(bytes) => bytes.as_slice() == b"Hello".as_slice(),
            Err(_) => false,
        }
        && tells_a_length(hog)
}

/// Returns `true` if three characters of padded base64 have a length fault, even without memory.
fn tells_a_length(hog: &mut Hog) -> bool {
    let fault = DecodeError {
        position: 0,
        kind: DecodeKind::Length,
    };
    hog.fill();
    let answer = base64().decode(hog.alloc, b"AAB");
    hog.clear();
    !hog.has_refused(false) && matches!(answer, Err(DecodeFault::Error(error)) if error == fault)
}

/// Tests `Decoder::push`.
pub fn pushes(hog: &mut Hog) -> bool {
    if !is_pushed_to_full(hog) {
        return false;
    }
    for (encoding, digit) in [(hexlower(), b'0'), (base64(), b'A'), (base64_mime(), b'A')] {
        let text = [digit; 1200];
        for len in [0, 5, 299, 1199] {
            let piece = text.get(..len).unwrap_or(&[]);
            if !is_pushed(hog, &encoding, &[digit], piece) {
                return false;
            }
        }
    }
    true
}

/// Returns `true` if a piece runs out of memory if it completes a group, and the same call succeeds
/// later.
///
/// `front` has no whole group.
fn is_pushed(hog: &mut Hog, encoding: &Encoding, front: &[u8], piece: &[u8]) -> bool {
    if front.len() > 8 || piece.len() > 1200 {
        return false;
    }
    let mut want = Vec::new(hog.alloc);
    let mut whole = Decoder::new(encoding);
    if whole.push(front, &mut want).is_err() || whole.push(piece, &mut want).is_err() {
        return false;
    }
    let mut output = Vec::new(hog.alloc);
    let mut decoder = Decoder::new(encoding);
    let held = decoder.push(front, &mut output);
    hog.fill();
    let first = decoder.push(piece, &mut output);
    hog.clear();
    if first.is_err() != hog.has_refused(!piece.is_empty()) {
        return false;
    }
    if first.is_err() && (!output.is_empty() || decoder.len() != front.len()) {
        return false;
    }
    let second = if first.is_err() {
        decoder.push(piece, &mut output)
    } else {
        Ok(())
    };
    held.is_ok()
        && second.is_ok()
        && decoder.len() == whole.len()
        && output.as_slice() == want.as_slice()
}

/// Returns `true` if a piece runs out of memory if the output holds bytes and is full.
fn is_pushed_to_full(hog: &mut Hog) -> bool {
    let mut output = Vec::new(hog.alloc);
    let encoding = hexlower();
    let mut decoder = Decoder::new(&encoding);
    let held = decoder.push(b"00000000000000000000000000000000", &mut output);
    for _ in output.len()..output.capacity() {
        if output.push(0).is_err() {
            return false;
        }
    }
    let len = output.len();
    hog.fill();
    let pushed = decoder.push(b"0000", &mut output);
    hog.clear();
    held.is_ok()
        && pushed.is_err() == hog.has_refused(true)
        && (pushed.is_ok() || output.len() == len)
}

/// Tests `Decoder::finish`, which returns the decoder if memory runs out.
pub fn finishes(hog: &mut Hog) -> bool {
    is_finished(hog, b"bG8", Ok(b"lo"))
        && is_finished(hog, b"A", Err(DecodeKind::Length))
        && is_finished(hog, b"A!", Err(DecodeKind::Symbol))
}

/// Returns `true` if a text of less than a group has the bytes or the kind of fault in `want`, at
/// the second call if the first runs out of memory.
///
/// Only bytes need memory.
fn is_finished(hog: &mut Hog, text: &[u8], want: Result<&[u8], DecodeKind>) -> bool {
    if text.len() > 8 {
        return false;
    }
    let mut output = Vec::new(hog.alloc);
    let encoding = base64_nopad();
    let mut decoder = Decoder::new(&encoding);
    let held = decoder.push(text, &mut output);
    hog.fill();
    let first = decoder.finish(&mut output);
    hog.clear();
    let is_refused = first.is_err();
    let finished = match first {
        Ok(finished) => Ok(finished),
        Err(decoder) => decoder.finish(&mut output),
    };
    let is_right = match (finished, want) {
        (Ok(finished), Ok(bytes)) => finished.verdict.is_ok() && output.as_slice() == bytes,
        (Ok(finished), Err(kind)) => {
            output.is_empty()
                && match finished.verdict {
                    Ok(_) => false,
                    Err(error) => error.kind == kind,
                }
        }
        (Err(_), _) => false,
    };
    is_right && held.is_ok() && is_refused == hog.has_refused(want.is_ok())
}
