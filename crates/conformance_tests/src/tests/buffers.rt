//! Texts in pieces, cut anywhere, and decoded to buffers by decoders that continue from a state.

ghost use Rattle.std.specs.Prelude.{◌≤◌, length};

use conformance::callers::buffers::decode_kept;
use conformance::callers::kept::{checks_ends, encode_kept, fault_within, made_again};
use conformance_support::oracle::{Expected, Oracle};
use data_encoding::{
    DECODE_LIMIT, DecodeError, DecodeKind, Encoding, base64, base64_mime, base64_mime_permissive,
    base64_nopad, hexlower,
};
use encoding_stream::{BufferDecoder, Kept};
use std::alloc::{AllocError, Global};
use std::test::Fail;

/// Reads a piece of at most 17 bytes, and appends the bytes that are written. The buffer has
/// exactly the needed room.
fn read_piece(
    decoder: &mut BufferDecoder<'_>,
    piece: &[u8],
    output: &mut Vec<u8>,
) -> Result<(), AllocError> {
    if piece.len() > 17 || decoder.len() > DECODE_LIMIT - piece.len() {
        return Err(AllocError);
    }
    let mut room = [0; 24];
    let most = decoder.most(piece.len());
    let written = decoder.read(piece, &mut room[..most]);
    output.extend_from_slice(&room[..written])
}

/// Returns `true` if three decoders, one for each piece of `text`, have the results of the oracle.
fn matches_in_three_pieces(
    alloc: Global,
    encoding: &Encoding,
    want: &Expected,
    text: &[u8],
    cuts: (usize, usize),
) -> Result<bool, AllocError>
    requires first { cuts.0 ≤ cuts.1 }
    requires second { cuts.1 ≤ length text.now }
{
    let mut kept = BufferDecoder::new(encoding).kept();
    let mut output = Vec::new(alloc);
    for piece in [&text[..cuts.0], &text[cuts.0..cuts.1], &text[cuts.1..]] {
        let Some(mut decoder) = BufferDecoder::resumed(encoding, kept) else {
            return Ok(false);
        };
        read_piece(&mut decoder, piece, &mut output)?;
        kept = decoder.kept();
    }
    let Some(decoder) = BufferDecoder::resumed(encoding, kept) else {
        return Ok(false);
    };
    let mut last = [0; 5];
    let (written, verdict) = decoder.finish(&mut last);
    output.extend_from_slice(&last[..written])?;
    Ok(verdict.err() == want.fault && output == want.bytes)
}

/// Returns `true` if the results match wherever `text` is cut.
fn matches_every_cut(
    alloc: Global,
    encoding: &Encoding,
    want: &Expected,
    text: &[u8],
) -> Result<bool, AllocError>
    requires short { length text.now ≤ 17 }
{
    for second in 0..=text.len() {
        for first in 0..=second {
            if !matches_in_three_pieces(alloc, encoding, want, text, (first, second))? {
                return Ok(false);
            }
        }
        if !matches_decode_kept(alloc, encoding, want, text, second)? {
            return Ok(false);
        }
    }
    Ok(true)
}

/// Returns `true` if `decode_kept` has the results of the oracle for `text`, cut at `cut`.
fn matches_decode_kept(
    alloc: Global,
    encoding: &Encoding,
    want: &Expected,
    text: &[u8],
    cut: usize,
) -> Result<bool, AllocError>
    requires short { length text.now ≤ 17 }
    requires inside { cut ≤ length text.now }
{
    let (mut front, mut next, mut last) = ([0; 24], [0; 24], [0; 5]);
    let filled = decode_kept(
        encoding,
        &text[..cut],
        &text[cut..],
        &mut front,
        &mut next,
        &mut last,
    );
    let mut output = Vec::new(alloc);
    for part in [
        front.get(..filled.front),
        next.get(..filled.next),
        last.get(..filled.last),
    ] {
        output.extend_from_slice(part.unwrap_or(&[]))?;
    }
    Ok(filled.verdict.err() == want.fault && output == want.bytes)
}

/// Returns the fault of `text`, if the results match the oracle wherever it is cut.
pub(super) fn decode_every_cut(
    alloc: Global,
    encoding: &Encoding,
    oracle: Oracle<'_>,
    text: &[u8],
) -> Result<String, Fail>
    requires short { length text.now ≤ 17 }
{
    let whole = oracle.decode(alloc, text)?;
    let want = oracle.in_pieces(alloc, text, whole)?;
    if !matches_every_cut(alloc, encoding, &want, text)? {
        return Ok(String::from_str(alloc, "decoded otherwise")?);
    }
    match want.fault {
        Some(error) => Ok(error.to_string(alloc)?),
        None => Ok(String::new(alloc)),
    }
}

/// Returns `true` if a decoder of base64 continues from a text of `len` bytes, with `count` of them
/// held, and with a fault or without.
fn resumes_after(len: usize, is_faulty: bool, count: usize) -> bool {
    let error = DecodeError {
        position: 0,
        kind: DecodeKind::Symbol,
    };
    let fault = if is_faulty { Some(error) } else { None };
    let kept = Kept {
        len,
        fault,
        positions: [0, 1, 2, 3, 4, 5, 6, 7],
        bytes: [0; 8],
        count,
        ended: false,
    };
    BufferDecoder::resumed(&base64(), kept).is_some()
}

/// Returns `true` if a decoder continues from eight bytes, three of them held and equal.
fn resumes_holding_three(encoding: &Encoding, positions: (usize, usize, usize), byte: u8) -> bool {
    let (first, second, third) = positions;
    let kept = Kept {
        len: 8,
        fault: None,
        positions: [first, second, third, 0, 0, 0, 0, 0],
        bytes: [byte; 8],
        count: 3,
        ended: false,
    };
    BufferDecoder::resumed(encoding, kept).is_some()
}

/// Returns `true` if a decoder continues from eight bytes with a fault.
fn resumes_with_fault(encoding: &Encoding, position: usize, kind: DecodeKind) -> bool {
    let kept = Kept {
        len: 8,
        fault: Some(DecodeError { position, kind }),
        positions: [0; 8],
        bytes: [0; 8],
        count: 0,
        ended: false,
    };
    BufferDecoder::resumed(encoding, kept).is_some()
}

/// Returns `true` if a decoder continues from one held byte at `position`.
fn resumes_holding_one(encoding: &Encoding, position: usize, ended: bool) -> bool {
    let kept = Kept {
        len: 1,
        fault: None,
        positions: [position, 0, 0, 0, 0, 0, 0, 0],
        bytes: *b"!       ",
        count: 1,
        ended,
    };
    BufferDecoder::resumed(encoding, kept).is_some()
}

/// Returns `true` if `most` asks for room before a fault, and for none after it.
fn returns_room() -> bool {
    let encoding = base64();
    let mut decoder = BufferDecoder::new(&encoding);
    let asked = decoder.most(8);
    let mut room = [0; 24];
    let most = decoder.most(5);
    let written = decoder.read(b"AA!AA", &mut room[..most]);
    asked == 6 && written == 0 && decoder.len() == 5 && decoder.most(8) == 0
}

#[test]
fn resume_refuses_invalid_counts(rt: HostRuntime) {
    for (len, is_faulty, count, want) in [
        (DECODE_LIMIT, false, 3, true),
        (DECODE_LIMIT, true, 0, true),
        (DECODE_LIMIT + 1, false, 0, false),
        (7, false, 4, false),
        (7, false, usize::MAX, false),
        (2, false, 3, false),
        (7, true, 1, false),
    ] {
        assert!(rt;
            resumes_after(len, is_faulty, count) == want,
            "{len} and {count}"
        );
    }
    assert!(rt; returns_room());
}

#[test]
fn resume_refuses_invalid_positions(rt: HostRuntime) {
    let mime = base64_mime();
    for (positions, byte, want) in [
        ((1, 3, 7), b'A', true),
        ((0, 1, 2), b'A', true),
        ((1, 3, 8), b'A', false),
        ((1, 3, 1000), b'A', false),
        ((1, 1, 7), b'A', false),
        ((3, 1, 7), b'A', false),
        ((1, 3, 7), b'!', true),
        ((1, 3, 7), b'\n', false),
    ] {
        let (first, second, third) = positions;
        let found = resumes_holding_three(&mime, positions, byte);
        assert!(rt; found == want, "{first}, {second}, {third} and {byte}");
    }
    let hexadecimal = hexlower();
    assert!(rt; resumes_holding_one(&hexadecimal, 0, false));
    assert!(rt;
        !resumes_holding_one(&hexadecimal, 1000, false),
        "after the text"
    );
    assert!(rt;
        !resumes_holding_one(&hexadecimal, 0, true),
        "after a last group"
    );
}

#[test]
fn resume_refuses_impossible_faults(rt: HostRuntime) {
    let padded = base64();
    for (position, kind, want) in [
        (7, DecodeKind::Symbol, true),
        (8, DecodeKind::Symbol, false),
        (1000, DecodeKind::Padding, false),
        (7, DecodeKind::Padding, true),
        (7, DecodeKind::Trailing, true),
        (4, DecodeKind::Length, false),
    ] {
        assert!(rt;
            resumes_with_fault(&padded, position, kind) == want,
            "{position}"
        );
    }
    let plain = base64_nopad();
    assert!(rt; resumes_with_fault(&plain, 7, DecodeKind::Symbol));
    assert!(rt;
        !resumes_with_fault(&plain, 7, DecodeKind::Padding),
        "padding without padding"
    );
    let hexadecimal = hexlower();
    assert!(rt; !resumes_with_fault(&hexadecimal, 7, DecodeKind::Padding));
    assert!(rt; resumes_with_fault(&hexadecimal, 7, DecodeKind::Trailing));
    let permissive = base64_mime_permissive();
    assert!(rt; resumes_with_fault(&permissive, 7, DecodeKind::Padding));
    assert!(rt;
        !resumes_with_fault(&permissive, 7, DecodeKind::Trailing),
        "trailing bits that are not checked"
    );
}

/// Returns `true` if `encode_kept` writes the `wanted` texts for the two pieces of `data`.
fn encodes_in_three(data: (&[u8], &[u8]), wanted: (&[u8], &[u8], &[u8])) -> bool
    requires first { length data.0.now ≤ 17 }
    requires second { length data.1.now ≤ 17 }
{
    let mut front = [0; 32];
    let mut next = [0; 32];
    let mut last = [0; 8];
    let (first, second) = data;
    let given = encode_kept(&base64(), first, second, &mut front, &mut next, &mut last);
    let Some(lengths) = given else {
        return false;
    };
    let (in_front, in_next, in_last) = wanted;
    front.get(..lengths.front) == Some(in_front)
        && next.get(..lengths.next) == Some(in_next)
        && last.get(..lengths.last) == Some(in_last)
}

#[test]
fn resume_from_kept_state(rt: HostRuntime) {
    assert!(rt; encodes_in_three((b"He", b"llo"), (b"", b"SGVs", b"bG8=")));
    assert!(rt; encodes_in_three((b"Hello", b""), (b"SGVs", b"", b"bG8=")));
    assert!(rt; encodes_in_three((b"", b"Hel"), (b"", b"SGVs", b"")));
    let kept = Kept {
        len: 2,
        fault: None,
        positions: [1, 0, 0, 0, 0, 0, 0, 0],
        bytes: *b"!       ",
        count: 1,
        ended: false,
    };
    assert!(rt; fault_within(&hexlower(), kept, b"0!") == Some(1));
    assert!(rt; made_again(&base64_mime()) == base64_mime());
    assert!(rt; checks_ends(&base64_nopad()) && checks_ends(&base64_mime_permissive()));
}
