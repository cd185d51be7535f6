//! Encodings by reference, compared with the same encodings as values.

ghost use Rattle.std.specs.Prelude.{◌≤◌, length};

use super::encoding::encode_mut_writes;
use super::predefined::named;
use conformance::callers::referenced::{
    decode_exactly, decode_first, decode_next, encode_exactly, encode_first, encode_next,
    text_lengths,
};
use data_encoding::{
    Encoding, EncodingRef, base64_mime_ref, base64_ref, hexlower_ref, predefined, predefined_name,
    predefined_names, predefined_number, predefined_numbered,
};

/// The names, in the order of their numbers.
const NAMES: &str = "\
HEXLOWER
HEXLOWER_PERMISSIVE
HEXUPPER
HEXUPPER_PERMISSIVE
BASE32
BASE32_NOPAD
BASE32_NOPAD_NOCASE
BASE32_NOPAD_VISUAL
BASE32HEX
BASE32HEX_NOPAD
BASE32_DNSSEC
BASE32_DNSCURVE
BASE64
BASE64_NOPAD
BASE64_MIME
BASE64_MIME_PERMISSIVE
BASE64URL
BASE64URL_NOPAD";

/// The data that each encoding encodes.
const DATA: &[u8; 6] = b"foobar";

/// Returns `true` if both encode the data to the same text, and the reference decodes it.
fn reference_matches(encoding: &Encoding, reference: &EncodingRef<'_>) -> bool {
    let mut text = [0; 64];
    let mut data = [0; 64];
    let len = encoding.encode_len(6);
    if len > 64 {
        return false;
    }
    let Ok(most) = encoding.decode_len(len) else {
        return false;
    };
    if most > 64 {
        return false;
    }
    encode_exactly(reference, DATA, &mut text[..len])
        && encode_mut_writes(encoding, DATA, &text[..len])
        && decode_exactly(reference, &text[..len], &mut data[..most]) == Some(6)
        && data[..6] == DATA[..]
        && reference.encoding() == *encoding
}

/// Returns `true` if the encoding `name` and its reference match.
fn named_reference_matches(name: &str) -> bool {
    match named(name) {
        Some((encoding, reference)) => reference_matches(&encoding, &reference),
        None => false,
    }
}

#[test]
fn references_match_values(rt: HostRuntime) {
    for name in NAMES.split('\n') {
        assert!(rt; named_reference_matches(name), "{name}");
    }
}

/// Returns `true` if `number` and `name` belong to each other and to one encoding.
fn has_number(number: u32, name: &str) -> bool {
    let (Some((encoding, _)), Some(by_name)) = (named(name), predefined(name)) else {
        return false;
    };
    let Some(by_number) = predefined_numbered(number) else {
        return false;
    };
    predefined_name(number) == Some(name)
        && predefined_number(name) == Some(number)
        && by_name.encoding() == encoding
        && by_number.encoding() == encoding
}

#[test]
fn names_match_numbers(rt: HostRuntime) {
    let mut number = 0;
    for name in NAMES.split('\n') {
        assert!(rt; has_number(number, name), "{name}");
        if number < 18 {
            number += 1;
        }
    }
    assert_eq!(rt; number, 18);
    assert!(rt; predefined_numbered(18).is_none() && predefined_name(18).is_none());
    assert!(rt; predefined("base64").is_none() && predefined_number("base64").is_none());
}

#[test]
fn listed_names(rt: HostRuntime) {
    assert_eq!(rt; predefined_names().strip_suffix("\n"), Some(NAMES));
}

/// Returns `true` if the blocks of data in two pieces have the texts `front_text` and `next_text`.
fn encodes_in_two(
    encoding: &EncodingRef<'_>,
    front: &[u8],
    next: &[u8],
    front_text: &[u8],
    next_text: &[u8],
) -> bool
    requires front { length front.now ≤ 8 }
    requires next { length next.now ≤ 8 }
{
    let (mut one, mut other) = ([0; 16], [0; 16]);
    let Some((in_front, kept)) = encode_first(encoding, front, &mut one) else {
        return false;
    };
    let Some((in_next, _)) = encode_next(encoding, kept, next, &mut other) else {
        return false;
    };
    one.get(..in_front).unwrap_or(&[]) == front_text
        && other.get(..in_next).unwrap_or(&[]) == next_text
}

/// Returns `true` if the whole groups of a text in two pieces mean `front_data` and `next_data`.
fn decodes_in_two(
    encoding: &EncodingRef<'_>,
    front: &[u8],
    next: &[u8],
    front_data: &[u8],
    next_data: &[u8],
) -> bool
    requires front { length front.now ≤ 8 }
    requires next { length next.now ≤ 8 }
{
    let (mut one, mut other) = ([0; 16], [0; 16]);
    let (in_front, kept) = decode_first(encoding, front, &mut one);
    if kept.len != front.len() {
        return false;
    }
    let Some((in_next, _)) = decode_next(encoding, kept, next, &mut other) else {
        return false;
    };
    one.get(..in_front).unwrap_or(&[]) == front_data
        && other.get(..in_next).unwrap_or(&[]) == next_data
}

#[test]
fn pieces_by_reference(rt: HostRuntime) {
    let base64 = base64_ref();
    assert!(rt; encodes_in_two(&base64, b"fooba", b"rb", b"Zm9v", b"YmFy"));
    assert!(rt; decodes_in_two(&base64, b"Zm9vYm", b"FyYg==", b"foo", b"barb"));
    assert!(rt; decodes_in_two(&base64, b"Zm9vY!", b"FyYg==", b"foo", b""));
    assert!(rt; encodes_in_two(&hexlower_ref(), b"fo", b"o", b"666f", b"6f"));
    let mime = base64_mime_ref();
    assert!(rt; decodes_in_two(&mime, b"Zm9v\r\nYm", b"F\r\ny", b"foo", b"bar"));
    assert!(rt; encodes_in_two(&mime, b"foobar", b"b", b"", b""));
    assert!(rt; text_lengths(&base64, 3, 4) == (4, 8));
    assert!(rt; text_lengths(&mime, 0, 57) == (0, 78));
}

#[test]
fn whole_groups(rt: HostRuntime) {
    let mime = base64_mime_ref();
    assert_eq!(rt; base64_ref().whole_groups_len(b"Zm9vYmFy"), 8);
    assert_eq!(rt; base64_ref().whole_groups_len(b"Zm9vYmF"), 4);
    assert_eq!(rt; mime.whole_groups_len(b"Zm9\r\nv\r\n"), 8);
    assert_eq!(rt; mime.whole_groups_len(b"\nZ\nm9"), 0);
    assert_eq!(rt;
        mime.whole_groups_len(b"Zm9vYmFyZm9vYmFy\nZm9vYmFyZm9vYmFy\nZm\n"),
        33
    );
}
