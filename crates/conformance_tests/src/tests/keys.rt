//! The callers with keys, with faults that follow from bytes, and with pairs of data or texts.

use conformance::callers::buffers::fault_so_far;
use conformance::callers::keys::{
    first_wrong, is_digest, is_empty_text, is_same_key, is_sorted_by_texts, key_of, place_after,
    texts_in_order,
};
use data_encoding::{DecodeError, DecodeKind, base32, base64_mime, base64_nopad, hexlower};
use std::test::Fail;

#[test]
fn keys_of_tokens(rt: HostRuntime) {
    assert_eq!(rt;
        key_of(b"MDEyMzQ1Njc4OWFiY2Rl_w"),
        Some(*b"0123456789abcde\xff")
    );
    assert_eq!(rt; key_of(b"MDEyMzQ1Njc4OWFiY2Rl_x"), None);
    assert_eq!(rt; key_of(b"MDEyMzQ1Njc4OWFiY2Rl+w"), None);
    assert_eq!(rt; key_of(b"MDEyMzQ1Njc4OWFiY2Rl"), None);
}

#[test]
fn first_invalid_digit(rt: HostRuntime) {
    assert_eq!(rt; first_wrong(b"48656c6c6f"), None);
    assert_eq!(rt; first_wrong(b"48656C6g"), Some(5));
    assert_eq!(rt; first_wrong(b"\xff0"), Some(0));
    assert_eq!(rt; first_wrong(b""), None);
}

#[test]
fn digest_length(rt: HostRuntime) {
    assert!(rt; is_digest(b"da39a3ee5e6b4b0d3255bfef95601890AFD80709"));
    assert!(rt; !is_digest(b"da39a3ee5e6b4b0d3255bfef95601890afd807"));
}

#[test]
fn equal_keys(rt: HostRuntime) -> Result<(), Fail> {
    assert!(rt; is_same_key(rt.alloc(), &base32(), b"key", b"key")?);
    assert!(rt; !is_same_key(rt.alloc(), &base32(), b"key", b"key\0")?);
    assert!(rt; !is_same_key(rt.alloc(), &base64_mime(), b"key", b"")?);
    Ok(())
}

#[test]
fn fault_after_prefix(rt: HostRuntime) -> Result<(), Fail> {
    assert_eq!(rt; place_after(rt.alloc(), b"SGVsbG!8", 4)?, Some(2));
    assert_eq!(rt; place_after(rt.alloc(), b"SG!sbG!8", 4)?, None);
    assert_eq!(rt; place_after(rt.alloc(), b"SGVsbG8", 4)?, None);
    assert_eq!(rt; place_after(rt.alloc(), b"!GVs", 0)?, Some(0));
    Ok(())
}

#[test]
fn order_of_texts(rt: HostRuntime) -> Result<(), Fail> {
    let (one, other) = texts_in_order(rt.alloc(), b"a", b"b")?;
    assert!(rt; one.as_bytes() < other.as_bytes());
    assert!(rt; !is_sorted_by_texts());
    let text = base64_nopad().encode(rt.alloc(), &[204])?;
    let other_text = base64_nopad().encode(rt.alloc(), &[208])?;
    assert!(rt; other_text.as_bytes() < text.as_bytes());
    assert!(rt; is_empty_text(&base64_mime(), b'\n') && !is_empty_text(&hexlower(), b'\n'));
    Ok(())
}

#[test]
fn fault_of_prefix(rt: HostRuntime) {
    let mut output = [0; 32];
    let fault = DecodeError {
        position: 2,
        kind: DecodeKind::Symbol,
    };
    assert_eq!(rt;
        fault_so_far(&base64_nopad(), b"SG!sQ", &mut output),
        Some(fault)
    );
    assert_eq!(rt; fault_so_far(&base64_nopad(), b"SGVs!", &mut output), None);
    assert_eq!(rt; fault_so_far(&hexlower(), b"4", &mut output), None);
}
