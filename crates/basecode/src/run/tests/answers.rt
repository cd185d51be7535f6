//! Inputs that have an answer.

use super::*;

pub(super) const NAMES: &str = "\
HEXLOWER
HEXLOWER_PERMISSIVE
HEXUPPER
HEXUPPER_PERMISSIVE
BASE32
BASE32_NOPAD
BASE32_NOPAD_NOCASE
BASE32_NOPAD_VISUAL
BASE32HEX
BASE32HEX_NOPAD
BASE32_DNSSEC
BASE32_DNSCURVE
BASE64
BASE64_NOPAD
BASE64_MIME
BASE64_MIME_PERMISSIVE
BASE64URL
BASE64URL_NOPAD
";

#[test]
fn writes_each_answer_and_flushes_once(rt: HostRuntime) -> Result<(), Fail> {
    for (data, text) in [
        (b"".as_slice(), ""),
        (b"Hello".as_slice(), "48656c6c6f"),
        (b"\xde\xad\xbe\xef".as_slice(), "deadbeef"),
    ] {
        let encoded = done(rt.alloc(), "encode HEXLOWER", data)?;
        assert!(rt; encoded.is_answer(text.as_bytes()), "the text is {text}");
        let decoded = done(rt.alloc(), "decode HEXLOWER", text.as_bytes())?;
        assert!(rt; decoded.is_answer(data), "the data of {text}");
    }
    let decoded = done(rt.alloc(), "decode BASE64_NOPAD", b"AAAA")?;
    assert!(rt; decoded.is_answer(b"\0\0\0"), "three bytes");
    Ok(())
}

#[test]
fn answers_long_inputs(rt: HostRuntime) -> Result<(), Fail> {
    let data = "Hello".repeat(rt.alloc(), 4_000)?;
    let text = "48656c6c6f".repeat(rt.alloc(), 4_000)?;
    let encoded = done(rt.alloc(), "encode HEXLOWER", data.as_bytes())?;
    assert!(rt; encoded.is_answer(text.as_bytes()), "the text");
    let decoded = done(rt.alloc(), "decode HEXLOWER", text.as_bytes())?;
    assert!(rt; decoded.is_answer(data.as_bytes()), "the data");
    Ok(())
}

#[test]
fn answers_without_reading(rt: HostRuntime) -> Result<(), Fail> {
    for (words, answer) in [
        ("list", NAMES),
        ("canonical BASE32_NOPAD", "true\n"),
        ("canonical BASE64", "false\n"),
        ("canonical BASE64_MIME", "false\n"),
    ] {
        let got = done(rt.alloc(), words, b"4G")?;
        assert!(rt;
            got.is_answer(answer.as_bytes()) && got.reads == 0,
            "{words}"
        );
    }
    Ok(())
}
