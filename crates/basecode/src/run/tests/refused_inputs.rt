//! Inputs and arguments without an answer.

use super::*;

#[test]
fn writes_what_comes_before_a_fault(rt: HostRuntime) -> Result<(), Fail> {
    let zeros = b"\0\0\0".as_slice();
    for (words, text, written, line) in [
        (
            "decode HEXLOWER",
            "4G",
            b"".as_slice(),
            "invalid symbol at 1",
        ),
        (
            "decode HEXLOWER",
            "4G4",
            b"".as_slice(),
            "invalid length at 2",
        ),
        (
            "decode HEXLOWER",
            "DE",
            b"".as_slice(),
            "invalid symbol at 0",
        ),
        (
            "decode HEXLOWER",
            "6869\n",
            b"hi".as_slice(),
            "invalid length at 4",
        ),
        ("decode BASE64_NOPAD", "AAAAA", zeros, "invalid length at 4"),
        ("decode BASE64", "AAAA!", zeros, "invalid length at 4"),
    ] {
        let line = format!(in rt.alloc(); "basecode: {line}\n")?;
        let got = done(rt.alloc(), words, text.as_bytes())?;
        assert!(rt; got.is_refusal(line.as_str(), written), "at {text}");
    }
    for byte in 0..=255u8 {
        let got = done(rt.alloc(), "decode HEXLOWER", &[byte])?;
        assert!(rt;
            got.is_refusal("basecode: invalid length at 0\n", b"".as_slice()),
            "at {byte}"
        );
    }
    Ok(())
}

#[test]
fn prints_the_fault_of_wrong_words(rt: HostRuntime) -> Result<(), Fail> {
    let usage = "basecode: usage: basecode list OR encode NAME OR decode NAME OR canonical NAME\n";
    for (words, line) in [
        ("decode NOPE", "basecode: unknown encoding: NOPE\n"),
        ("encode BASE65", "basecode: unknown encoding: BASE65\n"),
        ("encode hexlower", "basecode: unknown encoding: hexlower\n"),
        ("", usage),
        ("encode", usage),
        ("encode HEXLOWER HEXLOWER", usage),
        ("recode NOPE", usage),
        ("list x", usage),
        ("canonical", usage),
        ("canonical BASE64 BASE64", usage),
        ("canonical NOPE", "basecode: unknown encoding: NOPE\n"),
    ] {
        let got = done(rt.alloc(), words, b"4G")?;
        assert!(rt; got.is_fault(2, line) && got.reads == 0, "at {words}");
    }
    Ok(())
}
