//! The callers with runs, and with the symbols of a group.

use conformance::callers::runs::{decode_run, first_no_symbol};
use data_encoding::{DecodeError, DecodeKind, DecodePartial, base32, base64, base64_mime};

#[test]
fn runs_without_ignored_bytes(rt: HostRuntime) {
    let mut output = [0; 6];
    let partial = DecodePartial {
        read: 4,
        written: 3,
        error: DecodeError {
            position: 6,
            kind: DecodeKind::Symbol,
        },
    };
    assert_eq!(rt;
        decode_run(&base64_mime(), b"SGVsbG8=", &mut output),
        Some(Ok(5))
    );
    assert!(rt; output.starts_with(b"Hello"));
    assert_eq!(rt;
        decode_run(&base64_mime(), b"SGVsbG!=", &mut output),
        Some(Err(partial))
    );
    assert_eq!(rt; decode_run(&base64_mime(), b"SGVsbG\r=", &mut output), None);
    assert_eq!(rt; decode_run(&base64_mime(), b"SGVs", &mut output), None);
}

#[test]
fn first_other_byte(rt: HostRuntime) {
    assert_eq!(rt; first_no_symbol(&base64(), b"QR"), None);
    assert_eq!(rt; first_no_symbol(&base64(), b"Q=Q="), Some(1));
    assert_eq!(rt; first_no_symbol(&base64_mime(), b"QUI\n"), Some(3));
    assert_eq!(rt; first_no_symbol(&base32(), b""), None);
}
