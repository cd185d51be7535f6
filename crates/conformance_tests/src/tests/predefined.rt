//! The predefined encodings, by name.

use conformance_support::rows::{last_fields, row_of};
use data_encoding::{
    Encoding, EncodingRef, Specification, base32, base32_dnscurve, base32_dnscurve_ref,
    base32_dnssec, base32_dnssec_ref, base32_nopad, base32_nopad_nocase, base32_nopad_nocase_ref,
    base32_nopad_ref, base32_nopad_visual, base32_nopad_visual_ref, base32_ref, base32hex,
    base32hex_nopad, base32hex_nopad_ref, base32hex_ref, base64, base64_mime,
    base64_mime_permissive, base64_mime_permissive_ref, base64_mime_ref, base64_nopad,
    base64_nopad_ref, base64_ref, base64url, base64url_nopad, base64url_nopad_ref, base64url_ref,
    hexlower, hexlower_permissive, hexlower_permissive_ref, hexlower_ref, hexupper,
    hexupper_permissive, hexupper_permissive_ref, hexupper_ref,
};
use std::alloc::Global;
use std::test::Fail;

/// An encoding and its specification. For a row, also the input and the expected result.
#[derive(Drop)]
pub(super) struct Case<'a> {
    pub(super) encoding: Encoding,
    pub(super) specification: Specification,
    pub(super) input: &'a str,
    pub(super) want: &'a str,
}

/// Returns the encoding with a name, as a value and by reference.
pub(super) fn named(name: &str) -> Option<(Encoding, EncodingRef<'static>)> {
    Some(match name {
        "HEXLOWER" => (hexlower(), hexlower_ref()),
        "HEXLOWER_PERMISSIVE" => (hexlower_permissive(), hexlower_permissive_ref()),
        "HEXUPPER" => (hexupper(), hexupper_ref()),
        "HEXUPPER_PERMISSIVE" => (hexupper_permissive(), hexupper_permissive_ref()),
        "BASE32" => (base32(), base32_ref()),
        "BASE32_NOPAD" => (base32_nopad(), base32_nopad_ref()),
        "BASE32_NOPAD_NOCASE" => (base32_nopad_nocase(), base32_nopad_nocase_ref()),
        "BASE32_NOPAD_VISUAL" => (base32_nopad_visual(), base32_nopad_visual_ref()),
        "BASE32HEX" => (base32hex(), base32hex_ref()),
        "BASE32HEX_NOPAD" => (base32hex_nopad(), base32hex_nopad_ref()),
        "BASE32_DNSSEC" => (base32_dnssec(), base32_dnssec_ref()),
        "BASE32_DNSCURVE" => (base32_dnscurve(), base32_dnscurve_ref()),
        "BASE64" => (base64(), base64_ref()),
        "BASE64_NOPAD" => (base64_nopad(), base64_nopad_ref()),
        "BASE64_MIME" => (base64_mime(), base64_mime_ref()),
        "BASE64_MIME_PERMISSIVE" => (base64_mime_permissive(), base64_mime_permissive_ref()),
        "BASE64URL" => (base64url(), base64url_ref()),
        "BASE64URL_NOPAD" => (base64url_nopad(), base64url_nopad_ref()),
        _ => return None,
    })
}

/// Returns the case of a row with the name or the specification of an encoding.
pub(super) fn case_of(alloc: Global, line: &str) -> Result<Case<'_>, Fail> {
    let (name, rest) = line.split_once('|').unwrap_or((line, ""));
    let Some((encoding, _)) = named(name) else {
        let row = row_of(alloc, line)?;
        return Ok(Case {
            encoding: row.specification.encoding()?,
            specification: row.specification,
            input: row.input,
            want: row.want,
        });
    };
    let (input, want) = last_fields(&mut rest.split('|'));
    Ok(Case {
        specification: encoding.specification(alloc)?,
        encoding,
        input,
        want,
    })
}
