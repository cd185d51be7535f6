//! The predefined encodings by name and by number.

ghost use Rattle.std.specs.Prelude.{◌≡◌, ◌≤◌, ◌↔◌, length, IfSome, None, Some};
ghost use Rattle.data_encoding_meaning.specs.specification.Named.{fields_named, fields_numbered, listing, name_numbered, number_named, IsNamed, IsNumbered};

use super::{
    base32_dnscurve_ref, base32_dnssec_ref, base32_nopad_nocase_ref, base32_nopad_ref,
    base32_nopad_visual_ref, base32_ref, base32hex_nopad_ref, base32hex_ref,
    base64_mime_permissive_ref, base64_mime_ref, base64_nopad_ref, base64_ref, base64url_nopad_ref,
    base64url_ref, hexlower_permissive_ref, hexlower_ref, hexupper_permissive_ref, hexupper_ref,
};
use crate::encoding::EncodingRef;

// Passes each number, with the name and the function that returns the encoding, to another macro
// after its own argument.
macro_rules! with_predefined {
    ($to:ident $(, $argument:expr)?) => {
        $to! {
            $($argument;)?
            0 "HEXLOWER" => hexlower_ref,
            1 "HEXLOWER_PERMISSIVE" => hexlower_permissive_ref,
            2 "HEXUPPER" => hexupper_ref,
            3 "HEXUPPER_PERMISSIVE" => hexupper_permissive_ref,
            4 "BASE32" => base32_ref,
            5 "BASE32_NOPAD" => base32_nopad_ref,
            6 "BASE32_NOPAD_NOCASE" => base32_nopad_nocase_ref,
            7 "BASE32_NOPAD_VISUAL" => base32_nopad_visual_ref,
            8 "BASE32HEX" => base32hex_ref,
            9 "BASE32HEX_NOPAD" => base32hex_nopad_ref,
            10 "BASE32_DNSSEC" => base32_dnssec_ref,
            11 "BASE32_DNSCURVE" => base32_dnscurve_ref,
            12 "BASE64" => base64_ref,
            13 "BASE64_NOPAD" => base64_nopad_ref,
            14 "BASE64_MIME" => base64_mime_ref,
            15 "BASE64_MIME_PERMISSIVE" => base64_mime_permissive_ref,
            16 "BASE64URL" => base64url_ref,
            17 "BASE64URL_NOPAD" => base64url_nopad_ref,
        }
    };
}

// The encoding of a number.
macro_rules! encoding_at {
    ($number:expr; $($at:literal $word:literal => $encoding:ident,)*) => {
        match $number {
            $($at => Some($encoding()),)*
            _ => None,
        }
    };
}

// The name of a number.
macro_rules! name_at {
    ($number:expr; $($at:literal $word:literal => $encoding:ident,)*) => {
        match $number {
            $($at => Some($word),)*
            _ => None,
        }
    };
}

// The number of a name.
macro_rules! number_at {
    ($name:expr; $($at:literal $word:literal => $encoding:ident,)*) => {
        match $name {
            $($word => Some($at),)*
            _ => None,
        }
    };
}

// The names as one text, each followed by LF.
macro_rules! list {
    ($($at:literal $word:literal => $encoding:ident,)*) => {
        concat!($($word, "\n",)*)
    };
}

/// Returns the predefined encoding with the given name, such as `BASE64_MIME`, or `None` if there
/// is none.
///
/// Names are in upper case.
pub fn predefined(name: &str) -> Option<EncodingRef<'static>>
    ensures known { IfSome result (IsNamed name.now) }
    ensures unknown { (result ≡ None) ↔ (fields_named name.now ≡ None) }
{
    match predefined_number(name) {
        Some(number) => predefined_numbered(number),
        None => None,
    }
}

/// Returns the predefined encoding with the given number, from 0 to 17, or `None` for any other
/// number.
///
/// The numbers are in the order of `predefined_names`.
pub fn predefined_numbered(number: u32) -> Option<EncodingRef<'static>>
    ensures known { IfSome result (IsNumbered number) }
    ensures unknown { (result ≡ None) ↔ (fields_numbered number ≡ None) }
{
    with_predefined!(encoding_at, number)
}

/// Returns the name of the predefined encoding with the given number, or `None` if there is none.
///
/// A name has at most 22 bytes.
pub fn predefined_name(number: u32) -> Option<&'static str>
    ensures known { IfSome result (λ name. name_numbered number ≡ Some name.now) }
    ensures unknown { result ≡ None → name_numbered number ≡ None }
    ensures short { IfSome result (λ name. length name.now ≤ 22) }
{
    with_predefined!(name_at, number)
}

/// Returns the number of the predefined encoding with the given name, or `None` if there is none.
pub fn predefined_number(name: &str) -> Option<u32>
    ensures { result ≡ number_named name.now }
{
    with_predefined!(number_at, name)
}

/// Returns the names of the predefined encodings, each followed by LF.
pub fn predefined_names() -> &'static str
    ensures { result.now ≡ listing }
{
    with_predefined!(list)
}
