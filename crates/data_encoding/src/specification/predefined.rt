//! The predefined encodings.

// A table of values, given those of the bytes below 128: 128 for invalid, 129 for ignored, and 130
// for padding. The bytes from 128 on are invalid.
macro_rules! values {
    ($($low:literal),*) => {
        [
            $($low,)*
            128, 128, 128, 128, 128, 128, 128, 128, 128, 128, 128, 128, 128, 128, 128, 128,
            128, 128, 128, 128, 128, 128, 128, 128, 128, 128, 128, 128, 128, 128, 128, 128,
            128, 128, 128, 128, 128, 128, 128, 128, 128, 128, 128, 128, 128, 128, 128, 128,
            128, 128, 128, 128, 128, 128, 128, 128, 128, 128, 128, 128, 128, 128, 128, 128,
            128, 128, 128, 128, 128, 128, 128, 128, 128, 128, 128, 128, 128, 128, 128, 128,
            128, 128, 128, 128, 128, 128, 128, 128, 128, 128, 128, 128, 128, 128, 128, 128,
            128, 128, 128, 128, 128, 128, 128, 128, 128, 128, 128, 128, 128, 128, 128, 128,
            128, 128, 128, 128, 128, 128, 128, 128, 128, 128, 128, 128, 128, 128, 128, 128,
        ]
    };
}

mod hexadecimal;
mod named;
mod sixty_four;
mod table_forms;
mod thirty_two;

pub use hexadecimal::{
    hexlower, hexlower_permissive, hexlower_permissive_ref, hexlower_ref, hexupper,
    hexupper_permissive, hexupper_permissive_ref, hexupper_ref,
};
pub use named::{
    predefined, predefined_name, predefined_names, predefined_number, predefined_numbered,
};
pub use sixty_four::{
    base64, base64_mime, base64_mime_permissive, base64_mime_permissive_ref, base64_mime_ref,
    base64_nopad, base64_nopad_ref, base64_ref, base64url, base64url_nopad, base64url_nopad_ref,
    base64url_ref,
};
pub use thirty_two::{
    base32, base32_dnscurve, base32_dnscurve_ref, base32_dnssec, base32_dnssec_ref, base32_nopad,
    base32_nopad_nocase, base32_nopad_nocase_ref, base32_nopad_ref, base32_nopad_visual,
    base32_nopad_visual_ref, base32_ref, base32hex, base32hex_nopad, base32hex_nopad_ref,
    base32hex_ref,
};
