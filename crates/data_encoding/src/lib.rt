//! Base encodings with proofs: data as text over an alphabet of symbols, and back.
//!
//! The definitions in `specs/` state the meaning of an encoding: `text_of` is the text of data,
//! `Means` relates a text to the data that it means, and `fault_of` is the fault of a text that
//! means no data. The contracts of the public calls refer to them.
#![tactic(auto)]

mod decode;
mod encode;
mod encoder;
pub mod encoding;
pub mod error;
mod memory;
pub mod specification;
mod write;

pub use data_encoding_meaning::laws;
pub use decode::DECODE_LIMIT;
pub use encode::ENCODE_LIMIT;
pub use encode::kept_data::{DueLen, KeptData};
pub use encoder::{Encoder, Encodes};
pub use encoding::lent_encoding::LentEncoding;
pub use encoding::plain_encoding::PlainEncoding;
pub use encoding::{BitOrder, Character, Encoding, EncodingRef};
pub use error::{DecodeError, DecodeFault, DecodeKind, DecodePartial};
pub use specification as spec;
pub use specification::borrowed_specification::SpecificationParts;
pub use specification::meanings::Refusal;
pub use specification::predefined::{
    base32, base32_dnscurve, base32_dnscurve_ref, base32_dnssec, base32_dnssec_ref, base32_nopad,
    base32_nopad_nocase, base32_nopad_nocase_ref, base32_nopad_ref, base32_nopad_visual,
    base32_nopad_visual_ref, base32_ref, base32hex, base32hex_nopad, base32hex_nopad_ref,
    base32hex_ref, base64, base64_mime, base64_mime_permissive, base64_mime_permissive_ref,
    base64_mime_ref, base64_nopad, base64_nopad_ref, base64_ref, base64url, base64url_nopad,
    base64url_nopad_ref, base64url_ref, hexlower, hexlower_permissive, hexlower_permissive_ref,
    hexlower_ref, hexupper, hexupper_permissive, hexupper_permissive_ref, hexupper_ref, predefined,
    predefined_name, predefined_names, predefined_number, predefined_numbered,
};
pub use specification::specification_bytes::SpecificationBytes;
pub use specification::{Specification, SpecificationError, Translate, Wrap};
pub use write::Display;
