//! Tokens, names and key files, in encodings with laws that need no test at run time.

ghost use Rattle.std.specs.Prelude.{◌≡◌, ◌↔◌, ◌≤◌, ◌==◌, length, take, reverse, take_while, count_by, not, is_some, Some, Ok, Err, IsTrue, IfErr, IfOk, IfSome};
ghost use Rattle.std.specs.String.{string_bytes};
ghost use Rattle.data_encoding.specs.Eighteen.{Builds};
ghost use Rattle.data_encoding.specs.Grammar.{Means};
ghost use Rattle.data_encoding.specs.Predefined.{base32hex_nopad_fields, base64_mime_fields, base64url_nopad_fields};
ghost use Rattle.data_encoding.specs.Text.{text_of};
ghost use Rattle.conformance.specs.Results.{Explains};
ghost use Rattle.conformance.specs.Texts.{MeansSome, TellsLength, TellsOrder};

use data_encoding::laws::{canonical, injective, order, tight};
use data_encoding::{
    DECODE_LIMIT, DecodeFault, DecodeKind, ENCODE_LIMIT, base32hex_nopad, base64_mime,
    base64url_nopad,
};
use std::alloc::{AllocError, Global};

/// Returns the token of the data `input`, in BASE64URL_NOPAD.
pub fn token_of(alloc: Global, input: &[u8]) -> Result<String, AllocError>
    requires limit { length input.now ≤ ENCODE_LIMIT }
    ensures { Builds (λ base. IfOk result
        (λ token. string_bytes token ≡ text_of base input.now)) base64url_nopad_fields }
{
    base64url_nopad().encode(alloc, input)
}

/// Returns the data of a token, or `None` if it means none.
///
/// No other token has the same data: `laws::canonical` states this for BASE64URL_NOPAD, so nothing
/// is tested.
pub fn decoded_token(alloc: Global, token: &[u8]) -> Result<Option<Vec<u8>>, AllocError>
    requires limit { length token.now ≤ DECODE_LIMIT }
    ensures some { Builds (λ base. IfOk result (λ found. IsTrue (is_some found)
        ↔ MeansSome base token.now)) base64url_nopad_fields }
    ensures only { Builds (λ base. IfOk result (λ found. IfSome found
        (λ bytes. token.now ≡ text_of base bytes.items))) base64url_nopad_fields }
{
    canonical();
    match base64url_nopad().decode(alloc, token) {
        Ok(bytes) => Ok(Some(bytes)),
        Err(DecodeFault::Error(_)) => Ok(None),
        Err(DecodeFault::OutOfMemory) => Err(AllocError),
    }
}

/// Returns `true` if a token has the length of the token of 16 bytes.
///
/// If the token means data, the data then has 16 bytes.
pub fn is_key(token: &[u8]) -> bool
    ensures { Builds (λ base. TellsLength base token.now 16 result) base64url_nopad_fields }
{
    canonical();
    injective();
    tight();
    token.len() == base64url_nopad().encode_len(16)
}

/// Returns `true` if the data of one name comes before the data of another, in BASE32HEX_NOPAD.
///
/// The names are compared, and nothing is decoded.
pub fn comes_before(one: &[u8], other: &[u8]) -> bool
    ensures { Builds (λ base. TellsOrder base one.now other.now result) base32hex_nopad_fields }
{
    let _encoding = base32hex_nopad();
    canonical();
    order();
    one < other
}

/// A line and a column of a text, both from 0.
#[derive(Clone, Copy, Debug, PartialEq, Eq)]
pub struct Place {
    /// The number of LF before the position.
    pub line: usize,

    /// The number of bytes between the last of these LF and the position.
    pub column: usize,
}

/// Returns the line and the column of `position` in `text`.
pub fn place_of(text: &[u8], position: usize) -> Place
    requires within { position ≤ length text.now }
    ensures line { result.line ≡ count_by (λ byte. byte == 10) (take position text.now) }
    ensures column { result.column ≡ length
        (take_while (λ byte. not (byte == 10)) (reverse (take position text.now))) }
{
    let before = &text[..position];
    let line = before.iter().filter(|byte| **byte == b'\n').count();
    let column = before
        .iter()
        .rev()
        .take_while(|byte| **byte != b'\n')
        .count();
    Place { line, column }
}

/// The reason why the body of a key file does not mean data.
#[derive(Debug, Drop)]
pub enum BodyFault {
    /// The text has a fault at the given place.
    Text(Place, DecodeKind),

    /// Memory ran out.
    OutOfMemory,
}

/// Returns the data of the body of a key file: lines of base64, of any length.
///
/// A fault is reported with its line and its column.
pub fn data_of_body(alloc: Global, body: &[u8]) -> Result<Vec<u8>, BodyFault>
    requires limit { length body.now ≤ DECODE_LIMIT }
    ensures means { Builds (λ base. IfOk result (λ bytes. Means base body.now bytes.items))
        base64_mime_fields }
    ensures fault { Builds (λ base. IfErr result (λ fault. Explains base body.now fault))
        base64_mime_fields }
{
    match base64_mime().decode(alloc, body) {
        Ok(bytes) => Ok(bytes),
        Err(DecodeFault::Error(error)) => {
            Err(BodyFault::Text(place_of(body, error.position), error.kind))
        }
        Err(DecodeFault::OutOfMemory) => Err(BodyFault::OutOfMemory),
    }
}
