//! Keys of a fixed size, faults that follow from the bytes of a text, and pairs of data or texts.

ghost use Rattle.std.specs.Prelude.{◌≡◌, ◌↔◌, ◌≤◌, ◌+◌, ◌%◌, ℕ, [], ◌∷◌, length, None, Some, Ok, Err, IsTrue, is_some, IfOk, IfSome};
ghost use Rattle.std.specs.String.{string_bytes};
ghost use Rattle.data_encoding.specs.Base.{is_ignored, meaning};
ghost use Rattle.data_encoding.specs.Canonical.{AreTwoTexts};
ghost use Rattle.data_encoding.specs.Eighteen.{Builds};
ghost use Rattle.data_encoding.specs.Fault.{fault_of};
ghost use Rattle.data_encoding.specs.Order.{IsBefore, KeepsOrder};
ghost use Rattle.data_encoding.specs.Predefined.{base64_nopad_fields, base64url_nopad_fields, hexlower_fields, hexlower_permissive_fields};
ghost use Rattle.data_encoding.specs.Text.{text_of};
ghost use Rattle.data_encoding.specs.Told.{is_other};
ghost use Rattle.conformance.specs.Texts.{HasFaultOfKind, HasFaultAt, MeansBytes, TellsLength};

use data_encoding::laws::steps::whole_groups;
use data_encoding::laws::{
    canonical, eighteen, fault_stays, fault_told, injective, not_canonical, order, tight,
};
use data_encoding::{
    DECODE_LIMIT, DecodeError, DecodeFault, DecodeKind, ENCODE_LIMIT, Encoding, base32hex_nopad,
    base64_nopad, base64url_nopad, hexlower, hexlower_permissive,
};
use std::alloc::{AllocError, Global};

/// Returns the key of 16 bytes that a token in BASE64URL_NOPAD means, or `None` if it means no such
/// key.
///
/// No other token means the same key.
pub fn key_of(token: &[u8]) -> Option<[u8; 16]>
    ensures text { Builds (λ base. IfSome result (λ key. token.now ≡ text_of base key))
        base64url_nopad_fields }
    ensures some { Builds (λ base. IsTrue (is_some result)
        ↔ MeansBytes base token.now 16) base64url_nopad_fields }
{
    canonical();
    eighteen();
    tight();
    let encoding = base64url_nopad();
    if token.len() != 22 {
        return None;
    }
    let mut key = [0; 16];
    match encoding.decode_mut(token, &mut key) {
        Ok(_) => Some(key),
        Err(_) => None,
    }
}

/// Returns `true` if `byte` is not a symbol.
pub(super) fn is_no_symbol(encoding: &Encoding, byte: u8) -> bool
    ensures { result ≡ is_other encoding.now byte }
{
    encoding.interpret_byte(byte).is_symbol().is_none()
}

/// Returns the index of the first byte that is not a lower-case hexadecimal digit.
///
/// HEXLOWER reports the fault of a text of even length there. If each byte is a digit, the text has
/// no fault.
pub fn first_wrong(text: &[u8]) -> Option<usize>
    requires even { length text.now % 2 ≡ 0 }
    ensures symbol { Builds (λ base. (index : ℕ) → (result ≡ Some index)
        ↔ HasFaultOfKind base text.now index DecodeKind.Symbol) hexlower_fields }
    ensures none { Builds (λ base. result ≡ None → fault_of base text.now ≡ None)
        hexlower_fields }
{
    eighteen();
    fault_told();
    let encoding = hexlower();
    text.iter().position(|byte| is_no_symbol(&encoding, *byte))
}

/// Returns `true` if two keys are equal. Only their texts are compared.
///
/// The keys may differ in length: the texts then differ, too.
pub fn is_same_key(
    alloc: Global,
    encoding: &Encoding,
    one: &[u8],
    other: &[u8],
) -> Result<bool, AllocError>
    requires limit { length one.now ≤ ENCODE_LIMIT }
    requires other_limit { length other.now ≤ ENCODE_LIMIT }
    ensures { IfOk result (λ same. IsTrue same ↔ (one.now ≡ other.now)) }
{
    let _width = encoding.bit_width();
    injective();
    let text = encoding.encode(alloc, one)?;
    let other_text = encoding.encode(alloc, other)?;
    Ok(text.as_bytes() == other_text.as_bytes())
}

/// Returns `true` if a text of hexadecimal digits, in either case, has the length of the text of a
/// digest of 20 bytes.
///
/// If the text means data, the data then has 20 bytes.
pub fn is_digest(text: &[u8]) -> bool
    ensures { Builds (λ base. TellsLength base text.now 20 result) hexlower_permissive_fields }
{
    eighteen();
    tight();
    text.len() == hexlower_permissive().encode_len(20)
}

/// Returns the distance from a prefix of whole groups to the fault of a text, if the prefix means
/// data.
///
/// Returns `None` if the text is valid, or the prefix has a fault.
pub fn place_after(alloc: Global, text: &[u8], len: usize) -> Result<Option<usize>, AllocError>
    requires limit { length text.now ≤ DECODE_LIMIT }
    requires within { len ≤ length text.now }
    requires whole { len % 4 ≡ 0 }
    ensures { Builds (λ base. IfOk result (λ found. IfSome found
        (λ more. HasFaultAt base text.now (len + more)))) base64_nopad_fields }
{
    eighteen();
    fault_stays();
    whole_groups();
    let encoding = base64_nopad();
    match encoding.decode(alloc, &text[..len]) {
        Ok(_) => match encoding.decode(alloc, text) {
            Ok(_) => Ok(None),
            Err(DecodeFault::Error(error)) => Ok(Some(error.position - len)),
            Err(DecodeFault::OutOfMemory) => Err(AllocError),
        },
        Err(DecodeFault::Error(_)) => Ok(None),
        Err(DecodeFault::OutOfMemory) => Err(AllocError),
    }
}

/// Returns the texts of two pieces of data in BASE32HEX_NOPAD. They are in the order of the data.
pub fn texts_in_order(
    alloc: Global,
    one: &[u8],
    other: &[u8],
) -> Result<(String, String), AllocError>
    requires limit { length one.now ≤ ENCODE_LIMIT }
    requires other_limit { length other.now ≤ ENCODE_LIMIT }
    requires order { IsBefore one.now other.now }
    ensures { IfOk result (λ texts. IsBefore (string_bytes texts.0) (string_bytes texts.1)) }
{
    eighteen();
    order();
    let encoding = base32hex_nopad();
    let text = encoding.encode(alloc, one)?;
    let other_text = encoding.encode(alloc, other)?;
    Ok((text, other_text))
}

/// Returns `true` if data may be sorted by its texts in BASE64_NOPAD. It may not.
///
/// `0` has a greater value than `z`, but comes before it.
pub fn is_sorted_by_texts() -> bool
    ensures { Builds (λ base. IsTrue result ↔ KeepsOrder base) base64_nopad_fields }
{
    eighteen();
    order();
    false
}

/// Returns `true` if `byte` is ignored. A text of this one byte then means the same as the empty
/// text.
pub fn is_empty_text(encoding: &Encoding, byte: u8) -> bool
    ensures value { result ≡ is_ignored (meaning encoding.now byte) }
    ensures texts { IsTrue result → AreTwoTexts encoding.now [] (byte ∷ []) [] }
{
    encoding.bit_width();
    not_canonical();
    encoding.interpret_byte(byte).is_ignored()
}
