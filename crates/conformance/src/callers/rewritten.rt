//! Texts that are rewritten or compared, and mean the same.

ghost use Rattle.std.specs.Prelude.{◌≡◌, ◌≢◌, ◌↔◌, ◌<◌, ◌&&◌, All, ℕ, List, Ok, is_some, IsTrue, IfOk, IfSome};
ghost use Rattle.data_encoding.specs.Base.{is_ignored, meaning};
ghost use Rattle.data_encoding.specs.Eighteen.{Builds};
ghost use Rattle.data_encoding.specs.Fault.{fault_of};
ghost use Rattle.data_encoding.specs.Grammar.{Means};
ghost use Rattle.data_encoding.specs.Order.{IsBefore};
ghost use Rattle.data_encoding.specs.Predefined.{base32_dnssec_fields};
ghost use Rattle.data_encoding.specs.SameMeaning.{exchanged, kept_bytes, own_form};
ghost use Rattle.data_encoding.specs.Text.{text_of};
ghost use Rattle.conformance.specs.Texts.{lines_of, MeanAlike, OfBase64, TellsOrder, TellsSame};

use data_encoding::laws::{
    eighteen, one_meaning, order, same_but_symbols, same_kept_bytes, translated, unpadded,
};
use data_encoding::{Encoding, base32_dnssec};
use std::alloc::{AllocError, Global};

/// Returns the bytes of a text that are not ignored.
fn kept(alloc: Global, encoding: &Encoding, text: &[u8]) -> Result<Vec<u8>, AllocError>
    ensures { IfOk result (λ bytes. bytes.items ≡ kept_bytes encoding.now text.now) }
{
    let mut bytes = Vec::new(alloc);
    for byte in text {
        if !encoding.interpret_byte(*byte).is_ignored() {
            bytes.push(*byte)?;
        }
    }
    Ok(bytes)
}

/// Returns the bytes in lines of `line` bytes, each followed by CR LF. The last line may be
/// shorter.
fn in_lines(alloc: Global, bytes: &[u8], line: usize) -> Result<Vec<u8>, AllocError>
    requires some { 0 < line }
    ensures { IfOk result (λ output. output.items ≡ lines_of line bytes.now) }
{
    let mut output = Vec::new(alloc);
    for run in bytes.chunks(line) {
        output.extend_from_slice(run)?;
        output.extend_from_slice(b"\r\n")?;
    }
    Ok(output)
}

/// Returns a text in lines of `line` characters, each followed by CR LF, for example to wrap a MIME
/// body again.
///
/// The new text means the same data. Returns `None` unless the encoding ignores both CR and LF. If
/// `line` is 0, there is one line.
pub fn rewrapped(
    alloc: Global,
    encoding: &Encoding,
    text: &[u8],
    line: usize,
) -> Result<Option<Vec<u8>>, AllocError>
    ensures same { IfOk result (λ found. IfSome found
        (λ output. MeanAlike encoding.now text.now output.items)) }
    ensures lines { IfOk result (λ found. IfSome found (λ made. 0 < line
        → made.items ≡ lines_of line (kept_bytes encoding.now text.now))) }
    ensures some { IfOk result (λ found. is_some found
        ≡ (is_ignored (meaning encoding.now 13) && is_ignored (meaning encoding.now 10))) }
{
    let _width = encoding.bit_width();
    same_kept_bytes();
    if !encoding.interpret_byte(b'\r').is_ignored() {
        return Ok(None);
    }
    if !encoding.interpret_byte(b'\n').is_ignored() {
        return Ok(None);
    }
    let bytes = kept(alloc, encoding, text)?;
    let line = if line == 0 { usize::MAX } else { line };
    Ok(Some(in_lines(alloc, &bytes, line)?))
}

/// Returns the byte of base64url for a byte of base64.
fn url_byte(byte: u8) -> u8
    ensures { OfBase64 (λ base url. result ≡ exchanged base url byte) }
{
    match byte {
        b'+' => b'-',
        b'/' => b'_',
        other => other,
    }
}

/// Changes a text of base64 to base64url, in place.
///
/// The new text means the same data. The text of data becomes the text of the data in base64url. A
/// text without `-` and `_` has the same fault as before.
pub fn to_base64url(text: &mut [u8])
    ensures text { OfBase64 (λ base url. (bytes : List ℕ)
        → text.old ≡ text_of base bytes → text.new ≡ text_of url bytes) }
    ensures means { OfBase64 (λ base url. (bytes : List ℕ)
        → Means base text.old bytes → Means url text.new bytes) }
    ensures fault { OfBase64 (λ base url. All (λ byte. byte ≢ 45 × byte ≢ 95) text.old
        → fault_of base text.old ≡ fault_of url text.new) }
{
    eighteen();
    same_but_symbols();
    for byte in text.iter_mut() {
        *byte = url_byte(*byte);
    }
}

/// Returns `true` if two names are the same in either case, as for hashed names of DNSSEC.
///
/// Names that mean data are the same if and only if they mean the same data.
pub fn is_same_name(one: &[u8], other: &[u8]) -> bool
    ensures { Builds (λ base. TellsSame base one.now other.now result) base32_dnssec_fields }
{
    let encoding = base32_dnssec();
    one_meaning();
    translated();
    if one.len() != other.len() {
        return false;
    }
    for (i, byte) in one.iter().enumerate() {
        if encoding.interpret_byte(*byte) != encoding.interpret_byte(other[i]) {
            return false;
        }
    }
    true
}

/// Returns the byte that a byte of a name of BASE32_DNSSEC is translated to, or the byte itself.
fn lower_byte(byte: u8) -> u8
    ensures { Builds (λ base. result ≡ exchanged base base byte) base32_dnssec_fields }
{
    match byte {
        b'A'..=b'V' => byte + 32,
        other => other,
    }
}

/// Changes a name of BASE32_DNSSEC to lower case, in place.
pub fn to_lower_case(name: &mut [u8])
    ensures { Builds (λ base. name.new ≡ own_form base name.old) base32_dnssec_fields }
{
    for byte in name.iter_mut() {
        *byte = lower_byte(*byte);
    }
}

/// Returns `true` if `one` comes before `other`.
fn is_before(one: &[u8], other: &[u8]) -> bool
    ensures { IsTrue result ↔ IsBefore one.now other.now }
{
    one < other
}

/// Returns `true` if the data of one name comes before the data of another, in either case, as
/// hashed names of DNSSEC are sorted.
///
/// The names are changed to lower case and compared. Nothing is decoded.
pub fn sorts_before(one: &mut [u8], other: &mut [u8]) -> bool
    ensures { Builds (λ base. TellsOrder base one.old other.old result) base32_dnssec_fields }
{
    translated();
    order();
    unpadded();
    to_lower_case(one);
    to_lower_case(other);
    is_before(one, other)
}
