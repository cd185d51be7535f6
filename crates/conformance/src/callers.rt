//! Small functions of a user, each proved from the contracts of its calls.

ghost use Rattle.std.specs.Prelude.{◌≡◌, ◌⊎◌, ◌↔◌, ◌<◌, ◌≤◌, ◌++◌, length, is_some, is_ok, Err, Ok, IsTrue, IfErr, IfOk, IfSome, OnErr, OnOk};
ghost use Rattle.std.specs.String.{string_bytes};
ghost use Rattle.data_encoding.specs.Canonical.{IsCanonical};
ghost use Rattle.data_encoding.specs.Fault.{IsRefusal};
ghost use Rattle.data_encoding.specs.Fields.{base_of};
ghost use Rattle.data_encoding.specs.Lengths.{length_fault};
ghost use Rattle.data_encoding.specs.Specification.{specified};
ghost use Rattle.data_encoding.specs.Text.{text_of};
ghost use Rattle.conformance.specs.Results.{returned_fault, IsTooLong};
ghost use Rattle.conformance.specs.Texts.{MeansSome};

pub mod rewritten;

use data_encoding::laws::{canonical, one_meaning, round_trip, specification_again};
use data_encoding::{
    DECODE_LIMIT, DecodeError, DecodeFault, DecodeKind, ENCODE_LIMIT, Encoding, Specification,
    SpecificationError, hexlower,
};
use std::alloc::{AllocError, Global};

pub mod buffers;
pub mod kept;
pub mod keys;
pub mod marked;
pub mod names;
pub mod referenced;
pub mod runs;
pub mod stored;
pub mod streamed;

/// The reason why data was not returned.
#[derive(Debug, Drop)]
pub enum Trouble {
    /// No encoding is built from the specification.
    Refused(SpecificationError),

    /// The data, or its text, is too long for one call.
    TooLong,

    /// The text has a fault.
    Fault(DecodeError),

    /// Memory ran out.
    OutOfMemory,
}

impl From<AllocError> for Trouble {
    ghost use Rattle.std.specs.Prelude.{◌≡◌};
    ghost use Rattle.conformance.specs.declared.callers.Trouble.TheVariants.{OutOfMemory};

    ghost from_gives = { λ _ trouble. trouble ≡ OutOfMemory };

    fn from(_error: AllocError) -> Trouble {
        Trouble::OutOfMemory
    }
}

/// Returns `input` again: it is encoded, and its text decoded.
pub fn there_and_back(
    alloc: Global,
    specification: &Specification,
    input: &[u8],
) -> Result<Vec<u8>, Trouble>
    ensures same { IfOk result (λ bytes. bytes.items ≡ input.now) }
    ensures no_fault { (error : DecodeError) → result ≡ Err (Trouble.Fault error) → ⊥ }
    ensures too_long { result ≡ Err Trouble.TooLong
        → IsTooLong (specified specification.now) input.now }
{
    let encoding = match specification.encoding() {
        Ok(encoding) => encoding,
        Err(error) => return Err(Trouble::Refused(error)),
    };
    if input.len() > ENCODE_LIMIT {
        return Err(Trouble::TooLong);
    }
    let _width = encoding.bit_width();
    round_trip();
    one_meaning();
    let text = encoding.encode(alloc, input)?;
    if text.len() > DECODE_LIMIT {
        return Err(Trouble::TooLong);
    }
    match encoding.decode(alloc, text.as_bytes()) {
        Ok(bytes) => Ok(bytes),
        Err(DecodeFault::Error(error)) => Err(Trouble::Fault(error)),
        Err(DecodeFault::OutOfMemory) => Err(Trouble::OutOfMemory),
    }
}

/// Decodes a text with a byte that is not a symbol, at position 1.
pub fn no_symbol(alloc: Global) -> Result<Vec<u8>, DecodeFault>
    ensures { (result ≡ Err (returned_fault 1 DecodeKind.Symbol))
        ⊎ (result ≡ Err DecodeFault.OutOfMemory) }
{
    hexlower().decode(alloc, b"4G")
}

/// Decodes a text of odd length. Its fault is found before memory is allocated.
pub fn odd_length(alloc: Global) -> Result<Vec<u8>, DecodeFault>
    ensures { result ≡ Err (returned_fault 2 DecodeKind.Length) }
{
    hexlower().decode(alloc, b"4G4")
}

/// Returns the symbols of the encoding that `specification` describes, or `None` if it is refused.
///
/// They are the symbols of the specification.
pub fn symbols_of(
    alloc: Global,
    specification: &Specification,
) -> Result<Option<String>, AllocError>
    ensures same { IfOk result (λ found. IfSome found
        (λ symbols. string_bytes symbols ≡ string_bytes specification.now.symbols)) }
    ensures some { IfOk result
        (λ found. is_some found ≡ is_ok (base_of (specified specification.now))) }
{
    match specification.encoding() {
        Ok(encoding) => Ok(Some(encoding.specification(alloc)?.symbols)),
        Err(_) => Ok(None),
    }
}

/// Returns `true` if `decode_len` and `decode` return the same fault for the length of `text`.
///
/// This is so if and only if the length has a fault.
pub fn is_refused_alike(alloc: Global, encoding: &Encoding, text: &[u8]) -> bool
    requires limit { length text.now ≤ DECODE_LIMIT }
    ensures { result ≡ is_some (length_fault encoding.now (length text.now)) }
{
    match encoding.decode_len(text.len()) {
        Ok(_) => false,
        Err(error) => match encoding.decode(alloc, text) {
            Ok(_) => false,
            Err(DecodeFault::Error(other)) => other == error,
            Err(DecodeFault::OutOfMemory) => false,
        },
    }
}

/// Returns `true` if the encoding built from the specification of `encoding` is equal to `other`.
///
/// This is so if and only if the two encodings are equal.
pub fn is_built_again(
    alloc: Global,
    encoding: &Encoding,
    other: &Encoding,
) -> Result<bool, AllocError>
    ensures { IfOk result (λ is. IsTrue is ↔ (encoding.now ≡ other.now)) }
{
    let _width = encoding.bit_width();
    specification_again();
    let specification = encoding.specification(alloc)?;
    match specification.encoding() {
        Ok(built) => Ok(built == *other),
        Err(_) => Ok(false),
    }
}

/// Returns `true` if an encoding is canonical and two texts decode to the same bytes.
///
/// This is so if and only if the encoding is canonical and the texts are equal. Returns an error if
/// one of them cannot be decoded.
pub fn is_one_text(
    alloc: Global,
    encoding: &Encoding,
    text: &[u8],
    other: &[u8],
) -> Result<bool, DecodeFault>
    requires limit { length text.now ≤ DECODE_LIMIT }
    requires other_limit { length other.now ≤ DECODE_LIMIT }
    ensures same { IfOk result
        (λ same. IsTrue same ↔ (IsCanonical encoding.now × (text.now ≡ other.now))) }
    ensures fault { IfErr result (λ fault. IsRefusal encoding.now text.now fault
        ⊎ IsRefusal encoding.now other.now fault) }
{
    let _width = encoding.bit_width();
    one_meaning();
    if !encoding.is_canonical() {
        return Ok(false);
    }
    let bytes = encoding.decode(alloc, text)?;
    let others = encoding.decode(alloc, other)?;
    Ok(bytes.as_slice() == others.as_slice())
}

/// Returns the data of a text that may be compared in place of its data, such as a token or a name.
///
/// No other text has the same data. Returns `None` if the encoding is not canonical, or the text
/// means no data.
pub fn data_of_token(
    alloc: Global,
    encoding: &Encoding,
    token: &[u8],
) -> Result<Option<Vec<u8>>, AllocError>
    requires limit { length token.now ≤ DECODE_LIMIT }
    ensures some { IfOk result (λ found. IsTrue (is_some found)
        ↔ (IsCanonical encoding.now × MeansSome encoding.now token.now)) }
    ensures only { IfOk result (λ found. IfSome found
        (λ bytes. token.now ≡ text_of encoding.now bytes.items)) }
    ensures refusal { OnErr result (IsRefusal encoding.now token.now DecodeFault.OutOfMemory) }
{
    let _width = encoding.bit_width();
    canonical();
    if !encoding.is_canonical() {
        return Ok(None);
    }
    match encoding.decode(alloc, token) {
        Ok(bytes) => Ok(Some(bytes)),
        Err(DecodeFault::Error(_)) => Ok(None),
        Err(DecodeFault::OutOfMemory) => Err(AllocError),
    }
}

/// Appends the text of data that comes in two pieces.
///
/// If memory runs out, the text of some blocks may have been appended.
pub fn encoded_in_two(
    encoding: &Encoding,
    one: &[u8],
    other: &[u8],
    output: &mut String,
) -> Result<(), AllocError>
    requires one { length one.now ≤ ENCODE_LIMIT }
    requires other { length other.now ≤ ENCODE_LIMIT }
    ensures { OnOk result (string_bytes output.new
        ≡ string_bytes output.old ++ text_of encoding.now (one.now ++ other.now)) }
{
    let mut encoder = encoding.new_encoder(output);
    if encoder.append(one).is_err() || encoder.append(other).is_err() {
        encoder.abandon();
        return Err(AllocError);
    }
    match encoder.finalize() {
        Ok(()) => Ok(()),
        Err(encoder) => {
            encoder.abandon();
            Err(AllocError)
        }
    }
}
