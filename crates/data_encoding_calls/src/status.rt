//! The statuses that calls return: a number for each possible outcome.

ghost use Rattle.std.specs.Prelude.{◌≡◌};
ghost use Rattle.data_encoding_calls.specs.Status.{detail_of_refusal, status_of_kind, status_of_refusal};

use data_encoding::{DecodeKind, Refusal};

/// The call succeeded.
pub const OK: u32 = 0;

/// No encoding has the given number or name.
pub const UNKNOWN_ENCODING: u32 = 1;

/// A pointer that must not be null is null.
pub(crate) const NULL_POINTER: u32 = 2;

/// The data or the text is longer than the limit of a call.
pub(crate) const TOO_LONG: u32 = 3;

/// The output is too short.
pub(crate) const SHORT_BUFFER: u32 = 4;

/// The bytes are not a layout.
pub(crate) const NO_ENCODING: u32 = 18;

/// The numbers are not a state of a decoder of the encoding.
pub(crate) const NO_DECODER: u32 = 19;

/// The numbers are not a state of an encoder of the encoding.
pub(crate) const NO_ENCODER: u32 = 20;

/// Returns the status of a text with a fault of the given kind.
pub(crate) fn status_of_kind(kind: DecodeKind) -> u32
    ensures { result ≡ status_of_kind kind }
{
    match kind {
        DecodeKind::Length => 6,
        DecodeKind::Symbol => 7,
        DecodeKind::Trailing => 8,
        DecodeKind::Padding => 9,
    }
}

/// Returns the status of a refused specification.
pub(crate) fn status_of_refusal(refusal: Refusal) -> u32
    ensures { result ≡ status_of_refusal refusal }
{
    match refusal {
        Refusal::BadSize => 10,
        Refusal::NotAscii => 11,
        Refusal::Duplicate(_) => 12,
        Refusal::ExtraPadding => 13,
        Refusal::WrapLength => 14,
        Refusal::WrapWidth(_) => 15,
        Refusal::FromTo => 16,
        Refusal::Undefined(_) => 17,
    }
}

/// Returns the byte or the number that a refusal names, or 0.
pub(crate) fn detail_of_refusal(refusal: Refusal) -> usize
    ensures { result ≡ detail_of_refusal refusal }
{
    match refusal {
        Refusal::Duplicate(byte) => byte as usize,
        Refusal::WrapWidth(count) => count as usize,
        Refusal::Undefined(byte) => byte as usize,
        _ => 0,
    }
}
