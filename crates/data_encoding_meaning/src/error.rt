//! Faults of texts: their kinds, their positions, and the messages that they print.

ghost use Rattle.std.specs.Prelude.{Some};
ghost use Rattle.data_encoding_meaning.specs.decoding.Printed.{printed_error, printed_fault, printed_kind};

use std::alloc::AllocError;
use std::error::Error;
use std::fmt;

/// The kind of a fault.
#[derive(Clone, Copy, Debug, PartialEq, Eq)]
pub enum DecodeKind {
    /// The length of the text or of a group is invalid.
    Length,

    /// A byte is not a symbol where a symbol is expected.
    Symbol,

    /// The trailing bits of the last symbol are not all zeros.
    Trailing,

    /// The number of padding characters is wrong, or a group follows a padded group although texts
    /// may not be concatenated.
    Padding,
}

/// A fault of a text: its kind and its position.
#[derive(Clone, Copy, Debug, PartialEq, Eq)]
pub struct DecodeError {
    /// The index of the faulty byte in the text, from 0. For an invalid length in an encoding that
    /// ignores no byte: the longest valid length below it.
    pub position: usize,

    /// The kind of the fault.
    pub kind: DecodeKind,
}

/// A fault of a group: its kind, and the index of the faulty byte in the group.
#[derive(Clone, Copy, Drop)]
pub struct GroupFault {
    /// The index of the faulty byte in the group, from 0.
    pub index: usize,

    /// The kind of the fault.
    pub kind: DecodeKind,
}

/// The progress of a decoding that stopped at a fault.
#[derive(Clone, Copy, Debug, PartialEq, Eq)]
pub struct DecodePartial {
    /// The number of bytes of the text that were read. They mean the bytes that were written.
    pub read: usize,

    /// The number of bytes that were written to the output.
    pub written: usize,

    /// The fault of the text.
    pub error: DecodeError,
}

/// The reason why a decoding returned no data.
#[derive(Debug, Drop)]
pub enum DecodeFault {
    /// The text has a fault.
    Error(DecodeError),

    /// The memory for the data could not be allocated.
    OutOfMemory,
}

impl fmt::Display for DecodeKind {
    ghost output = { λ kind. Some (printed_kind kind) };

    fn fmt<W: fmt::Write>(&self, f: &mut fmt::Formatter<W>) -> fmt::Result {
        match self {
            DecodeKind::Length => f.write_str("invalid length"),
            DecodeKind::Symbol => f.write_str("invalid symbol"),
            DecodeKind::Trailing => f.write_str("non-zero trailing bits"),
            DecodeKind::Padding => f.write_str("invalid padding length"),
        }
    }
}

impl fmt::Display for DecodeError {
    ghost output = { λ error. Some (printed_error error) };

    fn fmt<W: fmt::Write>(&self, f: &mut fmt::Formatter<W>) -> fmt::Result {
        let kind = self.kind;
        let position = self.position;
        write!(f, "{kind} at {position}")
    }
}

impl fmt::Display for DecodeFault {
    ghost output = { λ fault. Some (printed_fault fault) };

    fn fmt<W: fmt::Write>(&self, f: &mut fmt::Formatter<W>) -> fmt::Result {
        match self {
            DecodeFault::Error(error) => write!(f, "{error}"),
            DecodeFault::OutOfMemory => f.write_str("out of memory"),
        }
    }
}

impl Error for DecodeError {}

impl Error for DecodeFault {}

impl From<DecodeError> for DecodeFault {
    ghost use Rattle.std.specs.Prelude.{◌≡◌};
    ghost use Rattle.data_encoding_meaning.specs.declared.error.DecodeFault.TheVariants.{Error};

    ghost from_gives = { λ error fault. fault ≡ Error error };

    fn from(error: DecodeError) -> DecodeFault {
        DecodeFault::Error(error)
    }
}

impl From<AllocError> for DecodeFault {
    ghost use Rattle.std.specs.Prelude.{◌≡◌};
    ghost use Rattle.data_encoding_meaning.specs.declared.error.DecodeFault.TheVariants.{OutOfMemory};

    ghost from_gives = { λ _ fault. fault ≡ OutOfMemory };

    fn from(_error: AllocError) -> DecodeFault {
        DecodeFault::OutOfMemory
    }
}
