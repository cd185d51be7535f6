//! The faults of streams, and the messages that they print.

ghost use Rattle.std.specs.Prelude.{Some};
ghost use Rattle.encoding_stream.specs.Printed.{printed_stream_fault};

use data_encoding::DecodeError;
use std::error::Error;
use std::fmt;

/// The reason why a stream failed.
#[derive(Clone, Copy, Debug, PartialEq, Eq)]
pub enum StreamFault {
    /// A read failed.
    Read,

    /// A write or a flush failed.
    Write,

    /// The text that was read has a fault.
    Decode(DecodeError),

    /// The input is longer than the limit of `encode_stream` or `decode_stream`.
    TooLong,
}

impl fmt::Display for StreamFault {
    ghost output = { λ fault. Some (printed_stream_fault fault) };

    fn fmt<W: fmt::Write>(&self, f: &mut fmt::Formatter<W>) -> fmt::Result {
        match self {
            StreamFault::Read => f.write_str("read failed"),
            StreamFault::Write => f.write_str("write failed"),
            StreamFault::Decode(error) => write!(f, "{error}"),
            StreamFault::TooLong => f.write_str("input too long"),
        }
    }
}

impl Error for StreamFault {}
