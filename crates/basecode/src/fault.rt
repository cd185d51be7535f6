//! Faults, the lines that are printed for them, and the exit statuses.

ghost use Rattle.std.specs.Prelude.{◌≡◌, IfSome, OnOk, Some};
ghost use Rattle.std.specs.Io.KnownBytes.{Appends};
ghost use Rattle.basecode.specs.Faults.{line_of, printed_word_fault, status_of};

use arrayvec::ArrayString;
use encoding_stream::StreamFault;
use std::fmt::Write as _;
use std::io::Write;
use std::{fmt, io};

// The greatest length of a line that is written in one call. A pipe takes it without mixing it with
// other lines.
const LINE_LIMIT: usize = 4096;

/// The fault of the arguments of a command line.
#[derive(Clone, Copy)]
pub enum WordFault<'a> {
    /// Their number is wrong, or the first is not a verb.
    Usage,

    /// No encoding has the given name.
    UnknownName(&'a str),
}

impl fmt::Display for WordFault<'_> {
    ghost output = { λ fault. Some (printed_word_fault fault) };

    fn fmt<W: fmt::Write>(&self, f: &mut fmt::Formatter<W>) -> fmt::Result {
        match self {
            WordFault::Usage => f.write_str(
                "usage: basecode list OR encode NAME OR decode NAME OR canonical NAME",
            ),
            WordFault::UnknownName(name) => write!(f, "unknown encoding: {name}"),
        }
    }
}

/// Returns the exit status of a conversion that ends with `fault`.
///
/// It is 1 if the text has a fault or the input is too long, and 3 if a read, a write or a flush
/// failed.
pub fn exit_status(fault: StreamFault) -> u8
    ensures { result ≡ status_of fault }
{
    match fault {
        StreamFault::Decode(_) | StreamFault::TooLong => 1,
        StreamFault::Read | StreamFault::Write => 3,
    }
}

/// Prints a line about `fault` to `faults`.
///
/// A line of at most 4,096 bytes is printed in one write, and a longer line in several. Nothing is
/// allocated. If an error is returned, a prefix of the line may have been printed.
pub fn print_fault<F: Write, D: fmt::Display>(faults: &mut F, fault: &D) -> io::Result<()>
    ensures { OnOk result (IfSome (D.output fault.now) (λ text.
        Appends (F.contents faults.old) (F.contents faults.new) (line_of text))) }
{
    let mut line = ArrayString::<LINE_LIMIT>::new();
    match writeln!(line, "basecode: {fault}") {
        Ok(()) => faults.write_all(line.as_str().as_bytes()),
        Err(_) => writeln!(faults, "basecode: {fault}"),
    }
}
