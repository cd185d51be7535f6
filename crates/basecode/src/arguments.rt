//! The arguments of the command line, as text.

ghost use Rattle.std.specs.Prelude.{◌≡◌, string_bytes, IfOk};
ghost use Rattle.std.specs.Str.{IsUtf8};

use std::alloc::{AllocError, Global};
use std::env::{Env, FillError};
use std::fmt::Write;

// The size of the first buffer for an argument.
const FIRST_LEN: usize = 256;

/// Returns the arguments of the command line, without the name of the program.
///
/// In an argument that is not UTF-8, each byte outside a character is written as `\x` and its two
/// hexadecimal digits. No verb and no name has a backslash. Returns an error only if memory
/// runs out.
pub fn arguments_of(rt: &HostRuntime) -> Result<Vec<String>, AllocError> {
    let mut arguments = Vec::new(rt.alloc());
    for index in 1..usize::MAX {
        let Some(argument) = argument_at(rt, index)? else {
            break;
        };
        arguments.push(shown(rt.alloc(), &argument)?)?;
    }
    Ok(arguments)
}

/// Returns the bytes of the argument `index`, or `None` after the last argument.
fn argument_at(rt: &HostRuntime, index: usize) -> Result<Option<Vec<u8>>, AllocError> {
    let mut bytes = vec![in rt.alloc(); 0; FIRST_LEN]?;
    for _ in 0..usize::BITS {
        match rt.arg(index, bytes.as_mut_slice()) {
            Ok(len) => {
                bytes.truncate(len);
                return Ok(Some(bytes));
            }
            Err(FillError::NotPresent) => return Ok(None),
            Err(FillError::TooLong) => bytes.resize(bytes.len().saturating_add(bytes.len()), 0)?,
        }
    }
    Err(AllocError)
}

/// Returns the bytes of `argument` as text if they are UTF-8, and otherwise escapes them.
fn shown(alloc: Global, argument: &[u8]) -> Result<String, AllocError>
    ensures { IfOk result (λ text. IsUtf8 argument.now → string_bytes text ≡ argument.now) }
{
    match str::from_utf8(argument) {
        Ok(text) => String::from_str(alloc, text),
        Err(_) => escaped(alloc, argument),
    }
}

/// Returns `argument` as text. Each byte that is not UTF-8 becomes `\x` and its two hexadecimal
/// digits.
fn escaped(alloc: Global, argument: &[u8]) -> Result<String, AllocError> {
    let mut text = String::new(alloc);
    for chunk in argument.utf8_chunks() {
        text.push_str(chunk.valid())?;
        for byte in chunk.invalid() {
            write!(text, "\\x{byte:02x}")?;
        }
    }
    Ok(text)
}
