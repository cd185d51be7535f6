//! Small callers, each proved from the clauses of its calls. They show the conclusions that users
//! can draw.

ghost use Rattle.std.specs.Prelude.{◌≡◌, ◌≢◌, ◌++◌, ◌≤◌, ◌↔◌, [], ◌∷◌, codes, string_bytes, IfOk, IfSome, IsSome, IsTrue, None, OnOk, Some, false};
ghost use Rattle.std.specs.Io.KnownBytes.{Keeps};
ghost use Rattle.data_encoding.specs.Base.{Base};
ghost use Rattle.data_encoding.specs.Canonical.{IsCanonical};
ghost use Rattle.data_encoding.specs.Named.{IsNamed, fields_named, listing};
ghost use Rattle.basecode.specs.Arguments.{ask_of, texts};
ghost use Rattle.basecode.specs.Run.{Begun, Done, Refused};
ghost use Rattle.encoding_stream.specs.Watch.{from_to, has_failed, inner_of};

use crate::command::request_named;
use crate::run::run;
use encoding_stream::Watch;
use std::alloc::{AllocError, Global};
use std::io::Read;

/// The result of a run over bytes in memory: its exit status, the rest of the input, and the
/// output.
#[derive(Drop)]
struct Outcome<'a> {
    status: u8,
    rest: &'a [u8],
    output: Vec<u8>,
}

/// Returns two arguments.
fn two_arguments(alloc: Global, verb: &str, name: &str) -> Result<Vec<String>, AllocError>
    ensures { IfOk result (λ words. texts words.items ≡ verb.now ∷ name.now ∷ []) }
{
    let verb = String::from_str(alloc, verb)?;
    let name = String::from_str(alloc, name)?;
    Ok(vec![in alloc; verb, name]?)
}

/// Runs with two arguments over bytes in memory, and appends the output to `output`.
fn run_in_memory<'a>(
    alloc: Global,
    verb: &str,
    name: &str,
    input: &'a [u8],
    output: Vec<u8>,
) -> Result<Outcome<'a>, AllocError>
    ensures status { IfOk result (λ ended. ended.status ≤ 3) }
    ensures done { IfOk result (λ ended. ended.status ≡ 0 → Done (verb.now ∷ name.now ∷ [])
        (from_to (Some input.now) (Some ended.rest.now))
        (from_to (Some output.items) (Some ended.output.items))) }
    ensures refused { IfOk result (λ ended. ended.status ≡ 1 → Refused (verb.now ∷ name.now ∷ [])
        (from_to (Some input.now) (Some ended.rest.now))
        (from_to (Some output.items) (Some ended.output.items))) }
    ensures begun { IfOk result (λ ended. ended.status ≢ 2 → Begun (verb.now ∷ name.now ∷ [])
        (from_to (Some input.now) (Some ended.rest.now))
        (from_to (Some output.items) (Some ended.output.items))) }
    ensures kept { IfOk result (λ ended. ended.status ≡ 2 → ended.output.items ≡ output.items) }
{
    let words = two_arguments(alloc, verb, name)?;
    let mut reader = Watch::new(input);
    let mut writer = Watch::new(output);
    let mut faults = Vec::new(alloc);
    let status = run(alloc, &words, &mut reader, &mut writer, &mut faults);
    Ok(Outcome {
        status,
        rest: reader.into_inner(),
        output: writer.into_inner(),
    })
}

/// Encodes five bytes in memory, and appends their text to a prompt.
fn encode_hello(alloc: Global) -> Result<Option<Vec<u8>>, AllocError>
    ensures { IfOk result (λ output. IfSome output (λ bytes.
        bytes.items ≡ codes "> 48656c6c6f")) }
{
    let outcome = run_in_memory(
        alloc,
        "encode",
        "HEXLOWER",
        b"Hello",
        vec![in alloc; b'>', b' ']?,
    )?;
    if outcome.status != 0 {
        return Ok(None);
    }
    Ok(Some(outcome.output))
}

/// Appends the names to `output` if they could be written, and reads nothing.
fn list<R: Read>(
    alloc: Global,
    reader: &mut Watch<R>,
    output: Vec<u8>,
) -> Result<Option<Vec<u8>>, AllocError>
    requires works { has_failed reader.old ≡ false }
    ensures names { IfOk result (λ found. IfSome found (λ bytes.
        bytes.items ≡ output.items ++ listing)) }
    ensures unread { OnOk result (Keeps (R.remaining (inner_of reader.old))
        (R.remaining (inner_of reader.new))) }
{
    let words = vec![in alloc; String::from_str(alloc, "list")?]?;
    let mut writer = Watch::new(output);
    let mut faults = Vec::new(alloc);
    let status = run(alloc, &words, reader, &mut writer, &mut faults);
    if status != 0 {
        return Ok(None);
    }
    Ok(Some(writer.into_inner()))
}

/// Returns `true` if different texts never mean the same data in the encoding with the name `name`,
/// or `None` if the answer could not be printed.
fn canonical(alloc: Global, name: &str) -> Result<Option<bool>, AllocError>
    ensures { IfOk result (λ found. IfSome found (λ answer. (base : Base) → IsNamed name.now base
        → (IsTrue answer ↔ IsCanonical base))) }
{
    let outcome = run_in_memory(alloc, "canonical", name, b"", Vec::new(alloc))?;
    if outcome.status != 0 {
        return Ok(None);
    }
    Ok(Some(outcome.output.as_slice() == b"true\n".as_slice()))
}

/// Returns the message about two arguments, or an empty string if they are valid.
fn printed_fault(alloc: Global, verb: &str, name: &str) -> Result<String, AllocError>
    ensures no_verb { IfOk result (λ line. ask_of verb.now ≡ None → string_bytes line
        ≡ codes "usage: basecode list OR encode NAME OR decode NAME OR canonical NAME") }
    ensures no_name { IfOk result (λ line. IsSome (ask_of verb.now)
        → fields_named name.now ≡ None
        → string_bytes line ≡ codes "unknown encoding: " ++ name.now) }
{
    let words = two_arguments(alloc, verb, name)?;
    match request_named(&words) {
        Ok(_) => Ok(String::new(alloc)),
        Err(fault) => format!(in alloc; "{fault}"),
    }
}

#[cfg(test)]
mod tests {
    use super::*;
    use std::test::Fail;

    // No clause states that memory is available.
    #[test]
    fn memory_is_found(rt: HostRuntime) -> Result<(), Fail> {
        assert!(rt; encode_hello(rt.alloc())?.is_some());
        assert!(rt; canonical(rt.alloc(), "BASE32_NOPAD")? == Some(true));
        assert!(rt; canonical(rt.alloc(), "BASE64")? == Some(false));
        let mut reader = Watch::new(b"4G".as_slice());
        let names = list(rt.alloc(), &mut reader, vec![in rt.alloc(); b'>']?)?;
        assert!(rt; names.is_some_and(|bytes| bytes.starts_with(b">HEXLOWER\n")));
        assert!(rt; reader.into_inner() == b"4G".as_slice());
        Ok(())
    }
}
