//! The callers, compared with rows.

ghost use Rattle.std.specs.Prelude.{◌≤◌, length};

use super::caller_rows::{Caller, TABLES};
use super::predefined::{Case, case_of, named};
use super::stored::restores_layout;
use conformance::callers::names::{
    BodyFault, comes_before, data_of_body, decoded_token, is_key, token_of,
};
use conformance::callers::rewritten::{
    is_same_name, rewrapped, sorts_before, to_base64url, to_lower_case,
};
use conformance::callers::streamed::{decode_in_two, decode_pieces, decoded_early, streamed_back};
use conformance::callers::{
    data_of_token, encoded_in_two, is_built_again, is_one_text, is_refused_alike, no_symbol,
    odd_length,
};
use conformance_support::rows::{bytes_of_field, compare_answer, show_bool, show_bytes};
use data_encoding::{DECODE_LIMIT, DecodeFault, ENCODE_LIMIT, Encoding, base64_mime};
use std::alloc::{AllocError, Global};
use std::test::Fail;

/// Returns the data of a decoding or its fault, as a row writes them.
fn show_decoded(alloc: Global, answer: Result<Vec<u8>, DecodeFault>) -> Result<String, Fail> {
    match answer {
        Ok(bytes) => Ok(show_bytes(alloc, &bytes)?),
        Err(fault) => Ok(fault.to_string(alloc)?),
    }
}

/// Returns the data as a row writes it, or `none`.
fn show_found(alloc: Global, answer: Result<Option<Vec<u8>>, AllocError>) -> Result<String, Fail> {
    match answer? {
        Some(bytes) => Ok(show_bytes(alloc, &bytes)?),
        None => Ok(String::from_str(alloc, "none")?),
    }
}

/// Returns `true`, `false` or the fault.
fn show_truth(alloc: Global, answer: Result<bool, DecodeFault>) -> Result<String, Fail> {
    match answer {
        Ok(is_so) => show_bool(alloc, is_so),
        Err(fault) => Ok(fault.to_string(alloc)?),
    }
}

/// Returns the data of the body of a key file, or the line, the column and the kind of its fault.
fn show_body(alloc: Global, input: &[u8]) -> Result<String, Fail>
    requires limit { length input.now ≤ DECODE_LIMIT }
{
    match data_of_body(alloc, input) {
        Ok(bytes) => Ok(show_bytes(alloc, &bytes)?),
        Err(BodyFault::Text(place, kind)) => {
            let (line, column) = (place.line, place.column);
            Ok(format!(in alloc; "line {line}, column {column}: {kind:?}")?)
        }
        Err(_) => Ok(String::from_str(alloc, "out of memory")?),
    }
}

/// Returns the data of a prefix of whole groups.
fn decode_whole_groups(alloc: Global, input: &[u8]) -> Result<String, Fail>
    requires limit { length input.now ≤ DECODE_LIMIT }
{
    if input.len() % 4 != 0 {
        return Ok(String::from_str(alloc, "no whole groups")?);
    }
    show_decoded(alloc, decoded_early(alloc, input))
}

/// Returns the text of two pieces of data after other text.
fn append_in_two(
    alloc: Global,
    encoding: &Encoding,
    one: &[u8],
    other: &[u8],
) -> Result<String, Fail> {
    let mut output = String::from_str(alloc, "Result: ")?;
    if one.len() < 100 && other.len() < 100 {
        encoded_in_two(encoding, one, other, &mut output)?;
    }
    Ok(output)
}

/// Returns the data of a text in two pieces.
fn decode_two_pieces(alloc: Global, one: &[u8], other: &[u8]) -> Result<String, Fail> {
    if one.len() > 100 || other.len() > 100 {
        return Ok(String::from_str(alloc, "too long")?);
    }
    show_decoded(alloc, decode_in_two(alloc, &base64_mime(), one, other))
}

/// Returns the data of the pieces `SGVs` CR, LF `bG` and `last` after a prompt, and their fault.
fn decode_three_pieces(alloc: Global, last: &[u8]) -> Result<String, Fail> {
    let mut output = vec![in alloc; b'>']?;
    let pieces = [b"SGVs\r".as_slice(), b"\nbG".as_slice(), last];
    if last.len() > 2 {
        return Ok(String::from_str(alloc, "too long")?);
    }
    match decode_pieces(alloc, &base64_mime(), &pieces, &mut output)? {
        Ok(()) => {}
        Err(error) => {
            let told = format!(in alloc; ", {error}")?;
            output.extend_from_slice(told.as_bytes())?;
        }
    }
    Ok(show_bytes(alloc, &output)?)
}

/// Returns a text that was changed in place, to base64url or to lower case.
fn rewrite_text(alloc: Global, input: &[u8], is_url: bool) -> Result<String, Fail> {
    let mut text = input.to_vec(alloc)?;
    if is_url {
        to_base64url(&mut text);
    } else {
        to_lower_case(&mut text);
    }
    Ok(show_bytes(alloc, &text)?)
}

/// Returns `true` if one name sorts before another.
fn sorts_copies_before(alloc: Global, one: &[u8], other: &[u8]) -> Result<bool, AllocError> {
    let mut one = one.to_vec(alloc)?;
    let mut other = other.to_vec(alloc)?;
    Ok(sorts_before(&mut one, &mut other))
}

/// Returns the result of a caller for two encodings.
fn call_with_encodings(
    alloc: Global,
    caller: Caller,
    encoding: &Encoding,
    name: &str,
) -> Result<String, Fail> {
    let Some((other, _)) = named(name) else {
        return Ok(String::from_str(alloc, "no such name")?);
    };
    let is_so = match caller {
        Caller::IsBuiltAgain => is_built_again(alloc, encoding, &other)?,
        _ => restores_layout(encoding, &other),
    };
    show_truth(alloc, Ok(is_so))
}

/// Returns the result of a caller for two texts.
fn call_with_texts(
    alloc: Global,
    caller: Caller,
    encoding: &Encoding,
    one: &[u8],
    other: &[u8],
) -> Result<String, Fail>
    requires limit { length one.now ≤ DECODE_LIMIT }
    requires other_limit { length other.now ≤ DECODE_LIMIT }
{
    match caller {
        Caller::IsBefore => show_truth(alloc, Ok(comes_before(one, other))),
        Caller::IsOneText => show_truth(alloc, is_one_text(alloc, encoding, one, other)),
        Caller::IsSameName => show_truth(alloc, Ok(is_same_name(one, other))),
        Caller::IsSortedBefore => show_truth(alloc, Ok(sorts_copies_before(alloc, one, other)?)),
        Caller::TextInTwo => append_in_two(alloc, encoding, one, other),
        _ => decode_two_pieces(alloc, one, other),
    }
}

/// Returns the result of a caller for two texts, separated by a space.
fn call_with_split_text(
    alloc: Global,
    caller: Caller,
    encoding: &Encoding,
    texts: &str,
) -> Result<String, Fail> {
    let (one, other) = texts.split_once(' ').unwrap_or((texts, ""));
    let one = bytes_of_field(alloc, one)?;
    let other = bytes_of_field(alloc, other)?;
    if one.len() > DECODE_LIMIT || other.len() > DECODE_LIMIT {
        return Ok(String::from_str(alloc, "too long")?);
    }
    call_with_texts(alloc, caller, encoding, &one, &other)
}

/// Returns the result of a caller for a text or for data.
fn call_with_input(
    alloc: Global,
    caller: Caller,
    encoding: &Encoding,
    input: &[u8],
) -> Result<String, Fail>
    requires encoded { length input.now ≤ ENCODE_LIMIT }
    requires decoded { length input.now ≤ DECODE_LIMIT }
{
    match caller {
        Caller::AnyToken => show_found(alloc, data_of_token(alloc, encoding, input)),
        Caller::Back => Ok(show_bytes(alloc, &streamed_back(alloc, encoding, input)?)?),
        Caller::Body => show_body(alloc, input),
        Caller::Early => decode_whole_groups(alloc, input),
        Caller::IsKey => show_truth(alloc, Ok(is_key(input))),
        Caller::IsRefusedAlike => show_truth(alloc, Ok(is_refused_alike(alloc, encoding, input))),
        Caller::LowerCase => rewrite_text(alloc, input, false),
        Caller::NoSymbol => show_decoded(alloc, no_symbol(alloc)),
        Caller::OddLength => show_decoded(alloc, odd_length(alloc)),
        Caller::Pieces => decode_three_pieces(alloc, input),
        Caller::Rewrapped => show_found(alloc, rewrapped(alloc, encoding, input, 5)),
        Caller::Token => show_found(alloc, decoded_token(alloc, input)),
        Caller::TokenOf => Ok(token_of(alloc, input)?),
        _ => rewrite_text(alloc, input, true),
    }
}

/// Returns the result of a caller for a row.
fn call_for_row(alloc: Global, caller: Caller, case: &Case<'_>) -> Result<String, Fail> {
    match caller {
        Caller::IsBuiltAgain | Caller::IsStored => {
            call_with_encodings(alloc, caller, &case.encoding, case.input)
        }
        Caller::IsBefore
        | Caller::IsOneText
        | Caller::IsSameName
        | Caller::IsSortedBefore
        | Caller::TextInTwo
        | Caller::Two => call_with_split_text(alloc, caller, &case.encoding, case.input),
        _ => {
            let input = bytes_of_field(alloc, case.input)?;
            if input.len() > ENCODE_LIMIT || input.len() > DECODE_LIMIT {
                return Ok(String::from_str(alloc, "too long")?);
            }
            call_with_input(alloc, caller, &case.encoding, &input)
        }
    }
}

/// Compares the result of a caller with a row.
fn compare_caller_row(alloc: Global, caller: Caller, line: &str) -> Result<(), Fail> {
    let case = case_of(alloc, line)?;
    let answer = call_for_row(alloc, caller, &case)?;
    compare_answer(alloc, line, answer.as_str(), case.want)
}

#[test]
fn callers_match_rows(rt: HostRuntime) -> Result<(), Fail> {
    for (caller, lines) in &TABLES {
        for line in lines.split('\n') {
            compare_caller_row(rt.alloc(), *caller, line)?;
        }
    }
    Ok(())
}
