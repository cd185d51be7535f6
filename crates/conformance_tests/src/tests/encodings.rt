//! The results of encodings, compared with rows from other sources.

ghost use Rattle.std.specs.Prelude.{◌≤◌, length};

use super::decoding::{show_decode, show_decode_len, show_decode_mut};
use super::encoding::{encode_and_decode, encode_by_each_call};
use super::layouts::{has_layout_of, show_layout};
use super::order::keeps_order;
use super::predefined::{Case, case_of};
use super::writing::{Writer, show_calls, show_displayed};
use super::{piece_tables, property_tables, tables};
use conformance_support::appending::{append_data, append_pieces_twice};
use conformance_support::pieces::show_pieces;
use conformance_support::rows::{bytes_of_field, compare_answer, show_bool};
use conformance_support::streams::{
    show_decode_reads, show_decode_stream, show_encode_calls, show_encode_stream,
};
use data_encoding::{DECODE_LIMIT, ENCODE_LIMIT, Encoding};
use std::alloc::{AllocError, Global};
use std::test::Fail;

/// A call of an encoding.
#[derive(Clone, Copy)]
enum Call {
    Abandon,
    Append,
    Beginning,
    Both,
    Buffer,
    Decode,
    DecodeLen,
    DecodeReads,
    DecodeStream,
    Display,
    DisplayPadded,
    Encode,
    EncodeCalls,
    EncodeLen,
    EncodeStream,
    Finalize,
    Interpret,
    IsCanonical,
    KeepsOrder,
    Layout,
    NoBuffer,
    Pieces,
    Sizes,
}

/// The rows of each call.
const TABLES: [(Call, &str); 24] = [
    (Call::Abandon, piece_tables::ABANDONED),
    (Call::Append, piece_tables::APPENDED),
    (Call::Beginning, tables::BEGINNINGS),
    (Call::Both, tables::VECTORS),
    (Call::Both, tables::NAMED_VECTORS),
    (Call::Buffer, piece_tables::BUFFERED),
    (Call::Decode, tables::BYTES),
    (Call::DecodeLen, tables::DECODED_LENGTHS),
    (Call::DecodeReads, piece_tables::DECODE_READS),
    (Call::DecodeStream, piece_tables::DECODED_STREAMS),
    (Call::Display, piece_tables::DISPLAYED),
    (Call::DisplayPadded, piece_tables::DISPLAYED_PADDED),
    (Call::Encode, tables::TEXTS),
    (Call::EncodeCalls, piece_tables::ENCODE_CALLS),
    (Call::EncodeLen, tables::LENGTHS),
    (Call::EncodeStream, piece_tables::ENCODED_STREAMS),
    (Call::Finalize, piece_tables::FINALIZED),
    (Call::Interpret, property_tables::MEANINGS),
    (Call::IsCanonical, property_tables::CANONICAL),
    (Call::KeepsOrder, property_tables::ORDERED),
    (Call::Layout, property_tables::LAYOUTS),
    (Call::NoBuffer, piece_tables::UNBUFFERED),
    (Call::Pieces, piece_tables::PIECES),
    (Call::Sizes, property_tables::SIZES),
];

/// Returns the meaning of the only byte.
fn show_meaning(alloc: Global, encoding: &Encoding, bytes: &[u8]) -> Result<String, AllocError> {
    let [byte] = bytes else {
        return Ok(String::new(alloc));
    };
    let character = encoding.interpret_byte(*byte);
    let symbol = character.is_symbol();
    let padding = character.is_padding();
    let ignored = character.is_ignored();
    let invalid = character.is_invalid();
    format!(in alloc; "{character:?} {symbol:?} {padding} {ignored} {invalid}")
}

/// Returns the sizes and the properties of an encoding.
fn show_sizes(alloc: Global, encoding: &Encoding) -> Result<String, AllocError> {
    let (width, len) = (encoding.bit_width(), encoding.group_len());
    let align = encoding.encode_align();
    let piece = encoding.encode_piece_len(1024);
    let ignores = encoding.ignores_bytes();
    let concatenates = encoding.concatenates();
    let bytes = encoding.group_bytes();
    let completes = encoding.completes_groups();
    let padded = encoding.is_padded();
    format!(in alloc;
        "{width}, {len}, {align}, {piece}, {ignores}, {concatenates}, {bytes}, {completes}, \
         {padded}"
    )
}

/// Returns the length of the text of `len` bytes.
fn show_encode_len(alloc: Global, encoding: &Encoding, len: &str) -> Result<String, Fail> {
    let len: usize = len.parse()?;
    if len > ENCODE_LIMIT {
        return Ok(String::new(alloc));
    }
    let len = encoding.encode_len(len);
    Ok(format!(in alloc; "{len}")?)
}

/// Returns the result of a call that takes bytes or nothing.
fn call_with_bytes(alloc: Global, call: Call, case: &Case<'_>, input: &[u8]) -> Result<String, Fail>
    requires encoded { length input.now ≤ ENCODE_LIMIT }
    requires decoded { length input.now ≤ DECODE_LIMIT }
{
    let encoding = &case.encoding;
    match call {
        Call::Beginning => show_decode_mut(alloc, encoding, input),
        Call::Both => encode_and_decode(alloc, encoding, &case.specification, input),
        Call::Decode => show_decode(alloc, encoding, input),
        Call::DecodeLen => show_decode_len(alloc, encoding, input.len()),
        Call::DecodeReads => show_decode_reads(alloc, encoding, input),
        Call::DecodeStream => show_decode_stream(alloc, encoding, input),
        Call::DisplayPadded => Ok(show_displayed(alloc, encoding, input)?),
        Call::Encode => encode_by_each_call(alloc, encoding, input),
        Call::EncodeStream => show_encode_stream(alloc, encoding, input),
        Call::Interpret => Ok(show_meaning(alloc, encoding, input)?),
        Call::IsCanonical => show_bool(alloc, encoding.is_canonical()),
        Call::KeepsOrder => show_bool(alloc, keeps_order(alloc, encoding)?),
        Call::Sizes => Ok(show_sizes(alloc, encoding)?),
        _ => call_with_text(alloc, call, encoding, case.input),
    }
}

/// Returns the result of a call that takes a text.
fn call_with_text(
    alloc: Global,
    call: Call,
    encoding: &Encoding,
    words: &str,
) -> Result<String, Fail> {
    match call {
        Call::Abandon => append_pieces_twice(alloc, encoding, words, false),
        Call::Append => append_data(alloc, encoding, words),
        Call::Buffer => show_calls(alloc, encoding, Writer::Buffer, words),
        Call::Display => show_calls(alloc, encoding, Writer::Display, words),
        Call::EncodeCalls => show_encode_calls(alloc, encoding, words),
        Call::EncodeLen => show_encode_len(alloc, encoding, words),
        Call::Finalize => append_pieces_twice(alloc, encoding, words, true),
        Call::Layout => show_layout(alloc, encoding, words),
        Call::NoBuffer => show_calls(alloc, encoding, Writer::NoBuffer, words),
        Call::Pieces => show_pieces(alloc, encoding, words),
        _ => Ok(String::from_str(alloc, "no call of words")?),
    }
}

/// Compares the result of a call with a row.
fn compare_call_row(alloc: Global, call: Call, line: &str) -> Result<(), Fail> {
    let case = case_of(alloc, line)?;
    let input = bytes_of_field(alloc, case.input)?;
    if input.len() > ENCODE_LIMIT || input.len() > DECODE_LIMIT {
        return Err(Fail::new(line));
    }
    let answer = call_with_bytes(alloc, call, &case, &input)?;
    compare_answer(alloc, line, answer.as_str(), case.want)
}

#[test]
fn encodings_match_rows(rt: HostRuntime) -> Result<(), Fail> {
    for (call, lines) in &TABLES {
        for line in lines.split('\n') {
            compare_call_row(rt.alloc(), *call, line)?;
        }
    }
    Ok(())
}

/// Returns `true`, as a row writes it, if the changed layout of the first encoding is the layout of
/// `other`.
///
/// Without a change, the encodings are equal if and only if their layouts are. An encoding is equal
/// to its copy.
fn compare_layouts(alloc: Global, one: &Case<'_>, other: &Encoding) -> Result<String, Fail> {
    let is_same = has_layout_of(alloc, &one.encoding, one.input, other)?;
    let is_equal = one.encoding == *other;
    if one.encoding != one.encoding.clone()? || one.input.is_empty() && is_equal != is_same {
        return Ok(String::from_str(alloc, "a copy that differs")?);
    }
    show_bool(alloc, is_same)
}

/// Compares the equality of two encodings with a row.
fn compare_encodings(alloc: Global, line: &str) -> Result<(), Fail> {
    let (one, other) = line.split_once('&').unwrap_or((line, ""));
    let one = case_of(alloc, one)?;
    let other = case_of(alloc, other)?;
    let answer = compare_layouts(alloc, &one, &other.encoding)?;
    compare_answer(alloc, line, answer.as_str(), other.want)
}

#[test]
fn equality(rt: HostRuntime) -> Result<(), Fail> {
    for line in property_tables::COMPARISONS.split('\n') {
        compare_encodings(rt.alloc(), line)?;
    }
    Ok(())
}
