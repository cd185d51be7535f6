//! The examples of docs/LIBRARY.md, and a program that calls each of them.
//!
//! It prints their results for a few bytes and texts. Then it reads a text in base64, and writes
//! the data that the text means.
#![tactic(auto)]

mod buffers;
mod custom;
mod pieces;
mod proved;
mod streams;
mod whole;

use anyhow::Result;
use data_encoding::{base64, hexlower};
use encoding_stream::Watch;
use std::alloc::Global;

/// Appends the results for whole data and whole texts.
fn convert_whole(alloc: Global, lines: &mut Vec<String>) -> Result<()> {
    lines.push(whole::encoded(alloc, b"Hello")?)?;
    for text in ["SGVsbG8=", "SGVsbG8"] {
        lines.push(match whole::decoded(alloc, text) {
            Ok(bytes) => String::from_utf8_lossy(alloc, &bytes)?,
            Err(error) => format!(in alloc; "{error:#}")?,
        })?;
    }
    lines.push(proved::labelled(alloc, &hexlower(), "Hello: ", b"Hello")?)?;
    Ok(())
}

/// Appends the results for data and texts in pieces.
fn convert_pieces(alloc: Global, lines: &mut Vec<String>) -> Result<()> {
    let mut text = String::from_str(alloc, "Hello: ")?;
    pieces::append_both(&base64(), b"Hel", b"lo", &mut text)?;
    lines.push(text)?;
    for second in ["sbG8=", "sbG9="] {
        lines.push(match pieces::decoded_pieces(alloc, &["SGV", second]) {
            Ok(bytes) => String::from_utf8_lossy(alloc, &bytes)?,
            Err(error) => format!(in alloc; "{error:#}")?,
        })?;
    }
    Ok(())
}

/// Appends texts in encodings that are built from a specification.
fn convert_by_custom(alloc: Global, lines: &mut Vec<String>) -> Result<()> {
    let crockford = custom::crockford(alloc)?;
    lines.push(crockford.encode(alloc, b"Hello")?)?;
    let bytes = crockford.decode(alloc, b"9ijp-rv3f")?;
    lines.push(String::from_utf8_lossy(alloc, &bytes)?)?;
    let text = custom::octal(alloc)?.encode(alloc, b"Hello")?;
    lines.push(format!(in alloc; "{text:?}")?)?;
    Ok(())
}

/// Prints the results in buffers.
fn convert_in_buffers(rt: &impl Print, alloc: Global) -> Result<()> {
    let encoding = base64();
    buffers::print_text(rt, &encoding, b"Hello")?;
    let text = buffers::encoded_exactly(alloc, &encoding, b"Hello")?;
    let mut buffer = [0; 6];
    let written = buffers::decode_into(&encoding, &text, &mut buffer)?;
    println!(rt; "{written} bytes")?;
    for faulty in [b"SGVsbG9=".as_slice(), b"SGVsbG8gdGhlcmU="] {
        if let Err(error) = buffers::decode_into(&encoding, faulty, &mut buffer) {
            println!(rt; "{error:#}")?;
        }
    }
    Ok(())
}

/// Prints the results, and decodes the input.
fn main(rt: HostRuntime) -> Result<()> {
    let alloc = rt.alloc();
    let mut lines = Vec::new(alloc);
    convert_whole(alloc, &mut lines)?;
    convert_pieces(alloc, &mut lines)?;
    convert_by_custom(alloc, &mut lines)?;
    for line in &lines {
        println!(rt; "{line}")?;
    }
    convert_in_buffers(&rt, alloc)?;
    let mut reader = Watch::new(rt.reader());
    let mut writer = Watch::new(rt.stdout());
    streams::decode_all(&base64(), &mut reader, &mut writer)
}
