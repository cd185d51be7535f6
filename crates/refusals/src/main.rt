//! Each public call that allocates, if no memory is left, or if one allocation is refused.
//!
//! With the argument `refused`, all memory that the process may have is allocated before each call.
//! The call then has to run out of memory, and to leave everything unchanged. With the argument
//! `one`, the program needs tests/c/refused.c to be loaded. A call then has to run out of memory if
//! one of its allocations was refused. Without an argument each call has to succeed. After that
//! there is memory, and the same call has to succeed with the right result.
//!
//! A line is printed for each call. It also states if one of its allocations was refused. The exit
//! status is 1 if a call fails its test.
#![tactic(auto)]

mod decoding;
mod encoding;
mod hog;
mod specifications;

use hog::{Hog, Refused};
use std::process::ExitCode;
use std::{env, io};

/// The name of a call, `true` if it passed its test, and `true` if one of its allocations was
/// refused.
type Row = (&'static str, bool, bool);

/// Returns the row of a call that was tested.
fn row(name: &'static str, is_right: bool, hog: &mut Hog) -> Row {
    (name, is_right, hog.take_refused_one())
}

/// Tests the calls that encode.
fn encoding_rows(hog: &mut Hog) -> [Row; 4] {
    [
        row("encode", encoding::encodes(hog), hog),
        row("encode_append", encoding::appends(hog), hog),
        row("Encoder::append", encoding::appends_pieces(hog), hog),
        row("Encoder::finalize", encoding::finalizes(hog), hog),
    ]
}

/// Tests the calls that decode.
fn decoding_rows(hog: &mut Hog) -> [Row; 3] {
    [
        row("decode", decoding::decodes(hog), hog),
        row("Decoder::push", decoding::pushes(hog), hog),
        row("Decoder::finish", decoding::finishes(hog), hog),
    ]
}

/// Tests the calls that copy specifications.
fn specification_rows(hog: &mut Hog) -> [Row; 4] {
    [
        row("specification", specifications::specifies(hog), hog),
        row("Specification::try_clone", specifications::clones(hog), hog),
        row(
            "Translate::try_clone",
            specifications::clones_translate(hog),
            hog,
        ),
        row("Wrap::try_clone", specifications::clones_wrap(hog), hog),
    ]
}

/// Prints a line for each of `rows`. Returns `true` if each call passed its test.
fn print_rows(rt: &impl Print, rows: &[Row]) -> io::Result<bool> {
    let mut are_right = true;
    for (name, is_right, is_refused) in rows {
        let answer = if *is_right { "right" } else { "wrong" };
        let refused = if *is_refused { ", refused" } else { "" };
        println!(rt; "{name}: {answer}{refused}")?;
        are_right = are_right && *is_right;
    }
    Ok(are_right)
}

/// Returns the allocations to refuse, by the first argument.
fn refused_by(rt: &HostRuntime) -> io::Result<Refused> {
    match env::args(rt)?.skip(1).next() {
        Some(word) if word.as_str() == "refused" => Ok(Refused::All),
        Some(word) if word.as_str() == "one" => Ok(Refused::One),
        _ => Ok(Refused::Nothing),
    }
}

/// Tests each call and prints the results.
fn main(rt: HostRuntime) -> io::Result<ExitCode> {
    let mut hog = Hog::new(rt.alloc(), refused_by(&rt)?)?;
    let (encoding, decoding) = (encoding_rows(&mut hog), decoding_rows(&mut hog));
    let specification = specification_rows(&mut hog);
    let are_right = print_rows(&rt, &encoding)?
        & print_rows(&rt, &decoding)?
        & print_rows(&rt, &specification)?;
    Ok(ExitCode::from(if are_right { 0 } else { 1 }))
}
