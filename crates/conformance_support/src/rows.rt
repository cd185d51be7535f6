//! Rows of tables. A bar separates two fields.

use data_encoding::{BitOrder, Specification};
use std::alloc::{AllocError, Global};
use std::str::Split;
use std::test::Fail;

/// The symbols of base32.
const BASE32: &str = "ABCDEFGHIJKLMNOPQRSTUVWXYZ234567";

/// The symbols of base32hex.
const BASE32HEX: &str = "0123456789ABCDEFGHIJKLMNOPQRSTUV";

/// The symbols of BASE32_DNSCURVE.
const DNSCURVE: &str = "0123456789bcdfghjklmnpqrstuvwxyz";

/// The symbols of base64.
const BASE64: &str = "ABCDEFGHIJKLMNOPQRSTUVWXYZabcdefghijklmnopqrstuvwxyz0123456789+/";

/// The fields of a row: a specification, the input, and the expected result.
#[derive(Drop)]
pub struct Row<'a> {
    pub specification: Specification,
    pub input: &'a str,
    pub want: &'a str,
}

/// Returns the fields of a row:
///
/// - the symbols,
/// - `least` if the least significant bit comes first,
/// - `single` if texts may not be concatenated, and `check` if trailing bits are checked,
/// - the padding,
/// - the ignored bytes,
/// - the width of a line,
/// - the separator,
/// - the two texts of the translation,
/// - the input, if there is one,
/// - the expected result.
pub fn row_of(alloc: Global, line: &str) -> Result<Row<'_>, Fail> {
    let mut fields = line.split('|');
    let mut specification = Specification::new(alloc);
    set_fields(&mut specification, &mut fields)?;
    let (input, want) = last_fields(&mut fields);
    Ok(Row {
        specification,
        input,
        want,
    })
}

/// Returns the next field, or an empty text if there is none.
fn next_field<'a>(fields: &mut Split<'a, char>) -> &'a str {
    fields.next().unwrap_or("")
}

/// Returns the input and the expected result: the last two fields, or the last. The input may be
/// missing.
pub fn last_fields<'a>(fields: &mut Split<'a, char>) -> (&'a str, &'a str) {
    let tenth = next_field(fields);
    match fields.next() {
        Some(eleventh) => (tenth, eleventh),
        None => ("", tenth),
    }
}

/// Sets the fields of a specification.
fn set_fields(specification: &mut Specification, fields: &mut Split<'_, char>) -> Result<(), Fail> {
    push_meant(
        &mut specification.symbols,
        named_symbols(next_field(fields)),
    )?;
    set_rules(specification, fields);
    put_ignored(specification, next_field(fields))?;
    specification.wrap.width = next_field(fields).parse()?;
    put_separator(specification, next_field(fields))?;
    push_meant(&mut specification.translate.from, next_field(fields))?;
    push_meant(&mut specification.translate.to, next_field(fields))?;
    Ok(())
}

/// Sets the bit order, the two rules, and the padding.
fn set_rules(specification: &mut Specification, fields: &mut Split<'_, char>) {
    if next_field(fields) == "least" {
        specification.bit_order = BitOrder::LeastSignificantFirst;
    }
    let rules = next_field(fields);
    specification.concatenate = !rules.starts_with("single");
    specification.check_trailing_bits = rules.ends_with("check");
    specification.padding = next_field(fields).chars().next();
}

/// Returns the symbols of a field. It may be the name of an alphabet.
fn named_symbols(name: &str) -> &str {
    match name {
        "binary" => "01",
        "quaternary" => "0123",
        "octal" => "01234567",
        "hex" => "0123456789abcdef",
        "base32" => BASE32,
        "base32hex" => BASE32HEX,
        "dnscurve" => DNSCURVE,
        "base64" => BASE64,
        _ => name,
    }
}

/// Returns the meaning of a character of a row: arrows mean control characters.
fn meant_character(character: char) -> char {
    match character {
        '↵' => '\n',
        '←' => '\r',
        '→' => '\t',
        _ => character,
    }
}

/// Appends the characters that `field` means.
fn push_meant(text: &mut String, field: &str) -> Result<(), AllocError> {
    for character in field.chars() {
        text.push(meant_character(character))?;
    }
    Ok(())
}

/// Sets the ignored bytes of a field. `others` means each ASCII character that is not a symbol.
fn put_ignored(specification: &mut Specification, field: &str) -> Result<(), AllocError> {
    if field != "others" {
        return push_meant(&mut specification.ignore, field);
    }
    for byte in 0..128u8 {
        if !specification.symbols.as_bytes().contains(&byte) {
            specification.ignore.push(char::from(byte))?;
        }
    }
    Ok(())
}

/// Sets the separator of a field. The longest ones have names: 255 dashes or line feeds.
pub fn put_separator(specification: &mut Specification, field: &str) -> Result<(), AllocError> {
    let separator = &mut specification.wrap.separator;
    separator.clear();
    let character = match field {
        "dashes" => '-',
        "feeds" => '\n',
        _ => return push_meant(separator, field),
    };
    for _ in 0..255u8 {
        separator.push(character)?;
    }
    Ok(())
}

/// Returns the text of a field.
///
/// Broken bars separate its pieces. A piece may be a count and a text, with a multiplication sign
/// between them. The text is then repeated.
pub fn text_of_field(alloc: Global, field: &str) -> Result<String, Fail> {
    let mut text = String::new(alloc);
    for part in field.split('¦') {
        let (count, repeated) = part.split_once('×').unwrap_or(("1", part));
        push_repeated(&mut text, count.parse()?, repeated)?;
    }
    Ok(text)
}

/// Appends the text of `field`, `count` times.
fn push_repeated(text: &mut String, count: usize, field: &str) -> Result<(), AllocError> {
    for _ in 0..count {
        push_meant(text, field)?;
    }
    Ok(())
}

/// Returns the bytes of a field. Each is written as the character of its code.
pub fn bytes_of_field(alloc: Global, field: &str) -> Result<Vec<u8>, Fail> {
    let text = text_of_field(alloc, field)?;
    let mut bytes = Vec::with_capacity(alloc, text.len())?;
    for character in text.chars() {
        bytes.push(u8::try_from(character).unwrap_or(b'?'))?;
    }
    Ok(bytes)
}

/// Compares an answer with a row. The failure names both.
pub fn compare_answer(alloc: Global, line: &str, answer: &str, want: &str) -> Result<(), Fail> {
    if text_of_field(alloc, want)?.as_str() == answer {
        return Ok(());
    }
    Err(Fail::new(format_args!("{line}, and not: {answer}")))
}

/// Returns `len` bytes that are not all equal.
pub fn bytes_of_length(alloc: Global, len: usize) -> Result<Vec<u8>, AllocError> {
    let mut bytes = Vec::new(alloc);
    for index in 0..len {
        bytes.push((index % 251) as u8)?;
    }
    Ok(bytes)
}

/// Returns the bytes as a row writes them.
pub fn show_bytes(alloc: Global, bytes: &[u8]) -> Result<String, AllocError> {
    let mut field = String::new(alloc);
    for byte in bytes {
        field.push(char::from(*byte))?;
    }
    Ok(field)
}

/// Returns `true` or `false`, as a row writes them.
pub fn show_bool(alloc: Global, is_so: bool) -> Result<String, Fail> {
    Ok(String::from_str(alloc, if is_so { "true" } else { "false" })?)
}
