//! Specifications that encodings are built from, and specifications that are refused.

use super::original_table;
use super::predefined::case_of;
use conformance::callers::referenced::decode_exactly;
use conformance::callers::symbols_of;
use conformance_support::rows::{compare_answer, row_of};
use data_encoding::spec::{Specification, SpecificationError};
use data_encoding::{BitOrder, Encoding, SpecificationParts, base64_mime};
use std::alloc::{AllocError, Global};
use std::test::Fail;

/// The refusals of specifications.
const JUDGEMENTS: &str = "\
|most|check|||0||||invalid number of symbols
010|most|check|||0||||invalid number of symbols
é|most|check|||0||||non-ascii character
00|most|check|||0||||'0' has conflicting definitions
octal|most|check|||0||||an encoding
hex|most|check|=||0||||unnecessary padding
01|most|check|é||0||||unnecessary padding
octal|most|check|é||0||||non-ascii character
octal|most|check|0||0||||'0' has conflicting definitions
octal|most|check|=|=|0||||'=' has conflicting definitions
octal|most|check||  |0||||an encoding
base64|most|check|||8|A|||'A' has conflicting definitions
base64|most|check|||8|é|||non-ascii character
base64|most|check|||10|↵|||wrap width not a multiple of 4
base64|most|check|||256|↵|||invalid wrap width or separator length
base64|most|check|||300||||an encoding
base64|most|check|||7|\
    ↵↵↵↵↵↵↵↵↵↵↵↵↵↵↵↵↵↵↵↵↵↵↵↵↵↵↵↵↵↵↵↵↵↵↵↵↵↵↵↵↵↵↵↵↵↵↵↵↵↵↵↵↵↵↵↵↵↵↵↵↵↵↵↵\
    ↵↵↵↵↵↵↵↵↵↵↵↵↵↵↵↵↵↵↵↵↵↵↵↵↵↵↵↵↵↵↵↵↵↵↵↵↵↵↵↵↵↵↵↵↵↵↵↵↵↵↵↵↵↵↵↵↵↵↵↵↵↵↵↵\
    ↵↵↵↵↵↵↵↵↵↵↵↵↵↵↵↵↵↵↵↵↵↵↵↵↵↵↵↵↵↵↵↵↵↵↵↵↵↵↵↵↵↵↵↵↵↵↵↵↵↵↵↵↵↵↵↵↵↵↵↵↵↵↵↵\
    ↵↵↵↵↵↵↵↵↵↵↵↵↵↵↵↵↵↵↵↵↵↵↵↵↵↵↵↵↵↵↵↵↵↵↵↵↵↵↵↵↵↵↵↵↵↵↵↵↵↵↵↵↵↵↵↵↵↵↵↵↵↵↵↵|||\
    invalid wrap width or separator length
01|most|check|||0||ab|0|translate from/to length mismatch
01|most|check|||0||a|é|translate from/to length mismatch
01|most|check|||0||é|00|non-ascii character
01|most|check|||0||ab|é|non-ascii character
01|most|check|||0||0|0|an encoding
01|most|check|||0||0|1|'0' has conflicting definitions
01|most|check|||0||a|a|'a' is undefined
01|most|check|||0||ba|a0|'a' is undefined
01|most|check|||0||ab|0a|an encoding
01|most|check||\0\0|0||\0|0|'\\0' has conflicting definitions
01|most|check|||0||a|\0|'\\0' is undefined
0↵|most|check||↵|0||||'\\n' has conflicting definitions
01|most|check|||0||a|↵|'\\n' is undefined
0 |most|check|| |0||||' ' has conflicting definitions
01|most|check|||0||a| |' ' is undefined
0'|most|check||'|0||||'\\'' has conflicting definitions
01|most|check|||0||a|'|'\\'' is undefined
0\"|most|check||\"|0||||'\"' has conflicting definitions
01|most|check|||0||a|\"|'\"' is undefined
0\\|most|check||\\|0||||'\\\\' has conflicting definitions
01|most|check|||0||a|\\|'\\\\' is undefined
0\u{7f}|most|check||\u{7f}|0||||'\\u{7f}' has conflicting definitions
01|most|check|||0||a|\u{7f}|'\\u{7f}' is undefined";

/// The symbols of encodings, or `none` for a refusal.
const SYMBOLS: &str = "\
ba|most|check|||0||||ba
hex|most|check|||0||ABCDEF|abcdef|0123456789abcdef
abc|most|check|||0||||none
aa|most|check|||0||||none";

/// The specifications of encodings: `single` if texts may not be concatenated, the check, the
/// padding, the ignored bytes, the lines and the translation.
const DESCRIPTIONS: &str = "\
binary|most||||0||||true/None//0///
octal|most||||0||||false/None//0///
octal|most|check|||0||||true/None//0///
base64|most|check|||300||||true/None//0///
base64|most|check|=||76|--|||true/Some('=')/-/76/--//
base32|most|check|||0||01l8|OIIB|true/None//0//018l/OIBI
binary|most|check||-|0||_|-|true/None/-_/0///
binary|most|check|||0||ab|0a|true/None//0//ab/00
octal|most|check|=||0||~|=|true/Some('=')//0//~/=
base64|most|single check|||0||||true/None//0///
base64|most|single check|=||0||||single/true/Some('=')//0///";

/// Specifications, a copy of each, and a new specification with its lines and its translation.
///
/// Each field of the first differs from the field of a new specification.
const COPIES: [(&str, &str, &str); 3] = [
    (
        "base64|least|single|.|~|76|↵|!?|AB|",
        "single/false/Some('.')/~/76/\n/!?/AB",
        "true/None//76/\n/!?/AB",
    ),
    (
        "BASE32_NOPAD_VISUAL|",
        "true/None//0//018l/OIBI",
        "true/None//0//018l/OIBI",
    ),
    (
        "BASE64_MIME|",
        "true/Some('=')/\n\r/76/\r\n//",
        "true/None//76/\r\n//",
    ),
];

/// Returns a specification as a row writes it, without its symbols and its bit order.
fn show_specification(alloc: Global, specification: &Specification) -> Result<String, AllocError> {
    let single = if specification.concatenate {
        ""
    } else {
        "single/"
    };
    let check = specification.check_trailing_bits;
    let padding = specification.padding;
    let ignored = specification.ignore.as_str();
    let width = specification.wrap.width;
    let separator = specification.wrap.separator.as_str();
    let from = specification.translate.from.as_str();
    let to = specification.translate.to.as_str();
    format!(in alloc; "{single}{check}/{padding:?}/{ignored}/{width}/{separator}/{from}/{to}")
}

/// Returns the fields of the specification as bytes.
fn parts_of(specification: &Specification) -> SpecificationParts<'_> {
    SpecificationParts {
        symbols: specification.symbols.as_bytes(),
        bit_order: specification.bit_order,
        check_trailing_bits: specification.check_trailing_bits,
        concatenate: specification.concatenate,
        padding: specification.padding,
        ignore: specification.ignore.as_bytes(),
        wrap_width: specification.wrap.width,
        wrap_separator: specification.wrap.separator.as_bytes(),
        translate_from: specification.translate.from.as_bytes(),
        translate_to: specification.translate.to.as_bytes(),
    }
}

/// Returns `true` if `by_parts`, built from the bytes of the specification, equals `built`, also as
/// plain data.
fn builds_alike(
    alloc: Global,
    built: &Result<Encoding, SpecificationError>,
    by_parts: Result<Encoding, SpecificationError>,
) -> Result<bool, AllocError> {
    Ok(match (built, by_parts) {
        (Ok(encoding), Ok(same)) => {
            same == *encoding && encoding.to_plain().encoding() == *encoding
        }
        (Err(error), Err(same)) => {
            same.to_string(alloc)?.as_str() == error.to_string(alloc)?.as_str()
        }
        _ => false,
    })
}

/// Returns the sum of `bytes`, each times its position.
fn sum_of(bytes: &[u8]) -> u64 {
    let mut sum: u64 = 0;
    let mut position: u64 = 0;
    for byte in bytes {
        position = position.wrapping_add(1);
        sum = sum.wrapping_add(position.wrapping_mul(u64::from(*byte))) % 1_000_003;
    }
    sum
}

/// Returns the length of a layout and its sum, if the encoding is built again from its
/// specification.
fn show_layout_sum(alloc: Global, encoding: &Encoding) -> Result<String, Fail> {
    if encoding.specification(alloc)?.encoding()? != *encoding {
        return Ok(String::from_str(alloc, "builds another")?);
    }
    let layout = encoding.internal_implementation();
    let (len, sum) = (layout.as_slice().len(), sum_of(layout.as_slice()));
    Ok(format!(in alloc; "{len} bytes, {sum}")?)
}

/// Returns the symbols that a caller finds.
fn show_symbols(alloc: Global, specification: &Specification) -> Result<String, AllocError> {
    match symbols_of(alloc, specification)? {
        Some(symbols) => Ok(symbols),
        None => String::from_str(alloc, "none"),
    }
}

/// A result for a specification.
#[derive(Clone, Copy)]
enum Asked {
    Encoding,
    Description,
    Sum,
    Symbols,
}

/// The rows of each result.
const TABLES: [(Asked, &str); 4] = [
    (Asked::Encoding, JUDGEMENTS),
    (Asked::Description, DESCRIPTIONS),
    (Asked::Sum, original_table::ROWS),
    (Asked::Symbols, SYMBOLS),
];

/// Returns a result for the encoding that is built from a specification, or the refusal.
fn show_built(alloc: Global, specification: &Specification, asked: Asked) -> Result<String, Fail> {
    let built = specification.encoding();
    if !builds_alike(alloc, &built, parts_of(specification).encoding())? {
        return Ok(String::from_str(alloc, "built otherwise by its parts")?);
    }
    match built {
        Ok(encoding) => match asked {
            Asked::Description => Ok(show_specification(alloc, &encoding.specification(alloc)?)?),
            Asked::Sum => show_layout_sum(alloc, &encoding),
            _ => Ok(String::from_str(alloc, "an encoding")?),
        },
        Err(error) => Ok(error.to_string(alloc)?),
    }
}

/// Compares a result for a specification with a row.
fn compare_specification_row(alloc: Global, asked: Asked, line: &str) -> Result<(), Fail> {
    let row = row_of(alloc, line)?;
    let answer = match asked {
        Asked::Symbols => show_symbols(alloc, &row.specification)?,
        _ => show_built(alloc, &row.specification, asked)?,
    };
    compare_answer(alloc, line, answer.as_str(), row.want)
}

#[test]
fn specifications_match_rows(rt: HostRuntime) -> Result<(), Fail> {
    assert!(rt; original_table::ROWS.split('\n').count() == 200);
    for (asked, lines) in &TABLES {
        for line in lines.split('\n') {
            compare_specification_row(rt.alloc(), *asked, line)?;
        }
    }
    Ok(())
}

/// Returns `true` if the symbols and the bit orders are equal.
fn has_symbols_of(one: &Specification, other: &Specification) -> bool {
    one.symbols.as_str() == other.symbols.as_str() && one.bit_order == other.bit_order
}

/// Returns a new specification with the lines and the translation of another.
fn with_parts_of(alloc: Global, other: &Specification) -> Result<Specification, AllocError> {
    let mut parts = Specification::new(alloc);
    parts.wrap = other.wrap.try_clone()?;
    parts.translate = other.translate.try_clone()?;
    Ok(parts)
}

/// Returns `true` if the copy of a specification is written as `want`, and a new one with its lines
/// and translation as `parts`.
fn copies_as(
    alloc: Global,
    specification: &Specification,
    want: &str,
    parts: &str,
) -> Result<bool, AllocError> {
    let copy = specification.try_clone()?;
    Ok(
        has_symbols_of(&copy, specification)
            && show_specification(alloc, &copy)?.as_str() == want
            && show_specification(alloc, &with_parts_of(alloc, &copy)?)?.as_str() == parts,
    )
}

/// Returns `true` if the specification of a row is copied, and the copy builds the same encoding.
fn copies_row_as(alloc: Global, line: &str, want: &str, parts: &str) -> Result<bool, Fail> {
    let case = case_of(alloc, line)?;
    let again = case.specification.try_clone()?.encoding()?;
    Ok(again == case.encoding && copies_as(alloc, &case.specification, want, parts)?)
}

#[test]
fn specification_copies(rt: HostRuntime) -> Result<(), Fail> {
    for (line, want, parts) in &COPIES {
        assert!(rt; copies_row_as(rt.alloc(), line, want, parts)?, "{line}");
    }
    Ok(())
}

/// Returns a specification with the given symbols, lines that end with LF, and translations.
fn parts_with<'a>(symbols: &'a [u8], wrap_width: usize, from: &'a [u8]) -> SpecificationParts<'a> {
    SpecificationParts {
        symbols,
        bit_order: BitOrder::MostSignificantFirst,
        check_trailing_bits: true,
        concatenate: true,
        padding: None,
        ignore: b"",
        wrap_width,
        wrap_separator: b"\n",
        translate_from: from,
        translate_to: b"z",
    }
}

/// Returns the refusal of a specification, in its `Debug` form.
fn show_refusal(
    alloc: Global,
    symbols: &[u8],
    wrap_width: usize,
    from: &[u8],
) -> Result<String, AllocError> {
    match parts_with(symbols, wrap_width, from).encoding() {
        Ok(_) => Ok(String::new(alloc)),
        Err(error) => {
            let refusal = error.refusal();
            format!(in alloc; "{refusal:?}")
        }
    }
}

/// Returns `true` if an encoding with lines is the same as plain data.
fn plain_data_matches() -> bool {
    let plain = base64_mime().to_plain();
    plain.encoding() == base64_mime() && plain.encoding().encode_len(1) == 6
}

/// The symbols, the width of lines, the translated bytes, and the refusal.
const REFUSALS: [(&[u8], usize, &[u8], &str); 7] = [
    (b"abc", 0, b"", "BadSize"),
    (b"0\xff", 0, b"", "NotAscii"),
    (b"00", 0, b"", "Duplicate(48)"),
    (b"01", 256, b"", "WrapLength"),
    (b"01", 9, b"", "WrapWidth(8)"),
    (b"01", 0, b"", "FromTo"),
    (b"01", 0, b"a", "Undefined(122)"),
];

#[test]
fn refusals(rt: HostRuntime) -> Result<(), Fail> {
    for (symbols, wrap_width, from, want) in &REFUSALS {
        let answer = show_refusal(rt.alloc(), symbols, *wrap_width, from)?;
        compare_answer(rt.alloc(), want, answer.as_str(), want)?;
    }
    assert!(rt; plain_data_matches());
    Ok(())
}

#[test]
fn zero_byte_is_a_symbol(rt: HostRuntime) -> Result<(), Fail> {
    let parts = SpecificationParts {
        symbols: b"\0123456789abcdef",
        bit_order: BitOrder::MostSignificantFirst,
        check_trailing_bits: true,
        concatenate: true,
        padding: None,
        ignore: b" ",
        wrap_width: 0,
        wrap_separator: b"",
        translate_from: b"",
        translate_to: b"",
    };
    let encoding = parts.encoding()?;
    let mut output = [0; 9];
    let len = decode_exactly(&encoding.by_ref(), b"123 4567 89abcdef 1", &mut output);
    assert_eq!(rt; len, Some(8));
    assert!(rt; output.starts_with(b"\x12\x34\x56\x78\x9a\xbc\xde\xf1"));
    Ok(())
}
