//! Texts that are decoded in two pieces. The rest of the first piece comes before the second.

ghost use Rattle.std.specs.Prelude.{◌≤◌, length};

use super::damage::compare_damaged_anywhere;
use conformance_support::comparison::{Comparison, Differs, Tally, decode_prefix};
use conformance_support::oracle::Oracle;
use conformance_support::rows::{bytes_of_field, compare_answer, row_of};
use data_encoding::Encoding;
use std::alloc::{AllocError, Global};
use std::test::Fail;

/// Texts, and the numbers of their prefixes of a valid length.
const RESUMED: &str = "\
base64|most|check|=||0||||Zm9vYmE=Zg==|4
base64|most|check|=||76|←↵|||SGVs←↵bG8=←↵|13
base64|most|single check|=|-|0||||Zm9v-Zm9v-Zg|13
base64|most|single check|=|-|0||||Zm9v-Zg==-Zg|13
base32|most|check|=|-|0||||ME-======-ME|13
hex|most|check|||0||||48656c6c6f21|7
hex|most|check||-|0||||48-65-6c-6c-|13
quaternary|least|check|||0||||012301230123|4
binary|most|check||-|0||||01010011-010|13";

/// Returns the number of prefixes of `text` with a valid length.
fn count_prefixes(encoding: &Encoding, text: &[u8]) -> usize
    requires short { length text.now ≤ 17 }
{
    let mut fronts: usize = 0;
    for cut in 0..=text.len() {
        let mut output = [0; 16];
        if decode_prefix(encoding, &text[..cut], &mut output).is_some() {
            fronts = fronts.wrapping_add(1);
        }
    }
    fronts
}

/// Compares a text, unchanged and with each of four bytes at each position. Any prefix of a valid
/// length may be decoded first.
///
/// Returns the number of these prefixes.
fn compare_resumed(comparison: &mut Comparison<'_>, text: &mut [u8]) -> Result<usize, Differs>
    requires short { length text.old ≤ 17 }
{
    compare_damaged_anywhere(comparison, text, b"!=-1")?;
    Ok(count_prefixes(comparison.encoding, text))
}

/// Returns the number of prefixes of a valid length, if each call matches the oracle, also after a
/// prefix was read, and also with another byte at each position.
fn show_prefixes(
    alloc: Global,
    comparison: &mut Comparison<'_>,
    text: &mut [u8],
) -> Result<String, AllocError>
    requires short { length text.old ≤ 17 }
{
    match compare_resumed(comparison, text) {
        Ok(fronts) => format!(in alloc; "{fronts}"),
        Err(_) => String::from_str(alloc, "resumed otherwise"),
    }
}

/// Compares a text of a few bytes with a row.
fn compare_row(alloc: Global, line: &str) -> Result<(), Fail> {
    let row = row_of(alloc, line)?;
    let mut text = bytes_of_field(alloc, row.input)?;
    if text.len() > 17 {
        return Err(Fail::new(line));
    }
    let encoding = row.specification.encoding()?;
    let oracle = Oracle::of(&row.specification);
    let mut comparison = Comparison::new(alloc, &encoding, oracle, Tally::zero());
    let answer = show_prefixes(alloc, &mut comparison, &mut text)?;
    compare_answer(alloc, line, answer.as_str(), row.want)
}

#[test]
fn resumed_texts_match_oracle(rt: HostRuntime) -> Result<(), Fail> {
    for line in RESUMED.split('\n') {
        compare_row(rt.alloc(), line)?;
    }
    Ok(())
}
