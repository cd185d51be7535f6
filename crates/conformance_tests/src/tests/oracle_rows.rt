//! The results of the oracle for texts, compared with rows from other sources, and the results of
//! encodings, compared with both.

ghost use Rattle.std.specs.Prelude.{◌≤◌, length};

use super::buffers::decode_every_cut;
use super::decoding::show_decode_mut;
use conformance_support::comparison::{Comparison, Tally};
use conformance_support::oracle::Oracle;
use conformance_support::rows::{bytes_of_field, compare_answer, row_of, show_bytes};
use data_encoding::{DECODE_LIMIT, Specification};
use std::alloc::Global;
use std::test::Fail;

/// The data or the faults of texts.
///
/// These are the results of the original crate, data-encoding 2.11.1, except for encodings that do
/// not concatenate. The crate does not have these. Their rule is that no group follows a padded
/// one.
const TEXTS: &str = "\
base64|most|check|=||0||||AAAAAA==|\0\0\0\0
base64|most|check|=||0||||AA==AAA=|\0\0\0
base64|most|check|=||0||||AAB=|non-zero trailing bits at 2
base64|most||=||0||||AAB=|\0\0
base64|most|check|=||0||||====|invalid padding length at 0
base64|most|check|=||0||||A===|invalid padding length at 1
base64|most|check|=||0||||!===|invalid padding length at 1
base64|most|check|=||0||||AA=A|invalid symbol at 2
base64|most|check|=||0||||===A|invalid symbol at 0
base64|most|check|=||0||||!AAAAA|invalid length at 4
base64|most|check|=|←↵|0||||AAA|invalid length at 0
base64|most|check|=|←↵|0||||AA↵=A|invalid symbol at 3
base64|most|check|=|←↵|0||||SG↵Vs|Hel
base64|most|check||↵|0||||AAAA↵A|invalid length at 5
base64|most|check||↵|0||||↵AAAA↵AA↵|\0\0\0\0
base64|most|single check|=||0||||AA==A===|invalid padding length at 4
base64|most|single check|=||0||||AA==!===|invalid padding length at 4
base64|most|single check|=||0||||AA==AA==|invalid padding length at 4
base64|most|single check|=||0||||AA==A|invalid length at 4
base64|most|single check|=|↵|0||||AA==↵A|invalid padding length at 5
base64|most|single check|=||0||||AAAAAA==|\0\0\0\0
base32|least|check|=||0||||AA======|\0
base32|least|check|=||0||||AAA=====|invalid padding length at 3
octal|most|check|=| |0||||0 0 2 = = = = = |\u{1}";

/// The lengths that `decode_mut` reads and writes.
const BEGINNINGS: &str = "\
base64|most|check|||0||||AAAA!A|4 read, 3 written, invalid symbol at 4
base64|most|check|||0||||AAAAAB|4 read, 3 written, non-zero trailing bits at 5
base64|most|check|=||0||||AA==A===|4 read, 1 written, invalid padding length at 5
base64|most|check|=||0||||AA==AAB=|4 read, 1 written, non-zero trailing bits at 6
base64|most|check|=||0||||Zm9v====|4 read, 3 written, invalid padding length at 4
base64|most|single check|=||0||||AA==A===|4 read, 1 written, invalid padding length at 4
base64|most|single check|=||0||||AA==AA==|4 read, 1 written, invalid padding length at 4
base64|most|single check|=|↵|0||||AA==↵A|4 read, 1 written, invalid padding length at 5
octal|most|check|| |0||||00100|0 read, 0 written, invalid length at 3
octal|most|check|| |0||||00000|3 read, 1 written, invalid length at 3
octal|most|check|| |0||||000 0|4 read, 1 written, invalid length at 4
octal|most|check|| |0|||| 00|0 read, 0 written, invalid length at 1
base64|most|check|=||76|←↵|||AAAA↵A|5 read, 3 written, invalid length at 5
base64|most|check||↵|0||||AAAA↵A|4 read, 3 written, invalid length at 5
base64|most|check|=||76|←↵|||SGVs←↵bG|4 read, 3 written, invalid length at 6
base64|most|check|=||76|←↵|||A↵===|0 read, 0 written, invalid padding length at 2
base64|most|check|=||76|←↵|||AAAA←↵AAAA←↵!AAA|10 read, 6 written, invalid symbol at 12
base64|most|check|=||76|←↵|||AAAA←↵AAAA←↵A=AA|10 read, 6 written, invalid symbol at 13
base64|most|check|=||76|←↵|||AAAA←↵AAAA←↵AA|10 read, 6 written, invalid length at 12
base64|most|check|=||76|←↵|||←↵←↵AAAA↵↵↵AAAA↵A!AA|15 read, 6 written, invalid symbol at 17
base64|most|check|=||76|←↵|||A↵AAA↵AAAA↵AA↵A!|10 read, 6 written, invalid symbol at 15
base64|most|check|=||76|←↵|||←↵AAAA←↵AAAA←↵AA==←↵←↵|7 in all
base64|most|single check|=|↵|0||||AAAA↵AA==↵↵A|9 read, 4 written, invalid padding length at 11
base64|most|single check|=|↵|0||||↵AAAA↵AAAA↵AA==↵↵|7 in all";

/// Texts that are decoded by decoders that continue from a state, and the fault of each.
const KEPT: &str = "\
base64|most|check|=||0||||Zm9vYmE=Zg==|
base64|most|check|=||0||||Zm9vYg==!|invalid length at 8
base64|most|check|=||0||||Zm9vYm!yZm9v|invalid symbol at 6
base64|most|check|=||0||||Zm9vYmF=Zm9v|non-zero trailing bits at 6
base64|most|check|=||0||||Zm9vY===Zm9v|invalid padding length at 5
base64|most|single check|=||0||||Zm9vYg==Zm9v|invalid padding length at 8
base64|most|single check|=|-|0||||Zm9v-Yg==Z---|invalid padding length at 9
base64|most|single check|=||0||||Zm9vY!==Zm9v|invalid symbol at 5
base64|most|check|=||76|←↵|||SGVs←↵bG8=←↵|
base64|most|check|=||76|←↵|||SGVs←↵b!8=←↵|invalid symbol at 7
base64|most|check|=||76|←↵|||SGVs←↵bG9=←↵SGVs|non-zero trailing bits at 8
base64|most|check|=||76|←↵|||SGVs←↵b===←↵SGVs|invalid padding length at 7
base64|most|check|=||76|←↵|||SGVs←↵SGVs←↵b!|invalid length at 12
base32|most|check|||0||||MZXW6YTBOI|
base32|most|check|||0||||MZXW6YTBO|invalid length at 8
base32|most|check|||0||||MZXW6YTBO!|invalid symbol at 9
base32|most|check|||0||||MZX!6YTBMZXW6YTB|invalid symbol at 3
base32|most|check|||0||||MZXW6YTBOJ|non-zero trailing bits at 9
base32|most|check||-|0||||M!------Z|invalid length at 8
octal|most|check|=|-|0||||22-06-44-==|
hex|most|check|||0||||48656c6c6f|";

/// A result for a text.
#[derive(Clone, Copy)]
enum Asked {
    Expected,
    Beginning,
    Kept,
}

/// The rows of each result.
const TABLES: [(Asked, &str); 3] = [
    (Asked::Expected, TEXTS),
    (Asked::Beginning, BEGINNINGS),
    (Asked::Kept, KEPT),
];

/// Returns the data or the fault of the oracle, as a row writes it.
fn show_oracle(alloc: Global, oracle: Oracle<'_>, text: &[u8]) -> Result<String, Fail> {
    let expected = oracle.decode(alloc, text)?;
    match expected.fault {
        None => Ok(show_bytes(alloc, &expected.bytes)?),
        Some(error) => Ok(error.to_string(alloc)?),
    }
}

/// Returns the lengths that `decode_mut` reads and writes, if each call matches the oracle.
fn show_compared(
    alloc: Global,
    comparison: &mut Comparison<'_>,
    text: &[u8],
) -> Result<String, Fail>
    requires limit { length text.now ≤ DECODE_LIMIT }
{
    match comparison.compare(text) {
        Ok(()) => show_decode_mut(alloc, comparison.encoding, text),
        Err(_) => Ok(String::from_str(alloc, "compared otherwise")?),
    }
}

/// Returns a result for a text of a few bytes.
fn show_row(
    alloc: Global,
    asked: Asked,
    specification: &Specification,
    text: &mut [u8],
) -> Result<String, Fail> {
    let encoding = specification.encoding()?;
    let oracle = Oracle::of(specification);
    let mut comparison = Comparison::new(alloc, &encoding, oracle, Tally::zero());
    match asked {
        Asked::Expected => show_oracle(alloc, oracle, text),
        Asked::Beginning if text.len() <= DECODE_LIMIT => show_compared(
            alloc,
            &mut comparison,
            text,
        ),
        Asked::Kept if text.len() <= 17 => decode_every_cut(alloc, &encoding, oracle, text),
        _ => Ok(String::from_str(alloc, "too long")?),
    }
}

/// Compares a result with a row.
fn compare_oracle_row(alloc: Global, asked: Asked, line: &str) -> Result<(), Fail> {
    let row = row_of(alloc, line)?;
    let mut text = bytes_of_field(alloc, row.input)?;
    let answer = show_row(alloc, asked, &row.specification, &mut text)?;
    compare_answer(alloc, line, answer.as_str(), row.want)
}

#[test]
fn oracle_matches_rows(rt: HostRuntime) -> Result<(), Fail> {
    for (asked, lines) in &TABLES {
        for line in lines.split('\n') {
            compare_oracle_row(rt.alloc(), *asked, line)?;
        }
    }
    Ok(())
}
