//! Sweeps over short texts and short data, for every width and both orders.

use super::each_column::compare_lines;
use super::each_length::compare_each_length;
use super::ignored::{compare_faults, compare_ignored, compare_ignored_pairs};
use super::lanes_decoded::{compare_few_groups, compare_many_groups};
use super::lanes_encoded::{compare_counted, compare_equal_bytes};
use super::lines_decoded::compare_many_lines;
use super::long_texts::compare_long;
use super::mixed::{compare_mixed, compare_mixed_faults};
use super::round_trips::{compare_in_lines, compare_short};
use super::short_texts::{compare_bytes, compare_symbols};
use super::stream_ends::{Calls, compare_ends, compare_streams, ends_at_short_flush};
use super::sweep_tables::{
    BASES, COLUMNS, DATA_PIECES, EACH_LENGTH, GROUPS, IN_LINES, LONG, MANY_LINES, MIXED, PADDED,
    STREAMS, UNCHECKED,
};
use conformance_support::appending::compare_data_pieces;
use conformance_support::comparison::{Comparison, Differs, Tally};
use conformance_support::oracle::Oracle;
use conformance_support::rows::{put_separator, row_of};
use data_encoding::Specification;
use std::alloc::Global;
use std::test::Fail;

/// A comparison. Lines have a number of groups and a separator.
#[derive(Clone, Copy)]
enum Sweep {
    Bytes,
    Symbols,
    SymbolsIgnoring,
    Pairs,
    Ignored,
    Faults,
    Short,
    Long,
    Mixed,
    MixedFaults,
    Lines(usize, &'static str),
    Columns(usize, &'static str),
    ManyLines,
    DataPieces,
    EachLength,
    FewGroups,
    ManyGroups,
    Counted,
    CountedUnwrapped,
    EqualBytes,
    Streams,
    Ends(Calls),
}

/// Returns the specification of a row, as a sweep changes it.
fn specification_of(alloc: Global, line: &str, sweep: Sweep) -> Result<Specification, Fail> {
    let mut specification = row_of(alloc, line)?.specification;
    match sweep {
        Sweep::SymbolsIgnoring
        | Sweep::Pairs
        | Sweep::Ignored
        | Sweep::Faults
        | Sweep::Mixed
        | Sweep::MixedFaults => specification.ignore.push('-')?,
        Sweep::CountedUnwrapped | Sweep::EqualBytes => specification.wrap.width = 0,
        Sweep::Lines(groups, separator) | Sweep::Columns(groups, separator) => {
            specification.wrap.width = Oracle::of(&specification).group_len().wrapping_mul(groups);
            put_separator(&mut specification, separator)?;
        }
        _ => {}
    }
    Ok(specification)
}

/// Runs a sweep for one encoding.
fn run_sweep(comparison: &mut Comparison<'_>, sweep: Sweep) -> Result<(), Differs> {
    match sweep {
        Sweep::Bytes => compare_bytes(comparison),
        Sweep::Symbols | Sweep::SymbolsIgnoring => compare_symbols(comparison),
        Sweep::Pairs => compare_ignored_pairs(comparison),
        Sweep::Ignored => compare_ignored(comparison),
        Sweep::Faults => compare_faults(comparison),
        Sweep::Short => compare_short(comparison),
        Sweep::Long => compare_long(comparison),
        Sweep::Mixed => compare_mixed(comparison),
        Sweep::MixedFaults => compare_mixed_faults(comparison),
        Sweep::Lines(_, _) => compare_in_lines(comparison),
        Sweep::Columns(_, _) => compare_lines(comparison),
        Sweep::ManyLines => compare_many_lines(comparison),
        Sweep::DataPieces => compare_data_pieces(comparison),
        Sweep::EachLength => compare_each_length(comparison),
        Sweep::FewGroups => compare_few_groups(comparison),
        Sweep::ManyGroups => compare_many_groups(comparison),
        Sweep::Counted | Sweep::CountedUnwrapped => compare_counted(comparison),
        Sweep::EqualBytes => compare_equal_bytes(comparison),
        Sweep::Streams => compare_streams(comparison),
        Sweep::Ends(calls) => compare_ends(comparison, calls),
    }
}

/// Runs a sweep for a row. A failure names the row.
fn sweep_row(alloc: Global, line: &str, sweep: Sweep, tally: Tally) -> Result<Tally, Fail> {
    let specification = specification_of(alloc, line, sweep)?;
    let encoding = specification.encoding()?;
    let oracle = Oracle::of(&specification);
    let mut comparison = Comparison::new(alloc, &encoding, oracle, tally);
    match run_sweep(&mut comparison, sweep) {
        Ok(()) => Ok(comparison.tally),
        Err(_) => Err(Fail::new(line)),
    }
}

/// Runs a sweep for each row of some tables.
fn sweep_rows(
    alloc: Global,
    tables: &[&str],
    sweep: Sweep,
    mut tally: Tally,
) -> Result<Tally, Fail> {
    for lines in tables {
        for line in lines.split('\n') {
            tally = sweep_row(alloc, line, sweep, tally)?;
        }
    }
    Ok(tally)
}

/// Returns the numbers of comparisons of a sweep over all rows.
fn sweep_counts(alloc: Global, sweep: Sweep) -> Result<(usize, usize, usize), Fail> {
    let tally = sweep_rows(alloc, &[BASES, UNCHECKED, PADDED], sweep, Tally::zero())?;
    Ok((tally.texts, tally.decodings, tally.resumed))
}

#[test]
fn short_texts_match_oracle(rt: HostRuntime) -> Result<(), Fail> {
    let counts = sweep_counts(rt.alloc(), Sweep::Bytes)?;
    assert_eq!(rt; counts, (835_380, 12_252_240, 1_697_244));
    Ok(())
}

#[test]
fn padded_texts_match_oracle(rt: HostRuntime) -> Result<(), Fail> {
    let counts = sweep_counts(rt.alloc(), Sweep::Symbols)?;
    assert_eq!(rt; counts, (351_900, 6_176_538, 936_930));
    Ok(())
}

/// Tests texts without the ignored byte.
///
/// They are read in another way if a byte is ignored.
#[test]
fn texts_without_ignored_byte_match_oracle(rt: HostRuntime) -> Result<(), Fail> {
    let (texts, _, _) = sweep_counts(rt.alloc(), Sweep::SymbolsIgnoring)?;
    assert_eq!(rt; texts, 351_900);
    Ok(())
}

#[test]
fn pairs_with_ignored_byte_match_oracle(rt: HostRuntime) -> Result<(), Fail> {
    let tally = sweep_rows(rt.alloc(), &[PADDED], Sweep::Pairs, Tally::zero())?;
    let counts = (tally.texts, tally.decodings, tally.resumed);
    assert_eq!(rt; counts, (71_496, 1_386_720, 1_159_344));
    Ok(())
}

#[test]
fn texts_with_ignored_bytes_match_oracle(rt: HostRuntime) -> Result<(), Fail> {
    let counts = sweep_counts(rt.alloc(), Sweep::Ignored)?;
    assert_eq!(rt; counts, (255_618, 2_848_182, 2_251_488));
    Ok(())
}

#[test]
fn faults_beside_ignored_byte_match_oracle(rt: HostRuntime) -> Result<(), Fail> {
    let counts = sweep_counts(rt.alloc(), Sweep::Faults)?;
    assert_eq!(rt; counts, (1_448_396, 23_389_576, 19_184_136));
    Ok(())
}

#[test]
fn round_trip_short_data(rt: HostRuntime) -> Result<(), Fail> {
    let tally = sweep_rows(rt.alloc(), &[BASES], Sweep::Short, Tally::zero())?;
    assert_eq!(rt; (tally.texts, tally.decodings), (921_088, 8_739_072));
    Ok(())
}

/// Returns the numbers of comparisons of a sweep over lines.
fn sweep_line_counts(alloc: Global) -> Result<(usize, usize), Fail> {
    let mut tally = Tally::zero();
    for separator in ["-", "←↵", "dashes"] {
        for groups in [1, 2] {
            let lines = Sweep::Lines(groups, separator);
            tally = sweep_rows(alloc, &[BASES, UNCHECKED, PADDED], lines, tally)?;
        }
    }
    Ok((tally.texts, tally.decodings))
}

#[test]
fn round_trip_lines(rt: HostRuntime) -> Result<(), Fail> {
    assert_eq!(rt; sweep_line_counts(rt.alloc())?, (4_230, 822_330));
    Ok(())
}

/// Runs a sweep over lines of each length that ends with a group.
fn sweep_columns(alloc: Global, separator: &'static str) -> Result<(), Fail> {
    for line in COLUMNS.split('\n') {
        let specification = row_of(alloc, line)?.specification;
        let most = 255 / Oracle::of(&specification).group_len();
        for groups in 1..=most {
            let columns = Sweep::Columns(groups, separator);
            sweep_row(alloc, line, columns, Tally::zero())?;
        }
    }
    Ok(())
}

#[test]
fn round_trip_every_line_length(rt: HostRuntime) -> Result<(), Fail> {
    for separator in ["-", "←↵", "~-~", "-~-~-~~--~-~~--~", "dashes"] {
        sweep_columns(rt.alloc(), separator)?;
    }
    Ok(())
}

#[test]
fn many_lines_match_oracle(rt: HostRuntime) -> Result<(), Fail> {
    sweep_rows(rt.alloc(), &[MANY_LINES], Sweep::ManyLines, Tally::zero())?;
    Ok(())
}

#[test]
fn pieces_of_long_texts_match_oracle(rt: HostRuntime) -> Result<(), Fail> {
    sweep_rows(rt.alloc(), &[LONG], Sweep::Long, Tally::zero())?;
    Ok(())
}

#[test]
fn scattered_ignored_bytes_match_oracle(rt: HostRuntime) -> Result<(), Fail> {
    sweep_rows(rt.alloc(), &[MIXED], Sweep::Mixed, Tally::zero())?;
    Ok(())
}

#[test]
fn faults_among_ignored_bytes_match_oracle(rt: HostRuntime) -> Result<(), Fail> {
    sweep_rows(rt.alloc(), &[MIXED], Sweep::MixedFaults, Tally::zero())?;
    Ok(())
}

#[test]
fn data_pieces_match_whole(rt: HostRuntime) -> Result<(), Fail> {
    sweep_rows(rt.alloc(), &[DATA_PIECES], Sweep::DataPieces, Tally::zero())?;
    Ok(())
}

#[test]
fn round_trip_every_length(rt: HostRuntime) -> Result<(), Fail> {
    sweep_rows(rt.alloc(), &[EACH_LENGTH], Sweep::EachLength, Tally::zero())?;
    Ok(())
}

#[test]
fn damaged_groups_match_oracle(rt: HostRuntime) -> Result<(), Fail> {
    sweep_rows(rt.alloc(), &[GROUPS], Sweep::FewGroups, Tally::zero())?;
    Ok(())
}

#[test]
fn damaged_groups_of_long_texts_match_oracle(rt: HostRuntime) -> Result<(), Fail> {
    sweep_rows(rt.alloc(), &[GROUPS], Sweep::ManyGroups, Tally::zero())?;
    Ok(())
}

#[test]
fn lanes_encode_every_length(rt: HostRuntime) -> Result<(), Fail> {
    sweep_rows(rt.alloc(), &[IN_LINES], Sweep::Counted, Tally::zero())?;
    sweep_rows(
        rt.alloc(),
        &[IN_LINES],
        Sweep::CountedUnwrapped,
        Tally::zero(),
    )?;
    Ok(())
}

#[test]
fn lanes_encode_zeros_and_ones(rt: HostRuntime) -> Result<(), Fail> {
    sweep_rows(rt.alloc(), &[IN_LINES], Sweep::EqualBytes, Tally::zero())?;
    Ok(())
}

#[test]
fn streams_match_encode(rt: HostRuntime) -> Result<(), Fail> {
    sweep_rows(rt.alloc(), &[STREAMS], Sweep::Streams, Tally::zero())?;
    Ok(())
}

/// The numbers of reads and writes of the streams of each row.
const ENDS: [(&str, Calls); 3] = [
    (
        "hex|most|check|||0||||",
        Calls {
            encode: (62, 122),
            decode: (62, 31),
        },
    ),
    (
        "base32|most|check|=||0||||",
        Calls {
            encode: (62, 97),
            decode: (50, 31),
        },
    ),
    (
        "base64|most|check|=||76|←↵|||",
        Calls {
            encode: (62, 83),
            decode: (43, 31),
        },
    ),
];

#[test]
fn stream_ends_at_failed_call(rt: HostRuntime) -> Result<(), Fail> {
    for (line, calls) in &ENDS {
        sweep_row(rt.alloc(), line, Sweep::Ends(*calls), Tally::zero())?;
    }
    assert!(rt; ends_at_short_flush(rt.alloc()));
    Ok(())
}
