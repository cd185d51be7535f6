//! Reads, writes and flushes that fail once, and would succeed at a second attempt.

use super::answers::NAMES;
use super::*;

#[test]
fn an_interrupted_read_fails(rt: HostRuntime) -> Result<(), Fail> {
    for (words, input) in [("encode HEXLOWER", "Hello"), ("decode HEXLOWER", "48656")] {
        // Five bytes take four reads. The last one finds the end.
        for good_calls in 0..4usize {
            let mut reader = FakeReader::new(input.as_bytes(), 2);
            reader.good_calls = good_calls;
            let writer = FakeWriter::new(rt.alloc(), Failure::Nothing, 0)?;
            let got = outcome_of(rt.alloc(), words, reader, writer)?;
            assert!(rt;
                got.is_fault(3, "basecode: read failed\n"),
                "{words}, after {good_calls}"
            );
            assert!(rt;
                got.read_failed && !got.write_failed,
                "{words}, after {good_calls}"
            );
            assert_eq!(rt; got.reads, good_calls + 1);
        }
    }
    Ok(())
}

/// Returns `true` if a run ends at the failing call of its writer, after the given numbers of
/// writes and flushes, and `written` was written.
fn is_end(
    alloc: Global,
    (words, input): (&str, &str),
    failure: Failure,
    (writes, flushes): (usize, usize),
    written: &[u8],
) -> Result<bool, AllocError> {
    let writer = FakeWriter::new(alloc, failure, writes.saturating_sub(1))?;
    let reader = FakeReader::new(input.as_bytes(), 2);
    let got = outcome_of(alloc, words, reader, writer)?;
    Ok(
        got.status == 3
            && got.line.as_slice() == b"basecode: write failed\n".as_slice()
            && got.write_failed
            && !got.read_failed
            && got.writer.writes == writes
            && got.writer.flushes == flushes
            && got.writer.bytes.as_slice() == written,
    )
}

/// Returns `true` if each write of a run ends it if only that write fails. The writes before take
/// three bytes each.
fn each_write_ends(
    alloc: Global,
    run: (&str, &str),
    failure: Failure,
    answer: &[u8],
) -> Result<bool, AllocError> {
    let writes = answer.len().div_ceil(3);
    for good_writes in 0..writes {
        let written = &answer[..good_writes.saturating_mul(3).min(answer.len())];
        if !is_end(alloc, run, failure, (good_writes + 1, 0), written)? {
            return Ok(false);
        }
    }
    let writer = FakeWriter::new(alloc, failure, writes)?;
    let got = outcome_of(alloc, run.0, FakeReader::new(run.1.as_bytes(), 2), writer)?;
    Ok(got.status < 2 && !got.write_failed && got.writer.bytes.as_slice() == answer)
}

#[test]
fn each_interrupted_write_fails(rt: HostRuntime) -> Result<(), Fail> {
    let mime = "\
        SGVsbG8gSGVsbG8gSGVsbG8gSGVsbG8gSGVsbG8gSGVsbG8gSGVsbG8gSGVsbG8gSGVsbG8gSGVs\r\n\
        bG8=\r\n";
    let data = "Hello Hello Hello Hello Hello Hello Hello Hello Hello Hello";
    for (words, input, answer) in [
        ("encode HEXLOWER", "Hello", "48656c6c6f"),
        ("decode HEXLOWER", "48656c6c6f", "Hello"),
        ("encode BASE64_MIME", data, mime),
        ("decode BASE64_MIME", mime, data),
        ("decode HEXLOWER", "48656c6c6f4G", "Hello"),
        ("canonical BASE64", "Hello", "false\n"),
        ("list", "Hello", NAMES),
    ] {
        for failure in [Failure::Write, Failure::Take] {
            assert!(rt;
                each_write_ends(rt.alloc(), (words, input), failure, answer.as_bytes())?,
                "{words}, at {failure:?}"
            );
        }
    }
    Ok(())
}

#[test]
fn an_interrupted_flush_fails(rt: HostRuntime) -> Result<(), Fail> {
    for (run, writes, answer) in [
        (("encode HEXLOWER", "Hello"), 4, "48656c6c6f"),
        (("decode HEXLOWER", "48656c6c6f"), 2, "Hello"),
        (("canonical BASE64", "Hello"), 2, "false\n"),
        (("list", "Hello"), 85, NAMES),
    ] {
        assert!(rt;
            is_end(
                rt.alloc(),
                run,
                Failure::Flush,
                (writes, 1),
                answer.as_bytes()
            )?,
            "{}",
            run.0
        );
    }
    Ok(())
}

// The status shows the failed read, although the line about it can't be printed.
#[test]
fn a_failed_read_fails_unseen(rt: HostRuntime) -> Result<(), Fail> {
    let mut reader = FakeReader::new(b"Hello", 2);
    reader.good_calls = 1;
    let writer = FakeWriter::new(rt.alloc(), Failure::Nothing, 0)?;
    let faults = FakeWriter::new(rt.alloc(), Failure::Take, 0)?;
    let got = outcome_with(rt.alloc(), "encode HEXLOWER", reader, writer, faults)?;
    assert!(rt; got.status == 3 && got.line.is_empty());
    assert!(rt; got.read_failed && !got.write_failed && got.reads == 2);
    Ok(())
}

#[test]
fn an_interrupted_list_reads_nothing(rt: HostRuntime) -> Result<(), Fail> {
    let writer = FakeWriter::new(rt.alloc(), Failure::Write, 2)?;
    let got = outcome_of(rt.alloc(), "list", FakeReader::new(b"Hello", 2), writer)?;
    assert!(rt; got.status == 3 && got.reads == 0);
    Ok(())
}
