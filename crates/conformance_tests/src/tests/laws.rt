//! The laws, the messages of faults, and data of many bytes.

use super::encoding::round_trips;
use conformance_support::rows::{bytes_of_length, row_of};
use data_encoding::laws::steps::pieces;
use data_encoding::laws::{
    canonical, join_decode, join_encode, join_fault, not_canonical, one_meaning, order, resume,
    round_trip, specification_again,
};
use data_encoding::{DecodeError, DecodeFault, DecodeKind};
use encoding_stream::StreamFault;
use std::alloc::{AllocError, Global};
use std::test::Fail;

/// Calls each law. A law has no effect.
fn call_laws() {
    specification_again();
    join_encode();
    round_trip();
    one_meaning();
    join_decode();
    canonical();
    not_canonical();
    join_fault();
    order();
    resume();
    pieces();
}

/// Returns the message of each fault.
fn print_faults(alloc: Global) -> Result<String, AllocError> {
    let kind = DecodeKind::Padding;
    let fault = DecodeFault::from(DecodeError { position: 7, kind });
    let memory = DecodeFault::OutOfMemory;
    let (read, write) = (StreamFault::Read, StreamFault::Write);
    let decode = StreamFault::Decode(DecodeError { position: 4, kind });
    let long = StreamFault::TooLong;
    format!(in alloc; "{fault}; {memory}; {read}; {write}; {decode}; {long}")
}

#[test]
fn fault_messages(rt: HostRuntime) -> Result<(), Fail> {
    let want = "invalid padding length at 7; out of memory; read failed; write failed; \
        invalid padding length at 4; input too long";
    assert_eq!(rt; print_faults(rt.alloc())?.as_str(), want);
    Ok(())
}

/// Returns `true` if the text of `count` bytes is decoded to these bytes.
fn round_trips_len(alloc: Global, count: usize) -> Result<bool, Fail> {
    let specification = row_of(alloc, "base64|most|check|||0||||")?.specification;
    let input = bytes_of_length(alloc, count)?;
    Ok(round_trips(alloc, &specification, &input))
}

#[test]
fn round_trip_many_bytes(rt: HostRuntime) -> Result<(), Fail> {
    call_laws();
    assert!(rt; round_trips_len(rt.alloc(), 20_000)?);
    Ok(())
}
