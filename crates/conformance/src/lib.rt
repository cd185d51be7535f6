//! The promises of the libraries to their users: callers that are proved from public clauses only.
//!
//! The crates `conformance_tests` and `conformance_sweeps` have the tests of public calls.
#![tactic(auto)]

pub mod callers;
