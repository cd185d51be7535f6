//! Tests of the public calls of the libraries, and of the callers of `conformance`.
#![tactic(auto)]

#[cfg(test)]
mod tests;
