//! What the tests of the libraries share: rows of tables, an independent oracle, and comparisons
//! with it. Nothing here fails a test by itself.
#![tactic(auto)]

pub mod appending;
mod bits;
pub mod comparison;
pub mod oracle;
mod oracle_decoding;
pub mod pieces;
pub mod rows;
pub mod slow;
pub mod streams;
