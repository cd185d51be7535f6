//! The meaning of the texts of a base encoding.
//!
//! The definitions are in `specs/`: `text_of` is the text of data, `Means` relates a text to the
//! data that it means, and `fault_of` is the fault of a text that means no data. The functions of
//! [`laws`] are theorems about them. The definitions use the types that this crate declares.
#![tactic(auto)]

pub mod encoding;
pub mod error;
pub mod laws;
pub mod limits;
pub mod refusal;
