//! The encodings for programs in C: the exports choose an encoding, by its number or as plain data
//! of the caller, and call `data_encoding_calls`.
//!
//! No tool checks a caller in another language. So no export has a condition on lengths: each
//! checks every length, and returns a status.
//!
//! `include/data_encoding.h` states the conditions on pointers.
#![tactic(auto)]

mod custom;
mod decoder;
mod encoder;
mod names;
mod numbered;
mod properties;
