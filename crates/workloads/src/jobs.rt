//! The jobs.

pub mod awkward;
pub mod calls;
pub mod mail;
pub mod own;
pub mod pieces;
pub mod streams;
pub mod tokens;
