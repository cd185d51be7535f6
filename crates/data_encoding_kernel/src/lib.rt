//! The inner loops of encoding and decoding: groups of bytes and of symbols.
//!
//! A loop takes a look-up table, a width and an order of bits. It handles one group in a word of 64
//! bits, or several groups in the lanes of SIMD vectors. It knows no encoding: its contract holds
//! for each base that encodes or decodes with the given table (`Writes`, `Reads`).
#![tactic(auto)]

pub mod bit_order;
pub mod copy;
pub mod decode;
pub mod encode;
pub mod group_size;
pub mod ignore;
pub mod platform;
pub mod simd;
pub mod symbol_table;
pub mod value_table;
pub mod words;
