//! Faults of texts: their kinds and their positions.

pub use data_encoding_meaning::error::{
    DecodeError, DecodeFault, DecodeKind, DecodePartial, GroupFault,
};
