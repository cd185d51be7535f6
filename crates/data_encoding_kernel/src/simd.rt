//! SIMD code: eight groups, or sixteen symbols, per iteration.

pub mod compare;
pub mod decode;
pub mod encode;
pub mod padded_load;
