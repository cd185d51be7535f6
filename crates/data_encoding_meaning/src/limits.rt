//! The limits on the length of data and of text in one call.

/// The greatest length of data that is encoded in one call, in bytes.
pub const ENCODE_LIMIT: usize = usize::MAX / 512;

const _: () = prove!(ENCODE_LIMIT == 36028797018963967);

/// The greatest length of a text that is decoded in one call, in bytes.
pub const DECODE_LIMIT: usize = usize::MAX / 8;

const _: () = prove!(DECODE_LIMIT == 2305843009213693951);
