//! The forms of the predefined encodings, as `ValueTable::new` and `SymbolTable::new` find them for
//! their tables.
//!
//! The prover refuses a form that does not agree with its table.

use data_encoding_kernel::simd::decode::affine::PlainAffine;
use data_encoding_kernel::simd::encode::offset_alphabet::PlainOffsets;

// Hexadecimal: digits, and letters in lower case.
pub(super) const LOWER_FORM: PlainAffine = PlainAffine {
    symbols: [8, 72, 72, 72, 72, 72, 72, 8, 8, 8, 0, 0, 0, 0, 0, 0],
    deltas: [0, 0, 0, 208, 0, 0, 169, 0, 0, 0, 0, 0, 0, 0, 0, 0],
    shared: [0; 16],
    is_affine: true,
};

// Hexadecimal with letters in upper case.
pub(super) const UPPER_FORM: PlainAffine = PlainAffine {
    symbols: [8, 24, 24, 24, 24, 24, 24, 8, 8, 8, 0, 0, 0, 0, 0, 0],
    deltas: [0, 0, 0, 208, 201, 0, 0, 0, 0, 0, 0, 0, 0, 0, 0, 0],
    shared: [0; 16],
    is_affine: true,
};

// Hexadecimal with letters in either case.
pub(super) const EITHER_CASE_FORM: PlainAffine = PlainAffine {
    symbols: [8, 88, 88, 88, 88, 88, 88, 8, 8, 8, 0, 0, 0, 0, 0, 0],
    deltas: [0, 0, 0, 208, 201, 0, 169, 0, 0, 0, 0, 0, 0, 0, 0, 0],
    shared: [0; 16],
    is_affine: true,
};

// RFC 4648, section 6.
pub(super) const BASE32_FORM: PlainAffine = PlainAffine {
    symbols: [
        32, 48, 56, 56, 56, 56, 56, 56, 48, 48, 48, 16, 16, 16, 16, 16,
    ],
    deltas: [0, 0, 0, 232, 191, 191, 0, 0, 0, 0, 0, 0, 0, 0, 0, 0],
    shared: [0; 16],
    is_affine: true,
};

// The same in either case.
pub(super) const NOCASE_FORM: PlainAffine = PlainAffine {
    symbols: [
        160, 240, 248, 248, 248, 248, 248, 248, 240, 240, 240, 80, 80, 80, 80, 80,
    ],
    deltas: [0, 0, 0, 232, 191, 191, 159, 159, 0, 0, 0, 0, 0, 0, 0, 0],
    shared: [0; 16],
    is_affine: true,
};

// RFC 4648, section 7.
pub(super) const BASE32HEX_FORM: PlainAffine = PlainAffine {
    symbols: [
        40, 56, 56, 56, 56, 56, 56, 24, 24, 24, 16, 16, 16, 16, 16, 16,
    ],
    deltas: [0, 0, 0, 208, 201, 201, 0, 0, 0, 0, 0, 0, 0, 0, 0, 0],
    shared: [0; 16],
    is_affine: true,
};

// The same in either case.
pub(super) const DNSSEC_FORM: PlainAffine = PlainAffine {
    symbols: [
        168, 248, 248, 248, 248, 248, 248, 88, 88, 88, 80, 80, 80, 80, 80, 80,
    ],
    deltas: [0, 0, 0, 208, 201, 201, 169, 169, 0, 0, 0, 0, 0, 0, 0, 0],
    shared: [0; 16],
    is_affine: true,
};

// The same with digits and a letter that look like letters: the digits are in the shared row.
pub(super) const VISUAL_FORM: PlainAffine = PlainAffine {
    symbols: [
        40, 56, 56, 56, 56, 56, 56, 56, 56, 48, 48, 16, 80, 16, 16, 16,
    ],
    deltas: [0, 0, 0, 80, 191, 191, 156, 0, 0, 0, 0, 0, 0, 0, 0, 0],
    shared: [14, 8, 26, 27, 28, 29, 30, 31, 1, 0, 0, 0, 0, 0, 0, 0],
    is_affine: true,
};

// DNSCurve in either case: the letters from `b` to `n` are in the shared row.
pub(super) const DNSCURVE_FORM: PlainAffine = PlainAffine {
    symbols: [
        168, 168, 248, 248, 248, 168, 248, 248, 248, 168, 240, 80, 80, 80, 80, 0,
    ],
    deltas: [0, 0, 0, 208, 64, 197, 32, 165, 0, 0, 0, 0, 0, 0, 0, 0],
    shared: [0, 0, 10, 11, 12, 0, 13, 14, 15, 0, 16, 17, 18, 19, 20, 0],
    is_affine: true,
};

// RFC 4648, section 4: `+` and `/` are in the shared row.
pub(super) const BASE64_FORM: PlainAffine = PlainAffine {
    symbols: [
        168, 248, 248, 248, 248, 248, 248, 248, 248, 248, 240, 84, 80, 80, 80, 84,
    ],
    deltas: [0, 0, 96, 4, 191, 191, 185, 185, 0, 0, 0, 0, 0, 0, 0, 0],
    shared: [0, 0, 0, 0, 0, 0, 0, 0, 0, 0, 0, 62, 0, 0, 0, 63],
    is_affine: true,
};

// RFC 4648, section 5: the row of `P` to `Z` and `_` is the shared one.
pub(super) const BASE64URL_FORM: PlainAffine = PlainAffine {
    symbols: [
        168, 248, 248, 248, 248, 248, 248, 248, 248, 248, 240, 80, 80, 84, 80, 112,
    ],
    deltas: [0, 0, 17, 4, 191, 48, 185, 185, 0, 0, 0, 0, 0, 0, 0, 0],
    shared: [15, 16, 17, 18, 19, 20, 21, 22, 23, 24, 25, 0, 0, 0, 0, 63],
    is_affine: true,
};

// The symbols of RFC 4648, section 4: letters, digits, `+` and `/`.
pub(super) const BASE64_OFFSETS: PlainOffsets = PlainOffsets {
    last: [
        71, 71, 71, 71, 252, 252, 252, 252, 252, 252, 252, 252, 252, 252, 237, 240,
    ],
    bound: 26,
    first: 250,
    has_offsets: true,
};

// The symbols of RFC 4648, section 5, with `-` and `_`.
pub(super) const BASE64URL_OFFSETS: PlainOffsets = PlainOffsets {
    last: [
        71, 71, 71, 71, 252, 252, 252, 252, 252, 252, 252, 252, 252, 252, 239, 32,
    ],
    bound: 26,
    first: 250,
    has_offsets: true,
};
