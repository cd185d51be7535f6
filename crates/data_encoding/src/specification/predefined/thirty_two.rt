//! The encodings of 32 symbols. Each checks the trailing bits.

ghost use Rattle.std.specs.Prelude.{◌≡◌, Ok};
ghost use Rattle.data_encoding_meaning.specs.specification.Fields.{base_of};
ghost use Rattle.data_encoding_meaning.specs.specification.Predefined.{base32_dnscurve_fields, base32_dnssec_fields, base32_fields, base32_nopad_fields, base32_nopad_nocase_fields, base32_nopad_visual_fields, base32hex_fields, base32hex_nopad_fields};

use crate::encoding::plain_encoding::PlainFields;
use crate::encoding::{Encoding, EncodingRef, INVALID};
use crate::specification::predefined::table_forms::{
    BASE32_FORM, BASE32HEX_FORM, DNSCURVE_FORM, DNSSEC_FORM, NOCASE_FORM, VISUAL_FORM,
};
use data_encoding_kernel::simd::encode::offset_alphabet::PlainOffsets;
use data_encoding_kernel::symbol_table::SymbolTable;
use data_encoding_kernel::value_table::ValueTable;

// The values of the symbols of RFC 4648, section 6, and the entry of `=`.
macro_rules! base32_values {
    ($padding:literal) => {
        values![
            128, 128, 128, 128, 128, 128, 128, 128, 128, 128, 128, 128, 128, 128, 128, 128,
            128, 128, 128, 128, 128, 128, 128, 128, 128, 128, 128, 128, 128, 128, 128, 128,
            128, 128, 128, 128, 128, 128, 128, 128, 128, 128, 128, 128, 128, 128, 128, 128,
            128, 128, 26, 27, 28, 29, 30, 31, 128, 128, 128, 128, 128, $padding, 128, 128,
            128, 0, 1, 2, 3, 4, 5, 6, 7, 8, 9, 10, 11, 12, 13, 14,
            15, 16, 17, 18, 19, 20, 21, 22, 23, 24, 25, 128, 128, 128, 128, 128,
            128, 128, 128, 128, 128, 128, 128, 128, 128, 128, 128, 128, 128, 128, 128, 128,
            128, 128, 128, 128, 128, 128, 128, 128, 128, 128, 128, 128, 128, 128, 128, 128
        ]
    };
}

// The values of the symbols of RFC 4648, section 7, and the entry of `=`.
macro_rules! base32hex_values {
    ($padding:literal) => {
        values![
            128, 128, 128, 128, 128, 128, 128, 128, 128, 128, 128, 128, 128, 128, 128, 128,
            128, 128, 128, 128, 128, 128, 128, 128, 128, 128, 128, 128, 128, 128, 128, 128,
            128, 128, 128, 128, 128, 128, 128, 128, 128, 128, 128, 128, 128, 128, 128, 128,
            0, 1, 2, 3, 4, 5, 6, 7, 8, 9, 128, 128, 128, $padding, 128, 128,
            128, 10, 11, 12, 13, 14, 15, 16, 17, 18, 19, 20, 21, 22, 23, 24,
            25, 26, 27, 28, 29, 30, 31, 128, 128, 128, 128, 128, 128, 128, 128, 128,
            128, 128, 128, 128, 128, 128, 128, 128, 128, 128, 128, 128, 128, 128, 128, 128,
            128, 128, 128, 128, 128, 128, 128, 128, 128, 128, 128, 128, 128, 128, 128, 128
        ]
    };
}

static BASE32_NOPAD: PlainFields = PlainFields {
    symbols: SymbolTable {
        entries: *b"ABCDEFGHIJKLMNOPQRSTUVWXYZ234567ABCDEFGHIJKLMNOPQRSTUVWXYZ234567\
            ABCDEFGHIJKLMNOPQRSTUVWXYZ234567ABCDEFGHIJKLMNOPQRSTUVWXYZ234567\
            ABCDEFGHIJKLMNOPQRSTUVWXYZ234567ABCDEFGHIJKLMNOPQRSTUVWXYZ234567\
            ABCDEFGHIJKLMNOPQRSTUVWXYZ234567ABCDEFGHIJKLMNOPQRSTUVWXYZ234567",
        form: PlainOffsets::NONE,
    },
    values: ValueTable {
        entries: base32_values!(128),
        form: BASE32_FORM,
    },
    width: 5,
    least_significant_first: false,
    checks_trailing_bits: true,
    concatenates: true,
    padding: INVALID,
    ignores: false,
    column: 0,
};

static BASE32: PlainFields = PlainFields {
    values: ValueTable {
        entries: base32_values!(130),
        form: BASE32_FORM,
    },
    padding: b'=',
    ..BASE32_NOPAD
};

static BASE32_NOPAD_NOCASE: PlainFields = PlainFields {
    values: ValueTable {
        entries: values![
            128, 128, 128, 128, 128, 128, 128, 128, 128, 128, 128, 128, 128, 128, 128, 128, 128,
            128, 128, 128, 128, 128, 128, 128, 128, 128, 128, 128, 128, 128, 128, 128, 128, 128,
            128, 128, 128, 128, 128, 128, 128, 128, 128, 128, 128, 128, 128, 128, 128, 128, 26, 27,
            28, 29, 30, 31, 128, 128, 128, 128, 128, 128, 128, 128, 128, 0, 1, 2, 3, 4, 5, 6, 7, 8,
            9, 10, 11, 12, 13, 14, 15, 16, 17, 18, 19, 20, 21, 22, 23, 24, 25, 128, 128, 128, 128,
            128, 128, 0, 1, 2, 3, 4, 5, 6, 7, 8, 9, 10, 11, 12, 13, 14, 15, 16, 17, 18, 19, 20, 21,
            22, 23, 24, 25, 128, 128, 128, 128, 128
        ],
        form: NOCASE_FORM,
    },
    ..BASE32_NOPAD
};

static BASE32_NOPAD_VISUAL: PlainFields = PlainFields {
    values: ValueTable {
        entries: values![
            128, 128, 128, 128, 128, 128, 128, 128, 128, 128, 128, 128, 128, 128, 128, 128, 128,
            128, 128, 128, 128, 128, 128, 128, 128, 128, 128, 128, 128, 128, 128, 128, 128, 128,
            128, 128, 128, 128, 128, 128, 128, 128, 128, 128, 128, 128, 128, 128, 14, 8, 26, 27,
            28, 29, 30, 31, 1, 128, 128, 128, 128, 128, 128, 128, 128, 0, 1, 2, 3, 4, 5, 6, 7, 8,
            9, 10, 11, 12, 13, 14, 15, 16, 17, 18, 19, 20, 21, 22, 23, 24, 25, 128, 128, 128, 128,
            128, 128, 128, 128, 128, 128, 128, 128, 128, 128, 128, 128, 128, 8, 128, 128, 128, 128,
            128, 128, 128, 128, 128, 128, 128, 128, 128, 128, 128, 128, 128, 128, 128
        ],
        form: VISUAL_FORM,
    },
    ..BASE32_NOPAD
};

static BASE32HEX_NOPAD: PlainFields = PlainFields {
    symbols: SymbolTable {
        entries: *b"0123456789ABCDEFGHIJKLMNOPQRSTUV0123456789ABCDEFGHIJKLMNOPQRSTUV\
            0123456789ABCDEFGHIJKLMNOPQRSTUV0123456789ABCDEFGHIJKLMNOPQRSTUV\
            0123456789ABCDEFGHIJKLMNOPQRSTUV0123456789ABCDEFGHIJKLMNOPQRSTUV\
            0123456789ABCDEFGHIJKLMNOPQRSTUV0123456789ABCDEFGHIJKLMNOPQRSTUV",
        form: PlainOffsets::NONE,
    },
    values: ValueTable {
        entries: base32hex_values!(128),
        form: BASE32HEX_FORM,
    },
    ..BASE32_NOPAD
};

static BASE32HEX: PlainFields = PlainFields {
    values: ValueTable {
        entries: base32hex_values!(130),
        form: BASE32HEX_FORM,
    },
    padding: b'=',
    ..BASE32HEX_NOPAD
};

static BASE32_DNSSEC: PlainFields = PlainFields {
    symbols: SymbolTable {
        entries: *b"0123456789abcdefghijklmnopqrstuv0123456789abcdefghijklmnopqrstuv\
            0123456789abcdefghijklmnopqrstuv0123456789abcdefghijklmnopqrstuv\
            0123456789abcdefghijklmnopqrstuv0123456789abcdefghijklmnopqrstuv\
            0123456789abcdefghijklmnopqrstuv0123456789abcdefghijklmnopqrstuv",
        form: PlainOffsets::NONE,
    },
    values: ValueTable {
        entries: values![
            128, 128, 128, 128, 128, 128, 128, 128, 128, 128, 128, 128, 128, 128, 128, 128, 128,
            128, 128, 128, 128, 128, 128, 128, 128, 128, 128, 128, 128, 128, 128, 128, 128, 128,
            128, 128, 128, 128, 128, 128, 128, 128, 128, 128, 128, 128, 128, 128, 0, 1, 2, 3, 4, 5,
            6, 7, 8, 9, 128, 128, 128, 128, 128, 128, 128, 10, 11, 12, 13, 14, 15, 16, 17, 18, 19,
            20, 21, 22, 23, 24, 25, 26, 27, 28, 29, 30, 31, 128, 128, 128, 128, 128, 128, 128, 128,
            128, 128, 10, 11, 12, 13, 14, 15, 16, 17, 18, 19, 20, 21, 22, 23, 24, 25, 26, 27, 28,
            29, 30, 31, 128, 128, 128, 128, 128, 128, 128, 128, 128
        ],
        form: DNSSEC_FORM,
    },
    ..BASE32_NOPAD
};

static BASE32_DNSCURVE: PlainFields = PlainFields {
    symbols: SymbolTable {
        entries: *b"0123456789bcdfghjklmnpqrstuvwxyz0123456789bcdfghjklmnpqrstuvwxyz\
            0123456789bcdfghjklmnpqrstuvwxyz0123456789bcdfghjklmnpqrstuvwxyz\
            0123456789bcdfghjklmnpqrstuvwxyz0123456789bcdfghjklmnpqrstuvwxyz\
            0123456789bcdfghjklmnpqrstuvwxyz0123456789bcdfghjklmnpqrstuvwxyz",
        form: PlainOffsets::NONE,
    },
    values: ValueTable {
        entries: values![
            128, 128, 128, 128, 128, 128, 128, 128, 128, 128, 128, 128, 128, 128, 128, 128, 128,
            128, 128, 128, 128, 128, 128, 128, 128, 128, 128, 128, 128, 128, 128, 128, 128, 128,
            128, 128, 128, 128, 128, 128, 128, 128, 128, 128, 128, 128, 128, 128, 0, 1, 2, 3, 4, 5,
            6, 7, 8, 9, 128, 128, 128, 128, 128, 128, 128, 128, 10, 11, 12, 128, 13, 14, 15, 128,
            16, 17, 18, 19, 20, 128, 21, 22, 23, 24, 25, 26, 27, 28, 29, 30, 31, 128, 128, 128,
            128, 128, 128, 128, 10, 11, 12, 128, 13, 14, 15, 128, 16, 17, 18, 19, 20, 128, 21, 22,
            23, 24, 25, 26, 27, 28, 29, 30, 31, 128, 128, 128, 128, 128
        ],
        form: DNSCURVE_FORM,
    },
    least_significant_first: true,
    ..BASE32_NOPAD
};

/// Returns base32 with the letters `A` to `Z` and the digits `2` to `7`, padded with `=`: RFC 4648,
/// section 6.
pub fn base32() -> Encoding
    ensures { base_of base32_fields ≡ Ok result }
{
    base32_ref().encoding()
}

/// Returns a reference to [`base32`].
#[inline(always)]
pub fn base32_ref() -> EncodingRef<'static>
    ensures { base_of base32_fields ≡ Ok result }
{
    EncodingRef {
        fields: &BASE32,
        separator: b"",
    }
}

/// Returns [`base32`] without padding.
pub fn base32_nopad() -> Encoding
    ensures { base_of base32_nopad_fields ≡ Ok result }
{
    base32_nopad_ref().encoding()
}

/// Returns a reference to [`base32_nopad`].
#[inline(always)]
pub fn base32_nopad_ref() -> EncodingRef<'static>
    ensures { base_of base32_nopad_fields ≡ Ok result }
{
    EncodingRef {
        fields: &BASE32_NOPAD,
        separator: b"",
    }
}

/// Returns [`base32_nopad`]. Texts may have `a` to `z` in place of `A` to `Z`.
pub fn base32_nopad_nocase() -> Encoding
    ensures { base_of base32_nopad_nocase_fields ≡ Ok result }
{
    base32_nopad_nocase_ref().encoding()
}

/// Returns a reference to [`base32_nopad_nocase`].
#[inline(always)]
pub fn base32_nopad_nocase_ref() -> EncodingRef<'static>
    ensures { base_of base32_nopad_nocase_fields ≡ Ok result }
{
    EncodingRef {
        fields: &BASE32_NOPAD_NOCASE,
        separator: b"",
    }
}

/// Returns [`base32_nopad`]. Texts may have similar characters in place of symbols: `0` decodes as
/// `O`, `1` and `l` as `I`, and `8` as `B`.
pub fn base32_nopad_visual() -> Encoding
    ensures { base_of base32_nopad_visual_fields ≡ Ok result }
{
    base32_nopad_visual_ref().encoding()
}

/// Returns a reference to [`base32_nopad_visual`].
#[inline(always)]
pub fn base32_nopad_visual_ref() -> EncodingRef<'static>
    ensures { base_of base32_nopad_visual_fields ≡ Ok result }
{
    EncodingRef {
        fields: &BASE32_NOPAD_VISUAL,
        separator: b"",
    }
}

/// Returns base32 with the digits, followed by the letters `A` to `V`, padded with `=`: RFC 4648,
/// section 7.
pub fn base32hex() -> Encoding
    ensures { base_of base32hex_fields ≡ Ok result }
{
    base32hex_ref().encoding()
}

/// Returns a reference to [`base32hex`].
#[inline(always)]
pub fn base32hex_ref() -> EncodingRef<'static>
    ensures { base_of base32hex_fields ≡ Ok result }
{
    EncodingRef {
        fields: &BASE32HEX,
        separator: b"",
    }
}

/// Returns [`base32hex`] without padding.
pub fn base32hex_nopad() -> Encoding
    ensures { base_of base32hex_nopad_fields ≡ Ok result }
{
    base32hex_nopad_ref().encoding()
}

/// Returns a reference to [`base32hex_nopad`].
#[inline(always)]
pub fn base32hex_nopad_ref() -> EncodingRef<'static>
    ensures { base_of base32hex_nopad_fields ≡ Ok result }
{
    EncodingRef {
        fields: &BASE32HEX_NOPAD,
        separator: b"",
    }
}

/// Returns [`base32hex_nopad`] with the letters `a` to `v`: the base32 of RFC 5155 (DNSSEC), in
/// lower case.
///
/// Texts may have `A` to `V` in place of the letters.
pub fn base32_dnssec() -> Encoding
    ensures { base_of base32_dnssec_fields ≡ Ok result }
{
    base32_dnssec_ref().encoding()
}

/// Returns a reference to [`base32_dnssec`].
#[inline(always)]
pub fn base32_dnssec_ref() -> EncodingRef<'static>
    ensures { base_of base32_dnssec_fields ≡ Ok result }
{
    EncodingRef {
        fields: &BASE32_DNSSEC,
        separator: b"",
    }
}

/// Returns the base32 of DNSCurve: the bit of weight 1 first, without padding.
///
/// The symbols are the digits, followed by the lower-case letters except `a`, `e`, `i` and `o`.
/// Texts may have upper-case letters in their place.
pub fn base32_dnscurve() -> Encoding
    ensures { base_of base32_dnscurve_fields ≡ Ok result }
{
    base32_dnscurve_ref().encoding()
}

/// Returns a reference to [`base32_dnscurve`].
#[inline(always)]
pub fn base32_dnscurve_ref() -> EncodingRef<'static>
    ensures { base_of base32_dnscurve_fields ≡ Ok result }
{
    EncodingRef {
        fields: &BASE32_DNSCURVE,
        separator: b"",
    }
}
