//! The encodings of 16 symbols: hexadecimal.

ghost use Rattle.std.specs.Prelude.{◌≡◌, Ok};
ghost use Rattle.data_encoding_meaning.specs.specification.Fields.{base_of};
ghost use Rattle.data_encoding_meaning.specs.specification.Predefined.{hexlower_fields, hexlower_permissive_fields, hexupper_fields, hexupper_permissive_fields};

use crate::encoding::plain_encoding::PlainFields;
use crate::encoding::{Encoding, EncodingRef, INVALID};
use crate::specification::predefined::table_forms::{EITHER_CASE_FORM, LOWER_FORM, UPPER_FORM};
use data_encoding_kernel::simd::encode::offset_alphabet::PlainOffsets;
use data_encoding_kernel::symbol_table::SymbolTable;
use data_encoding_kernel::value_table::ValueTable;

// The letters mean the same in either case.
const EITHER_CASE: [u8; 256] = values![
    128, 128, 128, 128, 128, 128, 128, 128, 128, 128, 128, 128, 128, 128, 128, 128, 128, 128, 128,
    128, 128, 128, 128, 128, 128, 128, 128, 128, 128, 128, 128, 128, 128, 128, 128, 128, 128, 128,
    128, 128, 128, 128, 128, 128, 128, 128, 128, 128, 0, 1, 2, 3, 4, 5, 6, 7, 8, 9, 128, 128, 128,
    128, 128, 128, 128, 10, 11, 12, 13, 14, 15, 128, 128, 128, 128, 128, 128, 128, 128, 128, 128,
    128, 128, 128, 128, 128, 128, 128, 128, 128, 128, 128, 128, 128, 128, 128, 128, 10, 11, 12, 13,
    14, 15, 128, 128, 128, 128, 128, 128, 128, 128, 128, 128, 128, 128, 128, 128, 128, 128, 128,
    128, 128, 128, 128, 128, 128, 128, 128
];

static HEXLOWER: PlainFields = PlainFields {
    symbols: SymbolTable {
        entries: *b"0123456789abcdef0123456789abcdef0123456789abcdef0123456789abcdef\
            0123456789abcdef0123456789abcdef0123456789abcdef0123456789abcdef\
            0123456789abcdef0123456789abcdef0123456789abcdef0123456789abcdef\
            0123456789abcdef0123456789abcdef0123456789abcdef0123456789abcdef",
        form: PlainOffsets::NONE,
    },
    values: ValueTable {
        entries: values![
            128, 128, 128, 128, 128, 128, 128, 128, 128, 128, 128, 128, 128, 128, 128, 128, 128,
            128, 128, 128, 128, 128, 128, 128, 128, 128, 128, 128, 128, 128, 128, 128, 128, 128,
            128, 128, 128, 128, 128, 128, 128, 128, 128, 128, 128, 128, 128, 128, 0, 1, 2, 3, 4, 5,
            6, 7, 8, 9, 128, 128, 128, 128, 128, 128, 128, 128, 128, 128, 128, 128, 128, 128, 128,
            128, 128, 128, 128, 128, 128, 128, 128, 128, 128, 128, 128, 128, 128, 128, 128, 128,
            128, 128, 128, 128, 128, 128, 128, 10, 11, 12, 13, 14, 15, 128, 128, 128, 128, 128,
            128, 128, 128, 128, 128, 128, 128, 128, 128, 128, 128, 128, 128, 128, 128, 128, 128,
            128, 128, 128
        ],
        form: LOWER_FORM,
    },
    width: 4,
    least_significant_first: false,
    checks_trailing_bits: true,
    concatenates: true,
    padding: INVALID,
    ignores: false,
    column: 0,
};

static HEXLOWER_PERMISSIVE: PlainFields = PlainFields {
    values: ValueTable {
        entries: EITHER_CASE,
        form: EITHER_CASE_FORM,
    },
    ..HEXLOWER
};

static HEXUPPER: PlainFields = PlainFields {
    symbols: SymbolTable {
        entries: *b"0123456789ABCDEF0123456789ABCDEF0123456789ABCDEF0123456789ABCDEF\
            0123456789ABCDEF0123456789ABCDEF0123456789ABCDEF0123456789ABCDEF\
            0123456789ABCDEF0123456789ABCDEF0123456789ABCDEF0123456789ABCDEF\
            0123456789ABCDEF0123456789ABCDEF0123456789ABCDEF0123456789ABCDEF",
        form: PlainOffsets::NONE,
    },
    values: ValueTable {
        entries: values![
            128, 128, 128, 128, 128, 128, 128, 128, 128, 128, 128, 128, 128, 128, 128, 128, 128,
            128, 128, 128, 128, 128, 128, 128, 128, 128, 128, 128, 128, 128, 128, 128, 128, 128,
            128, 128, 128, 128, 128, 128, 128, 128, 128, 128, 128, 128, 128, 128, 0, 1, 2, 3, 4, 5,
            6, 7, 8, 9, 128, 128, 128, 128, 128, 128, 128, 10, 11, 12, 13, 14, 15, 128, 128, 128,
            128, 128, 128, 128, 128, 128, 128, 128, 128, 128, 128, 128, 128, 128, 128, 128, 128,
            128, 128, 128, 128, 128, 128, 128, 128, 128, 128, 128, 128, 128, 128, 128, 128, 128,
            128, 128, 128, 128, 128, 128, 128, 128, 128, 128, 128, 128, 128, 128, 128, 128, 128,
            128, 128, 128
        ],
        form: UPPER_FORM,
    },
    ..HEXLOWER
};

static HEXUPPER_PERMISSIVE: PlainFields = PlainFields {
    values: ValueTable {
        entries: EITHER_CASE,
        form: EITHER_CASE_FORM,
    },
    ..HEXUPPER
};

/// Returns hexadecimal with the letters `a` to `f`: RFC 4648, section 8, in lower case.
pub fn hexlower() -> Encoding
    ensures { base_of hexlower_fields ≡ Ok result }
{
    hexlower_ref().encoding()
}

/// Returns a reference to [`hexlower`].
#[inline(always)]
pub fn hexlower_ref() -> EncodingRef<'static>
    ensures { base_of hexlower_fields ≡ Ok result }
{
    EncodingRef {
        fields: &HEXLOWER,
        separator: b"",
    }
}

/// Returns hexadecimal with the letters `a` to `f`. Texts may have `A` to `F` in their place.
pub fn hexlower_permissive() -> Encoding
    ensures { base_of hexlower_permissive_fields ≡ Ok result }
{
    hexlower_permissive_ref().encoding()
}

/// Returns a reference to [`hexlower_permissive`].
#[inline(always)]
pub fn hexlower_permissive_ref() -> EncodingRef<'static>
    ensures { base_of hexlower_permissive_fields ≡ Ok result }
{
    EncodingRef {
        fields: &HEXLOWER_PERMISSIVE,
        separator: b"",
    }
}

/// Returns hexadecimal with the letters `A` to `F`: RFC 4648, section 8.
pub fn hexupper() -> Encoding
    ensures { base_of hexupper_fields ≡ Ok result }
{
    hexupper_ref().encoding()
}

/// Returns a reference to [`hexupper`].
#[inline(always)]
pub fn hexupper_ref() -> EncodingRef<'static>
    ensures { base_of hexupper_fields ≡ Ok result }
{
    EncodingRef {
        fields: &HEXUPPER,
        separator: b"",
    }
}

/// Returns hexadecimal with the letters `A` to `F`. Texts may have `a` to `f` in their place.
pub fn hexupper_permissive() -> Encoding
    ensures { base_of hexupper_permissive_fields ≡ Ok result }
{
    hexupper_permissive_ref().encoding()
}

/// Returns a reference to [`hexupper_permissive`].
#[inline(always)]
pub fn hexupper_permissive_ref() -> EncodingRef<'static>
    ensures { base_of hexupper_permissive_fields ≡ Ok result }
{
    EncodingRef {
        fields: &HEXUPPER_PERMISSIVE,
        separator: b"",
    }
}
