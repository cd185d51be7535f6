//! The encodings of 64 symbols.

ghost use Rattle.std.specs.Prelude.{◌≡◌, Ok};
ghost use Rattle.data_encoding_meaning.specs.specification.Fields.{base_of};
ghost use Rattle.data_encoding_meaning.specs.specification.Predefined.{base64_fields, base64_mime_fields, base64_mime_permissive_fields, base64_nopad_fields, base64url_fields, base64url_nopad_fields};

use crate::encoding::plain_encoding::PlainFields;
use crate::encoding::{Encoding, EncodingRef, INVALID};
use crate::specification::predefined::table_forms::{
    BASE64_FORM, BASE64_OFFSETS, BASE64URL_FORM, BASE64URL_OFFSETS,
};
use data_encoding_kernel::symbol_table::SymbolTable;
use data_encoding_kernel::value_table::ValueTable;

// The values of the symbols of RFC 4648, section 4, and the entries of CR and LF and of `=`.
macro_rules! base64_values {
    ($line:literal, $padding:literal) => {
        values![
            128, 128, 128, 128, 128, 128, 128, 128, 128, 128, $line, 128, 128, $line, 128, 128,
            128, 128, 128, 128, 128, 128, 128, 128, 128, 128, 128, 128, 128, 128, 128, 128,
            128, 128, 128, 128, 128, 128, 128, 128, 128, 128, 128, 62, 128, 128, 128, 63,
            52, 53, 54, 55, 56, 57, 58, 59, 60, 61, 128, 128, 128, $padding, 128, 128,
            128, 0, 1, 2, 3, 4, 5, 6, 7, 8, 9, 10, 11, 12, 13, 14,
            15, 16, 17, 18, 19, 20, 21, 22, 23, 24, 25, 128, 128, 128, 128, 128,
            128, 26, 27, 28, 29, 30, 31, 32, 33, 34, 35, 36, 37, 38, 39, 40,
            41, 42, 43, 44, 45, 46, 47, 48, 49, 50, 51, 128, 128, 128, 128, 128
        ]
    };
}

// The values of the symbols of RFC 4648, section 5, and the entry of `=`.
macro_rules! base64url_values {
    ($padding:literal) => {
        values![
            128, 128, 128, 128, 128, 128, 128, 128, 128, 128, 128, 128, 128, 128, 128, 128,
            128, 128, 128, 128, 128, 128, 128, 128, 128, 128, 128, 128, 128, 128, 128, 128,
            128, 128, 128, 128, 128, 128, 128, 128, 128, 128, 128, 128, 128, 62, 128, 128,
            52, 53, 54, 55, 56, 57, 58, 59, 60, 61, 128, 128, 128, $padding, 128, 128,
            128, 0, 1, 2, 3, 4, 5, 6, 7, 8, 9, 10, 11, 12, 13, 14,
            15, 16, 17, 18, 19, 20, 21, 22, 23, 24, 25, 128, 128, 128, 128, 63,
            128, 26, 27, 28, 29, 30, 31, 32, 33, 34, 35, 36, 37, 38, 39, 40,
            41, 42, 43, 44, 45, 46, 47, 48, 49, 50, 51, 128, 128, 128, 128, 128
        ]
    };
}

static BASE64_NOPAD: PlainFields = PlainFields {
    symbols: SymbolTable {
        entries: *b"ABCDEFGHIJKLMNOPQRSTUVWXYZabcdefghijklmnopqrstuvwxyz0123456789+/\
            ABCDEFGHIJKLMNOPQRSTUVWXYZabcdefghijklmnopqrstuvwxyz0123456789+/\
            ABCDEFGHIJKLMNOPQRSTUVWXYZabcdefghijklmnopqrstuvwxyz0123456789+/\
            ABCDEFGHIJKLMNOPQRSTUVWXYZabcdefghijklmnopqrstuvwxyz0123456789+/",
        form: BASE64_OFFSETS,
    },
    values: ValueTable {
        entries: base64_values!(128, 128),
        form: BASE64_FORM,
    },
    width: 6,
    least_significant_first: false,
    checks_trailing_bits: true,
    concatenates: true,
    padding: INVALID,
    ignores: false,
    column: 0,
};

static BASE64: PlainFields = PlainFields {
    values: ValueTable {
        entries: base64_values!(128, 130),
        form: BASE64_FORM,
    },
    padding: b'=',
    ..BASE64_NOPAD
};

static BASE64_MIME: PlainFields = PlainFields {
    values: ValueTable {
        entries: base64_values!(129, 130),
        form: BASE64_FORM,
    },
    ignores: true,
    column: 76,
    ..BASE64
};

static BASE64_MIME_PERMISSIVE: PlainFields = PlainFields {
    checks_trailing_bits: false,
    ..BASE64_MIME
};

static BASE64URL_NOPAD: PlainFields = PlainFields {
    symbols: SymbolTable {
        entries: *b"ABCDEFGHIJKLMNOPQRSTUVWXYZabcdefghijklmnopqrstuvwxyz0123456789-_\
            ABCDEFGHIJKLMNOPQRSTUVWXYZabcdefghijklmnopqrstuvwxyz0123456789-_\
            ABCDEFGHIJKLMNOPQRSTUVWXYZabcdefghijklmnopqrstuvwxyz0123456789-_\
            ABCDEFGHIJKLMNOPQRSTUVWXYZabcdefghijklmnopqrstuvwxyz0123456789-_",
        form: BASE64URL_OFFSETS,
    },
    values: ValueTable {
        entries: base64url_values!(128),
        form: BASE64URL_FORM,
    },
    ..BASE64_NOPAD
};

static BASE64URL: PlainFields = PlainFields {
    values: ValueTable {
        entries: base64url_values!(130),
        form: BASE64URL_FORM,
    },
    padding: b'=',
    ..BASE64URL_NOPAD
};

/// Returns base64 with the letters `A` to `Z` and `a` to `z`, the digits, `+` and `/`, padded with
/// `=`: RFC 4648, section 4.
pub fn base64() -> Encoding
    ensures { base_of base64_fields ≡ Ok result }
{
    base64_ref().encoding()
}

/// Returns a reference to [`base64`].
#[inline(always)]
pub fn base64_ref() -> EncodingRef<'static>
    ensures { base_of base64_fields ≡ Ok result }
{
    EncodingRef {
        fields: &BASE64,
        separator: b"",
    }
}

/// Returns [`base64`] without padding.
pub fn base64_nopad() -> Encoding
    ensures { base_of base64_nopad_fields ≡ Ok result }
{
    base64_nopad_ref().encoding()
}

/// Returns a reference to [`base64_nopad`].
#[inline(always)]
pub fn base64_nopad_ref() -> EncodingRef<'static>
    ensures { base_of base64_nopad_fields ≡ Ok result }
{
    EncodingRef {
        fields: &BASE64_NOPAD,
        separator: b"",
    }
}

/// Returns [`base64`] in lines of 76 characters, each followed by CR LF, the last too: RFC 2045,
/// section 6.8.
///
/// CR and LF are ignored anywhere. Any other byte that is not a symbol is a fault, although the RFC
/// ignores it. No header is written.
pub fn base64_mime() -> Encoding
    ensures { base_of base64_mime_fields ≡ Ok result }
{
    base64_mime_ref().encoding()
}

/// Returns a reference to [`base64_mime`].
#[inline(always)]
pub fn base64_mime_ref() -> EncodingRef<'static>
    ensures { base_of base64_mime_fields ≡ Ok result }
{
    EncodingRef {
        fields: &BASE64_MIME,
        separator: b"\r\n",
    }
}

/// Returns [`base64_mime`] without the check of trailing bits.
pub fn base64_mime_permissive() -> Encoding
    ensures { base_of base64_mime_permissive_fields ≡ Ok result }
{
    base64_mime_permissive_ref().encoding()
}

/// Returns a reference to [`base64_mime_permissive`].
#[inline(always)]
pub fn base64_mime_permissive_ref() -> EncodingRef<'static>
    ensures { base_of base64_mime_permissive_fields ≡ Ok result }
{
    EncodingRef {
        fields: &BASE64_MIME_PERMISSIVE,
        separator: b"\r\n",
    }
}

/// Returns [`base64`] with `-` and `_` in place of `+` and `/`: RFC 4648, section 5.
pub fn base64url() -> Encoding
    ensures { base_of base64url_fields ≡ Ok result }
{
    base64url_ref().encoding()
}

/// Returns a reference to [`base64url`].
#[inline(always)]
pub fn base64url_ref() -> EncodingRef<'static>
    ensures { base_of base64url_fields ≡ Ok result }
{
    EncodingRef {
        fields: &BASE64URL,
        separator: b"",
    }
}

/// Returns [`base64url`] without padding.
pub fn base64url_nopad() -> Encoding
    ensures { base_of base64url_nopad_fields ≡ Ok result }
{
    base64url_nopad_ref().encoding()
}

/// Returns a reference to [`base64url_nopad`].
#[inline(always)]
pub fn base64url_nopad_ref() -> EncodingRef<'static>
    ensures { base_of base64url_nopad_fields ≡ Ok result }
{
    EncodingRef {
        fields: &BASE64URL_NOPAD,
        separator: b"",
    }
}
