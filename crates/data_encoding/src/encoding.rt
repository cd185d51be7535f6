//! Encodings, and the terms that describe them.

mod calls;
mod equality;
pub(crate) mod lent_encoding;
pub(crate) mod plain_encoding;
mod whole_groups;

ghost use Rattle.std.specs.Prelude.{◌≡◌, ◌<◌, ◌≤◌, ◌-◌, ◌==◌, ◌||◌, length};
ghost use Rattle.data_encoding.specs.Calls.{IsBitWidth, IsGroupBytes, IsGroupLen};
ghost use Rattle.data_encoding_meaning.specs.text.Base.{IsWidth, group_bytes, group_symbols, ignores_some, is_padded, meaning};
ghost use Rattle.data_encoding_meaning.specs.text.Lengths.{most_bytes};

use crate::encoding::plain_encoding::PlainFields;
use arrayvec::ArrayVec;
pub use data_encoding_meaning::encoding::{BitOrder, Character};
use std::marker::Model;

// The entries of a byte that is invalid, of one that is ignored, and of padding.
pub(crate) const INVALID: u8 = 128;

pub(crate) const IGNORED: u8 = 129;

pub(crate) const PADDING: u8 = 130;

// The greatest number of symbols, and so the least entry that is not a value.
pub(crate) const MOST_SYMBOLS: u8 = 64;

// The number of ASCII characters. Texts consist of them.
pub(crate) const ASCII: u8 = 128;

/// A base encoding: it determines the text of data, and the data that a text means.
#[derive(Debug, Drop)]
pub struct Encoding {
    pub(crate) fields: PlainFields,

    // The separator after each line.
    pub(crate) separator: ArrayVec<u8, 255>,
}

impl Model for Encoding {
    ghost use Rattle.data_encoding_meaning.specs.text.Base.{Base};

    ghost Value = { Base };

    ghost use Rattle.data_encoding.specs.Encoding.{base_of_tables, KeepsRules};
    ghost use Rattle.data_encoding.specs.PlainTables.{plain_tables};

    ghost view = { λ encoding. base_of_tables
        (plain_tables encoding.fields encoding.separator.items) };

    ghost invariant = { λ encoding. KeepsRules
        (plain_tables encoding.fields encoding.separator.items) };
}

/// A reference to an encoding.
///
/// The tables of the encoding are in an [`Encoding`], in a [`PlainEncoding`](crate::PlainEncoding)
/// or, for a predefined encoding, in the program. The type has two references, and making one
/// copies nothing.
#[derive(Debug, Drop)]
pub struct EncodingRef<'a> {
    pub(crate) fields: &'a PlainFields,

    // The separator after each line.
    pub(crate) separator: &'a [u8],
}

impl<'a> Model for EncodingRef<'a> {
    ghost use Rattle.data_encoding_meaning.specs.text.Base.{Base};

    ghost Value = { Base };

    ghost use Rattle.data_encoding.specs.Encoding.{base_of_tables, KeepsRules};
    ghost use Rattle.data_encoding.specs.PlainTables.{plain_tables};

    ghost view = { λ encoding. base_of_tables
        (plain_tables encoding.fields.now encoding.separator.now) };

    ghost invariant = { λ encoding. KeepsRules
        (plain_tables encoding.fields.now encoding.separator.now) };
}

impl EncodingRef<'_> {
    /// Returns a copy of the encoding, with its tables.
    #[inline]
    pub fn encoding(&self) -> Encoding
        ensures { result ≡ self.now }
    {
        Encoding {
            fields: *self.fields,
            separator: copied(self.separator),
        }
    }

    /// Like [`Encoding::bit_width`].
    #[inline(always)]
    pub fn bit_width(&self) -> usize
        ensures { IsBitWidth self.now result }
    {
        self.fields.width as usize
    }

    /// Like [`Encoding::group_bytes`].
    #[inline]
    pub fn group_bytes(&self) -> usize
        ensures { IsGroupBytes self.now result }
    {
        group_bytes(self.fields.width) as usize
    }

    /// Like [`Encoding::completes_groups`].
    #[inline]
    pub fn completes_groups(&self) -> bool
        ensures value { result ≡ (is_padded self.now || group_bytes self.now.width == 1) }
        ensures none { result ≡ (most_bytes self.now (group_symbols self.now.width - 1) == 0) }
    {
        self.fields.is_padded() || self.group_bytes() == 1
    }

    /// Like [`Encoding::group_len`].
    #[inline(always)]
    pub fn group_len(&self) -> usize
        ensures { IsGroupLen self.now result }
    {
        group_symbols(self.fields.width) as usize
    }

    /// Like [`Encoding::ignores_bytes`].
    #[inline(always)]
    pub fn ignores_bytes(&self) -> bool
        ensures { result ≡ ignores_some self.now }
    {
        self.fields.ignores
    }

    /// Like [`Encoding::concatenates`].
    #[inline(always)]
    pub fn concatenates(&self) -> bool
        ensures { result ≡ self.now.concatenates }
    {
        self.fields.concatenates
    }

    /// Like [`Encoding::is_padded`].
    #[inline(always)]
    pub fn is_padded(&self) -> bool
        ensures { result ≡ is_padded self.now }
    {
        self.fields.is_padded()
    }

    /// Like [`Encoding::checks_trailing_bits`].
    #[inline(always)]
    pub fn checks_trailing_bits(&self) -> bool
        ensures { result ≡ self.now.checks_trailing_bits }
    {
        self.fields.checks_trailing_bits
    }

    /// Like [`Encoding::interpret_byte`].
    #[inline]
    pub fn interpret_byte(&self, byte: u8) -> Character
        ensures { result ≡ meaning self.now byte }
    {
        let entry = self.fields.values.entry(byte);
        if entry < MOST_SYMBOLS {
            Character::Symbol {
                value: entry as usize,
            }
        } else if entry == IGNORED {
            Character::Ignored
        } else if entry == PADDING {
            Character::Padding
        } else {
            Character::Invalid
        }
    }
}

impl Encoding {
    /// Returns a reference to the encoding.
    #[inline(always)]
    pub fn by_ref(&self) -> EncodingRef<'_>
        ensures { result ≡ self.now }
    {
        EncodingRef {
            fields: &self.fields,
            separator: self.separator.as_slice(),
        }
    }
}

/// Returns the number of bytes of a whole group.
pub(crate) fn group_bytes(width: u8) -> u8
    ensures value { result ≡ group_bytes width }
    ensures some { 0 < result }
    ensures few { result ≤ 5 }
{
    if width == 5 {
        5
    } else if width % 3 == 0 {
        3
    } else {
        1
    }
}

/// Returns the number of symbols of a whole group.
// Inlined, so that the compiler divides by the result with a shift: each is a constant power of
// two.
#[inline(always)]
pub(crate) fn group_symbols(width: u8) -> u8
    requires width { IsWidth width }
    ensures value { result ≡ group_symbols width }
    ensures some { 0 < result }
{
    match width {
        4 => 2,
        2 | 6 => 4,
        _ => 8,
    }
}

/// Returns a copy of the separator.
pub(crate) fn copied(separator: &[u8]) -> ArrayVec<u8, 255>
    requires { length separator.now < 256 }
    ensures { result.items ≡ separator.now }
{
    let mut copy = ArrayVec::new();
    copy.try_extend_from_slice(separator).unwrap();
    copy
}
