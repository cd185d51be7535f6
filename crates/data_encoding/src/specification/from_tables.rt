//! The ignored and the translated bytes of an encoding, from its tables.

ghost use Rattle.std.specs.Prelude.{◌≡◌, ◌^◌, ◌<◌, ◌≤◌, length, map, is_some, IfSome};
ghost use Rattle.data_encoding_meaning.specs.text.Base.{Base, meaning};
ghost use Rattle.data_encoding_meaning.specs.specification.Layout.{ignored_bytes, is_translated, own_byte, own_character, translated_bytes};
ghost use Rattle.data_encoding.specs.Tables.{HasTables};

use crate::encoding::{IGNORED, MOST_SYMBOLS, PADDING};
use arrayvec::ArrayVec;

// The symbols in order of value, the entries of the bytes below 128, and the padding character.
#[derive(Drop)]
pub(crate) struct Tables<'a> {
    pub(crate) symbols: &'a [u8],
    pub(crate) values: &'a [u8],
    pub(crate) padding: Option<u8>,
}

// The bytes that are translated, in order, and their targets.
#[derive(Drop)]
pub(crate) struct Translations {
    pub(crate) from: ArrayVec<u8, 128>,
    pub(crate) to: ArrayVec<u8, 128>,
}

impl Tables<'_> {
    /// Returns the bytes that are ignored, in order.
    pub(crate) fn ignored(&self) -> ArrayVec<u8, 128>
        requires { length self.now.values.now ≡ 128 }
        ensures { (base : Base) → HasTables base self.now → result.items ≡ ignored_bytes base }
    {
        let mut bytes = ArrayVec::new();
        for byte in 0..128 {
            if self.values[byte as usize] == IGNORED {
                bytes.push(byte);
            }
        }
        bytes
    }

    /// Returns the bytes that are translated, in order, and their targets.
    pub(crate) fn translations(&self) -> Translations
        requires { length self.now.values.now ≡ 128 }
        ensures from { (base : Base) → HasTables base self.now
            → result.from.items ≡ translated_bytes base }
        ensures to { (base : Base) → HasTables base self.now
            → result.to.items ≡ map (own_byte base) (translated_bytes base) }
    {
        let mut from = ArrayVec::new();
        let mut to = ArrayVec::new();
        for byte in 0..128 {
            if let Some(own) = self.translation_of(byte) {
                from.push(byte);
                to.push(own);
            }
        }
        Translations { from, to }
    }

    /// Returns the symbol or the padding character that the byte is translated to, if it is
    /// translated.
    fn translation_of(&self, byte: u8) -> Option<u8>
        requires { byte < length self.now.values.now }
        ensures some { (base : Base) → HasTables base self.now
            → IfSome result (λ own. own ≡ own_byte base byte) }
        ensures variant { (base : Base) → HasTables base self.now → is_some result
            ≡ is_translated base byte (own_character base (meaning base byte)) }
    {
        match self.own_character(byte) {
            Some(own) if own != byte => Some(own),
            _ => None,
        }
    }

    /// Returns the symbol or the padding character that has the meaning of the byte, or 0 for a
    /// value without a symbol.
    fn own_character(&self, byte: u8) -> Option<u8>
        requires { byte < length self.now.values.now }
        ensures { (base : Base) → HasTables base self.now
            → result ≡ own_character base (meaning base byte) }
    {
        let entry = self.values[byte as usize];
        if entry < MOST_SYMBOLS {
            return Some(self.symbols.get(entry as usize).copied().unwrap_or(0));
        }
        if entry == PADDING {
            return self.padding;
        }
        None
    }
}

/// Returns the number of symbols.
pub(crate) fn alphabet_len(width: u8) -> usize
    requires { width ≤ 6 }
    ensures value { result ≡ 2 ^ width }
    ensures few { result ≤ 64 }
{
    1 << width
}

/// Returns the byte as a character.
pub(crate) fn character(byte: Option<u8>) -> Option<char>
    ensures { result ≡ byte }
{
    match byte {
        Some(byte) => Some(char::from(byte)),
        None => None,
    }
}
