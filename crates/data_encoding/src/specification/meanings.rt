//! The meanings of bytes, as a specification defines them.

ghost use Rattle.std.specs.Prelude.{◌≡◌, ◌/◌, ◌%◌, ◌==◌, ◌||◌, ◌<◌, ◌≤◌, List, length, take, map, slice_index_or, OnOk, IfErr, IsTrue, Ok, Err, Some};
ghost use Rattle.std.specs.List.{list_any};
ghost use Rattle.data_encoding_meaning.specs.declared.encoding.Character.TheVariants.{Invalid};
ghost use Rattle.data_encoding_meaning.specs.text.Base.{IsWidth, is_ignored};
ghost use Rattle.data_encoding_meaning.specs.specification.Entries.{meaning_of_entry, is_entry_of, HoldsEntries};
ghost use Rattle.data_encoding_meaning.specs.specification.Fields.{ignored_judgements, padding_judgements, symbol_judgements, translation_judgements, wrapping_judgements, wraps};
ghost use Rattle.data_encoding_meaning.specs.specification.MeaningTable.{defined, meanings_after, no_meanings, translated};

use crate::encoding::{ASCII, IGNORED, INVALID, PADDING, group_symbols};
pub use data_encoding_meaning::refusal::Refusal;
use std::marker::Model;

// The meanings of the bytes so far, as a table of values.
#[derive(Drop)]
pub(crate) struct Meanings {
    values: [u8; 256],
}

impl Model for Meanings {
    ghost use Rattle.std.specs.Prelude.{List};
    ghost use Rattle.data_encoding_meaning.specs.declared.encoding.Character.{Character};

    ghost Value = { List Character };

    ghost use Rattle.data_encoding.specs.Meanings.{meanings_of_table, HasEntries};

    ghost view = { meanings_of_table };

    ghost invariant = { HasEntries };
}

impl Meanings {
    /// Returns the meanings before any check: no byte has one.
    pub(crate) fn new() -> Meanings
        ensures { result ≡ no_meanings }
    {
        Meanings {
            values: [INVALID; 256],
        }
    }

    /// Returns the entry of the byte.
    fn entry(&self, byte: u8) -> u8
        ensures meaning { slice_index_or self.now byte Invalid ≡ meaning_of_entry result }
        ensures entry { IsTrue (is_entry_of 64 result) }
    {
        self.values[byte as usize]
    }

    /// Gives the byte a meaning, unless it has another.
    fn define(&mut self, byte: u8, entry: u8) -> Result<(), Refusal>
        requires { IsTrue (is_entry_of 64 entry) }
        ensures defined { OnOk result
            (defined self.old byte (meaning_of_entry entry) ≡ Ok self.new) }
        ensures refused { IfErr result
            (λ refusal. defined self.old byte (meaning_of_entry entry) ≡ Err refusal) }
    {
        if byte >= ASCII {
            return Err(Refusal::NotAscii);
        }
        let had = self.values[byte as usize];
        if had == entry {
            return Ok(());
        }
        if had != INVALID {
            return Err(Refusal::Duplicate(byte));
        }
        self.values[byte as usize] = entry;
        Ok(())
    }

    /// Gives each symbol its value.
    pub(crate) fn define_symbols(&mut self, symbols: &[u8]) -> Result<(), Refusal>
        requires { length symbols.now ≤ 64 }
        ensures defined { OnOk result
            (meanings_after (Ok self.old) (symbol_judgements 0 symbols.now) ≡ Ok self.new) }
        ensures refused { IfErr result
            (λ refusal. meanings_after (Ok self.old) (symbol_judgements 0 symbols.now)
            ≡ Err refusal) }
    {
        for value in 0..symbols.len() {
            self.define(symbols[value], value as u8)?;
        }
        Ok(())
    }

    /// Makes the character padding, if there is one.
    pub(crate) fn define_padding(&mut self, width: u8, padding: Option<char>) -> Result<(), Refusal>
        requires { 0 < width }
        ensures defined { OnOk result
            (meanings_after (Ok self.old) (padding_judgements width padding) ≡ Ok self.new) }
        ensures refused { IfErr result
            (λ refusal. meanings_after (Ok self.old) (padding_judgements width padding)
            ≡ Err refusal) }
    {
        let Some(character) = padding else {
            return Ok(());
        };
        if 8 % width == 0 {
            return Err(Refusal::ExtraPadding);
        }
        let code = character as u32;
        if code >= ASCII as u32 {
            return Err(Refusal::NotAscii);
        }
        self.define(code as u8, PADDING)
    }

    /// Makes the bytes ignored.
    pub(crate) fn define_ignored(&mut self, bytes: &[u8]) -> Result<(), Refusal>
        ensures defined { OnOk result
            (meanings_after (Ok self.old) (ignored_judgements bytes.now) ≡ Ok self.new) }
        ensures refused { IfErr result
            (λ refusal. meanings_after (Ok self.old) (ignored_judgements bytes.now)
            ≡ Err refusal) }
    {
        for index in 0..bytes.len() {
            self.define(bytes[index], IGNORED)?;
        }
        Ok(())
    }

    /// Checks the lines, if there are any, and makes the bytes of their separator ignored.
    pub(crate) fn define_wrapping(
        &mut self,
        width: u8,
        column: usize,
        separator: &[u8],
    ) -> Result<(), Refusal>
        requires width { IsWidth width }
        ensures defined { OnOk result
            (meanings_after (Ok self.old) (wrapping_judgements width column separator.now)
            ≡ Ok self.new) }
        ensures refused { IfErr result
            (λ refusal. meanings_after (Ok self.old)
            (wrapping_judgements width column separator.now) ≡ Err refusal) }
    {
        if !wraps(column, separator) {
            return Ok(());
        }
        if column >= 256 || separator.len() >= 256 {
            return Err(Refusal::WrapLength);
        }
        let count = group_symbols(width);
        if column % count as usize != 0 {
            return Err(Refusal::WrapWidth(count));
        }
        self.define_ignored(separator)
    }

    /// Gives a byte the meaning of another.
    fn translate_byte(&mut self, from: u8, to: u8) -> Result<(), Refusal>
        ensures defined { OnOk result (translated self.old from to ≡ Ok self.new) }
        ensures refused { IfErr result (λ refusal. translated self.old from to ≡ Err refusal) }
    {
        if to >= ASCII {
            return Err(Refusal::NotAscii);
        }
        let entry = self.entry(to);
        if entry == INVALID {
            return Err(Refusal::Undefined(to));
        }
        self.define(from, entry)
    }

    /// Gives each byte of `from` the meaning of the byte of `to` at its position.
    pub(crate) fn translate(&mut self, from: &[u8], to: &[u8]) -> Result<(), Refusal>
        ensures defined { OnOk result
            (meanings_after (Ok self.old) (translation_judgements from.now to.now)
            ≡ Ok self.new) }
        ensures refused { IfErr result
            (λ refusal. meanings_after (Ok self.old) (translation_judgements from.now to.now)
            ≡ Err refusal) }
    {
        if from.len() != to.len() {
            return Err(Refusal::FromTo);
        }
        for index in 0..from.len() {
            self.translate_byte(from[index], to[index])?;
        }
        Ok(())
    }

    /// Returns `true` if some byte is ignored.
    pub(crate) fn ignores_some(&self) -> bool
        ensures { result ≡ list_any is_ignored self.now }
    {
        self.values[..ASCII as usize].contains(&IGNORED)
    }

    /// Returns the table of values.
    pub(crate) fn into_values(self) -> [u8; 256]
        ensures meanings { map meaning_of_entry (take 128 result) ≡ self }
        ensures entries { HoldsEntries result }
    {
        let Meanings { values } = self;
        values
    }
}

/// Returns `true` if there are lines.
pub(crate) fn wraps(column: usize, separator: &[u8]) -> bool
    ensures { result ≡ wraps column separator.now }
{
    column != 0 && !separator.is_empty()
}
