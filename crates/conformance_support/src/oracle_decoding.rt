//! The decoder of the oracle.

use crate::bits::{push_bits, push_bytes};
use crate::oracle::{Expected, Oracle};
use data_encoding::{DecodeError, DecodeFault, DecodeKind};
use std::alloc::{AllocError, Global};

/// A byte of a text, and its position.
#[derive(Clone, Copy)]
struct Character {
    position: usize,
    byte: u8,
}

/// Returns the fault of the given kind and position.
fn fault(position: usize, kind: DecodeKind) -> DecodeFault {
    DecodeFault::Error(DecodeError { position, kind })
}

/// Returns the fault of the given kind at a character of a group.
fn fault_at(group: &[Character], index: usize, kind: DecodeKind) -> DecodeFault {
    match group.get(index) {
        Some(character) => fault(character.position, kind),
        None => fault(0, kind),
    }
}

/// Returns the position after a group.
fn position_after(group: &[Character]) -> usize {
    match group.last() {
        Some(character) => character.position.wrapping_add(1),
        None => 0,
    }
}

/// Returns the number of characters of a group before the padding at its end.
fn unpadded_len(group: &[Character], padding: u8) -> usize {
    let mut len = 0;
    for (index, character) in group.iter().enumerate() {
        if character.byte != padding {
            len = index.wrapping_add(1);
        }
    }
    len
}

impl Oracle<'_> {
    /// Returns the result for a text.
    ///
    /// After a length fault, it also has the longest prefix of valid length of the unread rest, if
    /// that decodes without ignoring any byte.
    pub fn decode(&self, alloc: Global, text: &[u8]) -> Result<Expected, AllocError> {
        let mut expected = self.decode_sound(alloc, text)?;
        let Some(error) = expected.fault else {
            return Ok(expected);
        };
        if error.kind != DecodeKind::Length {
            return Ok(expected);
        }
        let rest = text.get(expected.read..).unwrap_or(&[]);
        let front = rest
            .get(..self.greatest_valid_length(rest.len()))
            .unwrap_or(&[]);
        let mut strict = *self;
        strict.ignored = &[];
        strict.separator = &[];
        let last = strict.decode_sound(alloc, front)?;
        if last.fault.is_none() {
            expected.read = error.position;
            expected.bytes.extend_from_slice(&last.bytes)?;
        }
        Ok(expected)
    }

    /// Returns the result for the groups of a text before the first faulty one.
    fn decode_sound(&self, alloc: Global, text: &[u8]) -> Result<Expected, AllocError> {
        let mut expected = Expected::new(alloc);
        match self.decode_groups(alloc, text, &mut expected) {
            Ok(()) => {}
            Err(DecodeFault::Error(error)) => expected.fault = Some(error),
            Err(DecodeFault::OutOfMemory) => return Err(AllocError),
        }
        Ok(expected)
    }

    /// Returns the result for a text in pieces from `expected`, the result for the whole text.
    ///
    /// If the length is the fault, the result has the bytes of the groups before the first faulty
    /// one.
    pub fn in_pieces(
        &self,
        alloc: Global,
        text: &[u8],
        mut expected: Expected,
    ) -> Result<Expected, AllocError> {
        match expected.fault {
            Some(error) if error.kind == DecodeKind::Length => {}
            _ => return Ok(expected),
        }
        expected.bytes.clear();
        match self.decode_any_length(alloc, text, &mut expected) {
            Err(DecodeFault::OutOfMemory) => Err(AllocError),
            _ => Ok(expected),
        }
    }

    /// Decodes group by group, up to the end or the first fault.
    fn decode_groups(
        &self,
        alloc: Global,
        text: &[u8],
        expected: &mut Expected,
    ) -> Result<(), DecodeFault> {
        if self.ignores_none() {
            let greatest = self.greatest_valid_length(text.len());
            if greatest != text.len() {
                return Err(fault(greatest, DecodeKind::Length));
            }
        }
        self.decode_any_length(alloc, text, expected)
    }

    /// Decodes group by group, even if the length of the text is invalid.
    fn decode_any_length(
        &self,
        alloc: Global,
        text: &[u8],
        expected: &mut Expected,
    ) -> Result<(), DecodeFault> {
        let characters = self.kept_characters(alloc, text)?;
        let mut is_ended = false;
        for group in characters.chunks(self.group_len()) {
            if is_ended {
                return Err(fault_at(group, 0, DecodeKind::Padding));
            }
            self.decode_group(alloc, group, &mut expected.bytes)?;
            expected.read = position_after(group);
            is_ended = !self.concatenate && self.is_padded(group);
        }
        Ok(())
    }

    /// Returns `true` if a group has padding.
    fn is_padded(&self, group: &[Character]) -> bool {
        for character in group {
            if self.padding == Some(character.byte) {
                return true;
            }
        }
        false
    }

    /// Returns the characters that are not ignored.
    fn kept_characters(&self, alloc: Global, text: &[u8]) -> Result<Vec<Character>, AllocError> {
        let mut characters = Vec::with_capacity(alloc, text.len())?;
        for (position, byte) in text.iter().enumerate() {
            if !self.ignored.contains(byte) && !self.separator.contains(byte) {
                characters.push(Character {
                    position,
                    byte: *byte,
                })?;
            }
        }
        Ok(characters)
    }

    /// Returns the value of a symbol.
    fn symbol_value(&self, byte: u8) -> Option<usize> {
        for (value, symbol) in self.symbols.iter().enumerate() {
            if *symbol == byte {
                return Some(value);
            }
        }
        None
    }

    /// Appends the bytes of a group.
    fn decode_group(
        &self,
        alloc: Global,
        group: &[Character],
        bytes: &mut Vec<u8>,
    ) -> Result<(), DecodeFault> {
        let symbols = self.symbols_of(group)?;
        let mut bits = Vec::with_capacity(alloc, 64)?;
        for symbol in symbols {
            match self.symbol_value(symbol.byte) {
                Some(value) => push_bits(&mut bits, self.order, self.width, value)?,
                None => return Err(fault(symbol.position, DecodeKind::Symbol)),
            }
        }
        let whole = bits.len() / 8 * 8;
        if self.check && bits[whole..].contains(&true) {
            return Err(fault_at(
                symbols,
                symbols.len().saturating_sub(1),
                DecodeKind::Trailing,
            ));
        }
        push_bytes(bytes, self.order, &bits[..whole])?;
        Ok(())
    }

    /// Returns the symbols of a group, which come before its padding.
    fn symbols_of<'g>(&self, group: &'g [Character]) -> Result<&'g [Character], DecodeFault> {
        let greatest = self.greatest_valid_length(group.len());
        let Some(padding) = self.padding else {
            if greatest != group.len() {
                return Err(fault_at(group, greatest, DecodeKind::Length));
            }
            return Ok(group);
        };
        if greatest != group.len() {
            return Err(fault_at(group, 0, DecodeKind::Length));
        }
        let len = unpadded_len(group, padding);
        if len == 0 || !self.is_valid_count(len) {
            return Err(fault_at(group, len, DecodeKind::Padding));
        }
        Ok(group.get(..len).unwrap_or(group))
    }
}
