//! A slow oracle. It encodes data, and decodes a text or finds its fault, with lists of characters
//! and of bits.

ghost use Rattle.std.specs.Prelude.{◌<◌};

use crate::bits::{push_bits, value_of_bits};
use data_encoding::{BitOrder, DecodeError, Specification};
use std::alloc::{AllocError, Global};

/// The parameters of an encoding.
#[derive(Clone, Copy)]
pub struct Oracle<'a> {
    pub symbols: &'a [u8],
    pub width: u32,
    pub order: BitOrder,
    pub check: bool,
    pub concatenate: bool,
    pub padding: Option<u8>,
    pub ignored: &'a [u8],
    column: usize,
    pub separator: &'a [u8],
}

/// The expected result for a text.
#[derive(Drop)]
pub struct Expected {
    /// The bytes before the first fault.
    pub bytes: Vec<u8>,

    /// The length of the text that these bytes are from.
    pub read: usize,

    /// The fault, if there is one.
    pub fault: Option<DecodeError>,
}

impl Expected {
    /// Returns the result for the empty text.
    pub fn new(alloc: Global) -> Expected {
        Expected {
            bytes: Vec::new(alloc),
            read: 0,
            fault: None,
        }
    }
}

/// Returns the number of bits of one of `count` symbols.
fn width_of(count: usize) -> u32 {
    for width in 1..7u32 {
        if 1usize.wrapping_shl(width) == count {
            return width;
        }
    }
    0
}

/// Returns the number of characters of a line and the separator, or none if there are no lines.
fn lines_of(specification: &Specification) -> (usize, &[u8]) {
    let column = specification.wrap.width;
    let separator = specification.wrap.separator.as_bytes();
    if column == 0 || separator.is_empty() {
        return (0, &[]);
    }
    (column, separator)
}

impl Oracle<'_> {
    /// Returns the oracle of a specification.
    pub fn of(specification: &Specification) -> Oracle<'_> {
        let symbols = specification.symbols.as_bytes();
        let (column, separator) = lines_of(specification);
        Oracle {
            symbols,
            width: width_of(symbols.len()),
            order: specification.bit_order,
            check: specification.check_trailing_bits,
            concatenate: specification.concatenate,
            padding: match specification.padding {
                Some(character) => u8::try_from(character).ok(),
                None => None,
            },
            ignored: specification.ignore.as_bytes(),
            column,
            separator,
        }
    }

    /// Returns the text of `data`: its symbols and padding, in lines.
    pub fn encode(&self, alloc: Global, data: &[u8]) -> Result<Vec<u8>, AllocError> {
        let characters = self.encode_characters(alloc, data)?;
        if self.column == 0 {
            return Ok(characters);
        }
        let mut text = Vec::new(alloc);
        for line in characters.chunks(self.column) {
            text.extend_from_slice(line)?;
            text.extend_from_slice(self.separator)?;
        }
        Ok(text)
    }

    /// Returns the symbols of `data`, and the padding that fills their last group.
    fn encode_characters(&self, alloc: Global, data: &[u8]) -> Result<Vec<u8>, AllocError> {
        let mut bits = Vec::new(alloc);
        for byte in data {
            push_bits(&mut bits, self.order, 8, *byte as usize)?;
        }
        let mut characters = Vec::new(alloc);
        for run in bits.chunks(self.width.max(1) as usize) {
            let symbol = self.symbols.get(value_of_bits(self.order, self.width, run));
            characters.push(*symbol.unwrap_or(&b'?'))?;
        }
        if let Some(padding) = self.padding {
            let size = self.group_len();
            for _ in 0..(size - characters.len() % size) % size {
                characters.push(padding)?;
            }
        }
        Ok(characters)
    }

    /// Returns `true` if another text may follow `text`, if it means data.
    pub fn may_be_followed(&self, text: &[u8]) -> bool {
        match self.padding {
            Some(padding) => self.concatenate || !text.contains(&padding),
            None => matches!(self.width, 1 | 2 | 4),
        }
    }

    /// Returns `true` if fewer bits than a symbol has follow the whole bytes of `count` symbols.
    pub fn is_valid_count(&self, count: usize) -> bool {
        count.wrapping_mul(self.width as usize) % 8 < self.width as usize
    }

    /// Returns the least number of symbols with the bits of whole bytes.
    pub fn group_len(&self) -> usize
        ensures { 0 < result }
    {
        for count in 1..8usize {
            if count.wrapping_mul(self.width as usize) % 8 == 0 {
                return count;
            }
        }
        8
    }

    /// Returns the greatest valid length up to `len` of a text without ignored bytes.
    pub fn greatest_valid_length(&self, len: usize) -> usize {
        let mut greatest = 0;
        let size = self.group_len();
        for count in 0..=len {
            let fits = match self.padding {
                Some(_) => count % size == 0,
                None => self.is_valid_count(count),
            };
            if fits {
                greatest = count;
            }
        }
        greatest
    }

    /// Returns `true` if no byte is ignored.
    pub fn ignores_none(&self) -> bool {
        self.ignored.is_empty() && self.separator.is_empty()
    }
}
