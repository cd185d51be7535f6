//! Encoding: from data to text.

pub(crate) mod append;
pub(crate) mod kept_data;
pub(crate) mod lines;

ghost use Rattle.std.specs.Prelude.{◌≡◌, All, ℕ, ◌<◌, ◌+◌, ◌-◌, ◌*◌, ◌/◌, ◌≤◌, List, ◌++◌, length, drop, IfOk, IsOk};
ghost use Rattle.std.specs.String.{string_bytes};
ghost use Rattle.data_encoding.specs.Calls.{IsEncodeLen};
ghost use Rattle.data_encoding_meaning.specs.text.Base.{IsWidth, group_bytes, group_symbols};
ghost use Rattle.data_encoding_meaning.specs.specification.Fields.{IsSpecified};
ghost use Rattle.data_encoding_meaning.specs.text.Lengths.{alignment};
ghost use Rattle.data_encoding_meaning.specs.text.Text.{padded_text, plain_text, text_of};

use crate::encoding::{Encoding, EncodingRef, group_bytes};
use crate::memory::zeros;
use data_encoding_kernel::encode::encode_plain;
use data_encoding_meaning::limits;
use std::alloc::{AllocError, Global};

/// The greatest length of data that one call encodes, in bytes.
pub const ENCODE_LIMIT: usize = limits::ENCODE_LIMIT;

const _: () = prove!(ENCODE_LIMIT == 36028797018963967);

impl EncodingRef<'_> {
    /// Like [`Encoding::encode_len`].
    #[inline(always)]
    pub fn encode_len(&self, len: usize) -> usize
        requires limit { len ≤ ENCODE_LIMIT }
        ensures { IsEncodeLen self.now len result }
    {
        let count = self.padded_len(len);
        if self.fields.column == 0 {
            return count;
        }
        count + count.div_ceil(self.fields.column as usize) * self.separator.len()
    }

    /// Returns the length that `encode_len` returns, without the separators.
    #[inline(always)]
    fn padded_len(&self, len: usize) -> usize
        requires limit { len ≤ ENCODE_LIMIT }
        ensures length { (bytes : List ℕ) → length bytes ≡ len
            → length (padded_text self.now bytes) ≡ result }
        ensures empty { len ≡ 0 → result ≡ 0 }
    {
        if self.fields.is_padded() {
            return filled_count(self.fields.width, len);
        }
        symbol_count(self.fields.width, len)
    }

    /// Like [`Encoding::encode_align`].
    pub fn encode_align(&self) -> usize
        ensures value { result ≡ alignment self.now }
        ensures some { 0 < result }
        ensures most { result ≤ 189 }
        ensures base { IsSpecified self.now }
    {
        if self.fields.column != 0 {
            return self.fields.column as usize * self.fields.width as usize / 8;
        }
        group_bytes(self.fields.width) as usize
    }

    /// Like [`Encoding::encode_mut`].
    #[inline(always)]
    pub fn encode_mut(&self, input: &[u8], output: &mut [u8])
        requires limit { length input.now ≤ ENCODE_LIMIT }
        requires exact { length output.old ≡ length (text_of self.now input.now) }
        ensures text { output.new ≡ text_of self.now input.now }
        ensures ascii { All (λ byte. byte < 128) output.new }
    {
        if self.fields.column == 0 {
            self.encode_padded(input, output);
        } else {
            self.encode_lines(input, output);
        }
    }

    /// Like [`Encoding::encode_mut_str`].
    pub fn encode_mut_str<'a>(&self, input: &[u8], output: &'a mut [u8]) -> &'a str
        requires limit { length input.now ≤ ENCODE_LIMIT }
        requires exact { length output.old ≡ length (text_of self.now input.now) }
        ensures { result.now ≡ text_of self.now input.now }
    {
        self.encode_mut(input, output);
        unsafe { str::from_utf8_unchecked(output) }
    }

    /// Like [`Encoding::encode`].
    pub fn encode(&self, alloc: Global, input: &[u8]) -> Result<String, AllocError>
        requires limit { length input.now ≤ ENCODE_LIMIT }
        ensures text { IfOk result (λ text. string_bytes text ≡ text_of self.now input.now) }
        ensures empty { length input.now ≡ 0 → IsOk result }
    {
        let mut output = zeros(alloc, self.encode_len(input.len()))?;
        self.encode_mut(input, &mut output);
        Ok(unsafe { String::from_utf8_unchecked(output) })
    }

    /// Writes the symbols and the padding.
    #[inline(always)]
    fn encode_padded(&self, input: &[u8], output: &mut [u8])
        requires limit { length input.now ≤ ENCODE_LIMIT }
        requires exact { length output.old ≡ length (padded_text self.now input.now) }
        ensures { output.new ≡ padded_text self.now input.now }
    {
        let count = self.pad(input, output);
        encode_plain(
            &self.fields.symbols,
            self.fields.width,
            self.fields.order(),
            input,
            &mut output[..count],
        );
    }

    /// Writes the padding of the text to the end of `output`, and returns the number of symbols
    /// before it.
    #[inline(always)]
    fn pad(&self, input: &[u8], output: &mut [u8]) -> usize
        requires limit { length input.now ≤ ENCODE_LIMIT }
        requires exact { length output.old ≡ length (padded_text self.now input.now) }
        ensures count { result ≡ (8 * length input.now + (self.now.width - 1)) / self.now.width }
        ensures inside { result ≤ length output.old }
        ensures padding { padded_text self.now input.now
            ≡ plain_text self.now input.now ++ drop result output.new }
    {
        let Some(character) = self.fields.padding_character() else {
            return output.len();
        };
        let count = symbol_count(self.fields.width, input.len());
        // Fills a constant number of characters, which takes fewer instructions. The symbols are
        // written over the first of them later.
        let len = output.len();
        if len >= 8 {
            output[len - 8..].fill(character);
        } else if len >= 4 {
            output[len - 4..].fill(character);
        }
        count
    }
}

/// Returns the number of symbols of `len` bytes, without padding.
// Each division is by a constant, since a division by a variable takes as long as encoding a group.
fn symbol_count(width: u8, len: usize) -> usize
    requires width { IsWidth width }
    requires limit { len ≤ ENCODE_LIMIT }
    ensures { result ≡ (8 * len + (width - 1)) / width }
{
    match width {
        1 => 8 * len,
        2 => 4 * len,
        3 => (8 * len + 2) / 3,
        4 => 2 * len,
        5 => (8 * len + 4) / 5,
        _ => (8 * len + 5) / 6,
    }
}

/// Returns the number of symbols of `len` bytes, with the padding that fills the last group.
// Groups of one byte, which the other widths have, need no padding.
fn filled_count(width: u8, len: usize) -> usize
    requires width { IsWidth width }
    requires limit { len ≤ ENCODE_LIMIT }
    ensures value { result
        ≡ (len + (group_bytes width - 1)) / group_bytes width * group_symbols width }
    ensures empty { len ≡ 0 → result ≡ 0 }
{
    match width {
        3 => (len + 2) / 3 * 8,
        5 => (len + 4) / 5 * 8,
        6 => (len + 2) / 3 * 4,
        _ => symbol_count(width, len),
    }
}
