//! Encoding to a writer or a formatter.

ghost use Rattle.std.specs.Prelude.{◌≡◌, ◌⊎◌, ◌%◌, ◌<◌, ◌≤◌, length, Some, IsOk, OnOk};
ghost use Rattle.std.specs.Fmt.{DisplaysOnOk, WritesInCalls};
ghost use Rattle.data_encoding_meaning.specs.specification.Fields.{IsSpecified};
ghost use Rattle.data_encoding_meaning.specs.text.Lengths.{IsBlockLength};
ghost use Rattle.data_encoding.specs.Calls.{IsPieceLen};
ghost use Rattle.data_encoding.specs.Shown.{shown_data, shown_text};
ghost use Rattle.data_encoding_meaning.specs.text.Text.{text_of};

use crate::encode::ENCODE_LIMIT;
use crate::encoding::lent_encoding::LentEncoding;
use crate::encoding::{Encoding, EncodingRef, group_symbols};
use std::fmt;
use std::fmt::Write;

impl<'a> EncodingRef<'a> {
    /// Like [`Encoding::encode_write_buffer`].
    pub fn encode_write_buffer<W: fmt::Write>(
        &self,
        input: &[u8],
        output: &mut W,
        buffer: &mut [u8],
    ) -> fmt::Result
        requires room { 510 ≤ length buffer.old }
        requires limit { (length buffer.old ≤ ENCODE_LIMIT) ⊎ (length input.now ≤ ENCODE_LIMIT) }
        ensures written { OnOk result
            (WritesInCalls W.write_str_gives output.old (text_of self.now input.now) output.new) }
        ensures empty { length input.now ≡ 0 → IsOk result × (output.new ≡ output.old) }
    {
        let most = self.encode_piece_len(buffer.len());
        if input.is_empty() {
            return Ok(());
        }
        let mut rest = input;
        while rest.len() > most {
            let (piece, others) = rest.split_at(most);
            self.write_piece(piece, output, buffer)?;
            rest = others;
        }
        self.write_piece(rest, output, buffer)
    }

    /// Like [`Encoding::encode_write`].
    pub fn encode_write<W: fmt::Write>(&self, input: &[u8], output: &mut W) -> fmt::Result
        ensures written { OnOk result
            (WritesInCalls W.write_str_gives output.old (text_of self.now input.now) output.new) }
        ensures empty { length input.now ≡ 0 → IsOk result × (output.new ≡ output.old) }
    {
        let mut buffer = [0; 1024];
        self.encode_write_buffer(input, output, &mut buffer)
    }

    /// Like [`Encoding::encode_piece_len`].
    pub fn encode_piece_len(&self, output_len: usize) -> usize
        requires room { 510 ≤ output_len }
        ensures { IsPieceLen self.now output_len result }
    {
        output_len / self.block_len() * self.encode_align()
    }

    /// Like [`Encoding::encode_display`].
    pub fn encode_display(&self, input: &'a [u8]) -> Display<'a>
        ensures text { shown_text result ≡ text_of self.now input.now }
        ensures data { shown_data result ≡ input.now }
    {
        Display {
            encoding: self.lend(),
            input,
        }
    }

    /// Returns the length of the text of a whole group, or of a whole line with its separator.
    fn block_len(&self) -> usize
        ensures length { IsBlockLength self.now result }
        ensures base { IsSpecified self.now }
    {
        if self.fields.column == 0 {
            return group_symbols(self.fields.width) as usize;
        }
        self.fields.column as usize + self.separator.len()
    }

    /// Writes the text of a piece of the data in one call.
    fn write_piece<W: fmt::Write>(
        &self,
        input: &[u8],
        output: &mut W,
        buffer: &mut [u8],
    ) -> fmt::Result
        requires limit { length input.now ≤ ENCODE_LIMIT }
        requires fits { length (text_of self.now input.now) ≤ length buffer.old }
        ensures { OnOk result
            (W.write_str_gives output.old (text_of self.now input.now) output.new) }
    {
        let len = self.encode_len(input.len());
        output.write_str(self.encode_mut_str(input, &mut buffer[..len]))
    }
}

/// Data that prints as its text.
///
/// The width and the fill of the format have no effect. For empty data nothing is printed, and that
/// never fails.
#[derive(Clone, Copy, Debug, Drop)]
pub struct Display<'a> {
    encoding: LentEncoding<'a>,
    input: &'a [u8],
}

impl fmt::Display for Display<'_> {
    ghost output = { λ shown. Some (shown_text shown) };

    fn fmt<W: fmt::Write>(&self, f: &mut fmt::Formatter<W>) -> fmt::Result
        ensures writes { DisplaysOnOk W.write_str_gives f.old result (Some (shown_text self.now))
            f.new }
        ensures empty { length (shown_data self.now) ≡ 0 → IsOk result × (f.new ≡ f.old) }
    {
        self.encoding.by_ref().encode_write(self.input, f)
    }
}
