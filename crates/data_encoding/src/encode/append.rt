//! Encoding at the end of a string.

ghost use Rattle.std.specs.Prelude.{◌≡◌, ℕ, ◌+◌, ◌<◌, ◌≤◌, ◌++◌, List, length, IsOk, OnErr, OnOk};
ghost use Rattle.std.specs.String.{string_bytes, string_capacity, string_len};
ghost use Rattle.data_encoding.specs.Calls.{AppendsText};
ghost use Rattle.data_encoding.specs.KeptData.{held_data, IsDue};
ghost use Rattle.data_encoding_meaning.specs.specification.Fields.{IsSpecified};
ghost use Rattle.data_encoding_meaning.specs.text.EncodedPieces.{HasEncoded};
ghost use Rattle.data_encoding_meaning.specs.text.Lengths.{alignment};
ghost use Rattle.data_encoding_meaning.specs.text.Text.{text_of};

use crate::encode::ENCODE_LIMIT;
use crate::encode::kept_data::{DueLen, KeptData};
use crate::encoding::{Encoding, EncodingRef};
use std::alloc::{AllocError, Allocator};
use std::mem;

impl EncodingRef<'_> {
    /// Like [`Encoding::encode_append`].
    pub fn encode_append(&self, input: &[u8], output: &mut String) -> Result<(), AllocError>
        requires limit { length input.now ≤ ENCODE_LIMIT }
        ensures { AppendsText self.now input.now output.old output.new result }
    {
        self.append_in(input, output)
    }

    /// Like [`encode_append`](EncodingRef::encode_append), for any allocator.
    pub(crate) fn append_in<A: Allocator + Copy>(
        &self,
        input: &[u8],
        output: &mut String<A>,
    ) -> Result<(), AllocError>
        requires limit { length input.now ≤ ENCODE_LIMIT }
        ensures text { OnOk result (string_bytes output.new
            ≡ string_bytes output.old ++ text_of self.now input.now) }
        ensures unchanged { OnErr result (string_bytes output.new ≡ string_bytes output.old) }
        ensures capacity { OnErr result (string_capacity output.new
            ≡ string_capacity output.old) }
        ensures empty { length input.now ≡ 0 → IsOk result }
        ensures base { IsSpecified self.now }
    {
        let len = self.encode_len(input.len());
        if len == 0 {
            return Ok(());
        }
        output.reserve(len)?;
        self.append_within(input, len, output);
        Ok(())
    }

    /// Appends the text, which has `len` bytes, to an output with room for it.
    pub(crate) fn append_within<A: Allocator + Copy>(
        &self,
        input: &[u8],
        len: usize,
        output: &mut String<A>,
    )
        requires limit { length input.now ≤ ENCODE_LIMIT }
        requires len { len ≡ length (text_of self.now input.now) }
        requires room { string_len output.old + len ≤ string_capacity output.old }
        ensures text { string_bytes output.new
            ≡ string_bytes output.old ++ text_of self.now input.now }
        ensures len { string_len output.new
            ≡ string_len output.old + length (text_of self.now input.now) }
        ensures capacity { string_capacity output.old ≤ string_capacity output.new }
    {
        let empty = String::new(*output.allocator());
        let mut bytes = mem::replace(output, empty).into_bytes();
        let start = bytes.len();
        bytes.resize(start + len, 0).unwrap();
        self.encode_mut(input, &mut bytes[start..]);
        *output = unsafe { String::from_utf8_unchecked(bytes) };
    }

    /// Reads a piece of data, and appends its due text to an output with room for it.
    pub(crate) fn append_piece<A: Allocator + Copy>(
        &self,
        block_len: usize,
        kept: &mut KeptData,
        piece: &[u8],
        due: DueLen,
        output: &mut String<A>,
    )
        requires limit { length piece.now ≤ ENCODE_LIMIT }
        requires block { block_len ≡ alignment self.now }
        requires most { block_len ≤ 189 }
        requires short { kept.old.count < block_len }
        requires due { IsDue self.now kept.old (length piece.now) due }
        requires room { string_len output.old + due.total ≤ string_capacity output.old }
        ensures encodes { (before bytes : List ℕ)
            → HasEncoded self.now before bytes (string_bytes output.old) (held_data kept.old)
            → HasEncoded self.now before (bytes ++ piece.now) (string_bytes output.new)
            (held_data kept.new) }
        ensures short { kept.new.count < block_len }
    {
        let empty = String::new(*output.allocator());
        let mut bytes = mem::replace(output, empty).into_bytes();
        let start = bytes.len();
        bytes.resize(start + due.total, 0).unwrap();
        self.read_piece(block_len, kept, piece, due, &mut bytes[start..]);
        *output = unsafe { String::from_utf8_unchecked(bytes) };
    }
}
