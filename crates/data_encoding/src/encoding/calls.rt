//! The calls of an [`Encoding`]. Each is the same call of its reference.

ghost use Rattle.data_encoding.specs.Calls.{IsBitWidth, IsGroupBytes, IsGroupLen, IsEncodeLen, AppendsText, IsPieceLen, IsDecodeLen, DecodesText, DecodesWhole};
ghost use Rattle.data_encoding.specs.Shown.{shown_data, shown_text};
ghost use Rattle.data_encoding.specs.Specification.{specified, fields_of_bytes};
ghost use Rattle.data_encoding_meaning.specs.laws.Canonical.{IsCanonical, has_one_text};
ghost use Rattle.data_encoding_meaning.specs.specification.Fields.{IsSpecified};
ghost use Rattle.data_encoding_meaning.specs.specification.Layout.{fields_of, layout};
ghost use Rattle.data_encoding_meaning.specs.text.Base.{group_bytes, group_symbols, ignores_some, is_padded, meaning};
ghost use Rattle.data_encoding_meaning.specs.text.Lengths.{most_bytes, alignment, decoded_len};
ghost use Rattle.data_encoding_meaning.specs.text.Text.{text_of};
ghost use Rattle.std.specs.Fmt.{WritesInCalls};
ghost use Rattle.std.specs.Prelude.{◌≡◌, ◌<◌, ◌≤◌, ◌-◌, ◌==◌, ◌||◌, length, All, ◌*◌, ◌/◌, IfOk, IsOk, OnOk, ◌⊎◌, true, Ok, ◌↔◌, IsTrue, not};
ghost use Rattle.std.specs.String.{string_bytes};

use crate::decode::DECODE_LIMIT;
use crate::encode::ENCODE_LIMIT;
use crate::encoding::{Character, Encoding};
use crate::error::{DecodeError, DecodeFault, DecodePartial};
use crate::specification::Specification;
use crate::specification::specification_bytes::SpecificationBytes;
use crate::write::Display;
use arrayvec::ArrayVec;
use std::alloc::{AllocError, Global};
use std::fmt;

impl Encoding {
    /// Returns the number of bits of a symbol, from 1 to 6.
    pub fn bit_width(&self) -> usize
        ensures { IsBitWidth self.now result }
    {
        self.by_ref().bit_width()
    }

    /// Returns the number of symbols in a whole group: 2, 4 or 8.
    ///
    /// It is the least number of symbols with bits that are whole bytes.
    pub fn group_len(&self) -> usize
        ensures { IsGroupLen self.now result }
    {
        self.by_ref().group_len()
    }

    /// Returns the number of bytes of data in a whole group: 1, 3 or 5.
    pub fn group_bytes(&self) -> usize
        ensures { IsGroupBytes self.now result }
    {
        self.by_ref().group_bytes()
    }

    /// Returns `true` if fewer symbols than a whole group mean no byte.
    ///
    /// This is the case if texts are padded, or if a whole group is one byte.
    pub fn completes_groups(&self) -> bool
        ensures value { result ≡ (is_padded self.now || group_bytes self.now.width == 1) }
        ensures none { result ≡ (most_bytes self.now (group_symbols self.now.width - 1) == 0) }
    {
        self.by_ref().completes_groups()
    }

    /// Returns `true` if some byte is ignored.
    pub fn ignores_bytes(&self) -> bool
        ensures { result ≡ ignores_some self.now }
    {
        self.by_ref().ignores_bytes()
    }

    /// Returns `true` if a text may continue after a padded group. Without padding the result is
    /// `true`.
    pub fn concatenates(&self) -> bool
        ensures { result ≡ self.now.concatenates }
    {
        self.by_ref().concatenates()
    }

    /// Returns `true` if texts are padded.
    pub fn is_padded(&self) -> bool
        ensures { result ≡ is_padded self.now }
    {
        self.by_ref().is_padded()
    }

    /// Returns `true` if the trailing bits of a text must be zeros.
    pub fn checks_trailing_bits(&self) -> bool
        ensures { result ≡ self.now.checks_trailing_bits }
    {
        self.by_ref().checks_trailing_bits()
    }

    /// Returns the meaning of `byte` in a text.
    pub fn interpret_byte(&self, byte: u8) -> Character
        ensures { result ≡ meaning self.now byte }
    {
        self.by_ref().interpret_byte(byte)
    }

    /// Returns the length in bytes of the text of `len` bytes of data, with its padding and line
    /// separators.
    ///
    /// `len` must be at most `ENCODE_LIMIT`. The result is at most `263 * len`.
    ///
    /// ```
    /// assert!(rt; base64().encode_len(5) == 8);
    /// ```
    pub fn encode_len(&self, len: usize) -> usize
        requires limit { len ≤ ENCODE_LIMIT }
        ensures { IsEncodeLen self.now len result }
    {
        self.by_ref().encode_len(len)
    }

    /// Returns the length of a block: the number of bytes of data in a whole line, or in a whole
    /// group if the encoding has no lines.
    ///
    /// The length is from 1 to 189. If the length of each piece of data except the last is a
    /// multiple of it, the texts of the pieces, joined in order, are the text of the data.
    pub fn encode_align(&self) -> usize
        ensures value { result ≡ alignment self.now }
        ensures some { 0 < result }
        ensures most { result ≤ 189 }
        ensures base { IsSpecified self.now }
    {
        self.by_ref().encode_align()
    }

    /// Writes the text of the data `input` to `output`.
    ///
    /// `input` must have at most `ENCODE_LIMIT` bytes. `output` must have exactly the length that
    /// `encode_len` returns for `input.len()`.
    ///
    /// ```
    /// let encoding = base64();
    /// let mut output = [0; 16];
    /// let len = encoding.encode_len(5);
    /// encoding.encode_mut(b"Hello", &mut output[..len]);
    /// assert!(rt; &output[..len] == b"SGVsbG8=".as_slice());
    /// ```
    pub fn encode_mut(&self, input: &[u8], output: &mut [u8])
        requires limit { length input.now ≤ ENCODE_LIMIT }
        requires exact { length output.old ≡ length (text_of self.now input.now) }
        ensures text { output.new ≡ text_of self.now input.now }
        ensures ascii { All (λ byte. byte < 128) output.new }
    {
        self.by_ref().encode_mut(input, output);
    }

    /// Writes the text of `input` to `output`, like [`encode_mut`](Encoding::encode_mut), and
    /// returns `output` as a `str`.
    ///
    /// ```
    /// let encoding = base64();
    /// let mut output = [0; 16];
    /// let len = encoding.encode_len(5);
    /// assert!(rt; encoding.encode_mut_str(b"Hello", &mut output[..len]) == "SGVsbG8=");
    /// ```
    pub fn encode_mut_str<'a>(&self, input: &[u8], output: &'a mut [u8]) -> &'a str
        requires limit { length input.now ≤ ENCODE_LIMIT }
        requires exact { length output.old ≡ length (text_of self.now input.now) }
        ensures { result.now ≡ text_of self.now input.now }
    {
        self.by_ref().encode_mut_str(input, output)
    }

    /// Returns the text of the data `input`.
    ///
    /// `input` must have at most `ENCODE_LIMIT` bytes. Padding fills the last group, if the
    /// encoding has padding. The separator follows each line, if the encoding has lines.
    ///
    /// Returns an error only if memory runs out, and never if `input` is empty.
    ///
    /// ```
    /// assert!(rt; base64().encode(alloc, b"Hello")?.as_str() == "SGVsbG8=");
    /// ```
    pub fn encode(&self, alloc: Global, input: &[u8]) -> Result<String, AllocError>
        requires limit { length input.now ≤ ENCODE_LIMIT }
        ensures text { IfOk result (λ text. string_bytes text ≡ text_of self.now input.now) }
        ensures empty { length input.now ≡ 0 → IsOk result }
    {
        self.by_ref().encode(alloc, input)
    }

    /// Appends the text of the data `input` to `output`.
    ///
    /// `input` must have at most `ENCODE_LIMIT` bytes.
    ///
    /// Returns an error only if memory runs out, and never if `input` is empty. The bytes and the
    /// capacity of `output` are then unchanged.
    ///
    /// ```
    /// let mut line = String::from_str(alloc, "key: ")?;
    /// hexlower().encode_append(b"Hi", &mut line)?;
    /// assert!(rt; line.as_str() == "key: 4869");
    /// ```
    pub fn encode_append(&self, input: &[u8], output: &mut String) -> Result<(), AllocError>
        requires limit { length input.now ≤ ENCODE_LIMIT }
        ensures { AppendsText self.now input.now output.old output.new result }
    {
        self.by_ref().encode_append(input, output)
    }

    /// Writes the text of the data `input` to the writer `output`, through `buffer`.
    ///
    /// `buffer` must have at least 510 bytes. `buffer` or `input` must have at most `ENCODE_LIMIT`
    /// bytes. Each call of the writer gets the text of as many whole groups, or whole lines, as fit
    /// `buffer`. The last call gets the rest. If `input` is empty, the writer is not called.
    ///
    /// Returns an error only if a call of the writer fails. That is then the last call, and the
    /// text of the calls before it stays written. The contents of `buffer` are unspecified
    /// afterwards.
    pub fn encode_write_buffer<W: fmt::Write>(
        &self,
        input: &[u8],
        output: &mut W,
        buffer: &mut [u8],
    ) -> fmt::Result
        requires room { 510 ≤ length buffer.old }
        requires limit { (length buffer.old ≤ ENCODE_LIMIT) ⊎ (length input.now ≤ ENCODE_LIMIT) }
        ensures written { OnOk result
            (WritesInCalls W.write_str_gives output.old (text_of self.now input.now) output.new) }
        ensures empty { length input.now ≡ 0 → IsOk result × (output.new ≡ output.old) }
    {
        self.by_ref().encode_write_buffer(input, output, buffer)
    }

    /// Writes the text of the data `input` to the writer `output`, like
    /// [`encode_write_buffer`](Encoding::encode_write_buffer) with a buffer of 1,024 bytes on the
    /// stack.
    ///
    /// `input` may have any length.
    pub fn encode_write<W: fmt::Write>(&self, input: &[u8], output: &mut W) -> fmt::Result
        ensures written { OnOk result
            (WritesInCalls W.write_str_gives output.old (text_of self.now input.now) output.new) }
        ensures empty { length input.now ≡ 0 → IsOk result × (output.new ≡ output.old) }
    {
        self.by_ref().encode_write(input, output)
    }

    /// Returns the number of bytes of data, in whole groups or whole lines, with a text that fits
    /// an output of `output_len` bytes.
    ///
    /// `output_len` must be at least 510. The text of fewer bytes fits, too. If data is cut into
    /// pieces of this length and a last piece of any length, the texts of the pieces, joined, are
    /// the text of the data.
    pub fn encode_piece_len(&self, output_len: usize) -> usize
        requires room { 510 ≤ output_len }
        ensures { IsPieceLen self.now output_len result }
    {
        self.by_ref().encode_piece_len(output_len)
    }

    /// Returns a value that prints the text of the data `input`.
    ///
    /// It makes the same calls as [`encode_write`](Encoding::encode_write).
    ///
    /// ```
    /// let encoding = base64();
    /// let line = format!(in alloc; "{}", encoding.encode_display(b"Hello"))?;
    /// assert!(rt; line.as_str() == "SGVsbG8=");
    /// ```
    pub fn encode_display<'a>(&'a self, input: &'a [u8]) -> Display<'a>
        ensures text { shown_text result ≡ text_of self.now input.now }
        ensures data { shown_data result ≡ input.now }
    {
        self.by_ref().encode_display(input)
    }

    /// Returns the greatest number of bytes that a text of `len` bytes may mean.
    ///
    /// `len` must be at most `DECODE_LIMIT`. If no byte is ignored and no text has this length,
    /// returns a `Length` fault. Its position is the longest valid length below `len`. The texts of
    /// a padded encoding are whole groups.
    ///
    /// ```
    /// assert!(rt; base64().decode_len(8).is_ok_and(|most| most == 6));
    /// assert!(rt; base64().decode_len(7).is_err_and(|error| error.position == 4));
    /// ```
    pub fn decode_len(&self, len: usize) -> Result<usize, DecodeError>
        requires limit { len ≤ DECODE_LIMIT }
        ensures { IsDecodeLen self.now len result }
    {
        self.by_ref().decode_len(len)
    }

    /// Decodes the text `input` to the start of `output`, and returns the length of the data in
    /// bytes.
    ///
    /// `input` must have at most `DECODE_LIMIT` bytes. It may be several concatenated padded texts,
    /// if the encoding allows it. `output` must have exactly the length that `decode_len` returns
    /// for `input.len()`. The bytes of `output` after the data are unspecified. If the encoding has
    /// no padding and ignores no byte, the data fills `output`.
    ///
    /// Returns the fault of an invalid text. The first `read` bytes of `input` then mean the first
    /// `written` bytes of `output`, and the other bytes of `output` are unspecified. `read` is the
    /// end of the last group before the faulty one, or 0 if there is none, except after some
    /// `Length` faults.
    ///
    /// Only the last group can have a `Length` fault, and only if the encoding ignores bytes. Let
    /// `rest` be the bytes of `input` after the groups before it, and `front` the longest prefix of
    /// `rest` with a valid length. If `front` has no ignored byte and no fault, `read` is the
    /// position of the fault.
    ///
    /// ```
    /// let mut output = [0; 6];
    /// let result = base64().decode_mut(b"SGVs!G8=", &mut output);
    /// assert!(rt; result.is_err_and(|partial| partial.error.position == 4 && partial.read == 4));
    /// assert!(rt; &output[..3] == b"Hel".as_slice());
    /// ```
    pub fn decode_mut(&self, input: &[u8], output: &mut [u8]) -> Result<usize, DecodePartial>
        requires limit { length input.now ≤ DECODE_LIMIT }
        requires exact { decoded_len self.now (length input.now) ≡ Ok (length output.old) }
        ensures { DecodesText self.now input.now output.old output.new result }
    {
        self.by_ref().decode_mut(input, output)
    }

    /// Returns the data that the text `input` means.
    ///
    /// `input` must have at most `DECODE_LIMIT` bytes. It may be several concatenated padded texts,
    /// if the encoding allows it.
    ///
    /// Returns the fault of an invalid text. This is the fault of its length or, if the length has
    /// no fault, of its first faulty group. In a group, the padding is checked before the symbols.
    /// Returns `OutOfMemory` only if memory runs out and `decode_len` returns more than 0 for
    /// `input.len()`.
    ///
    /// ```
    /// assert!(rt; base64().decode(alloc, b"SGVsbG8=")?.as_slice() == b"Hello".as_slice());
    /// ```
    pub fn decode(&self, alloc: Global, input: &[u8]) -> Result<Vec<u8>, DecodeFault>
        requires limit { length input.now ≤ DECODE_LIMIT }
        ensures { DecodesWhole self.now input.now result }
    {
        self.by_ref().decode(alloc, input)
    }

    /// Returns `true` if no two different texts mean the same data.
    ///
    /// This is the case if and only if trailing bits are checked, no byte is ignored or translated,
    /// and padded texts may not be concatenated.
    ///
    /// ```
    /// assert!(rt; hexlower().is_canonical() && !base64().is_canonical());
    /// ```
    pub fn is_canonical(&self) -> bool
        ensures canonical { IsTrue result ↔ IsCanonical self.now }
        ensures causes { result ≡ has_one_text self.now }
    {
        self.by_ref().is_canonical()
    }

    /// Returns a specification from which the encoding can be built again.
    ///
    /// Its ignored bytes and its translations are in ascending order. It has a translation for each
    /// byte that means a symbol or padding and is not itself that character.
    ///
    /// Returns an error only if memory runs out.
    ///
    /// ```
    /// let specification = base64().specification(alloc)?;
    /// assert!(rt; specification.padding == Some('='));
    /// ```
    pub fn specification(&self, alloc: Global) -> Result<Specification, AllocError>
        ensures { IfOk result (λ specification. specified specification ≡ fields_of self.now) }
    {
        self.by_ref().specification(alloc)
    }

    /// Returns the specification of the encoding, like [`specification`](Encoding::specification),
    /// without allocation.
    pub fn specification_bytes(&self) -> SpecificationBytes
        ensures { fields_of_bytes result ≡ fields_of self.now }
    {
        self.by_ref().specification_bytes()
    }

    /// Returns the layout of the encoding: 514 to 770 bytes from which
    /// [`internal_new`](Encoding::internal_new) builds it again.
    ///
    /// Nothing is allocated. The bytes are:
    ///
    /// - 0 to 255: the symbols, repeated.
    /// - 256 to 511: the meaning of each of the 256 bytes. It is the value of a symbol, 128 for
    ///   invalid, 129 for ignored, or 130 for padding.
    /// - 512: the padding character, or 128 if there is none.
    /// - 513: the sum of the number of bits of a symbol, 8 if the most significant bit comes first,
    ///   16 if trailing bits are checked, and 32 if texts may not be concatenated.
    /// - From 514 on: with lines, the number of characters of a line and the separator. Without
    ///   lines, one 0 if some byte is ignored, and otherwise nothing.
    ///
    /// ```
    /// let layout = base64().internal_implementation();
    /// assert!(rt; Encoding::internal_new(&layout) == Some(base64()));
    /// ```
    pub fn internal_implementation(&self) -> ArrayVec<u8, 770>
        ensures { result.items ≡ layout self.now }
    {
        self.by_ref().internal_implementation()
    }
}
