//! The lengths of texts, and the greatest lengths of their data.

ghost use Rattle.std.specs.Prelude.{◌≡◌, false, ◌<◌, ◌≤◌};
ghost use Rattle.data_encoding.specs.Calls.{IsDecodeLen};
ghost use Rattle.data_encoding_meaning.specs.text.Lengths.{greatest_valid_length, is_valid_length, most_bytes};

use crate::decode::DECODE_LIMIT;
use crate::encoding::{Encoding, EncodingRef, group_bytes, group_symbols};
use crate::error::{DecodeError, DecodeKind};

impl EncodingRef<'_> {
    /// Like [`Encoding::decode_len`].
    #[inline(always)]
    pub fn decode_len(&self, len: usize) -> Result<usize, DecodeError>
        requires limit { len ≤ DECODE_LIMIT }
        ensures { IsDecodeLen self.now len result }
    {
        if self.fields.ignores {
            return Ok(self.most_bytes(len));
        }
        if !self.is_valid_length(len) {
            return Err(DecodeError {
                position: self.greatest_valid_length(len),
                kind: DecodeKind::Length,
            });
        }
        // If texts are padded, no symbol follows the whole groups.
        Ok(self.bit_width() * len / 8)
    }

    /// Returns `true` if a text of `len` bytes, none of them ignored, may mean something.
    #[inline(always)]
    pub(crate) fn is_valid_length(&self, len: usize) -> bool
        requires limit { len ≤ DECODE_LIMIT }
        ensures { result ≡ is_valid_length self.now len }
    {
        let width = self.bit_width();
        let left = width * len % 8;
        if self.fields.is_padded() {
            // The bits of symbols are whole bytes if and only if their groups are whole.
            return left == 0;
        }
        left < width
    }

    /// Returns the greatest valid length up to `len`, for texts without ignored bytes.
    // Not inlined, since it is needed for faults only.
    #[inline(never)]
    pub(crate) fn greatest_valid_length(&self, len: usize) -> usize
        requires limit { len ≤ DECODE_LIMIT }
        ensures value { result ≡ greatest_valid_length self.now len }
        ensures most { result ≤ len }
        ensures less { is_valid_length self.now len ≡ false → result < len }
    {
        if self.fields.is_padded() {
            let symbols = group_symbols(self.fields.width) as usize;
            return len / symbols * symbols;
        }
        let width = self.fields.width as usize;
        len - width * len % 8 / width
    }

    /// Returns the greatest number of bytes that a text of `len` bytes may mean.
    fn most_bytes(&self, len: usize) -> usize
        requires limit { len ≤ DECODE_LIMIT }
        ensures { result ≡ most_bytes self.now len }
    {
        if self.fields.is_padded() {
            let symbols = group_symbols(self.fields.width) as usize;
            return len / symbols * group_bytes(self.fields.width) as usize;
        }
        self.fields.width as usize * len / 8
    }
}
