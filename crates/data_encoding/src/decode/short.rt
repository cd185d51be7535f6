//! Decoding of a text that has ignored bytes only at its end, as long as it is valid.
//!
//! The last symbols are decoded in one vector, with the padding or the trailing bits after them.

ghost use Rattle.std.specs.Prelude.{◌≡◌, ℕ, ◌+◌, ◌*◌, ◌/◌, ◌<◌, ◌≤◌, true, false, [], length, drop, slice_index, IsTrue};
ghost use Rattle.data_encoding_meaning.specs.text.Base.{IsWidth, group_symbols, ignores_some};
ghost use Rattle.data_encoding_meaning.specs.text.Grammar.{kept};
ghost use Rattle.data_encoding_meaning.specs.text.Lengths.{is_valid_length};
ghost use Rattle.data_encoding.specs.Endings.{EndsAfter, FindsSymbols, HasBegun, HasReachedTo, IsFrontOf, IsPaddedBy, JoinsSymbols};
ghost use Rattle.data_encoding.specs.Progress.{HasExactOutput};

use crate::decode::Stop;
use crate::decode::decoding_loop::Progress;
use crate::encoding::{EncodingRef, IGNORED};
use data_encoding_kernel::copy::store_front;
use data_encoding_kernel::decode::load_at;
use data_encoding_kernel::simd::decode::last_symbols::{Front, Join, decode_front, decode_whole};
use data_encoding_kernel::simd::decode::look_up::LookUp;
use data_encoding_kernel::simd::padded_load::load_padded;
use data_encoding_kernel::words::front_by_table;
use std::simd::prelude::*;

impl EncodingRef<'_> {
    /// Returns how the values of symbols are joined to bytes.
    #[inline(always)]
    pub(crate) fn join(&self) -> &'static Join
        ensures join { JoinsSymbols self.now result.now }
        ensures width { IsWidth self.now.width }
    {
        Join::of(self.fields.order(), self.fields.width as usize)
    }

    /// Decodes a text like `decode_valid`, by the table itself. A platform without SIMD takes it.
    pub(crate) fn decode_in_words(&self, input: &[u8], output: &mut [u8], stop: &mut Stop) -> bool
        requires exact { HasExactOutput self.now input.now output.old }
        ensures begun { HasBegun self.now input.now output.new stop.new result }
        ensures width { IsWidth self.now.width }
    {
        let values = &self.fields.values.entries;
        let join = self.join();
        let read = join.decode_in_words(values, input, output);
        let at = Progress {
            read,
            written: join.groups_len(read),
            ignored: 0,
        };
        let rest = &input[read..];
        if rest.len() > 8 {
            stop.read = at.read;
            stop.written = at.written;
            return false;
        }
        let front = front_by_table(values, join, rest);
        self.decode_last(&front, join, at, input, output, stop)
    }

    /// Decodes a text of at most sixteen bytes, like `decode_valid`.
    #[inline(never)]
    pub(crate) fn decode_short<L: LookUp>(
        &self,
        look_up: &L,
        input: &[u8],
        output: &mut [u8],
        stop: &mut Stop,
    ) -> bool
        requires finds { FindsSymbols L.holds self.now look_up.now }
        requires few { length input.now ≤ 16 }
        requires exact { HasExactOutput self.now input.now output.old }
        ensures begun { HasBegun self.now input.now output.new stop.new result }
    {
        let join = self.join();
        let front = decode_front(look_up, join, input.len(), load_padded(input));
        let start = Progress {
            read: 0,
            written: 0,
            ignored: 0,
        };
        self.decode_last(&front, join, start, input, output, stop)
    }

    /// Decodes a text of more than sixteen bytes, like `decode_valid`.
    #[inline(never)]
    pub(crate) fn decode_longer<L: LookUp>(
        &self,
        look_up: &L,
        input: &[u8],
        output: &mut [u8],
        stop: &mut Stop,
    ) -> bool
        requires finds { FindsSymbols L.holds self.now look_up.now }
        requires many { 16 < length input.now }
        requires exact { HasExactOutput self.now input.now output.old }
        ensures begun { HasBegun self.now input.now output.new stop.new result }
    {
        let join = self.join();
        let mut at = Progress {
            read: 0,
            written: 0,
            ignored: 0,
        };
        if input.len() >= 8 * join.group_symbols() {
            at = self.decode_eights::<L>(look_up, join, input, output);
            let left = input.len() - at.read;
            // With more left, an iteration stopped at a byte that is not a symbol.
            if left == 0 || left >= 8 * join.group_symbols() {
                stop.read = at.read;
                stop.written = at.written;
                return left == 0;
            }
        }
        let at = self.decode_windows::<L>(look_up, join, at, input, output);
        let len = (input.len() - at.read).min(16);
        let front = decode_front(look_up, join, len, load_at(input, at.read));
        self.decode_last(&front, join, at, input, output, stop)
    }

    /// Decodes the groups of a text by iterations of eight, up to one with a byte that is not a
    /// symbol.
    #[inline(always)]
    fn decode_eights<L: LookUp>(
        &self,
        look_up: &L,
        join: &Join,
        input: &[u8],
        output: &mut [u8],
    ) -> Progress
        requires join { JoinsSymbols self.now join.now }
        requires finds { FindsSymbols L.holds self.now look_up.now }
        requires exact { HasExactOutput self.now input.now output.old }
        ensures reached { HasReachedTo self.now input.now result.read result.written output.new }
    {
        let read = join.decode_iterations::<L>(look_up, input, output);
        let read = join.whole_groups(read);
        Progress {
            read,
            written: join.groups_len(read),
            ignored: 0,
        }
    }

    /// Decodes sixteen symbols after another, up to the last sixteen bytes or to a byte that is not
    /// a symbol.
    #[inline(always)]
    fn decode_windows<L: LookUp>(
        &self,
        look_up: &L,
        join: &Join,
        start: Progress,
        input: &[u8],
        output: &mut [u8],
    ) -> Progress
        requires join { JoinsSymbols self.now join.now }
        requires finds { FindsSymbols L.holds self.now look_up.now }
        requires start { HasReachedTo self.now input.now start.read start.written output.old }
        ensures reached { HasReachedTo self.now input.now result.read result.written output.new }
    {
        let mut at = start;
        while input.len() - at.read > 16 {
            let bytes = u8x16::from_slice(&input[at.read..at.read + 16]);
            let Some(decoded) = decode_whole(look_up, join, bytes) else {
                return at;
            };
            store_front(&decoded, 2 * join.width, &mut output[at.written..]);
            at.read += 16;
            at.written += 2 * join.width;
        }
        at
    }

    /// Stores what the last symbols mean if the text is valid, or else what their whole groups
    /// mean.
    #[inline(always)]
    fn decode_last(
        &self,
        front: &Front,
        join: &Join,
        at: Progress,
        input: &[u8],
        output: &mut [u8],
        stop: &mut Stop,
    ) -> bool
        requires join { JoinsSymbols self.now join.now }
        requires at { HasReachedTo self.now input.now at.read at.written output.old }
        requires front { IsFrontOf self.now (drop at.read input.now) front.now }
        ensures { HasBegun self.now input.now output.new stop.new result }
    {
        let is_valid = self.is_end(front, join, &input[at.read..]);
        let symbols = if is_valid {
            front.symbols
        } else {
            join.whole_groups(front.symbols)
        };
        let count = join.bytes_len(symbols);
        store_front(&front.bytes.to_array(), count, &mut output[at.written..]);
        stop.read = at.read + symbols;
        stop.written = at.written + count;
        is_valid
    }

    /// Returns `true` if a text may end with these symbols, their trailing bits, and the bytes
    /// after them.
    #[inline(always)]
    fn is_end(&self, front: &Front, join: &Join, rest: &[u8]) -> bool
        requires join { JoinsSymbols self.now join.now }
        requires front { IsFrontOf self.now rest.now front.now }
        requires valid { ignores_some self.now ≡ false
            → is_valid_length self.now (length rest.now) ≡ true }
        ensures end { IsTrue result
            → (padding : ℕ) × EndsAfter self.now rest.now front.now.symbols padding }
        ensures trailing { IsTrue result → self.now.checks_trailing_bits ≡ true
            → slice_index front.now.bytes (self.now.width * front.now.symbols / 8) ≡ 0 }
    {
        if rest.len() > 16 || !self.ends_at(front, join, rest) {
            return false;
        }
        // The byte after the data has the trailing bits. It is read only where it decides.
        !self.fields.checks_trailing_bits
            || front.bytes.to_array()[join.bytes_len(front.symbols)] == 0
    }

    /// Returns `true` if a text may end with these symbols and the bytes after them.
    #[inline(always)]
    fn ends_at(&self, front: &Front, join: &Join, rest: &[u8]) -> bool
        requires join { JoinsSymbols self.now join.now }
        requires front { IsFrontOf self.now rest.now front.now }
        requires few { length rest.now ≤ 16 }
        requires valid { ignores_some self.now ≡ false
            → is_valid_length self.now (length rest.now) ≡ true }
        ensures { IsTrue result
            → (padding : ℕ) × EndsAfter self.now rest.now front.now.symbols padding }
    {
        let left = rest.len() - front.symbols;
        if !self.fields.ignores {
            return left == 0 || self.is_padded_by(front, join, left);
        }
        let padding = self.padding_after(front, left);
        let end = front.symbols + padding;
        self.is_valid_length(end)
            && (padding == 0 || self.is_padded_by(front, join, padding))
            && self.are_ignored(front.others >> end, &rest[end..])
    }

    /// Returns `true` if a group may end with `count` bytes of padding after the symbols, and they
    /// are the padding character.
    #[inline(always)]
    fn is_padded_by(&self, front: &Front, join: &Join, count: usize) -> bool
        requires join { JoinsSymbols self.now join.now }
        requires few { front.now.symbols ≤ 16 }
        ensures { IsTrue result → IsPaddedBy self.now front.now count }
    {
        if !self.fields.is_padded() || count >= join.group_symbols() {
            return false;
        }
        if join.width * front.symbols % 8 >= join.width {
            return false;
        }
        front.count_alike(self.fields.padding) >= count
    }

    /// Returns how many of the next `len` bytes are the padding character, if there is one.
    #[inline(always)]
    fn padding_after(&self, front: &Front, len: usize) -> usize
        requires few { front.now.symbols ≤ 16 }
        ensures few { result ≤ len }
    {
        if !self.fields.is_padded() {
            return 0;
        }
        front.count_alike(self.fields.padding).min(len)
    }

    /// Returns `true` if all bytes are ignored. `others` has the bits of those that are not
    /// symbols.
    #[inline(always)]
    fn are_ignored(&self, others: u64, rest: &[u8]) -> bool
        requires few { length rest.now ≤ 16 }
        ensures { IsTrue result → kept self.now rest.now ≡ [] }
    {
        for index in 0..rest.len() {
            // The table is read only at a byte that is not a symbol, so no address depends on a
            // symbol.
            let is_other = (others >> index) % 2 == 1;
            if !is_other || self.fields.values.entries[rest[index] as usize] != IGNORED {
                return false;
            }
        }
        true
    }
}
