//! Decoding: from text to data.

pub(crate) mod decoding_loop;
pub(crate) mod dispatch;
pub(crate) mod group;
pub(crate) mod groups;
pub(crate) mod length;
pub(crate) mod next_group;
pub(crate) mod packed;
pub(crate) mod short;

ghost use Rattle.std.specs.Prelude.{◌≡◌, true, ◌-◌, ◌<◌, ◌≤◌, length, take, drop, Ok};
ghost use Rattle.data_encoding_meaning.specs.text.Base.{IsWidth};
ghost use Rattle.data_encoding_meaning.specs.text.Grammar.{kept};
ghost use Rattle.data_encoding_meaning.specs.text.Lengths.{decoded_len};
ghost use Rattle.data_encoding_meaning.specs.decoding.Decoding.{HasRoom, IsStop};
ghost use Rattle.data_encoding_meaning.specs.decoding.Partial.{is_length_fault};
ghost use Rattle.data_encoding.specs.Calls.{DecodesText, DecodesWhole};
ghost use Rattle.data_encoding.specs.Endings.{HasReachedTo};
ghost use Rattle.data_encoding.specs.Steps.{DecodesLastRun, fault_of_stop};

use crate::decode::groups::Entries;
use crate::encoding::{Encoding, EncodingRef};
use crate::error::{DecodeError, DecodeFault, DecodeKind, DecodePartial};
use crate::memory::zeros;
use data_encoding_kernel::ignore::IgnoredBytes;
use data_encoding_kernel::simd::decode::look_up::LookUp;
use data_encoding_kernel::simd::decode::table_rows::Rows;
use data_encoding_meaning::limits;
use std::alloc::Global;

/// The greatest length of a text that one call decodes, in bytes.
pub const DECODE_LIMIT: usize = limits::DECODE_LIMIT;

// 2^61 - 1
const _: () = prove!(DECODE_LIMIT == 2305843009213693951);

// How many bytes a decoding has read and written. After a fault, also the index of the faulty byte
// in its group, where ignored bytes do not count, and the kind of the fault. The fields are
// scalars, so that they can stay in registers.
#[derive(Clone, Copy, Drop)]
pub(crate) struct Stop {
    pub(crate) read: usize,
    pub(crate) written: usize,
    pub(crate) index: usize,
    pub(crate) kind: DecodeKind,
}

impl Stop {
    /// Returns the stop at a fault. `index` is its index in the group after `read` bytes.
    #[inline(always)]
    pub(crate) fn new(read: usize, written: usize, index: usize, kind: DecodeKind) -> Stop
        ensures { result ≡ record { read = read; written = written; index = index; kind = kind } }
    {
        Stop {
            read,
            written,
            index,
            kind,
        }
    }
}

impl EncodingRef<'_> {
    /// Like [`Encoding::decode_mut`].
    #[inline(always)]
    pub fn decode_mut(&self, input: &[u8], output: &mut [u8]) -> Result<usize, DecodePartial>
        requires limit { length input.now ≤ DECODE_LIMIT }
        requires exact { decoded_len self.now (length input.now) ≡ Ok (length output.old) }
        ensures { DecodesText self.now input.now output.old output.new result }
    {
        let mut stop = Stop::new(0, 0, 0, DecodeKind::Length);
        if self.decode_valid(input, output, &mut stop) {
            return Ok(stop.written);
        }
        self.decode_after(input, output, stop)
    }

    /// Decodes the bytes of a text after those that `stop` has, like `decode_mut`.
    // Not inlined, so that `decode_mut` is small enough to be inlined.
    #[cold]
    #[inline(never)]
    fn decode_after(
        &self,
        input: &[u8],
        output: &mut [u8],
        stop: Stop,
    ) -> Result<usize, DecodePartial>
        requires width { IsWidth self.now.width }
        requires at { HasReachedTo self.now input.now stop.read stop.written output.old }
        ensures { DecodesText self.now input.now output.old output.new result }
    {
        let mut stop = stop;
        if self.decode_rest(input, output, &mut stop) {
            return Ok(stop.written);
        }
        Err(self.partial_error(input, output, stop))
    }

    /// Like [`Encoding::decode`].
    pub fn decode(&self, alloc: Global, input: &[u8]) -> Result<Vec<u8>, DecodeFault>
        requires limit { length input.now ≤ DECODE_LIMIT }
        ensures { DecodesWhole self.now input.now result }
    {
        let len = self.decode_len(input.len())?;
        let mut output = zeros(alloc, len)?;
        match self.decode_mut(input, &mut output) {
            Ok(count) => {
                output.truncate(count);
                Ok(output)
            }
            Err(partial) => Err(DecodeFault::Error(partial.error)),
        }
    }

    /// Returns the error of the faulty group that follows the first `stop.read` bytes.
    ///
    /// After a `Length` fault, the part of that group that `decode_prefix` decodes is read
    /// and written too.
    #[inline(always)]
    fn partial_error(&self, input: &[u8], output: &mut [u8], stop: Stop) -> DecodePartial
        requires limit { length input.now ≤ DECODE_LIMIT }
        requires within { stop.read ≤ length input.now }
        requires fits { stop.written ≤ length output.old }
        requires inside { stop.index < length (kept self.now (drop stop.read input.now)) }
        requires room { is_length_fault stop.kind ≡ true
            → HasRoom self.now (drop stop.read input.now) (length output.old - stop.written) }
        ensures stop { IsStop self.now (drop stop.read input.now) stop.read stop.written
            (fault_of_stop stop) output.new result }
        ensures kept { take stop.written output.new ≡ take stop.written output.old }
    {
        let rest = &input[stop.read..];
        let mut read = stop.read;
        let mut written = stop.written;
        let position = read + self.kept_position(rest, stop.index);
        if matches!(stop.kind, DecodeKind::Length) {
            if let Some(count) = self.decode_prefix(rest, &mut output[written..]) {
                read = position;
                written += count;
            }
        }
        DecodePartial {
            read,
            written,
            error: DecodeError {
                position,
                kind: stop.kind,
            },
        }
    }

    /// Decodes the longest prefix of `rest` that has a valid length.
    ///
    /// Returns the number of bytes that the prefix means, or `None` if the prefix has an ignored
    /// byte, has a fault, or is longer than a group.
    #[cold]
    #[inline(never)]
    fn decode_prefix(&self, rest: &[u8], output: &mut [u8]) -> Option<usize>
        requires limit { length rest.now ≤ DECODE_LIMIT }
        requires room { HasRoom self.now rest.now (length output.old) }
        ensures { DecodesLastRun self.now rest.now output.new result }
    {
        let len = self.greatest_valid_length(rest.len());
        if len == 0 {
            return Some(0);
        }
        if len > self.join().group_symbols() {
            return None;
        }
        let values = &self.fields.values;
        let entries = Entries {
            values: &values.entries,
            look_up: &Rows::of(values),
            join: self.join(),
            ignored: &IgnoredBytes::of(&values.entries),
        };
        match self.decode_group::<Rows>(entries, &rest[..len], output) {
            Ok(count) => Some(self.join().bytes_len(count)),
            Err(_) => None,
        }
    }
}
