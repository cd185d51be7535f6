//! Decoding of consecutive whole groups, without ignored bytes.

ghost use Rattle.std.specs.Prelude.{◌≡◌, true, ◌+◌, ◌*◌, ◌/◌, ◌≤◌, length, take, IsTrue};
ghost use Rattle.data_encoding.specs.Groups.{HasReadGroups};
ghost use Rattle.data_encoding.specs.Progress.{ReadsBy};
ghost use Rattle.data_encoding.specs.Endings.{JoinsSymbols};
ghost use Rattle.data_encoding_meaning.specs.text.Base.{group_bytes, group_symbols};

use crate::encoding::EncodingRef;
use data_encoding_kernel::decode::decode_run;
use data_encoding_kernel::ignore::IgnoredBytes;
use data_encoding_kernel::simd::decode::last_symbols::Join;
use data_encoding_kernel::simd::decode::look_up::LookUp;

/// The entries of all bytes, the look-up that has them in SIMD vectors, the join of their values,
/// and the ignored bytes.
// Passed by value, and held by references: an address of the struct would leave the function, so
// that short texts would compute the ignored bytes too.
#[derive(Clone, Copy, Drop)]
pub(crate) struct Entries<'a, L> {
    pub(crate) values: &'a [u8; 256],
    pub(crate) look_up: &'a L,
    pub(crate) join: &'a Join,
    pub(crate) ignored: &'a IgnoredBytes,
}

/// How many bytes of a part were read, and how many of the output were written.
#[derive(Clone, Copy, Drop)]
pub(crate) struct Groups {
    pub(crate) read: usize,
    pub(crate) written: usize,
}

impl EncodingRef<'_> {
    /// Decodes whole groups of symbols of the first `len` bytes of `part`, by `count` iterations of
    /// eight groups.
    #[inline(always)]
    pub(crate) fn decode_line<L: LookUp>(
        &self,
        entries: Entries<'_, L>,
        count: usize,
        part: &[u8],
        len: usize,
        output: &mut [u8],
    ) -> Groups
        requires entries { ReadsBy L.holds self.now entries }
        requires within { len ≤ length part.now }
        requires room { len / group_symbols self.now.width * group_bytes self.now.width
            ≤ length output.old }
        requires few { count * 8 * group_symbols self.now.width ≤ length part.now }
        requires bytes { count * 8 * group_bytes self.now.width ≤ length output.old }
        ensures { HasReadGroups self.now (take len part.now) result output.new }
    {
        let join = entries.join;
        let read = join.decode_line::<L>(entries.look_up, count, part, len, output);
        let read = join.whole_groups(read);
        Groups {
            read,
            written: join.groups_len(read),
        }
    }

    /// Decodes whole groups of the first `len` bytes of `part`: groups of symbols and, if texts may
    /// be concatenated, padded ones.
    ///
    /// Stops at the first group that has an ignored byte or a fault. May load the bytes after the
    /// first `len`.
    #[inline(always)]
    pub(crate) fn decode_groups<L: LookUp>(
        &self,
        entries: Entries<'_, L>,
        part: &[u8],
        len: usize,
        output: &mut [u8],
    ) -> Groups
        requires entries { ReadsBy L.holds self.now entries }
        requires few { len ≤ length part.now }
        requires room { len / group_symbols self.now.width * group_bytes self.now.width
            ≤ length output.old }
        ensures { HasReadGroups self.now (take len part.now) result output.new }
    {
        let mut at = Groups {
            read: 0,
            written: 0,
        };
        for _ in 0..len {
            let next = self.decode_run_at::<L>(entries, part, len, at, output);
            at = self.decode_padded_at::<L>(entries, part, len, next, output);
            if at.read == next.read {
                break;
            }
        }
        at
    }

    /// Decodes groups of symbols only. No run is tried before a padded group.
    #[inline(always)]
    fn decode_run_at<L: LookUp>(
        &self,
        entries: Entries<'_, L>,
        part: &[u8],
        len: usize,
        at: Groups,
        output: &mut [u8],
    ) -> Groups
        requires entries { ReadsBy L.holds self.now entries }
        requires few { len ≤ length part.now }
        requires at { HasReadGroups self.now (take len part.now) at output.old }
        ensures on { HasReadGroups self.now (take len part.now) result output.new }
        ensures further { at.read ≤ result.read }
    {
        if self.is_padded_at(entries.join, part, len, at.read) {
            return at;
        }
        let read = decode_run::<L>(
            entries.values,
            entries.look_up,
            entries.join,
            &part[at.read..],
            len - at.read,
            &mut output[at.written..],
        );
        Groups {
            read: at.read + read,
            written: at.written + entries.join.groups_len(read),
        }
    }

    /// Decodes the next group, if it is padded and others may follow it.
    #[inline(always)]
    fn decode_padded_at<L: LookUp>(
        &self,
        entries: Entries<'_, L>,
        part: &[u8],
        len: usize,
        at: Groups,
        output: &mut [u8],
    ) -> Groups
        requires entries { ReadsBy L.holds self.now entries }
        requires few { len ≤ length part.now }
        requires at { HasReadGroups self.now (take len part.now) at output.old }
        ensures on { HasReadGroups self.now (take len part.now) result output.new }
        ensures further { at.read ≤ result.read }
    {
        if !self.is_padded_at(entries.join, part, len, at.read) {
            return at;
        }
        let end = at.read + entries.join.group_symbols();
        let group = &part[at.read..end];
        let room = &mut output[at.written..];
        match self.decode_group::<L>(entries, group, room) {
            Ok(count) => Groups {
                read: end,
                written: at.written + entries.join.bytes_len(count),
            },
            Err(_) => at,
        }
    }

    /// Returns `true` if the next group ends in the padding character, and others may follow it.
    // Groups that end in a byte that is translated to padding are decoded one by one.
    #[inline(always)]
    fn is_padded_at(&self, join: &Join, part: &[u8], len: usize, read: usize) -> bool
        requires join { JoinsSymbols self.now join.now }
        requires few { len ≤ length part.now }
        requires within { read ≤ len }
        ensures concatenates { IsTrue result → self.now.concatenates ≡ true }
        ensures within { IsTrue result → read + group_symbols self.now.width ≤ len }
    {
        let symbols = join.group_symbols();
        self.fields.concatenates
            && len - read >= symbols
            && part[read + symbols - 1] == self.fields.padding
    }
}
