//! Decoding of a text in a loop: groups in place, packed groups, and single groups.

ghost use Rattle.std.specs.Prelude.{◌≡◌, ℕ, List, true, false, ◌+◌, ◌<◌, ◌≤◌, length, drop, IsTrue};
ghost use Rattle.data_encoding_meaning.specs.text.Base.{Base, IsWidth, group_symbols};
ghost use Rattle.data_encoding_meaning.specs.decoding.Decoding.{HasDecodedTo, IsIgnoredFront};
ghost use Rattle.data_encoding_kernel.specs.Ignore.{HoldsIgnored};
ghost use Rattle.data_encoding_kernel.specs.Joins.{IsJoin};
ghost use Rattle.data_encoding.specs.Progress.{GoesOn, HasExactOutput, HasReached, ReadsBy};
ghost use Rattle.data_encoding.specs.Steps.{HasEnded, HasStepped};

use crate::decode::Stop;
use crate::decode::groups::Entries;
use crate::decode::next_group::starts_whole;
use crate::encoding::EncodingRef;
use crate::error::DecodeKind;
use data_encoding_kernel::ignore::IgnoredBytes;
use data_encoding_kernel::platform::has_simd;
use data_encoding_kernel::simd::decode::last_symbols::Join;
use data_encoding_kernel::simd::decode::look_up::LookUp;

/// How far a text was read and its output written, and how many ignored bytes follow.
#[derive(Clone, Copy, Drop)]
pub(crate) struct Progress {
    pub(crate) read: usize,
    pub(crate) written: usize,
    pub(crate) ignored: usize,
}

/// Returns the progress after `read` and `written` bytes. Counts the ignored bytes that follow.
#[inline(always)]
pub(crate) fn progress_at(
    ignored: &IgnoredBytes,
    read: usize,
    written: usize,
    input: &[u8],
) -> Progress
    requires within { read ≤ length input.now }
    ensures read { result.read ≡ read }
    ensures written { result.written ≡ written }
    ensures front { (base : Base) → HoldsIgnored base ignored.now
        → IsIgnoredFront base (drop read input.now) result.ignored }
{
    Progress {
        read,
        written,
        ignored: ignored.front(&input[read..]),
    }
}

/// How a step ended.
#[derive(Clone, Copy, Drop)]
pub(crate) enum Step {
    /// There is more to read.
    More,

    /// The text is valid.
    Ended,

    /// The next group is faulty.
    Faulty,
}

impl EncodingRef<'_> {
    /// Decodes the text after a first run, up to its end or its first fault. Returns `true` if the
    /// text is valid.
    ///
    /// At least every second pass reads a group. A pass tries at most one iteration and one group
    /// without a result. Bytes are packed again only if their group is unfinished, faulty or final.
    #[inline(always)]
    pub(crate) fn decode_steps<L: LookUp>(
        &self,
        entries: Entries<'_, L>,
        first: Progress,
        input: &[u8],
        output: &mut [u8],
        stop: &mut Stop,
    ) -> bool
        requires entries { ReadsBy L.holds self.now entries }
        requires first { HasReached self.now input.now first output.old }
        ensures { HasEnded self.now input.now output.new stop.new result }
    {
        let mut at = first;
        let mut len = at.read;
        while at.read + at.ignored < input.len() {
            if at.ignored > 0 && is_line(entries.join, len) {
                at = self.decode_lines::<L>(entries, len, at, input, output);
            } else {
                let read = at.read;
                if self.is_broken_next(entries, at, input) {
                    at = self.decode_packed::<L>(entries, at, input, output);
                }
                if at.read == read {
                    match self.decode_next::<L>(entries, at, input, output, stop) {
                        Step::More => {
                            at = progress_at(entries.ignored, stop.read, stop.written, input);
                        }
                        Step::Ended => return true,
                        Step::Faulty => return false,
                    }
                }
            }
            let start = at.read + at.ignored;
            at = self.decode_in_place::<L>(entries, at, input, output);
            len = at.read.saturating_sub(start);
        }
        stop.written = at.written;
        true
    }

    /// Decodes lines of `len` bytes, as long as a byte is ignored where each would end: the next
    /// address then does not wait for a count.
    // Not inlined, so that its loop has the registers: inlined, lines of 60 take 1.12 times the
    // instructions.
    #[inline(never)]
    fn decode_lines<L: LookUp>(
        &self,
        entries: Entries<'_, L>,
        len: usize,
        at: Progress,
        input: &[u8],
        output: &mut [u8],
    ) -> Progress
        requires entries { ReadsBy L.holds self.now entries }
        requires some { 0 < len }
        requires within { len ≤ length input.now }
        requires at { HasReached self.now input.now at output.old }
        ensures { GoesOn self.now input.now at.read result output.new }
    {
        let turn = 8 * entries.join.group_symbols();
        let count = entries.join.groups(len - 1) / 8 + 1;
        let read_len = (count * turn).max(len + 1);
        let written_len = entries.join.groups_len(count * turn);
        let mut at = at;
        for _ in 0..input.len() {
            let start = at.read + at.ignored;
            let rest = &input[start..];
            if rest.len() < read_len || output.len() - at.written < written_len {
                break;
            }
            let ignored = entries.ignored.front(&rest[len..]);
            if ignored == 0 {
                break;
            }
            let found = self.decode_line::<L>(entries, count, rest, len, &mut output[at.written..]);
            let written = at.written + found.written;
            if found.read != len {
                if found.read > 0 {
                    at = progress_at(entries.ignored, start + found.read, written, input);
                }
                break;
            }
            at = Progress {
                read: start + len,
                written,
                ignored,
            };
        }
        at
    }

    /// Decodes groups in place, after the ignored bytes before them.
    #[inline(always)]
    fn decode_in_place<L: LookUp>(
        &self,
        entries: Entries<'_, L>,
        at: Progress,
        input: &[u8],
        output: &mut [u8],
    ) -> Progress
        requires entries { ReadsBy L.holds self.now entries }
        requires at { HasReached self.now input.now at output.old }
        ensures on { GoesOn self.now input.now at.read result output.new }
        ensures past { at.read < result.read → at.read + at.ignored < result.read }
    {
        let start = at.read + at.ignored;
        let rest = &input[start..];
        let room = &mut output[at.written..];
        let found = self.decode_groups::<L>(entries, rest, rest.len(), room);
        if found.read == 0 {
            return at;
        }
        let written = at.written + found.written;
        progress_at(entries.ignored, start + found.read, written, input)
    }

    /// Returns `true` if bytes before or within the next group are ignored.
    // With fewer than sixteen bytes left, groups by themselves take less time than packing.
    #[inline(always)]
    fn is_broken_next<L: LookUp>(&self, entries: Entries<'_, L>, at: Progress, input: &[u8]) -> bool
        requires entries { ReadsBy L.holds self.now entries }
        requires within { at.read + at.ignored ≤ length input.now }
    {
        if !has_simd() || !self.fields.ignores {
            return false;
        }
        let rest = &input[at.read + at.ignored..];
        let symbols = entries.join.group_symbols();
        rest.len() >= 16 && (at.ignored > 0 || !starts_whole(symbols, entries.ignored, rest))
    }

    /// Decodes the next group by itself.
    // The caller makes the error, since a result with room for one makes short texts slower.
    #[inline(always)]
    pub(crate) fn decode_next<L: LookUp>(
        &self,
        entries: Entries<'_, L>,
        at: Progress,
        input: &[u8],
        output: &mut [u8],
        stop: &mut Stop,
    ) -> Step
        requires entries { ReadsBy L.holds self.now entries }
        requires at { HasReached self.now input.now at output.old }
        ensures { HasStepped self.now input.now at.read output.new stop.new result }
    {
        let start = at.read + at.ignored;
        if start == input.len() {
            stop.written = at.written;
            return Step::Ended;
        }
        let symbols = entries.join.group_symbols();
        let mut room = [0; 8];
        let group = self.next_group(symbols, entries.ignored, &input[start..], &mut room);
        if group.bytes.is_empty() {
            stop.written = at.written;
            return Step::Ended;
        }
        let rest = &mut output[at.written..];
        let count = match self.decode_group::<L>(entries, group.bytes, rest) {
            Ok(count) => count,
            Err(fault) => {
                *stop = Stop::new(at.read, at.written, fault.index, fault.kind);
                return Step::Faulty;
            }
        };
        stop.read = start + group.span;
        stop.written = at.written + entries.join.bytes_len(count);
        if count < group.bytes.len() && !self.fields.concatenates {
            if self.check_nothing_follows(symbols, input, stop) {
                return Step::Ended;
            }
            return Step::Faulty;
        }
        Step::More
    }

    /// Returns `true` if nothing follows a final group. Otherwise sets a fault at the first byte of
    /// the next group.
    // Not inlined, since only texts that end in padding need it.
    #[inline(never)]
    fn check_nothing_follows(&self, symbols: usize, input: &[u8], stop: &mut Stop) -> bool
        requires width { IsWidth self.now.width }
        requires symbols { symbols ≡ group_symbols self.now.width }
        requires within { stop.old.read ≤ length input.now }
        ensures { (output : List ℕ) → HasExactOutput self.now input.now output
            → HasDecodedTo self.now input.now stop.old.read stop.old.written true output
            → HasEnded self.now input.now output stop.new result }
    {
        let rest = &input[stop.read..];
        if rest.is_empty() {
            return true;
        }
        let ignored = IgnoredBytes::of(&self.fields.values.entries);
        let mut room = [0; 8];
        let group = self.next_group(symbols, &ignored, rest, &mut room).bytes;
        if group.is_empty() {
            return true;
        }
        stop.index = 0;
        stop.kind = DecodeKind::Padding;
        false
    }
}

/// Returns `true` if a run is so long that the next one is decoded in place.
#[inline(always)]
fn is_line(join: &Join, len: usize) -> bool
    requires { IsJoin join.now }
    ensures { IsTrue result → 0 < len }
{
    len >= LINE_LEN.max(8 * join.group_symbols())
}

// The least run after which the next one is decoded in place. With 16, hexadecimal in lines of 16
// to 30, each of another length, takes up to 1.7 times the instructions.
const LINE_LEN: usize = 32;
