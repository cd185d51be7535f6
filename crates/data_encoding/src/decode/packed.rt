//! Decoding of a part of a text from its kept bytes, packed side by side.

ghost use Rattle.std.specs.Prelude.{◌≡◌, ◌+◌, ◌-◌, ◌≤◌, length, take};
ghost use Rattle.data_encoding_meaning.specs.text.Base.{Base};
ghost use Rattle.data_encoding_meaning.specs.text.Grammar.{kept};
ghost use Rattle.data_encoding_kernel.specs.Ignore.{HoldsIgnored};
ghost use Rattle.data_encoding.specs.Groups.{EndsBefore};
ghost use Rattle.data_encoding.specs.Progress.{GoesOn, HasReached, ReadsBy};

use crate::decode::decoding_loop::Progress;
use crate::decode::groups::Entries;
use crate::encoding::EncodingRef;
use data_encoding_kernel::ignore::{IgnoredBytes, pack};
use data_encoding_kernel::simd::decode::look_up::LookUp;

// The room for packed bytes. Each use of it costs about 450 instructions: with 512, a text with a
// space after each 4 symbols takes 1.07 times the instructions. With 2,048, broken groups among
// long runs take more, since the runs are packed as well.
const ROOM: usize = 1024;

impl EncodingRef<'_> {
    /// Decodes whole groups among the next bytes of a text, without the ignored bytes before and
    /// within them.
    // Not inlined, so that other texts do not pay for the stack that the packed bytes take.
    #[inline(never)]
    pub(crate) fn decode_packed<L: LookUp>(
        &self,
        entries: Entries<'_, L>,
        at: Progress,
        input: &[u8],
        output: &mut [u8],
    ) -> Progress
        requires entries { ReadsBy L.holds self.now entries }
        requires at { HasReached self.now input.now at output.old }
        ensures { GoesOn self.now input.now at.read result output.new }
    {
        let start = at.read + at.ignored;
        let mut packed = [0; ROOM];
        let (span, count) = pack(entries.ignored, &input[start..], &mut packed);
        let room = &mut output[at.written..];
        let found = self.decode_groups::<L>(entries, &packed, count, room);
        if found.read == 0 {
            return at;
        }
        let part = &input[start..start + span];
        let end = span_before(entries.ignored, part, count - found.read);
        Progress {
            read: start + end,
            written: at.written + found.written,
            ignored: if found.read == count { span - end } else { 0 },
        }
    }
}

/// Returns the end of the byte before the last `last` bytes of `part`, where ignored bytes do not
/// count, or 0 if there is no such byte.
#[inline(always)]
pub(crate) fn span_before(ignored: &IgnoredBytes, part: &[u8], last: usize) -> usize
    ensures within { result ≤ length part.now }
    ensures ends { (base : Base) → HoldsIgnored base ignored.now
        → last ≤ length (kept base part.now) → EndsBefore base part.now last result }
{
    let (end, left) = skip_sixteens(ignored, part, last);
    span_before_some(ignored, &part[..end], left)
}

/// Returns the length of a part without chunks of sixteen at its end that have at most `last` kept
/// bytes in all, and the number of those bytes that are left.
#[inline(always)]
pub(crate) fn skip_sixteens(ignored: &IgnoredBytes, part: &[u8], last: usize) -> (usize, usize)
    ensures within { result.0 ≤ length part.now }
    ensures few { result.1 ≤ last }
    ensures kept { (base : Base) → HoldsIgnored base ignored.now
        → length (kept base (take result.0 part.now)) + (last - result.1)
        ≡ length (kept base part.now) }
{
    let mut left = last;
    for index in 0..part.len() / 16 {
        let end = part.len() - 16 * index;
        let count = ignored.count_kept(&part[end - 16..end]);
        if count > left {
            return (end, left);
        }
        left -= count;
    }
    (part.len() % 16, left)
}

/// Like [`span_before`], byte by byte.
#[inline(always)]
fn span_before_some(ignored: &IgnoredBytes, part: &[u8], last: usize) -> usize
    ensures within { result ≤ length part.now }
    ensures ends { (base : Base) → HoldsIgnored base ignored.now
        → last ≤ length (kept base part.now) → EndsBefore base part.now last result }
{
    let mut left = last;
    for index in 0..part.len() {
        let end = part.len() - index;
        if !ignored.contains(part[end - 1]) {
            if left == 0 {
                return end;
            }
            left -= 1;
        }
    }
    0
}
