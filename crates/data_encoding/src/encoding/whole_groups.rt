//! The length of the whole groups of a text.

ghost use Rattle.std.specs.Prelude.{◌≡◌, ◌*◌, ◌/◌, ◌≤◌, length, take};
ghost use Rattle.data_encoding_meaning.specs.text.Base.{Base, group_symbols};
ghost use Rattle.data_encoding_meaning.specs.text.Grammar.{kept};
ghost use Rattle.data_encoding_kernel.specs.Ignore.{HoldsIgnored};

use crate::decode::packed::{skip_sixteens, span_before};
use crate::encoding::EncodingRef;
use data_encoding_kernel::ignore::IgnoredBytes;

impl EncodingRef<'_> {
    /// Returns the length of `text` up to the end of its last whole group, or that of `text` if no
    /// group is unfinished.
    ///
    /// No address depends on a symbol.
    pub fn whole_groups_len(&self, text: &[u8]) -> usize
        ensures within { result ≤ length text.now }
        ensures whole { length (kept self.now (take result text.now))
            ≡ length (kept self.now text.now) / group_symbols self.now.width
            * group_symbols self.now.width }
    {
        let ignored = IgnoredBytes::of(&self.fields.values.entries);
        let last = count_kept(&ignored, text) % self.group_len();
        if last == 0 {
            return text.len();
        }
        span_before(&ignored, text, last)
    }
}

/// Returns the number of bytes of `text` that are not ignored.
// With `text.len()` bytes to skip, each sixteen bytes are skipped and counted.
fn count_kept(ignored: &IgnoredBytes, text: &[u8]) -> usize
    ensures { (base : Base) → HoldsIgnored base ignored.now
        → result ≡ length (kept base text.now) }
{
    let (few, left) = skip_sixteens(ignored, text, text.len());
    text.len() - left + count_few(ignored, &text[..few])
}

/// Like [`count_kept`], byte by byte.
fn count_few(ignored: &IgnoredBytes, text: &[u8]) -> usize
    ensures few { result ≤ length text.now }
    ensures value { (base : Base) → HoldsIgnored base ignored.now
        → result ≡ length (kept base text.now) }
{
    let mut count = 0;
    for index in 0..text.len() {
        if !ignored.contains(text[index]) {
            count += 1;
        }
    }
    count
}
