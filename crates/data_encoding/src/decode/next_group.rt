//! The next group of a text: its next bytes that are not ignored.

ghost use Rattle.std.specs.Prelude.{◌≡◌, ◌<◌, ◌≤◌, length, take, IsTrue};
ghost use Rattle.data_encoding_meaning.specs.text.Base.{Base, group_symbols};
ghost use Rattle.data_encoding_meaning.specs.decoding.Decoding.{IsGathered};
ghost use Rattle.data_encoding_meaning.specs.decoding.Fault.{position_of};
ghost use Rattle.data_encoding_meaning.specs.text.Grammar.{kept};
ghost use Rattle.data_encoding_kernel.specs.Ignore.{HoldsIgnored};

use crate::encoding::EncodingRef;
use data_encoding_kernel::ignore::IgnoredBytes;

/// A group of a text: its bytes, and the length of the text up to its end, with ignored bytes.
#[derive(Clone, Copy, Drop)]
pub(crate) struct Group<'a> {
    pub(crate) bytes: &'a [u8],
    pub(crate) span: usize,
}

/// The number of bytes that were gathered, and the length of the text up to their end.
#[derive(Clone, Copy, Drop)]
pub(crate) struct Gathered {
    pub(crate) count: usize,
    pub(crate) span: usize,
}

impl EncodingRef<'_> {
    /// Returns the next group of the rest of a text, or the fewer bytes that are left and not
    /// ignored. If one of the next bytes is ignored, the group is gathered in `room`.
    #[inline(always)]
    pub(crate) fn next_group<'a>(
        &self,
        symbols: usize,
        ignored: &IgnoredBytes,
        rest: &'a [u8],
        room: &'a mut [u8; 8],
    ) -> Group<'a>
        requires symbols { symbols ≡ group_symbols self.now.width }
        requires ignored { HoldsIgnored self.now ignored.now }
        ensures { IsGathered self.now symbols rest.now result.bytes.now result.span }
    {
        if self.fields.ignores && !starts_whole(symbols, ignored, rest) {
            let gathered = gather(symbols, ignored, rest, room);
            return Group {
                bytes: &room[..gathered.count],
                span: gathered.span,
            };
        }
        let bytes = &rest[..symbols.min(rest.len())];
        Group {
            bytes,
            span: bytes.len(),
        }
    }

    /// Returns the position of the byte at `index` among the bytes that are not ignored, or the
    /// length without such a byte.
    // Not inlined, since it is needed for faults only.
    #[inline(never)]
    pub(crate) fn kept_position(&self, part: &[u8], index: usize) -> usize
        ensures found { index < length (kept self.now part.now)
            → result ≡ position_of (kept self.now part.now) index }
        ensures within { result ≤ length part.now }
    {
        if !self.fields.ignores {
            return index.min(part.len());
        }
        let ignored = IgnoredBytes::of(&self.fields.values.entries);
        let mut left = index;
        for position in 0..part.len() {
            if !ignored.contains(part[position]) {
                if left == 0 {
                    return position;
                }
                left -= 1;
            }
        }
        part.len()
    }
}

/// Returns `true` only if no byte of the next group is ignored.
#[inline(always)]
pub(crate) fn starts_whole(symbols: usize, ignored: &IgnoredBytes, rest: &[u8]) -> bool
    ensures { IsTrue result → (base : Base) → HoldsIgnored base ignored.now
        → IsGathered base symbols rest.now (take symbols rest.now) symbols }
{
    if rest.len() < symbols {
        return false;
    }
    for index in 0..symbols {
        if ignored.contains(rest[index]) {
            return false;
        }
    }
    true
}

/// Gathers the first bytes that are not ignored at the start of `room`.
fn gather(symbols: usize, ignored: &IgnoredBytes, rest: &[u8], room: &mut [u8; 8]) -> Gathered
    requires few { symbols ≤ 8 }
    ensures few { result.count ≤ symbols }
    ensures first { (base : Base) → HoldsIgnored base ignored.now
        → IsGathered base symbols rest.now (take result.count room.new) result.span }
{
    let mut span = 0;
    for count in 0..symbols {
        let at = span + ignored.front(&rest[span..]);
        if at == rest.len() {
            return Gathered { count, span };
        }
        room[count] = rest[at];
        span = at + 1;
    }
    Gathered {
        count: symbols,
        span,
    }
}
