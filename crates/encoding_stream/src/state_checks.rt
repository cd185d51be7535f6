//! Checks of a state that a caller passes back, before a decoder continues from it.

ghost use Rattle.std.specs.Prelude.{◌≡◌, ◌≤◌, true, false};
ghost use Rattle.data_encoding.specs.Base.{is_ignored, meaning};
ghost use Rattle.encoding_stream.specs.Resume.{held_positions, is_of_group, Ascend, HasPossibleFault, HoldsNoIgnored};

use crate::buffer_decoder::Kept;
use data_encoding::laws::steps::whole_groups;
use data_encoding::{DecodeKind, EncodingRef};

impl Kept {
    /// Returns `true` if the positions of the held bytes ascend and are in the text.
    pub(crate) fn is_in_order(&self) -> bool
        requires few { self.now.count ≤ 8 }
        ensures sound { result ≡ true → Ascend 0 self.now.len (held_positions self.now) }
        ensures complete { Ascend 0 self.now.len (held_positions self.now) → result ≡ true }
    {
        let mut start = 0;
        for position in &self.positions[..self.count] {
            if *position < start || *position >= self.len {
                return false;
            }
            start = *position + 1;
        }
        true
    }

    /// Returns `true` if one of the held bytes is ignored.
    pub(crate) fn holds_ignored(&self, encoding: &EncodingRef<'_>) -> bool
        requires few { self.now.count ≤ 8 }
        ensures sound { result ≡ false → HoldsNoIgnored encoding.now self.now }
        ensures complete { HoldsNoIgnored encoding.now self.now → result ≡ false }
    {
        self.bytes[..self.count]
            .iter()
            .any(|byte| is_ignored(encoding, *byte))
    }

    /// Returns `true` if a decoder of `encoding` may keep this fault, or none, in this state.
    pub(crate) fn has_possible_fault(&self, encoding: &EncodingRef<'_>) -> bool
        ensures sound { result ≡ true → HasPossibleFault encoding.now self.now }
        ensures complete { HasPossibleFault encoding.now self.now → result ≡ true }
    {
        match self.fault {
            Some(error) => {
                self.count == 0 && error.position < self.len && is_of_group(encoding, error.kind)
            }
            None => !self.ended || !encoding.concatenates(),
        }
    }
}

/// Returns `true` if a whole group may have a fault of the given kind.
fn is_of_group(encoding: &EncodingRef<'_>, kind: DecodeKind) -> bool
    ensures { result ≡ is_of_group encoding.now kind }
{
    match kind {
        DecodeKind::Length => false,
        DecodeKind::Symbol => true,
        DecodeKind::Trailing => encoding.checks_trailing_bits(),
        DecodeKind::Padding => encoding.is_padded(),
    }
}

/// Returns `true` if `byte` is ignored.
// Most encodings ignore no byte. They need no look-up.
#[inline(always)]
pub(crate) fn is_ignored(encoding: &EncodingRef<'_>, byte: u8) -> bool
    ensures { result ≡ is_ignored (meaning encoding.now byte) }
{
    whole_groups();
    encoding.ignores_bytes() && encoding.interpret_byte(byte).is_ignored()
}
