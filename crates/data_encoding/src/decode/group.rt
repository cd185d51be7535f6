//! Validation of one group of a text: its bytes, or its fault.

ghost use Rattle.std.specs.Prelude.{◌≡◌, ◌*◌, ◌/◌, ◌<◌, ◌≤◌, true, false, length, map, IfOk, IfErr};
ghost use Rattle.data_encoding_meaning.specs.text.Base.{Base, group_symbols, is_padded, meaning};
ghost use Rattle.data_encoding_meaning.specs.decoding.Decoding.{HasFault, HasSymbols, IsDecodedGroup};
ghost use Rattle.data_encoding_meaning.specs.decoding.Fault.{count_before_padding};
ghost use Rattle.data_encoding_kernel.specs.Tables.{HoldsValues};
ghost use Rattle.data_encoding_kernel.specs.GroupFronts.{HasOthers};
ghost use Rattle.data_encoding.specs.Endings.{JoinsSymbols};
ghost use Rattle.data_encoding.specs.Progress.{ReadsBy};

use crate::decode::groups::Entries;
use crate::encoding::{EncodingRef, PADDING};
use data_encoding_kernel::decode::store_lanes;
use data_encoding_kernel::simd::decode::last_symbols::Join;
use data_encoding_kernel::simd::decode::look_up::LookUp;
use data_encoding_kernel::words::front_of_group;
use data_encoding_meaning::error::{DecodeKind, GroupFault};

impl EncodingRef<'_> {
    /// Decodes a group to the start of `output`, and returns its number of symbols.
    ///
    /// Finds every fault of a group, except that it follows a final group.
    #[inline(always)]
    pub(crate) fn decode_group<L: LookUp>(
        &self,
        entries: Entries<'_, L>,
        group: &[u8],
        output: &mut [u8],
    ) -> Result<usize, GroupFault>
        requires entries { ReadsBy L.holds self.now entries }
        requires some { 0 < length group.now }
        requires few { length group.now ≤ group_symbols self.now.width }
        requires room { (is_padded self.now ≡ true
            → length group.now ≡ group_symbols self.now.width)
            → self.now.width * length group.now / 8 ≤ length output.old }
        ensures sound { IfOk result (λ count.
            IsDecodedGroup self.now group.now count output.new) }
        ensures fault { IfErr result (HasFault self.now false group.now) }
    {
        let front = front_of_group(entries.values, entries.look_up, entries.join, group);
        let count = match self.count_symbols(entries.values, entries.join, front.others, group) {
            Ok(count) => count,
            Err(fault) => return Err(fault),
        };
        if front.symbols < count {
            return Err(faulty(front.symbols, DecodeKind::Symbol));
        }
        let written = entries.join.bytes_len(count);
        store_lanes(front.bytes, written, output);
        // The byte after the data has the trailing bits.
        if self.fields.checks_trailing_bits && front.bytes.to_array()[written] != 0 {
            return Err(faulty(count - 1, DecodeKind::Trailing));
        }
        Ok(count)
    }

    /// Returns the number of symbols before the padding of a group, if a group may have that
    /// number. `others` has the bits of its bytes that are not symbols.
    #[inline(always)]
    fn count_symbols(
        &self,
        values: &[u8; 256],
        join: &Join,
        others: u64,
        group: &[u8],
    ) -> Result<usize, GroupFault>
        requires join { JoinsSymbols self.now join.now }
        requires values { HoldsValues self.now values.now }
        requires others { HasOthers values.now group.now others }
        requires some { 0 < length group.now }
        requires few { length group.now ≤ group_symbols self.now.width }
        ensures symbols { IfOk result (HasSymbols self.now group.now) }
        ensures whole { IfOk result
            (λ _. is_padded self.now ≡ true → length group.now ≡ group_symbols self.now.width) }
        ensures fault { IfErr result (HasFault self.now false group.now) }
    {
        let width = join.width;
        if !self.fields.is_padded() {
            let trailing = width * group.len() % 8;
            if trailing >= width {
                return Err(faulty(group.len() - trailing / width, DecodeKind::Length));
            }
            return Ok(group.len());
        }
        if group.len() < join.group_symbols() {
            return Err(faulty(0, DecodeKind::Length));
        }
        let count = before_padding(values, others, group);
        if count == 0 || width * count % 8 >= width {
            return Err(faulty(count, DecodeKind::Padding));
        }
        Ok(count)
    }
}

/// Returns a fault in a group.
fn faulty(index: usize, kind: DecodeKind) -> GroupFault
    ensures { result ≡ record { index = index; kind = kind } }
{
    GroupFault { index, kind }
}

/// Returns the number of bytes of a group before the padding at its end. `others` has the bits of
/// its bytes that are not symbols.
fn before_padding(values: &[u8; 256], others: u64, group: &[u8]) -> usize
    requires others { HasOthers values.now group.now others }
    requires few { length group.now ≤ 16 }
    ensures count { (base : Base) → HoldsValues base values.now
        → result ≡ count_before_padding (map (meaning base) group.now) }
    ensures within { result ≤ length group.now }
{
    for padding in 0..group.len() {
        let count = group.len() - padding;
        // The table is read only at a byte that is not a symbol, so no address depends on a symbol.
        let is_other = (others >> (count - 1)) % 2 == 1;
        if !is_other || values[group[count - 1] as usize] != PADDING {
            return count;
        }
    }
    0
}
