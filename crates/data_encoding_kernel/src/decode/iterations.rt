//! The kinds of iterations that decode several whole groups of symbols.

ghost use Rattle.std.specs.Prelude.{◌≡◌, ℕ, ◌*◌, ◌/◌, ◌≤◌, List, length, IsTrue};
ghost use Rattle.data_encoding_kernel.specs.Runs.{IsRunBy};

use crate::group_size::GroupSize;
use crate::simd::decode::decode_eight;
use crate::simd::decode::look_up::LookUp;
use crate::words::decode_entries;
use data_encoding_meaning::encoding::BitOrder;

/// A way to decode a fixed number of whole groups per iteration.
pub trait DecodeTurn<G: GroupSize> {
    ghost GROUPS: { ℕ };

    // States that an iteration decodes by a table of values.
    ghost holds: { List ℕ → Self → Type 0 };

    /// The number of groups.
    const GROUPS: usize;

    /// Decodes the whole groups before the first byte that is not a symbol, or fewer, and returns
    /// the number of bytes read.
    ///
    /// The output after the bytes of these groups is unspecified.
    fn decode(&self, order: BitOrder, input: &[u8], output: &mut [u8]) -> usize
        requires symbols { length input.now ≡ GROUPS * G.SYMBOLS }
        requires exact { length output.old ≡ GROUPS * G.BYTES }
        ensures few { result ≤ GROUPS * G.SYMBOLS }
        ensures run { (values : List ℕ) → holds values self.now
            → IsRunBy values G.WIDTH order input.now (result / G.SYMBOLS) output.old output.new };
}

/// Decodes eight groups with SIMD, up to the first byte that is not a symbol.
///
/// The look-up is held by value, so that it stays in registers.
#[derive(Clone, Copy, Drop)]
pub struct DecodeEight<L> {
    /// The look-up of entries.
    pub look_up: L,
}

impl<L: LookUp, G: GroupSize> DecodeTurn<G> for DecodeEight<L> {
    ghost GROUPS = { 8 };

    ghost holds = { λ values lanes. L.holds values lanes.look_up };

    const GROUPS: usize = 8;

    #[inline(always)]
    fn decode(&self, order: BitOrder, input: &[u8], output: &mut [u8]) -> usize {
        decode_eight::<L, G>(&self.look_up, order, input, output)
    }
}

// Decodes four groups or none, each as a word, by the table itself. A platform without SIMD takes
// it.
impl<G: GroupSize> DecodeTurn<G> for [u8; 256] {
    ghost GROUPS = { 4 };

    ghost holds = { λ values table. table ≡ values };

    const GROUPS: usize = 4;

    #[inline(always)]
    fn decode(&self, order: BitOrder, input: &[u8], output: &mut [u8]) -> usize {
        if !decode_four_groups::<G>(self, order, input, output) {
            return 0;
        }
        4 * G::SYMBOLS
    }
}

/// Decodes four whole groups, and returns `true`.
///
/// Returns `false` if a byte of `input` is not a symbol. The output is then unspecified.
#[inline(always)]
fn decode_four_groups<G: GroupSize>(
    values: &[u8; 256],
    order: BitOrder,
    input: &[u8],
    output: &mut [u8],
) -> bool
    requires symbols { length input.now ≡ 4 * G.SYMBOLS }
    requires exact { length output.old ≡ 4 * G.BYTES }
    ensures { IsTrue result
        → IsRunBy values.now G.WIDTH order input.now 4 output.old output.new }
{
    let symbols = G::SYMBOLS;
    let bytes = G::BYTES;
    let mut all = 0;
    for index in 0..4 {
        let read = index * symbols;
        let written = index * bytes;
        all |= decode_entries::<G>(
            values,
            order,
            &input[read..read + symbols],
            &mut output[written..written + bytes],
        );
    }
    all < 128
}
