//! Encoding of data, group after group.

ghost use Rattle.std.specs.Prelude.{◌≡◌, ℕ, ◌+◌, ◌-◌, ◌*◌, ◌/◌, ◌<◌, ◌≤◌, List, length, take, IsTrue};
ghost use Rattle.data_encoding_meaning.specs.text.Base.{IsWidth};
ghost use Rattle.data_encoding_kernel.specs.OffsetAlphabet.{has_sums};
ghost use Rattle.data_encoding_kernel.specs.Tables.{IsTextBy};

use crate::bit_order::{ConstantOrder, LeastSignificantFirst, MostSignificantFirst};
use crate::call_by_width;
use crate::group_size::GroupSize;
use crate::platform::has_simd;
use crate::simd::encode::offset_alphabet::OffsetAlphabet;
use crate::simd::encode::{SymbolLookUp, SymbolRows, encode_eight, encode_sixteen};
use crate::symbol_table::SymbolTable;
use crate::words::encode_group;
use data_encoding_meaning::encoding::BitOrder;
use data_encoding_meaning::limits::ENCODE_LIMIT;

/// Writes the symbols of `input`, without padding.
#[inline(always)]
pub fn encode_plain(
    table: &SymbolTable,
    width: u8,
    order: BitOrder,
    input: &[u8],
    output: &mut [u8],
)
    requires width { IsWidth width }
    requires agrees { IsTrue (has_sums table.now.entries table.now.form) }
    requires limit { length input.now ≤ ENCODE_LIMIT }
    requires exact { length output.old ≡ (8 * length input.now + (width - 1)) / width }
    ensures { IsTextBy table.now.entries width order input.now output.new }
{
    call_by_width!(width, table.encode_by_width::<>(input, output, order))
}

impl SymbolTable {
    /// Writes the symbols of `input`, with the width as a constant.
    ///
    /// The order is the last argument, so that no other changes its register.
    // Not inlined, so that each width has the loops once.
    #[inline(never)]
    fn encode_by_width<G: GroupSize>(&self, input: &[u8], output: &mut [u8], order: BitOrder)
        requires agrees { IsTrue (has_sums self.now.entries self.now.form) }
        requires limit { length input.now ≤ ENCODE_LIMIT }
        requires exact { length output.old ≡ (8 * length input.now + (G.WIDTH - 1)) / G.WIDTH }
        ensures { IsTextBy self.now.entries G.WIDTH order input.now output.new }
    {
        match order {
            BitOrder::MostSignificantFirst => {
                encode_by_order::<MostSignificantFirst, G>(self, input, output)
            }
            BitOrder::LeastSignificantFirst => {
                encode_by_order::<LeastSignificantFirst, G>(self, input, output)
            }
        }
    }
}

/// Writes the symbols of `input`, with the bit order as a constant.
///
/// Each digit is then at a known bit of its word.
#[inline(always)]
fn encode_by_order<O: ConstantOrder, G: GroupSize>(
    table: &SymbolTable,
    input: &[u8],
    output: &mut [u8],
)
    requires agrees { IsTrue (has_sums table.now.entries table.now.form) }
    requires limit { length input.now ≤ ENCODE_LIMIT }
    requires exact { length output.old ≡ (8 * length input.now + (G.WIDTH - 1)) / G.WIDTH }
    ensures { IsTextBy table.now.entries G.WIDTH O.ORDER input.now output.new }
{
    if !has_simd() {
        return encode_turns::<_, O, G>(&EncodeOne, table, input, output);
    }
    // The rest of longer data is encoded by the same function.
    if input.len() < 10 * G::BYTES - 2 {
        return encode_short::<O, G>(table, input, output);
    }
    if G::WIDTH == 6
        && let Some(look_up) = table.offsets()
    {
        return encode_turns::<_, O, G>(&EncodeEight(look_up), table, input, output);
    }
    encode_turns::<_, O, G>(&EncodeEight(SymbolRows), table, input, output);
}

/// Encodes fewer bytes than an iteration of eight groups loads.
// Not inlined, so that the loop over eight groups is small. It takes most of the time.
#[inline(never)]
fn encode_short<O: ConstantOrder, G: GroupSize>(
    table: &SymbolTable,
    input: &[u8],
    output: &mut [u8],
)
    requires agrees { IsTrue (has_sums table.now.entries table.now.form) }
    requires limit { length input.now ≤ ENCODE_LIMIT }
    requires exact { length output.old ≡ (8 * length input.now + (G.WIDTH - 1)) / G.WIDTH }
    ensures { IsTextBy table.now.entries G.WIDTH O.ORDER input.now output.new }
{
    if G::WIDTH == 6
        && let Some(look_up) = table.offsets()
    {
        return encode_turns::<_, O, G>(&EncodeSixteen(look_up), table, input, output);
    }
    encode_turns::<_, O, G>(&EncodeSixteen(SymbolRows), table, input, output);
}

/// Encodes one iteration after another, while the input has the bytes that it loads, and then the
/// rest.
#[inline(always)]
fn encode_turns<T: EncodeTurn<G>, O: ConstantOrder, G: GroupSize>(
    turn: &T,
    table: &SymbolTable,
    input: &[u8],
    output: &mut [u8],
)
    requires some { 0 < T.GROUPS }
    requires few { T.GROUPS ≤ 12 }
    requires held { T.holds table.now.entries turn.now }
    requires agrees { IsTrue (has_sums table.now.entries table.now.form) }
    requires limit { length input.now ≤ ENCODE_LIMIT }
    requires exact { length output.old ≡ (8 * length input.now + (G.WIDTH - 1)) / G.WIDTH }
    ensures { IsTextBy table.now.entries G.WIDTH O.ORDER input.now output.new }
{
    let bytes = G::BYTES;
    let groups = T::GROUPS;
    let read_len = groups * bytes;
    let written_len = groups * G::SYMBOLS;
    let ahead_len = T::AHEAD;
    let count = input.len().saturating_sub(ahead_len) / read_len;
    for index in 0..count {
        let read = index * read_len;
        let written = index * written_len;
        turn.encode::<O>(
            &table.entries,
            &input[read..read + (read_len + ahead_len)],
            &mut output[written..written + written_len],
        );
    }
    turn.encode_rest::<O>(
        table,
        &input[count * read_len..],
        &mut output[count * written_len..],
    );
}

/// A way to encode a fixed number of whole groups per iteration, and then the rest.
trait EncodeTurn<G: GroupSize> {
    ghost GROUPS: { ℕ };

    ghost AHEAD: { ℕ };

    // States that an iteration encodes by a table of symbols.
    ghost holds: { List ℕ → Self → Type 0 };

    /// The number of groups.
    const GROUPS: usize;

    /// The number of bytes that an iteration loads after its groups.
    const AHEAD: usize;

    /// Encodes the groups of one iteration.
    fn encode<O: ConstantOrder>(&self, symbols: &[u8; 256], input: &[u8], output: &mut [u8])
        requires held { holds symbols.now self.now }
        requires loaded { length input.now ≡ GROUPS * G.BYTES + AHEAD }
        requires exact { length output.old ≡ GROUPS * G.SYMBOLS }
        ensures { IsTextBy symbols.now G.WIDTH O.ORDER (take (GROUPS * G.BYTES) input.now)
            output.new };

    /// Encodes the rest after the last iteration: fewer bytes than an iteration loads.
    fn encode_rest<O: ConstantOrder>(&self, table: &SymbolTable, input: &[u8], output: &mut [u8])
        requires held { holds table.now.entries self.now }
        requires agrees { IsTrue (has_sums table.now.entries table.now.form) }
        requires few { length input.now < GROUPS * G.BYTES + AHEAD }
        requires limit { length input.now ≤ ENCODE_LIMIT }
        requires exact { length output.old ≡ (8 * length input.now + (G.WIDTH - 1)) / G.WIDTH }
        ensures { IsTextBy table.now.entries G.WIDTH O.ORDER input.now output.new };
}

/// Encodes eight groups with SIMD, by a look-up of symbols.
#[derive(Clone, Copy, Drop)]
struct EncodeEight<S>(S);

impl<S: SymbolLookUp, G: GroupSize> EncodeTurn<G> for EncodeEight<S> {
    ghost GROUPS = { 8 };

    ghost AHEAD = { 2 * (G.BYTES - 1) };

    ghost holds = { λ symbols turn. S.holds symbols turn.0 };

    const GROUPS: usize = 8;

    const AHEAD: usize = 2 * (G::BYTES - 1);

    #[inline(always)]
    fn encode<O: ConstantOrder>(&self, symbols: &[u8; 256], input: &[u8], output: &mut [u8]) {
        encode_eight::<S, G>(&self.0, symbols, O::ORDER, input, output);
    }

    #[inline(always)]
    fn encode_rest<O: ConstantOrder>(&self, table: &SymbolTable, input: &[u8], output: &mut [u8]) {
        encode_short::<O, G>(table, input, output);
    }
}

/// Encodes the groups of sixteen symbols with SIMD, by a look-up of symbols.
#[derive(Clone, Copy, Drop)]
struct EncodeSixteen<S>(S);

impl<S: SymbolLookUp, G: GroupSize> EncodeTurn<G> for EncodeSixteen<S> {
    ghost GROUPS = { 16 / G.SYMBOLS };

    ghost AHEAD = { 0 };

    ghost holds = { λ symbols turn. S.holds symbols turn.0 };

    const GROUPS: usize = 16 / G::SYMBOLS;

    const AHEAD: usize = 0;

    #[inline(always)]
    fn encode<O: ConstantOrder>(&self, symbols: &[u8; 256], input: &[u8], output: &mut [u8]) {
        encode_sixteen::<S, G>(&self.0, symbols, O::ORDER, input, output);
    }

    #[inline(always)]
    fn encode_rest<O: ConstantOrder>(&self, table: &SymbolTable, input: &[u8], output: &mut [u8]) {
        encode_sixteen::<S, G>(&self.0, &table.entries, O::ORDER, input, output);
    }
}

/// Encodes one group as a word.
struct EncodeOne;

impl<G: GroupSize> EncodeTurn<G> for EncodeOne {
    ghost GROUPS = { 1 };

    ghost AHEAD = { 0 };

    ghost holds = { λ symbols turn. Unit {0} };

    const GROUPS: usize = 1;

    const AHEAD: usize = 0;

    #[inline(always)]
    fn encode<O: ConstantOrder>(&self, symbols: &[u8; 256], input: &[u8], output: &mut [u8]) {
        encode_group::<G>(symbols, O::ORDER, input, output);
    }

    // The last group, which may be shorter or empty.
    #[inline(always)]
    fn encode_rest<O: ConstantOrder>(&self, table: &SymbolTable, input: &[u8], output: &mut [u8]) {
        encode_group::<G>(&table.entries, O::ORDER, input, output);
    }
}
