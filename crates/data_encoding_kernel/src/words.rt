//! A group of bytes or of symbols as bits, in one word.

ghost use Rattle.std.specs.Prelude.{◌≡◌, ℕ, ◌+◌, ◌-◌, ◌*◌, ◌/◌, ◌%◌, ◌^◌, ◌<◌, ◌≤◌, ◌↔◌, ◌++◌, length, map, replicate, slice_index};
ghost use Rattle.std.specs.Int.{bit_at};
ghost use Rattle.std.specs.List.{range_with_len};
ghost use Rattle.data_encoding_meaning.specs.text.Base.{Base, meaning};
ghost use Rattle.data_encoding_meaning.specs.decoding.Fault.{symbol_bytes};
ghost use Rattle.data_encoding_kernel.specs.GroupFronts.{HasOthers, IsGroupFront};
ghost use Rattle.data_encoding_kernel.specs.Joins.{IsJoin};
ghost use Rattle.data_encoding_kernel.specs.Tables.{IsTextBy, Reads};
ghost use Rattle.data_encoding_kernel.specs.Words.{weight, digit, low_byte, word_of};

use crate::group_size::GroupSize;
use crate::platform::has_simd;
use crate::simd::decode::last_symbols::{Front, Join, decode_front};
use crate::simd::decode::look_up::LookUp;
use crate::simd::padded_load::load_padded;
use data_encoding_meaning::encoding::BitOrder;
use std::simd::prelude::*;

/// Returns the number of bits of a word below the digit at `index`, of `count` digits of `size`
/// bits each.
pub fn weight_at(order: BitOrder, size: usize, count: usize, index: usize) -> usize
    requires inside { index < count }
    requires fits { size * count ≤ 64 }
    ensures weight { result ≡ weight order size count index }
    ensures inside { result + size ≤ size * count }
{
    match order {
        BitOrder::MostSignificantFirst => size * (count - 1 - index),
        BitOrder::LeastSignificantFirst => size * index,
    }
}

/// Returns the eight bits of `word` from bit `weight` on.
fn byte_at(word: u64, weight: usize) -> u8
    requires { weight < 64 }
    ensures { result ≡ word / 2 ^ weight % 2 ^ 8 }
{
    ((word >> weight) & 0xff) as u8
}

/// Returns the bytes of a group as a word. Missing bytes are zeros.
fn word_of_bytes<G: GroupSize>(order: BitOrder, input: &[u8]) -> u64
    requires few { length input.now ≤ G.BYTES }
    ensures { result ≡ word_of order 8 G.BYTES input.now }
{
    let count = G::BYTES;
    let mut word = 0;
    for index in 0..count {
        if index == input.len() {
            break;
        }
        word += (input[index] as u64) << weight_at(order, 8, count, index);
    }
    word
}

/// Writes the symbols of the first digits of a word.
///
/// The table has a symbol for each byte. So a byte of the word is an index without a mask.
fn symbols_of_word<G: GroupSize>(symbols: &[u8; 256], order: BitOrder, word: u64, output: &mut [u8])
    requires few { length output.old ≤ G.SYMBOLS }
    ensures { output.new
        ≡ map (λ k. slice_index symbols.now (low_byte order G.WIDTH G.SYMBOLS word k))
        (range_with_len 0 (length output.old)) }
{
    let width = G::WIDTH;
    let count = G::SYMBOLS;
    for index in 0..count {
        if index == output.len() {
            break;
        }
        let weight = weight_at(order, width, count, index);
        output[index] = symbols[byte_at(word, weight) as usize];
    }
}

/// Writes the text of a group of bytes, which may be shorter.
#[inline]
pub fn encode_group<G: GroupSize>(
    symbols: &[u8; 256],
    order: BitOrder,
    input: &[u8],
    output: &mut [u8],
)
    requires few { length input.now ≤ G.BYTES }
    requires exact { length output.old ≡ (8 * length input.now + (G.WIDTH - 1)) / G.WIDTH }
    ensures text { IsTextBy symbols.now G.WIDTH order input.now output.new }
{
    let word = word_of_bytes::<G>(order, input);
    symbols_of_word::<G>(symbols, order, word, output);
}

/// Returns the entry of `byte`.
pub fn entry_of(values: &[u8; 256], byte: u8) -> u8
    ensures { result ≡ slice_index values.now byte }
{
    values[byte as usize]
}

/// Returns the values of the symbols of a group as a word, and all entries combined by OR.
///
/// The word has `count` digits of `width` bits. Missing symbols are zeros. If an entry is not a
/// value, the second result is 128 or more, and the word is unspecified.
#[inline(always)]
fn word_of_symbols(
    values: &[u8; 256],
    order: BitOrder,
    width: usize,
    count: usize,
    input: &[u8],
) -> (u64, u8)
    requires some { 0 < width }
    requires fits { width * count ≤ 48 }
    requires few { length input.now ≤ count }
    ensures word { ((k : ℕ) → k < length input.now
        → slice_index values.now (slice_index input.now k) < 2 ^ width)
        → result.0 ≡ word_of order width count (map (slice_index values.now) input.now) }
    ensures entries { (result.1 < 128) ↔ ((k : ℕ) → k < length input.now
        → slice_index values.now (slice_index input.now k) < 128) }
{
    let mut word = 0;
    let mut entries = 0;
    for index in 0..count {
        if index == input.len() {
            break;
        }
        let entry = entry_of(values, input[index]);
        entries |= entry;
        word += (entry as u64) << weight_at(order, width, count, index);
    }
    (word, entries)
}

/// Writes the first bytes of a word of `count` bytes.
#[inline(always)]
fn bytes_of_word(order: BitOrder, count: usize, word: u64, output: &mut [u8])
    requires fits { count ≤ 8 }
    requires few { length output.old ≤ count }
    ensures { output.new ≡ map (digit order 8 count word) (range_with_len 0 (length output.old)) }
{
    for index in 0..count {
        if index == output.len() {
            break;
        }
        output[index] = byte_at(word, weight_at(order, 8, count, index));
    }
}

/// Writes the bytes of a group of symbols, which may be shorter, and returns all its entries
/// combined by OR.
///
/// The bits after the last whole byte are dropped. If a byte of `input` is not a symbol, the result
/// is 128 or more, and the output is unspecified.
#[inline(always)]
pub fn decode_entries<G: GroupSize>(
    values: &[u8; 256],
    order: BitOrder,
    input: &[u8],
    output: &mut [u8],
) -> u8
    requires few { length input.now ≤ G.SYMBOLS }
    requires exact { length output.old ≡ G.WIDTH * length input.now / 8 }
    ensures symbols { (result < 128) ↔ ((k : ℕ) → k < length input.now
        → slice_index values.now (slice_index input.now k) < 128) }
    ensures bytes { (base : Base) → Reads base values.now G.WIDTH order → result < 128
        → output.new ≡ symbol_bytes base (map (meaning base) input.now) }
{
    let (word, entries) = word_of_symbols(values, order, G::WIDTH, G::SYMBOLS, input);
    bytes_of_word(order, G::BYTES, word, output);
    entries
}

/// Decodes the symbols at the start of a group.
#[inline(always)]
pub fn front_of_group<L: LookUp>(
    values: &[u8; 256],
    look_up: &L,
    join: &Join,
    group: &[u8],
) -> Front
    requires held { L.holds values.now look_up.now }
    requires join { IsJoin join.now }
    requires few { length group.now ≤ 8 }
    ensures { IsGroupFront values.now join.now group.now result }
{
    if !has_simd() {
        return front_by_table(values, join, group);
    }
    decode_front(look_up, join, group.len(), load_padded(group))
}

/// Decodes the symbols at the start of a group by the table itself. A platform without SIMD takes
/// it.
#[inline(always)]
pub fn front_by_table(values: &[u8; 256], join: &Join, group: &[u8]) -> Front
    requires join { IsJoin join.now }
    requires few { length group.now ≤ 8 }
    ensures front { IsGroupFront values.now join.now group.now result }
    ensures text { result.text ≡ group.now ++ replicate (16 - length group.now) 0 }
{
    let others = others_by_table(values, group);
    let symbols = others.trailing_zeros() as usize;
    let (word, _) = word_of_symbols(values, join.order, join.width, 8, &group[..symbols]);
    let mut bytes = [0; 16];
    // Eight symbols are as many bytes as a symbol has bits.
    bytes_of_word(join.order, join.width, word, &mut bytes[..join.width]);
    Front {
        symbols,
        others,
        bytes: u8x16::from_array(bytes),
        text: load_padded(group),
    }
}

/// Returns the bits of the bytes that are not symbols, and the bit after the last byte.
#[inline(always)]
fn others_by_table(values: &[u8; 256], group: &[u8]) -> u64
    requires few { length group.now ≤ 8 }
    ensures end { bit_at result (length group.now) ≡ 1 }
    ensures others { HasOthers values.now group.now result }
{
    let mut others = 1 << group.len();
    for index in 0..group.len() {
        if entry_of(values, group[index]) >= 128 {
            others |= 1 << index;
        }
    }
    others
}
