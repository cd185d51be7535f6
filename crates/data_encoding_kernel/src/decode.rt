//! Decoding of whole groups of symbols, up to the first group with another byte.

ghost use Rattle.std.specs.Prelude.{◌≡◌, ℕ, ◌-◌, ◌*◌, ◌/◌, ◌%◌, ◌<◌, ◌≤◌, ◌++◌, List, length, take, drop, replicate};
ghost use Rattle.data_encoding_kernel.specs.Joins.{IsJoin};
ghost use Rattle.data_encoding_kernel.specs.Runs.{IsRunBy};
ghost use Rattle.data_encoding_meaning.specs.text.Base.{group_bytes, group_symbols};

mod iterations;

use crate::call_by_width;
use crate::copy::store_front;
use crate::decode::iterations::{DecodeEight, DecodeTurn};
use crate::group_size::GroupSize;
use crate::platform::has_simd;
use crate::simd::decode::last_symbols::{Join, decode_front, load_last};
use crate::simd::decode::look_up::LookUp;
use crate::simd::padded_load::load_padded;
use crate::words::decode_entries;
use data_encoding_meaning::encoding::BitOrder;
use std::simd::prelude::*;

/// Decodes whole groups of the first `len` bytes of `input` to the start of `output`, and returns
/// the number of bytes read.
///
/// Stops at the first group with a byte that is not a symbol. The output after the decoded bytes is
/// unspecified. May load the bytes after the first `len`, so that iterations cover more groups.
#[inline(always)]
pub fn decode_run<L: LookUp>(
    values: &[u8; 256],
    look_up: &L,
    join: &Join,
    input: &[u8],
    len: usize,
    output: &mut [u8],
) -> usize
    requires held { L.holds values.now look_up.now }
    requires join { IsJoin join.now }
    requires few { len ≤ length input.now }
    requires room { len / group_symbols join.now.width * group_bytes join.now.width
        ≤ length output.old }
    ensures run { IsRunBy values.now join.now.width join.now.order (take len input.now)
        (result / group_symbols join.now.width) output.old output.new }
    ensures whole { result % group_symbols join.now.width ≡ 0 }
    ensures within { result ≤ len }
{
    if !has_simd() {
        return join.decode_in_words(values, &input[..len], output);
    }
    let turn = 8 * join.group_symbols();
    let mut at = 0;
    if input.len() >= turn {
        let count = join.count_turns(input.len(), len, output.len());
        at = join.decode_line::<L>(look_up, count, input, len, output);
        // An iteration stopped at a byte that is not a symbol.
        if 8 * join.whole_groups(at / 8) != at || len - at >= turn {
            return join.whole_groups(at);
        }
    }
    decode_windows::<L>(look_up, join, at, &input[..len], output)
}

impl Join {
    /// Decodes the first `len` bytes of `input` by `count` iterations of eight groups, up to the
    /// first byte that is not a symbol, and returns the number of bytes read.
    ///
    /// The whole groups among the bytes read are decoded. The output after their bytes is
    /// unspecified. May load the bytes after the first `len`.
    #[inline(always)]
    pub fn decode_line<L: LookUp>(
        &self,
        look_up: &L,
        count: usize,
        input: &[u8],
        len: usize,
        output: &mut [u8],
    ) -> usize
        requires join { IsJoin self.now }
        requires within { len ≤ length input.now }
        requires few { count * 8 * group_symbols self.now.width ≤ length input.now }
        requires room { count * 8 * group_bytes self.now.width ≤ length output.old }
        ensures run { (values : List ℕ) → L.holds values look_up.now
            → IsRunBy values self.now.width self.now.order (take len input.now)
            (result / group_symbols self.now.width) output.old output.new }
        ensures within { result ≤ len }
    {
        self.decode_turns::<L>(look_up, count, input, output)
            .min(len)
    }

    /// Decodes eight groups per iteration, up to the first byte that is not a symbol, and returns
    /// the number of bytes read.
    ///
    /// The whole groups among the bytes read are decoded. The output after their bytes is
    /// unspecified.
    #[inline(always)]
    pub fn decode_iterations<L: LookUp>(
        &self,
        look_up: &L,
        input: &[u8],
        output: &mut [u8],
    ) -> usize
        requires join { IsJoin self.now }
        requires room { length input.now / group_symbols self.now.width * group_bytes self.now.width
            ≤ length output.old }
        ensures run { (values : List ℕ) → L.holds values look_up.now
            → IsRunBy values self.now.width self.now.order input.now
            (result / group_symbols self.now.width) output.old output.new }
        ensures within { result ≤ length input.now }
    {
        let count = self.groups(input.len()) / 8;
        self.decode_turns::<L>(look_up, count, input, output)
    }

    /// Decodes `count` iterations, up to the first byte that is not a symbol, and returns the
    /// number of bytes read.
    #[inline(always)]
    fn decode_turns<L: LookUp>(
        &self,
        look_up: &L,
        count: usize,
        input: &[u8],
        output: &mut [u8],
    ) -> usize
        requires join { IsJoin self.now }
        requires few { count * 8 * group_symbols self.now.width ≤ length input.now }
        requires room { count * 8 * group_bytes self.now.width ≤ length output.old }
        ensures run { (values : List ℕ) → L.holds values look_up.now
            → IsRunBy values self.now.width self.now.order input.now
            (result / group_symbols self.now.width) output.old output.new }
        ensures within { result ≤ count * 8 * group_symbols self.now.width }
    {
        call_by_width!(
            self.width,
            self.decode_turns_of::<L>(look_up, count, input, output)
        )
    }

    /// Like `decode_turns`, with the width as a constant.
    // Not inlined, so that callers save no registers for it.
    #[inline(never)]
    fn decode_turns_of<L: LookUp, G: GroupSize>(
        &self,
        look_up: &L,
        count: usize,
        input: &[u8],
        output: &mut [u8],
    ) -> usize
        requires few { count * 8 * G.SYMBOLS ≤ length input.now }
        requires room { count * 8 * G.BYTES ≤ length output.old }
        ensures run { (values : List ℕ) → L.holds values look_up.now
            → IsRunBy values G.WIDTH self.now.order input.now (result / G.SYMBOLS) output.old
            output.new }
        ensures within { result ≤ count * 8 * G.SYMBOLS }
    {
        let turn = DecodeEight { look_up: *look_up };
        // The order is a constant in each loop.
        match self.order {
            BitOrder::MostSignificantFirst => {
                let order = BitOrder::MostSignificantFirst;
                decode_turns::<DecodeEight<L>, G>(&turn, order, count, input, output)
            }
            BitOrder::LeastSignificantFirst => {
                let order = BitOrder::LeastSignificantFirst;
                decode_turns::<DecodeEight<L>, G>(&turn, order, count, input, output)
            }
        }
    }

    /// Returns the number of iterations of eight groups that start before `len`, and that the input
    /// and the output have room for.
    ///
    /// Only the last of them can pass `len`.
    #[inline(always)]
    fn count_turns(&self, input_len: usize, len: usize, output_len: usize) -> usize
        requires join { IsJoin self.now }
        requires few { len ≤ input_len }
        requires room { len / group_symbols self.now.width * group_bytes self.now.width
            ≤ output_len }
        ensures symbols { result * 8 * group_symbols self.now.width ≤ input_len }
        ensures bytes { result * 8 * group_bytes self.now.width ≤ output_len }
    {
        let turn = 8 * self.group_symbols();
        let whole = self.groups(len) / 8;
        let left = len - whole * turn;
        if left == 0 || left >= turn || input_len - len < turn - left {
            return whole;
        }
        if output_len - self.groups_len(whole * turn) < self.groups_len(turn) {
            return whole;
        }
        whole + 1
    }

    /// Decodes the groups of `input` by the table itself, up to the first group with a byte that is
    /// not a symbol, and returns the number of bytes read. A platform without SIMD takes it.
    #[inline(always)]
    pub fn decode_in_words(&self, values: &[u8; 256], input: &[u8], output: &mut [u8]) -> usize
        requires join { IsJoin self.now }
        requires room { length input.now / group_symbols self.now.width
            * group_bytes self.now.width ≤ length output.old }
        ensures run { IsRunBy values.now self.now.width self.now.order input.now
            (result / group_symbols self.now.width) output.old output.new }
        ensures whole { result % group_symbols self.now.width ≡ 0 }
        ensures within { result ≤ length input.now }
    {
        call_by_width!(
            self.width,
            self.decode_in_words_of::<>(values, input, output)
        )
    }

    /// Like [`decode_in_words`](Join::decode_in_words), with the width as a constant.
    #[inline(never)]
    fn decode_in_words_of<G: GroupSize>(
        &self,
        values: &[u8; 256],
        input: &[u8],
        output: &mut [u8],
    ) -> usize
        requires room { length input.now / G.SYMBOLS * G.BYTES ≤ length output.old }
        ensures run { IsRunBy values.now G.WIDTH self.now.order input.now (result / G.SYMBOLS)
            output.old output.new }
        ensures whole { result % G.SYMBOLS ≡ 0 }
        ensures within { result ≤ length input.now }
    {
        let symbols = G::SYMBOLS;
        let bytes = G::BYTES;
        let count = input.len() / symbols;
        let first = decode_whole_turns::<[u8; 256], G>(values, self.order, input, output);
        for index in first..count {
            let read = index * symbols;
            let written = index * bytes;
            let entries = decode_entries::<G>(
                values,
                self.order,
                &input[read..read + symbols],
                &mut output[written..written + bytes],
            );
            if entries >= 128 {
                return read;
            }
        }
        count * symbols
    }
}

/// Decodes windows of up to sixteen symbols, up to the first byte that is not a symbol, and returns
/// the number of bytes of whole groups read.
///
/// The groups of the first `at` bytes are decoded before.
#[inline(never)]
fn decode_windows<L: LookUp>(
    look_up: &L,
    join: &Join,
    at: usize,
    input: &[u8],
    output: &mut [u8],
) -> usize
    requires join { IsJoin join.now }
    requires whole { at % group_symbols join.now.width ≡ 0 }
    requires within { at ≤ length input.now }
    requires room { length input.now / group_symbols join.now.width * group_bytes join.now.width
        ≤ length output.old }
    requires begun { (values : List ℕ) → L.holds values look_up.now
        → IsRunBy values join.now.width join.now.order input.now
        (at / group_symbols join.now.width) output.old output.old }
    ensures run { (values : List ℕ) → L.holds values look_up.now
        → IsRunBy values join.now.width join.now.order input.now
        (result / group_symbols join.now.width) output.old output.new }
    ensures whole { result % group_symbols join.now.width ≡ 0 }
    ensures within { result ≤ length input.now }
{
    let mut at = at;
    while input.len() - at >= join.group_symbols() {
        let len = (input.len() - at).min(16);
        let front = decode_front(look_up, join, len, load_at(input, at));
        let read = join.whole_groups(front.symbols);
        let written = join.groups_len(at);
        store_lanes(front.bytes, join.groups_len(read), &mut output[written..]);
        at += read;
        if read < 16 {
            return at;
        }
    }
    at
}

/// Stores the first `count` bytes of a vector.
#[inline(always)]
pub fn store_lanes(bytes: u8x16, count: usize, output: &mut [u8])
    requires few { count ≤ 16 }
    requires room { count ≤ length output.old }
    ensures { take count output.new ≡ take count bytes }
{
    store_front(&bytes.to_array(), count, output);
}

/// Returns up to sixteen bytes of `text` from `at` on, followed by zeros.
#[inline(always)]
pub fn load_at(text: &[u8], at: usize) -> u8x16
    requires within { at ≤ length text.now }
    ensures { result ≡ take 16 (drop at text.now) ++ replicate (16 - (length text.now - at)) 0 }
{
    let left = text.len() - at;
    if left >= 16 {
        u8x16::from_slice(&text[at..])
    } else if text.len() >= 16 {
        load_last(text, left)
    } else {
        load_padded(&text[at..])
    }
}

/// Decodes the whole iterations of `input`, and returns the number of groups.
#[inline(always)]
fn decode_whole_turns<T: DecodeTurn<G>, G: GroupSize>(
    turn: &T,
    order: BitOrder,
    input: &[u8],
    output: &mut [u8],
) -> usize
    requires some { 0 < T.GROUPS }
    requires room { length input.now / G.SYMBOLS * G.BYTES ≤ length output.old }
    ensures run { (values : List ℕ) → T.holds values turn.now
        → IsRunBy values G.WIDTH order input.now result output.old output.new }
    ensures within { result ≤ length input.now / G.SYMBOLS }
{
    let count = input.len() / G::SYMBOLS / T::GROUPS;
    decode_turns::<T, G>(turn, order, count, input, output) / G::SYMBOLS
}

/// Decodes `count` iterations, up to the first byte that is not a symbol.
///
/// Returns the number of bytes read. The whole groups among them are decoded.
#[inline(always)]
fn decode_turns<T: DecodeTurn<G>, G: GroupSize>(
    turn: &T,
    order: BitOrder,
    count: usize,
    input: &[u8],
    output: &mut [u8],
) -> usize
    requires few { count * T.GROUPS * G.SYMBOLS ≤ length input.now }
    requires room { count * T.GROUPS * G.BYTES ≤ length output.old }
    ensures run { (values : List ℕ) → T.holds values turn.now
        → IsRunBy values G.WIDTH order input.now (result / G.SYMBOLS) output.old output.new }
    ensures within { result ≤ count * T.GROUPS * G.SYMBOLS }
{
    let groups = T::GROUPS;
    let symbols = G::SYMBOLS;
    let bytes = G::BYTES;
    for index in 0..count {
        let first = index * groups;
        let read = first * symbols;
        let written = first * bytes;
        let found = turn.decode(
            order,
            &input[read..read + groups * symbols],
            &mut output[written..written + groups * bytes],
        );
        if found != groups * symbols {
            return read + found;
        }
    }
    count * groups * symbols
}
