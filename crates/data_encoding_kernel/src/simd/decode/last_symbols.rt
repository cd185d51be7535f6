//! Decoding of up to sixteen symbols in one vector, in every width and bit order.

ghost use Rattle.std.specs.Prelude.{◌≡◌, ◌+◌, ◌*◌, ◌/◌, ◌^◌, ◌<◌, ◌≤◌, ◌-◌, ◌++◌, List, ℕ, IsSome, Some, drop, slice_index, length, map, replicate, take};
ghost use Rattle.std.specs.Int.{bit_at};
ghost use Rattle.std.specs.List.{AllByRecursion};
ghost use Rattle.std.specs.Simd.{first_chunks};
ghost use Rattle.data_encoding_kernel.specs.Fronts.{IsFront};
ghost use Rattle.data_encoding_kernel.specs.Tables.{Reads};
ghost use Rattle.data_encoding_meaning.specs.text.Base.{Base, group_bytes, group_symbols};
ghost use Rattle.data_encoding_kernel.specs.Joins.{AreJoined, IsJoin};
ghost use Rattle.data_encoding_kernel.specs.Words.{word_of};

use crate::simd::compare::are_below;
use crate::simd::decode::look_up::LookUp;
use data_encoding_meaning::encoding::BitOrder;
use std::simd::prelude::*;

/// How values are joined to bytes, for one width and bit order.
#[derive(Clone, Copy, Drop)]
pub struct Join {
    /// The weights of the values of the pair with the higher bits, of each four values.
    higher: [u8; 16],
    /// The weights of the values of the other pair.
    lower: [u8; 16],
    /// The index of each byte among those of the joined lanes. 128 gives a zero.
    places: [u8; 16],
    /// The bits of two values.
    pair: u32,
    /// Four values of an odd width are not whole bytes: then two lanes of four values are moved up
    /// by these and added.
    first_up: u64,
    second_up: u64,
    /// The number of symbols of a whole group, its binary logarithm, and the number of bytes.
    group: usize,
    group_log: usize,
    group_bytes: usize,
    /// The order of the bits.
    pub order: BitOrder,
    /// The number of bits of a value.
    pub width: usize,
}

// Repeats four numbers.
macro_rules! four_times {
    ($a:literal, $b:literal, $c:literal, $d:literal) => {
        [$a, $b, $c, $d, $a, $b, $c, $d, $a, $b, $c, $d, $a, $b, $c, $d]
    };
}

// A row of `JOINS`, the most significant bit first.
macro_rules! most_first {
    ($width:literal, $log:literal, $weight:literal, $pair:literal, $up:literal, $places:expr) => {
        Join {
            higher: four_times!($weight, 1, 0, 0),
            lower: four_times!(0, 0, $weight, 1),
            places: $places,
            pair: $pair,
            first_up: $up,
            second_up: 0,
            group: 1 << $log,
            group_log: $log,
            group_bytes: ($width << $log) / 8,
            order: BitOrder::MostSignificantFirst,
            width: $width,
        }
    };
}

// A row of `JOINS`, the least significant bit first.
macro_rules! least_first {
    ($width:literal, $log:literal, $weight:literal, $pair:literal, $up:literal, $places:expr) => {
        Join {
            higher: four_times!(0, 0, 1, $weight),
            lower: four_times!(1, $weight, 0, 0),
            places: $places,
            pair: $pair,
            first_up: 0,
            second_up: $up,
            group: 1 << $log,
            group_log: $log,
            group_bytes: ($width << $log) / 8,
            order: BitOrder::LeastSignificantFirst,
            width: $width,
        }
    };
}

/// Not the join of any width.
const NO_JOIN: Join = Join {
    higher: [0; 16],
    lower: [0; 16],
    places: [0; 16],
    pair: 0,
    first_up: 0,
    second_up: 0,
    group: 0,
    group_log: 0,
    group_bytes: 0,
    order: BitOrder::MostSignificantFirst,
    width: 0,
};

/// The joins of each width from index 1 on, the most significant bit first, and of each from index
/// 9 on, the least significant bit first.
static JOINS: [Join; 16] = [
    NO_JOIN,
    most_first!(
        1,
        3,
        2,
        2,
        4,
        [
            0, 8, 128, 128, 128, 128, 128, 128, 128, 128, 128, 128, 128, 128, 128, 128
        ]
    ),
    most_first!(
        2,
        2,
        4,
        4,
        8,
        [
            0, 4, 8, 12, 128, 128, 128, 128, 128, 128, 128, 128, 128, 128, 128, 128
        ]
    ),
    most_first!(
        3,
        3,
        8,
        6,
        12,
        [
            2, 1, 0, 10, 9, 8, 128, 128, 128, 128, 128, 128, 128, 128, 128, 128
        ]
    ),
    most_first!(
        4,
        1,
        16,
        8,
        16,
        [
            1, 0, 5, 4, 9, 8, 13, 12, 128, 128, 128, 128, 128, 128, 128, 128
        ]
    ),
    most_first!(
        5,
        3,
        32,
        10,
        20,
        [
            4, 3, 2, 1, 0, 12, 11, 10, 9, 8, 128, 128, 128, 128, 128, 128
        ]
    ),
    most_first!(
        6,
        2,
        64,
        12,
        24,
        [2, 1, 0, 6, 5, 4, 10, 9, 8, 14, 13, 12, 128, 128, 128, 128]
    ),
    NO_JOIN,
    NO_JOIN,
    least_first!(
        1,
        3,
        2,
        2,
        4,
        [
            0, 8, 128, 128, 128, 128, 128, 128, 128, 128, 128, 128, 128, 128, 128, 128
        ]
    ),
    least_first!(
        2,
        2,
        4,
        4,
        8,
        [
            0, 4, 8, 12, 128, 128, 128, 128, 128, 128, 128, 128, 128, 128, 128, 128
        ]
    ),
    least_first!(
        3,
        3,
        8,
        6,
        12,
        [
            0, 1, 2, 8, 9, 10, 128, 128, 128, 128, 128, 128, 128, 128, 128, 128
        ]
    ),
    least_first!(
        4,
        1,
        16,
        8,
        16,
        [
            0, 1, 4, 5, 8, 9, 12, 13, 128, 128, 128, 128, 128, 128, 128, 128
        ]
    ),
    least_first!(
        5,
        3,
        32,
        10,
        20,
        [
            0, 1, 2, 3, 4, 8, 9, 10, 11, 12, 128, 128, 128, 128, 128, 128
        ]
    ),
    least_first!(
        6,
        2,
        64,
        12,
        24,
        [0, 1, 2, 4, 5, 6, 8, 9, 10, 12, 13, 14, 128, 128, 128, 128]
    ),
    NO_JOIN,
];

impl Join {
    /// Returns the number of symbols of a whole group.
    #[inline(always)]
    pub fn group_symbols(&self) -> usize
        requires { IsJoin self.now }
        ensures { result ≡ group_symbols self.now.width }
    {
        self.group
    }

    /// Returns the number of whole groups among `count` symbols.
    #[inline(always)]
    pub fn groups(&self, count: usize) -> usize
        requires { IsJoin self.now }
        ensures { result ≡ count / group_symbols self.now.width }
    {
        count >> self.group_log
    }

    /// Returns the number of symbols in the whole groups among `count` symbols.
    #[inline(always)]
    pub fn whole_groups(&self, count: usize) -> usize
        requires { IsJoin self.now }
        ensures { result ≡ count / group_symbols self.now.width * group_symbols self.now.width }
    {
        self.groups(count) << self.group_log
    }

    /// Returns the number of bytes that the whole groups among `count` symbols mean.
    #[inline(always)]
    pub fn groups_len(&self, count: usize) -> usize
        requires { IsJoin self.now }
        ensures { result ≡ count / group_symbols self.now.width * group_bytes self.now.width }
    {
        self.groups(count) * self.group_bytes
    }

    /// Returns the number of whole bytes that `count` symbols mean.
    #[inline(always)]
    pub fn bytes_len(&self, count: usize) -> usize
        requires fits { count * self.now.width < 2 ^ 64 }
        ensures { result ≡ self.now.width * count / 8 }
    {
        count * self.width / 8
    }

    /// Returns the join of a width, from 1 to 6, and a bit order.
    #[inline(always)]
    pub fn of(order: BitOrder, width: usize) -> &'static Join
        requires some { 1 ≤ width }
        requires few { width ≤ 6 }
        ensures join { IsJoin result.now }
        ensures same { (result.now.order ≡ order) × (result.now.width ≡ width) }
    {
        let start = match order {
            BitOrder::MostSignificantFirst => 0,
            BitOrder::LeastSignificantFirst => 8,
        };
        &JOINS[start + width]
    }

    /// Returns the words of four values each.
    #[inline(always)]
    fn fours_of(&self, values: u8x16) -> u32x4
        requires { IsJoin self.now }
        ensures { AllByRecursion (λ value. value < 2 ^ self.now.width) values
            → result ≡ map (word_of self.now.order self.now.width 4) (first_chunks 4 4 values) }
    {
        let high = values.dot4(u8x16::from_slice(&self.higher));
        let low = values.dot4(u8x16::from_slice(&self.lower));
        (high << u32x4::splat(self.pair)) + low
    }

    /// Returns the words of eight values each, from those of four.
    #[inline(always)]
    fn eights_of(&self, fours: u32x4) -> u64x2
        requires { IsJoin self.now }
        ensures { (values : List ℕ) → length values ≡ 16
            → fours ≡ map (word_of self.now.order self.now.width 4) (first_chunks 4 4 values)
            → result ≡ map (word_of self.now.order self.now.width 8) (first_chunks 8 2 values) }
    {
        let lanes = u64x2::from_le_bytes(fours.to_le_bytes());
        let first = lanes & u64x2::splat(0xffff_ffff);
        let second = lanes >> u64x2::splat(32);
        (first << u64x2::splat(self.first_up)) + (second << u64x2::splat(self.second_up))
    }

    /// Returns the bytes that sixteen values mean. Zeros stand for missing values.
    #[inline(always)]
    fn bytes_of(&self, values: u8x16) -> u8x16
        requires { IsJoin self.now }
        ensures { (n : ℕ) → n ≤ 16
            → AllByRecursion (λ value. value < 2 ^ self.now.width) (take n values)
            → AllByRecursion (λ value. value ≡ 0) (drop n values)
            → AreJoined self.now.order self.now.width (take n values) result }
    {
        let fours = self.fours_of(values);
        let joined = if self.width % 2 == 1 {
            self.eights_of(fours).to_le_bytes()
        } else {
            fours.to_le_bytes()
        };
        joined.swizzle_dyn(u8x16::from_slice(&self.places))
    }
}

/// Sixteen lanes that are kept, and sixteen that are not.
static KEPT_LANES: [u8; 32] = [
    255, 255, 255, 255, 255, 255, 255, 255, 255, 255, 255, 255, 255, 255, 255, 255, 0, 0, 0, 0, 0,
    0, 0, 0, 0, 0, 0, 0, 0, 0, 0, 0,
];

/// Returns the first lanes, followed by zeros.
#[inline(always)]
fn first_lanes(count: usize, lanes: u8x16) -> u8x16
    requires { count ≤ 16 }
    ensures { result ≡ take count lanes ++ replicate (16 - count) 0 }
{
    lanes & u8x16::from_slice(&KEPT_LANES[16 - count..32 - count])
}

/// Returns the bytes that sixteen symbols mean, or `None` if one of the bytes is not a symbol.
#[inline(always)]
pub fn decode_whole<L: LookUp>(look_up: &L, join: &Join, bytes: u8x16) -> Option<[u8; 16]>
    requires { IsJoin join.now }
    ensures front { (decoded : List ℕ) → result ≡ Some decoded
        → (values : List ℕ) → L.holds values look_up.now
        → (base : Base) → Reads base values join.now.width join.now.order
        → IsFront base bytes 16 decoded }
    ensures some { (values : List ℕ) → L.holds values look_up.now
        → ((k : ℕ) → k < 16 → slice_index values (slice_index bytes k) < 128) → IsSome result }
{
    let entries = look_up.look_up_16(bytes);
    if !are_below(128, entries) {
        return None;
    }
    Some(join.bytes_of(entries).to_array())
}

/// What the symbols at the start of a vector mean.
#[derive(Clone, Copy, Drop)]
pub struct Front {
    /// The number of symbols before the first byte that is not a symbol.
    pub symbols: usize,
    /// Has the bit of each byte that is not a symbol, and the bit after the last byte.
    pub others: u64,
    /// The bytes that these symbols mean, then a byte of their trailing bits, and zeros.
    pub bytes: u8x16,
    /// The bytes of the text.
    pub text: u8x16,
}

impl Front {
    /// Returns how many bytes after the symbols are `byte`, one after another.
    #[inline(always)]
    pub fn count_alike(&self, byte: u8) -> usize
        requires few { self.now.symbols ≤ 16 }
        ensures few { self.now.symbols + result ≤ 16 }
        ensures alike { (k : ℕ) → k < result
            → slice_index self.now.text (self.now.symbols + k) ≡ byte }
    {
        (alike_bits(self.text, byte) >> self.symbols).trailing_ones() as usize
    }
}

/// Returns the bits of the bytes that are `byte`.
#[inline(always)]
fn alike_bits(text: u8x16, byte: u8) -> u64
    ensures few { result < 2 ^ 16 }
    ensures alike { (k : ℕ) → k < 16 → bit_at result k ≡ 1 → slice_index text k ≡ byte }
{
    text.simd_eq(u8x16::splat(byte)).to_bitmask()
}

/// Decodes the symbols at the start of the first `len` bytes of a vector.
#[inline(always)]
pub fn decode_front<L: LookUp>(look_up: &L, join: &Join, len: usize, bytes: u8x16) -> Front
    requires join { IsJoin join.now }
    requires few { len ≤ 16 }
    ensures few { result.symbols ≤ len }
    ensures text { result.text ≡ bytes }
    ensures stop { (values : List ℕ) → L.holds values look_up.now → result.symbols < len
        → 128 ≤ slice_index values (slice_index bytes result.symbols) }
    ensures others { (values : List ℕ) → L.holds values look_up.now
        → (k : ℕ) → k < len → bit_at result.others k ≡ 0
        → slice_index values (slice_index bytes k) < 128 }
    ensures marked { (values : List ℕ) → L.holds values look_up.now
        → (k : ℕ) → k < len → bit_at result.others k ≡ 1
        → 128 ≤ slice_index values (slice_index bytes k) }
    ensures front { (values : List ℕ) → L.holds values look_up.now
        → (base : Base) → Reads base values join.now.width join.now.order
        → IsFront base bytes result.symbols result.bytes }
{
    let entries = look_up.look_up_16(bytes);
    let others = others_of(entries, len);
    let symbols = symbols_of(others, len);
    Front {
        symbols,
        others,
        bytes: join.bytes_of(first_lanes(symbols, entries)),
        text: bytes,
    }
}

/// Returns the bits of the bytes that are not symbols, and the bit after the first `len` bytes.
#[inline(always)]
fn others_of(entries: u8x16, len: usize) -> u64
    requires { len ≤ 16 }
    ensures lanes { length entries ≡ 16 }
    ensures end { bit_at result len ≡ 1 }
    ensures below { (k : ℕ) → k < len → bit_at result k ≡ 0 → slice_index entries k < 128 }
    ensures above { (k : ℕ) → k < len → bit_at result k ≡ 1 → 128 ≤ slice_index entries k }
{
    entries.simd_ge(u8x16::splat(128)).to_bitmask() | 1 << len
}

/// Returns the number of bytes before the first that is not a symbol, of the first `len` bytes.
#[inline(always)]
fn symbols_of(others: u64, len: usize) -> usize
    requires few { len ≤ 16 }
    requires end { bit_at others len ≡ 1 }
    ensures few { result ≤ len }
    ensures below { (k : ℕ) → k < result → bit_at others k ≡ 0 }
    ensures stop { result < len → bit_at others result ≡ 1 }
{
    others.trailing_zeros() as usize
}

/// The indexes from 0 to 15, and sixteen that give zeros.
static MOVED_LANES: [u8; 32] = [
    0, 1, 2, 3, 4, 5, 6, 7, 8, 9, 10, 11, 12, 13, 14, 15, 128, 128, 128, 128, 128, 128, 128, 128,
    128, 128, 128, 128, 128, 128, 128, 128,
];

/// Returns the last `len` bytes of `text`, followed by zeros.
#[inline(always)]
pub fn load_last(text: &[u8], len: usize) -> u8x16
    requires long { 16 ≤ length text.now }
    requires few { len ≤ 16 }
    ensures { result ≡ drop (length text.now - len) text.now ++ replicate (16 - len) 0 }
{
    let last = u8x16::from_slice(&text[text.len() - 16..]);
    last.swizzle_dyn(u8x16::from_slice(&MOVED_LANES[16 - len..32 - len]))
}
