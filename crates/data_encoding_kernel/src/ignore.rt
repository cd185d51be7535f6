//! Packing of the bytes of a text that are not ignored, sixteen at a time.

ghost use Rattle.std.specs.Prelude.{◌≡◌, ℕ, ◌+◌, ◌-◌, ◌*◌, ◌^◌, ◌<◌, ◌≤◌, ◌==◌, ◌++◌, ◌∷◌, Bool, true, false, not, List, length, map, slice_index, take, drop, filter};
ghost use Rattle.std.specs.List.{range_with_len};
ghost use Rattle.std.specs.Simd.Lanes.{mask_l};
ghost use Rattle.data_encoding_meaning.specs.text.Base.{Base, is_ignored, meaning};
ghost use Rattle.data_encoding_meaning.specs.text.Grammar.{bytes_in, kept};
ghost use Rattle.data_encoding_meaning.specs.decoding.Decoding.{IsIgnoredFront};
ghost use Rattle.data_encoding_kernel.specs.Ignore.{HoldsIgnored, IsPacked, ignored_bit};
ghost use Rattle.data_encoding_kernel.specs.Tables.{HoldsValues};

mod moves;

use crate::ignore::moves::moves;
use crate::platform::has_simd;
use crate::simd::decode::affine::bits;
use crate::simd::decode::table_rows::in_row_16;
use std::simd::prelude::*;

/// The set of ignored bytes.
#[derive(Clone, Copy, Drop)]
pub struct IgnoredBytes {
    /// `rows[low]` has bit `high` set if the byte `high << 4 | low` is ignored.
    pub rows: u8x16,
}

/// The entry of an ignored byte.
const IGNORED: u8 = 129;

impl IgnoredBytes {
    /// Returns the ignored bytes below 128 of a table of values.
    #[inline(always)]
    pub fn of(values: &[u8; 256]) -> IgnoredBytes
        ensures { (base : Base) → HoldsValues base values.now → length base.meanings ≤ 128
            → HoldsIgnored base result }
    {
        let mut rows = u8x16::splat(0);
        for below in 0..8 {
            let start = 16 * (7 - below);
            let entries = u8x16::from_slice(&values[start..start + 16]);
            rows = with_row(entries, rows);
        }
        IgnoredBytes { rows }
    }

    /// Returns the number of bytes of `part` that are not ignored. `part` has 16 bytes.
    #[inline(always)]
    pub fn count_kept(&self, part: &[u8]) -> usize
        requires { length part.now ≡ 16 }
        ensures { (base : Base) → HoldsIgnored base self.now
            → result ≡ length (kept base part.now) }
    {
        kept_mask(self, u8x16::from_slice(part)).count_ones() as usize
    }

    /// Returns `true` if `byte` is ignored. No address depends on it.
    #[inline(always)]
    pub fn contains(&self, byte: u8) -> bool
        ensures { (base : Base) → HoldsIgnored base self.now
            → result ≡ is_ignored (meaning base byte) }
    {
        kept_mask(self, u8x16::splat(byte)) % 2 == 0
    }

    /// Returns how many bytes are ignored before the first that is not.
    #[inline(always)]
    pub fn front(&self, rest: &[u8]) -> usize
        ensures within { result ≤ length rest.now }
        ensures front { (base : Base) → HoldsIgnored base self.now
            → IsIgnoredFront base rest.now result }
        ensures next { (base : Base) → HoldsIgnored base self.now → result < length rest.now
            → is_ignored (meaning base (slice_index rest.now result)) ≡ false }
    {
        let count = if has_simd() { rest.len() / 16 } else { 0 };
        for index in 0..count {
            let start = 16 * index;
            let mask = kept_mask(self, u8x16::from_slice(&rest[start..start + 16]));
            if mask != 0 {
                return start + mask.trailing_zeros() as usize;
            }
        }
        let start = 16 * count;
        start + self.front_of_few(&rest[start..])
    }

    /// Like [`front`](IgnoredBytes::front), byte by byte.
    fn front_of_few(&self, rest: &[u8]) -> usize
        ensures within { result ≤ length rest.now }
        ensures ignored { (base : Base) → HoldsIgnored base self.now → (k : ℕ) → k < result
            → is_ignored (meaning base (slice_index rest.now k)) ≡ true }
        ensures next { (base : Base) → HoldsIgnored base self.now → result < length rest.now
            → is_ignored (meaning base (slice_index rest.now result)) ≡ false }
    {
        for index in 0..rest.len() {
            if !self.contains(rest[index]) {
                return index;
            }
        }
        rest.len()
    }
}

/// Returns `rows` moved up by a bit, with the ignored bytes of one more row as the lowest bit.
#[inline(always)]
fn with_row(entries: u8x16, rows: u8x16) -> u8x16
    ensures { (entry : ℕ → ℕ) → (flags : ℕ → List Bool) → ((k : ℕ) → mask_l (flags k) < 128)
        → entries ≡ map entry (range_with_len 0 16)
        → rows ≡ map (λ k. mask_l (flags k)) (range_with_len 0 16)
        → result ≡ map (λ k. mask_l ((entry k == 129) ∷ flags k)) (range_with_len 0 16) }
{
    let are_ignored = entries.simd_eq(u8x16::splat(IGNORED));
    (rows + rows) + are_ignored.select(u8x16::splat(1), u8x16::splat(0))
}

/// Returns the mask of the lanes with a byte that is not ignored.
#[inline(always)]
fn kept_mask(ignored: &IgnoredBytes, bytes: u8x16) -> u64
    ensures { result ≡ mask_l (map (λ byte. ignored_bit ignored.now byte == 0) bytes) }
{
    let rows = in_row_16(ignored.rows, bytes);
    let row_bits = in_row_16(bits(), bytes >> u8x16::splat(4));
    (rows & row_bits).simd_eq(u8x16::splat(0)).to_bitmask()
}

/// Packs the lanes that `mask` selects of the first eight, and returns their number. Always stores
/// eight bytes.
#[inline(always)]
fn pack_eight(mask: u64, bytes: u8x16, room: &mut [u8]) -> usize
    requires mask { mask < 256 }
    requires room { length room.old ≡ 8 }
    ensures few { result ≤ 8 }
    ensures packed { (flags : List Bool) → length flags ≡ 8 → mask ≡ mask_l flags
        → IsPacked flags (take 8 bytes) result room.new }
{
    let places = u64x2::from_array([moves(mask), 0]).to_le_bytes();
    bytes
        .swizzle_dyn(places)
        .swizzle::<8>([0, 1, 2, 3, 4, 5, 6, 7])
        .copy_to_slice(room);
    mask.count_ones() as usize
}

/// Packs the lanes that `mask` selects of sixteen, and returns their number. Always stores sixteen
/// bytes.
#[inline(always)]
fn pack_sixteen(mask: u64, bytes: u8x16, room: &mut [u8]) -> usize
    requires mask { mask < 2 ^ 16 }
    requires room { length room.old ≡ 16 }
    ensures few { result ≤ 16 }
    ensures packed { (flags : List Bool) → length flags ≡ 16 → mask ≡ mask_l flags
        → IsPacked flags bytes result room.new }
{
    if mask == 0xffff {
        bytes.copy_to_slice(room);
        return 16;
    }
    let others = bytes.swizzle::<16>([8, 9, 10, 11, 12, 13, 14, 15, 0, 1, 2, 3, 4, 5, 6, 7]);
    let count = pack_eight(mask & 255, bytes, &mut room[..8]);
    count + pack_eight(mask >> 8, others, &mut room[count..count + 8])
}

/// Packs the bytes that are not ignored, from lane `first` on, to `room` from index `start` on.
///
/// Returns the number of packed bytes in `room`.
#[inline(always)]
fn pack_more(
    ignored: &IgnoredBytes,
    bytes: u8x16,
    first: usize,
    start: usize,
    room: &mut [u8],
) -> usize
    requires first { first ≤ 16 }
    requires room { start + 16 ≤ length room.old }
    ensures few { result ≤ start + (16 - first) }
    ensures kept { (base : Base) → HoldsIgnored base ignored.now
        → take result room.new ≡ take start room.old
        ++ filter (λ byte. not (is_ignored (meaning base byte))) (drop first bytes) }
{
    let mask = kept_mask(ignored, bytes) >> first << first;
    start + pack_sixteen(mask, bytes, &mut room[start..start + 16])
}

/// Returns the last sixteen bytes of `part`. If it has fewer, they are in the last lanes.
#[inline(always)]
fn last_sixteen(part: &[u8]) -> u8x16
    ensures { (rest : ℕ) → rest ≤ 16 → rest ≤ length part.now
        → drop (16 - rest) result ≡ drop (length part.now - rest) part.now }
{
    let len = part.len();
    if len >= 16 {
        return u8x16::from_slice(&part[len - 16..]);
    }
    let mut lanes = [0; 16];
    lanes[16 - len..].copy_from_slice(part);
    u8x16::from_array(lanes)
}

/// Packs the bytes of `part` that are not ignored, in order, to the start of `room`.
///
/// Stops where `room` has no space for sixteen more. Returns the numbers of bytes read and packed.
#[inline]
pub fn pack(ignored: &IgnoredBytes, part: &[u8], room: &mut [u8]) -> (usize, usize)
    ensures within { result.0 ≤ length part.now }
    ensures few { result.1 ≤ result.0 }
    ensures room { result.1 ≤ length room.new }
    ensures kept { (base : Base) → HoldsIgnored base ignored.now
        → bytes_in (kept base (take result.0 part.now)) ≡ take result.1 room.new }
{
    let turns = part.len() / 16;
    let mut count = 0;
    for turn in 0..turns {
        let read = 16 * turn;
        if room.len() - count < 16 {
            return (read, count);
        }
        let bytes = u8x16::from_slice(&part[read..read + 16]);
        count = pack_more(ignored, bytes, 0, count, room);
    }
    let rest = part.len() % 16;
    if rest == 0 || room.len() - count < 16 {
        return (16 * turns, count);
    }
    (
        part.len(),
        pack_more(ignored, last_sixteen(part), 16 - rest, count, room),
    )
}
