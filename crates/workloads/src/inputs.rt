//! Inputs that are made from a number.

ghost use Rattle.std.specs.Prelude.{◌≡◌, ◌<◌, ◌≤◌, length};
ghost use Rattle.workloads.specs.declared.inputs.TheConstants.{POOL};

use std::alloc::{AllocError, Global};
use std::io;
use std::io::Read;

// The number of bytes that inputs are taken from.
const POOL: usize = 262_144;

// The most bytes that are taken at a time.
const MOST: usize = 65_536;

/// Numbers and bytes, which the first number determines: the numbers by SplitMix64, of Steele, Lea
/// and Flood. Bytes are some of a large number of them, from a drawn place on, of which the first
/// eight are changed by a drawn number: so they take little time, and no two inputs are alike.
#[derive(Debug, Drop)]
pub struct Inputs {
    state: u64,
    pool: Vec<u8>,
    ghost pool_len: { length pool.items ≡ POOL },
}

impl Inputs {
    /// Returns the inputs of this number.
    pub fn new(alloc: Global, seed: u64) -> Result<Inputs, AllocError> {
        let mut state = seed.wrapping_mul(0xd134_2543_de82_ef95);
        let mut pool = vec![in alloc; 0; POOL]?;
        fill_words(&mut state, &mut pool);
        Ok(Inputs { state, pool })
    }

    /// Returns the next number.
    pub fn next(&mut self) -> u64 {
        drawn(&mut self.state)
    }

    /// Returns a number below `bound`.
    pub fn below(&mut self, bound: usize) -> usize
        requires { 0 < bound }
        ensures { result < bound }
    {
        (self.next() >> 33) as usize % bound
    }

    /// Returns a number from `least` to `most`.
    pub fn between(&mut self, least: usize, most: usize) -> usize
        requires order { least ≤ most }
        requires few { most < 16777216 }
        ensures least { least ≤ result }
        ensures most { result ≤ most }
    {
        least + self.below(most - least + 1)
    }

    /// Fills a buffer with bytes.
    pub fn fill(&mut self, bytes: &mut [u8])
        ensures { length bytes.new ≡ length bytes.old }
    {
        for index in 0..bytes.len().div_ceil(MOST) {
            let start = index * MOST;
            let end = bytes.len().min(start + MOST);
            self.fill_part(&mut bytes[start..end]);
        }
    }

    // Fills a buffer of at most `MOST` bytes.
    fn fill_part(&mut self, bytes: &mut [u8])
        requires { length bytes.old ≤ MOST }
        ensures { length bytes.new ≡ length bytes.old }
    {
        let start = self.below(POOL - MOST);
        bytes.copy_from_slice(&self.pool[start..start + bytes.len()]);
        let number = self.next().to_le_bytes();
        for index in 0..bytes.len().min(8) {
            bytes[index] ^= number[index];
        }
    }

    /// Returns this many bytes.
    pub fn bytes(&mut self, alloc: Global, len: usize) -> Result<Vec<u8>, AllocError> {
        let mut bytes = vec![in alloc; 0; len]?;
        self.fill(&mut bytes);
        Ok(bytes)
    }

    /// Exchanges the items of a slice at random.
    pub fn shuffle(&mut self, items: &mut [u8])
        ensures { length items.new ≡ length items.old }
    {
        for index in 0..items.len() {
            let other = self.below(items.len());
            let item = items[index];
            items[index] = items[other];
            items[other] = item;
        }
    }
}

// The next number of a sequence.
fn drawn(state: &mut u64) -> u64 {
    *state = state.wrapping_add(0x9e37_79b9_7f4a_7c15);
    let mut word = *state;
    word = (word ^ (word >> 30)).wrapping_mul(0xbf58_476d_1ce4_e5b9);
    word = (word ^ (word >> 27)).wrapping_mul(0x94d0_49bb_1331_11eb);
    word ^ (word >> 31)
}

// Fills a buffer with the next numbers of a sequence, up to its last whole word.
fn fill_words(state: &mut u64, bytes: &mut [u8])
    ensures { length bytes.new ≡ length bytes.old }
{
    for index in 0..bytes.len() / 8 {
        bytes[8 * index..8 * index + 8].copy_from_slice(&drawn(state).to_le_bytes());
    }
}

/// A reader of bytes that are made as they are read.
#[derive(Drop)]
pub struct InputReader<'a> {
    /// Where the bytes are from.
    pub inputs: &'a mut Inputs,

    /// How many bytes are left.
    pub left: usize,
}

impl Read for InputReader<'_> {
    fn read(&mut self, buf: &mut [u8]) -> io::Result<usize> {
        let count = buf.len().min(self.left);
        self.inputs.fill(&mut buf[..count]);
        self.left -= count;
        Ok(count)
    }
}
