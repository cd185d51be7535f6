//! Allocation of all memory, or the refusal of one allocation.

use std::alloc::{AllocError, Global};

/// The most blocks that are ever allocated.
const PARTS: usize = 1 << 17;

/// The length of the allocation that marks the beginning of a call. Nothing else allocates it.
const BEGIN: usize = 4_194_301;

/// The length of the allocation that marks the end of a call. Nothing else allocates it.
const END: usize = 4_194_299;

/// The allocations that are refused.
#[derive(Clone, Copy, Debug, PartialEq, Eq)]
pub enum Refused {
    /// None.
    Nothing,

    /// All.
    All,

    /// One allocation, by a `malloc` that counts them from the beginning of a call.
    One,
}

/// Makes allocations of a call fail.
#[derive(Drop)]
pub struct Hog {
    /// The allocator.
    pub alloc: Global,

    /// The allocations to refuse.
    refused: Refused,

    /// One allocation was refused to the last call.
    is_refused: bool,

    /// One allocation was refused since `take_refused_one` was last called.
    has_refused_one: bool,

    /// The blocks that were allocated.
    parts: Vec<Vec<u8>>,
}

impl Hog {
    /// Returns a hog that has allocated only its own list of blocks.
    pub fn new(alloc: Global, refused: Refused) -> Result<Hog, AllocError> {
        Ok(Hog {
            alloc,
            refused,
            is_refused: false,
            has_refused_one: false,
            parts: Vec::with_capacity(alloc, PARTS)?,
        })
    }

    /// Begins a call.
    ///
    /// If all allocations are to be refused, allocates until no block of any size is left: large
    /// blocks first, then each size that an allocator may serve from a separate list.
    pub fn fill(&mut self) {
        match self.refused {
            Refused::Nothing => {}
            Refused::All => self.fill_all(),
            Refused::One => {
                let _ = self.is_refused_to(BEGIN);
            }
        }
    }

    /// Ends a call, and frees all blocks.
    pub fn clear(&mut self) {
        self.parts.clear();
        if matches!(self.refused, Refused::One) {
            // The last allocation is refused if one of the call was.
            self.is_refused = self.is_refused_to(END);
            self.has_refused_one |= self.is_refused;
        }
    }

    /// Returns `true` if the last call must have run out of memory.
    ///
    /// `needs_memory` states if the call allocates at all.
    pub fn has_refused(&self, needs_memory: bool) -> bool {
        match self.refused {
            Refused::Nothing => false,
            Refused::All => needs_memory,
            Refused::One => self.is_refused,
        }
    }

    /// Returns `true` if one allocation was refused since the last call of this function.
    pub fn take_refused_one(&mut self) -> bool {
        let has_refused = self.has_refused_one;
        self.has_refused_one = false;
        has_refused
    }

    /// Returns `true` if an allocation of `len` bytes is refused.
    fn is_refused_to(&self, len: usize) -> bool {
        let bytes: Result<Vec<u8>, _> = Vec::with_capacity(self.alloc, len);
        bytes.is_err()
    }

    /// Allocates until no block is left.
    fn fill_all(&mut self) {
        for shift in 0..15u32 {
            self.fill_by((1 << 26) >> shift, 64);
        }
        for step in 0..128usize {
            self.fill_by(2048 - 16 * step, 1024);
        }
    }

    /// Allocates at most `most` blocks of `size` bytes.
    fn fill_by(&mut self, size: usize, most: usize) {
        for _ in 0..most {
            let Ok(part) = Vec::with_capacity(self.alloc, size) else {
                return;
            };
            if self.parts.push(part).is_err() {
                return;
            }
        }
    }
}
