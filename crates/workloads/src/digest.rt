//! A digest of results.

ghost use Rattle.std.specs.Prelude.{◌+◌, ◌≤◌, length};

use std::io;
use std::io::Write;

const FACTOR: u64 = 0x9e37_79b9_7f4a_7c15;

/// Numbers that depend on each byte that was added, and on the order of the bytes. There are four,
/// for bytes that are added by four words at a time.
#[derive(Debug, Drop)]
pub struct Digest {
    parts: [u64; 4],
}

impl Digest {
    /// Returns a digest of nothing.
    pub fn new() -> Digest {
        Digest {
            parts: [1, 2, 3, 4],
        }
    }

    /// Adds a number.
    pub fn add(&mut self, number: u64) {
        self.parts[0] = mixed(self.parts[0], number);
    }

    /// Adds bytes, and how many they are.
    pub fn add_bytes(&mut self, bytes: &[u8]) {
        let [mut one, mut two, mut three, mut four] = self.parts;
        for index in 0..bytes.len() / 32 {
            let start = 32 * index;
            one = mixed(one, word_at(bytes, start));
            two = mixed(two, word_at(bytes, start + 8));
            three = mixed(three, word_at(bytes, start + 16));
            four = mixed(four, word_at(bytes, start + 24));
        }
        self.parts = [one, two, three, four];
        self.add_rest(&bytes[bytes.len() / 32 * 32..]);
        self.add(bytes.len() as u64);
    }

    // Adds fewer than 32 bytes.
    fn add_rest(&mut self, rest: &[u8]) {
        for index in 0..rest.len() / 8 {
            self.parts[1] = mixed(self.parts[1], word_at(rest, 8 * index));
        }
        for index in rest.len() / 8 * 8..rest.len() {
            self.parts[2] = mixed(self.parts[2], u64::from(rest[index]));
        }
    }

    /// Returns one number for all that was added.
    pub fn value(&self) -> u64 {
        let mut value = 0;
        for part in self.parts {
            value = mixed(value, part ^ (part >> 32));
        }
        value
    }
}

// What is written is added to the digest.
impl Write for Digest {
    fn write(&mut self, buf: &[u8]) -> io::Result<usize> {
        self.add_bytes(buf);
        Ok(buf.len())
    }

    fn flush(&mut self) -> io::Result<()> {
        Ok(())
    }
}

#[inline(always)]
fn mixed(part: u64, number: u64) -> u64 {
    (part.rotate_left(5) ^ number).wrapping_mul(FACTOR)
}

// The eight bytes from a position on.
#[inline(always)]
fn word_at(bytes: &[u8], start: usize) -> u64
    requires { start + 8 ≤ length bytes.now }
{
    u64::from_le_bytes([
        bytes[start],
        bytes[start + 1],
        bytes[start + 2],
        bytes[start + 3],
        bytes[start + 4],
        bytes[start + 5],
        bytes[start + 6],
        bytes[start + 7],
    ])
}
