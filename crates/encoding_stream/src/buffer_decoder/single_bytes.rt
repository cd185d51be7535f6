//! Single bytes of a text in pieces. They are held until a group is complete.

ghost use Rattle.std.specs.Prelude.{◌≡◌, ℕ, ◌+◌, ◌<◌, ◌≤◌, ◌⊎◌, List, [], ◌∷◌, length, take, IsSome};
ghost use Rattle.data_encoding.specs.declared.decode.TheConstants.{DECODE_LIMIT};
ghost use Rattle.encoding_stream.specs.BufferDecoder.{base_of_pieces, most_completed};
ghost use Rattle.encoding_stream.specs.Reading.{ReadsOn};

use crate::buffer_decoder::BufferDecoder;
use crate::state_checks::is_ignored;
use data_encoding::DECODE_LIMIT;

impl BufferDecoder<'_> {
    /// Reads byte by byte, up to a fault, while at least `least` bytes are held.
    // Inlined with `read_byte`, since mostly no byte or a few bytes are read. Calls would take 3 %
    // of the instructions of short pieces.
    #[inline(always)]
    pub(crate) fn read_bytes(
        &mut self,
        least: usize,
        piece: &[u8],
        output: &mut [u8],
    ) -> (usize, usize)
        requires limit { self.old.kept.len + length piece.now ≤ DECODE_LIMIT }
        requires room { most_completed (base_of_pieces self.old) self.old.kept
            (length piece.now) ≤ length output.old }
        ensures base { base_of_pieces self.new ≡ base_of_pieces self.old }
        ensures reads { ReadsOn (base_of_pieces self.old) self.old.kept self.new.kept
            (take result.0 piece.now) (take result.1 output.new) }
        ensures until { result.0 < length piece.now
            → (self.new.kept.count < least) ⊎ IsSome self.new.kept.fault }
        ensures read { result.0 ≤ length piece.now }
        ensures within { result.1 ≤ length output.new }
        ensures len { length output.new ≡ length output.old }
    {
        let mut read = 0;
        let mut written = 0;
        while read < piece.len() && self.kept.fault.is_none() && self.kept.count >= least {
            written += self.read_byte(piece[read], &mut output[written..]);
            read += 1;
        }
        (read, written)
    }

    /// Reads byte by byte, and counts the bytes after a fault.
    pub(crate) fn read_each(&mut self, piece: &[u8], output: &mut [u8]) -> usize
        requires limit { self.old.kept.len + length piece.now ≤ DECODE_LIMIT }
        requires room { most_completed (base_of_pieces self.old) self.old.kept
            (length piece.now) ≤ length output.old }
        ensures base { base_of_pieces self.new ≡ base_of_pieces self.old }
        ensures reads { ReadsOn (base_of_pieces self.old) self.old.kept self.new.kept piece.now
            (take result output.new) }
        ensures within { result ≤ length output.new }
        ensures len { length output.new ≡ length output.old }
    {
        let (read, written) = self.read_bytes(0, piece, output);
        if read < piece.len() {
            self.skip(&piece[read..]);
        }
        written
    }

    /// Reads a byte, writes the bytes of the group that it completes to the start of `output`, and
    /// returns their number.
    ///
    /// Returns 0 if no group is complete, or if the group has a fault.
    #[inline(always)]
    fn read_byte(&mut self, byte: u8, output: &mut [u8]) -> usize
        requires limit { self.old.kept.len < DECODE_LIMIT }
        requires room { most_completed (base_of_pieces self.old) self.old.kept 1
            ≤ length output.old }
        ensures base { base_of_pieces self.new ≡ base_of_pieces self.old }
        ensures reads { ReadsOn (base_of_pieces self.old) self.old.kept self.new.kept (byte ∷ [])
            (take result output.new) }
        ensures within { result ≤ length output.new }
        ensures len { length output.new ≡ length output.old }
    {
        let position = self.kept.len;
        self.kept.len += 1;
        let encoding = self.encoding.by_ref();
        if self.kept.fault.is_some() || is_ignored(&encoding, byte) {
            return 0;
        }
        let size = encoding.group_len();
        let index = self.kept.count;
        self.kept.positions[index] = position;
        self.kept.bytes[index] = byte;
        if index + 1 < size {
            self.kept.count = index + 1;
            return 0;
        }
        self.kept.count = 0;
        let decoded = self.decode_group(size, output);
        let is_final = self.is_final();
        self.kept.positions = [0; 8];
        self.kept.bytes = [0; 8];
        match decoded {
            Ok(written) => {
                self.kept.ended = is_final;
                written
            }
            Err(error) => {
                self.kept.fault = Some(error);
                0
            }
        }
    }

    /// Counts the bytes of `piece`, which are after a fault.
    fn skip(&mut self, piece: &[u8])
        requires limit { self.old.kept.len + length piece.now ≤ DECODE_LIMIT }
        requires fault { IsSome self.old.kept.fault }
        ensures base { base_of_pieces self.new ≡ base_of_pieces self.old }
        ensures reads { ReadsOn (base_of_pieces self.old) self.old.kept self.new.kept piece.now
            [] }
    {
        self.kept.len += piece.len();
    }
}
