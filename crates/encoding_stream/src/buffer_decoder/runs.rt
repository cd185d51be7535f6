//! Whole groups of a text in pieces, decoded in place.

ghost use Rattle.std.specs.Prelude.{◌≡◌, ◌⊎◌, ℕ, ◌+◌, ◌-◌, ◌≤◌, ◌<◌, ◌%◌, true, false, List, length, take, IfOk, IfErr, None, Ok, Some};
ghost use Rattle.data_encoding.specs.declared.decode.TheConstants.{DECODE_LIMIT};
ghost use Rattle.data_encoding.specs.Base.{group_bytes, group_symbols, ignores_some, is_padded};
ghost use Rattle.data_encoding.specs.Grammar.{Means};
ghost use Rattle.data_encoding.specs.Lengths.{decoded_len, most_bytes};
ghost use Rattle.data_encoding.specs.Pieces.{IsOfWholeGroup};
ghost use Rattle.encoding_stream.specs.BufferDecoder.{base_of_pieces, bytes_due, most_completed, FillsGroups};
ghost use Rattle.encoding_stream.specs.Reading.{has_final, whole_len, AreWholeGroups, HasOnlyWholeGroups, ReadsAllGroups, ReadsOn, ReadsRun};

use crate::buffer_decoder::BufferDecoder;
use data_encoding::{DECODE_LIMIT, DecodeError, DecodeKind, DecodePartial};

impl BufferDecoder<'_> {
    /// Returns the length of the whole groups in `len` bytes, and the number of bytes of their
    /// data.
    pub(crate) fn completed_groups(&self, len: usize) -> (usize, usize)
        requires limit { len ≤ DECODE_LIMIT }
        ensures len { result.0 ≡ whole_len (base_of_pieces self.now) len }
        ensures few { result.0 ≤ len }
        ensures whole { result.0 % group_symbols (base_of_pieces self.now).width ≡ 0 }
        ensures due { decoded_len (base_of_pieces self.now) result.0 ≡ Ok result.1 }
        ensures bytes { result.1 ≡ bytes_due (base_of_pieces self.now) len }
    {
        let encoding = self.encoding.by_ref();
        let size = encoding.group_len();
        let groups = len / size;
        (groups * size, groups * encoding.group_bytes())
    }

    /// Reads whole groups in place: those before a fault, or all if a whole group has the fault.
    pub(crate) fn read_run(&mut self, piece: &[u8], output: &mut [u8]) -> (usize, usize)
        requires limit { self.old.kept.len + length piece.now ≤ DECODE_LIMIT }
        requires room { most_completed (base_of_pieces self.old) self.old.kept
            (length piece.now) ≤ length output.old }
        ensures base { base_of_pieces self.new ≡ base_of_pieces self.old }
        ensures reads { ReadsOn (base_of_pieces self.old) self.old.kept self.new.kept
            (take result.0 piece.now) (take result.1 output.new) }
        ensures all { self.old.kept.count ≡ 0 → self.old.kept.fault ≡ None
            → self.old.kept.ended ≡ false
            → ReadsAllGroups (base_of_pieces self.old) piece.now result.0 }
        ensures read { result.0 ≤ length piece.now }
        ensures within { result.1 ≤ length output.new }
        ensures len { length output.new ≡ length output.old }
    {
        if self.kept.count != 0 || self.kept.fault.is_some() || self.kept.ended {
            return (0, 0);
        }
        let (len, output_len) = self.run_len(piece);
        if len == 0 {
            return (0, 0);
        }
        let (read, written) = match self.decode_run(&piece[..len], &mut output[..output_len]) {
            Ok(run) => run,
            Err(partial) => {
                self.kept.fault = Some(DecodeError {
                    position: self.kept.len + partial.error.position,
                    kind: partial.error.kind,
                });
                self.kept.len += len;
                return (len, partial.written);
            }
        };
        if !self.are_whole(written) {
            return (0, 0);
        }
        self.kept.len += read;
        self.kept.ended = self.has_final(written);
        (read, written)
    }

    /// Returns the length of the whole groups at the start of `piece`, with the ignored bytes among
    /// them, and the greatest number of bytes of their data.
    // An unfinished group of an unpadded encoding may be valid. It is found before, so that what
    // runs does not depend on its trailing bits.
    fn run_len(&self, piece: &[u8]) -> (usize, usize)
        requires limit { length piece.now ≤ DECODE_LIMIT }
        ensures few { result.0 ≤ length piece.now }
        ensures len { (ignores_some (base_of_pieces self.now) ≡ false)
            ⊎ (most_bytes (base_of_pieces self.now)
            (group_symbols (base_of_pieces self.now).width - 1) ≡ 0)
            → result.0 ≡ whole_len (base_of_pieces self.now) (length piece.now) }
        ensures whole { ignores_some (base_of_pieces self.now) ≡ false
            → result.0 % group_symbols (base_of_pieces self.now).width ≡ 0 }
        ensures due { decoded_len (base_of_pieces self.now) result.0 ≡ Ok result.1 }
        ensures bytes { result.1 ≤ bytes_due (base_of_pieces self.now) (length piece.now) }
    {
        let (len, output_len) = self.completed_groups(piece.len());
        let encoding = self.encoding.by_ref();
        if !encoding.ignores_bytes() || encoding.completes_groups() {
            return (len, output_len);
        }
        let len = encoding.whole_groups_len(&piece[..len]);
        match encoding.decode_len(len) {
            Ok(output_len) => (len, output_len),
            Err(_) => unreachable!(),
        }
    }

    /// Decodes whole groups up to the first fault, and returns the numbers of bytes read and
    /// written.
    ///
    /// Returns an error only if a whole group has the fault.
    fn decode_run(&self, text: &[u8], output: &mut [u8]) -> Result<(usize, usize), DecodePartial>
        requires limit { length text.now ≤ DECODE_LIMIT }
        requires whole { ignores_some (base_of_pieces self.now) ≡ false
            → length text.now % group_symbols (base_of_pieces self.now).width ≡ 0 }
        requires exact { decoded_len (base_of_pieces self.now) (length text.now)
            ≡ Ok (length output.old) }
        ensures means { IfOk result (λ run. Means (base_of_pieces self.now) (take run.0 text.now)
            (take run.1 output.new)) }
        ensures most { IfOk result (λ run. run.1 ≤ most_bytes (base_of_pieces self.now) run.0) }
        ensures all { IfOk result (λ run. (bytes : List ℕ)
            → Means (base_of_pieces self.now) text.now bytes → run.0 ≡ length text.now) }
        ensures full { IfOk result (λ run. (bytes : List ℕ)
            → Means (base_of_pieces self.now) text.now bytes
            → (base_of_pieces self.now).padding ≡ None
            → ignores_some (base_of_pieces self.now) ≡ false → run.1 ≡ length output.new) }
        ensures read { IfOk result (λ run. run.0 ≤ length text.now) }
        ensures written { IfOk result (λ run. run.1 ≤ length output.new) }
        ensures group { IfErr result (λ partial. IsOfWholeGroup (base_of_pieces self.now)
            (length text.now) partial.error.kind) }
        ensures fault { IfErr result (λ partial. ReadsRun (base_of_pieces self.now) text.now
            (take partial.written output.new) (Some partial.error)) }
        ensures position { IfErr result (λ partial. partial.error.position < length text.now) }
        ensures within { IfErr result (λ partial. partial.written ≤ length output.new) }
        ensures len { length output.new ≡ length output.old }
    {
        let len = text.len();
        match self.encoding.by_ref().decode_mut(text, output) {
            Ok(written) => Ok((len, written)),
            Err(partial) if self.is_of_whole_group(len, partial.error.kind) => Err(partial),
            Err(partial) => Ok((partial.read, partial.written)),
        }
    }

    /// Returns `true` if a fault of the given kind, in a piece of `len` bytes, must be in a whole
    /// group.
    ///
    /// If no byte is ignored, `len` is the length of whole groups. An unfinished group has a fault
    /// of its length.
    fn is_of_whole_group(&self, len: usize, kind: DecodeKind) -> bool
        requires whole { ignores_some (base_of_pieces self.now) ≡ false
            → len % group_symbols (base_of_pieces self.now).width ≡ 0 }
        ensures { result ≡ true → IsOfWholeGroup (base_of_pieces self.now) len kind }
    {
        let encoding = self.encoding.by_ref();
        if matches!(kind, DecodeKind::Length) || !encoding.concatenates() {
            return false;
        }
        !encoding.ignores_bytes() || encoding.completes_groups()
    }

    /// Returns `true` if a valid text that decodes to `written` bytes ends at a group boundary.
    fn are_whole(&self, written: usize) -> bool
        ensures whole { result ≡ true → (text bytes : List ℕ) → length bytes ≡ written
            → Means (base_of_pieces self.now) text bytes
            → HasOnlyWholeGroups (base_of_pieces self.now) text }
        ensures few { result ≡ true → (read : ℕ)
            → written ≤ most_bytes (base_of_pieces self.now) read
            → FillsGroups (base_of_pieces self.now) 0 read 0 written }
        ensures by_padding { is_padded (base_of_pieces self.now) ≡ true → result ≡ true }
        ensures by_bytes { written % group_bytes (base_of_pieces self.now).width ≡ 0
            → result ≡ true }
    {
        let encoding = self.encoding.by_ref();
        encoding.is_padded() || written % encoding.group_bytes() == 0
    }

    /// Returns `true` if a group of a text that means `written` bytes is final.
    ///
    /// If texts may not be concatenated, a group with fewer bytes than a whole group is final.
    fn has_final(&self, written: usize) -> bool
        ensures ends { (text bytes : List ℕ) → length bytes ≡ written
            → Means (base_of_pieces self.now) text bytes
            → has_final (base_of_pieces self.now) text ≡ result }
        ensures goes_on { result ≡ false → (text bytes : List ℕ) → length bytes ≡ written
            → Means (base_of_pieces self.now) text bytes
            → HasOnlyWholeGroups (base_of_pieces self.now) text
            → AreWholeGroups (base_of_pieces self.now) text }
    {
        let encoding = self.encoding.by_ref();
        !encoding.concatenates() && written % encoding.group_bytes() != 0
    }
}
