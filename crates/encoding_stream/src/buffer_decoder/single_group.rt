//! The validation of one group of a text in pieces, and the end of the text.

ghost use Rattle.std.specs.Prelude.{◌≡◌, ◌<◌, ◌≤◌, length, slice_index, take, IfOk, IfErr};
ghost use Rattle.std.specs.List.{Contains};
ghost use Rattle.data_encoding.specs.Base.{group_bytes, group_symbols};
ghost use Rattle.data_encoding.specs.Grammar.{is_final};
ghost use Rattle.encoding_stream.specs.Groups.{EndsFaulty, EndsSound, JudgesFaulty, JudgesSound};
ghost use Rattle.encoding_stream.specs.BufferDecoder.{at_positions, base_of_pieces, kept_by};
ghost use Rattle.encoding_stream.specs.Reading.{HasLastBytes, HasVerdict};

use crate::buffer_decoder::BufferDecoder;
use data_encoding::{DecodeError, DecodeKind};

impl BufferDecoder<'_> {
    /// Returns `true` if the group that was just completed is final.
    pub(crate) fn is_final(&self) -> bool
        ensures { result ≡ is_final (base_of_pieces self.now) (at_positions (group_symbols
            (base_of_pieces self.now).width) self.now.kept.positions self.now.kept.bytes) }
    {
        let encoding = self.encoding.by_ref();
        if encoding.concatenates() {
            return false;
        }
        self.kept.bytes[..encoding.group_len()]
            .iter()
            .any(|byte| encoding.interpret_byte(*byte).is_padding())
    }

    /// Decodes the first `count` held bytes as the next group, and returns the number of its bytes,
    /// or its fault.
    pub(crate) fn decode_group(&self, count: usize, output: &mut [u8]) -> Result<usize, DecodeError>
        requires some { 0 < count }
        requires few { count ≤ group_symbols (base_of_pieces self.now).width }
        requires room { group_bytes (base_of_pieces self.now).width ≤ length output.old }
        ensures sound { IfOk result (λ written. JudgesSound (base_of_pieces self.now) self.now.kept
            count (take written output.new)) }
        ensures fault { IfErr result (λ error. JudgesFaulty (base_of_pieces self.now)
            self.now.kept count error) }
        ensures position { IfErr result (λ error.
            Contains (take count self.now.kept.positions) error.position) }
        ensures few { IfOk result (λ written.
            written ≤ group_bytes (base_of_pieces self.now).width) }
        ensures len { length output.new ≡ length output.old }
    {
        if self.kept.ended {
            return Err(self.at_text_position(DecodeError {
                position: 0,
                kind: DecodeKind::Padding,
            }));
        }
        let encoding = self.encoding.by_ref();
        let fault = match encoding.decode_len(count) {
            Ok(len) => match encoding.decode_mut(&self.kept.bytes[..count], &mut output[..len]) {
                Ok(written) => return Ok(written),
                Err(partial) => partial.error,
            },
            Err(error) => error,
        };
        Err(self.at_text_position(fault))
    }

    /// Returns a fault of the held bytes with its position in the text.
    fn at_text_position(&self, error: DecodeError) -> DecodeError
        requires { error.position < 8 }
        ensures position { result.position
            ≡ slice_index self.now.kept.positions error.position }
        ensures kind { result.kind ≡ error.kind }
    {
        DecodeError {
            position: self.kept.positions[error.position],
            kind: error.kind,
        }
    }

    /// Ends the text: writes the bytes of its last group to the start of `output`, and returns
    /// their number and the fault of the whole text, if it has one.
    ///
    /// `output` must have at least 5 bytes. The number is at most 5. It is 0 if the last group or a
    /// group before it has a fault. The fault is the one that `Encoding::decode` returns. The bytes
    /// of `output` after the written ones are unspecified.
    pub fn finish(&self, output: &mut [u8]) -> (usize, Result<(), DecodeError>)
        requires room { 5 ≤ length output.old }
        ensures verdict { HasVerdict (base_of_pieces self.now) (kept_by self.now) result.1 }
        ensures position { IfErr result.1 (λ error. error.position < (kept_by self.now).len) }
        ensures bytes { HasLastBytes (base_of_pieces self.now) (kept_by self.now)
            (take result.0 output.new) }
        ensures few { result.0 ≤ 5 }
        ensures len { length output.new ≡ length output.old }
    {
        let decoded = self.decode_last_group(output);
        let written = decoded.unwrap_or(0);
        if let Err(error) = self.encoding.by_ref().decode_len(self.kept.len) {
            return (written, Err(error));
        }
        match decoded {
            Ok(_) => (written, Ok(())),
            Err(error) => (written, Err(error)),
        }
    }

    /// Decodes the held bytes, if there are any, as the last group, and returns the number of its
    /// bytes.
    ///
    /// Returns the first fault of the groups if there is one.
    fn decode_last_group(&self, output: &mut [u8]) -> Result<usize, DecodeError>
        requires room { 5 ≤ length output.old }
        ensures sound { IfOk result (λ written. EndsSound (base_of_pieces self.now) self.now.kept
            (take written output.new)) }
        ensures fault { IfErr result (λ error. EndsFaulty (base_of_pieces self.now)
            self.now.kept error) }
        ensures position { IfErr result (λ error. error.position < self.now.kept.len) }
        ensures few { IfOk result (λ written. written ≤ 5) }
        ensures len { length output.new ≡ length output.old }
    {
        if let Some(error) = self.kept.fault {
            return Err(error);
        }
        if self.kept.count == 0 {
            return Ok(0);
        }
        self.decode_group(self.kept.count, output)
    }
}
