//! The results of each decoding call for a text, whole and in pieces, compared with the oracle.

ghost use Rattle.std.specs.Prelude.{◌≡◌, ◌<◌, ◌≤◌, length};

use crate::oracle::{Expected, Oracle};
use crate::pieces::{finish_text, push_within_limit};
use crate::streams::stream_decodes;
use data_encoding::{DECODE_LIMIT, DecodeError, DecodeFault, Encoding};
use encoding_stream::Decoder;
use std::alloc::{AllocError, Global};

/// The error if a result differs from the oracle, or memory runs out.
#[derive(Drop)]
pub struct Differs {}

impl From<AllocError> for Differs {
    fn from(_: AllocError) -> Differs {
        Differs {}
    }
}

impl From<DecodeFault> for Differs {
    fn from(_: DecodeFault) -> Differs {
        Differs {}
    }
}

/// The room for the data of a text, in bytes.
const ROOM: usize = 576;

/// The numbers of comparisons.
#[derive(Clone, Copy)]
pub struct Tally {
    /// The texts that came in pieces.
    pub texts: usize,

    /// The decodings of these texts, each cut at another position or from a reader.
    pub decodings: usize,

    /// The decodings that were resumed after a prefix.
    pub resumed: usize,
}

impl Tally {
    /// Returns a tally of zeros.
    pub fn zero() -> Tally {
        Tally {
            texts: 0,
            decodings: 0,
            resumed: 0,
        }
    }
}

/// An encoding, its oracle, and the numbers of comparisons.
#[derive(Drop)]
pub struct Comparison<'a> {
    pub alloc: Global,
    pub encoding: &'a Encoding,
    pub oracle: Oracle<'a>,
    pub tally: Tally,

    /// The output of a decoder. The vector is reused.
    output: Vec<u8>,
}

impl<'a> Comparison<'a> {
    /// Returns a comparison that continues `tally`.
    pub fn new(
        alloc: Global,
        encoding: &'a Encoding,
        oracle: Oracle<'a>,
        tally: Tally,
    ) -> Comparison<'a> {
        Comparison {
            alloc,
            encoding,
            oracle,
            tally,
            output: Vec::new(alloc),
        }
    }

    /// Compares the results for a text: at once, resumed and in pieces.
    pub fn compare(&mut self, text: &[u8]) -> Result<(), Differs> {
        if text.len() > DECODE_LIMIT {
            return Err(Differs {});
        }
        let want = self.oracle.decode(self.alloc, text)?;
        if !decode_matches(self.alloc, self.encoding, &want, text)
            || !decode_mut_matches(self.encoding, &want, text)
            || !self.matches_resumed(&want, text)
        {
            return Err(Differs {});
        }
        let want = self.oracle.in_pieces(self.alloc, text, want)?;
        self.compare_pieces(&want, text)
    }

    /// Compares the results of `decode` and `decode_mut` for a text.
    pub fn compare_at_once(&self, text: &[u8]) -> Result<(), Differs> {
        if text.len() > DECODE_LIMIT {
            return Err(Differs {});
        }
        let want = self.oracle.decode(self.alloc, text)?;
        let mut output = vec![in self.alloc; 0; text.len()]?;
        if decode_matches(self.alloc, self.encoding, &want, text)
            && decode_mut_matches_within(self.encoding, &want, text, &mut output)
        {
            return Ok(());
        }
        Err(Differs {})
    }

    /// Returns `true` if decoding resumes after each prefix that another text may follow, with the
    /// result of the whole text.
    ///
    /// A prefix must have a valid length.
    fn matches_resumed(&mut self, want: &Expected, text: &[u8]) -> bool
        requires limit { length text.now ≤ DECODE_LIMIT }
    {
        for position in 0..=text.len() {
            let mut output = [0; 16];
            let Some((read, written)) = decode_prefix(self.encoding, &text[..position], &mut output)
            else {
                continue;
            };
            if !self.oracle.may_be_followed(text.get(..read).unwrap_or(&[])) {
                continue;
            }
            self.tally.resumed = self.tally.resumed.wrapping_add(1);
            if !completes_prefix(self.encoding, want, text, read, written, &mut output) {
                return false;
            }
        }
        true
    }

    /// Compares the results for a text in two pieces, cut anywhere, and byte by byte, in pieces and
    /// from a reader.
    pub fn compare_pieces(&mut self, want: &Expected, text: &[u8]) -> Result<(), Differs> {
        for position in 0..=text.len() {
            self.compare_cut(want, text, position, usize::MAX)?;
        }
        self.tally.texts = self.tally.texts.wrapping_add(1);
        self.compare_cut(want, text, 0, 1)?;
        self.compare_stream(want, text, 1)
    }

    /// Compares the output and the fault of a decoder. The first piece ends at `position`, and the
    /// others have `size` bytes.
    pub fn compare_cut(
        &mut self,
        want: &Expected,
        text: &[u8],
        position: usize,
        size: usize,
    ) -> Result<(), Differs>
        requires inside { position ≤ length text.now }
        requires some { 0 < size }
    {
        self.tally.decodings = self.tally.decodings.wrapping_add(1);
        self.output.clear();
        let (front, rest) = text.split_at(position);
        let mut decoder = Decoder::new(self.encoding);
        push_within_limit(&mut decoder, front, &mut self.output)?;
        for piece in rest.chunks(size) {
            push_within_limit(&mut decoder, piece, &mut self.output)?;
        }
        let is_counted = decoder.len() == text.len();
        let fault = finish_text(decoder, &mut self.output)?;
        if is_counted && fault == want.fault && self.output == want.bytes {
            return Ok(());
        }
        Err(Differs {})
    }

    /// Like `compare_cut`, for an output that is cleared after each call.
    pub fn compare_drained(
        &mut self,
        want: &Expected,
        text: &[u8],
        position: usize,
        size: usize,
    ) -> Result<(), Differs>
        requires inside { position ≤ length text.now }
        requires some { 0 < size }
    {
        self.output.clear();
        let (front, rest) = text.split_at(position);
        let mut drained = Vec::new(self.alloc);
        let mut decoder = Decoder::new(self.encoding);
        push_within_limit(&mut decoder, front, &mut self.output)?;
        for piece in rest.chunks(size) {
            drain(&mut self.output, &mut drained)?;
            push_within_limit(&mut decoder, piece, &mut self.output)?;
        }
        drain(&mut self.output, &mut drained)?;
        let fault = finish_text(decoder, &mut self.output)?;
        drain(&mut self.output, &mut drained)?;
        if fault == want.fault && drained == want.bytes {
            return Ok(());
        }
        Err(Differs {})
    }

    /// Compares the output and the fault of a stream that reads `most` bytes at a time.
    pub fn compare_stream(
        &mut self,
        want: &Expected,
        text: &[u8],
        most: usize,
    ) -> Result<(), Differs> {
        self.tally.decodings = self.tally.decodings.wrapping_add(1);
        if stream_decodes(self.alloc, self.encoding, want, text, most) {
            return Ok(());
        }
        Err(Differs {})
    }
}

/// Moves the output to the end of `drained`.
fn drain(output: &mut Vec<u8>, drained: &mut Vec<u8>) -> Result<(), AllocError> {
    drained.extend_from_slice(output)?;
    output.clear();
    Ok(())
}

/// Returns `true` if `decode` returns the result of the oracle.
pub fn decode_matches(alloc: Global, encoding: &Encoding, want: &Expected, text: &[u8]) -> bool
    requires limit { length text.now ≤ DECODE_LIMIT }
{
    match (encoding.decode(alloc, text), want.fault) {
        (Ok(bytes), None) => bytes == want.bytes,
        (Err(DecodeFault::Error(error)), Some(fault)) => error == fault,
        _ => false,
    }
}

/// Returns `true` if `decode_mut` reads and writes as far as the oracle, and writes the same bytes.
pub fn decode_mut_matches(encoding: &Encoding, want: &Expected, text: &[u8]) -> bool
    requires limit { length text.now ≤ DECODE_LIMIT }
{
    decode_mut_matches_within(encoding, want, text, &mut [0; ROOM])
}

/// Like `decode_mut_matches`, for an output that may have more room.
pub fn decode_mut_matches_within(
    encoding: &Encoding,
    want: &Expected,
    text: &[u8],
    output: &mut [u8],
) -> bool
    requires limit { length text.now ≤ DECODE_LIMIT }
{
    let len = match encoding.decode_len(text.len()) {
        Ok(len) => len,
        Err(error) => return want.fault == Some(error),
    };
    if len > output.len() {
        return false;
    }
    let (written, is_same) = match encoding.decode_mut(text, &mut output[..len]) {
        Ok(count) => (count, want.fault.is_none()),
        Err(partial) => (
            partial.written,
            want.fault == Some(partial.error) && partial.read == want.read,
        ),
    };
    is_same && written == want.bytes.len() && output.starts_with(&want.bytes)
}

/// Returns the length of `front` that is read, and the number of bytes that are written.
///
/// Returns `None` if `front` has an invalid length or means too many bytes for `output`.
pub fn decode_prefix(encoding: &Encoding, front: &[u8], output: &mut [u8]) -> Option<(usize, usize)>
    requires limit { length front.now ≤ DECODE_LIMIT }
    ensures len { length output.new ≡ length output.old }
{
    let Ok(most) = encoding.decode_len(front.len()) else {
        return None;
    };
    if most > output.len() {
        return None;
    }
    match encoding.decode_mut(front, &mut output[..most]) {
        Ok(count) => Some((front.len(), count)),
        Err(partial) => Some((partial.read, partial.written)),
    }
}

/// Returns `true` if decoding the rest of `text` completes the result of the whole text, after
/// `read` characters and `written` bytes.
fn completes_prefix(
    encoding: &Encoding,
    want: &Expected,
    text: &[u8],
    read: usize,
    written: usize,
    output: &mut [u8],
) -> bool
    requires limit { length text.now ≤ DECODE_LIMIT }
{
    if read > text.len() || written > output.len() {
        return false;
    }
    let rest = &text[read..];
    let len = match encoding.decode_len(rest.len()) {
        Ok(len) => len,
        Err(error) => return is_moved_fault(want.fault, read, error),
    };
    if len > output.len() - written {
        return false;
    }
    match encoding.decode_mut(rest, &mut output[written..written + len]) {
        Ok(count) => {
            want.fault.is_none() && output.get(..written + count) == Some(want.bytes.as_slice())
        }
        Err(partial) => is_moved_fault(want.fault, read, partial.error),
    }
}

/// Returns `true` if `fault` is `error`, with `read` added to its position.
fn is_moved_fault(fault: Option<DecodeError>, read: usize, error: DecodeError) -> bool {
    match fault {
        Some(fault) => {
            fault.kind == error.kind && fault.position.checked_sub(read) == Some(error.position)
        }
        None => false,
    }
}
