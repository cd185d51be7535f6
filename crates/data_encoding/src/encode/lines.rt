//! Encoding in lines.

ghost use Rattle.std.specs.Prelude.{◌≡◌, ◌+◌, ◌*◌, ◌<◌, ◌≤◌, ◌++◌, length, flat_map, IsSome};
ghost use Rattle.data_encoding_meaning.specs.text.Bits.{runs};
ghost use Rattle.data_encoding_meaning.specs.text.Lengths.{alignment};
ghost use Rattle.data_encoding_meaning.specs.text.Text.{padded_text, text_of};

use crate::encode::ENCODE_LIMIT;
use crate::encoding::EncodingRef;
use data_encoding_kernel::copy::copy_short;

// The greatest length of a block of lines, without their separators. A block has at least four
// lines.
const BLOCK_LEN: usize = 1024;

impl EncodingRef<'_> {
    /// Writes the text of an encoding with lines. A single line is encoded in place, and several
    /// are encoded in blocks.
    // Not inlined, so that texts without lines do not pay for it.
    #[inline(never)]
    pub(super) fn encode_lines(&self, input: &[u8], output: &mut [u8])
        requires limit { length input.now ≤ ENCODE_LIMIT }
        requires exact { length output.old ≡ length (text_of self.now input.now) }
        requires lines { IsSome self.now.wrapping }
        ensures { output.new ≡ text_of self.now input.now }
    {
        if !input.is_empty() && input.len() <= self.encode_align() {
            self.encode_line(input, output);
        } else {
            self.encode_blocks(input, output);
        }
    }

    /// Encodes blocks of whole lines. The last may be shorter.
    ///
    /// The text of a block is written without separators, so that most of its groups are encoded
    /// with SIMD, and is then copied line by line.
    #[inline(always)]
    fn encode_blocks(&self, input: &[u8], output: &mut [u8])
        requires limit { length input.now ≤ ENCODE_LIMIT }
        requires exact { length output.old ≡ length (text_of self.now input.now) }
        requires lines { IsSome self.now.wrapping }
        ensures { output.new ≡ text_of self.now input.now }
    {
        let mut symbols = [0; BLOCK_LEN];
        let lines = BLOCK_LEN / self.fields.column as usize;
        let block_bytes = lines * self.encode_align();
        let block_len = lines * (self.fields.column as usize + self.separator.len());
        for index in 0..input.len().div_ceil(block_bytes) {
            let read = index * block_bytes;
            let read_end = input.len().min(read + block_bytes);
            let written = index * block_len;
            let written_end = output.len().min(written + block_len);
            self.encode_block(
                &input[read..read_end],
                &mut symbols,
                &mut output[written..written_end],
            );
        }
    }

    /// Writes the text of a block in lines. `symbols` has room for its characters without
    /// separators.
    #[inline(always)]
    fn encode_block(&self, input: &[u8], symbols: &mut [u8; BLOCK_LEN], output: &mut [u8])
        requires limit { length input.now ≤ ENCODE_LIMIT }
        requires exact { length output.old ≡ length (text_of self.now input.now) }
        requires lines { IsSome self.now.wrapping }
        requires room { length (padded_text self.now input.now) ≤ BLOCK_LEN }
        ensures { output.new ≡ text_of self.now input.now }
    {
        let count = self.padded_len(input.len());
        self.encode_padded(input, &mut symbols[..count]);
        wrap(
            self.fields.column as usize,
            self.separator,
            &symbols[..count],
            output,
        );
    }

    /// Writes the text of at most one line, and the separator.
    #[inline(always)]
    fn encode_line(&self, input: &[u8], output: &mut [u8])
        requires limit { length input.now ≤ ENCODE_LIMIT }
        requires exact { length output.old ≡ length (text_of self.now input.now) }
        requires some { 0 < length input.now }
        requires line { length input.now ≤ alignment self.now }
        ensures { output.new ≡ text_of self.now input.now }
    {
        let end = output.len() - self.separator.len();
        self.encode_padded(input, &mut output[..end]);
        write_separator(self.separator, &mut output[end..]);
    }
}

/// Writes the text in lines of `column` characters, each followed by the separator. The last line
/// may be shorter.
// Not inlined, so that its loop has the registers.
#[inline(never)]
fn wrap(column: usize, separator: &[u8], text: &[u8], output: &mut [u8])
    requires some { 0 < column }
    requires few { column < 256 }
    requires limit { length text.now ≤ BLOCK_LEN }
    requires short { length separator.now < 256 }
    requires exact { length output.old
        ≡ length (flat_map (λ line. line ++ separator.now) (runs column text.now)) }
    ensures { output.new ≡ flat_map (λ line. line ++ separator.now) (runs column text.now) }
{
    let line_len = column + separator.len();
    let count = text.len() / column;
    for index in 0..count {
        let read = index * column;
        let written = index * line_len;
        write_line(
            &text[read..read + column],
            separator,
            &mut output[written..written + line_len],
        );
    }
    let read = count * column;
    if read < text.len() {
        write_line(&text[read..], separator, &mut output[count * line_len..]);
    }
}

/// Writes a line, followed by the separator.
#[inline(always)]
fn write_line(line: &[u8], separator: &[u8], output: &mut [u8])
    requires exact { length output.old ≡ length (line.now ++ separator.now) }
    ensures { output.new ≡ line.now ++ separator.now }
{
    copy_short(line, &mut output[..line.len()]);
    write_separator(separator, &mut output[line.len()..]);
}

/// Writes the separator.
// A store for LF, and two for CR LF, take less time than a call that copies any number of bytes.
#[inline(always)]
fn write_separator(separator: &[u8], output: &mut [u8])
    requires { length output.old ≡ length separator.now }
    ensures { output.new ≡ separator.now }
{
    if let [only] = separator {
        output[0] = *only;
    } else if separator.len() == 2 {
        output[0] = separator[0];
        output[1] = separator[1];
    } else {
        output.copy_from_slice(separator);
    }
}
