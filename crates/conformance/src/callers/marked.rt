//! Outputs that get a mark at the end if memory runs out. They have room for it, and no call uses
//! that room.

ghost use Rattle.std.specs.Prelude.{◌≡◌, ◌+◌, ◌<◌, ◌≤◌, [], ◌∷◌, ◌++◌, false, length, vec_capacity, vec_len, None};
ghost use Rattle.data_encoding.specs.declared.decode.TheConstants.{DECODE_LIMIT};
ghost use Rattle.encoding_stream.specs.Decoder.{decoder_len};

use data_encoding::DECODE_LIMIT;
use encoding_stream::{Decoder, Finished};

/// Pushes a piece. If memory runs out, appends the mark and returns `false`.
pub fn push_or_mark(decoder: &mut Decoder, piece: &[u8], mark: u8, output: &mut Vec<u8>) -> bool
    requires limit { decoder_len decoder.old + length piece.now ≤ DECODE_LIMIT }
    requires room { vec_len output.old < vec_capacity output.old }
    ensures marked { result ≡ false → output.new.items ≡ output.old.items ++ mark ∷ [] }
    ensures kept { result ≡ false → decoder.new ≡ decoder.old }
{
    if decoder.push(piece, output).is_ok() {
        return true;
    }
    output.push(mark).unwrap();
    false
}

/// Ends the text. If memory runs out, appends the mark and returns `None`.
pub fn finish_or_mark(decoder: Decoder, mark: u8, output: &mut Vec<u8>) -> Option<Finished>
    requires room { vec_len output.old < vec_capacity output.old }
    ensures { result ≡ None → output.new.items ≡ output.old.items ++ mark ∷ [] }
{
    match decoder.finish(output) {
        Ok(finished) => Some(finished),
        Err(_) => {
            output.push(mark).unwrap();
            None
        }
    }
}
