//! Data in pieces: the effect of each call on the state that the caller keeps between calls.

ghost use Rattle.std.specs.Prelude.{[]};
ghost use Rattle.data_encoding.specs.Base.{Base};
ghost use Rattle.data_encoding.specs.Fields.{IsSpecified};
ghost use Rattle.encoding_stream.specs.BufferEncoder.{HasWritten};
ghost use Rattle.data_encoding_calls.specs.EncoderState.{EncodesPiece, FinishesData, TellsDue};

use crate::status::{NO_ENCODER, OK, SHORT_BUFFER, TOO_LONG};
use data_encoding::laws::join_encode;
use data_encoding::{ENCODE_LIMIT, EncodingRef};
use encoding_stream::{BufferEncoder, KeptData};

/// Sets `encoder` to the state after no data, for every encoding.
pub fn plain_encoder_new(encoder: &mut KeptData)
    ensures { (base : Base) → IsSpecified base → HasWritten base encoder.new [] [] }
{
    join_encode();
    *encoder = KeptData {
        count: 0,
        bytes: [0; 189],
    };
}

/// Writes the length of the text that `len` more bytes of data complete to `most`.
pub fn encoder_most(
    encoding: &EncodingRef<'_>,
    kept: &KeptData,
    len: usize,
    most: &mut usize,
) -> u32
    ensures { TellsDue encoding.now kept.now len most.old most.new result }
{
    let Some(encoder) = BufferEncoder::resumed_by_ref(encoding, *kept) else {
        return NO_ENCODER;
    };
    if len > ENCODE_LIMIT {
        return TOO_LONG;
    }
    *most = encoder.due(len);
    OK
}

/// Encodes a piece: writes the text of the blocks that it completes to the start of `output`.
pub fn encoder_read(
    encoding: &EncodingRef<'_>,
    kept: &mut KeptData,
    piece: &[u8],
    output: &mut [u8],
    written: &mut usize,
) -> u32
    ensures { EncodesPiece encoding.now piece.now
        (record { encoder = kept.old; output = output.old; written = written.old })
        (record { encoder = kept.new; output = output.new; written = written.new }) result }
{
    let Some(mut encoder) = BufferEncoder::resumed_by_ref(encoding, *kept) else {
        return NO_ENCODER;
    };
    if piece.len() > ENCODE_LIMIT {
        return TOO_LONG;
    }
    if output.len() < encoder.due(piece.len()) {
        return SHORT_BUFFER;
    }
    *written = encoder.read(piece, output);
    *kept = encoder.kept();
    OK
}

/// Ends the data: writes the text of the held bytes to the start of `output`.
pub fn encoder_finish(
    encoding: &EncodingRef<'_>,
    kept: &KeptData,
    output: &mut [u8],
    written: &mut usize,
) -> u32
    ensures { FinishesData encoding.now kept.now output.old output.new written.old written.new
        result }
{
    let Some(encoder) = BufferEncoder::resumed_by_ref(encoding, *kept) else {
        return NO_ENCODER;
    };
    let needed = encoding.encode_len(kept.count);
    if output.len() < needed {
        return SHORT_BUFFER;
    }
    *written = encoder.finish(output);
    OK
}
