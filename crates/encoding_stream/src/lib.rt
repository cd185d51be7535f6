//! Base encodings over readers and writers, and for data and texts that come in pieces.
//!
//! Streams do not allocate, however long they are. The reader and the writer are watched, so that
//! contracts and callers know whether a call of them failed.
#![tactic(auto)]

mod append_piece;
mod buffer_decoder;
mod buffer_encoder;
mod decoder;
mod error;
mod failure_watch;
mod fill;
mod state_checks;
mod stream_decoding;
mod stream_encoding;

pub use buffer_decoder::{BufferDecoder, Kept};
pub use buffer_encoder::BufferEncoder;
pub use data_encoding::KeptData;
pub use decoder::{Decoder, Finished};
pub use error::StreamFault;
pub use failure_watch::Watch;
pub use stream_decoding::decode_stream;
pub use stream_encoding::encode_stream;
