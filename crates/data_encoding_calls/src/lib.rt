//! The calls of `data_encoding` for programs in other languages, for any encoding. The crate
//! `data_encoding_c` exports them for a number of a predefined encoding, and for an encoding of the
//! caller.
//!
//! No call has a condition on lengths: each call checks every length, and returns a status.
#![tactic(auto)]

mod convert;
mod decoder_state;
mod encoder_state;
mod make;
mod names;
mod short_output;
mod specification_of_encoding;
mod status;
mod stored;

pub use convert::{Decoded, decode, decode_len, encode, encode_len, is_canonical};
pub use decoder_state::{PlainKept, decoder_finish, decoder_most, decoder_read, plain_decoder_new};
pub use encoder_state::{encoder_finish, encoder_most, encoder_read, plain_encoder_new};
pub use make::{Form, Made, custom_new};
pub use names::{named_number, numbered_name};
pub use specification_of_encoding::{TextLengths, specification};
pub use status::{OK, UNKNOWN_ENCODING};
pub use stored::{custom_layout, custom_read};
