//! Sweeps over short texts, drawn tables, and texts with replaced bytes.

mod damage;
mod drawn_specifications;
mod drawn_tables;
mod each_column;
mod each_length;
mod ignored;
mod lanes_decoded;
mod lanes_encoded;
mod lines_decoded;
mod long_texts;
mod mixed;
mod resuming;
mod round_trips;
mod short_texts;
mod stream_ends;
mod sweep_tables;
mod sweeps;
