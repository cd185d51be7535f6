//! Rows from other sources, and each public call with ample memory.

mod buffers;
mod caller_rows;
mod callers;
mod decoding;
mod encoding;
mod encodings;
mod kept_after;
mod keys;
mod laws;
mod layouts;
mod oracle_rows;
mod order;
mod original_table;
mod piece_tables;
mod predefined;
mod property_tables;
mod referenced;
mod runs;
mod specifications;
mod stored;
mod tables;
mod writing;
