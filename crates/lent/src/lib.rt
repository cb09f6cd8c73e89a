// Records lent as arrays of 64-bit words, for callers in C: each taken out of its words, and put back. A word past the end reads as 0, and is
// not stored.
#![tactic(auto)]

mod access;
pub mod attribute_words;
pub mod breaker_words;
pub mod call_words;
pub mod compound_words;
pub mod conversion_words;
pub mod ecn_words;
pub mod feed_words;
pub mod form_words;
pub mod kept_words;
pub mod lost_words;
mod run_parts;
pub mod run_words;
pub mod source_words;
mod stream_lines;
pub mod stream_words;
pub mod table_words;
mod widths;
