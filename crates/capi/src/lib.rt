// The functions of include/flasknib.h, which `capi_c` exports. Each takes what it was lent apart, calls the proved call of another crate, and puts the
// answer back.
#![tactic(auto)]

pub mod about;
pub mod attributes;
pub mod blocks;
pub mod circuit;
mod codes;
pub mod compound;
pub mod conversions;
pub mod differences;
pub mod ecn;
pub mod feeds;
pub mod losses;
pub mod offers;
pub mod one_source;
pub mod packet_calls;
mod place_calls;
pub mod rows;
pub mod runs;
pub mod streams_runs;
mod table_walk;
pub mod tables;
