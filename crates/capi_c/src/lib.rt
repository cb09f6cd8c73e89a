// The functions of include/flasknib.h as C calls them. A slice is a pointer and then its length. Each is the function of its name in `capi`, and promises
// what that one promises.
#![tactic(auto)]

pub mod about;
pub mod attributes;
pub mod blocks;
pub mod circuit;
pub mod compound;
pub mod conversions;
pub mod differences;
pub mod ecn;
pub mod feeds;
pub mod losses;
pub mod offers;
pub mod one_source;
pub mod packet_calls;
pub mod rows;
pub mod runs;
pub mod streams_runs;
pub mod tables;
