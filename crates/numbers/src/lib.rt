// Numbers as packets, traces and records hold them: big-endian, signed, and as differences of counters.
#![tactic(auto)]

pub mod big_endian;
pub mod sign;
pub mod since;
