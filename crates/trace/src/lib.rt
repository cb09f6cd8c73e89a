// One block of a trace of either form (document 01, "Trace file"; 02, request L10): 512 bytes, read or written by one call.
#![tactic(auto)]

use answers::Refusal;
use format::{Form, Wire};

mod checksum;
mod contents;
mod fields;
pub mod label;
mod parts;
pub mod places;
pub mod read;
pub mod rewrite;
pub mod write;

// What a block is: a label of `length` bytes, or `count` arrivals, with the form of its trace and the SSRC. The label or the records stay in the caller's
// slice, from format::block::BODY on.
#[derive(Clone, Copy)]
pub enum Block {
    Label {
        form: Form,
        length: usize,
        ssrc: u32,
    },
    Arrivals {
        form: Form,
        count: usize,
        ssrc: u32,
    },
}

// What block 0 of a trace is: a label of `length` bytes, with the trace's form and SSRC.
#[derive(Clone, Copy)]
pub struct Zeroth {
    pub form: Form,
    pub length: usize,
    pub ssrc: u32,
}

// One arrival of a block: its time in ms, its wire number and its mark.
#[derive(Clone, Copy)]
pub struct Record {
    pub time: u64,
    pub number: Wire,
    pub mark: u8,
}
