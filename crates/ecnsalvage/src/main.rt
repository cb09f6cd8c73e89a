// ecnsalvage reads a trace on standard input, prints its label and its sound blocks, and lists the blocks that it leaves out on standard error (request L11).
// What is copied and listed is what the crate `salvage` gives, and what comes next the crate `shell` says; this program reads, calls, prints what it was given,
// and goes on or ends. The programs that copy a trace have this text in common, but for names.
#![tactic(auto)]

use format::block::BLOCK;
use salvage::Progress;
use shell::copying::copied;
use shell::failures::has_arguments;
use shell::reading::{Ahead, INPUT, Input, fill, may_wait};
use shell::streams::Streams;
use shell::transfers::{PRINTED, Transfer};
use shell::turns::{Turn, next_turn};
use std::env::Env;
use std::fs::Files;

// The most that a block lists (salvage, `line_has_room`), and the end (`end_has_room`).
const MOST: usize = 64;

// At most so many blocks are read at a time: what is copied of them is one write, or a few, and the larger a write, the less time the system takes for it.
const BLOCKS: usize = 1024;

// What is copied of a piece is printed where it stands.
const PIECE: usize = BLOCKS * BLOCK;

// So much is kept for standard error: less than a piece that is printed, the most that the blocks of one read list, and the end.
const ERRORS: usize = PRINTED + BLOCKS * MOST + MOST;

// How far the program has come: the run, and what is read and kept.
#[derive(Clone, Copy)]
struct State {
    progress: Progress,
    transfer: Transfer,
}

// Takes block 0, which stands in a buffer of its own, and prints what is copied of it.
fn begin(zeroth: Input, prompt: bool, streams: &mut Streams, name: &[u8], read: &[u8]) -> State {
    let begun = Progress::begin(zeroth.front(read));
    let progress = begun.progress;
    let ended = progress.ended;
    let label = Input {
        bytes: begun.copied,
        ahead: Ahead::End,
    };
    let mut transfer = Transfer::begun(zeroth, ended, prompt);
    let out = transfer.out;
    transfer.out = out.printed_now(streams, name, label.front(read));
    State { progress, transfer }
}

// Takes the blocks that are read, to one that is left out, and prints those that are copied.
fn take(
    s: State,
    streams: &mut Streams,
    name: &[u8],
    kept: &mut [u8],
    piece: &[u8],
    errors: &mut [u8],
) -> State {
    let before = s.progress;
    let transfer = s.transfer;
    let err = transfer.err;
    let used = err.end(errors.len());
    let taken = before.blocks(transfer.left(piece), &mut errors[used..]);
    let progress = taken.progress;
    let answer = taken.answer;
    let ended = progress.ended;
    let next = copied(transfer, taken.copied, streams, name, piece, kept)
        .with_taken(ended, taken.bytes, piece)
        .with_reported(answer, errors);
    State {
        progress,
        transfer: next,
    }
}

// Ends the run.
fn close(s: State, piece: &[u8], errors: &mut [u8]) -> Transfer {
    let progress = s.progress;
    let transfer = s.transfer;
    let err = transfer.err;
    let used = err.end(errors.len());
    let refused = progress.end(transfer.rest(piece), &mut errors[used..]);
    transfer.with_reported(refused, errors)
}

// Ends the run, and prints what is kept.
fn finish(
    s: State,
    streams: &mut Streams,
    name: &[u8],
    kept: &mut [u8],
    piece: &[u8],
    errors: &mut [u8],
) {
    close(s, piece, errors).finished(streams, name, kept, errors);
}

// Takes, prints or reads.
fn step(
    s: State,
    turn: Turn,
    streams: &mut Streams,
    name: &[u8],
    kept: &mut [u8],
    piece: &mut [u8],
    errors: &mut [u8],
) -> State {
    let progress = s.progress;
    let transfer = s.transfer;
    match turn {
        Turn::Take => take(s, streams, name, kept, piece, errors),
        Turn::Print => State {
            progress,
            transfer: transfer.with_printed(streams, name, kept, errors),
        },
        Turn::Read => State {
            progress,
            transfer: transfer.with_read(streams, piece),
        },
        _ => s,
    }
}

// Goes on from block 0 as it is told.
fn run(
    start: State,
    streams: &mut Streams,
    name: &[u8],
    kept: &mut [u8],
    piece: &mut [u8],
    errors: &mut [u8],
) {
    let mut s = start;
    let mut turns: u64 = 0xffff_ffff_ffff_ffff;
    while 0 < turns {
        let transfer = s.transfer;
        let turn = next_turn(transfer, piece);
        match turn {
            Turn::Finish => {
                finish(s, streams, name, kept, piece, errors);
                return;
            }
            Turn::Stop => {
                return;
            }
            _ => {
                s = step(s, turn, streams, name, kept, piece, errors);
            }
        }
        turns -= 1;
    }
}

// Copies the trace.
fn copy(
    prompt: bool,
    streams: &mut Streams,
    name: &[u8],
    read: &mut [u8],
    kept: &mut [u8],
    piece: &mut [u8],
    errors: &mut [u8],
) {
    let zeroth = fill(streams, read);
    let start = begin(zeroth, prompt, streams, name, read);
    run(start, streams, name, kept, piece, errors);
}

fn main(rt: HostRuntime) {
    let mut streams = Streams::new(rt.stdin(), rt.stdout(), rt.stderr());
    let mut word = [0u8; 1];
    if has_arguments(
        rt.arg(1, &mut word),
        &streams,
        b"usage: ecnsalvage <TRACE >TRACE\n",
    ) {
        return;
    }
    let prompt = may_wait(rt.metadata(INPUT));
    let mut read = [0u8; BLOCK];
    let mut kept = [0u8; BLOCK];
    let mut piece = [0u8; PIECE];
    let mut errors = [0u8; ERRORS];
    copy(
        prompt,
        &mut streams,
        b"ecnsalvage",
        &mut read,
        &mut kept,
        &mut piece,
        &mut errors,
    );
}
