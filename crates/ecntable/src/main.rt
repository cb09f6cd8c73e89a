// ecntable reads a trace on standard input and prints its table (document 01, "Table"). All that is printed is what the crate `convert` gives, and what comes
// next the crate `shell` says; this program reads, calls, prints what it was given, and goes on or ends. The programs over a trace have this text in common,
// but for names.
#![tactic(auto)]

use convert::pieces::Progress;
use format::block::BLOCK;
use shell::failures::has_arguments;
use shell::reading::{INPUT, Input, fill, may_wait};
use shell::streams::Streams;
use shell::transfers::{PRINTED, Transfer};
use shell::turns::{Turn, next_turn};
use std::env::Env;
use std::fs::Files;

// The longest row (table, `row_fits`).
const MOST: usize = 1228;

// At most so many blocks are read at a time.
const BLOCKS: usize = 256;

const PIECE: usize = BLOCKS * BLOCK;

// So much is kept for output: less than a piece that is printed, and the most that the blocks of one read print.
const KEPT: usize = PRINTED + BLOCKS * MOST;

// More than a line of standard error takes.
const ERRORS: usize = 64;

// How far the program has come: the run, and what is read and kept.
#[derive(Clone, Copy)]
struct State {
    progress: Progress,
    transfer: Transfer,
}

// Takes block 0, which stands in a buffer of its own.
fn begin(zeroth: Input, prompt: bool, kept: &[u8], lines: &mut [u8]) -> State {
    let begun = Progress::begin(zeroth.front(kept), lines);
    let progress = begun.progress;
    let answer = begun.answer;
    let ended = progress.ended;
    let transfer = Transfer::begun(zeroth, ended, prompt).with_kept(answer, lines);
    State { progress, transfer }
}

// Takes the blocks that are read.
fn take(s: State, kept: &mut [u8], piece: &[u8], lines: &mut [u8]) -> State {
    let before = s.progress;
    let transfer = s.transfer;
    let out = transfer.out;
    let used = out.end(lines.len());
    let taken = before.blocks(kept, transfer.left(piece), &mut lines[used..]);
    let progress = taken.progress;
    let answer = taken.answer;
    let ended = progress.ended;
    let next = transfer
        .with_taken(ended, taken.bytes, piece)
        .with_kept(answer, lines);
    State {
        progress,
        transfer: next,
    }
}

// Ends the run.
fn close(s: State, piece: &[u8], lines: &mut [u8], errors: &mut [u8]) -> Transfer {
    let progress = s.progress;
    let transfer = s.transfer;
    let out = transfer.out;
    let err = transfer.err;
    let used = out.end(lines.len());
    let told = err.end(errors.len());
    let closed = progress.end(
        transfer.rest(piece),
        &mut lines[used..],
        &mut errors[told..],
    );
    let printed = closed.out;
    let refused = closed.err;
    transfer
        .with_kept(printed, lines)
        .with_reported(refused, errors)
}

// Ends the run, and prints what is kept.
fn finish(
    s: State,
    streams: &mut Streams,
    name: &[u8],
    piece: &[u8],
    lines: &mut [u8],
    errors: &mut [u8],
) {
    close(s, piece, lines, errors).finished(streams, name, lines, errors);
}

// Takes, prints or reads.
fn step(
    s: State,
    turn: Turn,
    streams: &mut Streams,
    name: &[u8],
    kept: &mut [u8],
    piece: &mut [u8],
    lines: &mut [u8],
    errors: &mut [u8],
) -> State {
    let progress = s.progress;
    let transfer = s.transfer;
    match turn {
        Turn::Take => take(s, kept, piece, lines),
        Turn::Print => State {
            progress,
            transfer: transfer.with_printed(streams, name, lines, errors),
        },
        Turn::Read => State {
            progress,
            transfer: transfer.with_read(streams, piece),
        },
        _ => s,
    }
}

// Goes on from block 0 as it is told.
fn run(
    start: State,
    streams: &mut Streams,
    name: &[u8],
    kept: &mut [u8],
    piece: &mut [u8],
    lines: &mut [u8],
    errors: &mut [u8],
) {
    let mut s = start;
    let mut turns: u64 = 0xffff_ffff_ffff_ffff;
    while 0 < turns {
        let transfer = s.transfer;
        let turn = next_turn(transfer, piece);
        match turn {
            Turn::Finish => {
                finish(s, streams, name, piece, lines, errors);
                return;
            }
            Turn::Stop => {
                return;
            }
            _ => {
                s = step(s, turn, streams, name, kept, piece, lines, errors);
            }
        }
        turns -= 1;
    }
}

// Converts the trace.
fn convert(
    prompt: bool,
    streams: &mut Streams,
    name: &[u8],
    kept: &mut [u8],
    piece: &mut [u8],
    lines: &mut [u8],
    errors: &mut [u8],
) {
    let zeroth = fill(streams, kept);
    let start = begin(zeroth, prompt, kept, lines);
    run(start, streams, name, kept, piece, lines, errors);
}

fn main(rt: HostRuntime) {
    let mut streams = Streams::new(rt.stdin(), rt.stdout(), rt.stderr());
    let mut word = [0u8; 1];
    if has_arguments(
        rt.arg(1, &mut word),
        &streams,
        b"usage: ecntable <TRACE >TABLE\n",
    ) {
        return;
    }
    let prompt = may_wait(rt.metadata(INPUT));
    let mut kept = [0u8; BLOCK];
    let mut piece = [0u8; PIECE];
    let mut lines = [0u8; KEPT];
    let mut errors = [0u8; ERRORS];
    convert(
        prompt,
        &mut streams,
        b"ecntable",
        &mut kept,
        &mut piece,
        &mut lines,
        &mut errors,
    );
}
