// Standard input, read into lent buffers.
ghost use Rattle.std.specs.Prelude.{◌≡◌, ◌+◌, ◌<◌, ◌≤◌, min, length, take};
ghost use Rattle.shell.specs.Fills.{Filled, ReadOn, filling, begun, goes_on, reading_after, is_placeless, is_failure, unread_of, end_of};
ghost use Rattle.shell.specs.Tries.{bytes_in};

use crate::clipped::least;
use crate::failures::tell;
use crate::retries::{Outcome, TRIES, judged};
use crate::streams::Streams;
use format::block::BLOCK;
use std::fs::Metadata;
use std::io;
use std::os::unix::fs::FileTypeExt;

// What the system calls standard input (Linux).
pub const INPUT: &str = "/dev/stdin";

// How the input stands: more may come, it has ended, or a read has failed.
#[derive(Clone, Copy)]
pub enum Ahead {
    More,
    End,
    Failure,
}

// How many bytes at the front of the lent buffer were read, and what comes after them.
#[derive(Clone, Copy)]
pub struct Input {
    pub bytes: usize,
    pub ahead: Ahead,
}

// How far a buffer is filled, and the tries left for the next read.
#[derive(Clone, Copy)]
struct Reading {
    input: Input,
    left: u64,
}

impl Reading {
    // Before the first read into a buffer that has so many bytes already.
    fn begun(bytes: usize) -> Reading
        ensures { result ≡ begun bytes }
    {
        let input = Input {
            bytes,
            ahead: Ahead::More,
        };
        Reading { input, left: TRIES }
    }

    // Whether it is read again: while fewer bytes are there than are enough, and neither the end nor a failure was met.
    fn goes_on(self, enough: usize) -> bool
        ensures { result ≡ goes_on self enough }
    {
        let input = self.input;
        let ahead = input.ahead;
        let Ahead::More = ahead else {
            return false;
        };
        input.bytes < enough
    }

    // After a read: its bytes count, and the next has all tries again; a read that brings none is the end.
    fn after(self, outcome: Outcome) -> Reading
        requires { self.input.bytes + bytes_in outcome < 18446744073709551616 }
        ensures { result ≡ reading_after self outcome }
    {
        let input = self.input;
        let bytes = input.bytes;
        match outcome {
            Outcome::Bytes(n) => reached(bytes + n, Ahead::More, TRIES),
            Outcome::Nothing => reached(bytes, Ahead::End, self.left),
            Outcome::Again(left) => reached(bytes, Ahead::More, left),
            Outcome::Failed => reached(bytes, Ahead::Failure, self.left),
        }
    }
}

// A filling of so many bytes.
fn reached(bytes: usize, ahead: Ahead, left: u64) -> Reading
    ensures { result ≡ filling bytes ahead left }
{
    let input = Input { bytes, ahead };
    Reading { input, left }
}

// Whether an input has no place, which a number below 0 says.
fn is_placeless(place: i64) -> bool
    ensures { result ≡ is_placeless place }
{
    place < 0
}

// The place in standard input as far as it is needed, by what the system tells of it: 0 if it has one, else -1. A file, a disk and a folder have one; a pipe,
// a socket and a terminal have none, and so has what the system tells nothing of.
fn place(told: io::Result<Metadata>) -> i64 {
    let Ok(input) = told else {
        return -1;
    };
    let kind = input.file_type();
    if kind.is_file() || kind.is_block_device() || kind.is_dir() {
        return 0;
    }
    -1
}

// Whether a read of standard input may wait for bytes that are not there yet: of a pipe, a socket or a terminal, which have no place. A read of a file does not
// wait. What the system tells of it is asked by its name, `INPUT`, before the first read.
pub fn may_wait(told: io::Result<Metadata>) -> bool {
    is_placeless(place(told))
}

// Reads after the first bytes of the buffer until enough are there, each time as many as it has room for, and leaves the first as they were.
fn read_until(streams: &mut Streams, buffer: &mut [u8], first: usize, enough: usize) -> Input
    requires { (first ≤ length buffer.old) × (enough ≤ length buffer.old) }
    ensures { Filled first enough (length buffer.old) result × (take first buffer.new ≡ take first buffer.old) }
{
    let end = buffer.len();
    let mut reading = Reading::begun(first);
    while reading.goes_on(enough) {
        let input = reading.input;
        let at = input.bytes;
        let answer = streams.read(&mut buffer[at..end]);
        reading = reading.after(judged(answer, streams.errno(), reading.left, end - at));
    }
    reading.input
}

// Fills the buffer from its front, with as many reads as that takes. If a read fails the caller reports it (`reported`, before another call of the system
// fails).
pub fn fill(streams: &mut Streams, buffer: &mut [u8]) -> Input
    ensures { Filled 0 (length buffer.old) (length buffer.old) result }
{
    read_until(streams, buffer, 0, buffer.len())
}

// Reads once after the first bytes of the buffer, which stay, as many as it has room for: a byte is enough. Only a read that was interrupted, or whose file was
// not ready, is made again. If it fails the caller reports it.
pub fn read_on(streams: &mut Streams, buffer: &mut [u8], first: usize) -> Input
    ensures { ReadOn first buffer.old result buffer.new }
{
    let end = buffer.len();
    let kept = least(first, end);
    read_until(streams, buffer, kept, least(kept + 1, end))
}

impl Input {
    // Whether a read has failed.
    pub fn has_failed(self) -> bool
        ensures { result ≡ is_failure self.ahead }
    {
        let ahead = self.ahead;
        match ahead {
            Ahead::More => false,
            Ahead::End => false,
            Ahead::Failure => true,
        }
    }

    // Reports a failed read on standard error, and answers whether it did. Before it no other call may fail: errno is still that of the read.
    pub fn reported(self, streams: &Streams, program: &[u8]) -> bool
        ensures { result ≡ is_failure self.ahead }
    {
        if !self.has_failed() {
            return false;
        }
        tell(streams, program, b"reading standard input");
        true
    }

    // How many bytes count as read that are not: one if a read has failed after whole blocks, since a block that could not be read is not a whole one.
    fn unread(self) -> usize
        ensures { result ≡ unread_of self }
    {
        if !self.has_failed() {
            return 0;
        }
        if self.bytes % BLOCK != 0 {
            return 0;
        }
        1
    }

    // Where what is left in a buffer of so many bytes ends.
    pub fn left_end(self, length: usize) -> usize
        ensures { result ≡ min (end_of self) length }
    {
        if length <= self.bytes {
            return length;
        }
        self.bytes + self.unread()
    }

    // What was read; if a read has failed after whole blocks one byte more.
    pub fn front(self, buffer: &[u8]) -> &[u8]
        ensures { result.now ≡ take (end_of self) buffer.now }
    {
        let from = 0;
        let to = self.left_end(buffer.len());
        &buffer[from..to]
    }
}
