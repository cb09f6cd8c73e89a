// The lines on standard error that every program has in common.
ghost use Rattle.std.specs.Prelude.{◌≡◌, ◌+◌, min, leb};
ghost use Rattle.shell.specs.Told.{Joined};

use crate::streams::Streams;
use answers::copy::put_bytes;
use std::env::FillError;

// Where so many bytes from a place on end, or the limit that they reach.
fn end_of(at: usize, bytes: usize, limit: usize) -> usize
    ensures { result ≡ min (at + bytes) limit }
{
    if limit <= at {
        return limit;
    }
    if limit - at < bytes {
        return limit;
    }
    at + bytes
}

// Stores two texts with a colon between them at the front of out, cut off where it ends, and answers their length.
fn join(first: &[u8], second: &[u8], out: &mut [u8]) -> usize
    ensures { Joined first.now second.now out.old result out.new }
{
    let colon = end_of(0, first.len(), out.len());
    put_bytes(first, out, 0);
    let from = end_of(colon, 2, out.len());
    put_bytes(b": ", out, colon);
    put_bytes(second, out, from);
    end_of(from, second.len(), out.len())
}

// Writes one line on standard error: the program, what failed, and the system's text for the error with which a call last failed.
pub fn tell(streams: &Streams, program: &[u8], what: &[u8]) {
    let mut space = [0u8; 64];
    let text: &mut [u8] = &mut space;
    let n = join(program, what, text);
    let line = &text[..];
    streams.fail(&line[..n]);
}

// Whether a program that was started with so many words, its own name among them, has an argument.
fn is_given(words: usize) -> bool
    ensures { result ≡ leb 2 words }
{
    2 <= words
}

// With how many words the program was started, its own name among them, as far as is told by the system's answer to who asks for the first argument, with
// however little room for it.
fn word_count(argument: Result<usize, FillError>) -> usize {
    match argument {
        Ok(_) => 2,
        Err(FillError::TooLong) => 2,
        Err(FillError::NotPresent) => 1,
    }
}

// Whether the program was started with an argument, by the system's answer to who asks for the first. None takes one, so the usage line is then written on
// standard error.
pub fn has_arguments(argument: Result<usize, FillError>, streams: &Streams, usage: &[u8]) -> bool {
    let given = is_given(word_count(argument));
    if given {
        streams.print_error(usage);
    }
    given
}
