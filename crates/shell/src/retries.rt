// What a call of `read` or `write` answered, and how often it is made again: if a signal interrupted it, or if its file was not ready.
ghost use Rattle.std.specs.Prelude.{◌≡◌};
ghost use Rattle.shell.specs.Tries.{tries_after, retried_of, judged_of};

use crate::clipped::least;
use std::thread;

// A signal interrupted the call; its file was not ready (Linux).
const EINTR: i32 = 4;

const EAGAIN: i32 = 11;

// How often a call is made before it counts as failed.
pub const TRIES: u64 = 0xffff_ffff;

// What a call did: it moved so many bytes, or none; it is to be made again with so many tries left; or it has failed, and errno says why.
#[derive(Clone, Copy)]
pub enum Outcome {
    Bytes(usize),
    Nothing,
    Again(u64),
    Failed,
}

// How many of the tries are left after one that failed with an error: none if trying again has no use. The error stays in errno if none is left.
fn tries_after(left: u64, error: i32) -> u64
    ensures { result ≡ tries_after left error }
{
    if left < 2 {
        return 0;
    }
    if error == EINTR {
        return left - 1;
    }
    if error == EAGAIN {
        thread::yield_now();
        return left - 1;
    }
    0
}

// What is done with so many tries left.
pub fn retried(left: u64) -> Outcome
    ensures { result ≡ retried_of left }
{
    if left == 0 {
        return Outcome::Failed;
    }
    Outcome::Again(left)
}

// What a call did that was to move `most` bytes, from its answer, the error in errno and the tries left before it.
pub fn judged(answer: isize, error: i32, left: u64, most: usize) -> Outcome
    ensures { result ≡ judged_of answer error left most }
{
    if answer < 0 {
        return retried(tries_after(left, error));
    }
    if answer == 0 {
        return Outcome::Nothing;
    }
    Outcome::Bytes(least(answer as usize, most))
}
