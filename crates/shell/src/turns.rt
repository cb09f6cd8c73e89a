// What a program over a trace does next: all that a main decides. A main reads, calls, prints what it was given, and goes on or ends as it is told here.
ghost use Rattle.std.specs.Prelude.{◌≡◌};
ghost use Rattle.shell.specs.Turns.{is_due, last_of, turn_of};

use crate::reading::{Ahead, Input};
use crate::transfers::Transfer;
use format::block::BLOCK;

// What comes next: whole blocks are taken; output is printed; more is read; the run is ended, and all that is kept is printed; or nothing.
#[derive(Clone, Copy)]
pub enum Turn {
    Take,
    Print,
    Read,
    Finish,
    Stop,
}

// Whether output is printed now. None is after a failed read: printing could fail too, and put its error in the place of the read's.
fn is_due(t: Transfer) -> bool
    ensures { result ≡ is_due t }
{
    let input = t.input;
    let lines = t.out;
    let errors = t.err;
    if input.has_failed() {
        return false;
    }
    if 0 < t.ready(lines.used) {
        return true;
    }
    0 < t.ready(errors.used)
}

// What comes next if no whole block is left: more is read, or the run is ended.
fn last_turn(input: Input) -> Turn
    ensures { result ≡ last_of input.ahead }
{
    let ahead = input.ahead;
    match ahead {
        Ahead::More => Turn::Read,
        Ahead::End => Turn::Finish,
        Ahead::Failure => Turn::Finish,
    }
}

// What comes next, with the piece that was read.
pub fn next_turn(t: Transfer, piece: &[u8]) -> Turn
    ensures { result ≡ turn_of t piece.now }
{
    let out = t.out;
    let input = t.input;
    if out.failed {
        return Turn::Stop;
    }
    if is_due(t) {
        return Turn::Print;
    }
    if !t.going {
        return Turn::Finish;
    }
    let left = t.left(piece);
    if BLOCK <= left.len() {
        return Turn::Take;
    }
    last_turn(input)
}
