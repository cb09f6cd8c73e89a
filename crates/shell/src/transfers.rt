// How far a program over a trace has come: what it has read and not taken yet, and what it keeps for its two outputs.
ghost use Rattle.std.specs.Prelude.{◌≡◌, length};
ghost use Rattle.std.proofs.lemmas.List.Edits.{sets};
ghost use Rattle.answers.specs.Writers.{length_in};
ghost use Rattle.walk.specs.Endings.{is_going};
ghost use Rattle.shell.specs.Kept.{kept_of};
ghost use Rattle.shell.specs.Transfers.{left_of, rest_of, ready_of, begun_of, taken_of, put_of, Brought, Flushed};

use crate::clipped::least;
use crate::moving::move_front;
use crate::printing::Output;
use crate::reading::{Input, read_on};
use crate::streams::{STDERR_FILENO, STDOUT_FILENO, Streams};
use answers::{Refusal, Unwritten};
use format::block::BLOCK;

// Output that is not prompt is printed in pieces of 256 KiB. Each begins at a multiple of that, where the system has large pieces of the file's pages to work
// with.
pub const PRINTED: usize = 512 * BLOCK;

// What is read, and from where on it is not taken yet; whether the run goes on; whether output is prompt, so that all that is kept is printed before more is
// read; and what is kept for standard output and for standard error.
#[derive(Clone, Copy)]
pub struct Transfer {
    pub input: Input,
    pub from: usize,
    pub going: bool,
    pub prompt: bool,
    pub out: Output,
    pub err: Output,
}

// Whether no block was refused.
fn goes_on(ended: Option<Refusal>) -> bool
    ensures { result ≡ is_going ended }
{
    match ended {
        None => true,
        Some(_) => false,
    }
}

impl Transfer {
    // After block 0, which stood in a buffer of its own.
    pub fn begun(zeroth: Input, ended: Option<Refusal>, prompt: bool) -> Transfer
        ensures { result ≡ begun_of zeroth ended prompt }
    {
        let ahead = zeroth.ahead;
        let input = Input { bytes: 0, ahead };
        Transfer {
            input,
            from: 0,
            going: goes_on(ended),
            prompt,
            out: Output::new(STDOUT_FILENO),
            err: Output::new(STDERR_FILENO),
        }
    }

    // What is left of a piece: what was read of it and is not taken yet.
    pub fn left(self, piece: &[u8]) -> &[u8]
        ensures { result.now ≡ left_of self piece.now }
    {
        let input = self.input;
        let to = least(input.bytes, piece.len());
        let from = least(self.from, to);
        &piece[from..to]
    }

    // What is left at the end: if a read has failed after whole blocks one byte more.
    pub fn rest(self, piece: &[u8]) -> &[u8]
        ensures { result.now ≡ rest_of self piece.now }
    {
        let input = self.input;
        let end = input.left_end(piece.len());
        let from = least(self.from, end);
        &piece[from..end]
    }

    // Moves what is left to the front of the piece, and answers how many bytes that is.
    fn kept(self, piece: &mut [u8]) -> usize
        ensures { (result ≡ length (left_of self piece.old)) × (piece.new ≡ sets piece.old 0 (left_of self piece.old)) }
    {
        let input = self.input;
        let end = least(input.bytes, piece.len());
        let start = least(self.from, end);
        move_front(piece, start, end);
        end - start
    }

    // Reads once, after what is left, which is moved to the front of the piece: so a part of a block waits there for the rest of it.
    pub fn with_read(self, streams: &mut Streams, piece: &mut [u8]) -> Transfer
        ensures { Brought self piece.old result piece.new }
    {
        let mut next = self;
        let kept = self.kept(piece);
        next.input = read_on(streams, piece, kept);
        next.from = 0;
        next
    }

    // After a call that took so many bytes of what is left. One that took none ends the run, as a refused block does: it would take none again.
    pub fn with_taken(self, ended: Option<Refusal>, bytes: usize, piece: &[u8]) -> Transfer
        ensures { result ≡ taken_of self ended bytes piece.now }
    {
        let mut next = self;
        let left = self.left(piece);
        next.from = self.from + least(bytes, left.len());
        next.going = goes_on(ended);
        if bytes == 0 {
            next.going = false;
        }
        next
    }

    // Keeps what a writer wrote for standard output.
    pub fn with_kept(self, answer: Result<usize, Unwritten>, lines: &[u8]) -> Transfer
        ensures { result ≡ put_of self (kept_of (length lines.now) (length_in answer) self.out) self.err }
    {
        let mut next = self;
        let out = self.out;
        next.out = out.with_written(answer, lines);
        next
    }

    // Keeps what a writer wrote for standard error.
    pub fn with_reported(self, answer: Result<usize, Unwritten>, lines: &[u8]) -> Transfer
        ensures { result ≡ put_of self self.out (kept_of (length lines.now) (length_in answer) self.err) }
    {
        let mut next = self;
        let err = self.err;
        next.err = err.with_written(answer, lines);
        next
    }

    // How many of so many bytes that are kept are printed now: all if output is prompt, else those that fill whole pieces.
    pub fn ready(self, used: usize) -> usize
        ensures { result ≡ ready_of self used }
    {
        if self.prompt {
            return used;
        }
        used - used % PRINTED
    }

    // Prints all that is kept, or all whole pieces of it, so that less than one is left and what the next call writes has room.
    pub fn with_printed(
        self,
        streams: &mut Streams,
        program: &[u8],
        lines: &mut [u8],
        errors: &mut [u8],
    ) -> Transfer
        ensures { Flushed (ready_of self self.out.used) (ready_of self self.err.used) self lines.old errors.old result lines.new errors.new }
    {
        let mut next = self;
        let out = self.out;
        let err = self.err;
        next.err = err.with_printed(self.ready(err.used), streams, program, errors);
        next.out = out.with_printed(self.ready(out.used), streams, program, lines);
        next
    }

    // Prints all that is kept: standard error first; then a failed read is reported, before standard output could fail too.
    pub fn finished(
        self,
        streams: &mut Streams,
        program: &[u8],
        lines: &mut [u8],
        errors: &mut [u8],
    ) -> Transfer
        ensures { Flushed self.out.used self.err.used self lines.old errors.old result lines.new errors.new }
    {
        let mut next = self;
        let input = self.input;
        let out = self.out;
        let err = self.err;
        next.err = err.with_printed(err.used, streams, program, errors);
        input.reported(streams, program);
        next.out = out.with_printed(out.used, streams, program, lines);
        next
    }
}
