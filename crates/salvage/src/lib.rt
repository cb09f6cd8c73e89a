// A run of ecnsalvage over pieces of a trace (02, request L11), in three calls: block 0; the blocks of a piece, to one that is left out; the end. What they
// give, joined, is what the program prints, however the trace is cut (specs/Pieces, `trace_prints`). No byte is moved: what is copied stands in the piece.
#![tactic(auto)]

ghost use Rattle.std.specs.Prelude.{◌≡◌, [], ◌+◌, ◌*◌, ◌<◌};
ghost use Rattle.answers.specs.Refusals.{number_of};
ghost use Rattle.answers.specs.Writers.{Wrote};
ghost use Rattle.table.specs.Lines.{refused_line};
ghost use Rattle.walk.specs.Endings.{number_after};
ghost use Rattle.salvage.specs.Pieces.{begun_of, moved_by, TakesBy, Takes, end_of};

use answers::{Refusal, Unwritten};
use copies::sound_front;
use format::Form;
use format::block::BLOCK;
use table::write_refused;
use trace::places::read_label;
use walk::number_after;

// How far a run has come: the form and the SSRC of its trace, the number of the next block, and whether that ended the run. Every such state is sound.
#[derive(Clone, Copy)]
pub struct Progress {
    pub form: Form,
    pub ssrc: u32,
    pub block: u64,
    pub ended: Option<Refusal>,
}

// The answer to block 0: how many bytes of it are copied, and the progress.
#[derive(Clone, Copy)]
pub struct Begun {
    pub copied: usize,
    pub progress: Progress,
}

// The answer to a piece: how many bytes at its front are copied and how many are taken, the line of the block between, and the progress.
#[derive(Clone, Copy)]
pub struct Taken {
    pub copied: usize,
    pub bytes: usize,
    pub answer: Result<usize, Unwritten>,
    pub progress: Progress,
}

// A piece of which nothing is taken.
fn none_taken(progress: Progress, answer: Result<usize, Unwritten>) -> Taken
    ensures { result ≡ record { copied = 0; bytes = 0; answer = answer; progress = progress } }
{
    Taken {
        copied: 0,
        bytes: 0,
        answer,
        progress,
    }
}

impl Progress {
    // Takes block 0: a label block is copied whole, and any other ends the run, with nothing copied.
    pub fn begin(zeroth: &[u8]) -> Begun
        ensures { result ≡ begun_of zeroth.now }
    {
        match read_label(zeroth) {
            Ok(label) => Begun {
                copied: BLOCK,
                progress: Progress {
                    form: label.form,
                    ssrc: label.ssrc,
                    block: 1,
                    ended: None,
                },
            },
            Err(refusal) => Begun {
                copied: 0,
                progress: Progress {
                    form: Form::One,
                    ssrc: 0,
                    block: 0,
                    ended: Some(refusal),
                },
            },
        }
    }

    // The progress so many blocks on.
    fn moved(self, many: usize) -> Progress
        ensures { result ≡ moved_by self many }
    {
        let block = number_after(self.block, many as u64);
        Progress { block, ..self }
    }

    // Takes so many blocks, which are copied, and the next one, which is left out: its line is written at the front of err.
    fn without(self, refusal: Refusal, many: usize, err: &mut [u8]) -> Taken
        requires { many * 512 + 512 < 18446744073709551616 }
        ensures { TakesBy self (record { copied = many; taken = many + 1; line = refused_line (number_of refusal) (number_after self.block many) }) err.old result err.new }
    {
        let at = self.moved(many);
        let answer = write_refused(refusal.number(), at.block, err);
        let Ok(_) = answer else {
            return none_taken(self, answer);
        };
        let front = many * BLOCK;
        let past = front + BLOCK;
        Taken {
            copied: front,
            bytes: past,
            answer,
            progress: at.moved(1),
        }
    }

    // Takes the sound blocks at the front of a piece, which are copied, and the whole block after them, if that is refused: it is left out, and its line is
    // written at the front of err. 12 with the line's length: nothing is taken then. Nothing is taken after an end. What is left of the piece is for the next
    // call; a rest under 512 bytes is left.
    pub fn blocks(self, piece: &[u8], err: &mut [u8]) -> Taken
        ensures { Takes self piece.now err.old result err.new }
    {
        let None = self.ended else {
            return none_taken(self, Ok(0));
        };
        let front = sound_front(self.form, self.ssrc, piece);
        let many = front.bytes / BLOCK;
        match front.ended {
            None => Taken {
                copied: many * BLOCK,
                bytes: many * BLOCK,
                answer: Ok(0),
                progress: self.moved(many),
            },
            Some(refusal) => self.without(refusal, many, err),
        }
    }

    // Ends the run. `rest` is what is left: 1 byte or more is a block that is refused with 1. Writes the line of the block that ended the run, if there is one, at
    // the front of err. 12 with the line's length.
    pub fn end(self, rest: &[u8], err: &mut [u8]) -> Result<usize, Unwritten>
        ensures { Wrote None (end_of self rest.now) err.old result err.new }
    {
        match self.ended {
            Some(refusal) => write_refused(refusal.number(), self.block, err),
            None => {
                if rest.len() == 0 {
                    return Ok(0);
                }
                write_refused(Refusal::Incomplete.number(), self.block, err)
            }
        }
    }
}
