// A run of ecnlabel over pieces of a trace (02, request L14), in three calls: block 0; the blocks of a piece; the end. What they give, joined, is what the
// program prints, however the trace is cut (specs/Pieces, `trace_prints`). Only block 0 is written anew: later blocks are copied as they stand.
#![tactic(auto)]

ghost use Rattle.std.specs.Prelude.{◌≡◌};
ghost use Rattle.answers.specs.Writers.{Wrote};
ghost use Rattle.trace.specs.Places.{zeroth_of};
ghost use Rattle.labels.specs.Pieces.{started_by, not_begun, Begins, taken_of, end_of};

use answers::{Refusal, Unwritten};
use copies::sound_front;
use format::Form;
use format::block::BLOCK;
use table::{write_number, write_refused};
use trace::places::read_label;
use trace::rewrite::space_label;
use walk::number_after;

// How far a run has come: the form and the SSRC of its trace, how many bytes of its label were replaced, the number of the next block, and whether that was
// refused. Every such state is sound.
#[derive(Clone, Copy)]
pub struct Progress {
    pub form: Form,
    pub ssrc: u32,
    pub replaced: u64,
    pub block: u64,
    pub ended: Option<Refusal>,
}

// The answer to block 0: what its writer says, and the progress.
#[derive(Clone, Copy)]
pub struct Begun {
    pub answer: Result<usize, Unwritten>,
    pub progress: Progress,
}

// The answer to a piece: how many bytes at its front are copied, and the progress.
#[derive(Clone, Copy)]
pub struct Taken {
    pub bytes: usize,
    pub progress: Progress,
}

// The progress after a block 0 of whose label so many bytes were replaced.
fn started(zeroth: &[u8], replaced: usize) -> Progress
    ensures { result ≡ started_by (zeroth_of zeroth.now) replaced }
{
    match read_label(zeroth) {
        Ok(label) => Progress {
            form: label.form,
            ssrc: label.ssrc,
            replaced: replaced as u64,
            block: 1,
            ended: None,
        },
        Err(refusal) => Progress {
            ended: Some(refusal),
            ..not_begun()
        },
    }
}

// The progress before block 0.
fn not_begun() -> Progress
    ensures { result ≡ not_begun }
{
    Progress {
        form: Form::One,
        ssrc: 0,
        replaced: 0,
        block: 0,
        ended: None,
    }
}

impl Progress {
    // Takes block 0 and writes it at the front of out, with one space in the place of each retired byte of its label. A refused block 0 ends the run, and
    // nothing is written. 12 with 512: nothing has begun.
    pub fn begin(zeroth: &[u8], out: &mut [u8]) -> Begun
        ensures { Begins zeroth.now out.old result out.new }
    {
        match space_label(zeroth, out) {
            Ok(number) => Begun {
                answer: Ok(BLOCK),
                progress: started(zeroth, number),
            },
            Err(Unwritten::Room(size)) => Begun {
                answer: Err(Unwritten::Room(size)),
                progress: not_begun(),
            },
            Err(Unwritten::Refused(_)) => Begun {
                answer: Ok(0),
                progress: started(zeroth, 0),
            },
        }
    }

    // Takes the sound blocks at the front of a piece, which are copied. The whole block after them, if that is refused, ends the run. Nothing is taken after a
    // refusal; a rest under 512 bytes is left.
    pub fn blocks(self, piece: &[u8]) -> Taken
        ensures { result ≡ taken_of self piece.now }
    {
        let None = self.ended else {
            return Taken {
                bytes: 0,
                progress: self,
            };
        };
        let front = sound_front(self.form, self.ssrc, piece);
        let block = number_after(self.block, (front.bytes / BLOCK) as u64);
        Taken {
            bytes: front.bytes,
            progress: Progress {
                block,
                ended: front.ended,
                ..self
            },
        }
    }

    // Ends the run. `rest` is what is left: 1 byte or more is a block that is refused with 1. Writes at the front of err the line of the refused block, or, if none
    // was refused, the number of bytes replaced. 12 with the line's length.
    pub fn end(self, rest: &[u8], err: &mut [u8]) -> Result<usize, Unwritten>
        ensures { Wrote None (end_of self rest.now) err.old result err.new }
    {
        match self.ended {
            Some(refusal) => write_refused(refusal.number(), self.block, err),
            None => {
                if rest.len() == 0 {
                    return write_number(self.replaced, err);
                }
                write_refused(Refusal::Incomplete.number(), self.block, err)
            }
        }
    }
}
