// A run of ecnforms over pieces of a trace, in three calls: block 0; the whole blocks of a piece; the end. What they write, joined, is what the program prints,
// however the trace is cut (specs/Pieces, `trace_prints`).
ghost use Rattle.std.specs.Prelude.{◌≡◌, true, ◌≤◌, length};
ghost use Rattle.answers.specs.Writers.{Wrote};
ghost use Rattle.walk.specs.Machines.{ending_by};
ghost use Rattle.forms.specs.Conversions.{sound, next_of};
ghost use Rattle.forms.specs.Converted.{no_trace, told};
ghost use Rattle.forms.specs.Pieces.{conversion_of, Begins, Puts, Fitted, Takes, Ends};

use crate::soundness::is_sound;
use crate::{Conversion, Step, taking};
use answers::{Refusal, Unwritten};
use format::Form;
use format::block::BLOCK;
use table::write_refused;
use walk::{Closed, number_after};

// How far a run has come: what is kept between blocks, the number of the next block, and whether that was refused.
#[derive(Clone, Copy)]
pub struct Progress {
    pub conversion: Conversion,
    pub block: u64,
    pub ended: Option<Refusal>,
}

// The answer to block 0: what the writer of the label block says, and the progress.
#[derive(Clone, Copy)]
pub struct Begun {
    pub answer: Result<usize, Unwritten>,
    pub progress: Progress,
}

// The answer to a piece: what was written, how many bytes of the piece were taken, and the progress.
#[derive(Clone, Copy)]
pub struct Taken {
    pub answer: Result<usize, Unwritten>,
    pub bytes: usize,
    pub progress: Progress,
}

// How far the loop over a piece came: the conversion, the bytes that it took and those that it wrote, and whether the block behind them was refused.
#[derive(Clone, Copy)]
struct Reach {
    conversion: Conversion,
    bytes: usize,
    used: usize,
    ended: Option<Refusal>,
}

// The progress at block 0, with the conversion that a refused label leaves.
fn at_zeroth(ended: Option<Refusal>) -> Progress
    ensures { result ≡ record { conversion = conversion_of no_trace; block = 0; ended = ended } }
{
    let conversion = Conversion {
        form: Form::One,
        ssrc: 0,
        held: 0,
    };
    Progress {
        conversion,
        block: 0,
        ended,
    }
}

// Takes a block of a sound conversion's trace and writes the blocks that are full with it from a place of out on.
fn put_blocks(c: Conversion, part: &mut [u8], block: &[u8], out: &mut [u8], at: usize) -> Step
    requires { (sound c part.old ≡ true) × (at ≤ length out.old) }
    ensures { Puts c part.old (next_of c.form c.ssrc block.now) out.old at result part.new out.new }
{
    taking::step(c, part, block, &mut out[at..])
}

// Takes the whole blocks of a piece in turn, as far as out has room for the blocks that are full with them. A refused block ends the run.
fn take_fitting(start: Conversion, part: &mut [u8], piece: &[u8], out: &mut [u8]) -> Reach
    requires { sound start part.old ≡ true }
    ensures { Fitted start part.old piece.now out.old result.conversion result.bytes result.used result.ended part.new out.new }
{
    let mut conversion = start;
    let mut at = 0;
    let mut used = 0;
    // A loop with a step of its own: `at` is also how many bytes of the piece are taken, which each way out tells.
    while BLOCK <= piece.len() - at {
        let end = at + BLOCK;
        let step = put_blocks(conversion, part, &piece[at..end], out, used);
        match step.answer {
            Ok(n) => {
                conversion = step.conversion;
                used += n;
            }
            Err(Unwritten::Room(_)) => {
                return Reach {
                    conversion,
                    bytes: at,
                    used,
                    ended: None,
                };
            }
            Err(Unwritten::Refused(refusal)) => {
                return Reach {
                    conversion,
                    bytes: at,
                    used,
                    ended: Some(refusal),
                };
            }
        }
        at = end;
    }
    Reach {
        conversion,
        bytes: at,
        used,
        ended: None,
    }
}

// A piece of which nothing is taken.
fn none_taken(progress: Progress, answer: Result<usize, Unwritten>) -> Taken
    ensures { result ≡ record { answer = answer; bytes = 0; progress = progress } }
{
    Taken {
        answer,
        bytes: 0,
        progress,
    }
}

// Writes the line of the refused block, if there is one: 1 byte or more of rest is a block that is refused with 1.
fn tell_end(
    ended: Option<Refusal>,
    block: u64,
    rest: &[u8],
    err: &mut [u8],
) -> Result<usize, Unwritten>
    ensures { Wrote None (told (ending_by block ended rest.now)) err.old result err.new }
{
    match ended {
        Some(refusal) => write_refused(refusal.number(), block, err),
        None => {
            if rest.is_empty() {
                return Ok(0);
            }
            write_refused(Refusal::Incomplete.number(), block, err)
        }
    }
}

impl Progress {
    // Takes block 0 and writes the label block in the other form at the front of out. A refused block 0 ends the run, and nothing is written. Where the label
    // block has no room, 12 with its length, nothing has begun.
    pub fn begin(zeroth: &[u8], out: &mut [u8]) -> Begun
        ensures { Begins zeroth.now out.old result out.new }
    {
        match Conversion::start(zeroth, out) {
            Ok((conversion, n)) => {
                let progress = Progress {
                    conversion,
                    block: 1,
                    ended: None,
                };
                Begun {
                    answer: Ok(n),
                    progress,
                }
            }
            Err(Unwritten::Room(n)) => Begun {
                answer: Err(Unwritten::Room(n)),
                progress: at_zeroth(None),
            },
            Err(Unwritten::Refused(refusal)) => Begun {
                answer: Ok(0),
                progress: at_zeroth(Some(refusal)),
            },
        }
    }

    // Takes the whole blocks of a piece in turn and writes the blocks that are full with them at the front of out: to the last, to one that is refused, with which
    // the run ends, or to one for whose blocks no room is left. A rest under 512 bytes is left. The records left over stay in the part. Nothing is taken after
    // a refusal, nor where 9, a malformed conversion or part, is refused.
    pub fn blocks(self, part: &mut [u8], piece: &[u8], out: &mut [u8]) -> Taken
        ensures { Takes self part.old piece.now out.old result part.new out.new }
    {
        if self.ended.is_some() {
            return none_taken(self, Ok(0));
        }
        if !is_sound(self.conversion, part) {
            return none_taken(self, Err(Unwritten::Refused(Refusal::Malformed)));
        }
        let reach = take_fitting(self.conversion, part, piece, out);
        let progress = Progress {
            conversion: reach.conversion,
            block: number_after(self.block, (reach.bytes / BLOCK) as u64),
            ended: reach.ended,
        };
        Taken {
            answer: Ok(reach.used),
            bytes: reach.bytes,
            progress,
        }
    }

    // Ends the run, where `rest` is what is left of the trace. Writes the records in the part, if there are any, as a last block at the front of out, and the line
    // of the refused block, if there is one, at the front of err. Refusals: 9 a malformed conversion or part, on out; 12 output too small, on each.
    pub fn end(self, part: &[u8], rest: &[u8], out: &mut [u8], err: &mut [u8]) -> Closed
        ensures { Ends self part.now rest.now out.old err.old result out.new err.new }
    {
        let last = self.conversion.close(part, out);
        let line = tell_end(self.ended, self.block, rest, err);
        Closed {
            out: last,
            err: line,
        }
    }
}
