// A run of ecntable over pieces of a trace, in three calls: block 0; the whole blocks of a piece; the end. What they write, joined, is what the program prints,
// however the trace is cut (specs/Pieces, `trace_prints`).
ghost use Rattle.std.specs.Prelude.{◌≡◌, true, ◌≤◌, length};
ghost use Rattle.answers.specs.Refusals.{number_of};
ghost use Rattle.answers.specs.Writers.{Wrote};
ghost use Rattle.table.specs.Lines.{refused_line};
ghost use Rattle.walk.specs.Puts.{PutBy};
ghost use Rattle.convert.specs.Runs.{sound_run, row_in, next_of};
ghost use Rattle.convert.specs.Pieces.{begin_of, not_begun, Begins, Fitted, Takes, Ends};

use crate::soundness::is_sound;
use crate::{Run, Step, no_run, rows};
use answers::{Refusal, Unwritten};
use format::block::BLOCK;
use table::{write_head, write_refused};
use walk::{Closed, number_after};

// How far a run has come: what is kept between blocks, the number of the next block, and whether that was refused.
#[derive(Clone, Copy)]
pub struct Progress {
    pub run: Run,
    pub block: u64,
    pub ended: Option<Refusal>,
}

// The answer to block 0: what the writer of the head line says, and the progress.
#[derive(Clone, Copy)]
pub struct Begun {
    pub answer: Result<usize, Unwritten>,
    pub progress: Progress,
}

// The answer to a piece: what was written, how many bytes of the piece were taken, and the progress.
#[derive(Clone, Copy)]
pub struct Taken {
    pub answer: Result<usize, Unwritten>,
    pub bytes: usize,
    pub progress: Progress,
}

// How far the loop over a piece came: the run, the bytes that it took and those that it wrote, and whether the block behind them was refused.
#[derive(Clone, Copy)]
struct Reach {
    run: Run,
    bytes: usize,
    used: usize,
    ended: Option<Refusal>,
}

// The progress behind block 0.
fn started(zeroth: &[u8]) -> Progress
    ensures { result ≡ begin_of zeroth.now }
{
    match Run::start(zeroth) {
        Ok(run) => Progress {
            run,
            block: 1,
            ended: None,
        },
        Err(refusal) => Progress {
            run: no_run(),
            block: 0,
            ended: Some(refusal),
        },
    }
}

// The progress before block 0.
fn not_begun() -> Progress
    ensures { result ≡ not_begun }
{
    Progress {
        run: no_run(),
        block: 0,
        ended: None,
    }
}

// Takes a block of a sound run's trace and writes its row from a place of out on.
fn put_row(run: Run, zeroth: &[u8], block: &[u8], out: &mut [u8], at: usize) -> Step
    requires { (sound_run run zeroth.now ≡ true) × (at ≤ length out.old) }
    ensures { PutBy (next_of run block.now) (row_in zeroth.now (next_of run block.now)) out.old at result.run out.new result.answer }
{
    rows::step(run, zeroth, block, &mut out[at..])
}

// Takes the whole blocks of a piece in turn, as far as out has room for their rows. A refused block ends the run.
fn take_fitting(start: Run, zeroth: &[u8], piece: &[u8], out: &mut [u8]) -> Reach
    requires { sound_run start zeroth.now ≡ true }
    ensures { Fitted start zeroth.now piece.now out.old result.run result.bytes result.used result.ended out.new }
{
    let mut run = start;
    let mut at = 0;
    let mut used = 0;
    // A loop with a step of its own: it stops in front of a block, whose place is given.
    while BLOCK <= piece.len() - at {
        let end = at + BLOCK;
        let step = put_row(run, zeroth, &piece[at..end], out, used);
        match step.answer {
            Ok(n) => {
                run = step.run;
                used += n;
            }
            Err(Unwritten::Room(_)) => {
                return Reach {
                    run,
                    bytes: at,
                    used,
                    ended: None,
                };
            }
            Err(Unwritten::Refused(refusal)) => {
                return Reach {
                    run,
                    bytes: at,
                    used,
                    ended: Some(refusal),
                };
            }
        }
        at = end;
    }
    Reach {
        run,
        bytes: at,
        used,
        ended: None,
    }
}

// A piece of which nothing is taken.
fn none_taken(progress: Progress, answer: Result<usize, Unwritten>) -> Taken
    ensures { result ≡ record { answer = answer; bytes = 0; progress = progress } }
{
    Taken {
        answer,
        bytes: 0,
        progress,
    }
}

// The end of a run by a refusal at a block.
fn refused_at(refusal: Refusal, block: u64, out: &mut [u8]) -> Closed
    ensures { (result.err ≡ Ok 0) × Wrote None (refused_line (number_of refusal) block) out.old result.out out.new }
{
    let line = write_refused(refusal.number(), block, out);
    Closed {
        out: line,
        err: Ok(0),
    }
}

impl Progress {
    // Takes block 0 and writes the head line at the front of out. A refused block 0 ends the run. Where the head line has no room, 12 with its length, nothing has
    // begun.
    pub fn begin(zeroth: &[u8], out: &mut [u8]) -> Begun
        ensures { Begins zeroth.now out.old result out.new }
    {
        let answer = write_head(out);
        match answer {
            Ok(_) => Begun {
                answer,
                progress: started(zeroth),
            },
            Err(_) => Begun {
                answer,
                progress: not_begun(),
            },
        }
    }

    // Takes the whole blocks of a piece in turn and writes their rows at the front of out: to the last, to one that is refused, with which the run ends, or to one
    // for whose row no room is left. A rest under 512 bytes is left. `zeroth` is block 0. Nothing is taken after a refusal, nor where 9, a malformed run, is refused.
    pub fn blocks(self, zeroth: &[u8], piece: &[u8], out: &mut [u8]) -> Taken
        ensures { Takes self zeroth.now piece.now out.old result out.new }
    {
        let None = self.ended else {
            return none_taken(self, Ok(0));
        };
        if !is_sound(self.run, zeroth) {
            return none_taken(self, Err(Unwritten::Refused(Refusal::Malformed)));
        }
        let reach = take_fitting(self.run, zeroth, piece, out);
        let progress = Progress {
            run: reach.run,
            block: number_after(self.block, (reach.bytes / BLOCK) as u64),
            ended: reach.ended,
        };
        Taken {
            answer: Ok(reach.used),
            bytes: reach.bytes,
            progress,
        }
    }

    // Ends the run, where `rest` is what is left: 1 byte or more is a block that is refused with 1. Writes what the end prints: the line of the refused block on
    // standard output, if there is one, and nothing on standard error. 12 with the line's length.
    pub fn end(self, rest: &[u8], out: &mut [u8], err: &mut [u8]) -> Closed
        ensures { Ends self rest.now out.old err.old result out.new err.new }
    {
        match self.ended {
            Some(refusal) => refused_at(refusal, self.block, out),
            None => {
                if rest.len() == 0 {
                    return Closed {
                        out: Ok(0),
                        err: Ok(0),
                    };
                }
                refused_at(Refusal::Incomplete, self.block, out)
            }
        }
    }
}
