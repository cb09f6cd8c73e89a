// A run of ecnstreams over pieces of a trace, in three calls: block 0; the whole blocks of a piece; the end. What they write, joined, is what the program prints,
// however the trace is cut (specs/Pieces, `trace_prints`).
ghost use Rattle.std.specs.Prelude.{◌≡◌};
ghost use Rattle.answers.specs.Refusals.{number_of};
ghost use Rattle.answers.specs.Writers.{Wrote};
ghost use Rattle.table.specs.Lines.{refused_line};
ghost use Rattle.sources.specs.Runs.{run_fault};
ghost use Rattle.sources.specs.Pieces.{begin_of, not_begun, Begins, TakesWhole, Takes, Ends};

use crate::judging::judge_with;
use crate::known;
use crate::rows::write_rows;
use crate::runs::Run;
use crate::stepping::{refusal_in, step};
use answers::{Refusal, Unwritten};
use format::Form;
use format::block::BLOCK;
use table::{write_head, write_refused};
use walk::{Closed, number_after};

// How far a run has come: what is kept between blocks, the number of the next block, and whether that was refused.
#[derive(Clone, Copy)]
pub struct Progress {
    pub run: Run,
    pub block: u64,
    pub ended: Option<Refusal>,
}

// The answer to block 0: what the writer of the head line says, and the progress.
#[derive(Clone, Copy)]
pub struct Begun {
    pub answer: Result<usize, Unwritten>,
    pub progress: Progress,
}

// The answer to a piece: what was written, how many bytes of the piece were taken, and the progress.
#[derive(Clone, Copy)]
pub struct Taken {
    pub answer: Result<usize, Unwritten>,
    pub bytes: usize,
    pub progress: Progress,
}

// How far the loop over a piece came: the run, the bytes that it took, and whether the block behind them was refused.
#[derive(Clone, Copy)]
struct Reach {
    run: Run,
    bytes: usize,
    ended: Option<Refusal>,
}

// The progress behind block 0.
fn started(zeroth: &[u8]) -> Progress
    ensures { result ≡ begin_of zeroth.now }
{
    let first = Run::start(zeroth);
    match refusal_in(first.answer) {
        Some(refusal) => Progress {
            run: first.run,
            block: 0,
            ended: Some(refusal),
        },
        None => Progress {
            run: first.run,
            block: 1,
            ended: None,
        },
    }
}

// The progress before block 0.
fn not_begun() -> Progress
    ensures { result ≡ not_begun }
{
    Progress {
        run: Run::empty(Form::One, 0),
        block: 0,
        ended: None,
    }
}

// Takes the whole blocks of a piece in turn. A refused block ends the run.
fn take_whole(start: Run, piece: &[u8]) -> Reach
    requires { run_fault start ≡ None }
    ensures { TakesWhole start piece.now result.run result.bytes result.ended }
{
    let mut run = start;
    let mut at = 0;
    while BLOCK <= piece.len() - at {
        let known = known::take(run, piece, at);
        let here = known.run;
        let from = known.at;
        if piece.len() - from < BLOCK {
            return Reach {
                run: here,
                bytes: from,
                ended: None,
            };
        }
        let end = from + BLOCK;
        let next = step(here, &piece[from..end]);
        if let Some(refusal) = refusal_in(next.answer) {
            return Reach {
                run: here,
                bytes: from,
                ended: Some(refusal),
            };
        }
        run = next.run;
        at = end;
    }
    Reach {
        run,
        bytes: at,
        ended: None,
    }
}

// A piece of which nothing is taken.
fn none_taken(progress: Progress, answer: Result<usize, Unwritten>) -> Taken
    ensures { result ≡ record { answer = answer; bytes = 0; progress = progress } }
{
    Taken {
        answer,
        bytes: 0,
        progress,
    }
}

// The end of a run by a refusal at a block.
fn refused_at(refusal: Refusal, block: u64, out: &mut [u8]) -> Closed
    ensures { (result.err ≡ Ok 0) × Wrote None (refused_line (number_of refusal) block) out.old result.out out.new }
{
    let line = write_refused(refusal.number(), block, out);
    Closed {
        out: line,
        err: Ok(0),
    }
}

impl Progress {
    // Takes block 0 and writes the head line at the front of out. A refused block 0 ends the run. Where the head line has no room, 12 with its length, nothing has
    // begun.
    pub fn begin(zeroth: &[u8], out: &mut [u8]) -> Begun
        ensures { Begins zeroth.now out.old result out.new }
    {
        let answer = write_head(out);
        match answer {
            Ok(_) => Begun {
                answer,
                progress: started(zeroth),
            },
            Err(_) => Begun {
                answer,
                progress: not_begun(),
            },
        }
    }

    // Takes the whole blocks of a piece in turn, to the last or to one that is refused, with which the run ends; nothing is written. A rest under 512 bytes is left.
    // `zeroth` is block 0. Nothing is taken after a refusal, nor where the run is refused: 16 held places against the rules of a table; 9 a malformed record, tally
    // or run, or a block 0 that is not its own. The run is judged once a call.
    pub fn blocks(self, zeroth: &[u8], piece: &[u8], out: &mut [u8]) -> Taken
        ensures { Takes self zeroth.now piece.now out.old result out.new }
    {
        let run = self.run;
        if let Some(_) = self.ended {
            return none_taken(self, Ok(0));
        }
        if let Err(refusal) = judge_with(run, zeroth) {
            return none_taken(self, Err(Unwritten::Refused(refusal)));
        }
        let reach = take_whole(run, piece);
        let next = reach.run;
        let ended = reach.ended;
        let progress = Progress {
            run: next,
            block: number_after(self.block, (reach.bytes / BLOCK) as u64),
            ended,
        };
        Taken {
            answer: Ok(0),
            bytes: reach.bytes,
            progress,
        }
    }

    // Ends the run, where `rest` is what is left: 1 byte or more is a block that is refused with 1. Writes what the end prints at the front of out: the line of the
    // refused block, if there is one, or the rows of all lines; and nothing on standard error. `zeroth` is block 0. Refusals of the rows, on out: 16 and 9 as
    // `blocks` gives them; 12 output too small, with the length of what is to be written.
    pub fn end(self, zeroth: &[u8], rest: &[u8], out: &mut [u8], err: &mut [u8]) -> Closed
        ensures { Ends self zeroth.now rest.now out.old err.old result out.new err.new }
    {
        let run = self.run;
        let ended = self.ended;
        match ended {
            Some(refusal) => refused_at(refusal, self.block, out),
            None => {
                if rest.len() == 0 {
                    let written = write_rows(run, zeroth, out);
                    return Closed {
                        out: written,
                        err: Ok(0),
                    };
                }
                refused_at(Refusal::Incomplete, self.block, out)
            }
        }
    }
}
