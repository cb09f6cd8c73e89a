// A block of a run: its arrivals counted by the table's call, and the tallies that move with the table.
ghost use Rattle.std.specs.Prelude.{◌≡◌, ◌-◌, ◌≤◌, get_or};
ghost use Rattle.trace.specs.declared.Block.{Block};
ghost use Rattle.trace.specs.Reading.{block_of};
ghost use Rattle.sources.specs.Tallies.{no_tally, raised, shifted, tallied};
ghost use Rattle.sources.specs.Runs.{refusal_in, counted_run, next_of, TakesBlock};

use crate::judging::is_of_trace;
use crate::runs::{Run, Step, Tally};
use crate::{Counted, Stand};
use answers::{Refusal, Unwritten};
use format::block::BODY;
use source::{BlockCount, Source, Totals};
use trace::Block;
use trace::read::{fault_of, read_block};

// A refusal, with the run that was given.
pub fn refused(run: Run, refusal: Refusal) -> Step
    ensures { result ≡ record { answer = Err (Unwritten.Refused refusal); run = run } }
{
    Step {
        answer: Err(Unwritten::Refused(refusal)),
        run,
    }
}

// The next run.
pub fn taken(run: Run) -> Step
    ensures { result ≡ record { answer = Ok 0; run = run } }
{
    Step { answer: Ok(0), run }
}

// The refusal in a block's answer, if there is one.
pub fn refusal_in(answer: Result<usize, Unwritten>) -> Option<Refusal>
    ensures { result ≡ refusal_in answer }
{
    match answer {
        Err(Unwritten::Refused(refusal)) => Some(refusal),
        _ => None,
    }
}

// A tally with the jumps and restarts of a block.
pub fn raised(t: Tally, jumps: u64, restarts: u64) -> Tally
    ensures { result ≡ raised t jumps restarts }
{
    let source = Source::fresh();
    let before = Totals {
        source,
        jumped: t.jumped,
        restarts: t.restarts,
    };
    let after = before.with_block(BlockCount::Counted(source, jumps, restarts));
    Tally {
        jumped: after.jumped,
        restarts: after.restarts,
    }
}

// The tallies with one put in at a place: those from there on move by one, and the last one goes.
fn shifted(tallies: [Tally; 16], at: usize, t: Tally) -> [Tally; 16]
    ensures { result ≡ shifted at (16 - at) t tallies }
{
    let mut next = tallies;
    let mut carried = t;
    let mut i = at;
    while i < 16 {
        let here = next[i];
        next[i] = carried;
        carried = here;
        i += 1;
    }
    next
}

// The tallies moved by the stand that the answer to a block tells.
fn tallied(tallies: [Tally; 16], stand: Stand, jumps: u64, restarts: u64) -> [Tally; 16]
    ensures { result ≡ tallied stand jumps restarts tallies }
{
    let at = stand.at;
    if stand.new {
        let first = raised(Tally::fresh(), jumps, restarts);
        return shifted(tallies, at, first);
    }
    let mut next = tallies;
    if at < 16 {
        let before = next[at];
        let t = raised(before, jumps, restarts);
        next[at] = t;
    }
    next
}

// The run with the n arrivals of a block.
pub fn count_in(run: Run, n: usize, ssrc: u32, block: &[u8]) -> Step
    requires { block_of block.now ≡ Ok (Block.Arrivals run.form n ssrc) }
    ensures { TakesBlock run (counted_run run n ssrc block.now) result }
{
    let form = run.form;
    let table = run.table;
    let tallies = run.tallies;
    let width = form.width();
    let end = BODY + n * width;
    let next = table.count_block(ssrc, &block[BODY..end], width);
    let answer = next.answer;
    match answer {
        Counted::Refused(refusal) => refused(run, refusal),
        Counted::Block(stand, jumps, restarts) => {
            let after = next.table;
            let moved = tallied(tallies, stand, jumps, restarts);
            let later = Run {
                form,
                length: run.length,
                table: after,
                tallies: moved,
            };
            taken(later)
        }
    }
}

// Takes a block.
pub fn step(run: Run, block: &[u8]) -> Step
    ensures { TakesBlock run (next_of run block.now) result }
{
    match read_block(block) {
        Ok(Block::Arrivals { form, count, ssrc }) => {
            if !is_of_trace(run.form, form) {
                return refused(run, Refusal::Contents);
            }
            count_in(run, count, ssrc, block)
        }
        other => refused(run, fault_of(other)),
    }
}
