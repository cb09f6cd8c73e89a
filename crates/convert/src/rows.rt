// The row after an arrivals block, of a run that was found sound.
ghost use Rattle.std.specs.Prelude.{◌≡◌, true};
ghost use Rattle.trace.specs.declared.Block.{Block};
ghost use Rattle.trace.specs.Reading.{block_of};
ghost use Rattle.walk.specs.Steps.{goes, Stepped};
ghost use Rattle.convert.specs.Runs.{sound_run, row_of, row_in, arrived, next_of};
ghost use Rattle.convert.specs.Passes.{Forwarded};

use crate::{Run, Step};
use answers::{Refusal, Unwritten};
use engine::count_block;
use format::block::BODY;
use table::write_row;
use trace::places::read_own;

// A refusal, with the run that was given.
pub fn refused(run: Run, refusal: Refusal) -> Step
    ensures { (result.answer ≡ Err (Unwritten.Refused refusal)) × (result.run ≡ run) }
{
    Step {
        answer: Err(Unwritten::Refused(refusal)),
        run,
    }
}

// Writes the row of the next run.
fn row(run: Run, next: Run, zeroth: &[u8], out: &mut [u8]) -> Step
    requires { sound_run next zeroth.now ≡ true }
    ensures { Stepped run (goes next) (row_of next zeroth.now) out.old result.answer result.run out.new }
{
    let end = BODY + next.length;
    let answer = write_row(&zeroth[BODY..end], next.ssrc, next.totals, out);
    match answer {
        Ok(_) => Step { answer, run: next },
        Err(_) => Step { answer, run },
    }
}

// The run with the n arrivals of a block.
fn counted(run: Run, n: usize, block: &[u8]) -> Run
    requires { block_of block.now ≡ Ok (Block.Arrivals run.form n run.ssrc) }
    ensures { result ≡ arrived run n block.now }
{
    let width = run.form.width();
    let end = BODY + n * width;
    let counted = count_block(run.totals.source, &block[BODY..end], width);
    Run {
        totals: run.totals.with_block(counted),
        ..run
    }
}

// Counts the n arrivals of a block and writes the row after it.
fn arrivals(run: Run, zeroth: &[u8], n: usize, block: &[u8], out: &mut [u8]) -> Step
    requires { (sound_run run zeroth.now ≡ true) × (block_of block.now ≡ Ok (Block.Arrivals run.form n run.ssrc)) }
    ensures { Stepped run (goes (arrived run n block.now)) (row_of (arrived run n block.now) zeroth.now) out.old result.answer result.run out.new }
{
    let next = counted(run, n, block);
    row(run, next, zeroth, out)
}

// Takes a block of a sound run's trace.
pub fn step(run: Run, zeroth: &[u8], block: &[u8], out: &mut [u8]) -> Step
    requires { sound_run run zeroth.now ≡ true }
    ensures { Stepped run (next_of run block.now) (row_in zeroth.now (next_of run block.now)) out.old result.answer result.run out.new }
{
    match read_own(run.form, run.ssrc, block) {
        Ok(count) => arrivals(run, zeroth, count, block, out),
        Err(refusal) => refused(run, refusal),
    }
}

// Counts the n arrivals of a block and writes the row after it; the next run comes back also where out has no room.
fn forward_row(run: Run, zeroth: &[u8], n: usize, block: &[u8], out: &mut [u8]) -> Step
    requires { (sound_run run zeroth.now ≡ true) × (block_of block.now ≡ Ok (Block.Arrivals run.form n run.ssrc)) }
    ensures { Forwarded run (goes (arrived run n block.now)) (row_of (arrived run n block.now) zeroth.now) out.old result.answer result.run out.new }
{
    let next = counted(run, n, block);
    row(next, next, zeroth, out)
}

// Takes a block of a sound run's trace as `step` does; the next run comes back also where out has no room.
pub fn forward(run: Run, zeroth: &[u8], block: &[u8], out: &mut [u8]) -> Step
    requires { sound_run run zeroth.now ≡ true }
    ensures { Forwarded run (next_of run block.now) (row_in zeroth.now (next_of run block.now)) out.old result.answer result.run out.new }
{
    match read_own(run.form, run.ssrc, block) {
        Ok(count) => forward_row(run, zeroth, count, block, out),
        Err(refusal) => refused(run, refusal),
    }
}
