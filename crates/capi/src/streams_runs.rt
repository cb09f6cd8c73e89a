// A run of ecnstreams, block by block, and its rows. It is lent as 3 words, and the lines of its sources as 208.
ghost use Rattle.std.specs.Prelude.{◌≡◌, length};
ghost use Rattle.lent.specs.StreamWords.{run_words, stored_lines};
ghost use Rattle.capi.specs.Codes.{refusal_code, Leaves};
ghost use Rattle.capi.specs.StepCalls.{words_after};
ghost use Rattle.capi.specs.StreamsCalls.{StartsStreams, TakesStreams, WritesStreams};

use crate::codes;
use answers::{Refusal, written_number};
use lent::stream_words::{WORDS, load, store, store_lines};
use sources::runs::{Run, Step};

// Stores the words of the next run, unless the call is refused, and gives the answer's number.
fn put_run(step: Step, run: &mut [u64]) -> u8
    requires { length run.old ≡ 3 }
    ensures { Leaves (refusal_code step.answer) (words_after run.old (run_words step.run) step.answer) result run.new }
{
    if let Ok(_) = step.answer {
        store(step.run, run);
    }
    written_number(step.answer)
}

// Stores its lines.
fn put_lines(step: Step, lines: &mut [u64])
    ensures { lines.new ≡ words_after lines.old (stored_lines lines.old step.run) step.answer }
{
    if let Ok(_) = step.answer {
        store_lines(step.run, lines);
    }
}

// Takes block 0. Gives 0 and the run in 3 words, or refusal 9, 1, 13 or 14.
pub fn flasknib_streams_start(zeroth: &[u8], run: &mut [u64]) -> u8
    ensures { StartsStreams zeroth.now run.old result run.new }
{
    if run.len() != WORDS {
        return Refusal::Malformed.number();
    }
    put_run(Run::start(zeroth), run)
}

// Takes a later block, and counts its arrivals in the line of their SSRC. Gives 0, the next run in the place of the last and the lines, or refusal 16, 9, 1,
// 13, 14 or 15.
pub fn flasknib_streams_block(run: &mut [u64], lines: &mut [u64], block: &[u8]) -> u8
    ensures { TakesStreams run.old lines.old block.now result run.new lines.new }
{
    match load(run, lines) {
        Err(refusal) => refusal.number(),
        Ok(given) => {
            let step = given.block(block);
            put_lines(step, lines);
            put_run(step, run)
        }
    }
}

// Writes the row of line i. Gives its length, or minus refusal 16, 9, 10 or 12.
pub fn flasknib_streams_row(
    run: &[u64],
    i: usize,
    lines: &[u64],
    zeroth: &[u8],
    out: &mut [u8],
) -> i64
    ensures { WritesStreams run.now i lines.now zeroth.now out.old result out.new }
{
    match load(run, lines) {
        Err(refusal) => codes::minus(refusal),
        Ok(given) => codes::length(given.row(i, zeroth, out)),
    }
}
