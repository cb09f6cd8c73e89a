// The arrivals of a block counted in the line of their SSRC.
ghost use Rattle.std.specs.Prelude.{◌≡◌, true, [], ◌<◌, get_or};
ghost use Rattle.trace.specs.declared.Block.{Block};
ghost use Rattle.trace.specs.Reading.{block_of};
ghost use Rattle.mixed.specs.Lines.{lines_in, in_words, ssrc_in};
ghost use Rattle.mixed.specs.Places.{place_by};
ghost use Rattle.mixed.specs.Blocks.{counted, new_line, held_line, settled};
ghost use Rattle.mixed.specs.Runs.{sound_run, call_next, step_of, TakesBlock};

use crate::soundness::{is_of_trace, is_sound};
use crate::words::WORDS;
use crate::{Run, finding, words};
use answers::Refusal;
use engine::count_block;
use format::Form;
use format::block::BODY;
use source::Totals;
use trace::Block;
use trace::read::read_block;

// The totals with the n arrivals of a block.
fn counted(totals: Totals, form: Form, n: usize, ssrc: u32, block: &[u8]) -> Totals
    requires { block_of block.now ≡ Ok (Block.Arrivals form n ssrc) }
    ensures { result ≡ counted form n block.now totals }
{
    let width = form.width();
    let end = BODY + n * width;
    totals.with_block(count_block(totals.source, &block[BODY..end], width))
}

// A new SSRC: its line is put in its place among the others.
fn add(run: Run, n: usize, ssrc: u32, lines: &mut [u64], block: &[u8]) -> Result<Run, Refusal>
    requires { (sound_run run lines.old ≡ true) × (block_of block.now ≡ Ok (Block.Arrivals run.form n ssrc)) }
    ensures { TakesBlock run lines.old (new_line in_words (counted run.form n block.now) ssrc (lines_in run.held lines.old)) (step_of run result) lines.new }
{
    if Run::MOST <= run.held {
        return Err(Refusal::Places);
    }
    let totals = counted(Totals::fresh(), run.form, n, ssrc, block);
    let at = finding::lower(lines, run.held, ssrc);
    words::push(lines, at, run.held);
    let from = WORDS * at;
    let end = from + WORDS;
    words::store(ssrc, totals, &mut lines[from..end]);
    Ok(Run {
        held: run.held + 1,
        ..run
    })
}

// An SSRC that line `at` has.
fn renew(
    run: Run,
    at: usize,
    n: usize,
    ssrc: u32,
    lines: &mut [u64],
    block: &[u8],
) -> Result<Run, Refusal>
    requires sound { (sound_run run lines.old ≡ true) × (block_of block.now ≡ Ok (Block.Arrivals run.form n ssrc)) }
    requires placed { (at < run.held) × (at ≡ place_by ssrc_in ssrc (lines_in run.held lines.old)) }
    ensures { TakesBlock run lines.old (held_line in_words (counted run.form n block.now) ssrc (lines_in run.held lines.old) (in_words.totals (get_or (lines_in run.held lines.old) at []))) (step_of run result) lines.new }
{
    let from = WORDS * at;
    let end = from + WORDS;
    let before = words::load(&lines[from..end]).ok_or(Refusal::Malformed)?;
    let totals = counted(before, run.form, n, ssrc, block);
    words::store(ssrc, totals, &mut lines[from..end]);
    Ok(run)
}

// Counts the n arrivals of a block.
fn arrivals(run: Run, n: usize, ssrc: u32, lines: &mut [u64], block: &[u8]) -> Result<Run, Refusal>
    requires { (sound_run run lines.old ≡ true) × (block_of block.now ≡ Ok (Block.Arrivals run.form n ssrc)) }
    ensures { TakesBlock run lines.old (settled in_words (counted run.form n block.now) ssrc (lines_in run.held lines.old)) (step_of run result) lines.new }
{
    let at = finding::find(lines, run.held, ssrc);
    if at < run.held {
        return renew(run, at, n, ssrc, lines, block);
    }
    add(run, n, ssrc, lines, block)
}

// The run behind a later block, or why that is refused.
pub fn next(run: Run, lines: &mut [u64], block: &[u8]) -> Result<Run, Refusal>
    ensures { TakesBlock run lines.old (call_next run lines.old block.now) (step_of run result) lines.new }
{
    if !is_sound(run, lines) {
        return Err(Refusal::Malformed);
    }
    let read = read_block(block)?;
    match read {
        Block::Label { .. } => Err(Refusal::Contents),
        Block::Arrivals { form, count, ssrc } => {
            if !is_of_trace(run, form) {
                return Err(Refusal::Contents);
            }
            arrivals(run, count, ssrc, lines, block)
        }
    }
}
