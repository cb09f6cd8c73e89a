// One run of the program ecntable (document 01, "Trace file" and "Table"; 02, requests L5 and L10): block by block here, and over pieces of a trace in
// `pieces`. Block 0 holds the label; the caller keeps it, and lends it again with the later blocks.
#![tactic(auto)]

ghost use Rattle.std.specs.Prelude.{◌≡◌};
ghost use Rattle.walk.specs.Steps.{Stepped};
ghost use Rattle.convert.specs.Numbered.{begin_as};
ghost use Rattle.convert.specs.Runs.{start_of, call_next, row_in};
ghost use Rattle.convert.specs.Tables.{no_run};

use answers::{Refusal, Unwritten};
use format::Form;
use source::Totals;
use trace::Zeroth;
use trace::places::read_label;

mod feed_blocks;
mod feed_lent;
mod feed_passes;
mod feed_soundness;
pub mod feeds;
pub mod pieces;
mod rows;
mod soundness;

// What is kept between blocks: the form, the length of the label in block 0, the SSRC, and the totals so far.
#[derive(Clone, Copy)]
pub struct Run {
    pub form: Form,
    pub length: usize,
    pub ssrc: u32,
    pub totals: Totals,
}

// The answer to a later block: what the row's writer says, and the next run where the row was written, else the run that was given.
#[derive(Clone, Copy)]
pub struct Step {
    pub answer: Result<usize, Unwritten>,
    pub run: Run,
}

// The run that a refused label leaves.
fn no_run() -> Run
    ensures { result ≡ no_run }
{
    Run {
        form: Form::One,
        length: 0,
        ssrc: 0,
        totals: Totals::fresh(),
    }
}

impl Run {
    // Takes block 0, which must be a label block. Refusals: 1, 13 and 14, as `read_label` gives them.
    pub fn start(zeroth: &[u8]) -> Result<Run, Refusal>
        ensures value { result ≡ start_of zeroth.now }
        ensures numbered { begin_as result ≡ begin_as (start_of zeroth.now) }
    {
        let Zeroth { form, length, ssrc } = read_label(zeroth)?;
        let totals = Totals::fresh();
        Ok(Run {
            form,
            length,
            ssrc,
            totals,
        })
    }

    // Takes a later block, which must hold arrivals of the label's form and SSRC, and writes the row after it at the front of out. `zeroth` is block 0.
    // Refusals: 9 a malformed run, or a block 0 that is not its own; 1, 13 and 14, as `read_own` gives them; 12 output too small, with the row's length.
    pub fn block(self, zeroth: &[u8], block: &[u8], out: &mut [u8]) -> Step
        ensures { Stepped self (call_next self zeroth.now block.now) (row_in zeroth.now (call_next self zeroth.now block.now)) out.old result.answer result.run out.new }
    {
        if !soundness::is_sound(self, zeroth) {
            return rows::refused(self, Refusal::Malformed);
        }
        rows::step(self, zeroth, block, out)
    }
}
