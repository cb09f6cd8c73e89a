// One run of the program ecnstreams, block by block (request L1): the arrivals blocks of a trace may differ in SSRC. Block 0 holds the label; the caller
// keeps it. The lines of the sources, one for each SSRC in rising order, stand in words that the caller lends to each call.
#![tactic(auto)]

ghost use Rattle.std.specs.Prelude.{◌≡◌};
ghost use Rattle.answers.specs.Writers.{Wrote};
ghost use Rattle.mixed.specs.Runs.{start_of, call_next, TakesBlock};
ghost use Rattle.mixed.specs.Rows.{row_fault, row_of};

use answers::{Refusal, Unwritten};
use format::Form;
use source::Totals;
use trace::Block;
use trace::read::{fault_of, read_block};

mod counting;
mod finding;
mod rows;
mod soundness;
mod words;

// The source of an SSRC, with its jumps and restarts.
#[derive(Clone, Copy)]
pub struct Line {
    pub ssrc: u32,
    pub totals: Totals,
}

// What is kept between blocks beside the lent lines: the form, the length of the label in block 0, and how many lines are held.
#[derive(Clone, Copy)]
pub struct Run {
    pub form: Form,
    pub length: usize,
    pub held: usize,
}

// The answer to a later block: a writer's that has no bytes to write, and the next run, or with a refusal the run that was given.
#[derive(Clone, Copy)]
pub struct Step {
    pub answer: Result<usize, Unwritten>,
    pub run: Run,
}

impl Run {
    // The most lines, and the words that they need.
    pub const MOST: usize = 16;

    pub const WORDS: usize = 208;

    // Takes block 0, which must be a label block; its SSRC binds nothing. Refusals: 1, 13 and 14, as `read_block` gives them, and 14 for arrivals.
    pub fn start(zeroth: &[u8]) -> Result<Run, Refusal>
        ensures { result ≡ start_of zeroth.now }
    {
        match read_block(zeroth) {
            Ok(Block::Label { form, length, .. }) => Ok(Run {
                form,
                length,
                held: 0,
            }),
            other => Err(fault_of(other)),
        }
    }

    // Takes a later block, which must hold arrivals of the label's form: they are counted in the line of their SSRC. Refusals: 9 a malformed run or too few
    // words; 1, 13 and 14, as `read_block` gives them, and 14 for a label or another form; 9 a malformed line of that SSRC; 15 a seventeenth SSRC.
    pub fn block(self, lines: &mut [u64], block: &[u8]) -> Step
        ensures { TakesBlock self lines.old (call_next self lines.old block.now) result lines.new }
    {
        match counting::next(self, lines, block) {
            Ok(run) => Step { answer: Ok(0), run },
            Err(refusal) => Step {
                answer: Err(Unwritten::Refused(refusal)),
                run: self,
            },
        }
    }

    // Writes the row of line i at the front of out. `zeroth` is block 0. Refusals: 9 a malformed run, too few words, a block 0 that is not its own or a
    // malformed line; 10 no such line; 12 output too small, with the row's length.
    pub fn row(
        self,
        i: usize,
        lines: &[u64],
        zeroth: &[u8],
        out: &mut [u8],
    ) -> Result<usize, Unwritten>
        ensures { Wrote (row_fault self i lines.now zeroth.now) (row_of self i lines.now zeroth.now) out.old result out.new }
    {
        if !soundness::is_sound(self, lines) {
            return Err(Unwritten::Refused(Refusal::Malformed));
        }
        if !soundness::is_own(self, zeroth) {
            return Err(Unwritten::Refused(Refusal::Malformed));
        }
        if self.held <= i {
            return Err(Unwritten::Refused(Refusal::Limits));
        }
        rows::write(self, i, lines, zeroth, out)
    }
}
