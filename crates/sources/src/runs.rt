// One run of the program ecnstreams, block by block (document 02, L1): the arrivals blocks of a trace may differ in SSRC. The run is a table of 16 places, and
// beside it, in table order, jumped and restarts of each source. Block 0 holds the label; the caller keeps it, and lends it again for the rows.
ghost use Rattle.std.specs.Prelude.{◌≡◌};
ghost use Rattle.answers.specs.Writers.{Wrote};
ghost use Rattle.sources.specs.Tallies.{no_tally};
ghost use Rattle.sources.specs.Runs.{empty_run, start_of, call_next, TakesBlock};
ghost use Rattle.sources.specs.Rows.{row_fault, row_of};

use crate::{Table, judging, rows, stepping};
use answers::Unwritten;
use format::Form;
use trace::places::read_label;

// Jumped and restarts of one source.
#[derive(Clone, Copy)]
pub struct Tally {
    pub jumped: u64,
    pub restarts: u64,
}

// What is kept between blocks: the form, the length of the label in block 0, the table, and the tallies of its places.
#[derive(Clone, Copy)]
pub struct Run {
    pub form: Form,
    pub length: usize,
    pub table: Table,
    pub tallies: [Tally; 16],
}

// The answer to a block: a writer's that has no bytes to write, and the next run, or with a refusal the run that was given (for block 0 an empty one).
#[derive(Clone, Copy)]
pub struct Step {
    pub answer: Result<usize, Unwritten>,
    pub run: Run,
}

impl Tally {
    // Of a source that is new.
    pub fn fresh() -> Tally
        ensures { result ≡ no_tally }
    {
        Tally {
            jumped: 0,
            restarts: 0,
        }
    }
}

impl Run {
    // The run without a source yet.
    pub fn empty(form: Form, length: usize) -> Run
        ensures { result ≡ empty_run form length }
    {
        let table = Table::empty(Table::MOST);
        let tally = Tally::fresh();
        Run {
            form,
            length,
            table,
            tallies: [tally; 16],
        }
    }

    // Takes block 0, which must be a label block; its SSRC binds nothing. Refusals: 1, 13 and 14, as `read_block` gives them, and 14 for arrivals.
    pub fn start(zeroth: &[u8]) -> Step
        ensures { result ≡ start_of zeroth.now }
    {
        match read_label(zeroth) {
            Ok(label) => stepping::taken(Run::empty(label.form, label.length)),
            Err(refusal) => stepping::refused(Run::empty(Form::One, 0), refusal),
        }
    }

    // Takes a later block, which must hold arrivals of the label's form: they are counted in the place of their SSRC. Refusals: 16 held places against the
    // rules of a table; 9 a malformed record, tally or run; 1, 13 and 14, as `read_block` gives them, and 14 for a label or another form; 15 a seventeenth SSRC.
    pub fn block(self, block: &[u8]) -> Step
        ensures { TakesBlock self (call_next self block.now) result }
    {
        match judging::judge(self) {
            Err(refusal) => stepping::refused(self, refusal),
            Ok(_) => stepping::step(self, block),
        }
    }

    // Writes the row of line i, which stands in place i, at the front of out. `zeroth` is block 0. Refusals: 16 held places against the rules of a table; 9 a
    // malformed record, tally or run, or a block 0 that is not its own; 10 no such line; 12 output too small, with the row's length.
    pub fn row(self, i: usize, zeroth: &[u8], out: &mut [u8]) -> Result<usize, Unwritten>
        ensures { Wrote (row_fault self i zeroth.now) (row_of self i zeroth.now) out.old result out.new }
    {
        rows::write(self, i, zeroth, out)
    }
}
