// A trace converted to the other form (request L10): block by block here, and over pieces of a trace in `pieces`. The records of a block that is not full yet
// stand in a part that the caller lends to each call.
#![tactic(auto)]

ghost use Rattle.std.specs.Prelude.{◌≡◌};
ghost use Rattle.answers.specs.Writers.{Wrote};
ghost use Rattle.forms.specs.Numbered.{begin_as};
ghost use Rattle.forms.specs.Conversions.{begin_of, Began, call_next, TakesBlock, close_fault, close_bytes};

mod moving;
mod packing;
pub mod pieces;
mod soundness;
mod taking;

use answers::{Refusal, Unwritten};
use format::Form;
use trace::places::read_label;
use trace::rewrite::write_label_as;
use trace::write::write_records;

// What is kept between blocks beside the lent part: the trace's own form, its SSRC, and how many records the part holds in the other form.
#[derive(Clone, Copy)]
pub struct Conversion {
    pub form: Form,
    pub ssrc: u32,
    pub held: usize,
}

// The answer to a later block: what the writer of the blocks that are full says, and the next conversion where they were written, else the one that was given.
#[derive(Clone, Copy)]
pub struct Step {
    pub answer: Result<usize, Unwritten>,
    pub conversion: Conversion,
}

impl Conversion {
    // Takes block 0, which must be a label block, and writes it in the other form at the front of out. Refusals: 1, 13 and 14, as `read_label` gives them;
    // 12 output too small.
    pub fn start(zeroth: &[u8], out: &mut [u8]) -> Result<(Conversion, usize), Unwritten>
        ensures began { Began zeroth.now out.old result out.new }
        ensures numbered { begin_as result ≡ begin_as (begin_of zeroth.now out.old) }
    {
        let label = read_label(zeroth)?;
        let n = write_label_as(label.form.other(), zeroth, out)?;
        let conversion = Conversion {
            form: label.form,
            ssrc: label.ssrc,
            held: 0,
        };
        Ok((conversion, n))
    }

    // Takes a later block, which must hold arrivals of the label's form and SSRC: its records go behind those in the part, the blocks that are full with them are
    // written at the front of out, and the records left over stay in the part. Refusals: 9 a malformed conversion or part; 1, 13 and 14, as `read_own`
    // gives them; 17 a time that needs form 2; 12 output too small, with the blocks' length.
    pub fn block(self, part: &mut [u8], block: &[u8], out: &mut [u8]) -> Step
        ensures { TakesBlock self part.old (call_next self part.old block.now) out.old result part.new out.new }
    {
        if !soundness::is_sound(self, part) {
            return taking::refused(self, Refusal::Malformed);
        }
        taking::step(self, part, block, out)
    }

    // Writes the records in the part, if there are any, as a last block at the front of out. Refusals: 9 a malformed conversion or part; 12 output too small.
    pub fn close(self, part: &[u8], out: &mut [u8]) -> Result<usize, Unwritten>
        ensures { Wrote (close_fault self part.now) (close_bytes self part.now) out.old result out.new }
    {
        if !soundness::is_sound(self, part) {
            return Err(Unwritten::Refused(Refusal::Malformed));
        }
        if self.held == 0 {
            return Ok(0);
        }
        let to = self.form.other();
        let end = self.held * to.width();
        write_records(to, &part[..end], self.ssrc, out)
    }
}
