// A later block of a conversion that was found sound.
ghost use Rattle.std.specs.Prelude.{◌≡◌, true};
ghost use Rattle.trace.specs.declared.Block.{Block};
ghost use Rattle.trace.specs.Reading.{block_of};
ghost use Rattle.forms.specs.Conversions.{sound, next_of, TakesBlock};

use crate::moving::all_times;
use crate::packing::arrivals;
use crate::{Conversion, Step};
use answers::{Refusal, Unwritten};
use format::block::{BODY, CHECK};
use trace::places::read_own;

// A refusal, with the conversion that was given.
pub fn refused(c: Conversion, refusal: Refusal) -> Step
    ensures { result ≡ record { answer = Err (Unwritten.Refused refusal); conversion = c } }
{
    Step {
        answer: Err(Unwritten::Refused(refusal)),
        conversion: c,
    }
}

// Takes the n arrivals of a block, unless a time needs form 2.
fn timed(c: Conversion, part: &mut [u8], n: usize, block: &[u8], out: &mut [u8]) -> Step
    requires { (sound c part.old ≡ true) × (block_of block.now ≡ Ok (Block.Arrivals c.form n c.ssrc)) }
    ensures { TakesBlock c part.old (next_of c.form c.ssrc block.now) out.old result part.new out.new }
{
    let body = &block[BODY..CHECK];
    if !all_times(c.form, n, body) {
        return refused(c, Refusal::FormTwo);
    }
    arrivals(c, part, n, body, out)
}

// Takes a block of a sound conversion's trace.
pub fn step(c: Conversion, part: &mut [u8], block: &[u8], out: &mut [u8]) -> Step
    requires { sound c part.old ≡ true }
    ensures { TakesBlock c part.old (next_of c.form c.ssrc block.now) out.old result part.new out.new }
{
    match read_own(c.form, c.ssrc, block) {
        Ok(count) => timed(c, part, count, block, out),
        Err(refusal) => refused(c, refusal),
    }
}
