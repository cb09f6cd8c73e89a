// Block 0 of a trace, written again. It makes no new label, so a retired byte is not refused here.
ghost use Rattle.answers.specs.Writers.{Wrote};
ghost use Rattle.std.specs.Prelude.{◌≡◌};
ghost use Rattle.trace.specs.Numbered.{spaced_as};
ghost use Rattle.trace.specs.Places.{zeroth_of};
ghost use Rattle.trace.specs.Rewriting.{zeroth_fault, block_as, spaced_of, Spaces};

use crate::Zeroth;
use crate::parts::{put_label, put_spaced_label};
use crate::places::read_label;
use answers::Unwritten;
use format::Form;
use format::block::BODY;

// Writes the label and the SSRC of block 0 as a label block of the given form at the front of out. Refusals: 1, 13 and 14, as `read_label` gives them; 12 an
// output under 512 bytes.
pub fn write_label_as(form: Form, zeroth: &[u8], out: &mut [u8]) -> Result<usize, Unwritten>
    ensures { Wrote (zeroth_fault (zeroth_of zeroth.now)) (block_as form zeroth.now (zeroth_of zeroth.now)) out.old result out.new }
{
    match read_label(zeroth) {
        Ok(
            Zeroth {
                form: _,
                length,
                ssrc,
            },
        ) => {
            let end = BODY + length;
            put_label(form, &zeroth[BODY..end], ssrc, out)
        }
        Err(refusal) => Err(Unwritten::Refused(refusal)),
    }
}

// Writes block 0 in its own form at the front of out, with one space in the place of each retired byte of its label, and answers how many were replaced.
// Refusals: 1, 13 and 14, as `read_label` gives them; 12 an output under 512 bytes.
pub fn space_label(zeroth: &[u8], out: &mut [u8]) -> Result<usize, Unwritten>
    ensures spaces { Spaces zeroth.now out.old result out.new }
    ensures numbered { spaced_as result ≡ spaced_as (spaced_of zeroth.now out.old) }
{
    match read_label(zeroth) {
        Ok(Zeroth { form, length, ssrc }) => {
            let end = BODY + length;
            put_spaced_label(form, &zeroth[BODY..end], ssrc, out)
        }
        Err(refusal) => Err(Unwritten::Refused(refusal)),
    }
}
