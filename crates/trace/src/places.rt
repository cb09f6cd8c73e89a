// What a block is at its place in a trace: block 0 holds the label, and each later one arrivals of the label's form and SSRC.
ghost use Rattle.std.specs.Prelude.{◌≡◌, ◌&&◌, ◌==◌};
ghost use Rattle.format.specs.Forms.{same_form};
ghost use Rattle.trace.specs.Numbered.{zeroth_as, later_as};
ghost use Rattle.trace.specs.Places.{zeroth_of, later_of};

use crate::read::{fault_of, read_block};
use crate::{Block, Zeroth};
use answers::Refusal;
use format::Form;

// Whether arrivals of a form and an SSRC are those of a trace of its own form and SSRC.
fn is_own(own: Form, number: u32, form: Form, ssrc: u32) -> bool
    ensures { result ≡ (same_form form own && ssrc == number) }
{
    if form.label() != own.label() {
        return false;
    }
    ssrc == number
}

// Reads block 0, which must be a label block. Refusals: 1, 13 and 14, as `read_block` gives them, and 14 for arrivals.
pub fn read_label(zeroth: &[u8]) -> Result<Zeroth, Refusal>
    ensures value { result ≡ zeroth_of zeroth.now }
    ensures numbered { zeroth_as result ≡ zeroth_as (zeroth_of zeroth.now) }
{
    match read_block(zeroth) {
        Ok(Block::Label { form, length, ssrc }) => Ok(Zeroth { form, length, ssrc }),
        other => Err(fault_of(other)),
    }
}

// Reads a later block, which must hold arrivals of the label's form and SSRC. Refusals: 1, 13 and 14, as `read_block` gives them, and 14 for a
// label, another form or another SSRC.
pub fn read_own(form: Form, ssrc: u32, block: &[u8]) -> Result<usize, Refusal>
    ensures value { result ≡ later_of form ssrc block.now }
    ensures numbered { later_as result ≡ later_as (later_of form ssrc block.now) }
{
    match read_block(block) {
        Ok(
            Block::Arrivals {
                form: its,
                count,
                ssrc: number,
            },
        ) => {
            if !is_own(form, ssrc, its, number) {
                return Err(Refusal::Contents);
            }
            Ok(count)
        }
        other => Err(fault_of(other)),
    }
}
