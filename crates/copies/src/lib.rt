// The blocks that a copying program prints as they stand (02, requests L11 and L14): the sound blocks at the front of a piece of a trace.
#![tactic(auto)]

ghost use Rattle.std.specs.Prelude.{◌≡◌};
ghost use Rattle.copies.specs.Fronts.{front_of};

use answers::Refusal;
use format::Form;
use format::block::BLOCK;
use trace::places::read_own;

// How many bytes at the front of a piece are sound blocks, and whether the next whole block was refused.
#[derive(Clone, Copy)]
pub struct Front {
    pub bytes: usize,
    pub ended: Option<Refusal>,
}

// The whole blocks at the front of a piece that are blocks of the trace, arrivals of the label's form and SSRC: to the last, or to the first that is refused
// (13 or 14), whose refusal is given.
pub fn sound_front(form: Form, ssrc: u32, piece: &[u8]) -> Front
    ensures { result ≡ front_of form ssrc piece.now }
{
    let mut at = 0;
    // A loop with a step of its own: after `chunks_exact` the bytes of all whole blocks would have to be counted again.
    while BLOCK <= piece.len() - at {
        let end = at + BLOCK;
        let read = read_own(form, ssrc, &piece[at..end]);
        if let Err(refusal) = read {
            return Front {
                bytes: at,
                ended: Some(refusal),
            };
        }
        at = end;
    }
    Front {
        bytes: at,
        ended: None,
    }
}
