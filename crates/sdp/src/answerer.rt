// An offer is answered: RFC 6679, section 6.1.1; document 02, request L12.
ghost use Rattle.std.specs.Prelude.{◌≡◌, ◌≤◌};
ghost use Rattle.sdp.specs.Writing.{methods_in};
ghost use Rattle.sdp.specs.Numbered.{negotiated_as};
ghost use Rattle.sdp.specs.Answers.{names, both_one_way, first_in, answer_of};

use crate::{Attribute, Chosen, Method, Mode};
use answers::Refusal;

// Whether both sides are setonly, or both readonly.
fn is_both_one_way(theirs: Mode, own: Mode) -> bool
    ensures { result ≡ both_one_way theirs own }
{
    theirs == own && own != Mode::SetRead
}

// Whether a record of at most eight methods names one.
fn is_named(a: Attribute, m: Method) -> bool
    requires { a.used ≤ 8 }
    ensures { result ≡ names (methods_in a) m }
{
    a.methods[..a.used].contains(&m)
}

// Our first method that the offer names, with our mode and our ect.
fn first_common(offer: Attribute, ours: Attribute) -> Option<Chosen>
    requires { (offer.used ≤ 8) × (ours.used ≤ 8) }
    ensures { result ≡ first_in (methods_in offer) (methods_in ours) ours }
{
    for &method in &ours.methods[..ours.used] {
        if is_named(offer, method) {
            return Some(Chosen {
                method,
                mode: ours.mode,
                ect: ours.ect,
            });
        }
    }
    None
}

// The answer to an offer: our first method that the offer names, our mode and our ect. Left out where no method is common, or both sides only set or only read;
// 10 over 8 methods on either side.
#[tactic(auto, using(std::proofs::lemmas::Bool::Decides::nat_tests), unfolding(crate::specs::Answers::answer_of))]
pub fn answer(offer: Attribute, ours: Attribute) -> Result<Option<Chosen>, Refusal>
    ensures value { result ≡ answer_of offer ours }
    ensures numbered { negotiated_as result ≡ negotiated_as (answer_of offer ours) }
{
    if 8 < offer.used {
        return Err(Refusal::Limits);
    }
    if 8 < ours.used {
        return Err(Refusal::Limits);
    }
    // An absent mode is setread.
    let theirs = offer.mode.unwrap_or(Mode::SetRead);
    let own = ours.mode.unwrap_or(Mode::SetRead);
    if is_both_one_way(theirs, own) {
        return Ok(None);
    }
    Ok(first_common(offer, ours))
}
