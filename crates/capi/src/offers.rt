// An offer of the attribute ecn-capable-rtp, answered, for C.
ghost use Rattle.capi.specs.AttributeCalls.{Tells, AnswersOffer};

use answers::{ROOM, Refusal};
use lent::attribute_words;
use sdp::Chosen;
use sdp::answerer::answer;

// What flasknib_answer gives where the attribute is left out of the answer. It is no refusal.
const LEFT_OUT: u8 = 129;

// Stores what is answered.
fn put_negotiated(told: Result<Option<Chosen>, Refusal>, found: &mut [u64]) -> u8
    ensures { Tells told found.old result found.new }
{
    match told {
        Err(refusal) => refusal.number(),
        Ok(included) => match included {
            None => LEFT_OUT,
            Some(chosen) => {
                if found.len() < attribute_words::WORDS {
                    return ROOM;
                }
                attribute_words::store(chosen.attribute(), found);
                0
            }
        },
    }
}

// Answers an offer by our abilities, 11 words each. Gives 0 and 11 words at the front of `found`, or 129, with no word changed, where the attribute is left
// out; or refusal 9 for words that are no record, 10 for over 8 methods, or 12 where `found` has fewer words.
pub fn flasknib_answer(offer: &[u64], ours: &[u64], found: &mut [u64]) -> u8
    ensures { AnswersOffer offer.now ours.now found.old result found.new }
{
    let Some(offered) = attribute_words::load(offer) else {
        return Refusal::Malformed.number();
    };
    match attribute_words::load(ours) {
        None => Refusal::Malformed.number(),
        Some(able) => put_negotiated(answer(offered, able), found),
    }
}
