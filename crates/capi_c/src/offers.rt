// An offer of the attribute ecn-capable-rtp, answered, for C.
ghost use Rattle.capi.specs.AttributeCalls.{AnswersOffer};

// Answers an offer by our abilities, 11 words each. Gives 0 and 11 words at the front of `found`, or 129, with no word changed, where the attribute is left
// out; or refusal 9 for words that are no record, 10 for over 8 methods, or 12 where `found` has fewer words.
#[unsafe(no_mangle)]
pub extern "C" fn flasknib_answer(offer: &[u64], ours: &[u64], found: &mut [u64]) -> u8
    ensures { AnswersOffer offer.now ours.now found.old result found.new }
{
    capi::offers::flasknib_answer(offer, ours, found)
}
