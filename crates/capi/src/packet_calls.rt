// Which of the breaker's calls a packet is for, for C.
ghost use Rattle.capi.specs.PacketWords.{CallsFor};

use answers::{ROOM, Refusal};
use between::call_for;
use lent::{call_words, compound_words, kept_words};

// The call for the packet in the 25 words that flasknib_read_compound gave, where `kept` is of its receiver. Gives 0, 6 words at the front of `call`,
// and what is kept then in the place of what was; or refusal 9 for other words, or 12 where `call` has fewer.
pub fn flasknib_breaker_call(found: &[u64], kept: &mut [u64], call: &mut [u64]) -> u8
    ensures { CallsFor found.now kept.old call.old result kept.new call.new }
{
    let Some(packet) = compound_words::load(found) else {
        return Refusal::Malformed.number();
    };
    let Some(earlier) = kept_words::load(kept) else {
        return Refusal::Malformed.number();
    };
    if call.len() < call_words::WORDS {
        return ROOM;
    }
    let next = call_for(packet, earlier);
    let which = next.call;
    let later = next.kept;
    call_words::store(which, call);
    kept_words::store(later, kept);
    0
}
