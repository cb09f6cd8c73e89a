// What came between two ECN reports, for C.
ghost use Rattle.capi.specs.CompoundCalls.{TellsBetween};

use answers::ROOM;
use between::Kept;
use lent::ecn_words;

// What came between two ECN reports, the later and the earlier one. Gives 0 and 3 words at the front of `counts`, or refusal 10, or 12 where
// `counts` has fewer words.
pub fn flasknib_ecn_between(
    later_highest: u32,
    later_ce: u16,
    later_lost: u16,
    earlier_highest: u32,
    earlier_ce: u16,
    earlier_lost: u16,
    counts: &mut [u64],
) -> u8
    ensures { TellsBetween later_highest later_ce later_lost earlier_highest earlier_ce earlier_lost counts.old result counts.new }
{
    let later = Kept {
        highest: later_highest,
        ce: later_ce,
        lost: later_lost,
    };
    let earlier = Kept {
        highest: earlier_highest,
        ce: earlier_ce,
        lost: earlier_lost,
    };
    match later.since(earlier) {
        Err(refusal) => refusal.number(),
        Ok(c) => {
            if counts.len() < ecn_words::WORDS {
                return ROOM;
            }
            ecn_words::store(c, counts);
            0
        }
    }
}
