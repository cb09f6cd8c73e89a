// What came between two ECN reports, for C.
ghost use Rattle.capi.specs.CompoundCalls.{TellsBetween};

// What came between two ECN reports, the later and the earlier one. Gives 0 and 3 words at the front of `counts`, or refusal 10, or 12 where
// `counts` has fewer words.
#[unsafe(no_mangle)]
pub extern "C" fn flasknib_ecn_between(
    later_highest: u32,
    later_ce: u16,
    later_lost: u16,
    earlier_highest: u32,
    earlier_ce: u16,
    earlier_lost: u16,
    counts: &mut [u64],
) -> u8
    ensures { TellsBetween later_highest later_ce later_lost earlier_highest earlier_ce earlier_lost counts.old result counts.new }
{
    capi::ecn::flasknib_ecn_between(
        later_highest,
        later_ce,
        later_lost,
        earlier_highest,
        earlier_ce,
        earlier_lost,
        counts,
    )
}
