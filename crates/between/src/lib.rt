// What came between two ECN reports of one receiver about one source, as the breaker's report takes it (document 01, "Counting arrivals"; 02,
// request L2): L packets lost, C marked with CE, of E expected. A report carries totals from the source's first packet on, modulo their width;
// their differences are the true ones where these are in range and the receiver did not begin to count anew in between. The later report stands
// first, as in "the later counter minus the earlier one".
#![tactic(auto)]

ghost use Rattle.std.specs.Prelude.{◌≡◌};
ghost use Rattle.between.specs.Differences.{signals_of, expecting_of, between_as, between_of};

use answers::Refusal;
use breaker::EcnCounts;
use format::Counts;
use numbers::since;
use rtcp::Feedback;

mod calls;

pub use calls::{Call, Kept, PacketCall, call_for, counters_of};

// The signs of congestion between two reports: L and C. There is no E here, since a summary has no highest number.
#[derive(Clone, Copy)]
pub struct Signals {
    pub lost: i64,
    pub marked: u64,
}

// A difference of 32 bits from here on is one of a number that went back.
const BACK: u32 = 2147483648;

impl Signals {
    // L, C and E, by the highest numbers that go with the two reports: of a feedback its own, of a summary that of the report block beside it
    // (RFC 6679, section 5.2).
    pub fn expecting(self, later: u32, earlier: u32) -> Result<EcnCounts, Refusal>
        ensures value { result ≡ expecting_of self later earlier }
        ensures numbered { between_as result ≡ between_as (expecting_of self later earlier) }
    {
        let expected = since::since32(later, earlier);
        if BACK <= expected {
            return Err(Refusal::Limits);
        }
        Ok(EcnCounts {
            lost: self.lost,
            marked: self.marked,
            expected: u64::from(expected),
        })
    }
}

// L and C between the counters of two reports, summaries or feedbacks.
pub fn counters(later: Counts, earlier: Counts) -> Signals
    ensures { result ≡ signals_of later earlier }
{
    Signals {
        lost: i64::from(since::lost_since(later.lost, earlier.lost)),
        marked: u64::from(since::since16(later.ce, earlier.ce)),
    }
}

// L, C and E between two feedbacks.
pub fn feedbacks(later: Feedback, earlier: Feedback) -> Result<EcnCounts, Refusal>
    ensures value { result ≡ between_of later earlier }
    ensures numbered { between_as result ≡ between_as (between_of later earlier) }
{
    counters(later.counts, earlier.counts).expecting(later.highest, earlier.highest)
}
