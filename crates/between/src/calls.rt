// Which of the breaker's calls a packet is for (RFC 8083, section 5; document 02, requests L2 and L4), and what is kept of its receiver.
ghost use Rattle.std.specs.Prelude.{◌≡◌};
ghost use Rattle.between.specs.Differences.{between_as};
ghost use Rattle.between.specs.PacketCalls.{kept_of, counters_given, since_kept, ecn_report_of, kept_after, counts_since, highest_in, call_of, call_for};

use crate::counters;
use answers::Refusal;
use breaker::{EcnCounts, Loss};
use format::Counts;
use rtcp::Compound;

// What is kept of a receiver's last ECN report: its highest number, packets marked with CE and packets lost, as it carried them.
#[derive(Clone, Copy)]
pub struct Kept {
    pub highest: u32,
    pub ce: u16,
    pub lost: u16,
}

// Which of the breaker's calls a packet is for: a report of the highest number, with its losses, or a heard packet.
#[derive(Clone, Copy)]
pub enum Call {
    Report(u32, Loss),
    Heard,
}

// The call, and what is kept of the receiver after it.
#[derive(Clone, Copy)]
pub struct PacketCall {
    pub call: Call,
    pub kept: Option<Kept>,
}

// What the first ECN report comes with.
const NONE: EcnCounts = EcnCounts {
    lost: 0,
    marked: 0,
    expected: 0,
};

// The counters of an ECN report that tell of congestion; the others play no part.
pub fn counters_of(ce: u16, lost: u16) -> Counts
    ensures { result ≡ counters_given ce lost }
{
    Counts {
        ect0: 0,
        ect1: 0,
        ce,
        notect: 0,
        lost,
        duplicates: 0,
    }
}

impl Kept {
    // L, C and E since an earlier report.
    pub fn since(self, earlier: Kept) -> Result<EcnCounts, Refusal>
        ensures value { result ≡ since_kept self earlier }
        ensures numbered { between_as result ≡ between_as (since_kept self earlier) }
    {
        let new = counters_of(self.ce, self.lost);
        let old = counters_of(earlier.ce, earlier.lost);
        counters(new, old).expecting(self.highest, earlier.highest)
    }
}

// What is kept of an ECN report.
fn kept_of(highest: u32, counts: Counts) -> Kept
    ensures { result ≡ kept_of highest counts }
{
    Kept {
        highest,
        ce: counts.ce,
        lost: counts.lost,
    }
}

// The ECN report in a packet: of the feedback, else of a summary entry with the highest number of the report block beside it.
fn ecn_report_of(packet: Compound) -> Option<Kept>
    ensures { result ≡ ecn_report_of packet }
{
    if let Some(f) = packet.feedback {
        return Some(kept_of(f.highest, f.counts));
    }
    let counts = packet.summary?;
    let block = packet.report?;
    Some(kept_of(block.highest, counts))
}

// What is kept after a packet: its ECN report, else the earlier one. One without SR or RR keeps nothing anew.
#[tactic(auto, unfolding(crate::specs::PacketCalls::kept_after))]
fn kept_after(packet: Compound, earlier: Option<Kept>) -> Option<Kept>
    ensures { result ≡ kept_after packet earlier }
{
    if packet.reporting {
        ecn_report_of(packet).or(earlier)
    } else {
        earlier
    }
}

// The counts between two reports, if there are any.
fn counts_since(later: Option<Kept>, earlier: Option<Kept>) -> Option<EcnCounts>
    ensures { result ≡ counts_since later earlier }
{
    later?.since(earlier?).ok()
}

// The highest number: the report block's where there is one, else the feedback's.
fn highest_in(packet: Compound) -> u32
    ensures { result ≡ highest_in packet }
{
    match packet.report {
        Some(block) => block.highest,
        None => packet.feedback.map_or(0, |f| f.highest),
    }
}

// The call: the first rule that holds.
fn call_of(packet: Compound, earlier: Option<Kept>) -> Call
    ensures { result ≡ call_of packet earlier }
{
    if !packet.reporting {
        return Call::Heard;
    }
    let highest = highest_in(packet);
    let new = ecn_report_of(packet);
    if let Some(counts) = counts_since(new, earlier) {
        return Call::Report(highest, Loss::Counts(counts));
    }
    if let Some(block) = packet.report {
        return Call::Report(highest, Loss::Fraction(u64::from(block.fraction)));
    }
    match new {
        Some(_) => Call::Report(highest, Loss::Counts(NONE)),
        None => Call::Heard,
    }
}

// The call that a packet is for, where `kept` is of the receiver's packets before it; and what is kept then.
pub fn call_for(packet: Compound, kept: Option<Kept>) -> PacketCall
    ensures { result ≡ call_for packet kept }
{
    PacketCall {
        call: call_of(packet, kept),
        kept: kept_after(packet, kept),
    }
}
