// The limits of settings and reports.
ghost use Rattle.std.specs.Prelude.{◌≡◌};
ghost use Rattle.breaker.specs.Limits.{within, settings_ok, counts_ok, loss_ok, report_ok};

use crate::{Breaker, EcnCounts, Loss, Report, Settings};
use numbers::sign;

// Whether x is from low to high.
pub fn is_within(x: u64, low: u64, high: u64) -> bool
    ensures { result ≡ within low high x }
{
    low <= x && x <= high
}

// Whether the settings are in their limits.
#[tactic(auto, unfolding(crate::specs::Limits::settings_ok))]
pub fn settings_ok(s: Settings) -> bool
    ensures { result ≡ settings_ok s }
{
    is_within(s.k as u64, 1, Breaker::MAX_K as u64)
        && is_within(s.m, 1, Breaker::MAX_M)
        && is_within(s.timeout, 1, Breaker::MAX_TIMEOUT)
}

// Whether ECN counts are in their limits.
#[tactic(auto, unfolding(crate::specs::Limits::counts_ok))]
fn counts_ok(c: EcnCounts) -> bool
    ensures { result ≡ counts_ok c }
{
    sign::magnitude(c.lost) <= Breaker::MAX_PACKETS
        && c.marked <= Breaker::MAX_PACKETS
        && c.expected <= Breaker::MAX_PACKETS
}

// Whether a report's losses are in their limits.
fn loss_ok(loss: Loss) -> bool
    ensures { result ≡ loss_ok loss }
{
    match loss {
        Loss::Fraction(f) => f <= Breaker::MAX_FRACTION,
        Loss::Counts(c) => counts_ok(c),
    }
}

// Whether a report's numbers are in their limits.
#[tactic(auto, unfolding(crate::specs::Limits::report_ok))]
pub fn report_ok(r: Report) -> bool
    ensures { result ≡ report_ok r }
{
    r.time < Breaker::TIME_LIMIT
        && loss_ok(r.loss)
        && r.rtt <= Breaker::MAX_RTT
        && is_within(r.size, 1, Breaker::MAX_SIZE)
        && r.rate <= Breaker::MAX_RATE
}
