// The rules for a report, once the record is known to be sound and running and the report to be in its limits and later.
ghost use Rattle.std.specs.Prelude.{◌≡◌, ◌&&◌, not, min};
ghost use Rattle.breaker.specs.Private.{Accepted, tested};
ghost use Rattle.breaker.specs.Rules.{not_ahead, run_after, window_after, ruled};

use crate::{
    Answer, Breaker, Interval, Reason, Report, Step, Window, equations, intervals, losses,
};
use numbers::since;

// Whether a highest number is not ahead of the last one.
fn is_not_ahead(number: u32, last: u32) -> bool
    ensures { result ≡ not_ahead number last }
{
    let ahead = since::since32(number, last);
    ahead == 0 || 2147483648 <= ahead
}

// The media run with this report.
#[tactic(auto, unfolding(crate::specs::Rules::run_after))]
fn run_after(b: Breaker, r: Report) -> u64
    requires { Accepted b r }
    ensures { result ≡ run_after b r }
{
    if b.reported && is_not_ahead(r.highest, b.highest) {
        b.run + 1
    } else {
        0
    }
}

// An interval's length as it is stored.
fn stored_length(elapsed: u64) -> u64
    ensures { result ≡ min elapsed 10000000 }
{
    elapsed.min(Breaker::MAX_LENGTH)
}

// The window with the interval that this report closes.
fn window_after(b: Breaker, r: Report) -> Window
    requires { Accepted b r }
    ensures { result ≡ window_after b r }
{
    let x = Interval {
        length: stored_length(r.time - b.last),
        fraction: losses::fraction_of(r.loss),
    };
    intervals::pushed(b.window, x, b.settings.k)
}

// Whether a reduction is allowed and none is under trial.
fn may_reduce(allowed: bool, trial: bool) -> bool
    ensures { result ≡ (allowed && not trial) }
{
    allowed && !trial
}

// The congestion rule.
fn tested(b: Breaker, r: Report, run: u64) -> Step
    requires { Accepted b r }
    ensures { result ≡ tested b r run (window_after b r) }
{
    let window = window_after(b, r);
    if window.used < b.settings.k {
        return b.stored(r, run, b.trial, window).answered(Answer::Go);
    }
    if !equations::exceeds(b.settings, window, r) {
        return b.stored(r, run, false, window).answered(Answer::Go);
    }
    if may_reduce(b.settings.reduce, b.trial) {
        return b
            .stored(r, run, true, intervals::empty())
            .answered(Answer::Reduce);
    }
    b.stopped(Reason::Congestion)
}

// The rules in their order.
pub fn ruled(b: Breaker, r: Report) -> Step
    requires { Accepted b r }
    ensures { result ≡ ruled b r }
{
    if r.rate == 0 {
        return b
            .stored(r, 0, b.trial, intervals::empty())
            .answered(Answer::Go);
    }
    let run = run_after(b, r);
    if b.settings.timeout <= r.time - b.heard {
        return b.stopped(Reason::Timeout);
    }
    if b.settings.m <= run {
        return b.stopped(Reason::Media);
    }
    if !b.reported {
        return b.stored(r, run, b.trial, b.window).answered(Answer::Go);
    }
    tested(b, r, run)
}
