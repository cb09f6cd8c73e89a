// Whether a record is sound.
ghost use Rattle.std.specs.Prelude.{◌≡◌, ◌&&◌, map, ◌≤◌};
ghost use Rattle.answers.specs.Conditions.{all};
ghost use Rattle.breaker.specs.Windows.{fraction_ok, length_ok, is_zero, in_use, unused};
ghost use Rattle.breaker.specs.Private.{interval_ok};
ghost use Rattle.breaker.specs.Soundness.{run_ok, number_ok, sound};

use crate::{Breaker, Interval, State, Window, limits};

// Whether the media run is below m while the breaker runs.
fn run_ok(state: State, run: u64, m: u64) -> bool
    ensures { result ≡ run_ok state run m }
{
    match state {
        State::Running => run < m,
        State::Stopped(_) => true,
    }
}

// Whether there is no number before the first report.
fn number_ok(reported: bool, highest: u32) -> bool
    ensures { result ≡ number_ok reported highest }
{
    reported || highest == 0
}

// Whether an interval is in its limits.
fn is_in_limits(x: &Interval) -> bool
    ensures { result ≡ interval_ok x.now }
{
    limits::is_within(x.length, 1, Breaker::MAX_LENGTH) && x.fraction <= Breaker::MAX_FRACTION
}

// Whether a place is as one that is not in use.
fn is_zero(x: &Interval) -> bool
    ensures { result ≡ is_zero x.now }
{
    x.length == 0 && x.fraction == 0
}

// Whether the places in use hold fractions and lengths in their limits.
fn used_ok(window: Window) -> bool
    requires { window.used ≤ 32 }
    ensures { result ≡ (all (map fraction_ok (in_use window)) && all (map length_ok (in_use window))) }
{
    window.intervals[..window.used]
        .iter()
        .all(|x| is_in_limits(x))
}

// Whether the other places are zero.
fn rest_ok(window: Window) -> bool
    requires { window.used ≤ 32 }
    ensures { result ≡ all (map is_zero (unused window)) }
{
    window.intervals[window.used..].iter().all(|x| is_zero(x))
}

// Whether the record is sound.
#[tactic(auto, using(crate::proofs::Facts::k_high), unfolding(crate::specs::Soundness::sound))]
pub fn is_sound(b: Breaker) -> bool
    ensures { result ≡ sound b }
{
    limits::settings_ok(b.settings)
        && run_ok(b.state, b.run, b.settings.m)
        && b.window.used <= b.settings.k
        && used_ok(b.window)
        && b.last < Breaker::TIME_LIMIT
        && b.heard < Breaker::TIME_LIMIT
        && rest_ok(b.window)
        && number_ok(b.reported, b.highest)
}
