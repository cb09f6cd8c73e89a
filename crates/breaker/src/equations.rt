// The throughput equations: whether the rate is above ten times the throughput, by the one that the settings name.
ghost use Rattle.std.specs.Prelude.{◌≡◌, true, map, ◌≤◌};
ghost use Rattle.answers.specs.Conditions.{all};
ghost use Rattle.roots.specs.FullCondition.{full_condition};
ghost use Rattle.breaker.specs.Limits.{settings_ok, report_ok};
ghost use Rattle.breaker.specs.Condition.{condition};
ghost use Rattle.breaker.specs.Rules.{last_intervals, holds};
ghost use Rattle.breaker.specs.Private.{interval_ok, SumsOk};

use crate::intervals::Sums;
use crate::{Report, Settings, Window, intervals};
use roots;
use wide::Wide;

// Ten times the simplified equation, squared: 10^2 · 1000^2 · 256 · 3 / 2, for a round trip in ms and fractions in 256ths.
const SCALE: u64 = 38_400_000_000;

// Ten times the full equation: 10 · 1000, for a round trip in ms.
const FULL_SCALE: u64 = 10_000;

// The scale of the full equation's denominator, 2^50.
const DENOMINATOR_SCALE: u64 = 1_125_899_906_842_624;

// Whether the condition of the simplified equation holds: two products of two words.
fn above_simplified(sums: Sums, r: Report) -> bool
    requires { SumsOk sums × (report_ok r ≡ true) }
    ensures { result ≡ condition r.rate r.rtt sums.p r.size sums.w }
{
    let left = Wide::product(r.rate * r.rtt * r.rtt, r.rate * sums.p);
    let right = Wide::product(SCALE * sums.w, r.size * r.size);
    left.above(right)
}

// Whether that of the full equation holds, at p rounded down to n / 1024.
fn above_full(sums: Sums, r: Report) -> bool
    requires { SumsOk sums × (report_ok r ≡ true) }
    ensures { result ≡ full_condition r.rate r.rtt sums.p r.size sums.w }
{
    let n = 4 * sums.p / sums.w;
    let left = Wide::product(r.rate * r.rtt, roots::scaled_denominator(n));
    left.above(Wide::product(FULL_SCALE * r.size, DENOMINATOR_SCALE))
}

// Whether the condition holds over the last k intervals.
pub fn exceeds(settings: Settings, window: Window, r: Report) -> bool
    requires { (settings_ok settings ≡ true) × (all (map interval_ok (last_intervals settings window)) ≡ true) × (report_ok r ≡ true) }
    ensures { result ≡ holds settings window r }
{
    let sums = intervals::summed(&window.intervals[..settings.k]);
    if settings.full {
        above_full(sums, r)
    } else {
        above_simplified(sums, r)
    }
}
