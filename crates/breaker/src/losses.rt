// The fraction lost that a report's losses give.
ghost use Rattle.std.specs.Prelude.{◌≡◌, true, ◌*◌, ◌/◌, ◌^◌, ◌≤◌, ◌<◌};
ghost use Rattle.breaker.specs.Limits.{counts_ok, loss_ok};
ghost use Rattle.breaker.specs.FractionLost.{at_least_zero, counts_fraction, fraction_of};

use crate::{Breaker, EcnCounts, Loss};

// The packets lost, none where the number is negative.
fn at_least_zero(lost: i64) -> u64
    ensures { result ≡ at_least_zero lost }
{
    u64::try_from(lost).unwrap_or(0)
}

// n of e packets in 256ths, rounded down.
fn in_256ths(n: u64, e: u64) -> u64
    requires { (n < e) × (e ≤ 2 ^ 31) }
    ensures { result ≡ 256 * n / e }
{
    256 * n / e
}

// The fraction of ECN counts. Where as many packets are lost or marked as were expected, or more, it is the greatest.
fn of_counts(c: EcnCounts) -> u64
    requires { counts_ok c ≡ true }
    ensures { result ≡ counts_fraction c }
{
    if c.expected == 0 {
        return 0;
    }
    let congested = at_least_zero(c.lost) + c.marked;
    if c.expected <= congested {
        return Breaker::MAX_FRACTION;
    }
    in_256ths(congested, c.expected)
}

// The fraction of a report.
pub fn fraction_of(loss: Loss) -> u64
    requires { loss_ok loss ≡ true }
    ensures { result ≡ fraction_of loss }
{
    match loss {
        Loss::Fraction(f) => f,
        Loss::Counts(c) => of_counts(c),
    }
}
