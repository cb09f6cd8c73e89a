// Extended numbers. They are signed; each function here makes them unsigned at once.
ghost use Rattle.std.specs.Prelude.{◌≡◌, ◌^◌, ◌<◌, T, pos, nat_abs, ◌+ℤ◌};
ghost use Rattle.std.specs.Int.Signed.{non_neg, le_z};
ghost use Rattle.numbers.specs.Integers.{eq_z};
ghost use Rattle.source.specs.Arrivals.{distance, extended};

use crate::Extended;
use format::Wire;

// Whether e is 0.
pub fn is_zero(e: Extended) -> bool
    ensures { result ≡ eq_z e.0 (pos 0) }
{
    e.0 == 0
}

// Whether a is at most b.
pub fn le(a: Extended, b: Extended) -> bool
    ensures { result ≡ le_z a.0 b.0 }
{
    a.0 <= b.0
}

// A number that is not negative.
pub fn natural(e: Extended) -> u64
    requires { T (non_neg e.0) }
    ensures { e.0 ≡ pos result }
{
    e.0 as u64
}

// The wire number minus the highest, modulo 65,536.
pub fn distance(highest: Extended, wire: Wire) -> u64
    requires { T (non_neg highest.0) }
    ensures { result ≡ distance highest wire }
{
    (u64::from(wire.0) + 65536 - natural(highest) % 65536) % 65536
}

// The number d above e.
pub fn plus(e: Extended, d: u64) -> Extended
    requires { T (non_neg e.0) × (d < 65536) × (nat_abs e.0 < 2 ^ 62) }
    ensures { result ≡ extended (e.0 +ℤ pos d) }
{
    Extended((natural(e) + d) as i64)
}
