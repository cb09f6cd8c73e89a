// The window's intervals: their sums, and one interval more.
ghost use Rattle.std.specs.Prelude.{◌≡◌, true, map, ◌≤◌, length};
ghost use Rattle.answers.specs.Conditions.{all};
ghost use Rattle.breaker.specs.Windows.{empty_window, in_front, pushed};
ghost use Rattle.breaker.specs.Private.{interval_ok, sums_of};

use crate::{Interval, Window};

// W, the sum of the lengths, and P, the sum of each fraction times its length.
#[derive(Clone, Copy)]
pub struct Sums {
    pub w: u64,
    pub p: u64,
}

// A place that is not in use.
const ZERO: Interval = Interval {
    length: 0,
    fraction: 0,
};

// The window with no interval.
pub fn empty() -> Window
    ensures { result ≡ empty_window }
{
    Window {
        used: 0,
        intervals: [ZERO; 32],
    }
}

// The sums over at most 32 intervals.
pub fn summed(xs: &[Interval]) -> Sums
    requires { (length xs.now ≤ 32) × (all (map interval_ok xs.now) ≡ true) }
    ensures { result ≡ sums_of xs.now }
{
    let mut w = 0;
    let mut p = 0;
    for x in xs {
        w += x.length;
        p += x.fraction * x.length;
    }
    Sums { w, p }
}

// The intervals with x in front, of which the first k are kept.
fn in_front(x: Interval, xs: [Interval; 32], k: usize) -> [Interval; 32]
    requires { (1 ≤ k) × (k ≤ 32) }
    ensures { result ≡ in_front k x xs }
{
    let mut next = [ZERO; 32];
    next[0] = x;
    next[1..k].copy_from_slice(&xs[..k - 1]);
    next
}

// The window with one interval more, of which the last k are kept.
pub fn pushed(window: Window, x: Interval, k: usize) -> Window
    requires { (1 ≤ k) × (k ≤ 32) × (window.used ≤ k) }
    ensures { result ≡ pushed k x window }
{
    Window {
        used: k.min(window.used + 1),
        intervals: in_front(x, window.intervals, k),
    }
}
