// A history moved on by the places of a window.
ghost use Rattle.std.specs.Prelude.{◌≡◌, ◌^◌, ◌<◌};
ghost use Rattle.engine.specs.Settled.{ShiftedBy};

use source::History;

// The highest number lies at this place of the window, its bit here.
pub const AHEAD: u64 = 40;

const HIGHEST: u64 = 0x100_0000_0000;

// 2^36: the older word has 36 places.
const OLDER: u64 = 0x10_0000_0000;

// How far the highest number grows, the history behind it, and how many places more it marks.
#[derive(Clone, Copy)]
pub struct Shifted {
    pub up: u64,
    pub history: History,
    pub more: u64,
}

// The history with the places of the bits.
pub fn moved_on(h: History, bits: u64) -> Shifted
    requires { h.older < 2 ^ 36 }
    ensures { ShiftedBy h bits result }
{
    let lowest = u64::trailing_zeros(bits | HIGHEST) as u64;
    let up = AHEAD - lowest;
    let old = h.recent << up;
    let recent = old | (bits >> lowest);
    let older = ((h.older << up) | (h.recent >> 1 >> (63 - up))) % OLDER;
    let before = u64::count_ones(old) as u64;
    let behind = u64::count_ones(recent) as u64;
    Shifted {
        up,
        history: History { recent, older },
        more: behind - before,
    }
}
