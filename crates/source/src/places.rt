// The history's places in two words.
ghost use Rattle.std.specs.Prelude.{◌≡◌, ◌^◌, ◌<◌, ◌≤◌, leb};
ghost use Rattle.source.specs.Places.{bit, places, marks, history, moved, added};

use crate::History;

// 2^36: the older word has 36 places.
pub const OLDER: u64 = 0x10_0000_0000;

// How many places are marked.
#[tactic(auto, unfolding(crate::specs::Places::places))]
fn count(h: History) -> u64
    ensures { result ≡ places h }
{
    u64::from(h.recent.count_ones() + h.older.count_ones())
}

// Whether at most n places are marked.
pub fn at_most(h: History, n: u64) -> bool
    ensures { result ≡ leb (places h) n }
{
    count(h) <= n
}

// Whether place k is marked.
pub fn marked(h: History, k: u64) -> bool
    requires { k < 100 }
    ensures { result ≡ marks h k }
{
    if k < 64 {
        (h.recent >> k) % 2 == 1
    } else {
        (h.older >> (k - 64)) % 2 == 1
    }
}

// Place k marked too.
pub fn with_mark(h: History, k: u64) -> History
    requires { (k < 100) × (h.older < 2 ^ 36) }
    ensures { result ≡ history (added k (marks h)) }
{
    if k < 64 {
        return near(h, 0, k);
    }
    History {
        older: h.older | (1 << (k - 64)),
        ..h
    }
}

// Every place moved up by `up`, and place k marked, both below 64. (Nothing is chosen: packets that come out of order cost no branch.)
pub fn near(h: History, up: u64, k: u64) -> History
    requires { (up < 64) × (k < 64) × (h.older < 2 ^ 36) }
    ensures { result ≡ history (added k (moved up (marks h))) }
{
    History {
        recent: (h.recent << up) | (1 << k),
        older: ((h.older << up) | (h.recent >> 1 >> (63 - up))) % OLDER,
    }
}

// Every place moved up by d, one at least, and place 0 marked.
pub fn moved_on(h: History, d: u64) -> History
    requires { (1 ≤ d) × (h.older < 2 ^ 36) }
    ensures { result ≡ history (added 0 (moved d (marks h))) }
{
    if d < 64 {
        return near(h, d, 0);
    }
    if d < 100 {
        return History {
            recent: 1,
            older: (h.recent << (d - 64)) % OLDER,
        };
    }
    History {
        recent: 1,
        older: 0,
    }
}
