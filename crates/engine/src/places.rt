// One place of a history. Nothing is chosen by a branch: arrivals come in no order that one could foresee.
ghost use Rattle.std.specs.Prelude.{◌≡◌, cond, ◌^◌, ◌<◌, ◌≤◌};
ghost use Rattle.source.specs.Places.{bit, history, marks, moved, added};

use source::History;

// 2^36: the older word has 36 places. (As in the crate source, whose history in words is private there.)
const OLDER: u64 = 0x10_0000_0000;

// The places of a word.
const PLACES: u64 = 64;

fn chosen(first: bool, a: u64, b: u64) -> u64
    ensures { result ≡ cond first a b }
{
    if first { a } else { b }
}

// Every place moved up by `up`.
pub fn moved(h: History, up: u64) -> History
    requires { (up < 64) × (h.older < 2 ^ 36) }
    ensures { result ≡ history (moved up (marks h)) }
{
    History {
        recent: h.recent << up,
        older: ((h.older << up) | (h.recent >> 1 >> (63 - up))) % OLDER,
    }
}

// Every place moved up by d, 64 at least, and place 0 marked.
pub fn moved_far(h: History, d: u64) -> History
    requires { (64 ≤ d) × (h.older < 2 ^ 36) }
    ensures { result ≡ history (added 0 (moved d (marks h))) }
{
    if d < 100 {
        return History {
            recent: 1,
            older: (h.recent << (d - PLACES)) % OLDER,
        };
    }
    History {
        recent: 1,
        older: 0,
    }
}

// Place k marked too.
pub fn with_mark(h: History, k: u64) -> History
    requires { (k < 100) × (h.older < 2 ^ 36) }
    ensures { result ≡ history (added k (marks h)) }
{
    let near = k < PLACES;
    let one: u64 = 1 << (k % PLACES);
    History {
        recent: h.recent | chosen(near, one, 0),
        older: h.older | chosen(near, 0, one),
    }
}

// 1 where place k is marked.
pub fn mark_at(h: History, k: u64) -> u64
    requires { k < 100 }
    ensures { (result ≡ bit (marks h k)) × (result ≤ 1) }
{
    let near = k < PLACES;
    (chosen(near, h.recent, h.older) >> (k % PLACES)) % 2
}
