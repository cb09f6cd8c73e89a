// One arrival of a part, counted in few words.
ghost use Rattle.std.specs.Prelude.{◌≡◌, cond, ◌+◌, ◌-◌, ◌%◌, ◌^◌, ◌<◌, ◌≤◌, ltb};
ghost use Rattle.source.specs.Distances.{reach_of};
ghost use Rattle.engine.specs.Lean.{LeanFits, unit, raised, ahead, restarted, jumped, TakenBy, taken};

use crate::lean::{Lean, NONE, RESTART};
use crate::places;
use source::History;

// One in the byte of the duplicates.
const DUPLICATE: u64 = 256;

// The jumps are 62,437 distances, from 3,000 on: 65,536 less 62,536.
const FROM_JUMPS: u64 = 62536;

const JUMPS: u64 = 62437;

// The near ones are 163, from 99 below the highest on.
const FROM_NEAR: u64 = 99;

const NEAR: u64 = 163;

// One in the byte of a mark. (A shift and no match: marks come in no order that a branch could foresee.)
fn unit(mark: u8) -> u64
    requires { mark ≤ 3 }
    ensures { (result ≡ unit mark) × (result ≤ 2 ^ 40) }
{
    65536 << (8 * mark as u64)
}

// One arrival more, with what it adds to the counts. Any remembered number is forgotten.
fn raised(t: Lean, highest: u64, history: History, units: u64) -> Lean
    requires { (t.counts < 2 ^ 60) × (units < 2 ^ 60) }
    ensures { result ≡ raised t highest history units }
{
    Lean {
        highest,
        history,
        awaited: NONE,
        counts: t.counts + units,
        ..t
    }
}

// How many numbers above the highest an arrival is, by its distance: 0 where it is not above.
fn rise(d: u64) -> u64
    ensures { (result ≡ cond (ltb d 64) d 0) × (result < 64) }
{
    if d < 64 { d } else { 0 }
}

// And how many below it.
fn fall(d: u64) -> u64
    requires { (d < 65536) × ((d + 99) % 65536 < 163) }
    ensures { (result ≡ cond (ltb d 64) 0 (65536 - d)) × (result < 100) }
{
    if d < 64 { 0 } else { 65536 - d }
}

// An arrival at most 63 numbers above the highest, or at most 99 below it.
fn near(t: Lean, number: u64, d: u64, mark: u8) -> Lean
    requires { (LeanFits 1 t) × (d < 65536) × ((d + 99) % 65536 < 163) × (mark ≤ 3) }
    ensures { result ≡ TakenBy t number mark (reach_of d) }
{
    let up = rise(d);
    let k = fall(d);
    let past = places::moved(t.history, up);
    let again = places::mark_at(past, k);
    let next = places::with_mark(past, k);
    raised(t, t.highest + up, next, unit(mark) + again * DUPLICATE)
}

// An arrival more than 63 numbers above the highest.
fn ahead(t: Lean, d: u64, mark: u8) -> Lean
    requires { (LeanFits 1 t) × (64 ≤ d) × (d < 65536) × (mark ≤ 3) }
    ensures { result ≡ ahead t d mark }
{
    let next = places::moved_far(t.history, d);
    raised(t, t.highest + d, next, unit(mark))
}

// A jump that has the remembered number: all begins again with it. Of the counts the jumps and the restarts stay.
fn restarted(t: Lean, number: u64, mark: u8) -> Lean
    requires { (LeanFits 1 t) × (mark ≤ 3) }
    ensures { result ≡ restarted t number mark }
{
    let jumps = t.counts % 256;
    let restarts = t.counts / RESTART * RESTART;
    Lean {
        base: number,
        highest: number,
        history: History {
            recent: 1,
            older: 0,
        },
        awaited: NONE,
        counts: jumps + restarts + RESTART + unit(mark),
    }
}

// A jump: a restart where it has the remembered number, else it is left out, and the number that would follow it is remembered.
fn jumped(t: Lean, number: u64, mark: u8) -> Lean
    requires { (LeanFits 1 t) × (number < 65536) × (mark ≤ 3) }
    ensures { result ≡ jumped t number mark }
{
    if number == t.awaited {
        return restarted(t, number, mark);
    }
    Lean {
        awaited: (number + 1) % 65536,
        counts: t.counts + 1,
        ..t
    }
}

// One arrival. Where most arrivals have the next number, it is tested for that first. (The answer is the same.)
pub fn take(t: Lean, number: u64, mark: u8, ordered: bool) -> Lean
    requires { (LeanFits 1 t) × (number < 65536) × (mark ≤ 3) }
    ensures { result ≡ taken t number mark }
{
    let d = (number + 65536 - t.highest % 65536) % 65536;
    if (d + FROM_JUMPS) % 65536 < JUMPS {
        return jumped(t, number, mark);
    }
    if ordered && d == 1 {
        return near(t, number, 1, mark);
    }
    if (d + FROM_NEAR) % 65536 < NEAR {
        return near(t, number, d, mark);
    }
    ahead(t, d, mark)
}
