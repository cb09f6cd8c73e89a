// One arrival counted in a record that is known to be sound. `later` and `step` are compiled once for each number CALLER, and each has so one caller: the
// compiler keeps such a function inside it. So the step stands inside the call for one arrival, which is made packet by packet, and nothing is copied there
// on the way in and out.
ghost use Rattle.std.specs.Prelude.{◌≡◌, true, ◌^◌, ◌<◌, ◌≤◌};
ghost use Rattle.source.specs.Record.{arrivals, has_counted, sound};
ghost use Rattle.source.specs.Arrivals.{ahead, behind, later, arrival};

use crate::base::{counted, first};
use crate::distances::Reach;
use crate::soundness::MOST;
use crate::{Arrival, Source, distances, places, restarts, sequence};
use answers::Refusal;
use format::Wire;

// The call for one arrival; the records of a block and the places of a table.
pub const SINGLE: usize = 0;

pub const MANY: usize = 1;

// An arrival d numbers above the highest.
#[tactic(auto, unfolding(crate::specs::Arrivals::ahead))]
fn ahead(s: Source, d: u64, mark: u8) -> Source
    requires { (has_counted s ≡ true) × (arrivals s < 2 ^ 48) × (1 ≤ d) × (d < 65536) }
    ensures { result ≡ ahead s d mark }
{
    let next = sequence::plus(s.highest, d);
    let moved = places::moved_on(s.history, d);
    counted(s, mark, s.base, next, s.duplicates, moved)
}

// An arrival k numbers below the highest.
#[tactic(auto, unfolding(crate::specs::Arrivals::behind))]
fn behind(s: Source, k: u64, mark: u8) -> Source
    requires { (has_counted s ≡ true) × (arrivals s < 2 ^ 48) × (k < 100) }
    ensures { result ≡ behind s k mark }
{
    let again = places::marked(s.history, k);
    let added = places::with_mark(s.history, k);
    let duplicates = s.duplicates + u64::from(again);
    counted(s, mark, s.base, s.highest, duplicates, added)
}

// An arrival after the first, by its distance from the highest.
fn later<const CALLER: usize>(s: Source, wire: Wire, mark: u8) -> Arrival
    requires { (has_counted s ≡ true) × (arrivals s < 2 ^ 48) }
    ensures { result ≡ later s wire mark }
{
    match distances::reach_of(sequence::distance(s.highest, wire)) {
        Reach::Ahead(up) => Arrival::Accepted(ahead(s, up, mark)),
        Reach::Behind(k) => Arrival::Accepted(behind(s, k, mark)),
        Reach::Jump => restarts::jumped(s, wire, mark),
    }
}

// An arrival with a mark of at most 3.
pub fn step<const CALLER: usize>(s: Source, wire: Wire, mark: u8) -> Arrival
    requires { (sound s ≡ true) × (mark ≤ 3) }
    ensures { result ≡ arrival s wire mark }
{
    let n = s.notect + s.ect1 + s.ect0 + s.ce;
    if MOST <= n {
        return Arrival::Refused(Refusal::Full, s);
    }
    if n == 0 {
        return Arrival::Accepted(first(s, wire, mark));
    }
    later::<CALLER>(s, wire, mark)
}
