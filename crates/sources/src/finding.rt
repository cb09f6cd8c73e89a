// What a walk over the places of a table sees for one SSRC, place by place: whether 16 or 9 refuse the table, and where the SSRC stands in it.
ghost use Rattle.std.specs.Prelude.{◌≡◌, not, ◌&&◌, ◌||◌, ◌<◌, ltb};
ghost use Rattle.sources.specs.Places.{held, empty};
ghost use Rattle.sources.specs.Seeing.{seen_first, seen_next, seen_held, seen_other, stand_seen, end_seen, source_seen, checked_seen, roomy};

use crate::{Place, Stand, Table};
use answers::Refusal;
use source::Source;

// How many places there are; how many are held in front, and what the SSRC of the next must be at least; whether all so far are held; whether those so far keep
// the rules, and whether the held ones are sound; where the SSRC stands, the end of the places that its record moves, and its record, a fresh one if it is new.
#[derive(Clone, Copy)]
pub struct Seen {
    pub count: usize,
    pub held: usize,
    pub least: u64,
    pub front: bool,
    pub ruled: bool,
    pub sound: bool,
    pub stand: Stand,
    pub end: usize,
    pub source: Source,
}

fn both(a: bool, b: bool) -> bool
    ensures { result ≡ (a && b) }
{
    if a {
        return b;
    }
    false
}

// Whether a place is held: some mark is counted.
pub fn is_held(p: Place) -> bool
    ensures { result ≡ held p }
{
    let s = p.source;
    if 0 < s.notect {
        return true;
    }
    if 0 < s.ect1 {
        return true;
    }
    if 0 < s.ect0 {
        return true;
    }
    0 < s.ce
}

// Whether a place is empty. (A sound record without an arrival is fresh.)
fn is_empty(p: Place) -> bool
    ensures { result ≡ empty p }
{
    if 0 < p.ssrc {
        return false;
    }
    if is_held(p) {
        return false;
    }
    let s = p.source;
    s.is_sound()
}

// Before the first of so many places.
pub fn start(count: usize) -> Seen
    ensures { result ≡ seen_first count }
{
    let source = Source::fresh();
    let stand = Stand { at: 0, new: true };
    Seen {
        count,
        held: 0,
        least: 0,
        front: true,
        ruled: count <= Table::MOST,
        sound: true,
        stand,
        end: count,
        source,
    }
}

// Place i, which is held, with all before it: is it the one of the SSRC, or below it?
fn with_ssrc(seen: Seen, i: usize, p: Place, ssrc: u32) -> Seen
    requires { i < 16 }
    ensures { result ≡ record { count = seen.count; held = seen.held; least = seen.least; front = seen.front; ruled = seen.ruled; sound = seen.sound; stand = stand_seen seen i p ssrc; end = end_seen seen i p ssrc; source = source_seen seen p ssrc } }
{
    let mut next = seen;
    if p.ssrc == ssrc {
        let stand = Stand { at: i, new: false };
        let s = p.source;
        next.stand = stand;
        next.end = i + 1;
        next.source = s;
        return next;
    }
    if p.ssrc < ssrc {
        let stand = Stand {
            at: i + 1,
            new: true,
        };
        next.stand = stand;
    }
    next
}

// Place i, which is held, with all before it.
fn with_held(seen: Seen, i: usize, p: Place, ssrc: u32) -> Seen
    requires { i < 16 }
    ensures { result ≡ seen_held seen i p ssrc }
{
    let s = p.source;
    let here = p.ssrc as u64;
    let mut next = with_ssrc(seen, i, p, ssrc);
    next.held = i + 1;
    next.ruled = both(seen.ruled, seen.least <= here);
    next.least = here + 1;
    next.sound = both(seen.sound, s.is_sound());
    next
}

// A place from the first on that is not held.
fn with_other(seen: Seen, p: Place) -> Seen
    ensures { result ≡ seen_other seen p }
{
    let mut next = seen;
    next.front = false;
    next.ruled = both(seen.ruled, is_empty(p));
    next
}

// Place i.
pub fn with(seen: Seen, i: usize, p: Place, ssrc: u32) -> Seen
    requires { i < 16 }
    ensures { result ≡ seen_next seen i p ssrc }
{
    if !seen.front {
        return with_other(seen, p);
    }
    if !is_held(p) {
        return with_other(seen, p);
    }
    with_held(seen, i, p, ssrc)
}

// 16, then 9; or how many places are held.
pub fn judged(seen: Seen) -> Result<usize, Refusal>
    ensures { result ≡ checked_seen seen }
{
    if !seen.ruled {
        return Err(Refusal::Rules);
    }
    if !seen.sound {
        return Err(Refusal::Malformed);
    }
    Ok(seen.held)
}

// Whether there is a place for the SSRC.
pub fn has_room(seen: Seen) -> bool
    ensures { result ≡ roomy seen }
{
    let stand = seen.stand;
    if stand.new {
        return seen.held < seen.count;
    }
    true
}
