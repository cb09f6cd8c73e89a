// A lent slice of places: the walk that sees where an SSRC stands, and the one that changes places.
ghost use Rattle.std.specs.Prelude.{◌≡◌, ◌≤◌, ◌<◌, length};
ghost use Rattle.sources.specs.Tables.{loaded};
ghost use Rattle.sources.specs.Lending.{placed_in};
ghost use Rattle.sources.specs.Seeing.{seen_in};
ghost use Rattle.sources.specs.Changes.{changed};

use crate::calls::Change;
use crate::finding::Seen;
use crate::tables::in_use;
use crate::{Place, Table, finding};

// What is seen for an SSRC.
pub fn find(places: &[Place], ssrc: u32) -> Seen
    ensures { result ≡ seen_in ssrc (length places.now) places.now }
{
    let n = in_use(places.len());
    let mut seen = finding::start(places.len());
    let mut i = 0;
    while i < n {
        seen = finding::with(seen, i, places[i], ssrc);
        i += 1;
    }
    seen
}

// Changes the places.
pub fn put(places: &mut [Place], change: Change)
    requires { change.end ≤ length places.old }
    ensures { places.new ≡ changed change places.old }
{
    let mut carried = change.place;
    let mut i = change.from;
    while i < change.end {
        let here = places[i];
        places[i] = carried;
        carried = here;
        i += 1;
    }
}

// The table with another place at i.
fn with_place(t: Table, i: usize, p: Place) -> Table
    requires { i < 16 }
    ensures { result ≡ placed_in t i p }
{
    let mut next = t;
    next.places[i] = p;
    next
}

// The table that a slice holds.
pub fn load(places: &[Place]) -> Table
    ensures { result ≡ loaded places.now }
{
    let n = in_use(places.len());
    let mut t = Table::empty(places.len());
    let mut i = 0;
    while i < n {
        t = with_place(t, i, places[i]);
        i += 1;
    }
    t
}
