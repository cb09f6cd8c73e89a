// A table by value: what a walk over its places in use sees, and the table with a change.
ghost use Rattle.std.specs.Prelude.{◌≡◌, ◌≤◌};
ghost use Rattle.sources.specs.Lending.{in_use};
ghost use Rattle.sources.specs.Seeing.{seen_in};
ghost use Rattle.sources.specs.Changes.{changed};

use crate::calls::Change;
use crate::finding::Seen;
use crate::{Table, finding};

// How many places are in use: none where there are over 16.
pub fn in_use(count: usize) -> usize
    ensures { result ≡ in_use count }
{
    if Table::MOST < count {
        return 0;
    }
    count
}

// What is seen for an SSRC.
pub fn find(t: Table, ssrc: u32) -> Seen
    ensures { result ≡ seen_in ssrc t.count t.places }
{
    let n = in_use(t.count);
    let mut seen = finding::start(t.count);
    let mut i: usize = 0;
    while i < n {
        let p = t.places[i];
        seen = finding::with(seen, i, p, ssrc);
        i += 1;
    }
    seen
}

// The table with a change.
pub fn put(t: Table, change: Change) -> Table
    requires { change.end ≤ 16 }
    ensures { (result.places ≡ changed change t.places) × (result.count ≡ t.count) }
{
    let end = change.end;
    let mut next = t;
    let mut carried = change.place;
    let mut i = change.from;
    while i < end {
        let here = next.places[i];
        next.places[i] = carried;
        carried = here;
        i += 1;
    }
    next
}
