// What a call does with what a walk over the places saw: its answer, and the places that change.
ghost use Rattle.std.specs.Prelude.{◌≡◌, ltb};
ghost use Rattle.source.specs.Arrivals.{after};
ghost use Rattle.sources.specs.Places.{empty_place};
ghost use Rattle.sources.specs.Answers.{told};
ghost use Rattle.sources.specs.Changes.{no_change, change_of, not_arriving, arriving_by, arriving, not_counting, settled, counting_by, counting};

use crate::finding::Seen;
use crate::{Arrived, Counted, Place, finding};
use answers::Refusal;
use format::Wire;
use source::{Arrival, BlockCount, Source};

// The places from `from` to `end` each take what stood in the one before, the first `place`.
#[derive(Clone, Copy)]
pub struct Change {
    pub from: usize,
    pub end: usize,
    pub place: Place,
}

// The answer to an arrival, and the places that change.
#[derive(Clone, Copy)]
pub struct Arriving {
    pub answer: Arrived,
    pub change: Change,
}

// The answer to a block, and the places that change.
#[derive(Clone, Copy)]
pub struct Counting {
    pub answer: Counted,
    pub change: Change,
}

// The record that an answer hands back.
fn after(answer: Arrival) -> Source
    ensures { result ≡ after answer }
{
    match answer {
        Arrival::Accepted(s) => s,
        Arrival::Restarted(s) => s,
        Arrival::Refused(_, s) => s,
    }
}

fn told(answer: Arrival) -> Arrived
    ensures { result ≡ told answer }
{
    match answer {
        Arrival::Accepted(_) => Arrived::Accepted,
        Arrival::Restarted(_) => Arrived::Restarted,
        Arrival::Refused(refusal, _) => Arrived::Refused(refusal),
    }
}

// No place changes.
fn no_change() -> Change
    ensures { result ≡ no_change }
{
    let place = Place::empty();
    Change {
        from: 0,
        end: 0,
        place,
    }
}

// The record of the SSRC stands in its place.
fn change_of(seen: Seen, place: Place) -> Change
    ensures { result ≡ change_of seen place }
{
    let stand = seen.stand;
    Change {
        from: stand.at,
        end: seen.end,
        place,
    }
}

fn not_arriving(refusal: Refusal) -> Arriving
    ensures { result ≡ not_arriving refusal }
{
    let change = no_change();
    Arriving {
        answer: Arrived::Refused(refusal),
        change,
    }
}

// An arrival in a table that neither 16 nor 9 refuses.
fn arrive_held(seen: Seen, ssrc: u32, wire: Wire, mark: u8) -> Arriving
    ensures { result ≡ arriving_by None seen ssrc wire mark }
{
    if 3 < mark {
        return not_arriving(Refusal::Limits);
    }
    if !finding::has_room(seen) {
        return not_arriving(Refusal::Places);
    }
    let s = seen.source;
    let answer = s.arrive_in_table(wire, mark);
    let source = after(answer);
    let place = Place { ssrc, source };
    let change = change_of(seen, place);
    let told = told(answer);
    Arriving {
        answer: told,
        change,
    }
}

pub fn arrive(seen: Seen, ssrc: u32, wire: Wire, mark: u8) -> Arriving
    ensures { result ≡ arriving seen ssrc wire mark }
{
    match finding::judged(seen) {
        Err(refusal) => not_arriving(refusal),
        Ok(_) => arrive_held(seen, ssrc, wire, mark),
    }
}

fn not_counting(refusal: Refusal) -> Counting
    ensures { result ≡ not_counting refusal }
{
    let change = no_change();
    Counting {
        answer: Counted::Refused(refusal),
        change,
    }
}

// The record that a block leaves, put in its place, if there is one.
fn settled(seen: Seen, place: Place, jumps: u64, restarts: u64) -> Counting
    ensures { result ≡ settled seen place jumps restarts }
{
    if !finding::has_room(seen) {
        return not_counting(Refusal::Places);
    }
    let stand = seen.stand;
    let change = change_of(seen, place);
    Counting {
        answer: Counted::Block(stand, jumps, restarts),
        change,
    }
}

// A block in a table that neither 16 nor 9 refuses.
fn count_held(seen: Seen, ssrc: u32, records: &[u8], width: usize) -> Counting
    ensures { result ≡ counting_by None seen ssrc width records.now }
{
    let s = seen.source;
    match engine::count_block(s, records, width) {
        BlockCount::Refused(refusal, _) => not_counting(refusal),
        BlockCount::Counted(source, jumps, restarts) => {
            let place = Place { ssrc, source };
            settled(seen, place, jumps, restarts)
        }
    }
}

pub fn count_block(seen: Seen, ssrc: u32, records: &[u8], width: usize) -> Counting
    ensures { result ≡ counting seen ssrc width records.now }
{
    match finding::judged(seen) {
        Err(refusal) => not_counting(refusal),
        Ok(_) => count_held(seen, ssrc, records, width),
    }
}
