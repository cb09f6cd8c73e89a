// Several RTP sources in one table (document 02, L1): up to 16 places, each an SSRC with its source's record, in rising order of SSRC, the unused ones empty
// and last.
#![tactic(auto)]

ghost use Rattle.std.specs.Prelude.{◌≡◌};
ghost use Rattle.answers.specs.Writers.{Wrote};
ghost use Rattle.sources.specs.Places.{empty_place};
ghost use Rattle.sources.specs.Rules.{fault};
ghost use Rattle.sources.specs.Answers.{arrive_answer, arrive_places, count_answer, count_places};
ghost use Rattle.sources.specs.Compounds.{compound_bytes};
ghost use Rattle.sources.specs.Tables.{empty_table, lent, fault_in, arrived_in, counted_in};
ghost use Rattle.sources.specs.Checks.{checked, checked_in};

mod calls;
mod compound;
mod finding;
mod judging;
mod known;
mod lending;
pub mod pieces;
mod rows;
pub mod runs;
mod stepping;
mod tables;

use answers::{Refusal, Unwritten};
use format::Wire;
use source::Source;

// One place: an SSRC and the record of its source. Unused, it is zero in every field and remembers nothing.
#[derive(Clone, Copy)]
pub struct Place {
    pub ssrc: u32,
    pub source: Source,
}

// A table by value: the first `count` places are in use.
#[derive(Clone, Copy)]
pub struct Table {
    pub places: [Place; 16],
    pub count: usize,
}

// The answer to an arrival.
#[derive(Clone, Copy)]
pub enum Arrived {
    Accepted,
    Restarted,
    Refused(Refusal),
}

// Where an SSRC stands in a table, and whether it is new there.
#[derive(Clone, Copy)]
pub struct Stand {
    pub at: usize,
    pub new: bool,
}

// The answer to a block of arrivals: where their SSRC now stands, how many were refused as jumps, and how many restarts there were.
#[derive(Clone, Copy)]
pub enum Counted {
    Block(Stand, u64, u64),
    Refused(Refusal),
}

// The next table, with the answer to an arrival.
#[derive(Clone, Copy)]
pub struct TableArrived {
    pub table: Table,
    pub answer: Arrived,
}

// The next table, with the answer to a block.
#[derive(Clone, Copy)]
pub struct TableCounted {
    pub table: Table,
    pub answer: Counted,
}

impl Place {
    // An unused place.
    pub fn empty() -> Place
        ensures { result ≡ empty_place }
    {
        let source = Source::fresh();
        Place { ssrc: 0, source }
    }
}

impl Table {
    // The most places of a table.
    pub const MOST: usize = 16;

    // A table of so many places, all unused.
    pub fn empty(count: usize) -> Table
        ensures { result ≡ empty_table count }
    {
        let place = Place::empty();
        Table {
            places: [place; 16],
            count,
        }
    }

    // Which of the places in use are held: the first so many. Refusals: 16 table against the rules, 9 a malformed record.
    pub fn check(self) -> Result<usize, Refusal>
        ensures { result ≡ checked_in self }
    {
        finding::judged(tables::find(self, 0))
    }

    // Counts one arrival of an SSRC. Refusals: 16 table against the rules, 9 a malformed record, 10 mark above 3, 15 no place left, 8 full, 7 jump.
    pub fn arrive(self, ssrc: u32, wire: Wire, mark: u8) -> TableArrived
        ensures { result ≡ arrived_in self ssrc wire mark }
    {
        let next = calls::arrive(tables::find(self, ssrc), ssrc, wire, mark);
        let answer = next.answer;
        let table = tables::put(self, next.change);
        TableArrived { table, answer }
    }

    // Counts the arrivals of one block of an SSRC, as `engine::count_block` does. Refusals: 16 table against the rules, 9 a malformed record, 10 records
    // outside the limits, 15 no place left.
    pub fn count_block(self, ssrc: u32, records: &[u8], width: usize) -> TableCounted
        ensures { result ≡ counted_in self ssrc width records.now }
    {
        let next = calls::count_block(tables::find(self, ssrc), ssrc, records, width);
        let answer = next.answer;
        let table = tables::put(self, next.change);
        TableCounted { table, answer }
    }

    // Writes the compound: an RR without report blocks and one ECN feedback packet for each held place, from the SSRC `sender`. Refusals: 16 table against
    // the rules, 9 a malformed record, 12 no room.
    pub fn write_compound(self, sender: u32, out: &mut [u8]) -> Result<usize, Unwritten>
        ensures { Wrote (fault_in self) (compound_bytes sender (lent self)) out.old result out.new }
    {
        compound::write(self, sender, out)
    }
}

// How many places of a lent table are held, all in front. Refusals: 16 table against the rules, 9 a malformed record.
pub fn check(places: &[Place]) -> Result<usize, Refusal>
    ensures { result ≡ checked places.now }
{
    let seen = lending::find(places, 0);
    finding::judged(seen)
}

// Counts one arrival of an SSRC in a lent table. Refusals: 16 table against the rules, 9 a malformed record, 10 mark above 3, 15 no place left, 8 full, 7 jump.
pub fn arrive(places: &mut [Place], ssrc: u32, wire: Wire, mark: u8) -> Arrived
    ensures { (result ≡ arrive_answer places.old ssrc wire mark) × (places.new ≡ arrive_places places.old ssrc wire mark) }
{
    let seen = lending::find(places, ssrc);
    let next = calls::arrive(seen, ssrc, wire, mark);
    lending::put(places, next.change);
    next.answer
}

// Counts the arrivals of one block of an SSRC in a lent table. Refusals: 16 table against the rules, 9 a malformed record, 10 records outside the limits,
// 15 no place left.
pub fn count_block(places: &mut [Place], ssrc: u32, records: &[u8], width: usize) -> Counted
    ensures { (result ≡ count_answer places.old ssrc width records.now) × (places.new ≡ count_places places.old ssrc width records.now) }
{
    let seen = lending::find(places, ssrc);
    let next = calls::count_block(seen, ssrc, records, width);
    lending::put(places, next.change);
    next.answer
}

// Writes the compound of a lent table, from the SSRC `sender`. Refusals: 16 table against the rules, 9 a malformed record, 12 no room.
pub fn write_compound(places: &[Place], sender: u32, out: &mut [u8]) -> Result<usize, Unwritten>
    ensures { Wrote (fault places.now) (compound_bytes sender places.now) out.old result out.new }
{
    let t = lending::load(places);
    t.write_compound(sender, out)
}
