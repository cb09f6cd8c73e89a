// One RTP source: its arrivals counted by ECN mark (document 01, "Counting arrivals"; 02, request L5). A record goes in and comes back by value.
#![tactic(auto)]

ghost use Rattle.std.specs.Prelude.{◌≡◌};
ghost use Rattle.source.specs.Record.{fresh_record, sound, lost_answer};
ghost use Rattle.source.specs.Arrivals.{arrival};
ghost use Rattle.source.specs.Blocks.{block_count};
ghost use Rattle.source.specs.Numbered.{arrival_as, count_as, lost_as};
ghost use Rattle.source.specs.Totals.{fresh_totals, with_block};

mod base;
mod block;
mod distances;
mod jumps;
mod loss;
mod places;
mod restarts;
mod sequence;
mod soundness;
mod step;

use answers::Refusal;
use format::Wire;

// A sequence number with the wraps counted: negative before the base.
#[derive(Clone, Copy)]
pub struct Extended(pub i64);

// The last 100 numbers: place k stands for highest - k. `recent` has the places 0 to 63, `older` 64 to 99.
#[derive(Clone, Copy)]
pub struct History {
    pub recent: u64,
    pub older: u64,
}

// What is counted of one source. Fresh, it is all zero and remembers nothing.
#[derive(Clone, Copy)]
pub struct Source {
    pub base: Extended,
    pub highest: Extended,
    pub notect: u64,
    pub ect1: u64,
    pub ect0: u64,
    pub ce: u64,
    pub duplicates: u64,
    pub history: History,
    pub remembered: Option<Wire>,
}

// The answer to an arrival: the next record; the record that begins again with it; or a refusal, with the record that was given, in which refusal 7
// alone changes what is remembered.
// (No Result: a refusal hands back the record too, as the contract `arrival` says.)
#[derive(Clone, Copy)]
pub enum Arrival {
    Accepted(Source),
    Restarted(Source),
    Refused(Refusal, Source),
}

// The answer to a block of arrivals: the next record, how many were refused as jumps, and how many restarts there were; or a refusal with the record
// that was given. (No Result: a refusal hands back the record too, as the contract `block_count` says.)
#[derive(Clone, Copy)]
pub enum BlockCount {
    Counted(Source, u64, u64),
    Refused(Refusal, Source),
}

// What a table shows of one source: its record, how many arrivals its blocks left out as jumps, and how often it began again.
#[derive(Clone, Copy)]
pub struct Totals {
    pub source: Source,
    pub jumped: u64,
    pub restarts: u64,
}

impl Source {
    // The record before any arrival.
    pub fn fresh() -> Source
        ensures { result ≡ fresh_record }
    {
        Source {
            base: Extended(0),
            highest: Extended(0),
            notect: 0,
            ect1: 0,
            ect0: 0,
            ce: 0,
            duplicates: 0,
            history: History {
                recent: 0,
                older: 0,
            },
            remembered: None,
        }
    }

    // Whether the record is sound: fresh, or one that has counted.
    pub fn is_sound(self) -> bool
        ensures { result ≡ sound self }
    {
        soundness::is_sound(self)
    }

    // Counts one arrival. Refusals: 9 malformed record, 10 mark above 3, 8 full, 7 jump. A jump is remembered by the number that would follow it; a jump
    // that has the remembered number restarts the record.
    pub fn arrive(self, wire: Wire, mark: u8) -> Arrival
        ensures value { result ≡ arrival self wire mark }
        ensures numbered { arrival_as result ≡ arrival_as (arrival self wire mark) }
    {
        if !soundness::is_sound(self) {
            return Arrival::Refused(Refusal::Malformed, self);
        }
        if 3 < mark {
            return Arrival::Refused(Refusal::Limits, self);
        }
        step::step::<{ step::SINGLE }>(self, wire, mark)
    }

    // Counts one arrival, as `arrive` does: the call for a record that stands in a table.
    pub fn arrive_in_table(self, wire: Wire, mark: u8) -> Arrival
        ensures value { result ≡ arrival self wire mark }
        ensures numbered { arrival_as result ≡ arrival_as (arrival self wire mark) }
    {
        if !soundness::is_sound(self) {
            return Arrival::Refused(Refusal::Malformed, self);
        }
        if 3 < mark {
            return Arrival::Refused(Refusal::Limits, self);
        }
        step::step::<{ step::MANY }>(self, wire, mark)
    }

    // Counts the arrivals of one block in order, going on after a jump and when full: `records` holds 1 to 62 records of `width` bytes, the
    // last four of each the wire number (2 bytes), the mark and a zero. Refusals: 9 malformed record, 10 records outside these limits.
    pub fn count_block(self, records: &[u8], width: usize) -> BlockCount
        ensures value { result ≡ block_count self width records.now }
        ensures numbered { count_as result ≡ count_as (block_count self width records.now) }
    {
        if !soundness::is_sound(self) {
            return BlockCount::Refused(Refusal::Malformed, self);
        }
        if !block::in_limits(records, width) {
            return BlockCount::Refused(Refusal::Limits, self);
        }
        block::count(self, records, width)
    }

    // The packets lost so far: highest - base + 1 - distinct, 0 in the fresh record. Refusal: 9 malformed record.
    pub fn lost(self) -> Result<i64, Refusal>
        ensures value { result ≡ lost_answer self }
        ensures numbered { lost_as result ≡ lost_as (lost_answer self) }
    {
        if !soundness::is_sound(self) {
            return Err(Refusal::Malformed);
        }
        if soundness::is_fresh(self) {
            return Ok(0);
        }
        Ok(loss::packets(self))
    }
}

impl Totals {
    // The most jumps, and the most restarts, that are counted.
    pub const MOST: u64 = 0x1_0000_0000_0000;

    // The totals before any arrival.
    pub fn fresh() -> Totals
        ensures { result ≡ fresh_totals }
    {
        Totals {
            source: Source::fresh(),
            jumped: 0,
            restarts: 0,
        }
    }

    // The totals with the count of a block: its record, and its jumps and restarts added, each up to the most. A refused count changes nothing.
    pub fn with_block(self, count: BlockCount) -> Totals
        ensures { result ≡ with_block self count }
    {
        match count {
            BlockCount::Refused(_, _) => self,
            BlockCount::Counted(source, jumps, restarts) => Totals {
                source,
                jumped: jumps::raised(self.jumped, jumps),
                restarts: jumps::raised(self.restarts, restarts),
            },
        }
    }
}
