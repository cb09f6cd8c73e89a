// The arrivals of a block counted many at once (document 02, L8), with the answer that `Source::count_block` gives record by record.
#![tactic(auto)]

ghost use Rattle.std.specs.Prelude.{◌≡◌};
ghost use Rattle.source.specs.Blocks.{block_count};
ghost use Rattle.source.specs.Numbered.{count_as};

mod lean;
mod limits;
mod parts;
mod places;
mod records;
mod runs;
mod scans;
mod shifts;
mod steps;
mod stretches;
mod window;

use answers::Refusal;
use source::{BlockCount, Source};

// Counts the arrivals of one block, as `Source::count_block` does. Refusals: 9 malformed record, 10 records outside the limits.
pub fn count_block(s: Source, records: &[u8], width: usize) -> BlockCount
    ensures value { result ≡ block_count s width records.now }
    ensures numbered { count_as result ≡ count_as (block_count s width records.now) }
{
    if !s.is_sound() {
        return BlockCount::Refused(Refusal::Malformed, s);
    }
    let n = limits::records_in(records.len(), width);
    if n == 0 {
        return BlockCount::Refused(Refusal::Limits, s);
    }
    if !limits::has_room(s, n) {
        return s.count_block(records, width);
    }
    parts::count(s, records, width, n)
}
