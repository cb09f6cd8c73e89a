// A block in parts of at most 31 records.
ghost use Rattle.std.specs.Prelude.{◌≡◌, ◌≤◌};
ghost use Rattle.source.specs.Blocks.{block_count};
ghost use Rattle.engine.specs.Blocks.{Block, PartSize};
ghost use Rattle.engine.specs.Settled.{Roomy};

use crate::limits::{LONG, PART, PART_LONG};
use crate::runs;
use crate::stretches::{Part, count_part};
use answers::Refusal;
use source::{BlockCount, Source};

// How many of the records that are left make the next part.
fn part_size(left: usize, width: usize) -> usize
    requires { 1 ≤ left }
    ensures { PartSize left result }
{
    left.min(if width == LONG { PART_LONG } else { PART })
}

// The n records of a block, part by part: a part that can't be counted at once is counted record by record.
pub fn count(s: Source, records: &[u8], width: usize, n: usize) -> BlockCount
    requires { (Block width records.now n) × Roomy s n }
    ensures { result ≡ block_count s width records.now }
{
    let mut next = s;
    let mut jumps = 0;
    let mut restarts = 0;
    let mut at = 0;
    let mut left = n;
    while 0 < left {
        let few = part_size(left, width);
        let end = at + few * width;
        match count_part(next, &records[at..end], width, few) {
            Part::Counted(behind) => {
                next = behind;
            }
            Part::Misfit => {
                return BlockCount::Refused(Refusal::Limits, s);
            }
            Part::Outside(ordered) => {
                let run = runs::count(next, &records[at..end], width, few, ordered);
                next = run.source;
                jumps += run.jumps;
                restarts += run.restarts;
            }
        }
        at = end;
        left -= few;
    }
    BlockCount::Counted(next, jumps, restarts)
}
