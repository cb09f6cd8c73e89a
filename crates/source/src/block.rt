// The records of one arrivals block, counted in order.
ghost use Rattle.std.specs.Prelude.{◌≡◌, true, ◌/◌, ◌%◌, ◌≤◌, length};
ghost use Rattle.answers.specs.Conditions.{all};
ghost use Rattle.source.specs.Record.{sound};
ghost use Rattle.source.specs.Arrivals.{after};
ghost use Rattle.source.specs.Blocks.{packets, marks_fit, in_limits, jump, restart, count_all};

use crate::step::{MANY, step};
use crate::{Arrival, BlockCount, Source};
use answers::Refusal;
use format::Wire;
use format::block::{BEHIND_TIME, MOST_RECORDS};
use numbers::big_endian::join16;

// Whether no record has a mark above 3.
fn marks_fit(records: &[u8], width: usize) -> bool
    requires { (4 ≤ width) × (length records.now % width ≡ 0) }
    ensures { result ≡ marks_fit (packets width (length records.now / width) records.now) }
{
    for record in records.chunks_exact(width) {
        if 3 < record[width - 2] {
            return false;
        }
    }
    true
}

// Whether the bytes are 1 to 62 whole records with marks of at most 3.
pub fn in_limits(records: &[u8], width: usize) -> bool
    ensures { result ≡ all (in_limits width records.now) }
{
    BEHIND_TIME <= width
        && records.len() % width == 0
        && 1 <= records.len() / width
        && records.len() / width <= MOST_RECORDS
        && marks_fit(records, width)
}

impl Arrival {
    // The record that an answer hands back.
    fn after(self) -> Source
        ensures { result ≡ after self }
    {
        match self {
            Arrival::Accepted(s) | Arrival::Restarted(s) | Arrival::Refused(_, s) => s,
        }
    }

    // 1 for refusal 7.
    fn jump(self) -> u64
        ensures { result ≡ jump self }
    {
        u64::from(matches!(self, Arrival::Refused(Refusal::Jump, _)))
    }

    // 1 for a restart.
    fn restart(self) -> u64
        ensures { result ≡ restart self }
    {
        u64::from(matches!(self, Arrival::Restarted(_)))
    }
}

// The records counted one by one, going on after a refusal.
pub fn count(s: Source, records: &[u8], width: usize) -> BlockCount
    requires { (sound s ≡ true) × (all (in_limits width records.now) ≡ true) }
    ensures { result ≡ count_all (packets width (length records.now / width) records.now) s 0 0 }
{
    let mut next = s;
    let mut jumps = 0;
    let mut restarts = 0;
    for record in records.chunks_exact(width) {
        // Its last four bytes: wire number (2), mark and a zero.
        let wire = Wire(join16(record[width - 4], record[width - 3]));
        let answer = step::<MANY>(next, wire, record[width - 2]);
        next = answer.after();
        jumps += answer.jump();
        restarts += answer.restart();
    }
    BlockCount::Counted(next, jumps, restarts)
}
