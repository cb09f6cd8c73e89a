// A part counted record by record: what cannot be counted at once.
ghost use Rattle.std.specs.Prelude.{◌≡◌, true};
ghost use Rattle.source.specs.Blocks.{marks_fit};
ghost use Rattle.engine.specs.Limits.{Held};
ghost use Rattle.engine.specs.Windows.{held, wired};
ghost use Rattle.engine.specs.Settled.{Roomy};
ghost use Rattle.engine.specs.Lean.{LeanFits, taken_all, RunOf};

use crate::lean;
use crate::lean::{Lean, RESTART};
use crate::records::number;
use crate::steps::take;
use source::Source;

// The record behind a part, how many arrivals were jumps, and how many restarts there were.
#[derive(Clone, Copy)]
pub struct Run {
    pub source: Source,
    pub jumps: u64,
    pub restarts: u64,
}

// The records one after the other.
fn along(begun: Lean, records: &[u8], width: usize, n: usize, ordered: bool) -> Lean
    requires { (Held width records.now n) × (LeanFits n begun) × (marks_fit (held width records.now) ≡ true) }
    ensures { (result ≡ taken_all (held width records.now) begun) × (LeanFits 0 result) }
{
    let mut t = begun;
    let mut at: usize = 0;
    while at < records.len() {
        let place = at + (width - 2);
        t = take(t, number(records, at, width), records[place], ordered);
        at += width;
    }
    t
}

// The n records of a part whose marks fit. (`ordered`: most arrivals have the next number.)
pub fn count(s: Source, records: &[u8], width: usize, n: usize, ordered: bool) -> Run
    requires held { (Held width records.now n) × (Roomy s n) × (marks_fit (held width records.now) ≡ true) }
    requires wired { wired (held width records.now) ≡ true }
    ensures { RunOf s (held width records.now) result }
{
    let t = along(lean::begun(s), records, width, n, ordered);
    Run {
        source: lean::restored(s, t),
        jumps: t.counts % 256,
        restarts: t.counts / RESTART % 256,
    }
}
