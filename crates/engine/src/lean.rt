// What changes of a record while a part is counted record by record, in few words: the part's own counts share one.
ghost use Rattle.std.specs.Prelude.{◌≡◌, true, ◌≤◌};
ghost use Rattle.source.specs.Record.{has_counted, wire_number};
ghost use Rattle.engine.specs.Lean.{LeanFits, awaited_in, remembered_as, begun, still_counted, restored};

use format::Wire;
use numbers::sign::magnitude;
use source::{Extended, History, Source};

// The first and the highest number, the history, the number that is remembered (65,536 for none), and the part's counts, a byte each: jumps, duplicates,
// arrivals with the marks 0 to 3, restarts. A restart leaves of these the jumps and the restarts.
#[derive(Clone, Copy)]
pub struct Lean {
    pub base: u64,
    pub highest: u64,
    pub history: History,
    pub awaited: u64,
    pub counts: u64,
}

// No number is remembered.
pub const NONE: u64 = 65536;

// One in the byte of the restarts.
pub const RESTART: u64 = 0x1_0000_0000_0000;

fn awaited_in(remembered: Option<Wire>) -> u64
    ensures { (result ≡ awaited_in remembered) × (wire_number remembered ≡ true) }
{
    match remembered {
        None => NONE,
        Some(wire) => wire.0 as u64,
    }
}

fn remembered_as(awaited: u64) -> Option<Wire>
    requires { awaited ≤ 65536 }
    ensures { result ≡ remembered_as awaited }
{
    if awaited == NONE {
        return None;
    }
    Some(Wire(awaited as u16))
}

// A record before a part.
pub fn begun(s: Source) -> Lean
    ensures { (result ≡ begun s) × (wire_number s.remembered ≡ true) }
{
    Lean {
        base: magnitude(s.base.0),
        highest: magnitude(s.highest.0),
        history: s.history,
        awaited: awaited_in(s.remembered),
        counts: 0,
    }
}

// A counter that the part began with: nothing is left of it behind a restart.
fn since(counts: u64, before: u64) -> u64
    ensures { (result ≡ still_counted counts before) × (result ≤ before) }
{
    if counts / RESTART % 256 == 0 {
        before
    } else {
        0
    }
}

// The record behind the part.
pub fn restored(s: Source, t: Lean) -> Source
    requires { (has_counted s ≡ true) × LeanFits 0 t }
    ensures { result ≡ restored s t }
{
    let counts = t.counts;
    // Before the counters, and not in its field: a part counted so has else 2 % more instructions.
    let remembered = remembered_as(t.awaited);
    Source {
        base: Extended(t.base as i64),
        highest: Extended(t.highest as i64),
        notect: since(counts, s.notect) + counts / 65536 % 256,
        ect1: since(counts, s.ect1) + counts / 0x100_0000 % 256,
        ect0: since(counts, s.ect0) + counts / 0x1_0000_0000 % 256,
        ce: since(counts, s.ce) + counts / 0x100_0000_0000 % 256,
        duplicates: since(counts, s.duplicates) + counts / 256 % 256,
        history: t.history,
        remembered,
    }
}
