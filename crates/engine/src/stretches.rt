// A part of a block, at most 31 records, counted at once where it can be.
ghost use Rattle.std.specs.Prelude.{◌≡◌, true, ◌-◌};
ghost use Rattle.numbers.specs.BigEndian.{word};
ghost use Rattle.engine.specs.Limits.{Held};
ghost use Rattle.engine.specs.Windows.{held, turned, wired};
ghost use Rattle.engine.specs.Settled.{scanned_onto, PartIs, Roomy, Added};
ghost use Rattle.engine.specs.Scans.{scan_of};

use crate::records::number;
use crate::scans::Scan;
use crate::shifts::{AHEAD, Shifted};
use crate::window::WIDE;
use crate::{scans, shifts, window};
use numbers::sign::magnitude;
use source::{Extended, Source};

// The record behind the part; that a mark is above 3; or that a number lies outside the record's window, and whether most numbers follow the first.
#[derive(Clone, Copy)]
pub enum Part {
    Counted(Source),
    Misfit,
    Outside(bool),
}

// So many of a part's numbers may stray from the row of the first where it is worth a test for the next number.
const FEW_STRAYS: u64 = 28;

// The record with n arrivals more.
fn settled(s: Source, n: usize, scan: Scan, shifted: Shifted) -> Source
    requires { Added s n scan shifted }
    ensures { result ≡ scanned_onto s n scan shifted }
{
    Source {
        base: s.base,
        highest: Extended((magnitude(s.highest.0) + shifted.up) as i64),
        notect: s.notect + scan.notect,
        ect1: s.ect1 + scan.ect1,
        ect0: s.ect0 + scan.ect0,
        ce: s.ce + scan.ce,
        duplicates: s.duplicates + (n as u64 - shifted.more),
        history: shifted.history,
        remembered: None,
    }
}

// A part whose marks fit, with its first number, which lies in the window, and its scan.
fn placed(s: Source, records: &[u8], width: usize, n: usize, first: u64, scan: Scan) -> Part
    requires held { (Held width records.now n) × Roomy s n }
    requires from_first { (first ≡ word 2 records.now (width - 4)) × (Some scan ≡ scan_of (turned first) (held width records.now)) }
    ensures { PartIs s (held width records.now) result }
{
    let top = magnitude(s.highest.0) % 65536 + AHEAD;
    let Some(bits) = window::find(records, width, n, top, first, scan.strays) else {
        return Part::Outside(scan.strays < FEW_STRAYS);
    };
    Part::Counted(settled(s, n, scan, shifts::moved_on(s.history, bits)))
}

// The n records of a part. Where the first number lies outside, nothing but its marks is looked at.
pub fn count_part(s: Source, records: &[u8], width: usize, n: usize) -> Part
    requires { (Held width records.now n) × Roomy s n }
    ensures { (PartIs s (held width records.now) result) × (wired (held width records.now) ≡ true) }
{
    let first = number(records, 0, width);
    let top = magnitude(s.highest.0) % 65536 + AHEAD;
    let below = (top + 65536 - first) % 65536;
    if WIDE <= below {
        if 0 < scans::fours(records, width, n) {
            return Part::Misfit;
        }
        return Part::Outside(false);
    }
    let turned = first / 256 + first % 256 * 256;
    match scans::marks(records, width, n, turned as u32) {
        Some(scan) => placed(s, records, width, n, first, scan),
        None => Part::Misfit,
    }
}
