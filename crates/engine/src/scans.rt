// The marks of a part, and whether its numbers are in a row: sums that no packet decides, so that the compiler adds many at once.
ghost use Rattle.std.specs.Prelude.{◌≡◌, not, ◌/◌, ◌<◌, eqb, length};
ghost use Rattle.source.specs.Places.{bit};
ghost use Rattle.engine.specs.Limits.{Held};
ghost use Rattle.engine.specs.Windows.{held};
ghost use Rattle.engine.specs.Settled.{total};
ghost use Rattle.engine.specs.Scans.{SumsOf, scan_of};

use crate::limits::by_form;
use crate::records::ending;

// Of each mark t: t, t / 2, (t + 1) / 4 and t / 4, added up. Of marks to 3 the second counts 2 and 3, the third 3, and the fourth is 0. And how many packets
// have another number than the first and those that follow it.
#[derive(Clone, Copy)]
pub struct Sums {
    pub whole: u32,
    pub halves: u32,
    pub threes: u32,
    pub fours: u32,
    pub strays: u32,
}

// How many packets have each mark, and how many are not in the row.
#[derive(Clone, Copy)]
pub struct Scan {
    pub notect: u64,
    pub ect1: u64,
    pub ect0: u64,
    pub ce: u64,
    pub strays: u64,
}

// 1 where two numbers differ.
fn differs(a: u32, b: u32) -> u32
    ensures { result ≡ bit (not (eqb a b)) }
{
    u32::from(a != b)
}

// (Here and in the other loops over a part a step of its own: `size` is a constant for a whole part, and the proofs speak of the place `at`.)
fn added_up(records: &[u8], width: usize, size: usize, n: usize, turned: u32) -> Sums
    requires { (Held width records.now n) × (size ≡ length records.now) × (turned < 65536) }
    ensures { SumsOf turned (held width records.now) result }
{
    let mut whole: u32 = 0;
    let mut halves: u32 = 0;
    let mut threes: u32 = 0;
    let mut fours: u32 = 0;
    let mut strays: u32 = 0;
    let mut expected = turned;
    let mut at: usize = 0;
    while at < size {
        let word = ending(records, at, width);
        let mark = word / 65536 % 256;
        whole += mark;
        halves += mark / 2;
        threes += (mark + 1) / 4;
        fours += mark / 4;
        strays += differs(word % 65536, expected);
        expected += 256;
        at += width;
    }
    Sums {
        whole,
        halves,
        threes,
        fours,
        strays,
    }
}

// The sums of a part. (Its length is a number that the compiler knows where the part is a whole one.)
fn added(records: &[u8], width: usize, n: usize, turned: u32) -> Sums
    requires { (Held width records.now n) × (turned < 65536) }
    ensures { SumsOf turned (held width records.now) result }
{
    by_form(
        width,
        records.len(),
        |width, size| added_up(records, width, size, n, turned),
    )
}

// The marks of a part, and whether its numbers follow a first one.
pub fn marks(records: &[u8], width: usize, n: usize, turned: u32) -> Option<Scan>
    requires { (Held width records.now n) × (turned < 65536) }
    ensures { result ≡ scan_of turned (held width records.now) }
{
    let sums = added(records, width, n, turned);
    if 0 < sums.fours {
        return None;
    }
    let whole = sums.whole as u64;
    let halves = sums.halves as u64;
    let threes = sums.threes as u64;
    let ones = whole - 2 * halves - threes;
    Some(Scan {
        notect: n as u64 - ones - halves,
        ect1: ones,
        ect0: halves - threes,
        ce: threes,
        strays: sums.strays as u64,
    })
}

fn fours_along(records: &[u8], width: usize, size: usize, n: usize) -> u32
    requires { (Held width records.now n) × (size ≡ length records.now) }
    ensures { result ≡ total (λ t. t / 4) (held width records.now) }
{
    let mut fours: u32 = 0;
    let mut at: usize = 0;
    while at < size {
        let word = ending(records, at, width);
        fours += word / 65536 % 256 / 4;
        at += width;
    }
    fours
}

// Of each mark t of a part t / 4, added up: 0 where no mark is above 3.
pub fn fours(records: &[u8], width: usize, n: usize) -> u32
    requires { Held width records.now n }
    ensures { result ≡ total (λ t. t / 4) (held width records.now) }
{
    by_form(
        width,
        records.len(),
        |width, size| fours_along(records, width, size, n),
    )
}
