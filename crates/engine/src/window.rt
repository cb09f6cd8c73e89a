// Where the packets of a part lie in a window of 64 numbers: bit k stands for the number k below its top.
ghost use Rattle.std.specs.Prelude.{◌≡◌, ◌-◌, ◌≤◌, ◌<◌, length};
ghost use Rattle.numbers.specs.BigEndian.{word};
ghost use Rattle.engine.specs.Limits.{Held};
ghost use Rattle.engine.specs.Windows.{held, turned, strays, found_in, row_from, SeenIn};

use crate::limits::by_form;
use crate::records::number;

// The numbers of the window.
pub const WIDE: u64 = 64;

// The bits of the places, each modulo 64; and the places joined, which are below 64 where every place is.
#[derive(Clone, Copy)]
pub struct Seen {
    pub bits: u64,
    pub joined: u64,
}

fn seen_along(records: &[u8], width: usize, size: usize, n: usize, top: u64) -> Seen
    requires { (Held width records.now n) × (size ≡ length records.now) × (top < 131072) }
    ensures { SeenIn top (held width records.now) result }
{
    let mut bits: u64 = 0;
    let mut joined: u64 = 0;
    let mut at: usize = 0;
    while at < size {
        let below = top + 65536 - number(records, at, width);
        joined = joined | below;
        bits = bits | (1 << (below % WIDE));
        at += width;
    }
    Seen {
        bits,
        joined: joined % 65536,
    }
}

fn seen_in(records: &[u8], width: usize, n: usize, top: u64) -> Seen
    requires { (Held width records.now n) × (top < 131072) }
    ensures { SeenIn top (held width records.now) result }
{
    by_form(
        width,
        records.len(),
        |width, size| seen_along(records, width, size, n, top),
    )
}

// The places of n numbers in a row, of which the first lies at a place of the window.
fn row(n: usize, below: u64) -> Option<u64>
    requires { (1 ≤ n) × (n ≤ 31) × (below < 64) }
    ensures { result ≡ row_from n below }
{
    let last = n as u64 - 1;
    if below < last {
        return None;
    }
    Some(((1 << (n as u64)) - 1) << (below - last))
}

// Where the packets of a part lie, whose first number is given.
pub fn find(
    records: &[u8],
    width: usize,
    n: usize,
    top: u64,
    first: u64,
    astray: u64,
) -> Option<u64>
    requires held { (Held width records.now n) × (top < 131072) }
    requires from_first { (first ≡ word 2 records.now (width - 4)) × (astray ≡ strays (turned first) (held width records.now)) }
    ensures { result ≡ found_in top (held width records.now) }
{
    let below = (top + 65536 - first) % 65536;
    if WIDE <= below {
        return None;
    }
    if astray == 0 {
        return row(n, below);
    }
    let found = seen_in(records, width, n, top);
    if WIDE <= found.joined {
        return None;
    }
    Some(found.bits)
}
