// The two roots of the full throughput equation (document 02, request L9; RFC 8083, section 4.3), from tables, and its denominator with them;
// docs/BREAKER.md derives both. p is taken in 1024ths: p = n / 1024.
#![tactic(auto)]

ghost use Rattle.std.specs.Prelude.{◌≡◌, min};
ghost use Rattle.roots.specs.Roots.{round_trip_root, timeout_root};
ghost use Rattle.roots.specs.FullCondition.{scaled_denominator};
ghost use Rattle.roots.specs.Private.{GivesRoot};

mod tables;

// The last n of the tables: p = 1. A greater n is taken as this.
const MOST: u64 = 1024;

// The entry for n. The tables begin with n = 1; for n = 0 the root is 0.
fn entry(table: [u32; 1024], n: u64) -> u64
    ensures { GivesRoot table n result }
{
    let m = n.min(MOST);
    if m == 0 {
        return 0;
    }
    let i = (m - 1) as usize;
    table[i] as u64
}

// The round trip's root, √(2p/3), times 2^20 and rounded down.
pub fn round_trip_root(n: u64) -> u64
    ensures { result ≡ round_trip_root (min n 1024) }
{
    entry(tables::ROUND_TRIP, n)
}

// The timeout's root, √(3p/8), times 2^20 and rounded down.
pub fn timeout_root(n: u64) -> u64
    ensures { result ≡ timeout_root (min n 1024) }
{
    entry(tables::TIMEOUT, n)
}

// The equation's denominator for a round trip of 1, times 2^50: √(2p/3) + 12 · √(3p/8) · p · (1 + 32 · p²) with these roots. 0x4000_0000 is
// 2^30, and 0x10_0000 is 2^20.
#[tactic(auto, using(crate::proofs::Sizes::parts_of_lem))]
pub fn scaled_denominator(n: u64) -> u64
    ensures { result ≡ scaled_denominator (min n 1024) }
{
    let m = n.min(MOST);
    let a = round_trip_root(m);
    let b = timeout_root(m);
    a * 0x4000_0000 + 12 * b * m * (0x10_0000 + 32 * m * m)
}
