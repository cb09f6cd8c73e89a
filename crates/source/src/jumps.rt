// The counts of jumps and of restarts.
ghost use Rattle.std.specs.Prelude.{◌≡◌, ◌+◌, min};
ghost use Rattle.source.specs.Totals.{most_told};

use crate::Totals;

// A count so far and that of a block; it stays at its most.
pub fn raised(total: u64, more: u64) -> u64
    ensures { result ≡ min (total + more) most_told }
{
    total.saturating_add(more).min(Totals::MOST)
}
