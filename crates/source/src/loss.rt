// The packets that are lost.
ghost use Rattle.std.specs.Prelude.{◌≡◌, true, false};
ghost use Rattle.source.specs.Record.{fresh, has_counted, lost};

use crate::{Source, sequence, soundness};

// highest - base + 1 - distinct, in a record that has counted.
pub fn packets(s: Source) -> i64
    requires { (fresh s ≡ false) × (has_counted s ≡ true) }
    ensures { result ≡ lost s }
{
    let span = sequence::natural(s.highest) - sequence::natural(s.base) + 1;
    let distinct = soundness::arrivals(s) - s.duplicates;
    span as i64 - distinct as i64
}
