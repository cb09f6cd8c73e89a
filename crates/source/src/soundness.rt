// When a record is sound.
ghost use Rattle.std.specs.Prelude.{◌≡◌, ◌+◌, ◌^◌, min};
ghost use Rattle.source.specs.Record.{arrivals, fresh, has_counted, sound};

use crate::distances::MOST_AHEAD;
use crate::{Extended, Source, places, sequence};

// The most arrivals that are counted.
pub const MOST: u64 = 0x1_0000_0000_0000;

// The arrivals counted, and MOST + 1 where there are more: the counters of a malformed record may not be added up. (By saturating_add a call for one
// arrival has 3 % more instructions.)
pub fn arrivals(s: Source) -> u64
    ensures { result ≡ min (arrivals s) (2 ^ 48 + 1) }
{
    if MOST < s.notect || MOST < s.ect1 || MOST < s.ect0 || MOST < s.ce {
        return MOST + 1;
    }
    (s.notect + s.ect1 + s.ect0 + s.ce).min(MOST + 1)
}

// Whether every field is zero, and none is remembered.
#[tactic(auto, unfolding(crate::specs::Record::fresh))]
pub fn is_fresh(s: Source) -> bool
    ensures { result ≡ fresh s }
{
    sequence::is_zero(s.base)
        && sequence::is_zero(s.highest)
        && s.notect == 0
        && s.ect1 == 0
        && s.ect0 == 0
        && s.ce == 0
        && s.duplicates == 0
        && s.history.recent == 0
        && s.history.older == 0
        && s.remembered.is_none()
}

// Whether the record meets the conditions of one that has counted. (In groups: with one chain of && a call for one arrival has 6 % more instructions.)
#[tactic(auto, unfolding(crate::specs::Record::has_counted))]
pub fn has_counted(s: Source) -> bool
    ensures { result ≡ has_counted s }
{
    if !sequence::le(Extended(0), s.base)
        || !sequence::le(s.base, Extended(65535))
        || !sequence::le(s.base, s.highest)
    {
        return false;
    }
    let n = arrivals(s);
    if n < 1 || MOST < n || n <= s.duplicates {
        return false;
    }
    if !places::marked(s.history, 0) || places::OLDER <= s.history.older {
        return false;
    }
    let distinct = n - s.duplicates;
    places::at_most(s.history, distinct)
        && sequence::natural(s.highest) - sequence::natural(s.base) <= MOST_AHEAD * (distinct - 1)
}

// One that has counted, or fresh.
#[tactic(auto, unfolding(crate::specs::Record::sound))]
pub fn is_sound(s: Source) -> bool
    ensures { result ≡ sound s }
{
    has_counted(s) || is_fresh(s)
}
