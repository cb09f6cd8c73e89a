// The widths of numbers in lent words: a fraction lost is below FRACTIONS, a highest number below NUMBERS, packets marked or lost below COUNTS.
ghost use Rattle.std.specs.Prelude.{◌≡◌, ltb, get_or};
ghost use Rattle.answers.specs.Conditions.{all};
ghost use Rattle.lent.specs.Widths.{counts_fit};

use crate::access::word_at;

pub const FRACTIONS: u64 = 0x100;

pub const NUMBERS: u64 = 0x1_0000_0000;

pub const COUNTS: u64 = 0x1_0000;

// Whether the word at `at` is below a limit.
pub fn is_below(words: &[u64], at: usize, limit: u64) -> bool
    ensures { result ≡ ltb (get_or words.now at 0) limit }
{
    word_at(words, at) < limit
}

// Whether packets marked, the word at `ce`, and lost, the word at `lost`, have their width.
pub fn counts_fit(words: &[u64], ce: usize, lost: usize) -> bool
    ensures { result ≡ all (counts_fit words.now ce lost) }
{
    if !is_below(words, ce, COUNTS) {
        return false;
    }
    is_below(words, lost, COUNTS)
}
