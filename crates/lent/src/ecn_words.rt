// The ECN counts of a breaker's report, as 3 words.
ghost use Rattle.std.specs.Prelude.{◌≡◌};
ghost use Rattle.std.proofs.lemmas.List.Edits.{sets};
ghost use Rattle.lent.specs.EcnWords.{ecn_words};

use crate::access::{complement, put_all};
use breaker::EcnCounts;

// The words of ECN counts.
pub const WORDS: usize = 3;

// Stores the words of c, as far as there are places.
pub fn store(c: EcnCounts, words: &mut [u64])
    ensures { words.new ≡ sets words.old 0 (ecn_words c) }
{
    let new = [complement(c.lost), c.marked, c.expected];
    put_all(&new, words, 0);
}
