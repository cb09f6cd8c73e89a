// The packets lost of a source, as 1 word.
ghost use Rattle.std.specs.Prelude.{◌≡◌};
ghost use Rattle.std.proofs.lemmas.List.Edits.{sets};
ghost use Rattle.lent.specs.LostWords.{lost_words};

use crate::access::{complement, put};

// The words of a number of packets lost.
pub const WORDS: usize = 1;

// Stores the word of a number of packets lost, if there is a place.
pub fn store(lost: i64, words: &mut [u64])
    ensures { words.new ≡ sets words.old 0 (lost_words lost) }
{
    put(complement(lost), words, 0);
}
