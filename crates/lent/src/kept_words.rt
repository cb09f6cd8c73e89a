// What is kept of a receiver's last ECN report as 4 words: whether one is kept, its highest number, packets marked with CE and packets lost.
ghost use Rattle.std.specs.Prelude.{◌≡◌, true};
ghost use Rattle.std.proofs.lemmas.List.Edits.{sets};
ghost use Rattle.answers.specs.Conditions.{all};
ghost use Rattle.lent.specs.KeptWords.{numbers_fit, zeros, kept_numbers, loaded, kept_words};

use crate::access::{put_all, word_at};
use crate::widths::{NUMBERS, counts_fit, is_below};
use between::Kept;

// The words of what is kept.
pub const WORDS: usize = 4;

// Whether the numbers of an ECN report have their widths.
fn do_fit(words: &[u64]) -> bool
    ensures { result ≡ all (numbers_fit words.now) }
{
    if !is_below(words, 1, NUMBERS) {
        return false;
    }
    counts_fit(words, 2, 3)
}

// Whether all four words are 0.
fn are_zero(words: &[u64]) -> bool
    ensures { result ≡ all (zeros words.now) }
{
    if word_at(words, 0) != 0 {
        return false;
    }
    if word_at(words, 1) != 0 {
        return false;
    }
    if word_at(words, 2) != 0 {
        return false;
    }
    word_at(words, 3) == 0
}

// The ECN report in the words.
fn kept_in(words: &[u64]) -> Kept
    requires { all (numbers_fit words.now) ≡ true }
    ensures { result ≡ kept_numbers words.now }
{
    let highest = word_at(words, 1);
    let ce = word_at(words, 2);
    let lost = word_at(words, 3);
    Kept {
        highest: highest as u32,
        ce: ce as u16,
        lost: lost as u16,
    }
}

// What is kept in 4 words; another number of them, a first word above 1, a number past its width, and one that is not 0 where none is kept are
// not those of it.
pub fn load(words: &[u64]) -> Option<Option<Kept>>
    ensures { result ≡ loaded words.now }
{
    if words.len() != WORDS {
        return None;
    }
    if word_at(words, 0) == 1 {
        if !do_fit(words) {
            return None;
        }
        let kept = kept_in(words);
        return Some(Some(kept));
    }
    if !are_zero(words) {
        return None;
    }
    Some(None)
}

// The 4 words.
fn words_of(kept: Option<Kept>) -> [u64; 4]
    ensures { result ≡ kept_words kept }
{
    match kept {
        Some(k) => [1, k.highest as u64, k.ce as u64, k.lost as u64],
        None => [0u64; 4],
    }
}

// Stores the words of what is kept, as far as there are places.
pub fn store(kept: Option<Kept>, words: &mut [u64])
    ensures { words.new ≡ sets words.old 0 (kept_words kept) }
{
    let new = words_of(kept);
    put_all(&new, words, 0);
}
