// The record of one source in 10 words: base, highest, not-ECT, ECT(1), ECT(0), CE, duplicates, the history's two words, and what is remembered.
ghost use Rattle.std.specs.Prelude.{◌≡◌, ◌≤◌};
ghost use Rattle.std.proofs.lemmas.List.Edits.{sets};
ghost use Rattle.lent.specs.SourceWords.{remembered_in, remembered_word, source_with, source_near, loaded, source_words};

use crate::access::{complement, number, put_all, word_at};
use format::Wire;
use source::{Extended, History, Source};

// The words of a record.
pub const WORDS: usize = 10;

// The greatest last word: a wire number + 1.
const MOST_REMEMBERED: u64 = 65536;

// The number that a word says is remembered: 0 for none, the number + 1 otherwise.
fn remembered_in(word: u64) -> Option<Wire>
    requires { word ≤ 65536 }
    ensures { result ≡ remembered_in word }
{
    if word == 0 {
        return None;
    }
    Some(Wire((word - 1) as u16))
}

// And back.
fn word_of(remembered: Option<Wire>) -> u64
    ensures { result ≡ remembered_word remembered }
{
    match remembered {
        None => 0,
        Some(wire) => wire.0 as u64 + 1,
    }
}

// The record in the first 9 words, with what it remembers.
fn source_with(words: &[u64], remembered: Option<Wire>) -> Source
    ensures { result ≡ source_with words.now remembered }
{
    Source {
        base: Extended(number(word_at(words, 0))),
        highest: Extended(number(word_at(words, 1))),
        notect: word_at(words, 2),
        ect1: word_at(words, 3),
        ect0: word_at(words, 4),
        ce: word_at(words, 5),
        duplicates: word_at(words, 6),
        history: History {
            recent: word_at(words, 7),
            older: word_at(words, 8),
        },
        remembered,
    }
}

// The record in 10 words; another number of them, or a last word above 65,536, is no record's.
pub fn load(words: &[u64]) -> Option<Source>
    ensures { result ≡ loaded words.now }
{
    if words.len() != WORDS {
        return None;
    }
    let last = word_at(words, 9);
    if MOST_REMEMBERED < last {
        return None;
    }
    Some(source_with(words, remembered_in(last)))
}

// The record in the first 10 words, whatever the last is: one above 65,536 is read as 65,536.
pub fn read(words: &[u64]) -> Source
    ensures { result ≡ source_near words.now }
{
    let last = word_at(words, 9);
    if last <= MOST_REMEMBERED {
        return source_with(words, remembered_in(last));
    }
    source_with(words, remembered_in(MOST_REMEMBERED))
}

// The 10 words of a record.
pub fn words_of(s: Source) -> [u64; 10]
    ensures { result ≡ source_words s }
{
    let base = s.base;
    let highest = s.highest;
    let history = s.history;
    let remembered = s.remembered;
    [
        complement(base.0),
        complement(highest.0),
        s.notect,
        s.ect1,
        s.ect0,
        s.ce,
        s.duplicates,
        history.recent,
        history.older,
        word_of(remembered),
    ]
}

// Stores a record in the first 10 words.
pub fn store(s: Source, words: &mut [u64])
    ensures { words.new ≡ sets words.old 0 (source_words s) }
{
    let new = words_of(s);
    put_all(&new, words, 0);
}
