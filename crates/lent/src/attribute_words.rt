// What an attribute says as 11 words: how many methods, eight methods, the mode and the ect.
ghost use Rattle.std.specs.Prelude.{◌≡◌, ◌<◌};
ghost use Rattle.std.proofs.lemmas.List.Edits.{sets};
ghost use Rattle.answers.specs.Conditions.{all};
ghost use Rattle.lent.specs.AttributeWords.{method_number, mode_number, ect_number, is_method, method_of, mode_of, ect_of, listed_at, attribute_in, place_fits};
ghost use Rattle.lent.specs.AttributeWords.{places_fit, is_attribute, loaded, place_word, attribute_words};

use crate::access::{put_all, word_at};
use crate::widths::is_below;
use sdp::{Attribute, Ect, Method, Mode};

// The words of a record.
pub const WORDS: usize = 11;

// The places of methods, and the words of the mode and the ect.
const PLACES: usize = 8;

const MODE: usize = 9;

const ECT: usize = 10;

// Modes and ects are below this.
const VALUES: u64 = 4;

#[tactic(auto, using(std::proofs::lemmas::Bool::Decides::nat_tests))]
fn is_method(number: u64) -> bool
    ensures { result ≡ is_method number }
{
    matches!(number, 1..=3)
}

// The method of 2 or 3, or else rtp.
#[tactic(auto, using(std::proofs::lemmas::Bool::Decides::nat_tests))]
fn method_of(number: u64) -> Method
    ensures { result ≡ method_of number }
{
    match number {
        2 => Method::Ice,
        3 => Method::Leap,
        _ => Method::Rtp,
    }
}

// The mode of 1 to 3, or else none.
#[tactic(auto, using(std::proofs::lemmas::Bool::Decides::nat_tests))]
fn mode_of(number: u64) -> Option<Mode>
    ensures { result ≡ mode_of number }
{
    match number {
        1 => Some(Mode::SetOnly),
        2 => Some(Mode::ReadOnly),
        3 => Some(Mode::SetRead),
        _ => None,
    }
}

// The ect of 1 to 3, or else none.
#[tactic(auto, using(std::proofs::lemmas::Bool::Decides::nat_tests))]
fn ect_of(number: u64) -> Option<Ect>
    ensures { result ≡ ect_of number }
{
    match number {
        1 => Some(Ect::One),
        2 => Some(Ect::Zero),
        3 => Some(Ect::Random),
        _ => None,
    }
}

// Whether place i is not in use, or has a method.
#[tactic(auto, using(std::proofs::lemmas::Bool::Decides::nat_tests))]
fn place_fits(words: &[u64], i: usize) -> bool
    requires { i < 8 }
    ensures { result ≡ place_fits words.now i }
{
    word_at(words, 0) <= i as u64 || is_method(word_at(words, i + 1))
}

fn places_fit(words: &[u64]) -> bool
    ensures { result ≡ all (places_fit words.now) }
{
    for i in 0..PLACES {
        if !place_fits(words, i) {
            return false;
        }
    }
    true
}

// Whether words are a record's.
#[tactic(auto, using(std::proofs::lemmas::Bool::Decides::nat_tests), unfolding(crate::specs::AttributeWords::is_attribute))]
fn do_fit(words: &[u64]) -> bool
    ensures { result ≡ is_attribute words.now }
{
    words.len() == WORDS
        && places_fit(words)
        && is_below(words, MODE, VALUES)
        && is_below(words, ECT, VALUES)
}

fn listed_at(words: &[u64], at: usize) -> Method
    ensures { result ≡ listed_at words.now at }
{
    method_of(word_at(words, at))
}

// The methods of the eight places.
fn methods_in(words: &[u64]) -> [Method; 8]
    ensures { result ≡ (attribute_in words.now).methods }
{
    [
        listed_at(words, 1),
        listed_at(words, 2),
        listed_at(words, 3),
        listed_at(words, 4),
        listed_at(words, 5),
        listed_at(words, 6),
        listed_at(words, 7),
        listed_at(words, 8),
    ]
}

fn attribute_in(words: &[u64]) -> Attribute
    ensures { result ≡ attribute_in words.now }
{
    Attribute {
        used: word_at(words, 0) as usize,
        methods: methods_in(words),
        mode: mode_of(word_at(words, MODE)),
        ect: ect_of(word_at(words, ECT)),
    }
}

// The record in 11 words; another number of them, a mode or an ect above 3, and a method in use that is not 1 to 3 are no record's.
#[tactic(auto, using(std::proofs::lemmas::Bool::Decides::nat_tests), unfolding(crate::specs::AttributeWords::loaded))]
pub fn load(words: &[u64]) -> Option<Attribute>
    ensures { result ≡ loaded words.now }
{
    if do_fit(words) {
        Some(attribute_in(words))
    } else {
        None
    }
}

fn method_number(method: Method) -> u64
    ensures { result ≡ method_number method }
{
    match method {
        Method::Rtp => 1,
        Method::Ice => 2,
        Method::Leap => 3,
    }
}

fn mode_number(mode: Option<Mode>) -> u64
    ensures { result ≡ mode_number mode }
{
    match mode {
        None => 0,
        Some(Mode::SetOnly) => 1,
        Some(Mode::SetRead) => 3,
        Some(Mode::ReadOnly) => 2,
    }
}

fn ect_number(ect: Option<Ect>) -> u64
    ensures { result ≡ ect_number ect }
{
    match ect {
        None => 0,
        Some(Ect::Zero) => 2,
        Some(Ect::One) => 1,
        Some(Ect::Random) => 3,
    }
}

// The method at place i, or 0 where it is not in use.
#[tactic(auto, using(std::proofs::lemmas::Bool::Decides::nat_tests))]
fn place_word(a: Attribute, i: usize) -> u64
    requires { i < 8 }
    ensures { result ≡ place_word a i }
{
    if i < a.used {
        return method_number(a.methods[i]);
    }
    0
}

// The 11 words of a record.
fn words_of(a: Attribute) -> [u64; 11]
    ensures { result ≡ attribute_words a }
{
    [
        a.used as u64,
        place_word(a, 0),
        place_word(a, 1),
        place_word(a, 2),
        place_word(a, 3),
        place_word(a, 4),
        place_word(a, 5),
        place_word(a, 6),
        place_word(a, 7),
        mode_number(a.mode),
        ect_number(a.ect),
    ]
}

// Stores the words of a record, as far as there are places.
pub fn store(a: Attribute, words: &mut [u64])
    ensures { words.new ≡ sets words.old 0 (attribute_words a) }
{
    put_all(&words_of(a), words, 0);
}
