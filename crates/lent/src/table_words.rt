// A table of several sources in words, 11 for each place: its SSRC, and the 10 words of its source's record.
ghost use Rattle.std.specs.Prelude.{◌≡◌, ◌*◌, ◌≤◌, length};
ghost use Rattle.std.proofs.lemmas.List.Edits.{sets};
ghost use Rattle.answers.specs.Conditions.{all};
ghost use Rattle.sources.specs.Tables as table;
ghost use Rattle.lent.specs.TableWords.{place_words, table_words, each_below, are_places, loaded};
ghost use Rattle.lent.specs.TableReads.{place_near, places_near};

use crate::access::{put, put_all, word_at};
use crate::source_words;
use answers::Refusal;
use sources::{Place, Table};

// The words of a place, and the word of its remembered number.
pub const WORDS: usize = 11;

const REMEMBERED: usize = 10;

// Above an SSRC, and above the word of a remembered number.
const SSRCS: u64 = 0x1_0000_0000;

const REMEMBERED_WORDS: u64 = 65537;

// Whether word k of each of n places is below a limit.
fn each_below(words: &[u64], n: usize, k: usize, limit: u64) -> bool
    requires { (n ≤ 16) × (k ≤ 10) }
    ensures { result ≡ each_below limit k n words.now }
{
    for i in 0..n {
        if limit <= word_at(words, WORDS * i + k) {
            return false;
        }
    }
    true
}

// Whether words are whole places, at most 16, whose SSRCs have 32 bits.
#[tactic(auto, using(std::proofs::lemmas::Bool::Decides::nat_tests))]
fn are_places(words: &[u64]) -> bool
    ensures { result ≡ all (are_places words.now) }
{
    let n = words.len() / WORDS;
    words.len() % WORDS == 0 && n <= Table::MOST && each_below(words, n, 0, SSRCS)
}

// The place in the first 11 words.
fn place_in(words: &[u64]) -> Place
    requires { 11 ≤ length words.now }
    ensures { result ≡ place_near words.now }
{
    Place {
        ssrc: (words[0] % SSRCS) as u32,
        source: source_words::read(&words[1..]),
    }
}

// The table of the first n places.
fn table_in(words: &[u64], n: usize) -> Table
    requires { (n ≤ 16) × (11 * n ≤ length words.now) }
    ensures { result ≡ table.loaded (places_near n words.now) }
{
    let mut t = Table::empty(n);
    for i in 0..n {
        let at = WORDS * i;
        t.places[i] = place_in(&words[at..]);
    }
    t
}

// Takes a table from words. Refusals: 16 no places of a table, and 16 or 9 where a remembered word is too large. (The calls of the table give the others.)
pub fn load(words: &[u64]) -> Result<Table, Refusal>
    ensures { result ≡ loaded words.now }
{
    if !are_places(words) {
        return Err(Refusal::Rules);
    }
    let n = words.len() / WORDS;
    let table = table_in(words, n);
    if each_below(words, n, REMEMBERED, REMEMBERED_WORDS) {
        return Ok(table);
    }
    table.check()?;
    Err(Refusal::Malformed)
}

// Stores a place's words from `at` on.
fn put_place(p: Place, words: &mut [u64], at: usize)
    requires { at ≤ 165 }
    ensures { words.new ≡ sets words.old at (place_words p) }
{
    put(p.ssrc as u64, words, at);
    put_all(&source_words::words_of(p.source), words, at + 1);
}

// Stores the words of a place at the front, as far as there are words.
pub fn store_place(p: Place, words: &mut [u64])
    ensures { words.new ≡ sets words.old 0 (place_words p) }
{
    put_place(p, words, 0);
}

// How many places a table has in use.
pub fn in_use(t: Table) -> usize
    ensures { result ≡ length (table.lent t) }
{
    t.count.min(Table::MOST)
}

// Stores the words of a table's places in use, as far as there are words.
pub fn store(t: Table, words: &mut [u64])
    ensures { words.new ≡ sets words.old 0 (table_words (table.lent t)) }
{
    let n = in_use(t);
    for i in 0..n {
        put_place(t.places[i], words, WORDS * i);
    }
}
