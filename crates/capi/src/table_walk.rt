// One walk over the words of a table, which checks every place and finds the one of an SSRC. It refuses nothing: it tells a place of a table that neither 16
// nor 9 refuses, or none, and then the table itself is asked.
ghost use Rattle.std.specs.Prelude.{◌≡◌, true, cond, ◌+◌, ◌*◌, ◌^◌, ◌≤◌, ◌<◌, min, eqb, length, drop};
ghost use Rattle.capi.specs.TableWalks.{counted_in, FewMarked, HasCounted, Fine, AllZero, Told};

use lent::table_words::WORDS;

// What is told where no place is: the most places, since they are counted from 0.
pub const UNTOLD: usize = 16;

// Above an SSRC, and above the word of a remembered number.
const SSRCS: u64 = 0x1_0000_0000;

const REMEMBERED_WORDS: u64 = 65537;

// The most arrivals, and what the numbers of a record are held to (document 01, "Counting arrivals").
const MOST: u64 = 0x1_0000_0000_0000;

const MOST_AHEAD: u64 = 2999;

const OLDER: u64 = 0x10_0000_0000;

// The arrivals counted in the words of a place, and MOST + 1 where there are more.
fn arrivals(words: &[u64]) -> u64
    requires { 11 ≤ length words.now }
    ensures { result ≡ min (counted_in words.now) (2 ^ 48 + 1) }
{
    let notect = words[3];
    let ect1 = words[4];
    let ect0 = words[5];
    let ce = words[6];
    if MOST < notect {
        return MOST + 1;
    }
    if MOST < ect1 {
        return MOST + 1;
    }
    if MOST < ect0 {
        return MOST + 1;
    }
    if MOST < ce {
        return MOST + 1;
    }
    let n = notect + ect1 + ect0 + ce;
    if MOST < n {
        return MOST + 1;
    }
    n
}

// Whether at most so many places of a history are marked.
fn few_marked(recent: u64, older: u64, most: u64) -> bool
    ensures { result ≡ true → FewMarked recent older most }
{
    let near = u64::count_ones(recent) as u64;
    let far = u64::count_ones(older) as u64;
    near + far <= most
}

// Whether the record in the words of a place has counted n arrivals.
fn has_counted(words: &[u64], n: u64) -> bool
    requires { (11 ≤ length words.now) × (n ≤ 2 ^ 48) }
    ensures { result ≡ true → HasCounted words.now n }
{
    let base = words[1];
    let highest = words[2];
    let duplicates = words[7];
    let recent = words[8];
    let older = words[9];
    if n <= duplicates {
        return false;
    }
    if 65535 < base {
        return false;
    }
    if highest < base {
        return false;
    }
    let distinct = n - duplicates;
    if MOST_AHEAD * (distinct - 1) < highest - base {
        return false;
    }
    if recent % 2 == 0 {
        return false;
    }
    if OLDER <= older {
        return false;
    }
    few_marked(recent, older, distinct)
}

// Whether a place is held, of an SSRC from `least` on, and its record sound.
fn is_fine(words: &[u64], least: u64) -> bool
    requires { 11 ≤ length words.now }
    ensures { result ≡ true → Fine least words.now }
{
    let ssrc = words[0];
    if ssrc < least {
        return false;
    }
    if SSRCS <= ssrc {
        return false;
    }
    if REMEMBERED_WORDS <= words[10] {
        return false;
    }
    let n = arrivals(words);
    if MOST < n {
        return false;
    }
    has_counted(words, n)
}

// Whether all words from `from` on are 0: the places there are empty.
fn are_zero(words: &[u64], from: usize) -> bool
    ensures { result ≡ true → AllZero (drop from words.now) }
{
    for i in from..words.len() {
        if 0 < words[i] {
            return false;
        }
    }
    true
}

// The place that is told: i where it has the SSRC, the one before otherwise.
fn chosen(here: u64, ssrc: u32, i: usize, at: usize) -> usize
    ensures { result ≡ cond (eqb here ssrc) i at }
{
    if here == ssrc as u64 {
        return i;
    }
    at
}

// The place told at the first one that is not fine: that and all after it have to be empty.
fn ended(words: &[u64], from: usize, at: usize) -> usize
    ensures { result < 16 → (AllZero (drop from words.now)) × (result ≡ at) }
{
    if are_zero(words, from) {
        return at;
    }
    UNTOLD
}

// The place of an SSRC among n.
fn walk(words: &[u64], n: usize, ssrc: u32) -> usize
    requires { (n ≤ 16) × (length words.now ≡ 11 * n) }
    ensures { result < 16 → Told words.now ssrc result }
{
    let mut least: u64 = 0;
    let mut at: usize = UNTOLD;
    for i in 0..n {
        let from = WORDS * i;
        if !is_fine(&words[from..], least) {
            return ended(words, from, at);
        }
        let here = words[from];
        at = chosen(here, ssrc, i, at);
        least = here + 1;
    }
    at
}

// The place of an SSRC in a table that neither 16 nor 9 refuses; or UNTOLD.
pub fn place_of(words: &[u64], ssrc: u32) -> usize
    ensures { result < 16 → Told words.now ssrc result }
{
    if words.len() % WORDS != 0 {
        return UNTOLD;
    }
    let n = words.len() / WORDS;
    if UNTOLD < n {
        return UNTOLD;
    }
    walk(words, n, ssrc)
}
