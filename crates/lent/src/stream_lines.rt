// The lines of a run of ecnstreams in words, 13 for each: its SSRC, the 10 words of its source's record, jumped and restarts.
ghost use Rattle.std.specs.Prelude.{◌≡◌, true, ◌+◌, ◌*◌, ◌≤◌, ◌<◌, leb, length, get_or, replicate};
ghost use Rattle.std.proofs.lemmas.List.Edits.{sets};
ghost use Rattle.answers.specs.Conditions.{all};
ghost use Rattle.sources.specs.Places.{empty_place};
ghost use Rattle.sources.specs.Rules.{rising};
ghost use Rattle.sources.specs.Tallies.{no_tally};
ghost use Rattle.lent.specs.StreamWords.{place_in, tally_in, each_line, is_held, line_fits};

use crate::access::word_at;
use crate::source_words;
use sources::runs::Tally;
use sources::{Place, Table};

// The words of a line.
pub const WORDS: usize = 13;

// Above an SSRC.
const SSRCS: u64 = 0x1_0000_0000;

// The greatest word of a remembered number: a wire number + 1.
const MOST_REMEMBERED: u64 = 65536;

// Whether the SSRCs of n lines rise.
pub fn rise(lines: &[u64], n: usize) -> bool
    requires { n ≤ 16 }
    ensures { result ≡ rising 0 (each_line place_in n lines.now) }
{
    let mut i: usize = 1;
    while i < n {
        let before = word_at(lines, WORDS * (i - 1));
        if word_at(lines, WORDS * i) <= before {
            return false;
        }
        i += 1;
    }
    true
}

// Whether a line is held: some mark is counted.
fn is_held(line: &[u64]) -> bool
    ensures { result ≡ is_held line.now }
{
    if 0 < word_at(line, 3) {
        return true;
    }
    if 0 < word_at(line, 4) {
        return true;
    }
    if 0 < word_at(line, 5) {
        return true;
    }
    0 < word_at(line, 6)
}

// Whether n lines are held.
pub fn are_held(lines: &[u64], n: usize) -> bool
    requires { (n ≤ 16) × (13 * n ≤ length lines.now) }
    ensures { result ≡ all (each_line is_held n lines.now) }
{
    let mut i: usize = 0;
    while i < n {
        let at = WORDS * i;
        if !is_held(&lines[at..]) {
            return false;
        }
        i += 1;
    }
    true
}

// Whether the SSRC of a line and its remembered number have their width.
fn fits(line: &[u64]) -> bool
    ensures { result ≡ line_fits line.now }
{
    if SSRCS <= word_at(line, 0) {
        return false;
    }
    word_at(line, 10) <= MOST_REMEMBERED
}

// Whether those of n lines have.
pub fn fit(lines: &[u64], n: usize) -> bool
    requires { (n ≤ 16) × (13 * n ≤ length lines.now) }
    ensures { result ≡ all (each_line line_fits n lines.now) }
{
    let mut i: usize = 0;
    while i < n {
        let at = WORDS * i;
        if !fits(&lines[at..]) {
            return false;
        }
        i += 1;
    }
    true
}

// The place in the first 11 words of a line.
fn place_in(line: &[u64]) -> Place
    requires { (13 ≤ length line.now) × (line_fits line.now ≡ true) }
    ensures { result ≡ place_in line.now }
{
    let source = source_words::read(&line[1..]);
    let ssrc = line[0];
    Place {
        ssrc: ssrc as u32,
        source,
    }
}

// The table of n lines.
pub fn table_in(lines: &[u64], n: usize) -> Table
    requires { (n ≤ 16) × (13 * n ≤ length lines.now) × (all (each_line line_fits n lines.now) ≡ true) }
    ensures { result ≡ record { places = sets (replicate 16 empty_place) 0 (each_line place_in n lines.now); count = 16 } }
{
    let mut t = Table::empty(Table::MOST);
    let mut i: usize = 0;
    while i < n {
        let at = WORDS * i;
        let p = place_in(&lines[at..]);
        t.places[i] = p;
        i += 1;
    }
    t
}

// Jumped and restarts of a line.
fn tally_in(line: &[u64]) -> Tally
    ensures { result ≡ tally_in line.now }
{
    let jumped = word_at(line, 11);
    let restarts = word_at(line, 12);
    Tally { jumped, restarts }
}

// Those of n lines.
pub fn tallies_in(lines: &[u64], n: usize) -> [Tally; 16]
    requires { (n ≤ 16) × (13 * n ≤ length lines.now) }
    ensures { result ≡ sets (replicate 16 no_tally) 0 (each_line tally_in n lines.now) }
{
    let tally = Tally::fresh();
    let mut tallies = [tally; 16];
    let mut i: usize = 0;
    while i < n {
        let at = WORDS * i;
        let t = tally_in(&lines[at..]);
        tallies[i] = t;
        i += 1;
    }
    tallies
}
