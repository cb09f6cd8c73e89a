// A run of ecnstreams in words: 3 of the run, its form, the label's length and how many lines are held; and 13 for each of 16 lines.
ghost use Rattle.std.specs.Prelude.{◌≡◌, true, ◌*◌, ◌≤◌, leb, length};
ghost use Rattle.std.proofs.lemmas.List.Edits.{sets};
ghost use Rattle.answers.specs.Conditions.{all};
ghost use Rattle.source.specs.Record.{arrivals};
ghost use Rattle.sources.specs.Places.{held_of};
ghost use Rattle.sources.specs.Tables.{lent};
ghost use Rattle.sources.specs.Rows.{line_of};
ghost use Rattle.lent.specs.StreamWords.{run_words, line_words, stored_lines, held_in, run_of, are_words, are_ruled, are_fit, loaded};

use crate::access::{put, put_all, word_at};
use crate::form_words::{form_of, is_form, number_of};
use crate::table_words::in_use;
use crate::{source_words, stream_lines};
use answers::Refusal;
use source::Source;
use sources::runs::{Run, Tally};
use sources::{Place, Table};

// The words of a run, and those of 16 lines.
pub const WORDS: usize = 3;

pub const LINES: usize = 208;

// Whether there are words of a run and of 16 lines, and at most so many are held.
#[tactic(auto, using(std::proofs::lemmas::Bool::Decides::nat_tests))]
fn are_words(words: &[u64], lines: &[u64]) -> bool
    ensures { result ≡ all (are_words words.now lines.now) }
{
    words.len() == WORDS && LINES <= lines.len() && word_at(words, 2) <= Table::MOST as u64
}

// Whether n lines keep the rules of a table.
#[tactic(auto, using(std::proofs::lemmas::Bool::Decides::nat_tests))]
fn are_ruled(lines: &[u64], n: usize) -> bool
    requires { (n ≤ 16) × (13 * n ≤ length lines.now) }
    ensures { result ≡ all (are_ruled n lines.now) }
{
    stream_lines::rise(lines, n) && stream_lines::are_held(lines, n)
}

// Whether the form is one, and n lines have their widths.
#[tactic(auto, using(std::proofs::lemmas::Bool::Decides::nat_tests))]
fn are_fit(words: &[u64], lines: &[u64], n: usize) -> bool
    requires { (n ≡ held_in words.now) × (n ≤ 16) × (13 * n ≤ length lines.now) }
    ensures { result ≡ all (are_fit words.now lines.now) }
{
    is_form(word_at(words, 0)) && stream_lines::fit(lines, n)
}

// The run of n lines.
fn run_in(words: &[u64], lines: &[u64], n: usize) -> Run
    requires { (n ≡ held_in words.now) × (n ≤ 16) × (13 * n ≤ length lines.now) × (all (are_fit words.now lines.now) ≡ true) }
    ensures { result ≡ run_of words.now lines.now }
{
    let form = form_of(word_at(words, 0));
    let length = word_at(words, 1);
    let table = stream_lines::table_in(lines, n);
    let tallies = stream_lines::tallies_in(lines, n);
    Run {
        form,
        length: length as usize,
        table,
        tallies,
    }
}

// Takes a run from words. Lines behind the held ones are not read. Refusals: 9 another number of words or over 16 lines held, 16 held lines against the rules of
// a table, 9 another form, or an SSRC or a remembered word that is too large. (The calls of the run give the others.)
pub fn load(words: &[u64], lines: &[u64]) -> Result<Run, Refusal>
    ensures { result ≡ loaded words.now lines.now }
{
    if !are_words(words, lines) {
        return Err(Refusal::Malformed);
    }
    let n = word_at(words, 2) as usize;
    if !are_ruled(lines, n) {
        return Err(Refusal::Rules);
    }
    if !are_fit(words, lines, n) {
        return Err(Refusal::Malformed);
    }
    Ok(run_in(words, lines, n))
}

// Whether a record has an arrival counted.
#[tactic(auto, using(std::proofs::lemmas::Bool::Decides::nat_tests))]
fn has_arrivals(s: Source) -> bool
    ensures { result ≡ leb 1 (arrivals s) }
{
    0 < s.notect || 0 < s.ect1 || 0 < s.ect0 || 0 < s.ce
}

// How many places are held in front.
fn held_in(t: Table) -> usize
    ensures { result ≡ length (held_of (lent t)) }
{
    let n = in_use(t);
    for i in 0..n {
        if !has_arrivals(t.places[i].source) {
            return i;
        }
    }
    n
}

// Stores the words of a run, as far as there are words.
pub fn store(run: Run, words: &mut [u64])
    ensures { words.new ≡ sets words.old 0 (run_words run) }
{
    let held = held_in(run.table);
    let new = [number_of(run.form), run.length as u64, held as u64];
    put_all(&new, words, 0);
}

// Stores a line's words from `at` on.
fn put_line(p: Place, t: Tally, lines: &mut [u64], at: usize)
    requires { at ≤ 195 }
    ensures { lines.new ≡ sets lines.old at (line_words (line_of p t)) }
{
    let record = source_words::words_of(p.source);
    let tally = [t.jumped, t.restarts];
    put(p.ssrc as u64, lines, at);
    put_all(&record, lines, at + 1);
    put_all(&tally, lines, at + 11);
}

// Stores the words of a run's lines, as far as there are words. Those behind them are kept.
pub fn store_lines(run: Run, lines: &mut [u64])
    ensures { lines.new ≡ stored_lines lines.old run }
{
    let n = held_in(run.table);
    for i in 0..n {
        let at = stream_lines::WORDS * i;
        put_line(run.table.places[i], run.tallies[i], lines, at);
    }
}
