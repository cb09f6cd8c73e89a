// A run of ecntable as 15 words: its form, the label's length, the SSRC, the 10 words of the source's record, jumped and restarts.
ghost use Rattle.std.specs.Prelude.{◌≡◌};
ghost use Rattle.std.proofs.lemmas.List.Edits.{sets};
ghost use Rattle.lent.specs.RunWords.{loaded, run_words};

use crate::access::{put_all, word_at};
use crate::form_words::{is_form, number_of};
use crate::run_parts::{AFTER, NUMBERS, SOURCE, run_with};
use crate::source_words;
use convert::Run;

// The words of a run.
pub const WORDS: usize = 15;

// The run in 15 words; another number of them, another form, an SSRC past 32 bits and words that are no source's record are no run's.
pub fn load(words: &[u64]) -> Option<Run>
    ensures { result ≡ loaded words.now }
{
    if words.len() != WORDS {
        return None;
    }
    if !is_form(word_at(words, 0)) {
        return None;
    }
    if NUMBERS <= word_at(words, 2) {
        return None;
    }
    match source_words::load(&words[SOURCE..AFTER]) {
        Some(source) => Some(run_with(words, source)),
        None => None,
    }
}

// Stores the words of a run, as far as there are places.
pub fn store(run: Run, words: &mut [u64])
    ensures { words.new ≡ sets words.old 0 (run_words run) }
{
    let form = run.form;
    let totals = run.totals;
    let source = totals.source;
    let front = [number_of(form), run.length as u64, run.ssrc as u64];
    let record = source_words::words_of(source);
    let back = [totals.jumped, totals.restarts];
    put_all(&front, words, 0);
    put_all(&record, words, SOURCE);
    put_all(&back, words, AFTER);
}
