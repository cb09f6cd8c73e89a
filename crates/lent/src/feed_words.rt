// An upload as 18 words: the 15 of its run, the whole blocks taken, the bytes kept, and the kept refusal, 0 for none. While no block is taken the form's word is
// 0, so that 18 zeros are a fresh upload.
ghost use Rattle.std.specs.Prelude.{◌≡◌, ◌^◌, ◌<◌, get_or};
ghost use Rattle.std.proofs.lemmas.List.Edits.{sets};
ghost use Rattle.lent.specs.FeedWords.{is_form_word, form_word, is_end, ended_of, end_word, upload_with, loaded, feed_words};

use crate::access::{put_all, word_at};
use crate::form_words::{is_form, number_of};
use crate::run_parts::{AFTER, NUMBERS, SOURCE, run_with};
use crate::source_words;
use answers::Refusal;
use convert::feeds::Upload;
use source::Source;

// The words of an upload.
pub const WORDS: usize = 18;

// Whether the form's word is an upload's that has taken so many blocks.
fn is_form_word(blocks: u64, word: u64) -> bool
    ensures { result ≡ is_form_word blocks word }
{
    if blocks == 0 {
        return word == 0;
    }
    is_form(word)
}

// And that word.
fn form_word(u: Upload) -> u64
    ensures { result ≡ form_word u.blocks u.run.form }
{
    if u.blocks == 0 {
        return 0;
    }
    let run = u.run;
    let form = run.form;
    number_of(form)
}

// Whether the number is 0 or a refusal's that is kept.
fn is_end(number: u64) -> bool
    ensures { result ≡ is_end number }
{
    if number == 0 {
        return true;
    }
    if number == 1 {
        return true;
    }
    if number == 13 {
        return true;
    }
    number == 14
}

// No refusal, 1, 13 or 14.
fn ended_of(number: u64) -> Option<Refusal>
    ensures { result ≡ ended_of number }
{
    if number == 0 {
        return None;
    }
    if number == 1 {
        return Some(Refusal::Incomplete);
    }
    if number == 13 {
        return Some(Refusal::Checksum);
    }
    Some(Refusal::Contents)
}

// And back.
fn end_word(ended: Option<Refusal>) -> u64
    ensures { result ≡ end_word ended }
{
    match ended {
        None => 0,
        Some(refusal) => refusal.number() as u64,
    }
}

// The upload in the words around the source's record, with that record.
fn upload_with(words: &[u64], source: Source) -> Upload
    requires { get_or words.now 2 0 < 2 ^ 32 }
    ensures { result ≡ upload_with words.now source }
{
    let run = run_with(words, source);
    let blocks = word_at(words, 15);
    let kept = word_at(words, 16);
    let ended = ended_of(word_at(words, 17));
    Upload {
        run,
        blocks,
        kept: kept as usize,
        ended,
    }
}

// The upload in 18 words; another number of them, another form, an SSRC past 32 bits, another refusal and words that are no source's record are no upload's.
pub fn load(words: &[u64]) -> Option<Upload>
    ensures { result ≡ loaded words.now }
{
    if words.len() != WORDS {
        return None;
    }
    if !is_form_word(word_at(words, 15), word_at(words, 0)) {
        return None;
    }
    if NUMBERS <= word_at(words, 2) {
        return None;
    }
    if !is_end(word_at(words, 17)) {
        return None;
    }
    match source_words::load(&words[SOURCE..AFTER]) {
        Some(source) => Some(upload_with(words, source)),
        None => None,
    }
}

// Stores the words of an upload, as far as there are places.
pub fn store(u: Upload, words: &mut [u64])
    ensures { words.new ≡ sets words.old 0 (feed_words u) }
{
    let run = u.run;
    let totals = run.totals;
    let source = totals.source;
    let ended = u.ended;
    let front = [form_word(u), run.length as u64, run.ssrc as u64];
    let record = source_words::words_of(source);
    let back = [
        totals.jumped,
        totals.restarts,
        u.blocks,
        u.kept as u64,
        end_word(ended),
    ];
    put_all(&front, words, 0);
    put_all(&record, words, SOURCE);
    put_all(&back, words, AFTER);
}
