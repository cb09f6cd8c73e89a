// What a compound says of one source, as 25 words; and back, as far as the breaker's call for a packet looks at it.
ghost use Rattle.std.specs.Prelude.{◌≡◌, true, get_or};
ghost use Rattle.std.proofs.lemmas.List.Edits.{sets};
ghost use Rattle.answers.specs.Conditions.{all};
ghost use Rattle.between.specs.PacketCalls.{counters_given};
ghost use Rattle.lent.specs.Widths.{counts_fit};
ghost use Rattle.lent.specs.CompoundWords.{report_words, feedback_words, summary_words, reporter_of, compound_words};
ghost use Rattle.lent.specs.CompoundWords.{report_fits, feedback_fits, summary_fits, words_fit, report_of, feedback_of, summary_of, compound_of, loaded};

use crate::access::{complement, put_all, word_at};
use crate::widths::{FRACTIONS, NUMBERS, counts_fit, is_below};
use between::counters_of;
use format::Counts;
use rtcp::{Compound, Feedback, ReportBlock};

// The words of a compound.
pub const WORDS: usize = 25;

// The report block: that there is one, and its fields but for the reporter.
fn report_in(report: Option<ReportBlock>) -> [u64; 7]
    ensures { result ≡ report_words report }
{
    match report {
        Some(x) => [
            1,
            x.fraction as u64,
            complement(x.lost as i64),
            x.highest as u64,
            x.jitter as u64,
            x.lsr as u64,
            x.dlsr as u64,
        ],
        None => [0u64; 7],
    }
}

// The ECN feedback: that there is some, and its eight fields.
fn feedback_in(feedback: Option<Feedback>) -> [u64; 9]
    ensures { result ≡ feedback_words feedback }
{
    match feedback {
        Some(x) => {
            let counts = x.counts;
            [
                1,
                x.sender as u64,
                x.highest as u64,
                counts.ect0 as u64,
                counts.ect1 as u64,
                counts.ce as u64,
                counts.notect as u64,
                counts.lost as u64,
                counts.duplicates as u64,
            ]
        }
        None => [0u64; 9],
    }
}

// The ECN summary entry: that there is one, and its six fields.
fn summary_in(summary: Option<Counts>) -> [u64; 7]
    ensures { result ≡ summary_words summary }
{
    match summary {
        Some(counts) => [
            1,
            counts.ect0 as u64,
            counts.ect1 as u64,
            counts.ce as u64,
            counts.notect as u64,
            counts.lost as u64,
            counts.duplicates as u64,
        ],
        None => [0u64; 7],
    }
}

// The SSRC of who sent the report block, or 0 if there is none.
fn reporter_in(report: Option<ReportBlock>) -> u32
    ensures { result ≡ reporter_of report }
{
    match report {
        Some(x) => x.reporter,
        None => 0,
    }
}

// Stores the words of c, as far as there are places.
pub fn store(c: Compound, words: &mut [u64])
    ensures { words.new ≡ sets words.old 0 (compound_words c) }
{
    let report = c.report;
    let feedback = c.feedback;
    let summary = c.summary;
    let last = [c.reporting as u64, reporter_in(report) as u64];
    let report = report_in(report);
    let feedback = feedback_in(feedback);
    let summary = summary_in(summary);
    put_all(&report, words, 0);
    put_all(&feedback, words, 7);
    put_all(&summary, words, 16);
    put_all(&last, words, 23);
}

// Whether there is no report block, or one whose fraction and highest number have their widths.
fn report_fits(words: &[u64]) -> bool
    ensures { result ≡ report_fits words.now }
{
    let there = word_at(words, 0);
    if there != 1 {
        return there == 0;
    }
    if !is_below(words, 1, FRACTIONS) {
        return false;
    }
    is_below(words, 3, NUMBERS)
}

// Whether there is no ECN feedback, or some whose highest number, packets marked and lost have their widths.
fn feedback_fits(words: &[u64]) -> bool
    ensures { result ≡ feedback_fits words.now }
{
    let there = word_at(words, 7);
    if there != 1 {
        return there == 0;
    }
    if !is_below(words, 9, NUMBERS) {
        return false;
    }
    counts_fit(words, 12, 14)
}

// Whether there is no ECN summary entry, or one whose packets marked and lost have their width.
fn summary_fits(words: &[u64]) -> bool
    ensures { result ≡ summary_fits words.now }
{
    let there = word_at(words, 16);
    if there != 1 {
        return there == 0;
    }
    counts_fit(words, 19, 21)
}

// Whether the words that play a part are those of a compound.
fn do_fit(words: &[u64]) -> bool
    ensures { result ≡ all (words_fit words.now) }
{
    if !report_fits(words) {
        return false;
    }
    if !feedback_fits(words) {
        return false;
    }
    if !summary_fits(words) {
        return false;
    }
    word_at(words, 23) <= 1
}

// The counters of packets marked and lost.
fn counts_of(words: &[u64], ce: usize, lost: usize) -> Counts
    requires { all (counts_fit words.now ce lost) ≡ true }
    ensures { result ≡ counters_given (get_or words.now ce 0) (get_or words.now lost 0) }
{
    let marked = word_at(words, ce);
    let missing = word_at(words, lost);
    counters_of(marked as u16, missing as u16)
}

fn report_of(words: &[u64]) -> Option<ReportBlock>
    requires { report_fits words.now ≡ true }
    ensures { result ≡ report_of words.now }
{
    if word_at(words, 0) != 1 {
        return None;
    }
    let fraction = word_at(words, 1);
    let highest = word_at(words, 3);
    Some(ReportBlock {
        fraction: fraction as u8,
        lost: 0,
        highest: highest as u32,
        jitter: 0,
        lsr: 0,
        dlsr: 0,
        reporter: 0,
    })
}

fn feedback_of(words: &[u64]) -> Option<Feedback>
    requires { feedback_fits words.now ≡ true }
    ensures { result ≡ feedback_of words.now }
{
    if word_at(words, 7) != 1 {
        return None;
    }
    let highest = word_at(words, 9);
    let counts = counts_of(words, 12, 14);
    Some(Feedback {
        sender: 0,
        highest: highest as u32,
        counts,
    })
}

fn summary_of(words: &[u64]) -> Option<Counts>
    requires { summary_fits words.now ≡ true }
    ensures { result ≡ summary_of words.now }
{
    if word_at(words, 16) != 1 {
        return None;
    }
    let counts = counts_of(words, 19, 21);
    Some(counts)
}

// The compound in words that fit.
fn compound_of(words: &[u64]) -> Compound
    requires { all (words_fit words.now) ≡ true }
    ensures { result ≡ compound_of words.now }
{
    let report = report_of(words);
    let feedback = feedback_of(words);
    let summary = summary_of(words);
    let reporting = word_at(words, 23);
    Compound {
        report,
        feedback,
        summary,
        reporting: reporting == 1,
    }
}

// The compound in 25 words, as far as the breaker's call looks at it: another number of words, a yes-or-no word above 1, and a word that plays a part
// and is past its width are no compound's. What plays no part is 0.
pub fn load(words: &[u64]) -> Option<Compound>
    ensures { result ≡ loaded words.now }
{
    if words.len() != WORDS {
        return None;
    }
    if !do_fit(words) {
        return None;
    }
    Some(compound_of(words))
}
