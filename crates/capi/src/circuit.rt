// The circuit breaker for C. A record is lent as 77 words; what a call answers is one number.
ghost use Rattle.std.specs.Prelude.{◌≡◌, length};
ghost use Rattle.capi.specs.Codes.{Leaves};
ghost use Rattle.breaker.specs.declared.Loss.TheVariants.{Fraction};
ghost use Rattle.capi.specs.BreakerCalls.{answer_code, is_refused, left_by, PutsStart, StartsBreaker, record_in};
ghost use Rattle.capi.specs.BreakerCalls.{StartsPreset, counts_given, TakesReport, TakesTick, TakesHeard};

use answers::Refusal;
use breaker::{Answer, Breaker, EcnCounts, Loss, Report, Settings, Step};
use lent::breaker_words;

// What a call answers, added to the reason or the refusal.
const STOP: u16 = 256;

const REFUSED: u16 = 512;

// The number of an answer.
fn code(answer: Answer) -> u16
    ensures { result ≡ answer_code answer }
{
    match answer {
        Answer::Go => 0,
        Answer::Reduce => 1,
        Answer::Stop(reason) => STOP + reason.number() as u16,
        Answer::Refused(refusal) => REFUSED + refusal.number() as u16,
    }
}

// Whether an answer is a refusal.
fn is_refused(answer: Answer) -> bool
    ensures { result ≡ is_refused answer }
{
    matches!(answer, Answer::Refused(_))
}

// The record in 77 words that fit.
fn record_in(words: &[u64]) -> Option<Breaker>
    ensures { result ≡ record_in words.now }
{
    if words.len() != breaker_words::WORDS {
        return None;
    }
    breaker_words::load(words).ok()
}

// Stores the next record in the place of the last, unless the call is refused, and gives the answer's number.
fn put_back(step: Step, words: &mut [u64]) -> u16
    requires { length words.old ≡ 77 }
    ensures { Leaves (answer_code step.answer) (left_by step words.old) result words.new }
{
    if is_refused(step.answer) {
        return code(step.answer);
    }
    breaker_words::store(step.breaker, words);
    code(step.answer)
}

// Starts a breaker: Go and the record in the 77 words of `breaker`, or refusal 9 for another number of words, or 10.
pub fn flasknib_breaker_start(
    k: u64,
    m: u64,
    timeout: u64,
    reduce: u8,
    full: u8,
    time: u64,
    breaker: &mut [u64],
) -> u16
    ensures { StartsBreaker k m timeout reduce full time breaker.old result breaker.new }
{
    if breaker.len() != breaker_words::WORDS {
        return code(Answer::Refused(Refusal::Malformed));
    }
    if 1 < reduce {
        return code(Answer::Refused(Refusal::Limits));
    }
    if 1 < full {
        return code(Answer::Refused(Refusal::Limits));
    }
    let settings = Settings {
        k: k as usize,
        m,
        timeout,
        reduce: reduce == 1,
        full: full == 1,
    };
    put_back(Breaker::start(settings, time), breaker)
}

// Stores the record of a start in its place of 77 words, and gives the number of Go or of the refusal, 9 for another number of words.
fn put_start(step: Step, place: &mut [u64]) -> u16
    ensures { PutsStart step place.old result place.new }
{
    if place.len() != breaker_words::WORDS {
        let refused = Answer::Refused(Refusal::Malformed);
        return code(refused);
    }
    put_back(step, place)
}

// Starts a breaker with the preset settings: Go and the record in the 77 words of `breaker`, or refusal 9 for another number of words, or 10.
pub fn flasknib_breaker_start_preset(time: u64, breaker: &mut [u64]) -> u16
    ensures { StartsPreset time breaker.old result breaker.new }
{
    put_start(Breaker::start_preset(time), breaker)
}

// A report on the record in `breaker`: the answer, and the next record in its place.
fn take_report(
    breaker: &mut [u64],
    time: u64,
    highest: u32,
    loss: Loss,
    rtt: u64,
    size: u64,
    rate: u64,
) -> u16
    ensures { TakesReport breaker.old time highest loss rtt size rate result breaker.new }
{
    let Some(b) = record_in(breaker) else {
        return code(Answer::Refused(Refusal::Malformed));
    };
    let report = Report {
        time,
        highest,
        loss,
        rtt,
        size,
        rate,
    };
    put_back(b.report(report), breaker)
}

// A report with the fraction lost.
pub fn flasknib_breaker_report(
    breaker: &mut [u64],
    time: u64,
    highest: u32,
    fraction: u64,
    rtt: u64,
    size: u64,
    rate: u64,
) -> u16
    ensures { TakesReport breaker.old time highest (Fraction fraction) rtt size rate result breaker.new }
{
    let loss = Loss::Fraction(fraction);
    take_report(breaker, time, highest, loss, rtt, size, rate)
}

// A report with ECN counts in the place of the fraction lost.
pub fn flasknib_breaker_report_ecn(
    breaker: &mut [u64],
    time: u64,
    highest: u32,
    lost: i64,
    marked: u64,
    expected: u64,
    rtt: u64,
    size: u64,
    rate: u64,
) -> u16
    ensures { TakesReport breaker.old time highest (counts_given lost marked expected) rtt size rate result breaker.new }
{
    let counts = EcnCounts {
        lost,
        marked,
        expected,
    };
    let loss = Loss::Counts(counts);
    take_report(breaker, time, highest, loss, rtt, size, rate)
}

// A tick on the record in `breaker`: the answer, and the next record in its place.
pub fn flasknib_breaker_tick(breaker: &mut [u64], time: u64) -> u16
    ensures { TakesTick breaker.old time result breaker.new }
{
    let Some(b) = record_in(breaker) else {
        return code(Answer::Refused(Refusal::Malformed));
    };
    put_back(b.tick(time), breaker)
}

// A heard packet on the record in `breaker`: the answer, and the next record in its place.
pub fn flasknib_breaker_heard(breaker: &mut [u64], time: u64) -> u16
    ensures { TakesHeard breaker.old time result breaker.new }
{
    let Some(b) = record_in(breaker) else {
        return code(Answer::Refused(Refusal::Malformed));
    };
    put_back(b.heard(time), breaker)
}
