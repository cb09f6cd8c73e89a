// The breaker's record as 77 words.
ghost use Rattle.std.specs.Prelude.{◌≡◌, drop};
ghost use Rattle.std.proofs.lemmas.List.Edits.{sets};
ghost use Rattle.answers.specs.Conditions.{all};
ghost use Rattle.lent.specs.BreakerWords.{state_number, state_of, interval_words, intervals_of, breaker_words, settings_of, window_of, breaker_of, words_fit, loaded};

use crate::access::{put, put_all, word_at};
use breaker::{Breaker, Interval, Reason, Settings, State, Window};

// The words of a record, and the places before those of its intervals.
pub const WORDS: usize = 77;

const HEAD: usize = 13;

const NUMBERS: u64 = 0x1_0000_0000;

// 0 where the breaker runs, else the reason of the stop.
fn state_number(state: State) -> u64
    ensures { result ≡ state_number state }
{
    match state {
        State::Running => 0,
        State::Stopped(reason) => reason.number() as u64,
    }
}

// Stores two words for each interval, behind the others.
fn store_intervals(xs: [Interval; 32], words: &mut [u64])
    ensures { words.new ≡ sets words.old 13 (interval_words xs) }
{
    for i in 0..32 {
        let at = HEAD + 2 * i;
        put(xs[i].length, words, at);
        put(xs[i].fraction, words, at + 1);
    }
}

// Stores the words of b, as far as there are places.
pub fn store(b: Breaker, words: &mut [u64])
    ensures { words.new ≡ sets words.old 0 (breaker_words b) }
{
    let settings = b.settings;
    let window = b.window;
    let intervals = window.intervals;
    let state = b.state;
    let stopped = state_number(state);
    let head = [
        settings.k as u64,
        settings.m,
        settings.timeout,
        settings.reduce as u64,
        settings.full as u64,
        stopped,
        b.last,
        b.heard,
        b.reported as u64,
        b.highest as u64,
        b.run,
        b.trial as u64,
        window.used as u64,
    ];
    put_all(&head, words, 0);
    store_intervals(intervals, words);
}

// The state of a number; one above 3 reads as 0.
fn state_of(number: u64) -> State
    ensures { result ≡ state_of number }
{
    match number {
        1 => State::Stopped(Reason::Timeout),
        2 => State::Stopped(Reason::Media),
        3 => State::Stopped(Reason::Congestion),
        _ => State::Running,
    }
}

fn settings_in(words: &[u64]) -> Settings
    ensures { result ≡ settings_of words.now }
{
    let k = word_at(words, 0);
    let m = word_at(words, 1);
    let timeout = word_at(words, 2);
    let reduce = word_at(words, 3);
    let full = word_at(words, 4);
    Settings {
        k: k as usize,
        m,
        timeout,
        reduce: reduce == 1,
        full: full == 1,
    }
}

// The 32 intervals behind the other words.
fn intervals_in(words: &[u64]) -> [Interval; 32]
    ensures { result ≡ intervals_of 32 (drop 13 words.now) }
{
    let zero = Interval {
        length: 0,
        fraction: 0,
    };
    let mut next = [zero; 32];
    for i in 0..32 {
        let at = HEAD + 2 * i;
        next[i] = Interval {
            length: word_at(words, at),
            fraction: word_at(words, at + 1),
        };
    }
    next
}

fn window_in(words: &[u64]) -> Window
    ensures { result ≡ window_of words.now }
{
    let used = word_at(words, 12);
    let intervals = intervals_in(words);
    Window {
        used: used as usize,
        intervals,
    }
}

// The record that the words are read as.
fn breaker_in(words: &[u64]) -> Breaker
    ensures { result ≡ breaker_of words.now }
{
    let settings = settings_in(words);
    let state = state_of(word_at(words, 5));
    let last = word_at(words, 6);
    let heard = word_at(words, 7);
    let reported = word_at(words, 8);
    let highest = word_at(words, 9);
    let run = word_at(words, 10);
    let trial = word_at(words, 11);
    let window = window_in(words);
    Breaker {
        settings,
        state,
        last,
        heard,
        reported: reported == 1,
        highest: (highest % NUMBERS) as u32,
        run,
        trial: trial == 1,
        window,
    }
}

// Whether the words are those of a record: each yes-or-no word at most 1, the state at most 3, the highest number of 32 bits.
#[tactic(auto, using(std::proofs::lemmas::Bool::Decides::nat_tests), unfolding(crate::specs::BreakerWords::words_fit))]
fn do_fit(words: &[u64]) -> bool
    ensures { result ≡ all (words_fit words.now) }
{
    word_at(words, 3) <= 1
        && word_at(words, 4) <= 1
        && word_at(words, 5) <= 3
        && word_at(words, 8) <= 1
        && word_at(words, 9) < NUMBERS
        && word_at(words, 11) <= 1
}

// The record that the words are read as: Ok where they fit a record's, else Err. How many there are is not asked: a word past the end reads as 0.
pub fn load(words: &[u64]) -> Result<Breaker, Breaker>
    ensures { result ≡ loaded words.now }
{
    let breaker = breaker_in(words);
    if !do_fit(words) {
        return Err(breaker);
    }
    Ok(breaker)
}
