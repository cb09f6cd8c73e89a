// The breaker's call that a packet is for, as 6 words: which one, the highest number, the fraction lost, and packets lost, marked and expected.
ghost use Rattle.std.specs.Prelude.{◌≡◌};
ghost use Rattle.std.proofs.lemmas.List.Edits.{sets};
ghost use Rattle.lent.specs.CallWords.{loss_words, call_words};

use crate::access::{complement, put_all};
use between::Call;
use breaker::Loss;

// The words of a call.
pub const WORDS: usize = 6;

// The words of a report.
fn report_words(highest: u32, loss: Loss) -> [u64; 6]
    ensures { result ≡ loss_words highest loss }
{
    match loss {
        Loss::Fraction(f) => [1, highest as u64, f, 0, 0, 0],
        Loss::Counts(c) => [
            2,
            highest as u64,
            0,
            complement(c.lost),
            c.marked,
            c.expected,
        ],
    }
}

// The 6 words.
fn words_of(call: Call) -> [u64; 6]
    ensures { result ≡ call_words call }
{
    match call {
        Call::Report(highest, loss) => report_words(highest, loss),
        Call::Heard => [0u64; 6],
    }
}

// Stores the words of a call, as far as there are places.
pub fn store(call: Call, words: &mut [u64])
    ensures { words.new ≡ sets words.old 0 (call_words call) }
{
    let new = words_of(call);
    put_all(&new, words, 0);
}
