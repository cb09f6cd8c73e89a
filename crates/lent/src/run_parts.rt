// The run in words that begin with a run's 15, around the record of its source.
ghost use Rattle.std.specs.Prelude.{◌≡◌, ◌^◌, ◌<◌, get_or};
ghost use Rattle.lent.specs.RunWords.{run_with};

use crate::access::word_at;
use crate::form_words::form_of;
use convert::Run;
use source::{Source, Totals};

// The places of the source's record and after it.
pub const SOURCE: usize = 3;

pub const AFTER: usize = 13;

// An SSRC is below this.
pub const NUMBERS: u64 = 0x1_0000_0000;

// The run in the words around the source's record, with that record.
pub fn run_with(words: &[u64], source: Source) -> Run
    requires { get_or words.now 2 0 < 2 ^ 32 }
    ensures { result ≡ run_with words.now source }
{
    let form = form_of(word_at(words, 0));
    let length = word_at(words, 1);
    let ssrc = word_at(words, 2);
    let jumped = word_at(words, 13);
    let restarts = word_at(words, 14);
    let totals = Totals {
        source,
        jumped,
        restarts,
    };
    Run {
        form,
        length: length as usize,
        ssrc: ssrc as u32,
        totals,
    }
}
