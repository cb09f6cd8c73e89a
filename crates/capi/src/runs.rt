// A run of ecntable, block by block. It is lent as 15 words.
ghost use Rattle.std.specs.Prelude.{length, ◌^◌, ◌<◌, ◌≡◌};
ghost use Rattle.answers.specs.Writers.{size_in};
ghost use Rattle.capi.specs.Codes.{length_code, Leaves};
ghost use Rattle.capi.specs.RunCalls.{StartsRun, TakesBlock};
ghost use Rattle.capi.specs.StepCalls.{words_after};
ghost use Rattle.lent.specs.RunWords.{run_words};

use crate::codes;
use answers::Refusal;
use convert::{Run, Step};
use lent::run_words;

// Takes block 0. Gives 0 and the run in the 15 words of `run`, or refusal 9 for another number of words, or 1, 13 or 14.
pub fn flasknib_run_start(zeroth: &[u8], run: &mut [u64]) -> u8
    ensures { StartsRun zeroth.now run.old result run.new }
{
    if run.len() != run_words::WORDS {
        return Refusal::Malformed.number();
    }
    match Run::start(zeroth) {
        Ok(first) => {
            run_words::store(first, run);
            0
        }
        Err(refusal) => refusal.number(),
    }
}

// Stores the next run in the place of the last, unless the call is refused, and gives the answer's number.
fn put_back(step: Step, run: &mut [u64]) -> i64
    requires { (length run.old ≡ 15) × (size_in step.answer < 2 ^ 54) }
    ensures { Leaves (length_code step.answer) (words_after run.old (run_words step.run) step.answer) result run.new }
{
    let answer = step.answer;
    let next = step.run;
    match answer {
        Ok(_) => {
            run_words::store(next, run);
            codes::length(answer)
        }
        Err(_) => codes::length(answer),
    }
}

// Takes a later block, and writes the row after it. Gives the row's length and the next run in the place of the last, or minus refusal 9, 1, 13, 14 or 12.
pub fn flasknib_run_block(run: &mut [u64], zeroth: &[u8], block: &[u8], out: &mut [u8]) -> i64
    ensures { TakesBlock run.old zeroth.now block.now out.old result run.new out.new }
{
    let Some(given) = run_words::load(run) else {
        return codes::minus(Refusal::Malformed);
    };
    put_back(given.block(zeroth, block, out), run)
}
