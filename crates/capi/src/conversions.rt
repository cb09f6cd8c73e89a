// A trace converted to the other form, block by block. The conversion is lent as 3 words, and the records of a block that is not full yet in a part.
ghost use Rattle.std.specs.Prelude.{length, ◌^◌, ◌<◌, ◌≡◌};
ghost use Rattle.answers.specs.Writers.{size_in};
ghost use Rattle.capi.specs.Codes.{length_code, Leaves};
ghost use Rattle.capi.specs.FormsCalls.{begin_code, begin_words, begin_size, BeginsForms, TakesForms, ClosesForms};
ghost use Rattle.capi.specs.StepCalls.{words_after};
ghost use Rattle.lent.specs.ConversionWords.{conversion_words};

use crate::codes;
use answers::{Refusal, Unwritten};
use forms::{Conversion, Step};
use lent::conversion_words;

// Stores the words of a conversion that began, and gives the answer's number.
fn put_begun(begin: Result<(Conversion, usize), Unwritten>, words: &mut [u64]) -> i64
    requires { (length words.old ≡ 3) × (begin_size begin < 2 ^ 54) }
    ensures { Leaves (begin_code begin) (begin_words words.old begin) result words.new }
{
    match begin {
        Ok((first, n)) => {
            conversion_words::store(first, words);
            codes::length(Ok(n))
        }
        Err(why) => codes::unwritten(why),
    }
}

// Takes block 0, and writes it in the other form. Gives its length and the 3 words of the conversion, or minus refusal 9, 1, 13, 14 or 12.
pub fn flasknib_forms_start(zeroth: &[u8], words: &mut [u64], out: &mut [u8]) -> i64
    ensures { BeginsForms words.old zeroth.now out.old result words.new out.new }
{
    if words.len() != conversion_words::WORDS {
        return codes::minus(Refusal::Malformed);
    }
    put_begun(Conversion::start(zeroth, out), words)
}

// Stores the next conversion in the place of the last, unless the call is refused, and gives the answer's number.
fn put_back(step: Step, words: &mut [u64]) -> i64
    requires { (length words.old ≡ 3) × (size_in step.answer < 2 ^ 54) }
    ensures { Leaves (length_code step.answer) (words_after words.old (conversion_words step.conversion) step.answer) result words.new }
{
    let answer = step.answer;
    let next = step.conversion;
    match answer {
        Ok(_) => {
            conversion_words::store(next, words);
            codes::length(answer)
        }
        Err(_) => codes::length(answer),
    }
}

// Takes a later block, and writes the blocks that are full. Gives their length and the next conversion in the place of the last, or minus refusal 9, 1, 13,
// 14, 17 or 12.
pub fn flasknib_forms_block(words: &mut [u64], part: &mut [u8], block: &[u8], out: &mut [u8]) -> i64
    ensures { TakesForms words.old part.old block.now out.old result words.new part.new out.new }
{
    let Some(given) = conversion_words::load(words) else {
        return codes::minus(Refusal::Malformed);
    };
    put_back(given.block(part, block, out), words)
}

// Writes the records that are held as a last block. Gives its length, 0 where there is none, or minus refusal 9 or 12.
pub fn flasknib_forms_close(words: &[u64], part: &[u8], out: &mut [u8]) -> i64
    ensures { ClosesForms words.now part.now out.old result out.new }
{
    let Some(given) = conversion_words::load(words) else {
        return codes::minus(Refusal::Malformed);
    };
    codes::length(given.close(part, out))
}
