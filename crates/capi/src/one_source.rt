// One source's arrivals and reports.
ghost use Rattle.capi.specs.OneSource.{CountsArrival, CountsBlock, WritesFeedback, WritesSummary};

use crate::codes;
use crate::codes::{JUMP, RESTARTED, RESTARTS};
use answers::Refusal;
use engine::count_block;
use format::Wire;
use lent::source_words::{load, store};
use report::{write_feedback, write_summary};
use source::{Arrival, BlockCount};

// Counts one arrival. Gives 0 or 128, for a restart, and the next record; or refusal 9, 10, 8 or 7. A jump (7) leaves its record too.
pub fn flasknib_arrive(words: &mut [u64], wire: u16, mark: u8) -> u8
    ensures { CountsArrival words.old wire mark result words.new }
{
    let Some(source) = load(words) else {
        return 9;
    };
    match source.arrive(Wire(wire), mark) {
        Arrival::Accepted(next) => {
            store(next, words);
            0
        }
        Arrival::Restarted(next) => {
            store(next, words);
            RESTARTED
        }
        Arrival::Refused(refusal, next) => {
            let number = refusal.number();
            if number == JUMP {
                store(next, words);
                return JUMP;
            }
            number
        }
    }
}

// Counts the records of one arrivals block. Gives 256 * restarts + jumps and the next record, or minus refusal 9 or 10.
pub fn flasknib_count_block(words: &mut [u64], records: &[u8], width: usize) -> i64
    ensures { CountsBlock words.old width records.now result words.new }
{
    let Some(source) = load(words) else {
        return codes::minus(Refusal::Malformed);
    };
    match count_block(source, records, width) {
        BlockCount::Counted(next, jumps, restarts) => {
            store(next, words);
            (RESTARTS * restarts + jumps) as i64
        }
        BlockCount::Refused(refusal, _) => codes::minus(refusal),
    }
}

// Writes the ECN feedback packet. Gives its length, or minus refusal 9 or 12.
pub fn flasknib_write_feedback(words: &[u64], sender: u32, media: u32, out: &mut [u8]) -> i64
    ensures { WritesFeedback words.now sender media out.old result out.new }
{
    let Some(source) = load(words) else {
        return codes::minus(Refusal::Malformed);
    };
    codes::length(write_feedback(source, sender, media, out))
}

// Writes the XR ECN summary block. Gives its length, or minus refusal 9 or 12.
pub fn flasknib_write_summary(words: &[u64], media: u32, out: &mut [u8]) -> i64
    ensures { WritesSummary words.now media out.old result out.new }
{
    let Some(source) = load(words) else {
        return codes::minus(Refusal::Malformed);
    };
    codes::length(write_summary(source, media, out))
}
