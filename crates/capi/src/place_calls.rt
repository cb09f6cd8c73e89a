// Calls for the SSRC of a place that the walk over a table's words has told: the place's words alone are read and stored.
ghost use Rattle.std.specs.Prelude.{◌≡◌, ◌+◌, ◌*◌, ◌≤◌, ◌<◌, length, take, drop};
ghost use Rattle.lent.specs.SourceWords.{source_near};
ghost use Rattle.capi.specs.Tables.{CountsTableArrival, CountsTableBlock};
ghost use Rattle.capi.specs.TableWalks.{Told, put_at};

use crate::codes;
use crate::codes::{JUMP, RESTARTED, RESTARTS};
use engine::count_block;
use format::Wire;
use lent::source_words;
use lent::table_words::{WORDS, store_place};
use source::{Arrival, BlockCount, Source};
use sources::Place;

// The record of a place.
fn source_at(words: &[u64], at: usize) -> Source
    requires { (at < 16) × (11 * at + 11 ≤ length words.now) }
    ensures { result ≡ source_near (take 10 (drop (11 * at + 1) words.now)) }
{
    let from = WORDS * at + 1;
    let end = from + source_words::WORDS;
    source_words::read(&words[from..end])
}

// Stores a place's words.
fn put_at(p: Place, words: &mut [u64], at: usize)
    requires { (at < 16) × (11 * at + 11 ≤ length words.old) }
    ensures { words.new ≡ put_at words.old at p }
{
    let from = WORDS * at;
    let end = from + WORDS;
    store_place(p, &mut words[from..end]);
}

// Counts one arrival of the SSRC that a place was told of.
pub fn arrive_at(words: &mut [u64], at: usize, ssrc: u32, wire: u16, mark: u8) -> u8
    requires { Told words.old ssrc at }
    ensures { CountsTableArrival words.old ssrc wire mark result words.new }
{
    let s = source_at(words, at);
    match s.arrive_in_table(Wire(wire), mark) {
        Arrival::Accepted(source) => {
            put_at(Place { ssrc, source }, words, at);
            0
        }
        Arrival::Restarted(source) => {
            put_at(Place { ssrc, source }, words, at);
            RESTARTED
        }
        Arrival::Refused(refusal, source) => {
            let number = refusal.number();
            if number == JUMP {
                put_at(Place { ssrc, source }, words, at);
                return JUMP;
            }
            number
        }
    }
}

// Counts the records of one arrivals block of the SSRC that a place was told of.
pub fn count_at(words: &mut [u64], at: usize, ssrc: u32, records: &[u8], width: usize) -> i64
    requires { Told words.old ssrc at }
    ensures { CountsTableBlock words.old ssrc width records.now result words.new }
{
    let s = source_at(words, at);
    match count_block(s, records, width) {
        BlockCount::Counted(source, jumps, restarts) => {
            put_at(Place { ssrc, source }, words, at);
            (RESTARTS * restarts + jumps) as i64
        }
        BlockCount::Refused(refusal, _) => codes::minus(refusal),
    }
}
