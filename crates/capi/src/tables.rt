// Several sources in one table.
ghost use Rattle.std.specs.Prelude.{◌≤◌};
ghost use Rattle.capi.specs.Tables.{CountsTableArrival, CountsTableBlock, WritesTableCompound, GivesPlace, TellsHeld};
ghost use Rattle.capi.specs.TableSteps.{LeavesArrived, LeavesCounted, jumps_in, restarts_in, GivesHeld, HeldIn};

use crate::codes;
use crate::codes::{JUMP, RESTARTED, RESTARTS};
use crate::place_calls::{arrive_at, count_at};
use crate::table_walk::{UNTOLD, place_of};
use answers::ROOM;
use format::Wire;
use lent::table_words::{WORDS, load, store, store_place};
use sources::{Arrived, Counted, Table, TableArrived, TableCounted};

// The refusal of a place that is not held.
const LIMITS: u8 = 10;

// Stores the table that an arrival left, unless it was refused with another number than 7. Gives the answer's number.
fn put_arrived(given: TableArrived, words: &mut [u64]) -> u8
    ensures { LeavesArrived given words.old result words.new }
{
    match given.answer {
        Arrived::Accepted => {
            store(given.table, words);
            0
        }
        Arrived::Restarted => {
            store(given.table, words);
            RESTARTED
        }
        Arrived::Refused(refusal) => {
            let number = refusal.number();
            if number == JUMP {
                store(given.table, words);
                return JUMP;
            }
            number
        }
    }
}

// Counts one arrival by the table taken from its words.
fn arrive_in(words: &mut [u64], ssrc: u32, wire: u16, mark: u8) -> u8
    ensures { CountsTableArrival words.old ssrc wire mark result words.new }
{
    match load(words) {
        Err(refusal) => refusal.number(),
        Ok(t) => put_arrived(t.arrive(ssrc, Wire(wire), mark), words),
    }
}

// Counts one arrival of an SSRC. Gives 0 or 128, for a restart, and the next table; or refusal 16, 9, 10, 15, 8 or 7. A jump (7) leaves its table too.
pub fn flasknib_sources_arrive(words: &mut [u64], ssrc: u32, wire: u16, mark: u8) -> u8
    ensures { CountsTableArrival words.old ssrc wire mark result words.new }
{
    let at = place_of(words, ssrc);
    if at < UNTOLD {
        return arrive_at(words, at, ssrc, wire, mark);
    }
    arrive_in(words, ssrc, wire, mark)
}

// Stores the table that a block left, unless it was refused. Gives the answer's number.
fn put_counted(given: TableCounted, words: &mut [u64]) -> i64
    requires { (jumps_in given.answer ≤ 62) × (restarts_in given.answer ≤ 62) }
    ensures { LeavesCounted given words.old result words.new }
{
    match given.answer {
        Counted::Block(_, jumps, restarts) => {
            store(given.table, words);
            (RESTARTS * restarts + jumps) as i64
        }
        Counted::Refused(refusal) => codes::minus(refusal),
    }
}

// Counts the records of one arrivals block by the table taken from its words.
fn count_in(words: &mut [u64], ssrc: u32, records: &[u8], width: usize) -> i64
    ensures { CountsTableBlock words.old ssrc width records.now result words.new }
{
    match load(words) {
        Err(refusal) => codes::minus(refusal),
        Ok(t) => put_counted(t.count_block(ssrc, records, width), words),
    }
}

// Counts the records of one arrivals block of an SSRC. Gives 256 * restarts + jumps and the next table, or minus refusal 16, 9, 10 or 15.
pub fn flasknib_sources_count_block(
    words: &mut [u64],
    ssrc: u32,
    records: &[u8],
    width: usize,
) -> i64
    ensures { CountsTableBlock words.old ssrc width records.now result words.new }
{
    let at = place_of(words, ssrc);
    if at < UNTOLD {
        return count_at(words, at, ssrc, records, width);
    }
    count_in(words, ssrc, records, width)
}

// Writes the compound: an RR and the feedback of the held places. Gives its length, or minus refusal 16, 9 or 12.
pub fn flasknib_sources_write_compound(words: &[u64], sender: u32, out: &mut [u8]) -> i64
    ensures { WritesTableCompound words.now sender out.old result out.new }
{
    match load(words) {
        Err(refusal) => codes::minus(refusal),
        Ok(t) => codes::length(t.write_compound(sender, out)),
    }
}

// Stores the words of a held place at the front of found. Gives 0, or refusal 16, 9, 10 or 12.
fn put_held(t: Table, place: usize, found: &mut [u64]) -> u8
    ensures { GivesHeld t place found.old result found.new }
{
    match t.check() {
        Err(refusal) => refusal.number(),
        Ok(n) => {
            if n <= place {
                return LIMITS;
            }
            if found.len() < WORDS {
                return ROOM;
            }
            store_place(t.places[place], found);
            0
        }
    }
}

// The words of a held place, counted from 0. Gives 0 and 11 words at the front of found, or refusal 16, 9, 10 or 12.
pub fn flasknib_sources_place(words: &[u64], place: usize, found: &mut [u64]) -> u8
    ensures { GivesPlace words.now place found.old result found.new }
{
    match load(words) {
        Err(refusal) => refusal.number(),
        Ok(t) => put_held(t, place, found),
    }
}

// How many places of a table are held.
fn held_in(t: Table) -> i64
    ensures { HeldIn t result }
{
    match t.check() {
        Err(refusal) => codes::minus(refusal),
        Ok(n) => n as i64,
    }
}

// How many places are held, all in front. Gives their number, or minus refusal 16 or 9.
pub fn flasknib_sources_held(words: &[u64]) -> i64
    ensures { TellsHeld words.now result }
{
    match load(words) {
        Err(refusal) => codes::minus(refusal),
        Ok(t) => held_in(t),
    }
}
