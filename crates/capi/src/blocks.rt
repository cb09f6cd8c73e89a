// One block of a trace.
ghost use Rattle.std.specs.Prelude.{◌≡◌, [], ◌∷◌, ◌^◌, ◌<◌};
ghost use Rattle.capi.specs.Codes.{refusal_code, Gives};
ghost use Rattle.capi.specs.Blocks.{ReadsBlock, own_code, FindsRecord, WritesLabel, spaced_size, spaced_code, SpacesLabel, WritesArrivals, WritesRecords};

use crate::codes;
use answers::{ROOM, Refusal, Unwritten};
use lent::form_words::{form_of, is_form};
use trace::Block;
use trace::places::read_own;
use trace::read::{read_block, record_at};
use trace::rewrite::space_label;
use trace::write::{write_arrivals, write_label, write_records};

// Stores three words at the front of found. Gives 0, or refusal 12.
fn put_found(x: u64, y: u64, z: u64, found: &mut [u64]) -> u8
    ensures { Gives refusal_code None (x ∷ y ∷ z ∷ []) found.old result found.new }
{
    if found.len() < 3 {
        return ROOM;
    }
    found[0] = x;
    found[1] = y;
    found[2] = z;
    0
}

// Reads a block. Gives 0 and three words at the front of found, or refusal 1, 13 or 14, or 12 where found has fewer words.
pub fn flasknib_read_block(block: &[u8], found: &mut [u64]) -> u8
    ensures { ReadsBlock block.now found.old result found.new }
{
    match read_block(block) {
        Ok(Block::Label { form, length, ssrc }) => {
            put_found(form.label() as u64, length as u64, ssrc as u64, found)
        }
        Ok(Block::Arrivals { form, count, ssrc }) => {
            put_found(form.arrivals() as u64, count as u64, ssrc as u64, found)
        }
        Err(refusal) => refusal.number(),
    }
}

// Reads a later block of a trace of form 1 or 2 with an SSRC. Gives 0, or refusal 10 for another form, or 1, 13 or 14.
pub fn flasknib_read_own(form: u8, ssrc: u32, block: &[u8]) -> u8
    ensures { result ≡ own_code form ssrc block.now }
{
    if !is_form(form as u64) {
        return Refusal::Limits.number();
    }
    match read_own(form_of(form as u64), ssrc, block) {
        Ok(_) => 0,
        Err(refusal) => refusal.number(),
    }
}

// The record i of an arrivals block. Gives 0 and three words at the front of found, or refusal 1, 14 or 10, or 12 where found has fewer words.
pub fn flasknib_record_at(block: &[u8], i: usize, found: &mut [u64]) -> u8
    ensures { FindsRecord block.now i found.old result found.new }
{
    match record_at(block, i) {
        Ok(record) => {
            let number = record.number;
            put_found(record.time, number.0 as u64, record.mark as u64, found)
        }
        Err(refusal) => refusal.number(),
    }
}

// Writes the label block of a new label in form 1 or 2. Gives its length, or minus refusal 10, 19 or 12.
pub fn flasknib_write_label(form: u8, label: &[u8], ssrc: u32, out: &mut [u8]) -> i64
    ensures { WritesLabel form label.now ssrc out.old result out.new }
{
    if !is_form(form as u64) {
        return codes::length(Err(Unwritten::Refused(Refusal::Limits)));
    }
    codes::length(write_label(form_of(form as u64), label, ssrc, out))
}

// The number of bytes replaced, or minus the refusal's number, and with 12 the size.
fn replaced(answer: Result<usize, Unwritten>) -> i64
    requires { spaced_size answer < 2 ^ 54 }
    ensures { result ≡ spaced_code answer }
{
    match answer {
        Ok(number) => codes::length(Ok(number)),
        Err(why) => codes::unwritten(why),
    }
}

// Writes block 0 again with its label spaced. Gives the number of bytes replaced, or minus refusal 1, 13 or 14, or 12 with its size.
pub fn flasknib_space_label(zeroth: &[u8], out: &mut [u8]) -> i64
    ensures { SpacesLabel zeroth.now out.old result out.new }
{
    replaced(space_label(zeroth, out))
}

// Writes an arrivals block of form 1 or 2. Gives its length, or minus refusal 10 or 12.
pub fn flasknib_write_arrivals(
    form: u8,
    times: &[u64],
    numbers: &[u16],
    marks: &[u8],
    ssrc: u32,
    out: &mut [u8],
) -> i64
    ensures { WritesArrivals form times.now numbers.now marks.now ssrc out.old result out.new }
{
    if !is_form(form as u64) {
        return codes::length(Err(Unwritten::Refused(Refusal::Limits)));
    }
    codes::length(write_arrivals(form_of(form as u64), times, numbers, marks, ssrc, out))
}

// Writes an arrivals block from the bytes of its records. Gives its length, or minus refusal 10, or 12 with its size.
pub fn flasknib_write_records(form: u8, records: &[u8], ssrc: u32, out: &mut [u8]) -> i64
    ensures { WritesRecords form records.now ssrc out.old result out.new }
{
    if !is_form(form as u64) {
        return codes::length(Err(Unwritten::Refused(Refusal::Limits)));
    }
    codes::length(write_records(form_of(form as u64), records, ssrc, out))
}
