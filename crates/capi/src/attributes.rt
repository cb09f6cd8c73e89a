// A line of the attribute ecn-capable-rtp, read and written, for C.
ghost use Rattle.capi.specs.AttributeCalls.{ReadsAttribute, WritesAttribute};

use crate::codes;
use answers::{ROOM, Refusal};
use lent::attribute_words;
use sdp::reader::read;
use sdp::writer::write;

// Reads a line, from `a=` to before its CR LF. Gives 0 and 11 words at the front of `found`, or refusal 10, 18 or 10, or 12 where `found` has fewer words.
pub fn flasknib_read_attribute(line: &[u8], found: &mut [u64]) -> u8
    ensures { ReadsAttribute line.now found.old result found.new }
{
    match read(line) {
        Err(refusal) => refusal.number(),
        Ok(attribute) => {
            if found.len() < attribute_words::WORDS {
                return ROOM;
            }
            attribute_words::store(attribute, found);
            0
        }
    }
}

// Writes the line of 11 words at the front of `out`. Gives its length, or minus refusal 9 for words that are no record, 10 for no method or over 8, or 12
// with its size.
pub fn flasknib_write_attribute(attribute: &[u64], out: &mut [u8]) -> i64
    ensures { WritesAttribute attribute.now out.old result out.new }
{
    match attribute_words::load(attribute) {
        None => codes::minus(Refusal::Malformed),
        Some(given) => codes::length(write(given, out)),
    }
}
