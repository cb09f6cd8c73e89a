// What each refusal means, as a text for whoever is refused.
ghost use Rattle.std.specs.Prelude.{◌≡◌, true, ◌<◌, length};
ghost use Rattle.answers.specs.Meanings.{meaning_of, meaning_fault};
ghost use Rattle.answers.specs.Parts.{parts_fit, part_of};
ghost use Rattle.answers.specs.Writers.{Wrote};

use crate::copy::put_bytes;
use crate::{Refusal, Unwritten};

// The greatest number of a refusal.
const MOST: u8 = 19;

// Where the text of each number ends, and the next begins: that of 1 begins at 0.
const ENDS: [u16; 20] = [
    0, 64, 102, 133, 190, 237, 266, 321, 346, 369, 427, 475, 498, 531, 607, 673, 722, 760, 786, 826,
];

// Writes a text at the front of out. Refusal: 12 output too small.
fn write_text(text: &[u8], out: &mut [u8]) -> Result<usize, Unwritten>
    ensures { Wrote None text.now out.old result out.new }
{
    if out.len() < text.len() {
        return Err(Unwritten::Room(text.len()));
    }
    put_bytes(text, out, 0);
    Ok(text.len())
}

// Writes part n of a text at the front of out. Refusal: 12 output too small.
fn write_part(text: &[u8], ends: [u16; 20], n: usize, out: &mut [u8]) -> Result<usize, Unwritten>
    requires { (n < 19) × (parts_fit ends (length text.now) ≡ true) }
    ensures { Wrote None (part_of ends text.now n) out.old result out.new }
{
    let from = ends[n] as usize;
    let to = ends[n + 1] as usize;
    write_text(&text[from..to], out)
}

// Writes the text of a refusal's number at the front of out. Refusals: 10 a number that is no refusal's, 12 output too small.
pub fn write_meaning(number: u8, out: &mut [u8]) -> Result<usize, Unwritten>
    ensures { Wrote (meaning_fault number) (meaning_of number) out.old result out.new }
{
    let 1..=MOST = number else {
        return Err(Unwritten::Refused(Refusal::Limits));
    };
    let texts: &[u8] = b"\
        the input is empty, or ends in the middle of a block or a header\
        the version in an RTCP header is not 2\
        the first packet is no SR or RR\
        a packet passes the end, or does not have its body's size\
        the padding is wrong, or not in the last packet\
        an XR block passes its packet\
        the sequence number is too far from the highest: a jump\
        2^48 arrivals are counted\
        the record is malformed\
        a number, a label, records or a size is outside the limits\
        the time is earlier than a call before it allows\
        the output is too small\
        the block's checksum does not fit\
        the block breaks the format, or has a wrong kind, form or SSRC for its place\
        a source is new, and every place of the table is held (at most 16)\
        the table breaks its rules, or has over 16 places\
        a time of 2^32 ms or more needs form 2\
        the attribute is malformed\
        a new label has a retired byte, 10 or 13";
    write_part(texts, ENDS, (number - 1) as usize, out)
}
