// The parts of a block, stored in a lent output, and the block of a label.
ghost use Rattle.std.specs.Prelude.{◌≡◌, ◌+◌, ◌-◌, ◌≤◌, ◌++◌, length, take, replicate};
ghost use Rattle.std.proofs.lemmas.List.Edits.{sets};
ghost use Rattle.numbers.specs.BigEndian.{bytes};
ghost use Rattle.answers.specs.Writers.{Wrote, written, stored};
ghost use Rattle.format.specs.Blocks.{block_bytes, body_bytes, check_at};
ghost use Rattle.format.specs.Forms.{shape_of};
ghost use Rattle.trace.specs.Checksum.{words, ones_sum};
ghost use Rattle.trace.specs.Layout.{header, label_block};
ghost use Rattle.trace.specs.Retired.{retired_in, spaced_byte, spaced_label};
ghost use Rattle.trace.specs.Rewriting.{spaced_by};

use crate::checksum::ones_sum;
use crate::label::retired_in;
use answers::Unwritten;
use answers::copy::put_bytes;
use format::Form;
use format::block::{BLOCK, BODY, CHECK, COUNT, KIND, SSRC};
use numbers::big_endian::{write16, write32};

// Stores the header at the front of out.
pub fn put_header(kind: u16, count: usize, ssrc: u32, out: &mut [u8])
    requires { count ≤ body_bytes }
    ensures { out.new ≡ sets out.old 0 (header kind count ssrc) }
{
    write16(kind, out, KIND);
    write16(count as u16, out, COUNT);
    write32(ssrc, out, SSRC);
}

// Stores zeros in out from a place up to the check word.
fn put_zeros(out: &mut [u8], from: usize)
    requires { (from ≤ check_at) × (block_bytes ≤ length out.old) }
    ensures { out.new ≡ sets out.old from (replicate (check_at - from) 0) }
{
    let mut at = from;
    while at < CHECK {
        out[at] = 0;
        at += 1;
    }
}

// Stores the check word after the bytes of out before it.
fn put_check(out: &mut [u8])
    requires { block_bytes ≤ length out.old }
    ensures { out.new ≡ sets out.old check_at (bytes 2 (65535 - ones_sum (words (take check_at out.old)))) }
{
    let sum = ones_sum(&out[..CHECK]);
    write16(65535 - sum, out, CHECK);
}

// Ends a block whose contents end at a place.
pub fn put_end(out: &mut [u8], from: usize)
    requires { (from ≤ check_at) × (block_bytes ≤ length out.old) }
    ensures { out.new ≡ sets out.old from (replicate (check_at - from) 0 ++ bytes 2 (65535 - ones_sum (words (take from out.old ++ replicate (check_at - from) 0)))) }
{
    put_zeros(out, from);
    put_check(out);
}

// Writes the block of a label that a trace may have at the front of out. Refused is an output under 512 bytes (12).
pub fn put_label(form: Form, label: &[u8], ssrc: u32, out: &mut [u8]) -> Result<usize, Unwritten>
    requires { length label.now ≤ body_bytes }
    ensures { Wrote None (label_block (shape_of form) label.now ssrc) out.old result out.new }
{
    if out.len() < BLOCK {
        return Err(Unwritten::Room(BLOCK));
    }
    put_header(form.label(), label.len(), ssrc, out);
    put_bytes(label, out, BODY);
    put_end(out, BODY + label.len());
    Ok(BLOCK)
}

// A space for a retired byte, and any other byte as it is.
fn spaced_byte(c: u8) -> u8
    ensures { result ≡ spaced_byte c }
{
    match c {
        10 | 13 => b' ',
        _ => c,
    }
}

// Stores the spaced label in out from a place on.
fn put_spaced(label: &[u8], out: &mut [u8], at: usize)
    requires { at + length label.now ≤ length out.old }
    ensures { out.new ≡ sets out.old at (spaced_label label.now) }
{
    let mut i = 0;
    while i < label.len() {
        out[at + i] = spaced_byte(label[i]);
        i += 1;
    }
}

// Writes the block of a label, spaced, at the front of out. Refused is an output under 512 bytes (12).
pub fn put_spaced_label(
    form: Form,
    label: &[u8],
    ssrc: u32,
    out: &mut [u8],
) -> Result<usize, Unwritten>
    requires { length label.now ≤ body_bytes }
    ensures value { result ≡ spaced_by (retired_in label.now) (written None (label_block (shape_of form) (spaced_label label.now) ssrc) out.old) }
    ensures written { out.new ≡ stored None (label_block (shape_of form) (spaced_label label.now) ssrc) out.old }
{
    if out.len() < BLOCK {
        return Err(Unwritten::Room(BLOCK));
    }
    put_header(form.label(), label.len(), ssrc, out);
    put_spaced(label, out, BODY);
    put_end(out, BODY + label.len());
    Ok(retired_in(label))
}
