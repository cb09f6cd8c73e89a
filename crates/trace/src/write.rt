// Writing a block.
ghost use Rattle.std.specs.Prelude.{◌≡◌, ◌+◌, ◌*◌, ◌≤◌, length, take, drop};
ghost use Rattle.std.proofs.lemmas.List.Edits.{sets};
ghost use Rattle.answers.specs.Writers.{Wrote};
ghost use Rattle.format.specs.Blocks.{block_bytes, body_at};
ghost use Rattle.format.specs.Forms.{shape_of, width};
ghost use Rattle.trace.specs.Layout.{record_bytes, records_bytes, label_block, arrivals_block, records_block};
ghost use Rattle.trace.specs.Writing.{label_fault, records_of, arrivals_ok, arrivals_fault, body_ok, body_fault, count_fault};

use crate::Record;
use crate::contents::{all_marks, all_records, all_times, is_count};
use crate::fields::{time_bytes, write_time};
use crate::label::{is_label, retired_in};
use crate::parts::{put_end, put_header, put_label};
use answers::copy::put_bytes;
use answers::{Refusal, Unwritten};
use format::block::{BLOCK, BODY};
use format::{Form, Wire};
use numbers::big_endian::write16;

// Stores a record in out at a place.
fn put_record(form: Form, r: Record, out: &mut [u8], at: usize)
    requires { at + width (shape_of form) ≤ length out.old }
    ensures { out.new ≡ sets out.old at (record_bytes (shape_of form) r) }
{
    let behind = at + time_bytes(form);
    write_time(form, r.time, out, at);
    write16(r.number.0, out, behind);
    out[behind + 2] = r.mark;
    out[behind + 3] = 0;
}

// Stores the records in the body of out.
fn put_records(form: Form, times: &[u64], numbers: &[u16], marks: &[u8], out: &mut [u8])
    requires alike { (length numbers.now ≡ length times.now) × (length marks.now ≡ length times.now) }
    requires has_room { (length times.now ≤ (shape_of form).most) × (block_bytes ≤ length out.old) }
    ensures { out.new ≡ sets out.old body_at (records_bytes (shape_of form) (records_of times.now numbers.now marks.now)) }
{
    let width = form.width();
    let mut at = BODY;
    let mut i = 0;
    while i < times.len() {
        let r = Record {
            time: times[i],
            number: Wire(numbers[i]),
            mark: marks[i],
        };
        put_record(form, r, out, at);
        at += width;
        i += 1;
    }
}

// Writes the label block of a new label at the front of out. Refused are a label outside the trace rules (10), one with a retired byte (19), and an output
// under 512 bytes (12).
pub fn write_label(form: Form, label: &[u8], ssrc: u32, out: &mut [u8]) -> Result<usize, Unwritten>
    ensures { Wrote (label_fault label.now) (label_block (shape_of form) label.now ssrc) out.old result out.new }
{
    if !is_label(label) {
        return Err(Unwritten::Refused(Refusal::Limits));
    }
    if 0 < retired_in(label) {
        return Err(Unwritten::Refused(Refusal::Retired));
    }
    put_label(form, label, ssrc, out)
}

// Whether three lists can be a block's records.
fn are_records(form: Form, times: &[u64], numbers: &[u16], marks: &[u8]) -> bool
    ensures { result ≡ arrivals_ok (shape_of form) times.now numbers.now marks.now }
{
    let n = times.len();
    if numbers.len() != n {
        return false;
    }
    if marks.len() != n {
        return false;
    }
    if !is_count(form, n) {
        return false;
    }
    if !all_times(form, times) {
        return false;
    }
    all_marks(marks)
}

// Writes an arrivals block at the front of out. Refused are records outside the trace rules (10): lists of unequal length, none or more
// than the form's most, a time that the form has no bytes for, a mark above 3; and an output under 512 bytes (12).
pub fn write_arrivals(
    form: Form,
    times: &[u64],
    numbers: &[u16],
    marks: &[u8],
    ssrc: u32,
    out: &mut [u8],
) -> Result<usize, Unwritten>
    ensures { Wrote (arrivals_fault (shape_of form) times.now numbers.now marks.now) (arrivals_block (shape_of form) (records_of times.now numbers.now marks.now) ssrc) out.old result out.new }
{
    if !are_records(form, times, numbers, marks) {
        return Err(Unwritten::Refused(Refusal::Limits));
    }
    if out.len() < BLOCK {
        return Err(Unwritten::Room(BLOCK));
    }
    put_header(form.arrivals(), times.len(), ssrc, out);
    put_records(form, times, numbers, marks, out);
    put_end(out, BODY + times.len() * form.width());
    Ok(BLOCK)
}

// Whether bytes can be a block's records.
pub fn is_body(form: Form, records: &[u8]) -> bool
    ensures { result ≡ body_ok (shape_of form) records.now }
{
    let width = form.width();
    let rest = records.len() % width;
    if 0 < rest {
        return false;
    }
    let count = records.len() / width;
    if !is_count(form, count) {
        return false;
    }
    all_records(form, count, records)
}

// Writes the arrivals block of the records whose bytes are given, at the front of out. Refused are bytes outside the trace rules (10): a
// record that is not whole, none or more than the form's most, a mark above 3 or no zero behind it; and an output under 512 bytes (12).
pub fn write_records(
    form: Form,
    records: &[u8],
    ssrc: u32,
    out: &mut [u8],
) -> Result<usize, Unwritten>
    ensures { Wrote (body_fault (shape_of form) records.now) (records_block (shape_of form) records.now ssrc) out.old result out.new }
{
    if !is_body(form, records) {
        return Err(Unwritten::Refused(Refusal::Limits));
    }
    if out.len() < BLOCK {
        return Err(Unwritten::Room(BLOCK));
    }
    put_header(form.arrivals(), records.len() / form.width(), ssrc, out);
    put_bytes(records, out, BODY);
    put_end(out, BODY + records.len());
    Ok(BLOCK)
}

// Makes an arrivals block of the n records that stand in the body of out already: header, zeros behind them, and check. Refused are none or more than the
// form's most (10), and an output under 512 bytes (12). The records are not looked at.
pub fn seal(form: Form, n: usize, ssrc: u32, out: &mut [u8]) -> Result<usize, Unwritten>
    ensures { Wrote (count_fault (shape_of form) n) (records_block (shape_of form) (take (n * width (shape_of form)) (drop body_at out.old)) ssrc) out.old result out.new }
{
    if !is_count(form, n) {
        return Err(Unwritten::Refused(Refusal::Limits));
    }
    if out.len() < BLOCK {
        return Err(Unwritten::Room(BLOCK));
    }
    put_header(form.arrivals(), n, ssrc, out);
    put_end(out, BODY + n * form.width());
    Ok(BLOCK)
}
