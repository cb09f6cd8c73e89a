// Reading a block.
ghost use Rattle.std.specs.Prelude.{◌≡◌, ◌+◌, ◌*◌, ◌≤◌, ◌&&◌, length, drop};
ghost use Rattle.format.specs.Blocks.{block_bytes, body_bytes, behind_time};
ghost use Rattle.format.specs.Forms.{Shape, shape_of, width};
ghost use Rattle.trace.specs.Layout.{record_at};
ghost use Rattle.trace.specs.Contents.{every, is_zero, good_records, label_body, arrivals_body};
ghost use Rattle.trace.specs.Numbered.{read_as, found_as};
ghost use Rattle.trace.specs.Reading.{right_check, contents_of, block_of, fault_of, found_at};

use crate::checksum::block_sum;
use crate::contents::{all_allowed, all_zero, good_ends, is_count};
use crate::fields::{read_time, time_bytes};
use crate::{Block, Record};
use answers::Refusal;
use format::block::{BLOCK, BODY, BODY_BYTES, CHECK, COUNT, KIND, SSRC};
use format::{Form, Kind, Wire};
use numbers::big_endian::{read16, read32};

// Whether body is that of a label of n bytes.
fn label_body(n: usize, body: &[u8]) -> bool
    requires { length body.now ≡ body_bytes }
    ensures { result ≡ label_body n body.now }
{
    if BODY_BYTES < n {
        return false;
    }
    if !all_allowed(&body[..n]) {
        return false;
    }
    all_zero(&body[n..])
}

// Whether body has n good records, `step` bytes each, and then zeros.
fn holds_records(step: usize, n: usize, body: &[u8]) -> bool
    requires { (behind_time ≤ step) × (n * step ≤ length body.now) × (length body.now ≡ body_bytes) }
    ensures { (shape : Shape) → step ≡ width shape → result ≡ (good_records shape n body.now && every is_zero (drop (n * width shape) body.now)) }
{
    if !good_ends(step, n, body) {
        return false;
    }
    all_zero(&body[n * step..])
}

// Whether body has n good records of a form and then zeros. A full block of each form has a call of its own, so that the compiler knows
// its numbers.
fn form_records(form: Form, n: usize, body: &[u8]) -> bool
    requires { (n ≤ (shape_of form).most) × (length body.now ≡ body_bytes) }
    ensures { result ≡ (good_records (shape_of form) n body.now && every is_zero (drop (n * width (shape_of form)) body.now)) }
{
    match form {
        Form::One => {
            let most = Form::One.most();
            let width = Form::One.width();
            if n == most {
                return holds_records(width, most, body);
            }
            holds_records(width, n, body)
        }
        Form::Two => {
            let most = Form::Two.most();
            let width = Form::Two.width();
            if n == most {
                return holds_records(width, most, body);
            }
            holds_records(width, n, body)
        }
    }
}

// Whether body is that of n arrivals.
fn arrivals_body(form: Form, n: usize, body: &[u8]) -> bool
    requires { length body.now ≡ body_bytes }
    ensures { result ≡ arrivals_body (shape_of form) n body.now }
{
    if !is_count(form, n) {
        return false;
    }
    form_records(form, n, body)
}

// What a block with a right check is.
fn contents(b: &[u8]) -> Result<Block, Refusal>
    requires { length b.now ≡ block_bytes }
    ensures { result ≡ contents_of b.now }
{
    let count = read16(b, COUNT) as usize;
    let ssrc = read32(b, SSRC);
    let body = &b[BODY..CHECK];
    match Kind::of(read16(b, KIND)) {
        Kind::Label(form) => {
            if label_body(count, body) {
                return Ok(Block::Label {
                    form,
                    length: count,
                    ssrc,
                });
            }
            Err(Refusal::Contents)
        }
        Kind::Arrivals(form) => {
            if arrivals_body(form, count, body) {
                return Ok(Block::Arrivals { form, count, ssrc });
            }
            Err(Refusal::Contents)
        }
        Kind::Unknown => Err(Refusal::Contents),
    }
}

// Whether the check of a block is right.
fn right_check(b: &[u8]) -> bool
    requires { length b.now ≡ block_bytes }
    ensures { result ≡ right_check b.now }
{
    if block_sum(b) != 65535 {
        return false;
    }
    read16(b, CHECK) != 65535
}

// Reads a block. Refused are any length but 512 (1), a wrong check (13) and wrong contents (14), in this order.
pub fn read_block(b: &[u8]) -> Result<Block, Refusal>
    ensures value { result ≡ block_of b.now }
    ensures numbered { read_as result ≡ read_as (block_of b.now) }
{
    if b.len() != BLOCK {
        return Err(Refusal::Incomplete);
    }
    if !right_check(b) {
        return Err(Refusal::Checksum);
    }
    contents(b)
}

// The refusal of a block that is not of the kind that its place asks for: its own, or 14.
pub fn fault_of(block: Result<Block, Refusal>) -> Refusal
    ensures { result ≡ fault_of block }
{
    match block {
        Err(refusal) => refusal,
        Ok(_) => Refusal::Contents,
    }
}

// The record at a place of a body.
fn record_in(form: Form, body: &[u8], at: usize) -> Record
    requires { at + width (shape_of form) ≤ length body.now }
    ensures { result ≡ record_at (shape_of form) body.now at }
{
    let behind = at + time_bytes(form);
    let time = read_time(form, body, at);
    let number = Wire(read16(body, behind));
    Record {
        time,
        number,
        mark: body[behind + 2],
    }
}

// The record i of an arrivals block, counted from 0. Refused are any length but 512 (1), a kind that is not arrivals or a count outside
// its form's limits (14) and an i not below the count (10), in this order. Nothing else of the block is looked at: `read_block` does that,
// once a block.
pub fn record_at(b: &[u8], i: usize) -> Result<Record, Refusal>
    ensures value { result ≡ found_at b.now i }
    ensures numbered { found_as result ≡ found_as (found_at b.now i) }
{
    if b.len() != BLOCK {
        return Err(Refusal::Incomplete);
    }
    let kind = Kind::of(read16(b, KIND));
    let Kind::Arrivals(form) = kind else {
        return Err(Refusal::Contents);
    };
    let count = read16(b, COUNT) as usize;
    if !is_count(form, count) {
        return Err(Refusal::Contents);
    }
    if count <= i {
        return Err(Refusal::Limits);
    }
    Ok(record_in(form, &b[BODY..CHECK], i * form.width()))
}
