// A row as a line: its length first, and then its fields from the last to the first, so that a number's digits are counted once.
ghost use Rattle.std.specs.Prelude.{◌≡◌, true, ◌∷◌, ◌+◌, ◌≤◌, length};
ghost use Rattle.std.proofs.lemmas.List.Edits.{sets};
ghost use Rattle.answers.specs.Writers.{Wrote};
ghost use Rattle.source.specs.Record.{sound, lost as lost_of};
ghost use Rattle.table.specs.Decimal.{decimal};
ghost use Rattle.table.specs.Field.{as_field};
ghost use Rattle.table.specs.Lines.{row_bytes};
ghost use Rattle.table.specs.Parts.{behind_commas, minus, tail, whole};

use crate::decimal::{digits, put_before, signed_length};
use crate::field::{field_length, put_field};
use answers::Unwritten;
use numbers::sign::magnitude;
use source::Totals;

// Stores a comma and n in out before `end`, and answers where the comma is.
fn put_number(n: u64, out: &mut [u8], end: usize) -> usize
    requires { (length (decimal n) + 1 ≤ end) × (end ≤ length out.old) }
    ensures begins { result + (length (decimal n) + 1) ≡ end }
    ensures written { out.new ≡ sets out.old result (44 ∷ decimal n) }
{
    let at = put_before(n, out, end) - 1;
    out[at] = b',';
    at
}

// Stores a comma and a number, given by its sign and size, in out before `end`, and answers where the comma is.
fn put_signed(below: bool, size: u64, out: &mut [u8], end: usize) -> usize
    requires { (length (minus below size) + 1 ≤ end) × (end ≤ length out.old) }
    ensures begins { result + (length (minus below size) + 1) ≡ end }
    ensures written { out.new ≡ sets out.old result (44 ∷ minus below size) }
{
    if below {
        let at = put_before(size, out, end) - 2;
        out[at] = b',';
        out[at + 1] = b'-';
        return at;
    }
    put_number(size, out, end)
}

// The length of the numbers ns, each behind a comma.
fn numbers_length(ns: &[u64]) -> usize
    requires { length ns.now ≤ 6 }
    ensures value { result ≡ length (behind_commas ns.now) }
    ensures bounded { result ≤ 126 }
{
    let mut count: usize = 0;
    for n in ns {
        count += digits(*n) + 1;
    }
    count
}

// Stores the numbers ns, each behind a comma, in out before `end`, and answers where they begin.
fn put_numbers(ns: &[u64], out: &mut [u8], end: usize) -> usize
    requires { (length (behind_commas ns.now) ≤ end) × (end ≤ length out.old) }
    ensures begins { result + length (behind_commas ns.now) ≡ end }
    ensures written { out.new ≡ sets out.old result (behind_commas ns.now) }
{
    let mut place = end;
    for n in ns.iter().rev() {
        place = put_number(*n, out, place);
    }
    place
}

// Stores the end of a row, from the comma before lost on, in out before `end`, and answers where it begins.
fn put_tail(below: bool, size: u64, back: &[u64], out: &mut [u8], end: usize) -> usize
    requires { (length (tail below size back.now) ≤ end) × (end ≤ length out.old) }
    ensures begins { result + length (tail below size back.now) ≡ end }
    ensures written { out.new ≡ sets out.old result (tail below size back.now) }
{
    out[end - 2] = 13;
    out[end - 1] = 10;
    let a = put_numbers(back, out, end - 2);
    put_signed(below, size, out, a)
}

// Stores a row of `total` bytes at the front of out; its label takes the first `long` of them.
fn put_line(
    label: &[u8],
    long: usize,
    front: &[u64],
    below: bool,
    size: u64,
    back: &[u64],
    out: &mut [u8],
    total: usize,
)
    requires { (long ≡ length (as_field label.now)) × (total ≡ length (whole label.now front.now below size back.now)) × (total ≤ length out.old) }
    ensures { out.new ≡ sets out.old 0 (whole label.now front.now below size back.now) }
{
    let a = put_tail(below, size, back, out, total);
    put_numbers(front, out, a);
    put_field(label, long, out);
}

// Writes a row of a label and numbers.
fn line(
    label: &[u8],
    front: &[u64],
    below: bool,
    size: u64,
    back: &[u64],
    out: &mut [u8],
) -> Result<usize, Unwritten>
    requires { (length label.now ≤ 502) × (length front.now ≤ 6) × (length back.now ≤ 6) }
    ensures { Wrote None (whole label.now front.now below size back.now) out.old result out.new }
{
    let long = field_length(label);
    let before = numbers_length(front);
    let behind = numbers_length(back);
    let total = long + before + signed_length(below, size) + behind + 3;
    if out.len() < total {
        return Err(Unwritten::Room(total));
    }
    put_line(label, long, front, below, size, back, out, total);
    Ok(total)
}

// Writes the row of a sound record, whose lost packets are given.
pub fn row(
    label: &[u8],
    ssrc: u32,
    t: Totals,
    lost: i64,
    out: &mut [u8],
) -> Result<usize, Unwritten>
    requires { (length label.now ≤ 502) × (sound t.source ≡ true) × (lost ≡ lost_of t.source) }
    ensures { Wrote None (row_bytes label.now ssrc t) out.old result out.new }
{
    let s = t.source;
    let high = magnitude(s.highest.0);
    let front = [ssrc as u64, high, s.ect0, s.ect1, s.ce, s.notect];
    let back = [s.duplicates, t.jumped, t.restarts];
    line(label, &front, lost < 0, magnitude(lost), &back, out)
}
