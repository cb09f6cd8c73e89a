// The line of a refused block.
ghost use Rattle.std.specs.Prelude.{◌≡◌, ◌++◌, ◌+◌, ◌≤◌, ◌<◌, length};
ghost use Rattle.std.proofs.lemmas.List.Edits.{sets};
ghost use Rattle.answers.specs.Writers.{Wrote};
ghost use Rattle.table.specs.Decimal.{decimal};
ghost use Rattle.table.specs.Lines.{refused_line};

use crate::decimal::{digits, put_before};
use answers::Unwritten;
use answers::copy::put_bytes;

// Stores a text and behind it the number n in out from a place up to `end`.
fn put_counted(text: &[u8], n: u64, out: &mut [u8], at: usize, end: usize)
    requires { (at + length text.now + length (decimal n) ≡ end) × (end ≤ length out.old) }
    ensures { out.new ≡ sets out.old at (text.now ++ decimal n) }
{
    put_bytes(text, out, at);
    put_before(n, out, end);
}

// Stores the line, whose first number ends before `middle`, at the front of out.
fn put_line(number: u64, block: u64, out: &mut [u8], middle: usize, size: usize)
    requires { (middle ≡ 8 + length (decimal number)) × (size ≡ middle + (9 + length (decimal block))) × (size ≤ length out.old) }
    ensures { out.new ≡ sets out.old 0 (refused_line number block) }
{
    put_counted(b"refused ", number, out, 0, middle);
    put_counted(b" block ", block, out, middle, size - 2);
    out[size - 2] = 13;
    out[size - 1] = 10;
}

// Writes the line.
pub fn line(number: u64, block: u64, out: &mut [u8]) -> Result<usize, Unwritten>
    ensures { Wrote None (refused_line number block) out.old result out.new }
{
    let middle = 8 + digits(number);
    let size = middle + (9 + digits(block));
    if out.len() < size {
        return Err(Unwritten::Room(size));
    }
    put_line(number, block, out, middle, size);
    Ok(size)
}
