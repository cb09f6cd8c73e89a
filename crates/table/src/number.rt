// The line of a number.
ghost use Rattle.std.specs.Prelude.{◌≡◌};
ghost use Rattle.answers.specs.Writers.{Wrote};
ghost use Rattle.table.specs.Lines.{number_line};

use crate::decimal::{digits, put_before};
use answers::Unwritten;

// Writes the line.
pub fn line(n: u64, out: &mut [u8]) -> Result<usize, Unwritten>
    ensures { Wrote None (number_line n) out.old result out.new }
{
    let size = digits(n) + 2;
    if out.len() < size {
        return Err(Unwritten::Room(size));
    }
    put_before(n, out, size - 2);
    out[size - 2] = 13;
    out[size - 1] = 10;
    Ok(size)
}
