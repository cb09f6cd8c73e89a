// The table's head line, its rows and the line of a refused block.
ghost use Rattle.capi.specs.Blocks.{WritesHead, WritesRow, WritesRefused};

use crate::codes;
use answers::Refusal;
use lent::source_words::load;
use source::Totals;
use table::{write_head, write_refused, write_row};

// Writes the table's head line. Gives its length, or minus refusal 12.
pub fn flasknib_write_head(out: &mut [u8]) -> i64
    ensures { WritesHead out.old result out.new }
{
    codes::length(write_head(out))
}

// Writes a row of the table. Gives its length, or minus refusal 9, 10 or 12.
pub fn flasknib_write_row(
    label: &[u8],
    ssrc: u32,
    words: &[u64],
    jumped: u64,
    restarts: u64,
    out: &mut [u8],
) -> i64
    ensures { WritesRow label.now ssrc words.now jumped restarts out.old result out.new }
{
    let Some(source) = load(words) else {
        return codes::minus(Refusal::Malformed);
    };
    let totals = Totals {
        source,
        jumped,
        restarts,
    };
    codes::length(write_row(label, ssrc, totals, out))
}

// Writes the line `refused N block I`. Gives its length, or minus refusal 12.
pub fn flasknib_write_refused(number: u8, block: u64, out: &mut [u8]) -> i64
    ensures { WritesRefused number block out.old result out.new }
{
    codes::length(write_refused(number, block, out))
}
