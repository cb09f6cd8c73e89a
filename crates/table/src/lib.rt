// The table (document 01, "Table"; 02, requests L3 and L5): the head line, a row of one source's record, the line of a refused block; and the line of a number
// (L14). Each writer knows its length before it stores a byte.
#![tactic(auto)]

ghost use Rattle.std.specs.Prelude.{◌≡◌};
ghost use Rattle.answers.specs.Writers.{Wrote};
ghost use Rattle.table.specs.Lines.{head_bytes, row_fault, row_bytes, refused_line, number_line};

use answers::copy::put_bytes;
use answers::{Refusal, Unwritten};
use source::Totals;
use trace::label::is_label;

mod decimal;
mod field;
mod lines;
mod number;
mod refused;

// Writes the head line at the front of out. Refusal: 12 output too small.
pub fn write_head(out: &mut [u8]) -> Result<usize, Unwritten>
    ensures { Wrote None head_bytes out.old result out.new }
{
    // 65 is the length of the text below.
    if out.len() < 65 {
        return Err(Unwritten::Room(65));
    }
    put_bytes(
        b"label,ssrc,highest,ect0,ect1,ce,notect,lost,dup,jumped,restarts\r\n",
        out,
        0,
    );
    Ok(65)
}

// Writes a row at the front of out: the label, the SSRC, the record's counts, the jumps and the restarts. Refusals: 9 malformed record, 10 a label
// outside the trace rules or more than 2^48 jumps or restarts, 12 output too small.
pub fn write_row(label: &[u8], ssrc: u32, t: Totals, out: &mut [u8]) -> Result<usize, Unwritten>
    ensures { Wrote (row_fault label.now t) (row_bytes label.now ssrc t) out.old result out.new }
{
    let lost = t.source.lost()?;
    if !is_label(label) || Totals::MOST < t.jumped || Totals::MOST < t.restarts {
        return Err(Unwritten::Refused(Refusal::Limits));
    }
    lines::row(label, ssrc, t, lost, out)
}

// Writes the line `refused N block I` at the front of out. Refusal: 12 output too small.
pub fn write_refused(number: u8, block: u64, out: &mut [u8]) -> Result<usize, Unwritten>
    ensures { Wrote None (refused_line number block) out.old result out.new }
{
    refused::line(number as u64, block, out)
}

// Writes the number, in decimal, as a line at the front of out. Refusal: 12 output too small.
pub fn write_number(number: u64, out: &mut [u8]) -> Result<usize, Unwritten>
    ensures { Wrote None (number_line number) out.old result out.new }
{
    number::line(number, out)
}
