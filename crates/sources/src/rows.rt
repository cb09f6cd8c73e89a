// The rows of a run's lines.
ghost use Rattle.std.specs.Prelude.{◌≡◌, ◌+◌, ◌≤◌, ◌<◌, length};
ghost use Rattle.std.proofs.lemmas.List.Edits.{sets};
ghost use Rattle.answers.specs.Writers.{Wrote};
ghost use Rattle.table.specs.Lines as table;
ghost use Rattle.sources.specs.Rows.{lines_of, label_of, rows_of, rows_fault, row_fault, row_of, Judged};

use crate::judging::judge_with;
use crate::runs::Run;
use answers::{Refusal, Unwritten};
use format::block::BODY;
use source::Totals;
use table::write_row;

// Writes the row of a line, which is not refused.
fn write_line(label: &[u8], ssrc: u32, totals: Totals, out: &mut [u8]) -> Result<usize, Unwritten>
    requires { table.row_fault label.now totals ≡ None }
    ensures { Wrote None (table.row_bytes label.now ssrc totals) out.old result out.new × (length (table.row_bytes label.now ssrc totals) ≤ 1228) }
{
    write_row(label, ssrc, totals, out)
}

// Writes the row of the line in place i, of a run that was judged.
fn write_held(
    run: Run,
    n: usize,
    i: usize,
    zeroth: &[u8],
    out: &mut [u8],
) -> Result<usize, Unwritten>
    requires { Judged run zeroth.now n × (i < n) }
    ensures { Wrote None (row_of run i zeroth.now) out.old result out.new × (length (row_of run i zeroth.now) ≤ 1228) }
{
    let table = run.table;
    let p = table.places[i];
    let t = run.tallies[i];
    let source = p.source;
    let totals = Totals {
        source,
        jumped: t.jumped,
        restarts: t.restarts,
    };
    let end = BODY + run.length;
    write_line(&zeroth[BODY..end], p.ssrc, totals, out)
}

// Writes the row of line i.
pub fn write(run: Run, i: usize, zeroth: &[u8], out: &mut [u8]) -> Result<usize, Unwritten>
    ensures { Wrote (row_fault run i zeroth.now) (row_of run i zeroth.now) out.old result out.new }
{
    match judge_with(run, zeroth) {
        Err(refusal) => Err(Unwritten::Refused(refusal)),
        Ok(n) => {
            if n <= i {
                return Err(Unwritten::Refused(Refusal::Limits));
            }
            write_held(run, n, i, zeroth, out)
        }
    }
}

// The bytes that the row of a line takes.
fn row_size(run: Run, n: usize, i: usize, zeroth: &[u8]) -> usize
    requires { Judged run zeroth.now n × (i < n) }
    ensures { (result ≡ length (row_of run i zeroth.now)) × (result ≤ 1228) }
{
    let mut little = [0u8; 1];
    match write_held(run, n, i, zeroth, &mut little) {
        Ok(size) => size,
        Err(Unwritten::Room(size)) => size,
        Err(Unwritten::Refused(_)) => 0,
    }
}

// The bytes that all rows take.
fn rows_size(run: Run, n: usize, zeroth: &[u8]) -> usize
    requires { Judged run zeroth.now n }
    ensures { result ≡ length (rows_of (label_of run zeroth.now) (lines_of run)) }
{
    let mut size = 0;
    let mut i: usize = 0;
    while i < n {
        size += row_size(run, n, i, zeroth);
        i += 1;
    }
    size
}

// Writes the row of a line from a place of out on, which has room for it.
fn put_row(run: Run, n: usize, i: usize, zeroth: &[u8], out: &mut [u8], at: usize) -> usize
    requires { Judged run zeroth.now n × (i < n) × (at + length (row_of run i zeroth.now) ≤ length out.old) }
    ensures { (result ≡ length (row_of run i zeroth.now)) × (out.new ≡ sets out.old at (row_of run i zeroth.now)) }
{
    match write_held(run, n, i, zeroth, &mut out[at..]) {
        Ok(size) => size,
        Err(_) => 0,
    }
}

// Writes all rows at the front of out, which has room for them.
fn put_rows(run: Run, n: usize, zeroth: &[u8], out: &mut [u8])
    requires { Judged run zeroth.now n × (length (rows_of (label_of run zeroth.now) (lines_of run)) ≤ length out.old) }
    ensures { out.new ≡ sets out.old 0 (rows_of (label_of run zeroth.now) (lines_of run)) }
{
    let mut at = 0;
    let mut i: usize = 0;
    while i < n {
        at += put_row(run, n, i, zeroth, out, at);
        i += 1;
    }
}

// Writes the rows of all n lines of a run that was judged.
fn write_all(run: Run, n: usize, zeroth: &[u8], out: &mut [u8]) -> Result<usize, Unwritten>
    requires { Judged run zeroth.now n }
    ensures { Wrote None (rows_of (label_of run zeroth.now) (lines_of run)) out.old result out.new }
{
    let size = rows_size(run, n, zeroth);
    if out.len() < size {
        return Err(Unwritten::Room(size));
    }
    put_rows(run, n, zeroth, out);
    Ok(size)
}

// Writes the rows of all lines.
pub fn write_rows(run: Run, zeroth: &[u8], out: &mut [u8]) -> Result<usize, Unwritten>
    ensures { Wrote (rows_fault run zeroth.now) (rows_of (label_of run zeroth.now) (lines_of run)) out.old result out.new }
{
    match judge_with(run, zeroth) {
        Err(refusal) => Err(Unwritten::Refused(refusal)),
        Ok(n) => write_all(run, n, zeroth, out),
    }
}
