// The row of a line.
ghost use Rattle.std.specs.Prelude.{◌≡◌, true, ◌<◌};
ghost use Rattle.answers.specs.Writers.{Wrote};
ghost use Rattle.mixed.specs.Runs.{sound_run};
ghost use Rattle.mixed.specs.Rows.{own_label, row_fault, row_of};

use crate::words::WORDS;
use crate::{Run, words};
use answers::{Refusal, Unwritten};
use format::block::BODY;
use table::write_row;

// The greatest SSRC.
const MOST_SSRC: u64 = 0xffff_ffff;

// Writes the row of line i.
pub fn write(
    run: Run,
    i: usize,
    lines: &[u64],
    zeroth: &[u8],
    out: &mut [u8],
) -> Result<usize, Unwritten>
    requires { (sound_run run lines.now ≡ true) × (own_label run zeroth.now ≡ true) × (i < run.held) }
    ensures { Wrote (row_fault run i lines.now zeroth.now) (row_of run i lines.now zeroth.now) out.old result out.new }
{
    let from = WORDS * i;
    let end = from + WORDS;
    let ssrc = lines[from];
    if MOST_SSRC < ssrc {
        return Err(Unwritten::Refused(Refusal::Malformed));
    }
    let Some(totals) = words::load(&lines[from..end]) else {
        return Err(Unwritten::Refused(Refusal::Malformed));
    };
    let stop = BODY + run.length;
    write_row(&zeroth[BODY..stop], ssrc as u32, totals, out)
}
