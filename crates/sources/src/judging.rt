// When a run is sound.
ghost use Rattle.std.specs.Prelude.{◌≡◌, map, ◌≤◌};
ghost use Rattle.answers.specs.Conditions.{all};
ghost use Rattle.format.specs.Blocks.{body_bytes};
ghost use Rattle.format.specs.Forms.{same_form};
ghost use Rattle.sources.specs.Tallies.{sound_tally};
ghost use Rattle.sources.specs.Runs.{own_fields, judged};
ghost use Rattle.sources.specs.Rows.{own_conditions, judged_with};

use crate::Table;
use crate::runs::{Run, Tally};
use answers::Refusal;
use format::Form;
use format::block::{BLOCK, BODY, BODY_BYTES, COUNT, KIND};
use numbers::big_endian::read16;
use source::Totals;
use trace::label::is_label;

// Whether a tally is sound.
fn is_sound(t: Tally) -> bool
    ensures { result ≡ sound_tally t }
{
    if Totals::MOST < t.jumped {
        return false;
    }
    t.restarts <= Totals::MOST
}

// Whether all tallies are sound.
fn are_sound(tallies: [Tally; 16]) -> bool
    ensures { result ≡ all (map sound_tally tallies) }
{
    let mut i: usize = 0;
    while i < 16 {
        let t = tallies[i];
        if !is_sound(t) {
            return false;
        }
        i += 1;
    }
    true
}

// Whether the run's own fields are sound.
fn has_fields(run: Run) -> bool
    ensures { result ≡ all (own_fields run) }
{
    let table = run.table;
    let tallies = run.tallies;
    if table.count != Table::MOST {
        return false;
    }
    if BODY_BYTES < run.length {
        return false;
    }
    are_sound(tallies)
}

// How many places are held. Refusals: 16, then 9.
pub fn judge(run: Run) -> Result<usize, Refusal>
    ensures { result ≡ judged run }
{
    let table = run.table;
    match table.check() {
        Err(refusal) => Err(refusal),
        Ok(n) => {
            if !has_fields(run) {
                return Err(Refusal::Malformed);
            }
            Ok(n)
        }
    }
}

// Whether arrivals of a form belong to a trace.
pub fn is_of_trace(own: Form, form: Form) -> bool
    ensures { result ≡ same_form form own }
{
    form.label() == own.label()
}

// Whether block 0 is the run's own. (Its header says so: no checksum is taken per call.)
fn is_own(run: Run, zeroth: &[u8]) -> bool
    requires { run.length ≤ body_bytes }
    ensures { result ≡ all (own_conditions run zeroth.now) }
{
    let length = run.length;
    if zeroth.len() != BLOCK {
        return false;
    }
    let form = run.form;
    if read16(zeroth, KIND) != form.label() {
        return false;
    }
    if read16(zeroth, COUNT) as usize != length {
        return false;
    }
    let end = BODY + length;
    is_label(&zeroth[BODY..end])
}

// How many places are held, where block 0 is the run's own. Refusals: 16, then 9.
pub fn judge_with(run: Run, zeroth: &[u8]) -> Result<usize, Refusal>
    ensures { result ≡ judged_with run zeroth.now }
{
    match judge(run) {
        Err(refusal) => Err(refusal),
        Ok(n) => {
            if !is_own(run, zeroth) {
                return Err(Refusal::Malformed);
            }
            Ok(n)
        }
    }
}
