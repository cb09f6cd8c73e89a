// When a run is sound.
ghost use Rattle.std.specs.Prelude.{◌≡◌};
ghost use Rattle.format.specs.Forms.{same_form};
ghost use Rattle.mixed.specs.Runs.{sound_run};
ghost use Rattle.mixed.specs.Rows.{own_label};

use crate::Run;
use format::Form;
use format::block::{BLOCK, BODY, BODY_BYTES, COUNT, KIND};
use numbers::big_endian::read16;
use trace::label::is_label;

// Whether a run is sound, with its lent words.
pub fn is_sound(run: Run, lines: &[u64]) -> bool
    ensures { result ≡ sound_run run lines.now }
{
    if lines.len() < Run::WORDS {
        return false;
    }
    run.held <= Run::MOST
}

// Whether arrivals of a form belong to the run's trace.
pub fn is_of_trace(run: Run, form: Form) -> bool
    ensures { result ≡ same_form form run.form }
{
    form.label() == run.form.label()
}

// Whether block 0 is the run's own. (Its header says so: no checksum is taken per call.)
pub fn is_own(run: Run, zeroth: &[u8]) -> bool
    ensures { result ≡ own_label run zeroth.now }
{
    if zeroth.len() != BLOCK {
        return false;
    }
    if read16(zeroth, KIND) != run.form.label() {
        return false;
    }
    if read16(zeroth, COUNT) as usize != run.length {
        return false;
    }
    if BODY_BYTES < run.length {
        return false;
    }
    let end = BODY + run.length;
    is_label(&zeroth[BODY..end])
}
