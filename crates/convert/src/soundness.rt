// When a run is sound.
ghost use Rattle.std.specs.Prelude.{◌≡◌};
ghost use Rattle.answers.specs.Conditions.{all};
ghost use Rattle.convert.specs.Runs.{own_label, sound_totals, sound_run};

use crate::Run;
use format::block::{BLOCK, BODY, BODY_BYTES, COUNT, KIND, SSRC};
use numbers::big_endian::{read16, read32};
use source::Totals;
use trace::label::is_label;

// Whether block 0 is the run's own. (Its header says so: no checksum is taken per call.)
fn is_own(run: Run, zeroth: &[u8]) -> bool
    ensures { result ≡ all (own_label run zeroth.now) }
{
    if zeroth.len() != BLOCK {
        return false;
    }
    if read16(zeroth, KIND) != run.form.label() {
        return false;
    }
    if read16(zeroth, COUNT) as usize != run.length {
        return false;
    }
    read32(zeroth, SSRC) == run.ssrc
}

// Whether the totals are sound.
pub fn are_sound(t: Totals) -> bool
    ensures { result ≡ all (sound_totals t) }
{
    let Ok(_) = t.source.lost() else {
        return false;
    };
    if Totals::MOST < t.jumped {
        return false;
    }
    t.restarts <= Totals::MOST
}

// Whether a run is sound, with block 0.
pub fn is_sound(run: Run, zeroth: &[u8]) -> bool
    ensures { result ≡ sound_run run zeroth.now }
{
    if !is_own(run, zeroth) {
        return false;
    }
    if BODY_BYTES < run.length {
        return false;
    }
    let end = BODY + run.length;
    if !is_label(&zeroth[BODY..end]) {
        return false;
    }
    are_sound(run.totals)
}
