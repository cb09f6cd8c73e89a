// When an upload is sound, with its lent bytes.
ghost use Rattle.std.specs.Prelude.{◌≡◌, ◌+◌, ◌*◌, ◌≤◌, ◌<◌, eqb, leb, length};
ghost use Rattle.answers.specs.Conditions.{all};
ghost use Rattle.format.specs.Blocks.{block_bytes};
ghost use Rattle.source.specs.Record.{fresh};
ghost use Rattle.trace.specs.Places.{zeroth_of};
ghost use Rattle.convert.specs.Feeds.{most_fed, is_no_run, own_by, run_ok, is_fault, keepable, sound_upload};

use crate::Run;
use crate::feed_lent::{LENT, all_zero};
use crate::feeds::Upload;
use crate::soundness::are_sound;
use answers::Refusal;
use format::Form;
use format::block::BLOCK;
use source::Source;
use trace::Zeroth;
use trace::places::read_label;

// Whether a source's record is fresh: a sound one that has counted nothing.
fn is_fresh(s: Source) -> bool
    ensures { result ≡ fresh s }
{
    if 0 < s.notect {
        return false;
    }
    if 0 < s.ect1 {
        return false;
    }
    if 0 < s.ect0 {
        return false;
    }
    if 0 < s.ce {
        return false;
    }
    s.is_sound()
}

// Whether no label has started a run.
fn is_no_run(run: Run) -> bool
    ensures { result ≡ all (is_no_run run) }
{
    if run.form != Form::One {
        return false;
    }
    if 0 < run.length {
        return false;
    }
    if 0 < run.ssrc {
        return false;
    }
    if !is_fresh(run.totals.source) {
        return false;
    }
    if 0 < run.totals.jumped {
        return false;
    }
    run.totals.restarts == 0
}

// Whether block 0 reads as the run's label.
fn is_own(run: Run, zeroth: &[u8]) -> bool
    ensures { result ≡ own_by run (zeroth_of zeroth.now) }
{
    let Ok(Zeroth { form, length, ssrc }) = read_label(zeroth) else {
        return false;
    };
    if form != run.form {
        return false;
    }
    if length != run.length {
        return false;
    }
    ssrc == run.ssrc
}

// Whether the run is one that so many blocks can leave, with block 0's place.
fn is_run(run: Run, zeroth: &[u8], blocks: u64) -> bool
    requires { length zeroth.now ≤ block_bytes }
    ensures { result ≡ run_ok run zeroth.now (eqb blocks 0) }
{
    if blocks == 0 {
        if !is_no_run(run) {
            return false;
        }
        return all_zero(zeroth);
    }
    if !is_own(run, zeroth) {
        return false;
    }
    are_sound(run.totals)
}

// Whether a refusal is one that a trace's block has.
fn is_fault(refusal: Refusal) -> bool
    ensures { result ≡ is_fault refusal }
{
    matches!(
        refusal,
        Refusal::Incomplete | Refusal::Checksum | Refusal::Contents
    )
}

// Whether no refusal is kept, or such a one.
fn is_kept(ended: Option<Refusal>) -> bool
    ensures { result ≡ keepable ended }
{
    match ended {
        None => true,
        Some(refusal) => is_fault(refusal),
    }
}

// Whether no more bytes are taken than may be.
fn is_taken(blocks: u64, kept: usize) -> bool
    requires { kept < block_bytes }
    ensures { result ≡ leb (block_bytes * blocks + kept) most_fed }
{
    if Upload::MOST / 512 < blocks {
        return false;
    }
    512 * blocks + kept as u64 <= Upload::MOST
}

// Whether an upload is sound, with its lent bytes.
pub fn is_sound(u: Upload, lent: &[u8]) -> bool
    ensures { result ≡ sound_upload u lent.now }
{
    if lent.len() < LENT {
        return false;
    }
    if BLOCK <= u.kept {
        return false;
    }
    if !is_taken(u.blocks, u.kept) {
        return false;
    }
    let from = BLOCK + u.kept;
    if !all_zero(&lent[from..LENT]) {
        return false;
    }
    if !is_run(u.run, &lent[..BLOCK], u.blocks) {
        return false;
    }
    is_kept(u.ended)
}
