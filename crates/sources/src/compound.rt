// The compound of a table: an RR without report blocks, and the held places' feedback.
ghost use Rattle.std.specs.Prelude.{◌≡◌, true, map, ◌+◌, ◌*◌, ◌≤◌, length, take};
ghost use Rattle.std.proofs.lemmas.List.Edits.{sets};
ghost use Rattle.answers.specs.Conditions.{all};
ghost use Rattle.answers.specs.Writers.{Wrote};
ghost use Rattle.sources.specs.Places.{sound_place};
ghost use Rattle.sources.specs.Compounds.{receiver_report, feedbacks, compound_bytes};
ghost use Rattle.sources.specs.Tables.{lent, fault_in};
ghost use Rattle.sources.specs.Checks.{Good};

use crate::{Table, finding, tables};
use answers::Unwritten;
use numbers::big_endian::write32;

// The RR's first word: version 2, no report blocks, type 201, length 1.
const RECEIVER_REPORT: u32 = 0x80C9_0001;

// The bytes of the RR, and of one feedback packet.
const HEAD: usize = 8;

const PACKET: usize = 32;

fn put_report(sender: u32, out: &mut [u8])
    requires { 8 ≤ length out.old }
    ensures { out.new ≡ sets out.old 0 (receiver_report sender) }
{
    write32(RECEIVER_REPORT, out, 0);
    write32(sender, out, 4);
}

// The feedback of the first n places, behind the RR.
fn put_feedbacks(t: Table, n: usize, sender: u32, out: &mut [u8])
    requires { (n ≤ 16) × (8 + 32 * n ≤ length out.old) × (all (map sound_place (take n t.places)) ≡ true) }
    ensures { out.new ≡ sets out.old 8 (feedbacks sender (take n t.places)) }
{
    let mut i: usize = 0;
    while i < n {
        let p = t.places[i];
        let s = p.source;
        let at = HEAD + PACKET * i;
        let _ = report::write_feedback(s, sender, p.ssrc, &mut out[at..]);
        i += 1;
    }
}

// The compound of a table of which n places are held.
fn write_held(t: Table, n: usize, sender: u32, out: &mut [u8]) -> Result<usize, Unwritten>
    requires { Good t n }
    ensures { Wrote (fault_in t) (compound_bytes sender (lent t)) out.old result out.new }
{
    let size = HEAD + PACKET * n;
    if out.len() < size {
        return Err(Unwritten::Room(size));
    }
    put_report(sender, out);
    put_feedbacks(t, n, sender, out);
    Ok(size)
}

pub fn write(t: Table, sender: u32, out: &mut [u8]) -> Result<usize, Unwritten>
    ensures { Wrote (fault_in t) (compound_bytes sender (lent t)) out.old result out.new }
{
    match finding::judged(tables::find(t, 0)) {
        Err(refusal) => Err(Unwritten::Refused(refusal)),
        Ok(n) => write_held(t, n, sender, out),
    }
}
