// The ECN reports of RFC 6679, section 5, written from a source's record: the feedback packet and the XR summary block.
#![tactic(auto)]

ghost use Rattle.std.specs.Prelude.{◌≡◌};
ghost use Rattle.answers.specs.Writers.{Wrote};
ghost use Rattle.report.specs.Reports.{fault, feedback_bytes, summary_bytes};

mod carried;
mod layout;

use answers::Unwritten;
use source::Source;

// Writes the ECN feedback packet, 32 bytes, of the source `media`, from the SSRC `sender`. Refusals: 9 malformed record, 12 no room.
pub fn write_feedback(
    s: Source,
    sender: u32,
    media: u32,
    out: &mut [u8],
) -> Result<usize, Unwritten>
    ensures { Wrote (fault s) (feedback_bytes sender media s) out.old result out.new }
{
    let carried = carried::of(s)?;
    layout::feedback(sender, media, carried.highest, carried.counts, out)
}

// Writes the XR ECN summary block of the source `media`, one entry, 24 bytes. Refusals: 9 malformed record, 12 no room.
pub fn write_summary(s: Source, media: u32, out: &mut [u8]) -> Result<usize, Unwritten>
    ensures { Wrote (fault s) (summary_bytes media s) out.old result out.new }
{
    let carried = carried::of(s)?;
    layout::summary(media, carried.counts, out)
}
