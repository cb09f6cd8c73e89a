// ECN feedback packets and ECN summary blocks (RFC 6679, section 5).
ghost use Rattle.std.specs.Prelude.{◌≡◌, ◌+◌, ◌*◌, ◌≤◌, length};
ghost use Rattle.rtcp.specs.Packets.{Sound};
ghost use Rattle.rtcp.specs.EcnReports.{counts, feedback_in, summary_in};

use crate::Feedback;
use crate::entries::find_entry;
use crate::fields::{number16, number32};
use crate::header::{Header, XrBlock};
use crate::layout::{ECN_SUMMARY, HEADER, SUMMARY_ENTRY, SUMMARY_WORDS};
use crate::packet::is_feedback;
use format::Counts;

// The counters in the 16 bytes from `at` on.
#[tactic(auto, unfolding(crate::specs::EcnReports::counts))]
fn counts_at(b: &[u8], at: usize) -> Counts
    requires { at + 16 ≤ length b.now }
    ensures { result ≡ counts b.now at }
{
    Counts {
        ect0: number32(b, at),
        ect1: number32(b, at + 4),
        ce: number16(b, at + 8),
        notect: number16(b, at + 10),
        lost: number16(b, at + 12),
        duplicates: number16(b, at + 14),
    }
}

// The ECN feedback about `media` that the packet at `at` is.
pub fn feedback_in(b: &[u8], at: usize, header: Header, media: u32) -> Option<Feedback>
    requires { Sound header b.now at }
    ensures { result ≡ feedback_in header b.now at media }
{
    if !is_feedback(header) || number32(b, at + 8) != media {
        return None;
    }
    Some(Feedback {
        sender: number32(b, at + 4),
        highest: number32(b, at + 12),
        counts: counts_at(b, at + 16),
    })
}

// The first ECN summary entry about `media` in the XR block at `at`.
pub fn summary_in(b: &[u8], at: usize, block: XrBlock, media: u32) -> Option<Counts>
    requires { at + (block.words + 1) * 4 ≤ length b.now }
    ensures { result ≡ summary_in block b.now at media }
{
    if block.kind != ECN_SUMMARY || block.words % SUMMARY_WORDS != 0 {
        return None;
    }
    let count = block.words / SUMMARY_WORDS;
    let entry = find_entry(b, at + HEADER, SUMMARY_ENTRY, count, media)?;
    Some(counts_at(b, entry + 4))
}
