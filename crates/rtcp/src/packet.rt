// The faults of a packet in document 01's order: 1, 2, 4 (end), 5, 3, 4 (body).
ghost use Rattle.std.specs.Prelude.{◌≡◌, ◌||◌, ◌≤◌, length};
ghost use Rattle.rtcp.specs.Packets.{is_report, blocks_from, is_feedback, padding_right, may_stand, body_right, packet_verdict};

use crate::Profile;
use crate::header::{Header, padding_at};
use crate::layout::{
    ECN_FEEDBACK, FEEDBACK, HEADER, REPORT_BLOCK, RR, RR_HEAD, RTPFB, SR, SR_HEAD, VERSION, XR,
    XR_HEAD,
};
use answers::Refusal;

// Whether a packet is an SR or an RR.
#[tactic(auto, unfolding(crate::specs::Packets::is_report))]
pub fn is_report(header: Header) -> bool
    ensures { result ≡ is_report header }
{
    header.kind == SR || header.kind == RR
}

// How many bytes of an SR or an RR stand before its report blocks.
#[tactic(auto, unfolding(crate::specs::Packets::blocks_from))]
pub fn blocks_from(header: Header) -> usize
    ensures value { result ≡ blocks_from header }
    ensures bounded { result ≤ 28 }
{
    if header.kind == SR { SR_HEAD } else { RR_HEAD }
}

// Whether a packet is ECN feedback.
#[tactic(auto, unfolding(crate::specs::Packets::is_feedback))]
pub fn is_feedback(header: Header) -> bool
    ensures { result ≡ is_feedback header }
{
    header.kind == RTPFB && header.count == ECN_FEEDBACK
}

// Whether a packet has no padding, or is the last and has an allowed one.
#[tactic(auto, unfolding(crate::specs::Packets::padding_right))]
fn padding_right(header: Header, last: bool, padding: usize) -> bool
    requires { padding ≤ 255 }
    ensures { result ≡ padding_right header last padding }
{
    !header.padded || last && padding % 4 == 0 && 4 <= padding && padding + HEADER <= header.size
}

// Whether a packet may stand at `at`: the first one of a full compound is an SR or an RR.
#[tactic(auto, unfolding(crate::specs::Packets::may_stand))]
fn may_stand(header: Header, profile: Profile, at: usize) -> bool
    ensures { result ≡ may_stand header profile at }
{
    profile == Profile::ReducedSize || at != 0 || is_report(header)
}

// Whether a packet of this size without padding has what its body needs.
#[tactic(auto, unfolding(crate::specs::Packets::body_right))]
fn body_right(header: Header, unpadded: usize) -> bool
    ensures { result ≡ body_right header unpadded }
{
    if is_report(header) {
        blocks_from(header) + header.count as usize * REPORT_BLOCK <= unpadded
    } else if header.kind == XR {
        XR_HEAD <= unpadded
    } else {
        !is_feedback(header) || unpadded == FEEDBACK
    }
}

// The first fault of the packet at `at`.
#[tactic(auto, using(crate::proofs::Whole::padding_le), unfolding(crate::specs::Packets::packet_verdict))]
pub fn packet_verdict(b: &[u8], at: usize, header: Header, profile: Profile) -> Result<(), Refusal>
    requires { (at ≤ length b.now) × (1 ≤ header.size) }
    ensures { result ≡ packet_verdict profile header b.now at }
{
    let left = b.len() - at;
    if left < HEADER {
        return Err(Refusal::Incomplete);
    }
    if header.version != VERSION {
        return Err(Refusal::Version);
    }
    if left < header.size {
        return Err(Refusal::PacketSize);
    }
    let padding = padding_at(b, at, header);
    if !padding_right(header, at + header.size == b.len(), padding) {
        return Err(Refusal::Padding);
    }
    if !may_stand(header, profile, at) {
        return Err(Refusal::FirstPacket);
    }
    if !body_right(header, header.size - padding) {
        return Err(Refusal::PacketSize);
    }
    Ok(())
}
