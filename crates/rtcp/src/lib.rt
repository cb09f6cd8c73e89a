// Compound RTCP (document 01, "Packets"; 02, request L4; RFC 3550, section 6.1; RFC 5506), read for one media source: its report block, its ECN feedback
// and its ECN summary entry (RFC 6679, section 5).
#![tactic(auto)]

ghost use Rattle.std.specs.Prelude.{◌≡◌, ◌∷◌, ◌≤◌, length};
ghost use mathlib.Core.List.{map, flat_map};
ghost use Rattle.rtcp.specs.Packets.{first_fault};
ghost use Rattle.rtcp.specs.EcnReports.{block_at, summary_in};
ghost use Rattle.rtcp.specs.Compound.{begins, block_check, first_summary, packets, checks_of, found, unless_faulty, reading};
ghost use Rattle.rtcp.specs.Numbered.{reading_as};

use crate::ecn::{feedback_in, summary_in};
use crate::header::{block_at, header_at, padding_at};
use crate::layout::{COMPOUND_MOST, XR, XR_HEAD};
use crate::packet::{is_report, packet_verdict};
use crate::reports::report_in;
use answers::Refusal;
use format::Counts;

mod ecn;
mod entries;
mod fields;
mod header;
mod layout;
mod packet;
mod reports;

// The report block of an SR or RR about one source (RFC 3550, section 6.4.1). The cumulative lost has 24 bits and is signed. The reporter is the
// SSRC of who sent that SR or RR.
#[derive(Clone, Copy)]
pub struct ReportBlock {
    pub fraction: u8,
    pub lost: i32,
    pub highest: u32,
    pub jitter: u32,
    pub lsr: u32,
    pub dlsr: u32,
    pub reporter: u32,
}

// The ECN feedback packet about one source (RFC 6679, section 5.1).
#[derive(Clone, Copy)]
pub struct Feedback {
    pub sender: u32,
    pub highest: u32,
    pub counts: Counts,
}

// Which compounds are taken: those that begin with an SR or an RR (RFC 3550, section 6.1), or reduced-size ones too, which need not have one
// (RFC 5506).
#[derive(Clone, Copy, PartialEq, Eq)]
pub enum Profile {
    Compound,
    ReducedSize,
}

// What a compound says of one media source: the first of each. `reporting` says whether an SR or an RR is in it, with or without a block about
// the source.
#[derive(Clone, Copy)]
pub struct Compound {
    pub report: Option<ReportBlock>,
    pub feedback: Option<Feedback>,
    pub summary: Option<Counts>,
    pub reporting: bool,
}

// What was found of a summary before the XR blocks from `from` up to `end`, or is in them; or the fault of a block that passes the end.
fn summary_behind(
    old: Option<Counts>,
    bytes: &[u8],
    from: usize,
    end: usize,
    media: u32,
) -> Result<Option<Counts>, Refusal>
    requires { end ≤ length bytes.now }
    ensures { result ≡ unless_faulty (first_fault (map (block_check bytes.now end) (begins bytes.now from end))) (first_summary (old ∷ map (λ at. summary_in (block_at bytes.now at) bytes.now at media) (begins bytes.now from end))) }
{
    let mut summary = old;
    let mut at = from;
    while at < end {
        let block = block_at(bytes, at);
        let next = at + (block.words + 1) * 4;
        if end < next {
            return Err(Refusal::BlockSize);
        }
        summary = summary.or_else(|| summary_in(bytes, at, block, media));
        at = next;
    }
    Ok(summary)
}

// What the packets in `bytes` say of the source `media`, or their first fault.
fn read_packets(bytes: &[u8], media: u32, profile: Profile) -> Result<Compound, Refusal>
    ensures { result ≡ unless_faulty (first_fault (flat_map (checks_of bytes.now profile) (packets bytes.now))) (found bytes.now media) }
{
    let mut report = None;
    let mut feedback = None;
    let mut summary = None;
    let mut reporting = false;
    let mut at = 0;
    while at < bytes.len() {
        let header = header_at(bytes, at);
        packet_verdict(bytes, at, header, profile)?;
        let next = at + header.size;
        if header.kind == XR {
            let end = next - padding_at(bytes, at, header);
            summary = summary_behind(summary, bytes, at + XR_HEAD, end, media)?;
        } else {
            report = report.or_else(|| report_in(bytes, at, header, media));
            feedback = feedback.or_else(|| feedback_in(bytes, at, header, media));
            reporting |= is_report(header);
        }
        at = next;
    }
    Ok(Compound {
        report,
        feedback,
        summary,
        reporting,
    })
}

// What the compound in `bytes` says of the source `media`, or its first fault.
#[tactic(auto, unfolding(crate::specs::Compound::reading))]
pub fn read_compound(bytes: &[u8], media: u32, profile: Profile) -> Result<Compound, Refusal>
    ensures value { result ≡ reading bytes.now media profile }
    ensures numbered { reading_as result ≡ reading_as (reading bytes.now media profile) }
{
    if bytes.len() == 0 {
        return Err(Refusal::Incomplete);
    }
    if COMPOUND_MOST < bytes.len() {
        return Err(Refusal::Limits);
    }
    read_packets(bytes, media, profile)
}
