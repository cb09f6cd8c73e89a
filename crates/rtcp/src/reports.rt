// Report blocks of SR and RR packets (RFC 3550, sections 6.4.1 and 6.4.2).
ghost use Rattle.std.specs.Prelude.{◌≡◌, ◌+◌, ◌≤◌, length};
ghost use Rattle.numbers.specs.BigEndian.{word};
ghost use Rattle.numbers.specs.Since.{signed};
ghost use Rattle.rtcp.specs.Packets.{Sound};
ghost use Rattle.rtcp.specs.ReportBlocks.{report_block, report_in};

use crate::ReportBlock;
use crate::entries::find_entry;
use crate::fields::{byte, number16, number32};
use crate::header::Header;
use crate::layout::{REPORT_BLOCK, SENDER};
use crate::packet::{blocks_from, is_report};

// The signed number in the three bytes from `at` on.
fn signed24(b: &[u8], at: usize) -> i32
    requires { at + 3 ≤ length b.now }
    ensures { result ≡ signed 24 (word 3 b.now at) }
{
    let n = number16(b, at) as u32 * 256 + byte(b, at + 2) as u32;
    if n < 8388608 {
        return n as i32;
    }
    n as i32 - 16777216
}

// The report block at `at` in the SR or RR at `packet`.
fn report_block_at(b: &[u8], packet: usize, at: usize) -> ReportBlock
    requires { (packet + 8 ≤ length b.now) × (at + 24 ≤ length b.now) }
    ensures { result ≡ report_block b.now packet at }
{
    ReportBlock {
        fraction: byte(b, at + 4),
        lost: signed24(b, at + 5),
        highest: number32(b, at + 8),
        jitter: number32(b, at + 12),
        lsr: number32(b, at + 16),
        dlsr: number32(b, at + 20),
        reporter: number32(b, packet + SENDER),
    }
}

// The first report block about `media` in the packet at `at`.
pub fn report_in(b: &[u8], at: usize, header: Header, media: u32) -> Option<ReportBlock>
    requires { Sound header b.now at }
    ensures { result ≡ report_in header b.now at media }
{
    if !is_report(header) {
        return None;
    }
    let from = at + blocks_from(header);
    let entry = find_entry(b, from, REPORT_BLOCK, header.count as usize, media)?;
    Some(report_block_at(b, at, entry))
}
