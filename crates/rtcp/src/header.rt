// The header of an RTCP packet (RFC 3550, section 6.4.1), its padding, and the header of an XR block (RFC 3611, section 3).
ghost use Rattle.std.specs.Prelude.{◌≡◌, ◌+◌, ◌≤◌, length, get_or};
ghost use Rattle.rtcp.specs.Header.{header_at, padding};
ghost use Rattle.rtcp.specs.EcnReports.{block_at};

use crate::fields::byte;
use numbers::big_endian::read16;

// The header of a packet; the size is the packet's, in bytes. (It goes beside the bytes and the place, and not with them in one struct: the definitions in
// specs take the three one by one, so each contract and proof would only take the struct apart again.)
#[derive(Clone, Copy)]
pub struct Header {
    pub version: u8,
    pub padded: bool,
    pub count: u8,
    pub kind: u8,
    pub size: usize,
}

// The header of an XR block; the words are those behind it.
#[derive(Clone, Copy)]
pub struct XrBlock {
    pub kind: u8,
    pub words: usize,
}

// The byte at i, or 0 past the end.
fn byte_at(b: &[u8], i: usize) -> u8
    ensures { result ≡ get_or b.now i 0 }
{
    b.get(i).copied().unwrap_or(0)
}

// The header of the packet at `at`; what is cut off reads as 0.
#[tactic(auto, unfolding(crate::specs::Header::header_at))]
pub fn header_at(b: &[u8], at: usize) -> Header
    requires { at ≤ length b.now }
    ensures value { result ≡ header_at b.now at }
    ensures sized { (4 ≤ result.size) × (result.size ≤ 262144) }
{
    let first = byte_at(b, at);
    let kind = byte_at(b, at + 1);
    let words = read16(b, at + 2) as usize;
    Header {
        version: first / 64,
        padded: first / 32 % 2 == 1,
        count: first % 32,
        kind,
        size: (words + 1) * 4,
    }
}

// The bytes of padding that end the packet at `at`.
#[tactic(auto, unfolding(crate::specs::Header::padding))]
pub fn padding_at(b: &[u8], at: usize, header: Header) -> usize
    requires { (1 ≤ header.size) × (at + header.size ≤ length b.now) }
    ensures value { result ≡ padding header b.now at }
    ensures bounded { result ≤ 255 }
{
    if header.padded {
        byte(b, at + header.size - 1) as usize
    } else {
        0
    }
}

// The header of the XR block at `at`; what is cut off reads as 0.
#[tactic(auto, unfolding(crate::specs::EcnReports::block_at))]
pub fn block_at(b: &[u8], at: usize) -> XrBlock
    requires { at ≤ length b.now }
    ensures value { result ≡ block_at b.now at }
    ensures bounded { result.words ≤ 65535 }
{
    XrBlock {
        kind: byte_at(b, at),
        words: read16(b, at + 2) as usize,
    }
}
