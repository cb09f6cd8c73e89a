// The numbers of the formats (RFC 3550, sections 6.4 and 12.1; RFC 3611, section 2; RFC 6679, section 5). Sizes are in bytes.

// Packet types: sender report, receiver report, transport-layer feedback, extended report.
pub const SR: u8 = 200;

pub const RR: u8 = 201;

pub const RTPFB: u8 = 205;

pub const XR: u8 = 207;

// The format of ECN feedback, and the type of an ECN summary block.
pub const ECN_FEEDBACK: u8 = 8;

pub const ECN_SUMMARY: u8 = 13;

pub const VERSION: u8 = 2;

pub const HEADER: usize = 4;

// Where the SSRC of who sent a packet stands in it.
pub const SENDER: usize = 4;

pub const COMPOUND_MOST: usize = 65507;

// What stands before the report blocks of an SR and an RR and before the blocks of an XR packet.
pub const SR_HEAD: usize = 28;

pub const RR_HEAD: usize = 8;

pub const XR_HEAD: usize = 8;

pub const REPORT_BLOCK: usize = 24;

pub const FEEDBACK: usize = 32;

pub const SUMMARY_ENTRY: usize = 20;

pub const SUMMARY_WORDS: usize = 5;
