// Where the parts of a block stand: kind (2), count (2), SSRC (4), body (502), check (2).
ghost use Rattle.std.specs.Prelude.{◌≡◌};
ghost use Rattle.format.specs.Layouts.{block_layout};

// The bytes of a block.
pub const BLOCK: usize = 512;

// Where the header's fields stand.
pub const KIND: usize = 0;

pub const COUNT: usize = 2;

pub const SSRC: usize = 4;

// Where the body begins, its bytes, and where the check stands behind it.
pub const BODY: usize = 8;

pub const BODY_BYTES: usize = 502;

pub const CHECK: usize = 510;

// The most records of a block of any form.
pub const MOST_RECORDS: usize = 62;

// The bytes of a record behind its time: wire number (2), mark (1), zero (1).
pub const BEHIND_TIME: usize = 4;

// All of these numbers: the bytes of a block; where kind, count, SSRC, body and check stand; the body's bytes, the most records of any form, and the bytes
// of a record behind its time.
#[derive(Clone, Copy, PartialEq, Eq)]
pub struct Layout {
    pub block: usize,
    pub kind: usize,
    pub count: usize,
    pub ssrc: usize,
    pub body: usize,
    pub check: usize,
    pub room: usize,
    pub records: usize,
    pub behind: usize,
}

// The layout of a block.
pub fn numbers() -> Layout
    ensures { result ≡ block_layout }
{
    Layout {
        block: BLOCK,
        kind: KIND,
        count: COUNT,
        ssrc: SSRC,
        body: BODY,
        check: CHECK,
        room: BODY_BYTES,
        records: MOST_RECORDS,
        behind: BEHIND_TIME,
    }
}
