// The records of a part, each read at once. Its last four bytes are the wire number (2), the mark and a zero.
ghost use Rattle.std.specs.Prelude.{◌≡◌, ◌+◌, ◌-◌, ◌*◌, ◌≤◌, ◌<◌, length, get_or};
ghost use Rattle.numbers.specs.BigEndian.{word};
ghost use Rattle.engine.specs.Windows.{Ending};

use format::block::BEHIND_TIME;
use numbers::big_endian::join16;

fn wide(byte: u8) -> u32
    ensures { (result ≡ byte) × (result < 256) }
{
    byte as u32
}

// The wire number of the record at `at`.
pub fn number(records: &[u8], at: usize, width: usize) -> u64
    requires { (4 ≤ width) × (at + width ≤ length records.now) }
    ensures { (result ≡ word 2 records.now (at + (width - 4))) × (result < 65536) }
{
    let place = at + (width - BEHIND_TIME);
    join16(records[place], records[place + 1]) as u64
}

// The last four bytes of the record at `at`, the first the lowest: the wire number with its bytes turned, then the mark, then the zero. (It is one load.)
pub fn ending(records: &[u8], at: usize, width: usize) -> u32
    requires { (4 ≤ width) × (at + width ≤ length records.now) }
    ensures { Ending result (word 2 records.now (at + (width - 4))) (get_or records.now (at + (width - 2)) 0) }
{
    let place = at + (width - BEHIND_TIME);
    wide(records[place])
        + wide(records[place + 1]) * 256
        + wide(records[place + 2]) * 65536
        + wide(records[place + 3]) * 16777216
}
