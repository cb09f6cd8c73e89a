// What a block holds, and what a record has room for.
ghost use Rattle.std.specs.Prelude.{◌≡◌, true, ◌&&◌, ◌+◌, ◌^◌, ◌≤◌, leb};
ghost use Rattle.source.specs.Record.{arrivals, sound};
ghost use Rattle.engine.specs.Limits.{records_in};

use format::block::{BEHIND_TIME, MOST_RECORDS};
use source::Source;

// The most arrivals that are counted.
const MOST: u64 = 0x1_0000_0000_0000;

// The bytes of a record of form 1, and of form 2: the compiler makes its own code for them.
pub const USUAL: usize = 8;

pub const LONG: usize = 10;

// The most records of a part, and the bytes of so many: half a full block of the form.
pub const PART: usize = 31;

pub const WHOLE: usize = 248;

pub const PART_LONG: usize = 25;

pub const WHOLE_LONG: usize = 250;

fn whole_records(size: usize, width: usize) -> usize
    requires { 4 ≤ width }
    ensures { result ≡ records_in width size }
{
    if 0 < size % width || MOST_RECORDS < size / width {
        return 0;
    }
    size / width
}

// How many records of `width` bytes there are, and 0 where they are not 1 to 62 whole ones.
pub fn records_in(size: usize, width: usize) -> usize
    ensures { result ≡ records_in width size }
{
    if width < BEHIND_TIME {
        return 0;
    }
    if width == USUAL {
        return whole_records(size, USUAL);
    }
    if width == LONG {
        return whole_records(size, LONG);
    }
    whole_records(size, width)
}

// The work of a part, at its width and its bytes: numbers that the compiler knows where the form is 1 or 2, and where the part is a whole one.
pub fn by_form<R, F: Fn(usize, usize) -> R>(width: usize, size: usize, work: F) -> R
    requires { F.pre work width size }
    ensures { F.post work width size result }
{
    if width == USUAL {
        if size == WHOLE {
            return work(USUAL, WHOLE);
        }
        return work(USUAL, size);
    }
    if width == LONG {
        if size == WHOLE_LONG {
            return work(LONG, WHOLE_LONG);
        }
        return work(LONG, size);
    }
    work(width, size)
}

// Whether a record has counted, and can count n arrivals more.
pub fn has_room(s: Source, n: usize) -> bool
    requires { (sound s ≡ true) × (n ≤ 62) }
    ensures { result ≡ (leb 1 (arrivals s) && leb (arrivals s + n) (2 ^ 48)) }
{
    let counted = s.notect + s.ect1 + s.ect0 + s.ce;
    1 <= counted && counted + n as u64 <= MOST
}
