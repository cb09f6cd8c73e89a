// Report blocks and summary entries are found alike: entries of one size, each with the SSRC it is about in front.
ghost use Rattle.std.specs.Prelude.{◌≡◌, cond, ◌+◌, ◌*◌, ◌≤◌, eqb, length};
ghost use Rattle.numbers.specs.BigEndian.{word};
ghost use Rattle.rtcp.specs.Entries.{entry_for};

use crate::fields::number32;

// The entry at `at` where it is about `media`, else the one behind it.
fn or_behind(b: &[u8], at: usize, media: u32, behind: Option<usize>) -> Option<usize>
    requires { at + 4 ≤ length b.now }
    ensures { result ≡ cond (eqb (word 4 b.now at) media) (Some at) behind }
{
    if number32(b, at) == media {
        Some(at)
    } else {
        behind
    }
}

// The first of `count` entries of `size` bytes from `from` on that is about `media`. The last is looked at first: so what is found is no counter of the
// loop, and the compiler reads each number of the entry by one load.
pub fn find_entry(b: &[u8], from: usize, size: usize, count: usize, media: u32) -> Option<usize>
    requires { (4 ≤ size) × (from + size * count ≤ length b.now) }
    ensures { result ≡ entry_for size count b.now from media }
{
    let mut place = None;
    for behind in 0..count {
        place = or_behind(b, from + size * (count - behind - 1), media, place);
    }
    place
}
