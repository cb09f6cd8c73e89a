// Bytes and big-endian numbers that lie whole in a compound.
ghost use Rattle.std.specs.Prelude.{◌≡◌, ◌+◌, ◌≤◌, ◌<◌, length, get_or};
ghost use Rattle.numbers.specs.BigEndian.{word};

use numbers::big_endian::join16;

pub fn byte(b: &[u8], at: usize) -> u8
    requires { at < length b.now }
    ensures { result ≡ get_or b.now at 0 }
{
    b[at]
}

// The number in the two bytes from `at` on.
pub fn number16(b: &[u8], at: usize) -> u16
    requires { at + 2 ≤ length b.now }
    ensures { result ≡ word 2 b.now at }
{
    join16(b[at], b[at + 1])
}

// The number in the four bytes from `at` on.
pub fn number32(b: &[u8], at: usize) -> u32
    requires { at + 4 ≤ length b.now }
    ensures { result ≡ word 4 b.now at }
{
    number16(b, at) as u32 * 65536 + number16(b, at + 2) as u32
}
