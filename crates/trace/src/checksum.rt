// The checksum of RFC 1071.
ghost use Rattle.std.specs.Prelude.{◌≡◌, ◌+◌, ◌*◌, ◌/◌, ◌%◌, ◌<◌, ◌≤◌, length, slice_index};
ghost use Rattle.format.specs.Blocks.{block_bytes};
ghost use Rattle.trace.specs.Checksum.{words, ones_sum};

use numbers::big_endian::join16;

// The two bytes of n, swapped.
fn swapped(n: u16) -> u16
    ensures { result ≡ n % 256 * 256 + n / 256 }
{
    n % 256 * 256 + n / 256
}

// The ones' complement sum of the words of s: a plain sum, whose carries are added at the end. The sum does not depend on the byte
// order (section 2 (B)): with the low byte first the loop is plain loads, and the bytes are swapped once.
pub fn ones_sum(s: &[u8]) -> u16
    requires { (length s.now % 2 ≡ 0) × (length s.now ≤ block_bytes) }
    ensures { result ≡ ones_sum (words s.now) }
{
    let mut sum: u32 = 0;
    let mut i = 0;
    while i < s.len() {
        sum += join16(s[i + 1], s[i]) as u32;
        i += 2;
    }
    let once = sum % 65536 + sum / 65536;
    swapped((once % 65536 + once / 65536) as u16)
}

// The number of the four bytes of s from a place on, the lowest first. In a function of its own it is one load.
fn low32(s: &[u8], at: usize) -> u32
    requires { at + 3 < length s.now }
    ensures { result ≡ slice_index s.now (at + 3) * 16777216 + slice_index s.now (at + 2) * 65536 + slice_index s.now (at + 1) * 256 + slice_index s.now at }
{
    let a = s[at] as u32;
    let b = s[at + 1] as u32;
    let c = s[at + 2] as u32;
    let d = s[at + 3] as u32;
    d * 16777216 + c * 65536 + b * 256 + a
}

// The ones' complement sum of a whole block, two words at a time: the sum of the pairs, without what leaves its 32 bits, and that of the
// upper words. The two make the sum of the lower words, which has room.
pub fn block_sum(s: &[u8]) -> u16
    requires { length s.now ≡ block_bytes }
    ensures { result ≡ ones_sum (words s.now) }
{
    let mut pairs: u32 = 0;
    let mut uppers: u32 = 0;
    let mut i = 0;
    while i < s.len() {
        let pair = low32(s, i);
        pairs = std::num::wrapping_add_u32(pairs, pair);
        uppers += pair / 65536;
        i += 4;
    }
    let lowers = (pairs as u64 + 0x100_0000_0000 - uppers as u64 * 65536) % 0x1_0000_0000;
    let sum = lowers + uppers as u64;
    let once = sum % 65536 + sum / 65536;
    swapped((once % 65536 + once / 65536) as u16)
}
