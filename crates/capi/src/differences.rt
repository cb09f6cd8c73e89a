// What came between two reports, counter by counter.
ghost use Rattle.std.specs.Prelude.{◌≡◌};
ghost use Rattle.numbers.specs.Since.{since as since_of, signed};

use numbers::since;

// The difference of two 16-bit counters.
pub fn flasknib_since16(later: u16, earlier: u16) -> u16
    ensures { result ≡ since_of 16 later earlier }
{
    since::since16(later, earlier)
}

// The difference of two 32-bit counters.
pub fn flasknib_since32(later: u32, earlier: u32) -> u32
    ensures { result ≡ since_of 32 later earlier }
{
    since::since32(later, earlier)
}

// The difference of two counters of lost packets, -32,768 to 32,767.
pub fn flasknib_lost_since(later: u16, earlier: u16) -> i16
    ensures { result ≡ signed 16 (since_of 16 later earlier) }
{
    since::lost_since(later, earlier)
}
