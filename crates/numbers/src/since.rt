// What came between two reports (document 01, "Counting arrivals"): the later counter minus the earlier one, modulo its width.
ghost use Rattle.std.specs.Prelude.{◌≡◌};
ghost use Rattle.numbers.specs.Since.{since, signed};

// The difference of two 16-bit counters.
pub fn since16(later: u16, earlier: u16) -> u16
    ensures { result ≡ since 16 later earlier }
{
    u16::wrapping_sub(later, earlier)
}

// The difference of two 32-bit counters.
pub fn since32(later: u32, earlier: u32) -> u32
    ensures { result ≡ since 32 later earlier }
{
    u32::wrapping_sub(later, earlier)
}

// The difference of two counters of lost packets, which can fall: -32,768 to 32,767.
pub fn lost_since(later: u16, earlier: u16) -> i16
    ensures { result ≡ signed 16 (since 16 later earlier) }
{
    since16(later, earlier).cast_signed()
}
