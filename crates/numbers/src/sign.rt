// Signed numbers made unsigned.
ghost use Rattle.std.specs.Prelude.{◌≡◌, ◌^◌, unsigned_abs};
ghost use Rattle.numbers.specs.Integers.{modulo};

// The size of z without its sign.
pub fn magnitude(z: i64) -> u64
    ensures { result ≡ unsigned_abs z }
{
    z.unsigned_abs()
}

// z modulo 2^32.
pub fn low32(z: i64) -> u32
    ensures { result ≡ modulo (2 ^ 32) z }
{
    z.rem_euclid(0x1_0000_0000) as u32
}

// z modulo 2^16.
pub fn low16(z: i64) -> u16
    ensures { result ≡ modulo (2 ^ 16) z }
{
    z.rem_euclid(0x1_0000) as u16
}
