// Big-endian numbers of 16, 32 and 48 bits. A byte past the end reads as 0, and is not written.
// Byte by byte: with a match on `&s[at.min(s.len())..]`, `from_be_bytes` and `put_bytes(&n.to_be_bytes(), ..)`, which prove, ecnforms takes 16 % more
// instructions of its own.
ghost use Rattle.std.specs.Prelude.{◌≡◌, [], ◌∷◌};
ghost use Rattle.std.proofs.lemmas.List.Edits.{sets};
ghost use Rattle.numbers.specs.BigEndian.{word, bytes};

// The number of two bytes.
pub fn join16(high: u8, low: u8) -> u16
    ensures { result ≡ word 2 (high ∷ low ∷ []) 0 }
{
    high as u16 * 256 + low as u16
}

// The number in the two bytes of s from at on.
pub fn read16(s: &[u8], at: usize) -> u16
    ensures { result ≡ word 2 s.now at }
{
    if s.len() <= at {
        return 0;
    }
    let high = s[at];
    let next = at + 1;
    if s.len() <= next {
        return join16(high, 0);
    }
    join16(high, s[next])
}

// The number in the four bytes of s from at on.
pub fn read32(s: &[u8], at: usize) -> u32
    ensures { result ≡ word 4 s.now at }
{
    if s.len() <= at {
        return 0;
    }
    let high = read16(s, at);
    let low = read16(s, at + 2);
    high as u32 * 65536 + low as u32
}

// The number in the six bytes of s from at on.
pub fn read48(s: &[u8], at: usize) -> u64
    ensures { result ≡ word 6 s.now at }
{
    if s.len() <= at {
        return 0;
    }
    let high = read16(s, at);
    let low = read32(s, at + 2);
    high as u64 * 0x1_0000_0000 + low as u64
}

// Stores the two bytes of n in out from at on.
pub fn write16(n: u16, out: &mut [u8], at: usize)
    ensures { out.new ≡ sets out.old at (bytes 2 n) }
{
    if out.len() <= at {
        return;
    }
    out[at] = (n / 256) as u8;
    let next = at + 1;
    if out.len() <= next {
        return;
    }
    out[next] = (n % 256) as u8;
}

// Stores the four bytes of n in out from at on.
pub fn write32(n: u32, out: &mut [u8], at: usize)
    ensures { out.new ≡ sets out.old at (bytes 4 n) }
{
    if out.len() <= at {
        return;
    }
    write16((n / 65536) as u16, out, at);
    write16((n % 65536) as u16, out, at + 2);
}

// Stores the six bytes of n, or of its low 48 bits, in out from at on.
pub fn write48(n: u64, out: &mut [u8], at: usize)
    ensures { out.new ≡ sets out.old at (bytes 6 n) }
{
    if out.len() <= at {
        return;
    }
    write16((n / 0x1_0000_0000 % 65536) as u16, out, at);
    write32((n % 0x1_0000_0000) as u32, out, at + 2);
}
