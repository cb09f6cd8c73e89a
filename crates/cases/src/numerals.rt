// The numbers of a line.
ghost use Rattle.std.specs.Prelude.{◌≤◌};

use crate::{letter, words_from};

// A number with one digit more. It stays where c is no digit, and where the next would not fit.
fn appended(value: u64, c: u8) -> u64 {
    if c < 48 {
        return value;
    }
    if 57 < c {
        return value;
    }
    let digit = (c - 48) as u64;
    if (u64::MAX - digit) / 10 < value {
        return value;
    }
    value * 10 + digit
}

// The number that the digits before the first space write.
fn decimal(s: &[u8]) -> u64 {
    let mut value = 0;
    let mut i = 0;
    while i < s.len() {
        let c = s[i];
        if c == 32 {
            return value;
        }
        value = appended(value, c);
        i += 1;
    }
    value
}

// The nth word as a number.
pub fn number(line: &[u8], n: u32) -> u64 {
    decimal(words_from(line, n))
}

// The nth word as a number modulo 2^32.
pub fn number32(line: &[u8], n: u32) -> u32 {
    (number(line, n) % 0x1_0000_0000) as u32
}

// The nth word as a number modulo 2^16.
pub fn number16(line: &[u8], n: u32) -> u16 {
    (number(line, n) % 0x1_0000) as u16
}

// The nth word as a number modulo 2^8.
pub fn number8(line: &[u8], n: u32) -> u8 {
    (number(line, n) % 0x100) as u8
}

// The nth word as a number, at most `most`.
pub fn size(line: &[u8], n: u32, most: usize) -> usize
    ensures { result ≤ most }
{
    let given = number(line, n) as usize;
    if most < given {
        return most;
    }
    given
}

// Minus n, without its highest bit.
fn minus(n: u64) -> i64 {
    -((n % 0x8000_0000_0000_0000) as i64)
}

// The nth word as a number modulo 2^63, negative where it begins with "-".
pub fn signed(line: &[u8], n: u32) -> i64 {
    let word = words_from(line, n);
    if letter(word) == b'-' {
        return minus(decimal(word));
    }
    (decimal(word) % 0x8000_0000_0000_0000) as i64
}
