// The bytes that a line writes: pairs of hexadecimal digits, and text between apostrophes.
ghost use Rattle.std.specs.Prelude.{◌≤◌, length};

use crate::{room, words_from};

// How a byte of a line is read. Below these stands the first digit of a byte whose second is to come.
const BETWEEN: u8 = 16;

const QUOTED: u8 = 17;

// The value of a hexadecimal digit, 16 for any other byte.
fn digit(c: u8) -> u8
    ensures { result ≤ 16 }
{
    match c {
        48..=57 => c - 48,
        65..=70 => c - 55,
        _ => 16,
    }
}

// How the byte behind c is read.
fn mode_after(mode: u8, c: u8) -> u8 {
    if mode == QUOTED {
        if c == b'\'' {
            return BETWEEN;
        }
        return QUOTED;
    }
    if c == b'\'' {
        return QUOTED;
    }
    if mode == BETWEEN {
        return digit(c);
    }
    BETWEEN
}

// The byte that c ends, 256 where it ends none.
fn ended(mode: u8, c: u8) -> u16 {
    if mode == QUOTED {
        if c == b'\'' {
            return 256;
        }
        return c as u16;
    }
    if 15 < mode {
        return 256;
    }
    mode as u16 * 16 + digit(c) as u16 % 16
}

// Stores a byte below 256 at a place, and gives the next place.
fn put_next(out: &mut [u8], at: usize, byte: u16) -> usize {
    if out.len() <= at {
        return at;
    }
    if 255 < byte {
        return at;
    }
    out[at] = byte as u8;
    at + 1
}

// Stores the bytes that s writes, and gives their number.
fn put_all(s: &[u8], out: &mut [u8]) -> usize {
    let mut mode = BETWEEN;
    let mut n = 0;
    let mut i = 0;
    while i < s.len() {
        n = put_next(out, n, ended(mode, s[i]));
        mode = mode_after(mode, s[i]);
        i += 1;
    }
    n
}

// The bytes that the nth word and all that follows write, at the front of a lent buffer: pairs of hexadecimal digits, and text between
// apostrophes.
pub fn bytes<'a>(line: &[u8], n: u32, out: &'a mut [u8]) -> &'a mut [u8]
    ensures { length result.now ≤ length out.old }
{
    let count = put_all(words_from(line, n), out);
    room(out, count)
}
