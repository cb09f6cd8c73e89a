// What the test programs read their cases with: lines of standard input, and the numbers and bytes of a line. The nth word of a line is
// what stands behind its nth space. No call has a condition: a word that is not there is 0 or empty, and what is too large is cut.
#![tactic(auto)]

mod hex;
mod numerals;
pub mod record;

ghost use Rattle.std.specs.Prelude.{◌-◌, ◌≤◌, length};

pub use hex::bytes;
pub use numerals::{number, number8, number16, number32, signed, size};

// The first n bytes of s, all of them where it has fewer.
pub fn front(s: &[u8], n: usize) -> &[u8]
    ensures { length result.now ≤ length s.now }
{
    if s.len() < n {
        return s;
    }
    let from = 0;
    &s[from..n]
}

// The first n bytes of a lent output, all of them where it has fewer.
pub fn room(out: &mut [u8], n: usize) -> &mut [u8]
    ensures { length result.now ≤ length out.old }
{
    let from = 0;
    if out.len() < n {
        return out;
    }
    &mut out[from..n]
}

// The bytes of s from a place on, none where it is past the end.
pub fn rest(s: &[u8], at: usize) -> &[u8]
    ensures { length result.now ≤ length s.now - at }
{
    let end = s.len();
    if end < at {
        return &s[end..end];
    }
    &s[at..end]
}

// How many bytes of s stand before the first line feed.
fn line_length(s: &[u8]) -> usize {
    let mut i = 0;
    while i < s.len() {
        if s[i] == 10 {
            return i;
        }
        i += 1;
    }
    i
}

// The line that begins at a place, without its line feed.
pub fn line(text: &[u8], at: usize) -> &[u8]
    ensures { length result.now ≤ length text.now - at }
{
    let tail = rest(text, at);
    front(tail, line_length(tail))
}

// The first byte of a line, 0 where it is empty.
pub fn letter(line: &[u8]) -> u8 {
    if line.len() < 1 {
        return 0;
    }
    line[0]
}

// The nth word of a line, and all that follows.
fn words_from(line: &[u8], n: u32) -> &[u8] {
    let mut left = n;
    let mut i = 0;
    while i < line.len() {
        if left == 0 {
            return rest(line, i);
        }
        if line[i] == 32 {
            left -= 1;
        }
        i += 1;
    }
    rest(line, i)
}
