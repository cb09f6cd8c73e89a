// Text and numbers on standard output, for the test programs. No contract can say what a program prints; each
// program's output is compared with its file `stdout`.
#![tactic(auto)]

ghost use Rattle.std.specs.Prelude.{◌≤◌, length};

use answers::{ROOM, Refusal, Unwritten};
use numbers::sign::magnitude;
use std::io;
use std::io::{Print, Read, Stdin, Stdout};

// Whether a write has failed is not told: the program goes on, and its output shows it.
fn passed(_done: io::Result<()>) {}

// The bytes of s.
pub fn text(to: Stdout, s: &[u8]) {
    passed(to.write_all(s));
}

// A space and the number n.
pub fn number(to: Stdout, n: u64) {
    text(to, b" ");
    passed(print!(to; "{n}"));
}

// A space and the number z, a negative one with "-".
pub fn signed(to: Stdout, z: i64) {
    if z < 0 {
        text(to, b" -");
        passed(print!(to; "{}", magnitude(z)));
        return;
    }
    number(to, magnitude(z));
}

// A space and the number n in hexadecimal, with at least `width` digits.
pub fn hex(to: Stdout, n: u64, width: usize) {
    text(to, b" ");
    passed(print!(to; "{n:0width$x}"));
}

// The end of a line.
pub fn end(to: Stdout) {
    text(to, b"\n");
}

// A byte as two hexadecimal digits.
fn byte(to: Stdout, b: u8) {
    passed(print!(to; "{b:02x}"));
}

// The bytes of s in hexadecimal, a space before each four.
pub fn bytes(to: Stdout, s: &[u8]) {
    let mut i = 0;
    while i < s.len() {
        if i % 4 == 0 {
            text(to, b" ");
        }
        byte(to, s[i]);
        i += 1;
    }
}

// A refusal with its number.
pub fn refused(to: Stdout, refusal: Refusal) {
    text(to, b" refused");
    number(to, refusal.number() as u64);
}

// A writer's answer.
pub fn written(to: Stdout, answer: Result<usize, Unwritten>) {
    match answer {
        Ok(n) => {
            text(to, b" length");
            number(to, n as u64);
        }
        Err(Unwritten::Room(n)) => {
            text(to, b" refused");
            number(to, ROOM as u64);
            number(to, n as u64);
        }
        Err(Unwritten::Refused(refusal)) => refused(to, refusal),
    }
}

// Reads standard input until the buffer is full, the input ends or a read fails, and answers how many bytes it has.
pub fn read_full(from: Stdin, text: &mut [u8]) -> usize
    ensures { result ≤ length text.new }
{
    let mut input = from;
    let mut done = 0;
    while done < text.len() {
        let n = input.read(&mut text[done..]).unwrap_or(0);
        if n == 0 {
            return done;
        }
        done += n;
    }
    done
}
