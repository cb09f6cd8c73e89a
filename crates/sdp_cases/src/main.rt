// Attributes read, written and answered, from standard input. Each line is written back; the answer follows it. A line is a letter with numbers and bytes, each
// number behind one space:
//   r bytes                        the line of these bytes, in hexadecimal or between apostrophes, read
//   w room RECORD                  a record written into so many bytes
//   a RECORD RECORD                the answer to an offer, the first record, where our abilities are the second
// A record is four numbers: how many methods are used; eight digits, a method each (1 rtp, 2 ice, 3 leap, 0 none); the mode (0 absent, 1 setonly, 2 readonly,
// 3 setread); the ect (0 absent, 1 "1", 2 "0", 3 random). Any other line is a heading.
#![tactic(auto)]

use sdp::answerer::answer;
use sdp::reader::read;
use sdp::writer::write;
use sdp::{Attribute, Ect, Method, Mode};
use std::io::Stdout;

fn show_method(to: Stdout, m: Method) {
    match m {
        Method::Rtp => show::text(to, b" rtp"),
        Method::Ice => show::text(to, b" ice"),
        Method::Leap => show::text(to, b" leap"),
    }
}

fn show_mode(to: Stdout, mode: Option<Mode>) {
    match mode {
        None => show::text(to, b", no mode"),
        Some(Mode::SetOnly) => show::text(to, b", setonly"),
        Some(Mode::SetRead) => show::text(to, b", setread"),
        Some(Mode::ReadOnly) => show::text(to, b", readonly"),
    }
}

fn show_ect(to: Stdout, ect: Option<Ect>) {
    match ect {
        None => show::text(to, b", no ect"),
        Some(Ect::Zero) => show::text(to, b", 0"),
        Some(Ect::One) => show::text(to, b", 1"),
        Some(Ect::Random) => show::text(to, b", random"),
    }
}

// The methods in use; a record that a call gives has at most eight.
fn show_methods(to: Stdout, a: Attribute) {
    for (i, m) in a.methods.iter().enumerate() {
        if i < a.used {
            show_method(to, *m);
        }
    }
}

fn show_attribute(to: Stdout, a: Attribute) {
    show_methods(to, a);
    show_mode(to, a.mode);
    show_ect(to, a.ect);
}

// What reading gives; a line that is refused has no method, no mode and no ect.
fn read_line(to: Stdout, line: &[u8]) {
    let mut space = [0u8; 512];
    match read(cases::bytes(line, 1, &mut space)) {
        Ok(attribute) => {
            show::text(to, b" : read");
            show_attribute(to, attribute);
        }
        Err(refusal) => {
            show::text(to, b" :");
            show::refused(to, refusal);
            show_attribute(to, Attribute::empty());
        }
    }
}

fn with_digit(a: Attribute, digit: u64) -> Attribute {
    match digit {
        1 => a.with_method(Method::Rtp),
        2 => a.with_method(Method::Ice),
        3 => a.with_method(Method::Leap),
        _ => a,
    }
}

// The methods of eight digits.
fn methods_of(digits: u64) -> Attribute {
    let mut a = Attribute::empty();
    let mut left = digits;
    for _ in 0..8 {
        a = with_digit(a, left / 10000000 % 10);
        left = left % 10000000 * 10;
    }
    a
}

fn mode_of(number: u64) -> Option<Mode> {
    match number {
        1 => Some(Mode::SetOnly),
        2 => Some(Mode::ReadOnly),
        3 => Some(Mode::SetRead),
        _ => None,
    }
}

fn ect_of(number: u64) -> Option<Ect> {
    match number {
        1 => Some(Ect::One),
        2 => Some(Ect::Zero),
        3 => Some(Ect::Random),
        _ => None,
    }
}

// The record of the four numbers from the nth on.
fn record(line: &[u8], n: u32) -> Attribute {
    Attribute {
        used: cases::number(line, n % 16) as usize,
        mode: mode_of(cases::number(line, n % 16 + 2)),
        ect: ect_of(cases::number(line, n % 16 + 3)),
        ..methods_of(cases::number(line, n % 16 + 1))
    }
}

// The record written, and the bytes of its room.
fn show_line(to: Stdout, attribute: Attribute, out: &mut [u8]) {
    show::text(to, b" :");
    show::written(to, write(attribute, out));
    show::text(to, b" '");
    show::text(to, out);
    show::text(to, b"'");
}

fn write_line(to: Stdout, line: &[u8]) {
    let mut space = [b'.'; 96];
    let room = cases::size(line, 1, 96);
    let attribute = record(line, 2);
    show_line(to, attribute, cases::room(&mut space, room));
}

fn answer_line(to: Stdout, line: &[u8]) {
    let offer = record(line, 1);
    let ours = record(line, 5);
    match answer(offer, ours) {
        Ok(Some(chosen)) => {
            show::text(to, b" : included");
            show_attribute(to, chosen.attribute());
        }
        Ok(None) => show::text(to, b" : left out"),
        Err(refusal) => {
            show::text(to, b" :");
            show::refused(to, refusal);
        }
    }
}

// What a line does.
fn done(to: Stdout, line: &[u8]) {
    match cases::letter(line) {
        b'a' => answer_line(to, line),
        b'r' => read_line(to, line),
        b'w' => write_line(to, line),
        _ => (),
    }
}

// All lines in turn.
fn run(to: Stdout, text: &[u8]) {
    let mut at = 0;
    while at < text.len() {
        let line = cases::line(text, at);
        show::text(to, line);
        done(to, line);
        show::end(to);
        at += line.len() + 1;
    }
}

fn main(rt: HostRuntime) {
    let mut text = [0u8; 65536];
    let n = show::read_full(rt.stdin(), &mut text);
    run(rt.stdout(), &text[..n]);
}
