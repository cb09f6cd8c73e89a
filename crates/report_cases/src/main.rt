// The two ECN reports written, read from standard input. Each line is written back; a writer's answer follows it, and behind that its
// output of 40 bytes (aa where nothing was written) in hexadecimal. A line is a letter with numbers, each behind one space:
//   n                                                               the fresh record
//   s base highest ect0 ect1 ce notect duplicates recent older remembered
//                                                                   a record with these fields
//   a number mark                                                   the record after an arrival
//   f sender media room                                             the feedback packet of the record, in an output of `room` bytes
//   x media room                                                    the summary block of the record, in an output of `room` bytes
// Any other line is a heading.
#![tactic(auto)]

use answers::Unwritten;
use cases::record;
use report::{write_feedback, write_summary};
use source::Source;
use std::io::Stdout;

// A writer's answer and its output.
fn show_answer(to: Stdout, written: Result<usize, Unwritten>, out: &[u8]) {
    show::text(to, b" :");
    show::written(to, written);
    show::bytes(to, out);
}

// The feedback packet of a line.
fn feedback(to: Stdout, s: Source, line: &[u8]) {
    let sender = cases::number32(line, 1);
    let media = cases::number32(line, 2);
    let size = cases::number(line, 3) as usize;
    let mut out = [170u8; 40];
    let written = write_feedback(s, sender, media, cases::room(&mut out, size));
    show_answer(to, written, &out);
}

// The summary block of a line.
fn summary(to: Stdout, s: Source, line: &[u8]) {
    let media = cases::number32(line, 1);
    let size = cases::number(line, 2) as usize;
    let mut out = [170u8; 40];
    let written = write_summary(s, media, cases::room(&mut out, size));
    show_answer(to, written, &out);
}

// What a line does, and the record behind it.
fn done(to: Stdout, s: Source, line: &[u8]) -> Source {
    match cases::letter(line) {
        b'f' => feedback(to, s, line),
        b'x' => summary(to, s, line),
        _ => {}
    }
    record::after(s, line)
}

// All lines in turn.
fn run(to: Stdout, text: &[u8]) {
    let mut s = Source::fresh();
    let mut at = 0;
    while at < text.len() {
        let line = cases::line(text, at);
        show::text(to, line);
        s = done(to, s, line);
        show::end(to);
        at += line.len() + 1;
    }
}

fn main(rt: HostRuntime) {
    let mut text = [0u8; 65536];
    let n = show::read_full(rt.stdin(), &mut text);
    run(rt.stdout(), &text[..n]);
}
