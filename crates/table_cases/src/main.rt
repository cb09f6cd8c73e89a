// The lines of the table written, read from standard input. Each line is written back with the writer's answer; behind it, from a new line
// on, stands what the output of `room` bytes begins with: `shown` bytes, dots where nothing was written. A line is a letter with numbers,
// each behind one space:
//   n                                                               the fresh record
//   s base highest ect0 ect1 ce notect duplicates recent older remembered
//                                                                   a record with these fields
//   a number mark                                                   the record after an arrival
//   h room shown                                                    the head line
//   r room shown ssrc jumped restarts label                         the row of the record, its label in apostrophes or hexadecimal
//   e room shown refusal block                                      the line of a refused block
// Any other line is a heading.
#![tactic(auto)]

use answers::Unwritten;
use cases::record;
use source::{Source, Totals};
use std::io::Stdout;

// The row of a line.
fn row(s: Source, line: &[u8], out: &mut [u8]) -> Result<usize, Unwritten> {
    let mut space = [0u8; 1024];
    let label = cases::bytes(line, 6, &mut space);
    let totals = Totals {
        source: s,
        jumped: cases::number(line, 4),
        restarts: cases::number(line, 5),
    };
    table::write_row(label, cases::number32(line, 3), totals, out)
}

// The line of a refused block.
fn refused(line: &[u8], out: &mut [u8]) -> Result<usize, Unwritten> {
    table::write_refused(
        (cases::number(line, 3) % 256) as u8,
        cases::number(line, 4),
        out,
    )
}

// The writer of a line on a lent output.
fn write(s: Source, line: &[u8], out: &mut [u8]) -> Result<usize, Unwritten> {
    match cases::letter(line) {
        b'h' => table::write_head(out),
        b'r' => row(s, line, out),
        _ => refused(line, out),
    }
}

// A writer's answer and the front of its output.
fn show_answer(to: Stdout, s: Source, line: &[u8]) {
    let room = cases::number(line, 1) as usize;
    let shown = cases::number(line, 2) as usize;
    let mut out = [46u8; 1200];
    let answer = write(s, line, cases::room(&mut out, room));
    show::text(to, b" :");
    show::written(to, answer);
    show::end(to);
    show::text(to, cases::front(&out, shown));
}

// What a line does, and the record behind it.
fn done(to: Stdout, s: Source, line: &[u8]) -> Source {
    match cases::letter(line) {
        b'e' | b'h' | b'r' => show_answer(to, s, line),
        _ => {}
    }
    record::after(s, line)
}

// All lines in turn.
fn run(to: Stdout, text: &[u8]) {
    let mut s = Source::fresh();
    let mut at = 0;
    while at < text.len() {
        let line = cases::line(text, at);
        show::text(to, line);
        s = done(to, s, line);
        show::end(to);
        at += line.len() + 1;
    }
}

fn main(rt: HostRuntime) {
    let mut text = [0u8; 65536];
    let n = show::read_full(rt.stdin(), &mut text);
    run(rt.stdout(), &text[..n]);
}
