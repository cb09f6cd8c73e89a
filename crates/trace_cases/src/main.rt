// Blocks written and read in a space of 513 bytes, from standard input. Each line is written back; a call's answer follows it. A line is a
// letter with numbers, each behind one space. `n` is how many bytes at the front of the space a call is lent. A block is written in form 2
// where its letter is a capital:
//   z byte                                       every byte of the space set
//   c place byte check                           one byte changed, and the check word
//   l, L n ssrc label                            a label block written; the label is in apostrophes or hexadecimal
//   a, A n ssrc times numbers marks record ..    an arrivals block written, of so many times, wire numbers and marks; a record is three
//                                                numbers
//   w, W n ssrc bytes                            an arrivals block written from the bytes of its records
//   b n                                          a block read: its check word, and what it is
//   r n place                                    the record at a place of a block
//   d n                                          the bytes themselves
// Any other line is a heading.
#![tactic(auto)]

ghost use Rattle.std.specs.Prelude.{◌≤◌, length};

use answers::Refusal;
use answers::copy::put_bytes;
use format::Form;
use numbers::big_endian::{read16, write16};
use std::io::Stdout;
use trace::label::is_label;
use trace::read::{read_block, record_at};
use trace::write::{write_arrivals, write_label, write_records};
use trace::{Block, Record};

// Form 2 of a trace; form 1 is not told.
fn show_form(to: Stdout, form: Form) {
    match form {
        Form::One => {}
        Form::Two => show::text(to, b" form 2"),
    }
}

// What a block is.
fn show_block(to: Stdout, block: Result<Block, Refusal>) {
    match block {
        Ok(Block::Label { form, length, ssrc }) => {
            show_form(to, form);
            show::text(to, b" label");
            show::number(to, length as u64);
            show::number(to, ssrc as u64);
        }
        Ok(Block::Arrivals { form, count, ssrc }) => {
            show_form(to, form);
            show::text(to, b" arrivals");
            show::number(to, count as u64);
            show::number(to, ssrc as u64);
        }
        Err(refusal) => show::refused(to, refusal),
    }
}

// What stands at a place.
fn show_found(to: Stdout, found: Result<Record, Refusal>) {
    match found {
        Ok(r) => {
            show::text(to, b" is");
            show::number(to, r.time);
            let number = r.number;
            show::number(to, number.0 as u64);
            show::number(to, r.mark as u64);
        }
        Err(refusal) => show::refused(to, refusal),
    }
}

// A label block, behind it whether the label is allowed.
fn show_label(to: Stdout, form: Form, label: &[u8], ssrc: u32, out: &mut [u8]) {
    show::text(to, b" :");
    show::written(to, write_label(form, label, ssrc, out));
    if is_label(label) {
        show::text(to, b" allowed");
    }
}

// The label block of a line.
fn label(to: Stdout, form: Form, line: &[u8], out: &mut [u8]) {
    let mut space = [0u8; 512];
    let ssrc = cases::number32(line, 2);
    let text = cases::bytes(line, 3, &mut space);
    show_label(to, form, text, ssrc, out);
}

// The records of a line, as three lists.
fn records(line: &[u8], times: &mut [u64], numbers: &mut [u16], marks: &mut [u8])
    requires { (64 ≤ length times.old) × (64 ≤ length numbers.old) × (64 ≤ length marks.old) }
{
    let mut i = 0;
    let mut word = 6;
    while i < 64 {
        times[i] = cases::number(line, word);
        numbers[i] = cases::number16(line, word + 1);
        marks[i] = cases::number8(line, word + 2);
        i += 1;
        word += 3;
    }
}

// The arrivals block of a line.
fn arrivals(to: Stdout, form: Form, line: &[u8], out: &mut [u8]) {
    let mut times = [0u64; 64];
    let mut numbers = [0u16; 64];
    let mut marks = [0u8; 64];
    records(line, &mut times, &mut numbers, &mut marks);
    let ssrc = cases::number32(line, 2);
    let l = cases::size(line, 3, 64);
    let m = cases::size(line, 4, 64);
    let n = cases::size(line, 5, 64);
    let from = 0;
    show::text(to, b" :");
    show::written(
        to,
        write_arrivals(
            form,
            &times[from..l],
            &numbers[from..m],
            &marks[from..n],
            ssrc,
            out,
        ),
    );
}

// The arrivals block of a line's bytes.
fn from_bytes(to: Stdout, form: Form, line: &[u8], out: &mut [u8]) {
    let mut space = [0u8; 512];
    let ssrc = cases::number32(line, 2);
    let records = cases::bytes(line, 3, &mut space);
    show::text(to, b" :");
    show::written(to, write_records(form, records, ssrc, out));
}

// One byte and the check word changed.
fn change(line: &[u8], space: &mut [u8]) {
    let value = cases::number8(line, 2);
    put_bytes(&[value; 1], space, cases::number(line, 1) as usize);
    write16(cases::number16(line, 3), space, 510);
}

// Every byte set.
fn fill(line: &[u8], space: &mut [u8]) {
    let value = cases::number8(line, 1);
    put_bytes(&[value; 513], space, 0);
}

// What a line asks of a block.
fn ask(to: Stdout, line: &[u8], block: &[u8]) {
    match cases::letter(line) {
        b'b' => {
            show::text(to, b" :");
            show::number(to, read16(block, 510) as u64);
            show_block(to, read_block(block));
        }
        b'd' => {
            show::text(to, b" :");
            show::bytes(to, block);
        }
        b'r' => {
            show::text(to, b" :");
            show_found(to, record_at(block, cases::number(line, 2) as usize));
        }
        _ => {}
    }
}

// What a line does.
fn done(to: Stdout, line: &[u8], space: &mut [u8]) {
    let n = cases::number(line, 1) as usize;
    match cases::letter(line) {
        b'A' => arrivals(to, Form::Two, line, cases::room(space, n)),
        b'L' => label(to, Form::Two, line, cases::room(space, n)),
        b'W' => from_bytes(to, Form::Two, line, cases::room(space, n)),
        b'a' => arrivals(to, Form::One, line, cases::room(space, n)),
        b'c' => change(line, space),
        b'l' => label(to, Form::One, line, cases::room(space, n)),
        b'w' => from_bytes(to, Form::One, line, cases::room(space, n)),
        b'z' => fill(line, space),
        _ => ask(to, line, cases::front(space, n)),
    }
}

// All lines in turn.
fn run(to: Stdout, text: &[u8], space: &mut [u8]) {
    let mut at = 0;
    while at < text.len() {
        let line = cases::line(text, at);
        show::text(to, line);
        done(to, line, space);
        show::end(to);
        at += line.len() + 1;
    }
}

fn main(rt: HostRuntime) {
    let mut space = [0u8; 513];
    let mut text = [0u8; 65536];
    let n = show::read_full(rt.stdin(), &mut text);
    run(rt.stdout(), &text[..n], &mut space);
}
