// Arrivals and blocks of arrivals counted, read from standard input. Each line is written back; a call's answer follows it: the refusal's
// number, 0 or `restart`, then highest, ECT(0), ECT(1), CE, not-ECT, lost, duplicates and what is remembered (0 for none, else number + 1) of the record
// that was handed back, and for a block that was counted its jumps and restarts. A line is a letter with numbers, each behind one space:
//   n                                                               the fresh record
//   s base highest ect0 ect1 ce notect duplicates recent older remembered
//                                                                   a record with these fields
//   a number mark                                                   an arrival
//   b width bytes                                                   a block, its bytes in hexadecimal
// Any other line is a heading.
#![tactic(auto)]

use answers::Refusal;
use cases::record;
use format::Wire;
use source::{Arrival, BlockCount, Source};
use std::io::Stdout;

// The packets lost, "-" for a malformed record.
fn show_lost(to: Stdout, lost: Result<i64, Refusal>) {
    match lost {
        Ok(n) => show::signed(to, n),
        Err(_) => show::text(to, b" -"),
    }
}

// 0 for none, else the number + 1.
fn show_remembered(to: Stdout, remembered: Option<Wire>) {
    show::number(to, remembered.map_or(0, |wire| u64::from(wire.0) + 1));
}

// An answer's record, and the record.
fn shown(to: Stdout, s: Source) -> Source {
    show::signed(to, s.highest.0);
    show::number(to, s.ect0);
    show::number(to, s.ect1);
    show::number(to, s.ce);
    show::number(to, s.notect);
    show_lost(to, s.lost());
    show::number(to, s.duplicates);
    show_remembered(to, s.remembered);
    s
}

// The same behind an answer's number.
fn answered(to: Stdout, number: u64, s: Source) -> Source {
    show::text(to, b" :");
    show::number(to, number);
    shown(to, s)
}

// The answer to an arrival, and its record.
fn arrived(to: Stdout, answer: Arrival) -> Source {
    match answer {
        Arrival::Accepted(s) => answered(to, 0, s),
        Arrival::Restarted(s) => {
            show::text(to, b" : restart");
            shown(to, s)
        }
        Arrival::Refused(refusal, s) => answered(to, refusal.number() as u64, s),
    }
}

// The answer to a block, and its record.
fn counted(to: Stdout, answer: BlockCount) -> Source {
    match answer {
        BlockCount::Counted(s, jumps, restarts) => {
            let next = answered(to, 0, s);
            show::number(to, jumps);
            show::number(to, restarts);
            next
        }
        BlockCount::Refused(refusal, s) => answered(to, refusal.number() as u64, s),
    }
}

// The block of a line.
fn block(s: Source, line: &[u8]) -> BlockCount {
    let mut space = [0u8; 1024];
    let records = cases::bytes(line, 2, &mut space);
    s.count_block(records, cases::number(line, 1) as usize)
}

// What a line does.
fn done(to: Stdout, s: Source, line: &[u8]) -> Source {
    match cases::letter(line) {
        b'a' => arrived(to, record::arrival(s, line)),
        b'b' => counted(to, block(s, line)),
        _ => record::after(s, line),
    }
}

// All lines in turn.
fn run(to: Stdout, text: &[u8]) {
    let mut s = Source::fresh();
    let mut at = 0;
    // A line's length is known only once it is read, by `cases::line`.
    while at < text.len() {
        let line = cases::line(text, at);
        show::text(to, line);
        s = done(to, s, line);
        show::end(to);
        at += line.len() + 1;
    }
}

fn main(rt: HostRuntime) {
    let mut text = [0u8; 65536];
    let n = show::read_full(rt.stdin(), &mut text);
    run(rt.stdout(), &text[..n]);
}
