// Which of the breaker's calls a packet is for, read from standard input. Each line is written back; what it gives follows it. A line is a letter with
// numbers and bytes, each number behind one space:
//   n                       nothing is kept of the receiver
//   k highest ce lost       this is kept of it
//   c media bytes           the call for the compound of these bytes, in hexadecimal, asked about the SSRC `media`, and what is kept then; reduced-size
//                           compounds are taken too
//   d time                  a breaker with the preset settings and a fresh source, and nothing is kept
//   a number packets mark   so many arrivals at the source, from this number on
//   o time rtt size rate    our own compound about the source, an RR without blocks and its feedback, written and read back; the call for it, the breaker's
//                           answer, and what is kept then, which is what was kept before where the breaker refuses
// Any other line is a heading.
#![tactic(auto)]

use answers::Unwritten;
use between::{Call, Kept, call_for};
use breaker::{Answer, Breaker, EcnCounts, Loss, Report, Step};
use cases::{number, number8, number16, number32};
use format::Wire;
use rtcp::{Compound, Profile, read_compound};
use source::{Arrival, Source};
use sources::{Place, Table};
use std::io::Stdout;

// The sender of our compounds, and the source that they are about.
const SENDER: u32 = 9;

const MEDIA: u32 = 1;

// A sender's breaker, the source as its receiver counts it, and what the sender keeps of that receiver.
#[derive(Clone, Copy)]
struct Path {
    breaker: Breaker,
    source: Source,
    kept: Option<Kept>,
}

fn show_counts(to: Stdout, c: EcnCounts) {
    show::text(to, b" counts");
    show::signed(to, c.lost);
    show::number(to, c.marked);
    show::number(to, c.expected);
}

fn show_loss(to: Stdout, loss: Loss) {
    match loss {
        Loss::Fraction(f) => {
            show::text(to, b" fraction");
            show::number(to, f);
        }
        Loss::Counts(c) => show_counts(to, c),
    }
}

fn show_call(to: Stdout, call: Call) {
    match call {
        Call::Report(highest, loss) => {
            show::text(to, b" : report");
            show::number(to, highest as u64);
            show_loss(to, loss);
        }
        Call::Heard => show::text(to, b" : heard"),
    }
}

fn show_kept(to: Stdout, kept: Option<Kept>) {
    show::text(to, b", kept");
    match kept {
        Some(k) => {
            show::number(to, k.highest as u64);
            show::number(to, k.ce as u64);
            show::number(to, k.lost as u64);
        }
        None => show::text(to, b" none"),
    }
}

// An answer, with document 01's number.
fn show_answer(to: Stdout, answer: Answer) {
    match answer {
        Answer::Go => show::text(to, b", go"),
        Answer::Reduce => show::text(to, b", reduce"),
        Answer::Stop(reason) => {
            show::text(to, b", stop");
            show::number(to, reason.number() as u64);
        }
        Answer::Refused(refusal) => {
            show::text(to, b",");
            show::refused(to, refusal);
        }
    }
}

// The path with something else kept.
fn keeping(p: Path, kept: Option<Kept>) -> Path {
    let breaker = p.breaker;
    let source = p.source;
    Path {
        breaker,
        source,
        kept,
    }
}

// What is kept by a line.
fn kept_of(line: &[u8]) -> Option<Kept> {
    Some(Kept {
        highest: number32(line, 1),
        ce: number16(line, 2),
        lost: number16(line, 3),
    })
}

// The compound of a line.
fn compound(to: Stdout, p: Path, line: &[u8]) -> Path {
    let mut space = [0u8; 512];
    let n = cases::bytes(line, 2, &mut space).len();
    let kept = p.kept;
    match read_compound(
        cases::front(&space, n),
        number32(line, 1),
        Profile::ReducedSize,
    ) {
        Ok(found) => {
            let next = call_for(found, kept);
            let call = next.call;
            let then = next.kept;
            show_call(to, call);
            show_kept(to, then);
            keeping(p, then)
        }
        Err(refusal) => {
            show::text(to, b" :");
            show::refused(to, refusal);
            p
        }
    }
}

// A path from a time on.
fn begun(time: u64) -> Path {
    let breaker = Breaker::start_preset(time).breaker;
    let source = Source::fresh();
    Path {
        breaker,
        source,
        kept: None,
    }
}

// The record that an answer hands back.
fn record_in(answer: Arrival) -> Source {
    match answer {
        Arrival::Accepted(s) => s,
        Arrival::Restarted(s) => s,
        Arrival::Refused(_, s) => s,
    }
}

// A source after so many arrivals, from a number on.
fn arrived(s: Source, first: u16, packets: u16, mark: u8) -> Source {
    let mut next = s;
    let mut i: u16 = 0;
    while i < packets {
        let number = (first as u32 + i as u32) % 65536;
        next = record_in(next.arrive(Wire(number as u16), mark));
        i += 1;
    }
    next
}

// The arrivals of a line.
fn arrivals(p: Path, line: &[u8]) -> Path {
    let breaker = p.breaker;
    let source = arrived(
        p.source,
        number16(line, 1),
        number16(line, 2),
        number8(line, 3),
    );
    let kept = p.kept;
    Path {
        breaker,
        source,
        kept,
    }
}

// Our compound about a source.
fn write_own(source: Source, out: &mut [u8]) -> Result<usize, Unwritten> {
    let place = Place {
        ssrc: MEDIA,
        source,
    };
    let mut table = Table::empty(1);
    table.places[0] = place;
    table.write_compound(SENDER, out)
}

// The breaker's call at the time of a line.
fn stepped(b: Breaker, call: Call, line: &[u8]) -> Step {
    let time = number(line, 1);
    match call {
        Call::Report(highest, loss) => b.report(Report {
            time,
            highest,
            loss,
            rtt: number(line, 2),
            size: number(line, 3),
            rate: number(line, 4),
        }),
        Call::Heard => b.heard(time),
    }
}

// What is kept after the breaker's answer.
fn kept_by(answer: Answer, before: Option<Kept>, then: Option<Kept>) -> Option<Kept> {
    match answer {
        Answer::Refused(_) => before,
        Answer::Go => then,
        Answer::Reduce => then,
        Answer::Stop(_) => then,
    }
}

// What our compound does that was read back.
fn reported(to: Stdout, p: Path, found: Compound, line: &[u8]) -> Path {
    let before = p.kept;
    let next = call_for(found, before);
    let call = next.call;
    let then = next.kept;
    show_call(to, call);
    let step = stepped(p.breaker, call, line);
    let answer = step.answer;
    show_answer(to, answer);
    let kept = kept_by(answer, before, then);
    show_kept(to, kept);
    let breaker = step.breaker;
    let source = p.source;
    Path {
        breaker,
        source,
        kept,
    }
}

// Our compound at the time of a line.
fn own(to: Stdout, p: Path, line: &[u8]) -> Path {
    let mut space = [0u8; 40];
    let source = p.source;
    let written = write_own(source, &mut space);
    let Ok(_) = written else {
        show::text(to, b" :");
        show::written(to, written);
        return p;
    };
    match read_compound(&space, MEDIA, Profile::Compound) {
        Ok(found) => reported(to, p, found, line),
        Err(refusal) => {
            show::text(to, b" :");
            show::refused(to, refusal);
            p
        }
    }
}

// What a line does.
fn done(to: Stdout, p: Path, line: &[u8]) -> Path {
    match cases::letter(line) {
        b'a' => arrivals(p, line),
        b'c' => compound(to, p, line),
        b'd' => begun(number(line, 1)),
        b'k' => keeping(p, kept_of(line)),
        b'n' => keeping(p, None),
        b'o' => own(to, p, line),
        _ => p,
    }
}

// All lines in turn.
fn run(to: Stdout, text: &[u8]) {
    let mut p = begun(0);
    let mut at = 0;
    while at < text.len() {
        let line = cases::line(text, at);
        show::text(to, line);
        p = done(to, p, line);
        show::end(to);
        at += line.len() + 1;
    }
}

fn main(rt: HostRuntime) {
    let mut text = [0u8; 65536];
    let n = show::read_full(rt.stdin(), &mut text);
    run(rt.stdout(), &text[..n]);
}
