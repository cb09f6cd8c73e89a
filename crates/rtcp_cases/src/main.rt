// Compounds read, from standard input. Each line is written back; the reader's answer follows it. A line is a letter with numbers and
// bytes, each number behind one space:
//   r media zeros bytes      the compound of these bytes, in hexadecimal, and so many zeros behind them, asked about the SSRC `media`
//   s media zeros bytes      the same, where reduced-size compounds are taken too
// Any other line is a heading.
#![tactic(auto)]

use answers::Refusal;
use format::Counts;
use rtcp::{Compound, Feedback, Profile, ReportBlock, read_compound};
use std::io::Stdout;

// The counts of a report.
fn show_counts(to: Stdout, c: Counts) {
    show::number(to, c.ect0 as u64);
    show::number(to, c.ect1 as u64);
    show::number(to, c.ce as u64);
    show::number(to, c.notect as u64);
    show::number(to, c.lost as u64);
    show::number(to, c.duplicates as u64);
}

fn show_block(to: Stdout, r: ReportBlock) {
    show::number(to, r.fraction as u64);
    show::signed(to, i64::from(r.lost));
    show::number(to, r.highest as u64);
    show::number(to, r.jitter as u64);
    show::number(to, r.lsr as u64);
    show::number(to, r.dlsr as u64);
    show::number(to, r.reporter as u64);
}

fn show_report(to: Stdout, report: Option<ReportBlock>) {
    show::text(to, b" : report");
    match report {
        Some(r) => show_block(to, r),
        None => show::text(to, b" absent"),
    }
}

fn show_feedback(to: Stdout, feedback: Option<Feedback>) {
    show::text(to, b", feedback");
    match feedback {
        Some(f) => {
            show::number(to, f.sender as u64);
            show::number(to, f.highest as u64);
            show_counts(to, f.counts);
        }
        None => show::text(to, b" absent"),
    }
}

fn show_summary(to: Stdout, summary: Option<Counts>) {
    show::text(to, b", summary");
    match summary {
        Some(counts) => show_counts(to, counts),
        None => show::text(to, b" absent"),
    }
}

fn show_reporting(to: Stdout, reporting: bool) {
    show::text(to, b", SR or RR");
    show::text(to, if reporting { b" present" } else { b" absent" });
}

// What reading gives.
fn show_reading(to: Stdout, reading: Result<Compound, Refusal>) {
    match reading {
        Ok(found) => {
            show_report(to, found.report);
            show_feedback(to, found.feedback);
            show_summary(to, found.summary);
            show_reporting(to, found.reporting);
        }
        Err(refusal) => {
            show::text(to, b" :");
            show::refused(to, refusal);
        }
    }
}

// The compound of a line.
fn read(to: Stdout, line: &[u8], profile: Profile) {
    let media = cases::number32(line, 1);
    let zeros = cases::size(line, 2, 65536);
    let mut space = [0u8; 65536];
    let n = cases::bytes(line, 3, &mut space).len();
    show_reading(
        to,
        read_compound(cases::front(&space, n + zeros), media, profile),
    );
}

// What a line does.
fn done(to: Stdout, line: &[u8]) {
    match cases::letter(line) {
        b'r' => read(to, line, Profile::Compound),
        b's' => read(to, line, Profile::ReducedSize),
        _ => (),
    }
}

// All lines in turn.
fn run(to: Stdout, text: &[u8]) {
    // A loop with a step of its own: `split` would give one line more, an empty one behind the last line feed.
    let mut at = 0;
    while at < text.len() {
        let line = cases::line(text, at);
        show::text(to, line);
        done(to, line);
        show::end(to);
        at += line.len() + 1;
    }
}

fn main(rt: HostRuntime) {
    let mut text = [0u8; 65536];
    let n = show::read_full(rt.stdin(), &mut text);
    run(rt.stdout(), &text[..n]);
}
