// Calls on a breaker, read from standard input. Each line is written back; a call's answer and the record afterwards follow it. A line is a
// letter with numbers, each behind one space:
//   s k m timeout reduce full time                      a start
//   d time                                              a start with the preset settings
//   r time highest fraction rtt size rate               a report
//   e time highest lost marked expected rtt size rate   a report with ECN counts
//   t time                                              a tick
//   h time                                              a heard packet
//   f field value                                       a change of one field by hand
//   p place length fraction                             a change of one place of the window by hand
// Any other line is a heading.
#![tactic(auto)]

use breaker::{Answer, Breaker, EcnCounts, Interval, Loss, Report, Settings, State, Step, Window};
use cases::{number, number32, signed};
use std::io::Stdout;

// An answer, with document 01's number.
fn show_answer(to: Stdout, answer: Answer) {
    match answer {
        Answer::Go => show::text(to, b" : go"),
        Answer::Reduce => show::text(to, b" : reduce"),
        Answer::Stop(reason) => {
            show::text(to, b" : stop");
            show::number(to, reason.number() as u64);
        }
        Answer::Refused(refusal) => {
            show::text(to, b" : refused");
            show::number(to, refusal.number() as u64);
        }
    }
}

// The reason a breaker stopped for, 0 while it runs.
fn reason_of(state: State) -> u64 {
    match state {
        State::Running => 0,
        State::Stopped(reason) => reason.number() as u64,
    }
}

// The record: reason, time of the last report or start, time held, number of the last report, whether there was one, media run, trial, intervals in use, the newest interval.
fn show_record(to: Stdout, b: Breaker) {
    let newest = b.window.intervals[0];
    show::text(to, b" |");
    show::number(to, reason_of(b.state));
    show::number(to, b.last);
    show::number(to, b.heard);
    show::number(to, b.highest as u64);
    show::number(to, u64::from(b.reported));
    show::number(to, b.run);
    show::number(to, u64::from(b.trial));
    show::number(to, b.window.used as u64);
    show::number(to, newest.length);
    show::number(to, newest.fraction);
}

// A step shown, and its breaker.
fn shown(to: Stdout, step: Step) -> Breaker {
    show_answer(to, step.answer);
    show_record(to, step.breaker);
    step.breaker
}

// The start of a line.
fn start_of(line: &[u8]) -> Step {
    let settings = Settings {
        k: number(line, 1) as usize,
        m: number(line, 2),
        timeout: number(line, 3),
        reduce: number(line, 4) == 1,
        full: number(line, 5) == 1,
    };
    Breaker::start(settings, number(line, 6))
}

// The report of a line.
fn report_of(line: &[u8]) -> Report {
    Report {
        time: number(line, 1),
        highest: number32(line, 2),
        loss: Loss::Fraction(number(line, 3)),
        rtt: number(line, 4),
        size: number(line, 5),
        rate: number(line, 6),
    }
}

// The ECN counts of a line.
fn counts_of(line: &[u8]) -> EcnCounts {
    EcnCounts {
        lost: signed(line, 3),
        marked: number(line, 4),
        expected: number(line, 5),
    }
}

// The report with ECN counts of a line.
fn ecn_report_of(line: &[u8]) -> Report {
    Report {
        time: number(line, 1),
        highest: number32(line, 2),
        loss: Loss::Counts(counts_of(line)),
        rtt: number(line, 6),
        size: number(line, 7),
        rate: number(line, 8),
    }
}

// The settings with another k, m or timeout: fields 1, 2 and 3.
fn changed_settings(settings: Settings, field: u64, value: u64) -> Settings {
    match field {
        1 => Settings {
            k: value as usize,
            ..settings
        },
        2 => Settings {
            m: value,
            ..settings
        },
        3 => Settings {
            timeout: value,
            ..settings
        },
        _ => settings,
    }
}

// The record with another value of one field.
fn changed(b: Breaker, field: u64, value: u64) -> Breaker {
    match field {
        4 => Breaker { last: value, ..b },
        5 => Breaker {
            reported: value == 1,
            ..b
        },
        6 => Breaker {
            highest: (value % 4294967296) as u32,
            ..b
        },
        7 => Breaker { run: value, ..b },
        8 => Breaker {
            window: Window {
                used: value as usize,
                ..b.window
            },
            ..b
        },
        9 => Breaker { heard: value, ..b },
        _ => Breaker {
            settings: changed_settings(b.settings, field, value),
            ..b
        },
    }
}

// The record with another interval at one place of the window.
fn placed(mut b: Breaker, place: u64, length: u64, fraction: u64) -> Breaker {
    if place < 32 {
        b.window.intervals[place as usize] = Interval { length, fraction };
    }
    b
}

// What a line does.
fn done(to: Stdout, b: Breaker, line: &[u8]) -> Breaker {
    match cases::letter(line) {
        b'd' => shown(to, Breaker::start_preset(number(line, 1))),
        b's' => shown(to, start_of(line)),
        b'e' => shown(to, b.report(ecn_report_of(line))),
        b'r' => shown(to, b.report(report_of(line))),
        b't' => shown(to, b.tick(number(line, 1))),
        b'h' => shown(to, b.heard(number(line, 1))),
        b'f' => changed(b, number(line, 1), number(line, 2)),
        b'p' => placed(b, number(line, 1), number(line, 2), number(line, 3)),
        _ => b,
    }
}

// All lines in turn.
fn run(to: Stdout, text: &[u8]) {
    let mut b = Breaker::start_preset(0).breaker;
    // A loop with a step of its own: `split` would give one line more, an empty one behind the last line feed.
    let mut at = 0;
    while at < text.len() {
        let line = cases::line(text, at);
        show::text(to, line);
        b = done(to, b, line);
        show::end(to);
        at += line.len() + 1;
    }
}

fn main(rt: HostRuntime) {
    let mut text = [0u8; 65536];
    let n = show::read_full(rt.stdin(), &mut text);
    run(rt.stdout(), &text[..n]);
}
