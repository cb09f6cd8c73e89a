// A source's record from lines, for the programs that hand one to a call:
//   n                                                                      the fresh record
//   s base highest ect0 ect1 ce notect duplicates recent older remembered  a record with these fields; remembered is 0 for none, else number + 1
//   a number mark                                                          the record after an arrival
use crate::{letter, number, number8, number16, signed};
use format::Wire;
use source::{Arrival, Extended, History, Source};

// The arrival of a line.
pub fn arrival(s: Source, line: &[u8]) -> Arrival {
    s.arrive(Wire(number16(line, 1)), number8(line, 2))
}

// The record that an answer hands back.
fn kept(answer: Arrival) -> Source {
    match answer {
        Arrival::Accepted(s) => s,
        Arrival::Restarted(s) => s,
        Arrival::Refused(_, s) => s,
    }
}

// What a word says is remembered.
fn remembered(word: u64) -> Option<Wire> {
    if word == 0 {
        return None;
    }
    Some(Wire(((word - 1) % 65536) as u16))
}

// The record with the fields of a line.
fn with_fields(line: &[u8]) -> Source {
    let base = Extended(signed(line, 1));
    let highest = Extended(signed(line, 2));
    let history = History {
        recent: number(line, 8),
        older: number(line, 9),
    };
    Source {
        base,
        highest,
        ect0: number(line, 3),
        ect1: number(line, 4),
        ce: number(line, 5),
        notect: number(line, 6),
        duplicates: number(line, 7),
        history,
        remembered: remembered(number(line, 10)),
    }
}

// The record that a line leaves; any other line leaves it as it is.
pub fn after(s: Source, line: &[u8]) -> Source {
    match letter(line) {
        b'a' => kept(arrival(s, line)),
        b'n' => Source::fresh(),
        b's' => with_fields(line),
        _ => s,
    }
}
