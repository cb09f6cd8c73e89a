// A record with one arrival more, and the first, which sets base and highest.
ghost use Rattle.std.specs.Prelude.{◌≡◌, ◌+◌, ◌^◌, ◌<◌, eqb};
ghost use Rattle.source.specs.Places.{bit};
ghost use Rattle.source.specs.Record.{arrivals};
ghost use Rattle.source.specs.Arrivals.{counted, first};

use crate::{Extended, History, Source};
use format::Wire;

// The counter n of the mark `kind`, after an arrival with `mark`.
fn raised(n: u64, mark: u8, kind: u8) -> u64
    requires { n < 2 ^ 48 }
    ensures { result ≡ n + bit (eqb mark kind) }
{
    n + u64::from(mark == kind)
}

// The record with one arrival more.
#[tactic(auto, unfolding(crate::specs::Arrivals::counted))]
pub fn counted(
    s: Source,
    mark: u8,
    base: Extended,
    highest: Extended,
    duplicates: u64,
    history: History,
) -> Source
    requires { arrivals s < 2 ^ 48 }
    ensures { result ≡ counted s mark base highest duplicates history }
{
    Source {
        base,
        highest,
        notect: raised(s.notect, mark, 0),
        ect1: raised(s.ect1, mark, 1),
        ect0: raised(s.ect0, mark, 2),
        ce: raised(s.ce, mark, 3),
        duplicates,
        history,
        remembered: None,
    }
}

// The first arrival.
#[tactic(auto, using(crate::proofs::Shifts::first_history), unfolding(crate::specs::Arrivals::first))]
pub fn first(s: Source, wire: Wire, mark: u8) -> Source
    requires { arrivals s < 2 ^ 48 }
    ensures { result ≡ first s wire mark }
{
    let number = Extended(i64::from(wire.0));
    let history = History {
        recent: 1,
        older: 0,
    };
    counted(s, mark, number, number, 0, history)
}
