// A jump, and the restart of a record (RFC 3550, appendix A.1).
ghost use Rattle.std.specs.Prelude.{◌≡◌};
ghost use Rattle.source.specs.Arrivals.{is_remembered, next, remembering, jumped};

use crate::base::first;
use crate::{Arrival, Source};
use answers::Refusal;
use format::Wire;

// Whether a wire number is the one that is remembered.
fn is_remembered(remembered: Option<Wire>, wire: Wire) -> bool
    ensures { result ≡ is_remembered remembered wire }
{
    remembered.is_some_and(|number| wire.0 == number.0)
}

// The wire number after this one.
fn next(wire: Wire) -> Wire
    ensures { result ≡ next wire }
{
    Wire(wire.0.wrapping_add(1))
}

// The record with a number remembered, and all else as it was.
#[tactic(auto, unfolding(crate::specs::Arrivals::remembering))]
fn remembering(s: Source, number: Wire) -> Source
    ensures { result ≡ remembering s number }
{
    Source {
        remembered: Some(number),
        ..s
    }
}

// A jump: a restart where it has the remembered number, else refusal 7.
#[tactic(auto, unfolding(crate::specs::Arrivals::jumped))]
pub fn jumped(s: Source, wire: Wire, mark: u8) -> Arrival
    ensures { result ≡ jumped s wire mark }
{
    if is_remembered(s.remembered, wire) {
        return Arrival::Restarted(first(Source::fresh(), wire, mark));
    }
    Arrival::Refused(Refusal::Jump, remembering(s, next(wire)))
}
