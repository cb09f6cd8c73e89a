// Where an arrival stands by its distance from the highest number: the limits of RFC 3550, appendix A.1, and the one function that goes by them.
ghost use Rattle.std.specs.Prelude.{◌≡◌, ◌<◌};
ghost use Rattle.source.specs.Distances.{reach_of};

// The greatest distance that is ahead: MAX_DROPOUT is 3,000.
pub const MOST_AHEAD: u64 = 2999;

// The least that is behind: MAX_MISORDER is 100.
const LEAST_BEHIND: u64 = 65437;

// So many numbers above the highest; so many below it, 0 where it is the highest; or neither.
#[derive(Clone, Copy)]
pub enum Reach {
    Ahead(u64),
    Behind(u64),
    Jump,
}

// Where an arrival at the distance d stands.
pub fn reach_of(d: u64) -> Reach
    requires { d < 65536 }
    ensures { result ≡ reach_of d }
{
    if d == 0 {
        return Reach::Behind(0);
    }
    if d <= MOST_AHEAD {
        return Reach::Ahead(d);
    }
    if LEAST_BEHIND <= d {
        return Reach::Behind(65536 - d);
    }
    Reach::Jump
}
