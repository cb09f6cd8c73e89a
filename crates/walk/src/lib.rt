// A program over the blocks of a trace, as a definition; the programs' crates say what their blocks do, and cite these laws. The types here are those
// that their runs share.
#![tactic(auto)]

ghost use Rattle.std.specs.Prelude.{◌≡◌};
ghost use Rattle.walk.specs.Endings.{number_after};

use answers::{Refusal, Unwritten};

// What the end of a run wrote for standard output and for standard error.
#[derive(Clone, Copy, PartialEq, Eq)]
pub struct Closed {
    pub out: Result<usize, Unwritten>,
    pub err: Result<usize, Unwritten>,
}

// The number of the block that stands so many behind one. The greatest number stays.
pub fn number_after(block: u64, more: u64) -> u64
    ensures { result ≡ number_after block more }
{
    block.saturating_add(more)
}
