// Bytes of a piece copied to standard output as they stand.
ghost use Rattle.std.specs.Prelude.{◌≡◌};
ghost use Rattle.shell.specs.Copies.{front_of, Copied};

use crate::clipped::least;
use crate::streams::Streams;
use crate::transfers::Transfer;

// The first bytes of what is left, at most so many.
fn front_of(t: Transfer, bytes: usize, piece: &[u8]) -> &[u8]
    ensures { result.now ≡ front_of bytes t piece.now }
{
    let left = t.left(piece);
    let from = 0;
    let end = least(bytes, left.len());
    &left[from..end]
}

// Copies the first bytes of what is left to standard output, at most so many: they are printed where they stand, after what is kept.
pub fn copied(
    t: Transfer,
    bytes: usize,
    streams: &mut Streams,
    program: &[u8],
    piece: &[u8],
    lines: &mut [u8],
) -> Transfer
    ensures { Copied bytes t piece.now lines.old result lines.new }
{
    let mut next = t;
    let out = t.out;
    let front = front_of(t, bytes, piece);
    next.out = out
        .with_printed(out.used, streams, program, lines)
        .printed_now(streams, program, front);
    next
}
