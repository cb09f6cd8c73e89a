// All whole blocks of a piece in turn, of a run that was found sound. Their rows are counted in any case, and written where out has room for all of them: a
// pass with no room tells the rows' length.
ghost use Rattle.std.specs.Prelude.{◌≡◌, true, List, ◌∷◌, ℕ, suc, ◌≤◌, length};
ghost use Rattle.format.specs.Blocks.{block_bytes};
ghost use Rattle.walk.specs.Pieces.{whole_in};
ghost use Rattle.convert.specs.Runs.{sound_run, row_in, next_of};
ghost use Rattle.convert.specs.Feeds.{lent_bytes, part_in, most_fed, held_by, feeding, through};
ghost use Rattle.convert.specs.Passes.{MovedBy, Passable, PassesAll, Passes, Ready};

use crate::feed_lent::LENT;
use crate::feeds::Upload;
use crate::{Run, rows};
use answers::{Refusal, Unwritten};
use format::block::BLOCK;

// How far a pass came: the run, the bytes that it took, the place in out after the rows, and whether the next block was refused.
#[derive(Clone, Copy)]
pub struct Passed {
    pub run: Run,
    pub bytes: usize,
    pub used: usize,
    pub ended: Option<Refusal>,
}

// Takes a block and writes its row from a place of out on, if there is room.
fn forward_at(
    run: Run,
    zeroth: &[u8],
    block: &[u8],
    out: &mut [u8],
    at: usize,
) -> Result<(Run, usize), Refusal>
    requires { sound_run run zeroth.now ≡ true }
    ensures { MovedBy (next_of run block.now) (row_in zeroth.now (next_of run block.now)) out.old at out.new result }
{
    let from = at.min(out.len());
    let step = rows::forward(run, zeroth, block, &mut out[from..]);
    match step.answer {
        Ok(n) => Ok((step.run, n)),
        Err(Unwritten::Room(n)) => Ok((step.run, n)),
        Err(Unwritten::Refused(refusal)) => Err(refusal),
    }
}

// Takes the whole blocks of a piece, to the first that is refused. Their rows stand from a place of out on.
fn take_all(start: Run, zeroth: &[u8], piece: &[u8], out: &mut [u8], from: usize) -> Passed
    requires { Passable start zeroth.now piece.now from }
    ensures { PassesAll start zeroth.now piece.now out.old from result out.new }
{
    let mut run = start;
    let mut at = 0;
    let mut used = from;
    // A loop with a step of its own: it stops in front of a block, whose place is given.
    while BLOCK <= piece.len() - at {
        let end = at + BLOCK;
        match forward_at(run, zeroth, &piece[at..end], out, used) {
            Ok((next, length)) => {
                run = next;
                used += length;
            }
            Err(refusal) => {
                return Passed {
                    run,
                    bytes: at,
                    used,
                    ended: Some(refusal),
                };
            }
        }
        at = end;
    }
    Passed {
        run,
        bytes: at,
        used,
        ended: None,
    }
}

// Takes block 0 and the whole blocks after it. `given` is the run that a refused block 0 leaves.
fn from_label(given: Run, block: &[u8], rest: &[u8], out: &mut [u8]) -> Passed
    requires { (length block.now ≡ block_bytes) × (length rest.now ≤ most_fed) }
    ensures { (zeroth : List ℕ) → Passes (through feeding 0 (block.now ∷ whole_in rest.now) (record { run = given; zeroth = zeroth })) out.old result out.new }
{
    match Run::start(block) {
        Ok(run) => {
            let last = take_all(run, block, rest, out, 0);
            Passed {
                bytes: BLOCK + last.bytes,
                ..last
            }
        }
        Err(refusal) => Passed {
            run: given,
            bytes: 0,
            used: 0,
            ended: Some(refusal),
        },
    }
}

// Takes a later block and the whole blocks after it.
fn from_block(run: Run, zeroth: &[u8], block: &[u8], rest: &[u8], out: &mut [u8]) -> Passed
    requires { (sound_run run zeroth.now ≡ true) × (length block.now ≡ block_bytes) × (length rest.now ≤ most_fed) }
    ensures { (i : ℕ) → Passes (through feeding (suc i) (block.now ∷ whole_in rest.now) (record { run = run; zeroth = zeroth.now })) out.old result out.new }
{
    let first = take_all(run, zeroth, block, out, 0);
    let None = first.ended else {
        return first;
    };
    let last = take_all(first.run, zeroth, rest, out, first.used);
    Passed {
        bytes: BLOCK + last.bytes,
        ..last
    }
}

// Takes the block in the place of the next one, which is whole, and the whole blocks after it.
pub fn pass(u: Upload, lent: &[u8], rest: &[u8], out: &mut [u8]) -> Passed
    requires { Ready u lent.now rest.now }
    ensures { Passes (through feeding u.blocks (part_in lent.now ∷ whole_in rest.now) (held_by u lent.now)) out.old result out.new }
{
    if u.blocks == 0 {
        return from_label(u.run, &lent[BLOCK..LENT], rest, out);
    }
    from_block(u.run, &lent[..BLOCK], &lent[BLOCK..LENT], rest, out)
}

// The length of the rows that a pass writes.
pub fn size(u: Upload, lent: &[u8], rest: &[u8]) -> usize
    requires { Ready u lent.now rest.now }
    ensures { result ≡ length (through feeding u.blocks (part_in lent.now ∷ whole_in rest.now) (held_by u lent.now)).printed.out }
{
    let mut space = [0u8; 1];
    let passed = pass(u, lent, rest, &mut space);
    passed.used
}
