// A stretch that is fed to a sound upload which goes on.
ghost use Rattle.std.specs.Prelude.{◌≡◌, true, List, ℕ, ◌+◌, ◌≤◌, ◌<◌, length, drop};
ghost use Rattle.std.proofs.lemmas.List.Edits.{sets};
ghost use Rattle.format.specs.Blocks.{block_bytes};
ghost use Rattle.convert.specs.declared.feeds.FeedAnswer.TheVariants.{Length};
ghost use Rattle.convert.specs.Feeds.{lent_bytes, left_by, rest_in, answer_by, sound_upload, in_limits, Feeds};
ghost use Rattle.convert.specs.Passes.{kept_more, label_moved, Ready, Settleable, Settled, Wanted, CanAdd, CanComplete, added_by, room_of};

use crate::feed_lent::{clear, keep, move_block};
use crate::feed_passes::{Passed, pass, size};
use crate::feeds::{Fed, FeedAnswer, Upload};
use answers::Refusal;
use answers::copy::put_bytes;
use format::block::BLOCK;

// No row is longer.
const ROW: usize = 1228;

// Where the bytes begin that are kept of those after the last block: none are after a faulty one.
fn left_from(n: usize, ended: Option<Refusal>) -> usize
    ensures { ((rest : List ℕ) → length rest ≡ n → drop result rest ≡ left_by (rest_in rest) ended) × (result ≤ n) × (n < result + block_bytes) }
{
    match ended {
        None => n / BLOCK * BLOCK,
        Some(_) => n,
    }
}

// The answer of a pass that wrote its rows.
fn answer_of(ended: Option<Refusal>, block: u64, length: usize) -> FeedAnswer
    ensures { result ≡ answer_by block length ended }
{
    match ended {
        None => FeedAnswer::Length(length),
        Some(refusal) => FeedAnswer::Faulty {
            refusal,
            block,
            length,
        },
    }
}

// Stores a block 0 that was taken at its place.
fn move_label(blocks: u64, bytes: usize, lent: &mut [u8])
    requires { lent_bytes ≤ length lent.old }
    ensures { lent.new ≡ label_moved blocks bytes lent.old }
{
    if 0 < blocks {
        return;
    }
    if bytes == 0 {
        return;
    }
    move_block(lent);
}

// The upload after a pass, with its lent bytes.
fn settle(u: Upload, lent: &mut [u8], rest: &[u8], passed: Passed) -> Fed
    requires { Settleable u lent.old rest.now passed }
    ensures { Settled u lent.old rest.now passed result lent.new }
{
    let blocks = u.blocks + (passed.bytes / BLOCK) as u64;
    let from = left_from(rest.len(), passed.ended);
    move_label(u.blocks, passed.bytes, lent);
    keep(lent, &rest[from..]);
    let upload = Upload {
        run: passed.run,
        blocks,
        kept: rest.len() - from,
        ended: passed.ended,
    };
    Fed {
        answer: answer_of(passed.ended, blocks, passed.used),
        upload,
    }
}

// The length of the rows, where the room may be too small for them: room for the longest row for each block spares that pass.
fn wanted(u: Upload, lent: &[u8], rest: &[u8], room: usize) -> usize
    requires { Ready u lent.now rest.now }
    ensures { Wanted u lent.now rest.now room result }
{
    if rest.len() / BLOCK < room / ROW {
        return 0;
    }
    size(u, lent, rest)
}

// Takes the block in the place of the next one, which the stretch completed, and the bytes after it. 12 clears what was completed.
fn add_blocks(u: Upload, lent: &mut [u8], rest: &[u8], out: &mut [u8]) -> Fed
    requires { CanAdd u lent.old rest.now }
    ensures { Feeds (added_by u lent.old rest.now (length out.old)) out.old result lent.new out.new }
{
    let n = wanted(u, lent, rest, out.len());
    if out.len() < n {
        clear(lent, BLOCK + u.kept);
        return Fed {
            answer: FeedAnswer::Room(n),
            upload: u,
        };
    }
    let passed = pass(u, lent, rest, out);
    settle(u, lent, rest, passed)
}

// Keeps a stretch that completes no block.
fn keep_more(u: Upload, lent: &mut [u8], stretch: &[u8]) -> Fed
    requires { u.kept + length stretch.now < block_bytes }
    ensures { (result.answer ≡ Length 0) × (result.upload ≡ kept_more u (length stretch.now)) × (lent.new ≡ sets lent.old (block_bytes + u.kept) stretch.now) }
{
    let upload = Upload {
        kept: u.kept + stretch.len(),
        ..u
    };
    put_bytes(stretch, lent, BLOCK + u.kept);
    Fed {
        answer: FeedAnswer::Length(0),
        upload,
    }
}

// Takes a stretch that completes a block.
fn complete(u: Upload, lent: &mut [u8], stretch: &[u8], out: &mut [u8]) -> Fed
    requires { CanComplete u lent.old stretch.now }
    ensures { Feeds (room_of u lent.old stretch.now (length out.old)) out.old result lent.new out.new }
{
    let missing = BLOCK - u.kept;
    put_bytes(&stretch[..missing], lent, BLOCK + u.kept);
    add_blocks(u, lent, &stretch[missing..], out)
}

// Takes a stretch. Refusals: 10, 12, the block's.
pub fn take_stretch(u: Upload, lent: &mut [u8], stretch: &[u8], out: &mut [u8]) -> Fed
    requires { (sound_upload u lent.old ≡ true) × (u.ended ≡ None) }
    ensures { Feeds (in_limits u lent.old stretch.now (length out.old)) out.old result lent.new out.new }
{
    let taken = 512 * u.blocks + u.kept as u64;
    if Upload::MOST - taken < stretch.len() as u64 {
        return Fed {
            answer: FeedAnswer::Refused(Refusal::Limits),
            upload: u,
        };
    }
    if stretch.len() < BLOCK - u.kept {
        return keep_more(u, lent, stretch);
    }
    complete(u, lent, stretch, out)
}
