// A trace that arrives bit by bit (document 02, request L7): stretches of any length are fed, and the rows of the blocks that each completes are written. The
// caller lends 1,024 bytes between the calls, block 0 and then the partial block, and prints the head line.
ghost use Rattle.std.specs.Prelude.{◌≡◌, List, ℕ, length};
ghost use Rattle.answers.specs.declared.Refusal.TheVariants.{Incomplete};
ghost use Rattle.convert.specs.declared.feeds.FeedAnswer.TheVariants.{Faulty};
ghost use Rattle.convert.specs.Numbered.{feed_as};
ghost use Rattle.convert.specs.Feeds.{fresh_upload, broken, feed_of, close_by, close_of, Feeds, Closes};

use crate::feed_blocks::take_stretch;
use crate::feed_soundness::is_sound;
use crate::{Run, no_run};
use answers::Refusal;

// How far a trace has come: the run, the whole blocks taken, how many bytes of the next are kept, 0 to 511, and whether a refusal is kept: 1, 13 or 14, its
// block the number of blocks taken.
#[derive(Clone, Copy)]
pub struct Upload {
    pub run: Run,
    pub blocks: u64,
    pub kept: usize,
    pub ended: Option<Refusal>,
}

// The answer to a call: the length of the rows; 12, with the length that the rows have; 9 or 10; or the refusal of a block, with the block's number and the
// length of the rows before it.
#[derive(Clone, Copy)]
pub enum FeedAnswer {
    Length(usize),
    Room(usize),
    Refused(Refusal),
    Faulty {
        refusal: Refusal,
        block: u64,
        length: usize,
    },
}

// The answer, and the upload after the call.
#[derive(Clone, Copy)]
pub struct Fed {
    pub answer: FeedAnswer,
    pub upload: Upload,
}

// Repeats a refusal that is kept.
fn repeated(upload: Upload, refusal: Refusal) -> Fed
    ensures { (result.answer ≡ Faulty refusal upload.blocks 0) × (result.upload ≡ upload) }
{
    let answer = FeedAnswer::Faulty {
        refusal,
        block: upload.blocks,
        length: 0,
    };
    Fed { answer, upload }
}

// The upload with the refusal 1 at its next block.
fn broken(u: Upload) -> Fed
    ensures { (result.answer ≡ Faulty Incomplete u.blocks 0) × (result.upload ≡ broken u) }
{
    let answer = FeedAnswer::Faulty {
        refusal: Refusal::Incomplete,
        block: u.blocks,
        length: 0,
    };
    let upload = Upload {
        ended: Some(Refusal::Incomplete),
        ..u
    };
    Fed { answer, upload }
}

// Closes a sound upload that goes on.
fn closed(u: Upload) -> Fed
    ensures { (lent : List ℕ) → Closes (close_by u lent None) result }
{
    if 0 < u.kept {
        return broken(u);
    }
    if u.blocks == 0 {
        return broken(u);
    }
    Fed {
        answer: FeedAnswer::Length(0),
        upload: u,
    }
}

impl Upload {
    // The most bytes that are taken in all.
    pub const MOST: u64 = 0x1_0000_0000_0000;

    // Before the first stretch. The 1,024 lent bytes are then zero.
    pub fn fresh() -> Upload
        ensures { result ≡ fresh_upload }
    {
        Upload {
            run: no_run(),
            blocks: 0,
            kept: 0,
            ended: None,
        }
    }

    // Takes a stretch of a trace, of any length, and writes the rows of all blocks that it completes at the front of out; what is left is kept. At the first
    // refused block the rows of those before it are written, and the refusal is kept. Refusals: 9 a malformed upload, the kept one, 10 past 2^48 bytes in all,
    // 12 with the length of the rows, the block's.
    pub fn feed(self, lent: &mut [u8], stretch: &[u8], out: &mut [u8]) -> Fed
        ensures feeds { Feeds (feed_of self lent.old stretch.now (length out.old)) out.old result lent.new out.new }
        ensures numbered { feed_as result.answer ≡ feed_as (feed_of self lent.old stretch.now (length out.old)).answer }
    {
        if !is_sound(self, lent) {
            return Fed {
                answer: FeedAnswer::Refused(Refusal::Malformed),
                upload: self,
            };
        }
        match self.ended {
            Some(refusal) => repeated(self, refusal),
            None => take_stretch(self, lent, stretch, out),
        }
    }

    // Ends the trace, or asks how it would end: a partial block, or block 0 of an empty trace, is refused with 1, and the refusal is kept. One that refuses
    // nothing changes nothing, and feeding may go on. Refusals: 9 a malformed upload, the kept one, 1.
    pub fn close(self, lent: &[u8]) -> Fed
        ensures closes { Closes (close_of self lent.now) result }
        ensures numbered { feed_as result.answer ≡ feed_as (close_of self lent.now).answer }
    {
        if !is_sound(self, lent) {
            return Fed {
                answer: FeedAnswer::Refused(Refusal::Malformed),
                upload: self,
            };
        }
        match self.ended {
            Some(refusal) => repeated(self, refusal),
            None => closed(self),
        }
    }
}
