// A trace that arrives bit by bit. The upload is lent as 18 words, and block 0 and what is kept of the next block in 1,024 bytes.
ghost use Rattle.std.specs.Prelude.{length, ◌^◌, ◌<◌, ◌≡◌};
ghost use Rattle.capi.specs.Codes.{Leaves};
ghost use Rattle.capi.specs.Feeds.{feed_code, feed_size, close_code, FeedsWords, ClosesWords};
ghost use Rattle.lent.specs.FeedWords.{feed_words};

use crate::codes;
use answers::{ROOM, Refusal, Unwritten};
use convert::feeds::{Fed, FeedAnswer};
use lent::feed_words;

// The number of a feed's answer.
fn feed_code(answer: FeedAnswer) -> i64
    requires { feed_size answer < 2 ^ 54 }
    ensures { result ≡ feed_code answer }
{
    match answer {
        FeedAnswer::Length(n) => codes::length(Ok(n)),
        FeedAnswer::Room(n) => codes::length(Err(Unwritten::Room(n))),
        FeedAnswer::Refused(refusal) => codes::minus(refusal),
        FeedAnswer::Faulty {
            refusal,
            block: _,
            length,
        } => codes::faulty(refusal, length),
    }
}

// The number of a closing call's.
fn close_code(answer: FeedAnswer) -> u8
    ensures { result ≡ close_code answer }
{
    match answer {
        FeedAnswer::Length(_) => 0,
        FeedAnswer::Room(_) => ROOM,
        FeedAnswer::Refused(refusal) => refusal.number(),
        FeedAnswer::Faulty {
            refusal,
            block: _,
            length: _,
        } => refusal.number(),
    }
}

// Stores the upload after a feed in the place of the last, and gives the answer's number.
fn put_fed(fed: Fed, words: &mut [u64]) -> i64
    requires { (length words.old ≡ 18) × (feed_size fed.answer < 2 ^ 54) }
    ensures { Leaves (feed_code fed.answer) (feed_words fed.upload) result words.new }
{
    let answer = fed.answer;
    let next = fed.upload;
    feed_words::store(next, words);
    feed_code(answer)
}

// Stores the upload after a closing call, and gives the answer's number.
fn put_closed(fed: Fed, words: &mut [u64]) -> u8
    requires { length words.old ≡ 18 }
    ensures { Leaves (close_code fed.answer) (feed_words fed.upload) result words.new }
{
    let answer = fed.answer;
    let next = fed.upload;
    feed_words::store(next, words);
    close_code(answer)
}

// Takes a stretch of a trace, and writes the rows of the blocks that it completes. Gives their length and the upload in the place of the last, or minus refusal
// 9, the kept one, 10, 12 or a block's.
pub fn flasknib_feed(upload: &mut [u64], kept: &mut [u8], stretch: &[u8], out: &mut [u8]) -> i64
    ensures { FeedsWords upload.old kept.old stretch.now out.old result upload.new kept.new out.new }
{
    let Some(given) = feed_words::load(upload) else {
        return codes::minus(Refusal::Malformed);
    };
    put_fed(given.feed(kept, stretch, out), upload)
}

// Ends a trace, or asks how it would end. Gives 0, or refusal 9, the kept one or 1, which is kept.
pub fn flasknib_feed_close(upload: &mut [u64], kept: &[u8]) -> u8
    ensures { ClosesWords upload.old kept.now result upload.new }
{
    let Some(given) = feed_words::load(upload) else {
        return Refusal::Malformed.number();
    };
    put_closed(given.close(kept), upload)
}
