// A trace that arrives bit by bit. The upload is lent as 18 words, and block 0 and what is kept of the next block in 1,024 bytes.
ghost use Rattle.capi.specs.Feeds.{FeedsWords, ClosesWords};

// Takes a stretch of a trace, and writes the rows of the blocks that it completes. Gives their length and the upload in the place of the last, or minus refusal
// 9, the kept one, 10, 12 or a block's.
#[unsafe(no_mangle)]
pub extern "C" fn flasknib_feed(
    upload: &mut [u64],
    kept: &mut [u8],
    stretch: &[u8],
    out: &mut [u8],
) -> i64
    ensures { FeedsWords upload.old kept.old stretch.now out.old result upload.new kept.new out.new }
{
    capi::feeds::flasknib_feed(upload, kept, stretch, out)
}

// Ends a trace, or asks how it would end. Gives 0, or refusal 9, the kept one or 1, which is kept.
#[unsafe(no_mangle)]
pub extern "C" fn flasknib_feed_close(upload: &mut [u64], kept: &[u8]) -> u8
    ensures { ClosesWords upload.old kept.now result upload.new }
{
    capi::feeds::flasknib_feed_close(upload, kept)
}
