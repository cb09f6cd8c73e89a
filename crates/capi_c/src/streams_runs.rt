// A run of ecnstreams, block by block, and its rows. It is lent as 3 words, and the lines of its sources as 208.
ghost use Rattle.capi.specs.StreamsCalls.{StartsStreams, TakesStreams, WritesStreams};

// Takes block 0. Gives 0 and the run in 3 words, or refusal 9, 1, 13 or 14.
#[unsafe(no_mangle)]
pub extern "C" fn flasknib_streams_start(zeroth: &[u8], run: &mut [u64]) -> u8
    ensures { StartsStreams zeroth.now run.old result run.new }
{
    capi::streams_runs::flasknib_streams_start(zeroth, run)
}

// Takes a later block, and counts its arrivals in the line of their SSRC. Gives 0, the next run in the place of the last and the lines, or refusal 16, 9, 1,
// 13, 14 or 15.
#[unsafe(no_mangle)]
pub extern "C" fn flasknib_streams_block(run: &mut [u64], lines: &mut [u64], block: &[u8]) -> u8
    ensures { TakesStreams run.old lines.old block.now result run.new lines.new }
{
    capi::streams_runs::flasknib_streams_block(run, lines, block)
}

// Writes the row of line i. Gives its length, or minus refusal 16, 9, 10 or 12.
#[unsafe(no_mangle)]
pub extern "C" fn flasknib_streams_row(
    run: &[u64],
    i: usize,
    lines: &[u64],
    zeroth: &[u8],
    out: &mut [u8],
) -> i64
    ensures { WritesStreams run.now i lines.now zeroth.now out.old result out.new }
{
    capi::streams_runs::flasknib_streams_row(run, i, lines, zeroth, out)
}
