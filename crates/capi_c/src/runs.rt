// A run of ecntable, block by block. It is lent as 15 words.
ghost use Rattle.capi.specs.RunCalls.{StartsRun, TakesBlock};

// Takes block 0. Gives 0 and the run in the 15 words of `run`, or refusal 9 for another number of words, or 1, 13 or 14.
#[unsafe(no_mangle)]
pub extern "C" fn flasknib_run_start(zeroth: &[u8], run: &mut [u64]) -> u8
    ensures { StartsRun zeroth.now run.old result run.new }
{
    capi::runs::flasknib_run_start(zeroth, run)
}

// Takes a later block, and writes the row after it. Gives the row's length and the next run in the place of the last, or minus refusal 9, 1, 13, 14 or 12.
#[unsafe(no_mangle)]
pub extern "C" fn flasknib_run_block(
    run: &mut [u64],
    zeroth: &[u8],
    block: &[u8],
    out: &mut [u8],
) -> i64
    ensures { TakesBlock run.old zeroth.now block.now out.old result run.new out.new }
{
    capi::runs::flasknib_run_block(run, zeroth, block, out)
}
