// The table's head line, its rows and the line of a refused block.
ghost use Rattle.capi.specs.Blocks.{WritesHead, WritesRow, WritesRefused};

// Writes the table's head line. Gives its length, or minus refusal 12.
#[unsafe(no_mangle)]
pub extern "C" fn flasknib_write_head(out: &mut [u8]) -> i64
    ensures { WritesHead out.old result out.new }
{
    capi::rows::flasknib_write_head(out)
}

// Writes a row of the table. Gives its length, or minus refusal 9, 10 or 12.
#[unsafe(no_mangle)]
pub extern "C" fn flasknib_write_row(
    label: &[u8],
    ssrc: u32,
    words: &[u64],
    jumped: u64,
    restarts: u64,
    out: &mut [u8],
) -> i64
    ensures { WritesRow label.now ssrc words.now jumped restarts out.old result out.new }
{
    capi::rows::flasknib_write_row(label, ssrc, words, jumped, restarts, out)
}

// Writes the line `refused N block I`. Gives its length, or minus refusal 12.
#[unsafe(no_mangle)]
pub extern "C" fn flasknib_write_refused(number: u8, block: u64, out: &mut [u8]) -> i64
    ensures { WritesRefused number block out.old result out.new }
{
    capi::rows::flasknib_write_refused(number, block, out)
}
