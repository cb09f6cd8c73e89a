// A trace converted to the other form, block by block. The conversion is lent as 3 words, and the records of a block that is not full yet in a part.
ghost use Rattle.capi.specs.FormsCalls.{BeginsForms, TakesForms, ClosesForms};

// Takes block 0, and writes it in the other form. Gives its length and the 3 words of the conversion, or minus refusal 9, 1, 13, 14 or 12.
#[unsafe(no_mangle)]
pub extern "C" fn flasknib_forms_start(zeroth: &[u8], words: &mut [u64], out: &mut [u8]) -> i64
    ensures { BeginsForms words.old zeroth.now out.old result words.new out.new }
{
    capi::conversions::flasknib_forms_start(zeroth, words, out)
}

// Takes a later block, and writes the blocks that are full. Gives their length and the next conversion in the place of the last, or minus refusal 9, 1, 13,
// 14, 17 or 12.
#[unsafe(no_mangle)]
pub extern "C" fn flasknib_forms_block(
    words: &mut [u64],
    part: &mut [u8],
    block: &[u8],
    out: &mut [u8],
) -> i64
    ensures { TakesForms words.old part.old block.now out.old result words.new part.new out.new }
{
    capi::conversions::flasknib_forms_block(words, part, block, out)
}

// Writes the records that are held as a last block. Gives its length, 0 where there is none, or minus refusal 9 or 12.
#[unsafe(no_mangle)]
pub extern "C" fn flasknib_forms_close(words: &[u64], part: &[u8], out: &mut [u8]) -> i64
    ensures { ClosesForms words.now part.now out.old result out.new }
{
    capi::conversions::flasknib_forms_close(words, part, out)
}
