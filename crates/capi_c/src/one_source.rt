// One source's arrivals and reports.
ghost use Rattle.capi.specs.OneSource.{CountsArrival, CountsBlock, WritesFeedback, WritesSummary};

// Counts one arrival. Gives 0 or 128, for a restart, and the next record; or refusal 9, 10, 8 or 7. A jump (7) leaves its record too.
#[unsafe(no_mangle)]
pub extern "C" fn flasknib_arrive(words: &mut [u64], wire: u16, mark: u8) -> u8
    ensures { CountsArrival words.old wire mark result words.new }
{
    capi::one_source::flasknib_arrive(words, wire, mark)
}

// Counts the records of one arrivals block. Gives 256 * restarts + jumps and the next record, or minus refusal 9 or 10.
#[unsafe(no_mangle)]
pub extern "C" fn flasknib_count_block(words: &mut [u64], records: &[u8], width: usize) -> i64
    ensures { CountsBlock words.old width records.now result words.new }
{
    capi::one_source::flasknib_count_block(words, records, width)
}

// Writes the ECN feedback packet. Gives its length, or minus refusal 9 or 12.
#[unsafe(no_mangle)]
pub extern "C" fn flasknib_write_feedback(
    words: &[u64],
    sender: u32,
    media: u32,
    out: &mut [u8],
) -> i64
    ensures { WritesFeedback words.now sender media out.old result out.new }
{
    capi::one_source::flasknib_write_feedback(words, sender, media, out)
}

// Writes the XR ECN summary block. Gives its length, or minus refusal 9 or 12.
#[unsafe(no_mangle)]
pub extern "C" fn flasknib_write_summary(words: &[u64], media: u32, out: &mut [u8]) -> i64
    ensures { WritesSummary words.now media out.old result out.new }
{
    capi::one_source::flasknib_write_summary(words, media, out)
}
