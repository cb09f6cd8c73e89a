// Several sources in one table.
ghost use Rattle.capi.specs.Tables.{CountsTableArrival, CountsTableBlock, WritesTableCompound, GivesPlace, TellsHeld};

// Counts one arrival of an SSRC. Gives 0 or 128, for a restart, and the next table; or refusal 16, 9, 10, 15, 8 or 7. A jump (7) leaves its table too.
#[unsafe(no_mangle)]
pub extern "C" fn flasknib_sources_arrive(words: &mut [u64], ssrc: u32, wire: u16, mark: u8) -> u8
    ensures { CountsTableArrival words.old ssrc wire mark result words.new }
{
    capi::tables::flasknib_sources_arrive(words, ssrc, wire, mark)
}

// Counts the records of one arrivals block of an SSRC. Gives 256 * restarts + jumps and the next table, or minus refusal 16, 9, 10 or 15.
#[unsafe(no_mangle)]
pub extern "C" fn flasknib_sources_count_block(
    words: &mut [u64],
    ssrc: u32,
    records: &[u8],
    width: usize,
) -> i64
    ensures { CountsTableBlock words.old ssrc width records.now result words.new }
{
    capi::tables::flasknib_sources_count_block(words, ssrc, records, width)
}

// Writes the compound: an RR and the feedback of the held places. Gives its length, or minus refusal 16, 9 or 12.
#[unsafe(no_mangle)]
pub extern "C" fn flasknib_sources_write_compound(words: &[u64], sender: u32, out: &mut [u8]) -> i64
    ensures { WritesTableCompound words.now sender out.old result out.new }
{
    capi::tables::flasknib_sources_write_compound(words, sender, out)
}

// The words of a held place, counted from 0. Gives 0 and 11 words at the front of found, or refusal 16, 9, 10 or 12.
#[unsafe(no_mangle)]
pub extern "C" fn flasknib_sources_place(words: &[u64], place: usize, found: &mut [u64]) -> u8
    ensures { GivesPlace words.now place found.old result found.new }
{
    capi::tables::flasknib_sources_place(words, place, found)
}

// How many places are held, all in front. Gives their number, or minus refusal 16 or 9.
#[unsafe(no_mangle)]
pub extern "C" fn flasknib_sources_held(words: &[u64]) -> i64
    ensures { TellsHeld words.now result }
{
    capi::tables::flasknib_sources_held(words)
}
