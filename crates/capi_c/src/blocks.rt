// One block of a trace.
ghost use Rattle.std.specs.Prelude.{◌≡◌};
ghost use Rattle.capi.specs.Blocks.{ReadsBlock, own_code, FindsRecord, WritesLabel, SpacesLabel, WritesArrivals, WritesRecords};

// Reads a block. Gives 0 and three words at the front of found, or refusal 1, 13 or 14, or 12 where found has fewer words.
#[unsafe(no_mangle)]
pub extern "C" fn flasknib_read_block(block: &[u8], found: &mut [u64]) -> u8
    ensures { ReadsBlock block.now found.old result found.new }
{
    capi::blocks::flasknib_read_block(block, found)
}

// Reads a later block of a trace of form 1 or 2 with an SSRC. Gives 0, or refusal 10 for another form, or 1, 13 or 14.
#[unsafe(no_mangle)]
pub extern "C" fn flasknib_read_own(form: u8, ssrc: u32, block: &[u8]) -> u8
    ensures { result ≡ own_code form ssrc block.now }
{
    capi::blocks::flasknib_read_own(form, ssrc, block)
}

// The record i of an arrivals block. Gives 0 and three words at the front of found, or refusal 1, 14 or 10, or 12 where found has fewer words.
#[unsafe(no_mangle)]
pub extern "C" fn flasknib_record_at(block: &[u8], i: usize, found: &mut [u64]) -> u8
    ensures { FindsRecord block.now i found.old result found.new }
{
    capi::blocks::flasknib_record_at(block, i, found)
}

// Writes the label block of a new label in form 1 or 2. Gives its length, or minus refusal 10, 19 or 12.
#[unsafe(no_mangle)]
pub extern "C" fn flasknib_write_label(form: u8, label: &[u8], ssrc: u32, out: &mut [u8]) -> i64
    ensures { WritesLabel form label.now ssrc out.old result out.new }
{
    capi::blocks::flasknib_write_label(form, label, ssrc, out)
}

// Writes block 0 again with its label spaced. Gives the number of bytes replaced, or minus refusal 1, 13 or 14, or 12 with its size.
#[unsafe(no_mangle)]
pub extern "C" fn flasknib_space_label(zeroth: &[u8], out: &mut [u8]) -> i64
    ensures { SpacesLabel zeroth.now out.old result out.new }
{
    capi::blocks::flasknib_space_label(zeroth, out)
}

// Writes an arrivals block of form 1 or 2. Gives its length, or minus refusal 10 or 12.
#[unsafe(no_mangle)]
pub extern "C" fn flasknib_write_arrivals(
    form: u8,
    times: &[u64],
    numbers: &[u16],
    marks: &[u8],
    ssrc: u32,
    out: &mut [u8],
) -> i64
    ensures { WritesArrivals form times.now numbers.now marks.now ssrc out.old result out.new }
{
    capi::blocks::flasknib_write_arrivals(form, times, numbers, marks, ssrc, out)
}

// Writes an arrivals block from the bytes of its records. Gives its length, or minus refusal 10, or 12 with its size.
#[unsafe(no_mangle)]
pub extern "C" fn flasknib_write_records(form: u8, records: &[u8], ssrc: u32, out: &mut [u8]) -> i64
    ensures { WritesRecords form records.now ssrc out.old result out.new }
{
    capi::blocks::flasknib_write_records(form, records, ssrc, out)
}
