// Compound RTCP for C.
ghost use Rattle.capi.specs.CompoundCalls.{ReadsCompound};

// Reads a compound by the profile 0, RFC 3550's, or 1, which takes reduced-size ones too. Gives 0 and 25 words at the front of `found`, or the
// refusal, 10 for another profile before all others; 12 where `found` has fewer words.
#[unsafe(no_mangle)]
pub extern "C" fn flasknib_read_compound(
    bytes: &[u8],
    media: u32,
    profile: u8,
    found: &mut [u64],
) -> u8
    ensures { ReadsCompound bytes.now media profile found.old result found.new }
{
    capi::compound::flasknib_read_compound(bytes, media, profile, found)
}
