// Compound RTCP for C.
ghost use Rattle.std.specs.Prelude.{◌≡◌};
ghost use Rattle.capi.specs.CompoundCalls.{profile_of, reading_by, ReadsCompound};

use answers::{ROOM, Refusal};
use lent::compound_words;
use rtcp::{Compound, Profile};

// The profile of 1, or of 0.
fn profile_of(number: u8) -> Profile
    ensures { result ≡ profile_of number }
{
    if number == 1 {
        return Profile::ReducedSize;
    }
    Profile::Compound
}

// What the compound in `bytes` says of the source `media`; a profile above 1 is refused with 10.
fn read_by(bytes: &[u8], media: u32, profile: u8) -> Result<Compound, Refusal>
    ensures { result ≡ reading_by profile bytes.now media }
{
    if 1 < profile {
        return Err(Refusal::Limits);
    }
    rtcp::read_compound(bytes, media, profile_of(profile))
}

// Reads a compound by the profile 0, RFC 3550's, or 1, which takes reduced-size ones too. Gives 0 and 25 words at the front of `found`, or the
// refusal, 10 for another profile before all others; 12 where `found` has fewer words.
pub fn flasknib_read_compound(bytes: &[u8], media: u32, profile: u8, found: &mut [u64]) -> u8
    ensures { ReadsCompound bytes.now media profile found.old result found.new }
{
    match read_by(bytes, media, profile) {
        Err(refusal) => refusal.number(),
        Ok(c) => {
            if found.len() < compound_words::WORDS {
                return ROOM;
            }
            compound_words::store(c, found);
            0
        }
    }
}
