// The packets lost of one source.
ghost use Rattle.capi.specs.OneSource.{TellsLost};

// The packets lost. Gives 0 and 1 word at the front of `found`, or refusal 9, or 12 where `found` has no word.
#[unsafe(no_mangle)]
pub extern "C" fn flasknib_lost(words: &[u64], found: &mut [u64]) -> u8
    ensures { TellsLost words.now found.old result found.new }
{
    capi::losses::flasknib_lost(words, found)
}
