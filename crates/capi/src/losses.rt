// The packets lost of one source.
ghost use Rattle.capi.specs.OneSource.{TellsLost};

use answers::ROOM;
use lent::lost_words;
use lent::source_words::load;

// The packets lost. Gives 0 and 1 word at the front of `found`, or refusal 9, or 12 where `found` has no word.
pub fn flasknib_lost(words: &[u64], found: &mut [u64]) -> u8
    ensures { TellsLost words.now found.old result found.new }
{
    let Some(source) = load(words) else {
        return 9;
    };
    match source.lost() {
        Ok(lost) => {
            if found.len() < lost_words::WORDS {
                return ROOM;
            }
            lost_words::store(lost, found);
            0
        }
        Err(refusal) => refusal.number(),
    }
}
