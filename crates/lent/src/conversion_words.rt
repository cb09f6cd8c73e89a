// A conversion of ecnforms as 3 words: the trace's own form, its SSRC, and how many records are held.
ghost use Rattle.std.specs.Prelude.{◌≡◌};
ghost use Rattle.std.proofs.lemmas.List.Edits.{sets};
ghost use Rattle.lent.specs.ConversionWords.{loaded, conversion_words};

use crate::access::{put_all, word_at};
use crate::form_words::{form_of, is_form, number_of};
use forms::Conversion;

// The words of a conversion.
pub const WORDS: usize = 3;

// An SSRC is below this.
const NUMBERS: u64 = 0x1_0000_0000;

// The conversion in 3 words; another number of them, another form and an SSRC past 32 bits are no conversion's.
pub fn load(words: &[u64]) -> Option<Conversion>
    ensures { result ≡ loaded words.now }
{
    if words.len() != WORDS {
        return None;
    }
    let number = word_at(words, 0);
    if !is_form(number) {
        return None;
    }
    let ssrc = word_at(words, 1);
    if NUMBERS <= ssrc {
        return None;
    }
    let form = form_of(number);
    let held = word_at(words, 2);
    Some(Conversion {
        form,
        ssrc: ssrc as u32,
        held: held as usize,
    })
}

// Stores the words of a conversion, as far as there are places.
pub fn store(c: Conversion, words: &mut [u64])
    ensures { words.new ≡ sets words.old 0 (conversion_words c) }
{
    let form = c.form;
    let new = [number_of(form), c.ssrc as u64, c.held as u64];
    put_all(&new, words, 0);
}
