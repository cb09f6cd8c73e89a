// Lent words, with no place assumed: a word past the end reads 0 and is not stored.
ghost use Rattle.std.specs.Prelude.{◌≡◌, ◌+◌, ◌≤◌, ◌^◌, length, get_or, set};
ghost use Rattle.std.proofs.lemmas.List.Edits.{sets};
ghost use Rattle.numbers.specs.Integers.{modulo};
ghost use Rattle.numbers.specs.Since.{signed};

// The word at `at`.
pub fn word_at(words: &[u64], at: usize) -> u64
    ensures { result ≡ get_or words.now at 0 }
{
    if at < words.len() {
        return words[at];
    }
    0
}

// Stores x at `at`.
pub fn put(x: u64, words: &mut [u64], at: usize)
    ensures { words.new ≡ set words.old at x }
{
    if at < words.len() {
        words[at] = x;
    }
}

// Stores the words of `new` from `at` on.
pub fn put_all(new: &[u64], words: &mut [u64], at: usize)
    requires { at + length new.now ≤ 2 ^ 32 }
    ensures { words.new ≡ sets words.old at new.now }
{
    let mut i: usize = 0;
    while i < new.len() {
        put(new[i], words, at + i);
        i += 1;
    }
}

// The number that a word is the two's complement of.
pub fn number(word: u64) -> i64
    ensures { result ≡ signed 64 word }
{
    if word < 0x8000_0000_0000_0000 {
        return word as i64;
    }
    let below = (0xffff_ffff_ffff_ffff - word) as i64;
    -1 - below
}

// The two's complement of a number.
pub fn complement(z: i64) -> u64
    ensures { result ≡ modulo (2 ^ 64) z }
{
    if z < 0 {
        let below = (-(z + 1)) as u64;
        return 0xffff_ffff_ffff_ffff - below;
    }
    z as u64
}
