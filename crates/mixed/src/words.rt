// A line in 13 words: the SSRC, the 10 words of the source's record, jumped and restarts.
ghost use Rattle.std.specs.Prelude.{◌≡◌, ◌+◌, ◌-◌, ◌*◌, ◌≤◌, length, take, drop};
ghost use Rattle.std.proofs.lemmas.List.Edits.{sets};
ghost use Rattle.mixed.specs.Lines.{line_words, totals_in};

use lent::source_words;
use source::Totals;

// The words of a line.
pub const WORDS: usize = 13;

// The totals in the words of a line.
pub fn load(line: &[u64]) -> Option<Totals>
    requires { length line.now ≡ 13 }
    ensures { result ≡ totals_in line.now }
{
    let jumped = line[11];
    let restarts = line[12];
    if Totals::MOST < jumped {
        return None;
    }
    if Totals::MOST < restarts {
        return None;
    }
    let source = source_words::load(&line[1..11])?;
    if !source.is_sound() {
        return None;
    }
    Some(Totals {
        source,
        jumped,
        restarts,
    })
}

// Stores a line in 13 words.
pub fn store(ssrc: u32, totals: Totals, line: &mut [u64])
    requires { length line.old ≡ 13 }
    ensures { line.new ≡ line_words ssrc totals }
{
    line[0] = ssrc as u64;
    source_words::store(totals.source, &mut line[1..]);
    line[11] = totals.jumped;
    line[12] = totals.restarts;
}

// Moves the lines from one on, of n, behind it: its words stay as they were.
pub fn push(lines: &mut [u64], at: usize, n: usize)
    requires { (at ≤ n) × (n ≤ 15) × (13 * (n + 1) ≤ length lines.old) }
    ensures { lines.new ≡ sets lines.old (13 * (at + 1)) (take (13 * (n - at)) (drop (13 * at) lines.old)) }
{
    lines.copy_within(WORDS * at..WORDS * n, WORDS * (at + 1));
}
