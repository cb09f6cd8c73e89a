// Where an SSRC stands among the lines.
ghost use Rattle.std.specs.Prelude.{◌≡◌, ◌*◌, ◌≤◌, length};
ghost use Rattle.mixed.specs.Lines.{lines_in, ssrc_in};
ghost use Rattle.mixed.specs.Places.{place_by, lower_by};

use crate::words::WORDS;

// The first of n lines that has an SSRC; n where none has.
pub fn find(lines: &[u64], n: usize, ssrc: u32) -> usize
    requires { (n ≤ 16) × (13 * n ≤ length lines.now) }
    ensures { (result ≡ place_by ssrc_in ssrc (lines_in n lines.now)) × (result ≤ n) }
{
    let sought = ssrc as u64;
    for i in 0..n {
        if lines[WORDS * i] == sought {
            return i;
        }
    }
    n
}

// How many of n lines, in front, have a lower SSRC.
pub fn lower(lines: &[u64], n: usize, ssrc: u32) -> usize
    requires { (n ≤ 16) × (13 * n ≤ length lines.now) }
    ensures { (result ≡ lower_by ssrc_in ssrc (lines_in n lines.now)) × (result ≤ n) }
{
    let sought = ssrc as u64;
    for i in 0..n {
        if sought <= lines[WORDS * i] {
            return i;
        }
    }
    n
}
