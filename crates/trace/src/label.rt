// A trace's label.
ghost use Rattle.std.specs.Prelude.{◌≡◌, if◌then◌else◌};
ghost use Rattle.trace.specs.Contents.{label_ok};
ghost use Rattle.trace.specs.Retired.{retired, retired_in};

use crate::contents::all_allowed;
use format::block::BODY_BYTES;

// Whether s can be a label: at most 502 bytes, each 32 to 126, 10 or 13.
pub fn is_label(s: &[u8]) -> bool
    ensures { result ≡ label_ok s.now }
{
    if BODY_BYTES < s.len() {
        return false;
    }
    all_allowed(s)
}

// 1 for a retired byte, else 0.
fn is_retired(c: u8) -> usize
    ensures { result ≡ (if retired c then 1 else 0) }
{
    match c {
        10 | 13 => 1,
        _ => 0,
    }
}

// How many bytes of a label are retired.
pub fn retired_in(label: &[u8]) -> usize
    ensures { result ≡ retired_in label.now }
{
    let mut number: usize = 0;
    let mut i = 0;
    while i < label.len() {
        number += is_retired(label[i]);
        i += 1;
    }
    number
}
