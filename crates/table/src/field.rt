// A text as a field of a line.
ghost use Rattle.std.specs.Prelude.{◌≡◌, true, ◌+◌, ◌-◌, ◌≤◌, length};
ghost use Rattle.std.proofs.lemmas.List.Edits.{sets};
ghost use Rattle.table.specs.Field.{special, any_special, doubled_byte, doubled, as_field};

use answers::copy::put_bytes;

// Whether c is a comma, double quote, CR or LF.
#[tactic(auto, using(std::proofs::lemmas::Bool::Decides::nat_tests), unfolding(crate::specs::Field::special))]
fn is_special(c: u8) -> bool
    ensures { result ≡ special c }
{
    matches!(c, 10 | 13 | 34 | 44)
}

// Whether any byte of s is one of these.
fn has_special(s: &[u8]) -> bool
    ensures { result ≡ any_special s.now }
{
    s.iter().any(|c| is_special(*c))
}

// The length of c between double quotes.
#[tactic(auto, using(std::proofs::lemmas::Bool::Decides::nat_tests), unfolding(crate::specs::Field::doubled_byte))]
fn byte_length(c: u8) -> usize
    ensures { result ≡ length (doubled_byte c) }
{
    if c == b'"' { 2 } else { 1 }
}

// The length of s between double quotes.
fn inner_length(s: &[u8]) -> usize
    ensures { result ≡ length (doubled s.now) }
{
    let mut count: usize = 0;
    for c in s {
        count += byte_length(*c);
    }
    count
}

// The length of s as a field.
pub fn field_length(s: &[u8]) -> usize
    requires { length s.now ≤ 502 }
    ensures { result ≡ length (as_field s.now) }
{
    if !has_special(s) {
        return s.len();
    }
    inner_length(s) + 2
}

// Stores c, as it stands between double quotes, in out at a place, and answers the place behind it.
fn put_byte(c: u8, out: &mut [u8], at: usize) -> usize
    requires { at + length (doubled_byte c) ≤ length out.old }
    ensures value { result ≡ at + length (doubled_byte c) }
    ensures written { out.new ≡ sets out.old at (doubled_byte c) }
{
    out[at] = c;
    if c == b'"' {
        out[at + 1] = c;
        return at + 2;
    }
    at + 1
}

// Stores s, as it stands between double quotes, in out from a place on.
fn put_inner(s: &[u8], out: &mut [u8], at: usize) -> usize
    requires { at + length (doubled s.now) ≤ length out.old }
    ensures value { result ≡ at + length (doubled s.now) }
    ensures written { out.new ≡ sets out.old at (doubled s.now) }
{
    let mut place = at;
    for c in s {
        place = put_byte(*c, out, place);
    }
    place
}

// Stores s between double quotes at the front of out.
fn put_quoted(s: &[u8], out: &mut [u8])
    requires { (any_special s.now ≡ true) × (length (as_field s.now) ≤ length out.old) }
    ensures { out.new ≡ sets out.old 0 (as_field s.now) }
{
    out[0] = b'"';
    let end = put_inner(s, out, 1);
    out[end] = b'"';
}

// Stores s as a field of the given length at the front of out. (A field in quotes is longer than its text.)
pub fn put_field(s: &[u8], long: usize, out: &mut [u8])
    requires { (long ≡ length (as_field s.now)) × (long ≤ length out.old) }
    ensures { out.new ≡ sets out.old 0 (as_field s.now) }
{
    if long == s.len() {
        put_bytes(s, out, 0);
        return;
    }
    put_quoted(s, out);
}
