// What stands at a place of a line: a token, a character of a quoted string, a value. A byte past the end reads as 0, which no rule takes.
ghost use Rattle.std.specs.Prelude.{◌≡◌, ◌+◌, ◌≤◌, length, get_or};
ghost use Rattle.std.specs.List.{take_while};
ghost use Rattle.sdp.specs.Grammar.{token_char, quotable, tail, lower};
ghost use Rattle.sdp.specs.Lengths.{lead_of, utf8_size, utf8_length, qd_length, closes, token_end, value_end};

pub fn byte_at(line: &[u8], at: usize) -> u8
    ensures { result ≡ get_or line.now at 0 }
{
    line.get(at).copied().unwrap_or(0)
}

// c in lower case.
#[tactic(auto, using(std::proofs::lemmas::Bool::Decides::nat_tests), unfolding(crate::specs::Grammar::lower))]
pub fn lower(c: u8) -> u8
    ensures { result ≡ lower c }
{
    match c {
        b'A'..=b'Z' => c + 32,
        _ => c,
    }
}

// Whether c may stand in a token.
#[tactic(auto, using(std::proofs::lemmas::Bool::Decides::nat_tests), unfolding(crate::specs::Grammar::token_char))]
fn is_token_char(c: u8) -> bool
    ensures { result ≡ token_char c }
{
    matches!(c, 33 | 35..=39 | 42..=43 | 45..=46 | 48..=57 | 65..=90 | 94..=126)
}

// Whether c may stand in a quoted string as it is.
#[tactic(auto, using(std::proofs::lemmas::Bool::Decides::nat_tests), unfolding(crate::specs::Grammar::quotable))]
fn is_quotable(c: u8) -> bool
    ensures { result ≡ quotable c }
{
    matches!(c, 32..=33 | 35..=91 | 93..=126)
}

// Whether c may stand in a character behind its second byte.
#[tactic(auto, using(std::proofs::lemmas::Bool::Decides::nat_tests), unfolding(crate::specs::Grammar::tail))]
fn is_tail(c: u8) -> bool
    ensures { result ≡ tail c }
{
    matches!(c, 128..=191)
}

// How many bytes the longest token at the front of s has.
fn token_length(s: &[u8]) -> usize
    ensures { result ≡ length (take_while token_char s.now) }
{
    s.iter().take_while(|c| is_token_char(**c)).count()
}

// The place behind the longest token from a place on.
pub fn token_end(line: &[u8], at: usize) -> usize
    requires { at ≤ length line.now }
    ensures { result ≡ token_end line.now at }
{
    at + token_length(&line[at..])
}

// What the first byte of a UTF-8 character says: its bytes, and the bounds of the second.
#[derive(Clone, Copy)]
pub struct Lead {
    pub size: usize,
    pub least: u8,
    pub most: u8,
}

#[tactic(auto, using(std::proofs::lemmas::Bool::Decides::nat_tests), unfolding(crate::specs::Lengths::lead_of))]
fn lead_of(a: u8) -> Lead
    ensures { result ≡ lead_of a }
{
    let (size, least, most) = match a {
        194..=223 => (2, 128, 191),
        224 => (3, 160, 191),
        237 => (3, 128, 159),
        225..=239 => (3, 128, 191),
        240 => (4, 144, 191),
        241..=243 => (4, 128, 191),
        244 => (4, 128, 143),
        _ => (0, 1, 0),
    };
    Lead { size, least, most }
}

// The size of a character whose second byte is in the bounds and whose others are tails, else 0.
#[tactic(auto, using(std::proofs::lemmas::Bool::Decides::nat_tests), unfolding(crate::specs::Lengths::utf8_size))]
fn utf8_size(lead: Lead, b: u8, c: u8, d: u8) -> usize
    ensures { result ≡ utf8_size lead b c d }
{
    let is_second = lead.least <= b && b <= lead.most;
    if is_second && (lead.size <= 2 || is_tail(c)) && (lead.size <= 3 || is_tail(d)) {
        lead.size
    } else {
        0
    }
}

// How many bytes the UTF-8 character at a place has; 0 where there is none of two to four.
#[tactic(auto, unfolding(crate::specs::Lengths::utf8_length))]
fn utf8_length(line: &[u8], at: usize) -> usize
    requires { at ≤ 255 }
    ensures { result ≡ utf8_length line.now at }
{
    utf8_size(
        lead_of(byte_at(line, at)),
        byte_at(line, at + 1),
        byte_at(line, at + 2),
        byte_at(line, at + 3),
    )
}

// How many bytes the part of a quoted string at a place has; 0 where there is none.
#[tactic(auto, using(std::proofs::lemmas::Bool::Decides::nat_tests), unfolding(crate::specs::Lengths::qd_length))]
fn qd_length(line: &[u8], at: usize) -> usize
    requires { at ≤ 255 }
    ensures { result ≡ qd_length line.now at }
{
    match byte_at(line, at) {
        c if is_quotable(c) => 1,
        b'\\' if matches!(byte_at(line, at + 1), b'\\' | b'"') => 2,
        b'\\' => 0,
        _ => utf8_length(line, at),
    }
}

// The place behind the closing quote of a string whose rest begins at a place; 0 where it is not closed.
fn string_end(line: &[u8], from: usize) -> usize
    requires { length line.now ≤ 255 }
    ensures { result ≡ closes (length line.now) line.now from }
{
    // A loop with a step of its own: a part has one to four bytes.
    let mut at = from;
    while at < line.len() {
        if line[at] == b'"' {
            return at + 1;
        }
        let n = qd_length(line, at);
        if n == 0 {
            return 0;
        }
        at += n;
    }
    0
}

// The place behind a value; 0 or the place itself where there is none.
pub fn value_end(line: &[u8], at: usize) -> usize
    requires { (length line.now ≤ 255) × (at ≤ length line.now) }
    ensures { result ≡ value_end line.now at }
{
    if byte_at(line, at) == b'"' {
        return string_end(line, at + 1);
    }
    token_end(line, at)
}
