// One turn of the reader: an item of a list, and what stands behind it.
ghost use Rattle.std.specs.Prelude.{◌≡◌, ◌+◌, ◌≤◌, ◌<◌, length};
ghost use Rattle.sdp.specs.declared.steps.Found.TheVariants.{More};
ghost use Rattle.sdp.specs.Steps.{spelled, begins, method_item, mode_item, ect_item, parm_item, step, no_step, last_step, behind_method, behind_parm, parm_value, Stands};

use crate::fronts::{byte_at, lower, token_end, value_end};
use crate::{Ect, Method, Mode};

// The list that is read.
#[derive(Clone, Copy, PartialEq, Eq)]
pub enum Part {
    Methods,
    Parms,
}

// What an item says; nothing where it is none.
#[derive(Clone, Copy)]
pub enum Item {
    Known(Method),
    Mode(Mode),
    Ect(Ect),
    Other,
    Nothing,
}

#[derive(Clone, Copy)]
pub enum Found {
    Nothing,
    Last,
    More,
}

// An item, and the list and the place of the next.
#[derive(Clone, Copy)]
pub struct Step {
    pub found: Found,
    pub item: Item,
    pub part: Part,
    pub at: usize,
}

// Whether s is the literal `text`, in either case.
fn is_spelled(text: &[u8], s: &[u8]) -> bool
    ensures { result ≡ spelled text.now s.now }
{
    if s.len() != text.len() {
        return false;
    }
    for (i, c) in s.iter().enumerate() {
        if lower(*c) != text[i] {
            return false;
        }
    }
    true
}

// Whether a line begins with the attribute's name and a space.
#[tactic(auto, using(std::proofs::lemmas::Bool::Decides::nat_tests), unfolding(crate::specs::Steps::begins))]
pub fn is_attribute(line: &[u8]) -> bool
    ensures { result ≡ begins line.now }
{
    if line.len() < 19 {
        return false;
    }
    if line[18] != b' ' {
        return false;
    }
    let end = 18;
    is_spelled(b"a=ecn-capable-rtp:", &line[..end])
}

// Three tables of spellings. Each stays a function: a table of lent texts would need a contract of its own, longer than these lines.
#[tactic(auto, using(std::proofs::lemmas::Bool::Decides::nat_tests), unfolding(crate::specs::Steps::method_item))]
fn method_item(s: &[u8]) -> Item
    ensures { result ≡ method_item s.now }
{
    if is_spelled(b"rtp", s) {
        return Item::Known(Method::Rtp);
    }
    if is_spelled(b"ice", s) {
        return Item::Known(Method::Ice);
    }
    if is_spelled(b"leap", s) {
        return Item::Known(Method::Leap);
    }
    Item::Other
}

#[tactic(auto, using(std::proofs::lemmas::Bool::Decides::nat_tests), unfolding(crate::specs::Steps::mode_item))]
fn mode_item(value: &[u8]) -> Item
    ensures { result ≡ mode_item value.now }
{
    if is_spelled(b"setonly", value) {
        return Item::Mode(Mode::SetOnly);
    }
    if is_spelled(b"setread", value) {
        return Item::Mode(Mode::SetRead);
    }
    if is_spelled(b"readonly", value) {
        return Item::Mode(Mode::ReadOnly);
    }
    Item::Nothing
}

#[tactic(auto, using(std::proofs::lemmas::Bool::Decides::nat_tests), unfolding(crate::specs::Steps::ect_item))]
fn ect_item(value: &[u8]) -> Item
    ensures { result ≡ ect_item value.now }
{
    if is_spelled(b"0", value) {
        return Item::Ect(Ect::Zero);
    }
    if is_spelled(b"1", value) {
        return Item::Ect(Ect::One);
    }
    if is_spelled(b"random", value) {
        return Item::Ect(Ect::Random);
    }
    Item::Nothing
}

// What a parameter says. A mode or an ect with any other value is none.
#[tactic(auto, using(std::proofs::lemmas::Bool::Decides::nat_tests), unfolding(crate::specs::Steps::parm_item))]
fn parm_item(name: &[u8], value: &[u8]) -> Item
    ensures { result ≡ parm_item name.now value.now }
{
    if is_spelled(b"mode", name) {
        return mode_item(value);
    }
    if is_spelled(b"ect", name) {
        return ect_item(value);
    }
    Item::Other
}

fn no_step() -> Step
    ensures { result ≡ no_step }
{
    Step {
        found: Found::Nothing,
        item: Item::Nothing,
        part: Part::Methods,
        at: 0,
    }
}

fn last_step(item: Item) -> Step
    ensures { result ≡ last_step item }
{
    Step {
        found: Found::Last,
        item,
        part: Part::Methods,
        at: 0,
    }
}

fn more(item: Item, part: Part, at: usize) -> Step
    ensures { result ≡ step More item part at }
{
    Step {
        found: Found::More,
        item,
        part,
        at,
    }
}

// What stands behind a method: the end, a comma or the space before the parameters.
#[tactic(auto, using(std::proofs::lemmas::Bool::Decides::nat_tests), unfolding(crate::specs::Steps::behind_method))]
fn behind_method(line: &[u8], at: usize, item: Item) -> Step
    requires { length line.now ≤ 255 }
    ensures { result ≡ behind_method line.now at item }
{
    match line.get(at) {
        None => last_step(item),
        Some(b',') => more(item, Part::Methods, at + 1),
        Some(b' ') => more(item, Part::Parms, at + 1),
        Some(_) => no_step(),
    }
}

// What stands behind a parameter: the end, or a semicolon and a space.
#[tactic(auto, using(std::proofs::lemmas::Bool::Decides::nat_tests), unfolding(crate::specs::Steps::behind_parm))]
fn behind_parm(line: &[u8], at: usize, item: Item) -> Step
    requires { length line.now ≤ 255 }
    ensures { result ≡ behind_parm line.now at item }
{
    match line.get(at) {
        None => last_step(item),
        Some(b';') if byte_at(line, at + 1) == b' ' => more(item, Part::Parms, at + 2),
        Some(_) => no_step(),
    }
}

// A method at a place.
fn method_step(line: &[u8], at: usize) -> Step
    requires { (length line.now ≤ 255) × (at ≤ length line.now) }
    ensures { Stands Part.Methods line.now at result }
{
    let end = token_end(line, at);
    if end == at {
        return no_step();
    }
    behind_method(line, end, method_item(&line[at..end]))
}

// The parameter whose name runs to a place, which is behind its start.
#[tactic(auto, using(std::proofs::lemmas::Bool::Decides::nat_tests), unfolding(crate::specs::Steps::parm_value))]
fn parm_value(line: &[u8], at: usize, name: usize) -> Step
    requires { (length line.now ≤ 255) × (at ≤ name) × (name < length line.now) }
    ensures { result ≡ parm_value line.now at name }
{
    let value = name + 1;
    let end = value_end(line, value);
    if end <= value {
        return no_step();
    }
    match parm_item(&line[at..name], &line[value..end]) {
        Item::Nothing => no_step(),
        item => behind_parm(line, end, item),
    }
}

// A parameter at a place.
fn parm_step(line: &[u8], at: usize) -> Step
    requires { (length line.now ≤ 255) × (at ≤ length line.now) }
    ensures { Stands Part.Parms line.now at result }
{
    let name = token_end(line, at);
    if name == at {
        return no_step();
    }
    if byte_at(line, name) != b'=' {
        return no_step();
    }
    parm_value(line, at, name)
}

// An item of a list at a place.
pub fn step_at(line: &[u8], at: usize, part: Part) -> Step
    requires { (length line.now ≤ 255) × (at ≤ length line.now) }
    ensures { Stands part line.now at result }
{
    match part {
        Part::Methods => method_step(line, at),
        Part::Parms => parm_step(line, at),
    }
}
