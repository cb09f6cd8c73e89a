// A line is read: RFC 6679, section 6.1, figure 5; document 02, request L12.
ghost use Rattle.std.specs.Prelude.{◌≡◌};
ghost use Rattle.sdp.specs.Reading.{Reads};
ghost use Rattle.sdp.specs.Tallies.{with_item, no_tally, noted, Small, finished};

use crate::Attribute;
use crate::steps::{Found, Item, Part, is_attribute, step_at};
use answers::Refusal;

// The items passed, and the record so far. A line over the limits may still be malformed, so every item is counted to the end.
#[derive(Clone, Copy)]
pub struct Tally {
    pub methods: usize,
    pub parms: usize,
    pub modes: usize,
    pub ects: usize,
    pub attribute: Attribute,
}

// The record with one item more; the first of two modes or ects stays.
fn with_item(a: Attribute, item: Item) -> Attribute
    ensures { result ≡ with_item a item }
{
    match item {
        Item::Known(m) => a.with_method(m),
        Item::Mode(m) => Attribute {
            mode: a.mode.or(Some(m)),
            ..a
        },
        Item::Ect(e) => Attribute {
            ect: a.ect.or(Some(e)),
            ..a
        },
        Item::Other | Item::Nothing => a,
    }
}

fn no_tally() -> Tally
    ensures { result ≡ no_tally }
{
    Tally {
        methods: 0,
        parms: 0,
        modes: 0,
        ects: 0,
        attribute: Attribute::empty(),
    }
}

// One item of a list more.
#[tactic(auto, unfolding(crate::specs::Tallies::noted))]
fn noted(t: Tally, part: Part, item: Item) -> Tally
    requires { Small t 255 }
    ensures { result ≡ noted t part item }
{
    Tally {
        methods: t.methods + usize::from(part == Part::Methods),
        parms: t.parms + usize::from(part == Part::Parms),
        modes: t.modes + usize::from(matches!(item, Item::Mode(_))),
        ects: t.ects + usize::from(matches!(item, Item::Ect(_))),
        attribute: with_item(t.attribute, item),
    }
}

// What a line of these items is.
#[tactic(auto, using(std::proofs::lemmas::Bool::Decides::nat_tests), unfolding(crate::specs::Tallies::finished))]
fn finished(t: Tally) -> Result<Attribute, Refusal>
    ensures { result ≡ finished t }
{
    if 1 < t.modes || 1 < t.ects {
        return Err(Refusal::Attribute);
    }
    if 8 < t.methods || 8 < t.parms {
        return Err(Refusal::Limits);
    }
    Ok(t.attribute)
}

// What a line says, from `a=` to before its CR LF. 10 over 255 bytes; 18 where it is not well formed; 10 over 8 methods or 8 parameters, unknown ones counted.
pub fn read(line: &[u8]) -> Result<Attribute, Refusal>
    ensures { Reads line.now result }
{
    if 255 < line.len() {
        return Err(Refusal::Limits);
    }
    if !is_attribute(line) {
        return Err(Refusal::Attribute);
    }
    let mut part = Part::Methods;
    let mut tally = no_tally();
    let mut at = 19;
    while at < line.len() {
        let step = step_at(line, at, part);
        tally = noted(tally, part, step.item);
        match step.found {
            Found::Nothing => return Err(Refusal::Attribute),
            Found::Last => return finished(tally),
            Found::More => {}
        }
        at = step.at;
        part = step.part;
    }
    Err(Refusal::Attribute)
}
