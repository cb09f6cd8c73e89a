// A line is written: document 02, request L12.
ghost use Rattle.std.specs.Prelude.{◌≡◌, ◌++◌, ◌+◌, ◌≤◌, length};
ghost use Rattle.std.proofs.lemmas.List.Edits.{sets};
ghost use Rattle.answers.specs.Writers.{Wrote};
ghost use Rattle.sdp.specs.Grammar.{method_text, mode_text, ect_text};
ghost use Rattle.sdp.specs.Writing.{methods_in, with_commas, with_parms, attribute_bytes, write_fault};
ghost use Rattle.sdp.specs.Texts.{text_in, Room, Grown};

use crate::{Attribute, Ect, Method, Mode};
use answers::copy::put_bytes;
use answers::{Refusal, Unwritten};

// The line while it is made: the first `long` bytes. Fixed memory: there is no heap, and a line has at most 84 bytes.
#[derive(Clone, Copy)]
pub struct Text {
    pub long: usize,
    pub bytes: [u8; 96],
}

// With the bytes of s behind it.
fn with(t: Text, s: &[u8]) -> Text
    requires { Room t (length s.now) }
    ensures { Grown t result s.now }
{
    let long = t.long + s.len();
    let mut bytes = t.bytes;
    bytes[t.long..long].copy_from_slice(s);
    Text { long, bytes }
}

fn with_method(t: Text, m: Method) -> Text
    requires { Room t 4 }
    ensures grown { Grown t result (method_text m) }
    ensures bounded { result.long ≤ t.long + 4 }
{
    match m {
        Method::Rtp => with(t, b"rtp"),
        Method::Ice => with(t, b"ice"),
        Method::Leap => with(t, b"leap"),
    }
}

fn with_mode(t: Text, m: Mode) -> Text
    requires { Room t 13 }
    ensures grown { Grown t result (mode_text m) }
    ensures bounded { result.long ≤ t.long + 13 }
{
    match m {
        Mode::SetOnly => with(t, b"mode=setonly"),
        Mode::SetRead => with(t, b"mode=setread"),
        Mode::ReadOnly => with(t, b"mode=readonly"),
    }
}

fn with_ect(t: Text, e: Ect) -> Text
    requires { Room t 10 }
    ensures { Grown t result (ect_text e) }
{
    match e {
        Ect::Zero => with(t, b"ect=0"),
        Ect::One => with(t, b"ect=1"),
        Ect::Random => with(t, b"ect=random"),
    }
}

// The methods with commas between.
fn with_methods(t: Text, a: Attribute) -> Text
    requires { (1 ≤ a.used) × (a.used ≤ 8) × Room t 40 }
    ensures { Grown t result (with_commas (methods_in a)) }
{
    let mut text = with_method(t, a.methods[0]);
    for &m in &a.methods[1..a.used] {
        text = with_method(with(text, b","), m);
    }
    text
}

// The parameters: the mode before the ect.
fn with_parms(t: Text, mode: Option<Mode>, ect: Option<Ect>) -> Text
    requires { Room t 26 }
    ensures { Grown t result (with_parms mode ect) }
{
    match (mode, ect) {
        (None, None) => t,
        (None, Some(e)) => with_ect(with(t, b" "), e),
        (Some(m), None) => with_mode(with(t, b" "), m),
        (Some(m), Some(e)) => with_ect(with(with_mode(with(t, b" "), m), b"; "), e),
    }
}

// The line of a record of one to eight methods.
fn text_of(a: Attribute) -> Text
    requires { (1 ≤ a.used) × (a.used ≤ 8) }
    ensures numbered { text_in result ≡ attribute_bytes a }
    ensures counted { (result.long ≡ length (attribute_bytes a)) × (result.long ≤ 96) }
{
    let none = Text {
        long: 0,
        bytes: [0u8; 96],
    };
    let name = with(none, b"a=ecn-capable-rtp: ");
    let methods = with_methods(name, a);
    with_parms(methods, a.mode, a.ect)
}

// Stores a text at the front of out.
fn put_text(t: Text, out: &mut [u8])
    requires { t.long ≤ 96 }
    ensures { out.new ≡ sets out.old 0 (text_in t) }
{
    put_bytes(&t.bytes[..t.long], out, 0);
}

// Writes the line of a record at the front of out: the methods, then the mode, then the ect. 10 with no method or over 8; 12 with its size.
pub fn write(attribute: Attribute, out: &mut [u8]) -> Result<usize, Unwritten>
    ensures { Wrote (write_fault attribute) (attribute_bytes attribute) out.old result out.new }
{
    if attribute.used == 0 || 8 < attribute.used {
        return Err(Unwritten::Refused(Refusal::Limits));
    }
    let text = text_of(attribute);
    if out.len() < text.long {
        return Err(Unwritten::Room(text.long));
    }
    put_text(text, out);
    Ok(text.long)
}
