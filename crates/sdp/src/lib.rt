// The SDP attribute ecn-capable-rtp (RFC 6679, section 6.1; document 02, request L12): its types. `reader` reads a line, `writer` writes one, `answerer`
// answers an offer.
#![tactic(auto)]

ghost use Rattle.std.specs.Prelude.{◌≡◌};
ghost use Rattle.sdp.specs.Reading.{nothing};
ghost use Rattle.sdp.specs.Answers.{with_method, answered};

pub mod answerer;
mod fronts;
pub mod reader;
mod steps;
pub mod writer;

// An initiation method.
#[derive(Clone, Copy, PartialEq, Eq)]
pub enum Method {
    Rtp,
    Ice,
    Leap,
}

// What an endpoint can do with ECN marks.
#[derive(Clone, Copy, PartialEq, Eq)]
pub enum Mode {
    SetOnly,
    SetRead,
    ReadOnly,
}

// The ECT marking that a receiver prefers.
#[derive(Clone, Copy, PartialEq, Eq)]
pub enum Ect {
    Zero,
    One,
    Random,
}

// What an attribute says: the first `used` methods, most wanted first; the places behind them say nothing. Fixed memory: there is no heap.
#[derive(Clone, Copy)]
pub struct Attribute {
    pub used: usize,
    pub methods: [Method; 8],
    pub mode: Option<Mode>,
    pub ect: Option<Ect>,
}

// What an answer carries.
#[derive(Clone, Copy)]
pub struct Chosen {
    pub method: Method,
    pub mode: Option<Mode>,
    pub ect: Option<Ect>,
}

impl Attribute {
    // No method, no mode and no ect.
    pub fn empty() -> Attribute
        ensures { result ≡ nothing }
    {
        Attribute {
            used: 0,
            methods: [Method::Rtp; 8],
            mode: None,
            ect: None,
        }
    }

    // With one method more, behind the others; unchanged where eight or more are used.
    pub fn with_method(self, m: Method) -> Attribute
        ensures { result ≡ with_method self m }
    {
        if 8 <= self.used {
            return self;
        }
        let mut methods = self.methods;
        methods[self.used] = m;
        Attribute {
            used: self.used + 1,
            methods,
            ..self
        }
    }
}

impl Chosen {
    // What is answered, as `write` takes it.
    pub fn attribute(self) -> Attribute
        ensures { result ≡ answered self }
    {
        Attribute {
            mode: self.mode,
            ect: self.ect,
            ..Attribute::empty().with_method(self.method)
        }
    }
}
