// What packets and traces carry, and the one place of a trace block's numbers (document 01, "Trace file"; 02, request L10).
#![tactic(auto)]

ghost use Rattle.std.specs.Prelude.{◌≡◌};
ghost use Rattle.format.specs.Forms.{shape_of, width, time_limit, other_form, kind_of};

pub mod block;

// A sequence number as a packet carries it.
#[derive(Clone, Copy, PartialEq, Eq)]
pub struct Wire(pub u16);

// The counters of an ECN report (RFC 6679, section 5) as the packet carries them.
#[derive(Clone, Copy, PartialEq, Eq)]
pub struct Counts {
    pub ect0: u32,
    pub ect1: u32,
    pub ce: u16,
    pub notect: u16,
    pub lost: u16,
    pub duplicates: u16,
}

// The forms of a trace: times of 32 bits, or of 48. A form has five numbers, so none of them is its discriminant: each is a match.
#[derive(Clone, Copy, PartialEq, Eq)]
pub enum Form {
    One,
    Two,
}

// What the kind of a block says: that it holds the label or arrivals of a trace of some form, or nothing that is known.
#[derive(Clone, Copy, PartialEq, Eq)]
pub enum Kind {
    Label(Form),
    Arrivals(Form),
    Unknown,
}

impl Form {
    // The kind of a label block.
    pub fn label(self) -> u16
        ensures { result ≡ (shape_of self).label }
    {
        match self {
            Form::One => 1,
            Form::Two => 3,
        }
    }

    // The kind of an arrivals block.
    pub fn arrivals(self) -> u16
        ensures { result ≡ (shape_of self).arrivals }
    {
        match self {
            Form::One => 2,
            Form::Two => 4,
        }
    }

    // The bytes of a record: its time, and then wire number (2), mark (1) and zero (1).
    pub fn width(self) -> usize
        ensures { result ≡ width (shape_of self) }
    {
        match self {
            Form::One => 8,
            Form::Two => 10,
        }
    }

    // The most records of a block.
    pub fn most(self) -> usize
        ensures { result ≡ (shape_of self).most }
    {
        match self {
            Form::One => block::MOST_RECORDS,
            Form::Two => 50,
        }
    }

    // The least time, in ms, that no record can have.
    pub fn time_limit(self) -> u64
        ensures { result ≡ time_limit (shape_of self) }
    {
        match self {
            Form::One => 0x1_0000_0000,
            Form::Two => 0x1_0000_0000_0000,
        }
    }

    // The other form.
    pub fn other(self) -> Form
        ensures { result ≡ other_form self }
    {
        match self {
            Form::One => Form::Two,
            Form::Two => Form::One,
        }
    }
}

impl Kind {
    // What a block's kind says.
    pub fn of(kind: u16) -> Kind
        ensures { result ≡ kind_of kind }
    {
        match kind {
            1 => Kind::Label(Form::One),
            2 => Kind::Arrivals(Form::One),
            3 => Kind::Label(Form::Two),
            4 => Kind::Arrivals(Form::Two),
            _ => Kind::Unknown,
        }
    }
}
