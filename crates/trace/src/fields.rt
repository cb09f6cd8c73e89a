// Where a record's parts stand: its time, and then wire number (2), mark (1) and zero (1).
ghost use Rattle.std.specs.Prelude.{◌≡◌};
ghost use Rattle.std.proofs.lemmas.List.Edits.{sets};
ghost use Rattle.numbers.specs.BigEndian.{word, bytes};
ghost use Rattle.format.specs.Forms.{shape_of};

use format::Form;
use format::block::BEHIND_TIME;
use numbers::big_endian::{read32, read48, write32, write48};

// The bytes of a time.
pub fn time_bytes(form: Form) -> usize
    ensures { result ≡ (shape_of form).time }
{
    form.width() - BEHIND_TIME
}

// The time at a place of a body.
pub fn read_time(form: Form, body: &[u8], at: usize) -> u64
    ensures { result ≡ word (shape_of form).time body.now at }
{
    match form {
        Form::One => read32(body, at) as u64,
        Form::Two => read48(body, at),
    }
}

// Stores the time, or those of its bits that the form has, in out at a place.
pub fn write_time(form: Form, time: u64, out: &mut [u8], at: usize)
    ensures { out.new ≡ sets out.old at (bytes (shape_of form).time time) }
{
    match form {
        Form::One => write32((time % 0x1_0000_0000) as u32, out, at),
        Form::Two => write48(time, out, at),
    }
}
