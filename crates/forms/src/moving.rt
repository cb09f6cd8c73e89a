// Records moved from one form to the other: form 2 has two bytes more in front of a time.
ghost use Rattle.std.specs.Prelude.{◌≡◌, true, ◌+◌, ◌*◌, ◌≤◌, length, take, drop};
ghost use Rattle.std.proofs.lemmas.List.Edits.{sets};
ghost use Rattle.format.specs.Forms.{shape_of, width, other_form};
ghost use Rattle.trace.specs.Contents.{good_records};
ghost use Rattle.trace.specs.Layout.{records_bytes};
ghost use Rattle.trace.specs.Theorems.{records_in};
ghost use Rattle.forms.specs.Conversions.{all_times};

use format::Form;
use numbers::big_endian::join16;

// Whether the upper two bytes of the times of the first n records of form 2 are zero.
fn all_short(n: usize, body: &[u8]) -> bool
    requires { (n ≤ (shape_of Form.Two).most) × (n * width (shape_of Form.Two) ≤ length body.now) }
    ensures { result ≡ all_times (shape_of Form.One) (records_in (shape_of Form.Two) n body.now) }
{
    let mut sum: u32 = 0;
    for i in 0..n {
        let at = 10 * i;
        sum += join16(body[at + 1], body[at]) as u32;
    }
    sum == 0
}

// Whether the other form has bytes for the times of the first n records of a body.
pub fn all_times(form: Form, n: usize, body: &[u8]) -> bool
    requires { (n ≤ (shape_of form).most) × (n * width (shape_of form) ≤ length body.now) }
    ensures { result ≡ all_times (shape_of (other_form form)) (records_in (shape_of form) n body.now) }
{
    match form {
        Form::One => true,
        Form::Two => all_short(n, body),
    }
}

// Stores eight bytes of s in out.
fn put_eight(s: &[u8], from: usize, out: &mut [u8], at: usize)
    requires { (from + 8 ≤ length s.now) × (at + 8 ≤ length out.old) }
    ensures { out.new ≡ sets out.old at (take 8 (drop from s.now)) }
{
    // A loop that the compiler unrolls: with copy_from_slice in its place, 3 % more instructions over a trace, and without the buffer below 43 %.
    for i in 0..8 {
        out[at + i] = s[from + i];
    }
}

// The same by way of a buffer: all eight are read before one is stored, so that the compiler makes one load and one store of them wherever s and out lie.
fn move_eight(s: &[u8], from: usize, out: &mut [u8], at: usize)
    requires { (from + 8 ≤ length s.now) × (at + 8 ≤ length out.old) }
    ensures { out.new ≡ sets out.old at (take 8 (drop from s.now)) }
{
    let mut space = [0u8; 8];
    let eight: &mut [u8] = &mut space;
    put_eight(s, from, eight, 0);
    put_eight(eight, 0, out, at);
}

// Stores a record of a body in out, in the other form.
fn put_record(form: Form, body: &[u8], from: usize, out: &mut [u8], at: usize)
    requires { (good_records (shape_of form) 1 (drop from body.now) ≡ true) × (from + width (shape_of form) ≤ length body.now) × (at + width (shape_of (other_form form)) ≤ length out.old) }
    ensures { out.new ≡ sets out.old at (records_bytes (shape_of (other_form form)) (records_in (shape_of form) 1 (drop from body.now))) }
{
    match form {
        Form::One => {
            out[at] = 0;
            out[at + 1] = 0;
            move_eight(body, from, out, at + 2);
        }
        Form::Two => move_eight(body, from + 2, out, at),
    }
}

// Stores the first n records of a body in out from a place on, in the other form.
pub fn put_records(form: Form, n: usize, body: &[u8], out: &mut [u8], at: usize)
    requires { (good_records (shape_of form) n body.now ≡ true) × (n * width (shape_of form) ≤ length body.now) × (at + n * width (shape_of (other_form form)) ≤ length out.old) }
    ensures { out.new ≡ sets out.old at (records_bytes (shape_of (other_form form)) (records_in (shape_of form) n body.now)) }
{
    let width = form.width();
    let step = form.other().width();
    for i in 0..n {
        put_record(form, body, i * width, out, at + i * step);
    }
}
