// The rules on a block's contents. Each loop adds up what breaks a rule, so that it has no way out but its end.
ghost use Rattle.std.specs.Prelude.{◌≡◌, ◌*◌, ◌≤◌, length, if◌then◌else◌, nat_lt};
ghost use Rattle.format.specs.Blocks.{block_bytes, behind_time};
ghost use Rattle.format.specs.Forms.{Shape, shape_of, width};
ghost use Rattle.trace.specs.Contents.{every, is_zero, is_mark, is_time, label_byte, count_ok, good_records};

use format::Form;
use numbers::big_endian::join16;

// Whether all bytes of s are zero.
pub fn all_zero(s: &[u8]) -> bool
    requires { length s.now ≤ block_bytes }
    ensures { result ≡ every is_zero s.now }
{
    let mut sum: u32 = 0;
    let mut i = 0;
    while i < s.len() {
        sum += s[i] as u32;
        i += 1;
    }
    sum == 0
}

// Whether no mark is above 3.
pub fn all_marks(marks: &[u8]) -> bool
    requires { length marks.now ≤ block_bytes }
    ensures { result ≡ every is_mark marks.now }
{
    let mut sum: u32 = 0;
    let mut i = 0;
    while i < marks.len() {
        sum += (marks[i] / 4) as u32;
        i += 1;
    }
    sum == 0
}

// 1 for a time from the limit on, else 0.
fn beyond(limit: u64, time: u64) -> u32
    ensures { result ≡ (if nat_lt time limit then 0 else 1) }
{
    if time < limit {
        return 0;
    }
    1
}

// Whether the form's records can have all times.
pub fn all_times(form: Form, times: &[u64]) -> bool
    requires { length times.now ≤ block_bytes }
    ensures { result ≡ every (is_time (shape_of form)) times.now }
{
    let limit = form.time_limit();
    let mut sum: u32 = 0;
    let mut i = 0;
    while i < times.len() {
        sum += beyond(limit, times[i]);
        i += 1;
    }
    sum == 0
}

// 1 for a byte that no label has, else 0.
fn outside(c: u8) -> u32
    ensures { result ≡ (if label_byte c then 0 else 1) }
{
    match c {
        10 | 13 => 0,
        32..=126 => 0,
        _ => 1,
    }
}

// Whether a label may have all bytes of s.
pub fn all_allowed(s: &[u8]) -> bool
    requires { length s.now ≤ block_bytes }
    ensures { result ≡ every label_byte s.now }
{
    let mut sum: u32 = 0;
    let mut i = 0;
    while i < s.len() {
        sum += outside(s[i]);
        i += 1;
    }
    sum == 0
}

// Whether a block may have n records.
pub fn is_count(form: Form, n: usize) -> bool
    ensures { result ≡ count_ok (shape_of form) n }
{
    if n < 1 {
        return false;
    }
    n <= form.most()
}

// Whether the first n records of a body, `step` bytes each, end with a mark of 0 to 3 and a zero: as numbers with the zero first, all
// are below 4, and so is what their bits are together.
fn good_part(step: usize, n: usize, body: &[u8]) -> bool
    requires { (behind_time ≤ step) × (n * step ≤ length body.now) }
    ensures { (shape : Shape) → step ≡ width shape → result ≡ good_records shape n body.now }
{
    let mark = step - 2;
    let mut seen: u16 = 0;
    let mut left = n;
    let mut at = 0;
    while 0 < left {
        seen = seen | join16(body[at + mark + 1], body[at + mark]);
        left -= 1;
        at += step;
    }
    seen / 4 == 0
}

// So many records are a part.
const PART: usize = 10;

// The same, part by part. The compiler writes a part out with no loop, and the processor need not wait for one to go on with the next.
pub fn good_ends(step: usize, n: usize, body: &[u8]) -> bool
    requires { (behind_time ≤ step) × (n * step ≤ length body.now) }
    ensures { (shape : Shape) → step ≡ width shape → result ≡ good_records shape n body.now }
{
    let mut left = n;
    let mut at = 0;
    while PART <= left {
        if !good_part(step, PART, &body[at..]) {
            return false;
        }
        left -= PART;
        at += PART * step;
    }
    good_part(step, left, &body[at..])
}

// Whether the first n records of a body have a mark of 0 to 3 and then a zero. Each form has a call of its own, so that the compiler
// knows the loop's step.
pub fn all_records(form: Form, n: usize, body: &[u8]) -> bool
    requires { (n ≤ (shape_of form).most) × (n * width (shape_of form) ≤ length body.now) }
    ensures { result ≡ good_records (shape_of form) n body.now }
{
    match form {
        Form::One => good_ends(Form::One.width(), n, body),
        Form::Two => good_ends(Form::Two.width(), n, body),
    }
}
