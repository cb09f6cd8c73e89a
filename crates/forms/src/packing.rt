// Records packed in blocks.
ghost use Rattle.std.specs.Prelude.{◌≡◌, ◌++◌, ◌+◌, ◌-◌, ◌*◌, ◌/◌, ◌≤◌, ◌<◌, length};
ghost use Rattle.std.proofs.lemmas.List.Edits.{sets};
ghost use Rattle.format.specs.Blocks.{block_bytes};
ghost use Rattle.format.specs.Forms.{shape_of, width, other_form};
ghost use Rattle.trace.specs.Layout.{records_bytes, arrivals_block};
ghost use Rattle.trace.specs.Theorems.{records_in};
ghost use Rattle.forms.specs.Packing.{full_blocks};
ghost use Rattle.walk.specs.Steps.{goes};
ghost use Rattle.forms.specs.Conversions.{to_shape, held_in, TakesBlock};
ghost use Rattle.forms.specs.Steps.{Joinable, joined, Packable, Parted};

use crate::moving::put_records;
use crate::{Conversion, Step};
use answers::Unwritten;
use answers::copy::put_bytes;
use format::Form;
use format::block::{BLOCK, BODY};
use trace::write::seal;

// Stores the first `held` records in the part and behind them the first n of a body in out from a place on, all in the other form.
fn gather(form: Form, held: usize, part: &[u8], n: usize, body: &[u8], out: &mut [u8], at: usize)
    requires { Joinable form held part.now n body.now × (at + (held + n) * width (shape_of (other_form form)) ≤ length out.old) }
    ensures { out.new ≡ sets out.old at (records_bytes (shape_of (other_form form)) (joined form held part.now n body.now)) }
{
    let end = held * form.other().width();
    put_bytes(&part[..end], out, at);
    put_records(form, n, body, out, at + end);
}

// Stores the full block of the first `held` records in the part and of those of a body behind them in out at a place.
fn put_block(
    form: Form,
    held: usize,
    part: &[u8],
    body: &[u8],
    ssrc: u32,
    out: &mut [u8],
    at: usize,
)
    requires { (held ≤ (shape_of (other_form form)).most) × Joinable form held part.now ((shape_of (other_form form)).most - held) body.now × (at + block_bytes ≤ length out.old) }
    ensures { out.new ≡ sets out.old at (arrivals_block (shape_of (other_form form)) (joined form held part.now ((shape_of (other_form form)).most - held) body.now) ssrc) }
{
    let to = form.other();
    let most = to.most();
    let stop = at + BLOCK;
    gather(form, held, part, most - held, body, out, at + BODY);
    let _ = seal(to, most, ssrc, &mut out[at..stop]);
}

// Writes the first n blocks of the first `held` records in the part and of those of a body behind them, each full, at the front of out.
fn write_full(
    form: Form,
    held: usize,
    part: &[u8],
    n: usize,
    body: &[u8],
    ssrc: u32,
    out: &mut [u8],
)
    requires { (held ≤ (shape_of (other_form form)).most) × Joinable form held part.now (n * (shape_of (other_form form)).most - held) body.now × (n * block_bytes ≤ length out.old) }
    ensures { out.new ≡ sets out.old 0 (full_blocks (shape_of (other_form form)) ssrc n (joined form held part.now (n * (shape_of (other_form form)).most - held) body.now)) }
{
    let width = form.width();
    let most = form.other().most();
    let mut first = held;
    let mut from = 0;
    for i in 0..n {
        put_block(form, first, part, &body[from..], ssrc, out, i * BLOCK);
        from += (most - first) * width;
        first = 0;
    }
}

// Packs the n records of a body behind those in the part: the full blocks at the front of out, and the others in the part.
fn pack(c: Conversion, part: &mut [u8], n: usize, body: &[u8], out: &mut [u8])
    requires { Packable c part.old n body.now × ((c.held + n) / (to_shape c).most * block_bytes ≤ length out.old) }
    ensures { Parted c (held_in c part.old ++ records_in (shape_of c.form) n body.now) part.old out.old part.new out.new }
{
    let to = c.form.other();
    let most = to.most();
    let full = (c.held + n) / most;
    if full == 0 {
        put_records(c.form, n, body, part, c.held * to.width());
        return;
    }
    let taken = full * most - c.held;
    let from = taken * c.form.width();
    write_full(c.form, c.held, part, full, body, c.ssrc, out);
    put_records(c.form, n - taken, &body[from..], part, 0);
}

// Packs the n records of a body behind those in the part, where out has room for the full blocks.
pub fn arrivals(c: Conversion, part: &mut [u8], n: usize, body: &[u8], out: &mut [u8]) -> Step
    requires { Packable c part.old n body.now }
    ensures { TakesBlock c part.old (goes (records_in (shape_of c.form) n body.now)) out.old result part.new out.new }
{
    let total = c.held + n;
    let most = c.form.other().most();
    let full = total / most;
    let bytes = full * BLOCK;
    if out.len() < bytes {
        return Step {
            answer: Err(Unwritten::Room(bytes)),
            conversion: c,
        };
    }
    pack(c, part, n, body, out);
    let conversion = Conversion {
        held: total - full * most,
        ..c
    };
    Step {
        answer: Ok(bytes),
        conversion,
    }
}
