// When a conversion is sound.
ghost use Rattle.std.specs.Prelude.{◌≡◌};
ghost use Rattle.forms.specs.Conversions.{sound};

use crate::Conversion;
use format::block::BODY_BYTES;
use trace::write::is_body;

// Whether a conversion is sound, with its part.
pub fn is_sound(c: Conversion, part: &[u8]) -> bool
    ensures { result ≡ sound c part.now }
{
    let to = c.form.other();
    if part.len() < BODY_BYTES {
        return false;
    }
    if to.most() <= c.held {
        return false;
    }
    if c.held == 0 {
        return true;
    }
    let end = c.held * to.width();
    is_body(to, &part[..end])
}
