// The library's version, and what a refusal means.
ghost use Rattle.std.specs.Prelude.{◌≡◌};
ghost use Rattle.capi.specs.About.{version_code, WritesMeaning};

use crate::codes;
use answers::meanings::write_meaning;

// The version: 65,536 times its first number, 256 times its second, and its third.
pub fn flasknib_version() -> u32
    ensures { result ≡ version_code }
{
    0x0_0200
}

// Writes the text of a refusal. Gives its length, or minus refusal 10 or 12.
pub fn flasknib_refusal_text(number: u8, out: &mut [u8]) -> i64
    ensures { WritesMeaning number out.old result out.new }
{
    codes::length(write_meaning(number, out))
}
