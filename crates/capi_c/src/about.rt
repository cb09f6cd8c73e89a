// The library's version, and what a refusal means.
ghost use Rattle.std.specs.Prelude.{◌≡◌};
ghost use Rattle.capi.specs.About.{version_code, WritesMeaning};

// The version: 65,536 times its first number, 256 times its second, and its third.
#[unsafe(no_mangle)]
pub extern "C" fn flasknib_version() -> u32
    ensures { result ≡ version_code }
{
    capi::about::flasknib_version()
}

// Writes the text of a refusal. Gives its length, or minus refusal 10 or 12.
#[unsafe(no_mangle)]
pub extern "C" fn flasknib_refusal_text(number: u8, out: &mut [u8]) -> i64
    ensures { WritesMeaning number out.old result out.new }
{
    capi::about::flasknib_refusal_text(number, out)
}
