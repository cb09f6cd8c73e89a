// Decimal numbers.
ghost use Rattle.std.specs.Prelude.{◌≡◌, ◌+◌, ◌≤◌, length};
ghost use Rattle.std.proofs.lemmas.List.Edits.{sets};
ghost use Rattle.table.specs.Decimal.{decimal};
ghost use Rattle.table.specs.Parts.{minus};

// How many digits n has.
pub fn digits(n: u64) -> usize
    ensures { result ≡ length (decimal n) }
{
    let mut rest = n;
    let mut count: usize = 0;
    while 10000 <= rest {
        rest /= 10000;
        count += 4;
    }
    if rest < 10 {
        return count + 1;
    }
    if rest < 100 {
        return count + 2;
    }
    if rest < 1000 {
        return count + 3;
    }
    count + 4
}

// How many bytes a number of the given size takes: a negative one has a "-" in front.
pub fn signed_length(below: bool, size: u64) -> usize
    ensures { result ≡ length (minus below size) }
{
    let long = digits(size);
    if below {
        return long + 1;
    }
    long
}

// Stores the digits of n in out so that they end before `end`, from the last to the first and two at a time, and answers where they begin.
pub fn put_before(n: u64, out: &mut [u8], end: usize) -> usize
    requires { (length (decimal n) ≤ end) × (end ≤ length out.old) }
    ensures begins { result + length (decimal n) ≡ end }
    ensures written { out.new ≡ sets out.old result (decimal n) }
{
    let mut rest = n;
    let mut last = end;
    while 100 <= rest {
        let pair = (rest % 100) as u8;
        out[last - 1] = 48 + pair % 10;
        out[last - 2] = 48 + pair / 10;
        rest /= 100;
        last -= 2;
    }
    let front = rest as u8;
    if front < 10 {
        out[last - 1] = 48 + front;
        return last - 1;
    }
    out[last - 1] = 48 + front % 10;
    out[last - 2] = 48 + front / 10;
    last - 2
}
