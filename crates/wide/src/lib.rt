// Exact products of two 64-bit numbers, in two words, with each half-product named, and their order (document 02, request L6). docs/BREAKER.md does the
// same on paper, under these names.
#![tactic(auto)]

ghost use Rattle.std.specs.Prelude.{◌≡◌, ◌*◌, ltb};
ghost use Rattle.wide.specs.Products.{value, wide_of, half_products_of};

// 2^32. The upper half of a 64-bit number x is x / HALF, the lower half x % HALF.
const HALF: u64 = 0x1_0000_0000;

// A number of up to 128 bits: high · 2^64 + low. The order of the fields is that of the numbers.
#[derive(Clone, Copy, PartialEq, Eq, PartialOrd, Ord)]
pub struct Wide {
    pub high: u64,
    pub low: u64,
}

// The products of the halves of two numbers a and b, in the order used on paper: both halves of a by the lower half of b, then both by the
// upper one. The first letter is the half of a, the second the half of b: l the lower one, h the upper one.
#[derive(Clone, Copy, PartialEq, Eq)]
pub struct HalfProducts {
    pub ll: u64,
    pub hl: u64,
    pub lh: u64,
    pub hh: u64,
}

impl HalfProducts {
    // The four half-products of a and b.
    pub fn of(a: u64, b: u64) -> Self
        ensures { result ≡ half_products_of a b }
    {
        let ah = a / HALF;
        let al = a % HALF;
        let bh = b / HALF;
        let bl = b % HALF;
        HalfProducts {
            ll: al * bl,
            hl: ah * bl,
            lh: al * bh,
            hh: ah * bh,
        }
    }
}

impl Wide {
    // The whole product of a and b: each half-product at its place, ll at 0, hl and lh at 1, hh at 2, and the columns added up from the
    // right. Of ll, hl and lh the upper half stands one column further left. Column 2 is the last and takes hh whole.
    pub fn product(a: u64, b: u64) -> Self
        ensures { result ≡ wide_of (a * b) }
    {
        let h = HalfProducts::of(a, b);
        let column0 = h.ll % HALF;
        let column1 = h.ll / HALF + h.hl % HALF + h.lh % HALF;
        let carry = column1 / HALF;
        let column2 = h.hl / HALF + h.lh / HALF + h.hh + carry;
        Wide {
            high: column2,
            low: column1 % HALF * HALF + column0,
        }
    }

    // Whether the number is above another.
    pub fn above(self, other: Wide) -> bool
        ensures { result ≡ ltb (value other) (value self) }
    {
        other < self
    }
}
