// What a report carries of a record.
ghost use Rattle.std.specs.Prelude.{◌≡◌};
ghost use Rattle.source.specs.Record as Record;
ghost use Rattle.report.specs.Carried.{counts_of, carried_of};

use answers::Refusal;
use format::Counts;
use numbers::sign::{low16, low32};
use source::Source;

// The extended highest number, modulo its width, with the counters.
#[derive(Clone, Copy)]
pub struct Carried {
    pub highest: u32,
    pub counts: Counts,
}

// The counters modulo their widths.
fn counts(s: Source, lost: i64) -> Counts
    requires { lost ≡ Record.lost s }
    ensures { result ≡ counts_of s }
{
    Counts {
        ect0: (s.ect0 % 0x1_0000_0000) as u32,
        ect1: (s.ect1 % 0x1_0000_0000) as u32,
        ce: (s.ce % 65536) as u16,
        notect: (s.notect % 65536) as u16,
        lost: low16(lost),
        duplicates: (s.duplicates % 65536) as u16,
    }
}

// What a report on s carries. Refusal: 9 malformed record.
pub fn of(s: Source) -> Result<Carried, Refusal>
    ensures { result ≡ carried_of s }
{
    let lost = s.lost()?;
    Ok(Carried {
        highest: low32(s.highest.0),
        counts: counts(s, lost),
    })
}
