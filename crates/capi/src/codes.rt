// Answers as numbers.
ghost use Rattle.std.specs.Prelude.{◌≡◌, ◌+◌, ◌*◌, ◌^◌, ◌<◌, pos, neg_ℤ};
ghost use Rattle.answers.specs.Refusals.{number_of};
ghost use Rattle.answers.specs.Writers.{size_in};
ghost use Rattle.capi.specs.Codes.{length_code};

use answers::{ROOM, Refusal, Unwritten};

// The refusal that leaves a record of its own: a jump.
pub const JUMP: u8 = 7;

// The answer to an arrival that restarts the record.
pub const RESTARTED: u8 = 128;

// What the restarts of a block are multiplied with, so that its jumps stand beside them.
pub const RESTARTS: u64 = 256;

// Minus a number.
fn negative(n: u64) -> i64
    requires { n < 2 ^ 63 }
    ensures { result ≡ neg_ℤ (pos n) }
{
    -(n as i64)
}

// Minus the refusal's number.
pub fn minus(refusal: Refusal) -> i64
    ensures { result ≡ neg_ℤ (pos (number_of refusal)) }
{
    negative(refusal.number() as u64)
}

// What a size is multiplied with, so that a refusal's number stands beside it.
const SIZES: u64 = 256;

// Why a writer wrote nothing: minus the refusal's number, and with 12 the size.
pub fn unwritten(why: Unwritten) -> i64
    requires { size_in (Err why) < 2 ^ 54 }
    ensures { result ≡ length_code (Err why) }
{
    match why {
        Unwritten::Room(n) => negative(SIZES * n as u64 + ROOM as u64),
        Unwritten::Refused(refusal) => minus(refusal),
    }
}

// The length that a writer answers, or minus its refusal's number, and with 12 the size.
pub fn length(answer: Result<usize, Unwritten>) -> i64
    requires { size_in answer < 2 ^ 54 }
    ensures { result ≡ length_code answer }
{
    match answer {
        Ok(n) => n as i64,
        Err(why) => unwritten(why),
    }
}

// Minus the refusal's number, and the length of what was written before it.
pub fn faulty(refusal: Refusal, n: usize) -> i64
    requires { n < 2 ^ 54 }
    ensures { result ≡ neg_ℤ (pos (256 * n + number_of refusal)) }
{
    negative(SIZES * n as u64 + refusal.number() as u64)
}
