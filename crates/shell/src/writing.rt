// Bytes written with as many calls as that takes.
ghost use Rattle.std.specs.Prelude.{◌≡◌, ◌+◌, ◌<◌, length};
ghost use Rattle.shell.specs.Tries.{bytes_in};
ghost use Rattle.shell.specs.Writes.{Ended, unwritten, is_unwritten, has_failed, writing_after};

use crate::retries::{Outcome, TRIES, judged};
use crate::streams::Streams;

// How many bytes were taken, and the tries left for the next write: none if one has failed.
#[derive(Clone, Copy)]
pub struct Writing {
    pub at: usize,
    pub left: u64,
}

impl Writing {
    // Before the first write.
    fn begun() -> Writing
        ensures { result ≡ unwritten }
    {
        Writing { at: 0, left: TRIES }
    }

    // Whether a write has failed.
    pub fn has_failed(self) -> bool
        ensures { result ≡ has_failed self }
    {
        self.left == 0
    }

    // Whether more of so many bytes is written: if some are left and no write has failed.
    fn goes_on(self, length: usize) -> bool
        ensures { result ≡ is_unwritten self length }
    {
        if self.left == 0 {
            return false;
        }
        self.at < length
    }

    // After a write: its bytes count, and the next has all tries again; one that took nothing leaves half of the tries.
    fn after(self, outcome: Outcome) -> Writing
        requires { self.at + bytes_in outcome < 18446744073709551616 }
        ensures { result ≡ writing_after self outcome }
    {
        let at = self.at;
        match outcome {
            Outcome::Bytes(n) => Writing {
                at: at + n,
                left: TRIES,
            },
            Outcome::Nothing => Writing {
                at,
                left: self.left / 2,
            },
            Outcome::Again(left) => Writing { at, left },
            Outcome::Failed => Writing { at, left: 0 },
        }
    }
}

// Writes the bytes, to the last of them or to a failure, which errno names.
pub fn write_all(streams: &mut Streams, fd: i32, bytes: &[u8]) -> Writing
    ensures { Ended (length bytes.now) result }
{
    let mut writing = Writing::begun();
    while writing.goes_on(bytes.len()) {
        let at = writing.at;
        let answer = streams.write(fd, &bytes[at..]);
        writing = writing.after(judged(answer, streams.errno(), writing.left, bytes.len() - at));
    }
    writing
}
