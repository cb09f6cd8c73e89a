// Lines kept in a lent buffer and printed in large pieces, on standard output or standard error.
ghost use Rattle.std.specs.Prelude.{◌≡◌, min, length};
ghost use Rattle.answers.specs.Writers.{length_in};
ghost use Rattle.shell.specs.Kept.{empty_of, kept_of, due_of, output_after, Printed, Moved};
ghost use Rattle.shell.specs.Writes.{is_told};

use crate::clipped::least;
use crate::failures::tell;
use crate::moving::move_front;
use crate::streams::{STDOUT_FILENO, Streams};
use crate::writing::{Writing, write_all};
use answers::Unwritten;

// The file descriptor, how many bytes at the front of the lent buffer are kept for it, how many bytes of the last print were written, and whether a write has
// failed. Nothing is printed after a failure.
#[derive(Clone, Copy)]
pub struct Output {
    pub fd: i32,
    pub used: usize,
    pub wrote: usize,
    pub failed: bool,
}

impl Output {
    // An output for which nothing is kept yet.
    pub fn new(fd: i32) -> Output
        ensures { result ≡ empty_of fd }
    {
        Output {
            fd,
            used: 0,
            wrote: 0,
            failed: false,
        }
    }

    // From where on a buffer of so many bytes has room for more.
    pub fn end(self, length: usize) -> usize
        ensures { result ≡ min self.used length }
    {
        least(self.used, length)
    }

    // How many of so many bytes are printed: none after a failure.
    fn due(self, length: usize) -> usize
        ensures { result ≡ due_of self length }
    {
        if self.failed {
            return 0;
        }
        length
    }

    // Reports a failed write on standard error, and answers whether it did: only one to standard output, since a failed standard error can report nothing.
    fn reported(self, done: Writing, streams: &Streams, program: &[u8]) -> bool
        ensures { result ≡ is_told self.fd done }
    {
        if !done.has_failed() {
            return false;
        }
        if self.fd != STDOUT_FILENO {
            return false;
        }
        tell(streams, program, b"writing standard output");
        true
    }

    // After a print: what was written, and whether a write has failed, then or before.
    fn after(self, done: Writing) -> Output
        ensures { result ≡ output_after self done }
    {
        let mut next = self;
        next.wrote = done.at;
        if done.has_failed() {
            next.failed = true;
        }
        next
    }

    // Prints bytes where they stand. A write that fails is reported on standard error, but for one to standard error itself.
    pub fn printed_now(self, streams: &mut Streams, program: &[u8], bytes: &[u8]) -> Output
        ensures { Printed (length bytes.now) self result }
    {
        let from = 0;
        let end = self.due(bytes.len());
        let done = write_all(streams, self.fd, &bytes[from..end]);
        self.reported(done, streams, program);
        self.after(done)
    }

    // Prints the first bytes of what is kept, at most so many, and moves those after them to the front of the buffer.
    pub fn with_printed(
        self,
        bytes: usize,
        streams: &mut Streams,
        program: &[u8],
        buffer: &mut [u8],
    ) -> Output
        ensures { Moved bytes self buffer.old result buffer.new }
    {
        let from = 0;
        let used = least(self.used, buffer.len());
        let end = least(bytes, used);
        let printed = self.printed_now(streams, program, &buffer[from..end]);
        move_front(buffer, end, used);
        let mut next = printed;
        next.used = used - end;
        next
    }

    // Keeps so many bytes more, which the caller has stored after those that are kept.
    pub fn with_kept(self, bytes: usize, buffer: &[u8]) -> Output
        ensures { result ≡ kept_of (length buffer.now) bytes self }
    {
        let mut next = self;
        let used = least(self.used, buffer.len());
        next.used = used + least(bytes, buffer.len() - used);
        next
    }

    // Keeps what a writer wrote after the bytes that are kept.
    pub fn with_written(self, answer: Result<usize, Unwritten>, buffer: &[u8]) -> Output
        ensures { result ≡ kept_of (length buffer.now) (length_in answer) self }
    {
        match answer {
            Ok(n) => self.with_kept(n, buffer),
            Err(Unwritten::Room(_)) => self.with_kept(0, buffer),
            Err(Unwritten::Refused(_)) => self.with_kept(0, buffer),
        }
    }
}
