// The three standard streams, as `std` lends them, and the error of the last call on them that failed.
ghost use Rattle.std.specs.Prelude.{◌≤◌, length};

use std::io::{Cursor, Error, Print, Read, Stderr, Stdin, Stdout, Write};

// The numbers of the two outputs (POSIX).
pub const STDOUT_FILENO: i32 = 1;

pub const STDERR_FILENO: i32 = 2;

// The error of a call on what is no output (EBADF).
const NO_STREAM: i32 = 9;

// The streams, and the number of the error with which a call on them last failed, 0 before that.
#[derive(Clone, Copy)]
pub struct Streams {
    input: Stdin,
    out: Stdout,
    err: Stderr,
    error: i32,
}

// The number of an error, 0 if it is not the system's: each error of a read or a write is.
fn number_of(error: Error) -> i32 {
    match error.raw_os_error() {
        Some(number) => number,
        None => 0,
    }
}

// Writes the bytes on standard error. If that fails nothing can be told.
fn say(err: Stderr, bytes: &[u8]) {
    match err.write_all(bytes) {
        Ok(()) => {}
        Err(_) => {}
    }
}

// The text of an error in front of its number, which `std` has behind it in brackets.
fn words_of(text: &[u8]) -> &[u8] {
    for i in 0..text.len() {
        if text[i..].starts_with(b" (os error ") {
            return &text[..i];
        }
    }
    text
}

// Writes the system's text for an error on standard error.
fn say_error(err: Stderr, number: i32) {
    let mut space = [0u8; 128];
    let mut cursor = Cursor::new(&mut space[..]);
    let error = Error::from_raw_os_error(number);
    let stored = write!(cursor, "{error}");
    drop(stored);
    say(err, words_of(&space));
}

impl Streams {
    // Before the first call.
    pub fn new(input: Stdin, out: Stdout, err: Stderr) -> Streams {
        Streams {
            input,
            out,
            err,
            error: 0,
        }
    }

    // The number of the error with which a call last failed.
    pub fn errno(&self) -> i32 {
        self.error
    }

    // After a call that failed: its error is kept, and its answer is -1.
    fn failed(&mut self, error: Error) -> isize {
        self.error = number_of(error);
        -1
    }

    // Reads standard input once, at most as many bytes as the buffer has, and answers how many came, or -1.
    pub fn read(&mut self, buffer: &mut [u8]) -> isize {
        let mut input = self.input;
        match input.read(buffer) {
            Ok(n) => n as isize,
            Err(error) => self.failed(error),
        }
    }

    // Writes to one of the outputs once, and answers how many bytes were taken, or -1.
    pub fn write(&mut self, fd: i32, bytes: &[u8]) -> isize {
        if fd == STDOUT_FILENO {
            return self.write_out(bytes);
        }
        if fd == STDERR_FILENO {
            return self.write_err(bytes);
        }
        self.error = NO_STREAM;
        -1
    }

    fn write_out(&mut self, bytes: &[u8]) -> isize {
        let mut out = self.out;
        match out.write(bytes) {
            Ok(n) => n as isize,
            Err(error) => self.failed(error),
        }
    }

    fn write_err(&mut self, bytes: &[u8]) -> isize {
        let mut err = self.err;
        match err.write(bytes) {
            Ok(n) => n as isize,
            Err(error) => self.failed(error),
        }
    }

    // Writes the bytes on standard error.
    pub fn print_error(&self, bytes: &[u8]) {
        say(self.err, bytes);
    }

    // Writes one line on standard error: what failed, and the system's text for the error.
    pub fn fail(&self, what: &[u8]) {
        say(self.err, what);
        say(self.err, b": ");
        say_error(self.err, self.error);
        say(self.err, b"\n");
    }
}
