//! The standard streams of a process: input and output that keep why a call failed, and messages that end if the reader
//! of the output has closed its pipe. What is printed so is tested, not proved.
use std::cell::Cell;
use std::io::{self, ErrorKind, Read, Write};

/// Standard input. It keeps the last error of a read.
#[derive(Drop)]
pub struct Input<'a, R: Read> {
    pub reader: R,
    pub failure: &'a Cell<Option<io::Error>>,
}

impl<'a, R: Read> Read for Input<'a, R> {
    fn read(&mut self, bytes: &mut [u8]) -> io::Result<usize> {
        match self.reader.read(bytes) {
            Ok(count) => Ok(count),
            Err(error) => Err(kept(self.failure, error)),
        }
    }
}

/// Standard output. It keeps the last error of a write.
#[derive(Drop)]
pub struct Output<'a, W: Write> {
    pub writer: W,
    pub failure: &'a Cell<Option<io::Error>>,
}

impl<'a, W: Write> Write for Output<'a, W> {
    fn write(&mut self, bytes: &[u8]) -> io::Result<usize> {
        match self.writer.write(bytes) {
            Ok(count) => Ok(count),
            Err(error) => Err(kept(self.failure, error)),
        }
    }

    fn flush(&mut self) -> io::Result<()> {
        match self.writer.flush() {
            Ok(()) => Ok(()),
            Err(error) => Err(kept(self.failure, error)),
        }
    }
}

/// Keeps an error, unless the call that failed is retried.
fn kept(failure: &Cell<Option<io::Error>>, error: io::Error) -> io::Error {
    if error.kind() != ErrorKind::Interrupted {
        failure.set(Some(error));
    }
    error
}

/// Standard error. Nothing is printed once standard output is a closed pipe: its reader wants no more.
#[derive(Drop)]
pub struct Messages<'a, W: Write> {
    pub writer: W,
    pub failure: &'a Cell<Option<io::Error>>,
}

impl<'a, W: Write> Write for Messages<'a, W> {
    fn write(&mut self, bytes: &[u8]) -> io::Result<usize> {
        match self.failure.get() {
            Some(error) if error.kind() == ErrorKind::BrokenPipe => Ok(bytes.len()),
            _ => self.writer.write(bytes),
        }
    }

    fn flush(&mut self) -> io::Result<()> {
        self.writer.flush()
    }
}

/// Prints why a standard stream, of this name, could not be read or written, if it could not.
pub fn explain_failure<E: Write>(
    program: &str,
    stream: &str,
    failure: &Cell<Option<io::Error>>,
    err: &mut E,
) {
    if let Some(error) = failure.get() {
        let _ = writeln!(err, "reason: {program}: {stream}: {error}");
    }
}
