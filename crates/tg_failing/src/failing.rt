//! A reader and a writer of single bytes that fail at a given call.

ghost use Rattle.std.specs.Prelude.{Some};

use std::io;
use std::io::{Read, Write};

/// Returns one byte a read, and fails at the read after `reads` others.
#[derive(Drop)]
pub struct FailingReader<'a> {
    /// The bytes that are left.
    pub bytes: &'a [u8],
    /// The reads that succeed.
    pub reads: usize,
}

impl Read for FailingReader<'_> {
    ghost remaining = { λ r. Some r.bytes.now };

    fn read(&mut self, buf: &mut [u8]) -> io::Result<usize> {
        if self.reads == 0 {
            return Err(io::Error::from(io::ErrorKind::BrokenPipe));
        }
        self.reads -= 1;
        let most = buf.len().min(1);
        self.bytes.read(&mut buf[..most])
    }
}

/// How a writer fails.
#[derive(Clone, Copy, Debug, PartialEq, Eq)]
pub enum Failure {
    /// A write returns an error.
    Error,
    /// A write takes no byte.
    TakesNone,
}

/// Takes one byte a write, and fails at the writes after `writes` others.
#[derive(Drop)]
pub struct FailingWriter<'a> {
    /// The bytes that were taken, which a test can look at afterwards.
    pub bytes: &'a mut Vec<u8>,
    /// The writes that succeed.
    pub writes: usize,
    /// How the others fail.
    pub how: Failure,
}

impl Write for FailingWriter<'_> {
    ghost contents = { λ w. Some w.bytes.now.items };

    fn write(&mut self, buf: &[u8]) -> io::Result<usize> {
        if buf.is_empty() {
            return Ok(0);
        }
        if self.writes == 0 {
            return match self.how {
                Failure::Error => Err(io::Error::from(io::ErrorKind::BrokenPipe)),
                Failure::TakesNone => Ok(0),
            };
        }
        self.writes -= 1;
        self.bytes.write(&buf[..1])
    }

    fn flush(&mut self) -> io::Result<()> {
        Ok(())
    }
}
