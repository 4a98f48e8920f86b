//! A reader or a writer that goes on after a signal.

ghost use Rattle.std.specs.Prelude.{◌≡◌};

use std::io;
use std::io::{ErrorKind, Read, Write};

/// How often a call that was interrupted is made again.
const TRIES: u32 = 1_000_000;

/// A reader or a writer whose reads and writes are made again if a signal interrupted them, up to a million times.
#[derive(Drop)]
pub struct Steady<D> {
    device: D,
}

impl<D> Steady<D> {
    /// The device, whose calls are made again if they are interrupted.
    pub fn new(device: D) -> Steady<D>
        ensures { result ≡ record { device = device } }
    {
        Steady { device }
    }
}

impl<R: Read> Read for Steady<R> {
    ghost remaining = { λ s. R.remaining s.device };

    fn read(&mut self, buf: &mut [u8]) -> io::Result<usize> {
        'tries: for _ in 0..TRIES {
            match self.device.read(buf) {
                Err(error) if error.kind() == ErrorKind::Interrupted => {}
                result => return result,
            }
        }
        self.device.read(buf)
    }
}

impl<W: Write> Write for Steady<W> {
    ghost contents = { λ s. W.contents s.device };

    fn write(&mut self, buf: &[u8]) -> io::Result<usize> {
        'tries: for _ in 0..TRIES {
            match self.device.write(buf) {
                Err(error) if error.kind() == ErrorKind::Interrupted => {}
                result => return result,
            }
        }
        self.device.write(buf)
    }

    fn flush(&mut self) -> io::Result<()> {
        'tries: for _ in 0..TRIES {
            match self.device.flush() {
                Err(error) if error.kind() == ErrorKind::Interrupted => {}
                result => return result,
            }
        }
        self.device.flush()
    }
}
