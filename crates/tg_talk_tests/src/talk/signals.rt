//! Devices whose reads and writes are interrupted by signals.

use super::{ANSWERS, Came, LINES, WHOLE, talk_over};
use std::alloc::{AllocError, Global};
use std::io;
use std::io::{ErrorKind, Read, Write};
use std::rt::Clock;
use std::sync::Wait;
use tg_failing::{FailingReader, FailingWriter, Failure};
use tg_talk::Steady;

/// A device of single bytes, three calls of which are interrupted before each that is not.
#[derive(Drop)]
struct Interrupted<D> {
    device: D,
    calls: u64,
}

impl<D> Interrupted<D> {
    fn new(device: D) -> Interrupted<D> {
        Interrupted { device, calls: 0 }
    }

    /// Fails if this call is one that is interrupted.
    fn interrupt(&mut self) -> io::Result<()> {
        self.calls = self.calls.wrapping_add(1);
        if self.calls % 4 == 0 {
            Ok(())
        } else {
            Err(io::Error::from(ErrorKind::Interrupted))
        }
    }
}

impl<R: Read> Read for Interrupted<R> {
    fn read(&mut self, buf: &mut [u8]) -> io::Result<usize> {
        self.interrupt()?;
        self.device.read(buf)
    }
}

impl<W: Write> Write for Interrupted<W> {
    fn write(&mut self, buf: &[u8]) -> io::Result<usize> {
        self.interrupt()?;
        self.device.write(buf)
    }

    fn flush(&mut self) -> io::Result<()> {
        self.interrupt()?;
        self.device.flush()
    }
}

/// A talk over single bytes that is interrupted before each; what is written is appended to `out`.
fn talk_interrupted<R: Wait + Clock>(
    rt: &R,
    alloc: Global,
    out: &mut Vec<u8>,
) -> Result<Came, AllocError> {
    let reader = Interrupted::new(FailingReader {
        bytes: LINES,
        reads: 1000,
    });
    let writer = Interrupted::new(FailingWriter {
        bytes: out,
        writes: 1000,
        how: Failure::Error,
    });
    talk_over(rt, alloc, Steady::new(reader), Steady::new(writer))
}

#[test]
fn a_talk_goes_on_after_signals(rt: HostRuntime) -> Result<(), AllocError> {
    let mut out = Vec::new(rt.alloc());
    let came = talk_interrupted(&rt, rt.alloc(), &mut out)?;
    assert!(rt; out.as_slice() == ANSWERS);
    assert_eq!(rt; came, WHOLE);
    Ok(())
}
