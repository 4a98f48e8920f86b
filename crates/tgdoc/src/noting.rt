//! Readers and writers that note why they failed, and whether what is written is a refusal, so that standard error can
//! say more.

ghost use Rattle.std.specs.Prelude.{◌≡◌};

use std::io;
use std::io::{Read, Write};
use std::sync::atomic::{AtomicI32, AtomicU64, Ordering};

/// What is noted of a reader or a writer.
#[derive(Drop)]
pub(crate) struct Noted {
    /// The system's number of the last failure; 0 if there was none.
    number: AtomicI32,
    /// The refusal with which a write began, by its number; 0 if none did.
    refusal: AtomicU64,
}

/// A refusal after which nothing follows.
#[derive(Clone, Copy, Debug, PartialEq, Eq)]
pub(crate) enum Refusal {
    /// The configuration has this fault.
    Config(u64),
    /// The address cannot be listened on.
    Listen,
}

const CONFIG: &[u8] = b"{\"error\":\"config\",\"fault\":";

const LISTEN: &[u8] = b"{\"error\":\"listen\"}";

/// The number of an address that cannot be listened on, above those of configurations.
const LISTEN_NUMBER: u64 = 1_000;

impl Noted {
    /// No failure.
    pub(crate) fn new() -> Noted {
        Noted {
            number: AtomicI32::new(0),
            refusal: AtomicU64::new(0),
        }
    }

    /// The last failure.
    pub(crate) fn failure(&self) -> Option<io::Error> {
        match self.number.load(Ordering::SeqCst) {
            0 => None,
            number => Some(io::Error::from_raw_os_error(number)),
        }
    }

    /// The refusal with which a write began.
    pub(crate) fn refusal(&self) -> Option<Refusal> {
        match self.refusal.load(Ordering::SeqCst) {
            0 => None,
            LISTEN_NUMBER => Some(Refusal::Listen),
            fault => Some(Refusal::Config(fault)),
        }
    }

    /// Notes a refusal, if these bytes begin with one.
    fn hear(&self, bytes: &[u8]) {
        if bytes.starts_with(LISTEN) {
            self.refusal.store(LISTEN_NUMBER, Ordering::SeqCst);
        } else if let Some(rest) = bytes.strip_prefix(CONFIG) {
            self.refusal.store(fault_in(rest), Ordering::SeqCst);
        }
    }

    fn note(&self, error: &io::Error) {
        if let Some(number) = error.raw_os_error() {
            self.number.store(number, Ordering::SeqCst);
        }
    }
}

/// The number of a fault, of one digit or two.
fn fault_in(bytes: &[u8]) -> u64 {
    let mut fault = 0u64;
    for byte in bytes.iter().take(2) {
        if byte.is_ascii_digit() {
            let digit = u64::from(byte.saturating_sub(b'0'));
            fault = fault.saturating_mul(10).saturating_add(digit);
        }
    }
    fault
}

/// A reader or a writer whose failures are noted.
#[derive(Drop)]
pub(crate) struct Noting<'a, D> {
    device: D,
    noted: &'a Noted,
}

impl<'a, D> Noting<'a, D> {
    /// The device, whose failures are noted there.
    pub(crate) fn new(device: D, noted: &'a Noted) -> Noting<'a, D>
        ensures { result.device ≡ device }
    {
        Noting { device, noted }
    }
}

impl<R: Read> Read for Noting<'_, R> {
    ghost remaining = { λ n. R.remaining n.device };

    fn read(&mut self, buf: &mut [u8]) -> io::Result<usize> {
        let result = self.device.read(buf);
        if let Err(error) = &result {
            self.noted.note(error);
        }
        result
    }
}

impl<W: Write> Write for Noting<'_, W> {
    ghost contents = { λ n. W.contents n.device };

    fn write(&mut self, buf: &[u8]) -> io::Result<usize> {
        self.noted.hear(buf);
        let result = self.device.write(buf);
        if let Err(error) = &result {
            self.noted.note(error);
        }
        result
    }

    fn flush(&mut self) -> io::Result<()> {
        let result = self.device.flush();
        if let Err(error) = &result {
            self.noted.note(error);
        }
        result
    }
}
