//! A reader or a writer that remembers whether it failed.

ghost use Rattle.std.specs.Prelude.{◌≡◌, ◌||◌, [], false, true, is_err};
ghost use Rattle.std.specs.Io.{ReadsAtMost, WritesAtMost};
ghost use Rattle.std.specs.Io.KnownBytes.{ReadConsumes, WriteAppends, Keeps};
ghost use Rattle.tg_talk.specs.Promise.Devices.{device_of, has_failed, owed, promised, took_none};

use std::io;
use std::io::{BufWriter, Read, Write};

/// A reader or a writer, and whether a read or a write on it has failed: whether one returned an error, a write took 0
/// bytes of some, or `pay` failed. Once it has failed, that stays noted.
#[derive(Drop)]
pub struct Watched<D> {
    device: D,
    failed: bool,
}

impl<D> Watched<D> {
    /// The device, which has not failed yet.
    pub fn new(device: D) -> Watched<D>
        ensures device { device_of result ≡ device }
        ensures failed { has_failed result ≡ false }
    {
        Watched {
            device,
            failed: false,
        }
    }

    /// Whether a read or a write has failed.
    pub fn failed(&self) -> bool
        ensures { result ≡ has_failed self.now }
    {
        self.failed
    }
}

impl<W: Write + Drop> Watched<BufWriter<W>> {
    /// Writes the answers that are held back; returns whether that was done. If it fails, what was not written stays
    /// held back.
    pub fn pay(&mut self) -> bool
        ensures paid { result ≡ true → owed self.new ≡ [] }
        ensures kept { Keeps (promised W.contents self.old) (promised W.contents self.new) }
        ensures unfailed { result ≡ true → has_failed self.new ≡ has_failed self.old }
        ensures failed { result ≡ false → has_failed self.new ≡ true }
    {
        match Write::flush(&mut self.device) {
            Ok(()) => true,
            Err(_) => {
                self.failed = true;
                false
            }
        }
    }
}

impl<R: Read> Read for Watched<R> {
    ghost remaining = { λ w. R.remaining (device_of w) };

    fn read(&mut self, buf: &mut [u8]) -> io::Result<usize>
        ensures bound { ReadsAtMost result buf.new }
        ensures bytes { ReadConsumes (R.remaining (device_of self.old)) (R.remaining (device_of self.new)) result buf.new }
        ensures failed { has_failed self.new ≡ (has_failed self.old || is_err result) }
    {
        let result = self.device.read(buf);
        if result.is_err() {
            self.failed = true;
        }
        result
    }
}

impl<W: Write> Write for Watched<W> {
    ghost contents = { λ w. W.contents (device_of w) };

    fn write(&mut self, buf: &[u8]) -> io::Result<usize>
        ensures bound { WritesAtMost result buf.now }
        ensures bytes { WriteAppends (W.contents (device_of self.old)) (W.contents (device_of self.new)) result buf.now }
        ensures failed { has_failed self.new ≡ (has_failed self.old || took_none result buf.now) }
    {
        let result = self.device.write(buf);
        match &result {
            Ok(taken) => {
                if *taken == 0 && !buf.is_empty() {
                    self.failed = true;
                }
            }
            Err(_) => self.failed = true,
        }
        result
    }

    fn flush(&mut self) -> io::Result<()>
        ensures bytes { Keeps (W.contents (device_of self.old)) (W.contents (device_of self.new)) }
        ensures failed { has_failed self.new ≡ has_failed self.old }
    {
        self.device.flush()
    }
}
