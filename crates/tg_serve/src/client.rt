//! A client's connection, as its talk reads and writes it. Each read and write of the connection itself ends after a
//! tick, so that it is noticed when the client has kept the server waiting for too long, or when its round is over.
ghost use Rattle.std.specs.Prelude.{◌≡◌, ◌≤◌, ◌<◌, ◌++◌, ℕ, false, length, take, IfOk};
ghost use Rattle.tg_serve.specs.Inner.Beginning.{begins_otherwise};

use crate::beginning::Beginning;
use crate::budget::{Budget, SetAside};
use crate::desk::{Course, Desk};
use crate::door::tick;
use crate::request::Likeness;
use crate::tally::Tally;
use crate::waiting::{Waited, Waiting, too_long};
use memchr::memchr_iter;
use std::alloc::{AllocError, Global};
use std::io;
use std::io::{ErrorKind, Read, Write};
use std::net::OpenStream;
use std::rt::Clock;
use std::sync::atomic::Ordering;

/// The worker at which a client is served, and the desk to which it tells of it.
#[derive(Clone, Copy, Drop)]
pub(crate) struct Post<'a> {
    pub(crate) desk: &'a Desk,
    pub(crate) worker: u64,
}

/// The most bytes that are read at once.
const CHUNK: usize = 32_768;

/// Makes each read and each write of the connection end after a tick.
pub(crate) fn end_reads_and_writes_in_ticks<S: OpenStream>(stream: &S) -> io::Result<()> {
    stream.set_read_timeout(Some(tick()))?;
    stream.set_write_timeout(Some(tick()))
}

/// What a client sends. A read fails once the client has kept the server waiting for too long for a line: from the read
/// in which its first byte is awaited to that which brings its line feed. The client's lines are at an end as soon as
/// its round takes no more of them; and once its round waits for no more, as soon as those that have come are taken. A
/// read also fails if what has come begins as another protocol does, before any line of it is handed out.
pub(crate) struct ClientReader<'a, D, C> {
    device: D,
    clock: &'a C,
    budget: &'a Budget,
    post: Post<'a>,
    waiting: Waiting,
    beginning: Beginning,
    likeness: Likeness,
    /// What was read and not yet handed out, behind what was.
    read: Vec<u8>,
    handed_out: usize,
    /// What is set aside for the lines that were handed out last.
    set_aside: u64,
}

/// By hand, so that what is set aside is given back however a talk ends, also if nothing is read behind its last lines.
impl<D: Drop, C> Drop for ClientReader<'_, D, C> {
    fn drop(self) {
        let ClientReader {
            device,
            clock: _,
            budget,
            post: _,
            waiting: _,
            beginning: _,
            likeness: _,
            read,
            handed_out: _,
            set_aside,
        } = self;
        budget.give_back(set_aside);
        drop(device);
        drop(read);
    }
}

impl<'a, D: Read + Drop, C: Clock> ClientReader<'a, D, C> {
    /// What the client of this connection sends, with a patience of so many seconds. `AllocError` if there is no memory
    /// for what is read and not yet handed out, 32,768 bytes; none is needed if the memory of a round has no bound.
    pub(crate) fn new(
        alloc: Global,
        device: D,
        clock: &'a C,
        budget: &'a Budget,
        post: Post<'a>,
        patience: Option<u64>,
    ) -> Result<ClientReader<'a, D, C>, AllocError> {
        let room = if budget.is_bounded() { CHUNK } else { 0 };
        let read = Vec::with_capacity(alloc, room)?;
        Ok(ClientReader {
            device,
            clock,
            budget,
            post,
            waiting: Waiting::new(patience),
            beginning: Beginning::new(),
            likeness: Likeness::new(),
            read,
            handed_out: 0,
            set_aside: 0,
        })
    }

    /// Waits for bytes. None come once the client's lines, or those that its round takes, are at an end. Fails if all
    /// that has come begins as another protocol does.
    fn wait(&mut self, buf: &mut [u8]) -> io::Result<usize>
        ensures within { IfOk result (λ n. n ≤ length buf.new) }
        ensures len { length buf.new ≡ length buf.old }
        ensures begun { IfOk result (λ n. 0 < n → self.new.beginning ≡ take 8 (self.old.beginning ++ take n buf.new)) }
        ensures own { IfOk result (λ n. 0 < n → begins_otherwise (self.old.beginning ++ take n buf.new) ≡ false) }
    {
        let most = buf.len().min(CHUNK);
        for _ in 0..u64::MAX {
            let course = self.post.desk.course();
            if self.budget.is_spent() || course == Course::Over {
                return Ok(0);
            }
            if self.waiting.is_over() {
                return Err(too_long());
            }
            let start = self.waiting.start(self.clock)?;
            let result = self.device.read(&mut buf[..most]);
            let Waited::Moved(count) = self.waiting.note(self.clock, start, result)? else {
                if course == Course::Ending {
                    return Ok(0);
                }
                continue;
            };
            if self.beginning.note(&buf[..count]) || self.likeness.note(&buf[..count]) {
                return Err(io::Error::from(ErrorKind::InvalidData));
            }
            return Ok(count);
        }
        Ok(0)
    }

    /// Copies what was read before and not yet handed out.
    fn copy_rest(&self, buf: &mut [u8]) -> usize
        ensures within { result ≤ length buf.new }
        ensures len { length buf.new ≡ length buf.old }
    {
        let rest = self.read.get(self.handed_out..).unwrap_or(&[]);
        let count = rest.len().min(buf.len());
        buf[..count].copy_from_slice(&rest[..count]);
        count
    }

    /// Keeps what comes behind the first of these bytes, which are handed out.
    fn keep_rest(&mut self, bytes: &[u8], end: usize) -> io::Result<()>
        requires { end ≤ length bytes.now }
    {
        if self.handed_out < self.read.len() {
            self.handed_out = self.handed_out.saturating_add(end);
            return Ok(());
        }
        self.read.clear();
        self.handed_out = 0;
        if end < bytes.len() {
            self.read.extend_from_slice(&bytes[end..])?;
        }
        Ok(())
    }
}

impl<D: Read + Drop, C: Clock> Read for ClientReader<'_, D, C> {
    fn read(&mut self, buf: &mut [u8]) -> io::Result<usize> {
        self.budget.give_back(self.set_aside);
        self.set_aside = 0;
        let count = if self.handed_out < self.read.len() {
            self.copy_rest(buf)
        } else {
            self.wait(buf)?
        };
        let bytes = &buf[..count];
        let found = count_lines(bytes);
        if found > 0 {
            self.waiting.end();
        }
        let SetAside {
            lines,
            bytes: set_aside,
        } = self.budget.set_aside(found);
        self.set_aside = set_aside;
        let end = if lines < found {
            end_of_lines(bytes, lines)
        } else {
            count
        };
        if self.post.desk.has_places() && lines > 0 {
            self.post.desk.hear(self.clock, self.post.worker, lines);
        }
        self.keep_rest(bytes, end)?;
        Ok(end)
    }
}

/// How many line feeds there are.
fn count_lines(bytes: &[u8]) -> u64 {
    memchr_iter(b'\n', bytes).count() as u64
}

/// The place behind so many line feeds, or the end.
fn end_of_lines(bytes: &[u8], lines: u64) -> usize
    ensures { result ≤ length bytes.now }
{
    let mut left = lines;
    for (place, byte) in bytes.iter().enumerate() {
        if left == 0 {
            return place;
        }
        if *byte == b'\n' {
            left -= 1;
        }
    }
    bytes.len()
}

/// What a client is answered. A write fails once the client has kept the server waiting for too long until it took its
/// answers: all those that are written before more of its lines are read. Once its round takes no more lines, a write
/// also fails as soon as the client has taken nothing for a tick, or for less if a signal ends the wait, or has kept the
/// server waiting for a second in all.
#[derive(Drop)]
pub(crate) struct ClientWriter<'a, D, C> {
    device: D,
    clock: &'a C,
    budget: &'a Budget,
    post: Post<'a>,
    tally: Tally,
    waiting: Waiting,
}

impl<'a, D: Write, C: Clock> ClientWriter<'a, D, C> {
    /// What the client of this connection is answered, with a patience of so many seconds.
    pub(crate) fn new(
        device: D,
        clock: &'a C,
        budget: &'a Budget,
        post: Post<'a>,
        patience: Option<u64>,
    ) -> ClientWriter<'a, D, C> {
        ClientWriter {
            device,
            clock,
            budget,
            post,
            tally: Tally::new(),
            waiting: Waiting::new(patience),
        }
    }

    /// Whether the round takes no more lines.
    fn takes_no_more_lines(&self) -> bool {
        self.budget.is_spent() || self.post.desk.course() == Course::Over
    }

    /// Tells the desk what these answers are.
    fn tell(&mut self, bytes: &[u8]) {
        let desk = self.post.desk;
        let tallied = self.tally.note(bytes);
        desk.counts
            .refused
            .fetch_add(tallied.refused, Ordering::SeqCst);
        desk.counts
            .denied
            .fetch_add(tallied.denied, Ordering::SeqCst);
        desk.counts.full.fetch_add(tallied.full, Ordering::SeqCst);
        if let Some(principal) = tallied.greeted {
            desk.greet(self.post.worker, principal);
        }
    }
}

impl<D: Write, C: Clock> Write for ClientWriter<'_, D, C> {
    fn write(&mut self, buf: &[u8]) -> io::Result<usize> {
        for _ in 0..u64::MAX {
            if self.takes_no_more_lines() {
                self.waiting.hurry();
            }
            if self.waiting.is_over() {
                return Err(too_long());
            }
            let start = self.waiting.start(self.clock)?;
            let result = self.device.write(buf);
            if let Waited::Moved(count) = self.waiting.note(self.clock, start, result)? {
                if self.post.desk.has_places() {
                    self.tell(buf.get(..count).unwrap_or(buf));
                }
                return Ok(count);
            }
            if self.takes_no_more_lines() {
                return Err(too_long());
            }
        }
        Ok(0)
    }

    fn flush(&mut self) -> io::Result<()> {
        self.waiting.end();
        self.device.flush()
    }
}
