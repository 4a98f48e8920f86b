//! The door of a server, at which its workers take clients.

use crate::desk::milliseconds;
use std::io::ErrorKind;
use std::net::{TcpListener, TcpStream};
use std::os::fd::OwnedFd;
use std::rt::Clock;
use std::sync::atomic::{AtomicBool, Ordering};
use std::sync::{Mutex, Wait};
use std::time::Duration;
use std::{io, thread};

/// How long a call waits before the server checks whether to wait on, in milliseconds.
const TICK: u64 = 250;

/// For how long, in milliseconds, a client that cannot be accepted for lack of descriptors or memory is tried again.
const LONGEST_RESTING: u64 = 10_000;

/// How long to rest between two looks at a listener that does not wait, in milliseconds.
const REST: u64 = 50;

/// The longest rest between two tries, in milliseconds.
const LONGEST_REST: u64 = 500;

/// The listener, and how many connections are left in a round. One worker waits at the door at a time, so each takes a
/// connection under the lock under which it has looked whether one is left.
#[derive(Drop)]
pub(crate) struct Door<'a> {
    listener: &'a TcpListener,
    /// A client that came while the door of an earlier round was being closed: it is taken before all others.
    late: &'a Mutex<Option<TcpStream>>,
    left: Mutex<u64>,
    is_closed: AtomicBool,
}

/// A connection that was taken.
#[derive(Drop)]
pub(crate) enum Taken {
    /// A client came.
    Client(TcpStream),
    /// The connection counts, but could not be accepted.
    Nobody,
}

impl<'a> Door<'a> {
    /// A door at which this many connections are left.
    pub(crate) fn new(
        listener: &'a TcpListener,
        late: &'a Mutex<Option<TcpStream>>,
        connections: u64,
    ) -> Door<'a> {
        Door {
            listener,
            late,
            left: Mutex::new(connections),
            is_closed: AtomicBool::new(false),
        }
    }

    /// Waits for a client, and takes it from the connections left. None once none is left or the door is closed; a
    /// client that comes while it is being closed is left to the next round. One that cannot be accepted for lack of
    /// descriptors or memory is tried again for ten seconds, with growing rests, before it counts as a connection; one
    /// that fails otherwise counts at once.
    pub(crate) fn take<R: Wait + Clock>(&self, rt: &R) -> Option<Taken> {
        let mut left = self.left.lock(rt);
        let mut rests = Rests::new();
        for _ in rt.forever() {
            if *left == 0 || self.is_closed() {
                return None;
            }
            if let Some(stream) = self.take_late(rt) {
                return self.let_in(rt, &mut left, stream);
            }
            let start = milliseconds(rt);
            match self.listener.accept() {
                Ok((stream, _)) => return self.let_in(rt, &mut left, stream),
                Err(error) if is_tick(&error) => rest_since(rt, start),
                Err(error) if is_want(&error) && rests.rest(rt) => {}
                Err(_) => {
                    *left = left.saturating_sub(1);
                    return Some(Taken::Nobody);
                }
            }
        }
        None
    }

    /// Takes a client who has come from the connections left, or leaves it to the next round if the door is closed by
    /// now. There is no other such client: one that was there has been taken before another is accepted.
    pub(crate) fn let_in<R: Wait>(
        &self,
        rt: &R,
        left: &mut u64,
        stream: TcpStream,
    ) -> Option<Taken> {
        if self.is_closed() {
            *self.late.lock(rt) = Some(stream);
            return None;
        }
        *left = left.saturating_sub(1);
        Some(Taken::Client(stream))
    }

    /// The client that an earlier round has left, if there is one.
    fn take_late<R: Wait>(&self, rt: &R) -> Option<TcpStream> {
        let mut late = self.late.lock(rt);
        late.take()
    }

    /// Lets nobody in any more.
    pub(crate) fn close(&self) {
        self.is_closed.store(true, Ordering::SeqCst);
    }

    /// Whether nobody is let in any more.
    fn is_closed(&self) -> bool {
        self.is_closed.load(Ordering::SeqCst)
    }

    /// How many connections are left.
    pub(crate) fn left<R: Wait>(&self, rt: &R) -> u64 {
        *self.left.lock(rt)
    }
}

/// How long a call waits before the server checks whether to wait on.
pub(crate) fn tick() -> Duration {
    Duration::from_millis(TICK)
}

/// Makes each wait of the listener for a client end after a tick, so that a door that is closed is noticed. That takes
/// a descriptor for a moment; if there is none, the listener does not wait at all. An error if neither can be set: then
/// it waits for ever.
pub(crate) fn end_accepts_in_ticks(listener: &TcpListener) -> io::Result<()> {
    match set_ticks(listener) {
        Ok(()) => Ok(()),
        Err(_) => listener.set_nonblocking(true),
    }
}

fn set_ticks(listener: &TcpListener) -> io::Result<()> {
    let twin = TcpStream::from(OwnedFd::from(listener.try_clone()?));
    twin.set_read_timeout(Some(tick()))
}

/// Rests until a rest has passed since this time, in milliseconds; not at all if the listener has waited for a tick.
fn rest_since<R: Clock>(rt: &R, start: u64) {
    let passed = milliseconds(rt).saturating_sub(start);
    if passed < REST {
        thread::sleep(rt, Duration::from_millis(REST - passed));
    }
}

/// Whether a call ended only because it had waited for a tick.
pub(crate) fn is_tick(error: &io::Error) -> bool {
    matches!(error.kind(), ErrorKind::WouldBlock | ErrorKind::TimedOut)
}

/// Whether a call only waited: for a tick, or until a signal interrupted it.
pub(crate) fn is_in_vain(error: &io::Error) -> bool {
    is_tick(error) || error.kind() == ErrorKind::Interrupted
}

/// The system's numbers for: too many files open in the system, too many in the process, no room for a buffer, no
/// memory.
const WANTS: [i32; 4] = [23, 24, 105, 12];

/// Whether a call failed for lack of descriptors or memory.
pub(crate) fn is_want(error: &io::Error) -> bool {
    error
        .raw_os_error()
        .is_some_and(|number| WANTS.contains(&number))
}

/// The rests between tries: a millisecond at first, then twice as long each time, up to half a second.
#[derive(Clone, Copy, Debug)]
pub(crate) struct Rests {
    next: u64,
    done: u64,
}

impl Rests {
    pub(crate) fn new() -> Rests {
        Rests { next: 1, done: 0 }
    }

    /// The next rest, in milliseconds; none after ten seconds of them.
    pub(crate) fn take(&mut self) -> Option<u64> {
        if self.done >= LONGEST_RESTING {
            return None;
        }
        let rest = self.next;
        self.done = self.done.saturating_add(rest);
        self.next = rest.saturating_mul(2).min(LONGEST_REST);
        Some(rest)
    }

    /// Rests; whether there was a rest left.
    fn rest<R: Clock>(&mut self, rt: &R) -> bool {
        match self.take() {
            Some(rest) => {
                thread::sleep(rt, Duration::from_millis(rest));
                true
            }
            None => false,
        }
    }
}
