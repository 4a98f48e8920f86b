//! Clients that keep a server waiting, on a clock that goes as a script says.

use crate::budget::Budget;
use crate::client::{ClientReader, ClientWriter, Post};
use crate::desk::Desk;
use std::alloc::{AllocError, Global};
use std::io;
use std::io::{ErrorKind, Read, Write};
use std::rt::Clock;
use std::sync::atomic::{AtomicU64, Ordering};
use std::time::Duration;
use tg_rights::{Command, Reply};

/// A clock that is moved on by hand.
#[derive(Drop)]
pub(crate) struct Hands {
    milliseconds: AtomicU64,
}

impl Hands {
    pub(crate) fn new() -> Hands {
        Hands {
            milliseconds: AtomicU64::new(0),
        }
    }

    pub(crate) fn move_on(&self, by: u64) {
        self.milliseconds.fetch_add(by, Ordering::SeqCst);
    }
}

impl Clock for Hands {
    fn monotonic(&self) -> io::Result<Duration> {
        Ok(Duration::from_millis(self.milliseconds.load(Ordering::SeqCst)))
    }

    fn since_1970(&self) -> io::Result<Duration> {
        self.monotonic()
    }
}

/// What a read or a write of a connection does.
#[derive(Clone, Copy)]
enum Step {
    /// After so many milliseconds these bytes come, or as many are taken.
    Moves(u64, &'static [u8]),
    /// Ticks pass, one for each call.
    Ticks(u32),
    /// A signal interrupts it after so many milliseconds.
    Interrupted(u64),
}

/// A connection that does what a script says, and is at its end behind it.
#[derive(Drop)]
struct Scripted<'a> {
    clock: &'a Hands,
    steps: &'static [Step],
    next: usize,
    ticks: u32,
}

impl<'a> Scripted<'a> {
    fn new(clock: &'a Hands, steps: &'static [Step]) -> Scripted<'a> {
        Scripted {
            clock,
            steps,
            next: 0,
            ticks: 0,
        }
    }

    /// The bytes of the next step.
    fn step(&mut self) -> io::Result<&'static [u8]> {
        let Some(step) = self.steps.get(self.next) else {
            return Ok(b"");
        };
        match *step {
            Step::Moves(time, bytes) => {
                self.next = self.next.saturating_add(1);
                self.clock.move_on(time);
                Ok(bytes)
            }
            Step::Ticks(count) => {
                self.ticks = self.ticks.saturating_add(1);
                if self.ticks >= count {
                    self.ticks = 0;
                    self.next = self.next.saturating_add(1);
                }
                self.clock.move_on(250);
                Err(io::Error::from(ErrorKind::WouldBlock))
            }
            Step::Interrupted(time) => {
                self.next = self.next.saturating_add(1);
                self.clock.move_on(time);
                Err(io::Error::from(ErrorKind::Interrupted))
            }
        }
    }
}

impl Read for Scripted<'_> {
    fn read(&mut self, buf: &mut [u8]) -> io::Result<usize> {
        let mut bytes = self.step()?;
        bytes.read(buf)
    }
}

impl Write for Scripted<'_> {
    fn write(&mut self, buf: &[u8]) -> io::Result<usize> {
        let bytes = self.step()?;
        Ok(bytes.len().min(buf.len()))
    }

    fn flush(&mut self) -> io::Result<()> {
        Ok(())
    }
}

/// How many bytes reads return, one after the other, until one returns none or fails; and whether the last one failed.
fn reads(
    alloc: Global,
    steps: &'static [Step],
    patience: Option<u64>,
    budget: &Budget,
) -> Result<(Vec<usize>, bool), AllocError> {
    reads_at(alloc, steps, patience, budget, &Desk::unattended(alloc))
}

/// The same at the first worker's place of a desk.
fn reads_at(
    alloc: Global,
    steps: &'static [Step],
    patience: Option<u64>,
    budget: &Budget,
    desk: &Desk,
) -> Result<(Vec<usize>, bool), AllocError> {
    let clock = Hands::new();
    let device = Scripted::new(&clock, steps);
    let post = Post { desk, worker: 0 };
    let mut reader = ClientReader::new(alloc, device, &clock, budget, post, patience)?;
    let mut counts = Vec::new(alloc);
    let mut buf = [0u8; 16];
    for _ in 0..100u32 {
        match reader.read(&mut buf) {
            Ok(0) => return Ok((counts, false)),
            Ok(count) => counts.push(count)?,
            Err(_) => return Ok((counts, true)),
        }
    }
    Ok((counts, false))
}

/// What a connection does, the bytes of each read under a patience of two seconds, and whether the last read fails.
const READS: &[(&[Step], &[usize], bool)] = &[
    (
        &[Step::Moves(100, b"a\n"), Step::Moves(100, b"b\nc")],
        &[2, 3],
        false,
    ),
    // A line comes after seven ticks; after an eighth it would be too late.
    (&[Step::Ticks(7), Step::Moves(100, b"a\n")], &[2], false),
    (&[Step::Ticks(8), Step::Moves(0, b"a\n")], &[], true),
    // A line whose bytes come one by one has two seconds in all.
    (
        &[
            Step::Ticks(2),
            Step::Moves(250, b"a"),
            Step::Ticks(2),
            Step::Moves(250, b"b"),
            Step::Ticks(2),
            Step::Moves(0, b"\n"),
        ],
        &[1, 1],
        true,
    ),
    // The next line has its own two seconds, also if it begins with what came behind the last one.
    (
        &[
            Step::Ticks(5),
            Step::Moves(0, b"a\nb"),
            Step::Ticks(5),
            Step::Moves(0, b"\n"),
        ],
        &[3, 1],
        false,
    ),
    // A process that is stopped for a minute goes on, and the client has lost a tick of its time.
    (
        &[
            Step::Interrupted(60_000),
            Step::Ticks(6),
            Step::Moves(0, b"a\n"),
        ],
        &[2],
        false,
    ),
];

#[test]
fn a_line_has_its_time(rt: HostRuntime) -> Result<(), AllocError> {
    for (steps, counts, fails) in READS {
        let budget = Budget::new(None, 1);
        let (found, failed) = reads(rt.alloc(), *steps, Some(2), &budget)?;
        assert!(rt; found.as_slice() == *counts);
        assert!(rt; failed == *fails);
    }
    Ok(())
}

/// Connections that begin as another protocol does, and the bytes of each read before one fails: none if that comes at
/// once, and otherwise only what may yet become another line.
const OTHERS: &[(&[Step], &[usize])] = &[
    (&[Step::Moves(0, b"POST / HTTP/1.1\n")], &[]),
    (&[Step::Moves(0, b"GET /\n{}\n")], &[]),
    (
        &[
            Step::Moves(0, b"OPT"),
            Step::Moves(0, b"IONS"),
            Step::Moves(0, b" *\n{}\n"),
        ],
        &[3, 4],
    ),
    (&[Step::Moves(0, b"Foo-1 /x\n{}\n")], &[]),
    (
        &[
            Step::Moves(0, b"a.method"),
            Step::Moves(0, b" "),
            Step::Moves(0, b"/\n{}\n"),
        ],
        &[8, 1],
    ),
    (&[Step::Moves(0, b"\x16\x03\x01\n{}\n")], &[]),
    (
        &[Step::Moves(0, b"\x16"), Step::Moves(0, b"\x03\n{}\n")],
        &[1],
    ),
    (&[Step::Moves(0, b"\x00\x01\n{}\n")], &[]),
    (
        &[Step::Moves(0, b"\x00"), Step::Moves(0, b"\x03\n{}\n")],
        &[1],
    ),
];

/// Connections that do not, and the bytes of each read: only the first bytes tell.
const OWN: &[(&[Step], &[usize])] = &[
    (&[Step::Moves(0, b"{}\nPOST / HTTP/1\n")], &[16]),
    (
        &[
            Step::Moves(0, b"{}\n"),
            Step::Moves(0, b"{}\n{}\n"),
            Step::Moves(0, b"GET /\n"),
        ],
        &[3, 6, 6],
    ),
    (
        &[Step::Moves(0, b"POST"), Step::Moves(0, b"\n{}\n")],
        &[4, 4],
    ),
    (&[Step::Moves(0, b"get me /\n")], &[9]),
    (&[Step::Moves(0, b"get\n/\n")], &[6]),
    (
        &[
            Step::Moves(0, b"get"),
            Step::Moves(0, b"  "),
            Step::Moves(0, b"/\n"),
        ],
        &[3, 2, 2],
    ),
    (&[Step::Moves(0, b" GET /\n")], &[7]),
    (&[Step::Moves(0, b"\nGET /\n")], &[7]),
    (&[Step::Moves(0, b"\x16\n\x03\n")], &[4]),
];

/// A connection that begins as another protocol does fails before any line of it is handed out, in however many pieces
/// it comes.
#[test]
fn other_protocols_have_no_lines(rt: HostRuntime) -> Result<(), AllocError> {
    for (steps, counts) in OTHERS {
        let budget = Budget::new(None, 1);
        let (found, failed) = reads(rt.alloc(), *steps, None, &budget)?;
        assert!(rt; found.as_slice() == *counts && failed);
    }
    for (steps, counts) in OWN {
        let budget = Budget::new(None, 1);
        let (found, failed) = reads(rt.alloc(), *steps, None, &budget)?;
        assert!(rt; found.as_slice() == *counts && !failed);
    }
    Ok(())
}

const LATE: &[Step] = &[
    Step::Interrupted(1_000_000),
    Step::Ticks(40),
    Step::Moves(1_000_000, b"a"),
    Step::Ticks(40),
    Step::Moves(1_000_000, b"\n"),
];

#[test]
fn a_line_has_all_time_without_patience(rt: HostRuntime) -> Result<(), AllocError> {
    let budget = Budget::new(None, 1);
    let (found, failed) = reads(rt.alloc(), LATE, None, &budget)?;
    assert!(rt; found.as_slice() == [1, 1].as_slice());
    assert!(rt; !failed);
    Ok(())
}

const LINES: &[Step] = &[Step::Moves(0, b"a\nbb\nccc\nd"), Step::Moves(0, b"\n")];

/// As long as little memory is left, lines are handed out one by one, and no byte is lost.
#[test]
fn lines_are_handed_out_one_by_one(rt: HostRuntime) -> Result<(), AllocError> {
    let budget = Budget::new(Some(1_000), 1);
    let (found, failed) = reads(rt.alloc(), LINES, None, &budget)?;
    assert!(rt; found.as_slice() == [2, 3, 5, 1].as_slice());
    assert!(rt; !failed);
    Ok(())
}

/// Reads once, and then nobody reads any more; how many bytes came.
fn reads_once(alloc: Global, budget: &Budget) -> Result<usize, AllocError> {
    let clock = Hands::new();
    let device = Scripted::new(&clock, LINES);
    let desk = Desk::unattended(alloc);
    let post = Post {
        desk: &desk,
        worker: 0,
    };
    let mut reader = ClientReader::new(alloc, device, &clock, budget, post, None)?;
    let mut buf = [0u8; 16];
    Ok(reader.read(&mut buf).unwrap_or(0))
}

/// What is set aside for the lines of the last read, three of 2,097,440 bytes each, is given back, though no read
/// follows.
#[test]
fn what_is_set_aside_is_given_back(rt: HostRuntime) -> Result<(), AllocError> {
    let budget = Budget::new(Some(20_000_000), 1);
    let unused = Budget::new(Some(20_000_000), 1);
    assert!(rt; reads_once(rt.alloc(), &budget)? == 10);
    let found = budget.set_aside(9);
    assert!(rt; found == unused.set_aside(9) && found.lines == 9);
    Ok(())
}

/// Once no memory is left a client's lines are at an end.
#[test]
fn lines_end_once_no_memory_is_left(rt: HostRuntime) -> Result<(), AllocError> {
    let budget = Budget::new(Some(320), 1);
    assert!(rt; budget.keep(&Command::leave(), &Reply::Done));
    let (found, failed) = reads(rt.alloc(), LINES, None, &budget)?;
    assert!(rt; found.is_empty());
    assert!(rt; !failed);
    Ok(())
}

/// Two lines come, a tick passes, and another line comes.
const TICKED: &[Step] = &[
    Step::Moves(0, b"a\nb\n"),
    Step::Ticks(1),
    Step::Moves(0, b"c\n"),
];

/// Once clients are not waited for, those lines are taken that have come; a second later none is.
#[test]
fn lines_end_with_those_that_have_come(rt: HostRuntime) -> Result<(), AllocError> {
    let clock = Hands::new();
    let desk = Desk::new(rt.alloc(), 1)?;
    let budget = Budget::new(None, 1);
    desk.end_round(&clock, 5);
    desk.advance(&clock);
    let (open, _) = reads_at(rt.alloc(), TICKED, None, &budget, &desk)?;
    assert!(rt; open.as_slice() == [4, 2].as_slice());
    clock.move_on(5_000);
    desk.advance(&clock);
    let (ending, failed) = reads_at(rt.alloc(), TICKED, None, &budget, &desk)?;
    assert!(rt; ending.as_slice() == [4].as_slice() && !failed);
    clock.move_on(1_000);
    desk.advance(&clock);
    let (over, failed) = reads_at(rt.alloc(), TICKED, None, &budget, &desk)?;
    assert!(rt; over.is_empty() && !failed);
    Ok(())
}

/// How many bytes are written, of sixteen at a time, until a write fails or all steps are done; flushes in between.
fn writes(
    alloc: Global,
    steps: &'static [Step],
    patience: Option<u64>,
    flushes: bool,
) -> (usize, bool) {
    let (budget, desk) = (Budget::new(None, 1), Desk::unattended(alloc));
    writes_at(steps, patience, flushes, &budget, &desk)
}

/// The same in the round of a desk.
fn writes_at(
    steps: &'static [Step],
    patience: Option<u64>,
    flushes: bool,
    budget: &Budget,
    desk: &Desk,
) -> (usize, bool) {
    let clock = Hands::new();
    let device = Scripted::new(&clock, steps);
    let post = Post { desk, worker: 0 };
    let mut writer = ClientWriter::new(device, &clock, budget, post, patience);
    let mut written = 0usize;
    for _ in 0..100u32 {
        match writer.write(b"0123456789abcdef") {
            Ok(0) => return (written, false),
            Ok(count) => written = written.saturating_add(count),
            Err(_) => return (written, true),
        }
        if flushes && writer.flush().is_err() {
            return (written, true);
        }
    }
    (written, false)
}

/// Each write waits for a second.
const SLOW: &[Step] = &[
    Step::Ticks(3),
    Step::Moves(250, b"0123"),
    Step::Ticks(3),
    Step::Moves(250, b"01234567"),
    Step::Ticks(3),
    Step::Moves(250, b"0123456789abcdef"),
];

/// Answers that are taken bit by bit have two seconds in all, and so have those behind a flush.
#[test]
fn answers_have_their_time(rt: HostRuntime) {
    assert!(rt; writes(rt.alloc(), SLOW, Some(2), false) == (12, true));
    assert!(rt; writes(rt.alloc(), SLOW, Some(2), true) == (28, false));
    assert!(rt; writes(rt.alloc(), SLOW, Some(4), false) == (28, false));
    assert!(rt; writes(rt.alloc(), SLOW, None, false) == (28, false));
}

/// Two writes are taken at once, and the third one behind a tick.
const STUCK: &[Step] = &[
    Step::Moves(200, b"0123"),
    Step::Moves(200, b"01234567"),
    Step::Ticks(1),
    Step::Moves(0, b"0123456789abcdef"),
];

/// A client has its answers, however late it takes them, until its round takes no more lines; from then on it has those
/// that it takes without a tick in between.
#[test]
fn answers_end_with_their_round(rt: HostRuntime) {
    let clock = Hands::new();
    let desk = Desk::unattended(rt.alloc());
    let budget = Budget::new(None, 1);
    desk.end_round(&clock, 5);
    clock.move_on(5_000);
    desk.advance(&clock);
    assert!(rt; writes_at(STUCK, None, false, &budget, &desk) == (28, false));
    clock.move_on(1_000);
    desk.advance(&clock);
    assert!(rt; writes_at(STUCK, None, false, &budget, &desk) == (12, true));
    assert!(rt; writes_at(SLOW, None, false, &budget, &desk) == (0, true));
}

/// A little of the answers is taken within each tick.
const TRICKLED: &[Step] = &[
    Step::Moves(200, b"01"),
    Step::Moves(200, b"23"),
    Step::Moves(200, b"45"),
    Step::Moves(200, b"67"),
    Step::Moves(200, b"89"),
    Step::Moves(200, b"ab"),
    Step::Moves(200, b"cd"),
];

/// A client that takes its answers bit by bit has a second for all of them once its round takes no more lines, flushes
/// or not, and no more than its patience.
#[test]
fn last_answers_have_a_second(rt: HostRuntime) {
    let (clock, desk) = (Hands::new(), Desk::unattended(rt.alloc()));
    let budget = Budget::new(None, 1);
    desk.end_round(&clock, 0);
    desk.advance(&clock);
    assert!(rt; writes_at(TRICKLED, None, false, &budget, &desk) == (14, false));
    clock.move_on(1_000);
    desk.advance(&clock);
    assert!(rt; writes_at(TRICKLED, None, false, &budget, &desk) == (10, true));
    assert!(rt; writes_at(TRICKLED, None, true, &budget, &desk) == (10, true));
    assert!(rt; writes_at(TRICKLED, Some(2), false, &budget, &desk) == (10, true));
    assert!(rt; writes_at(STUCK, Some(1), false, &budget, &desk) == (12, true));
}

/// The same if the memory of the round is used up.
#[test]
fn answers_end_once_no_memory_is_left(rt: HostRuntime) {
    let desk = Desk::unattended(rt.alloc());
    let budget = Budget::new(Some(640), 1);
    assert!(rt; !budget.keep(&Command::leave(), &Reply::Done));
    assert!(rt; writes_at(STUCK, None, false, &budget, &desk) == (28, false));
    assert!(rt; budget.keep(&Command::leave(), &Reply::Done));
    assert!(rt; writes_at(STUCK, None, false, &budget, &desk) == (12, true));
    assert!(rt; writes_at(TRICKLED, None, false, &budget, &desk) == (10, true));
}
