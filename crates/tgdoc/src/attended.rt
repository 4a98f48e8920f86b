//! What is written beside a server: its log, and the file of its history.

use std::alloc::Global;
use std::fmt::{Display, Formatter};
use std::fs::{Files, OpenOptions};
use std::io::{BufWriter, Eprint, Write};
use std::rt::Clock;
use std::sync::Wait;
use std::time::Duration;
use std::{fmt, io, thread};
use tg_audit::entry_step;
use tg_serve::{Departure, Desk, Notice};
use tg_talk::TalkFault;
use tg_vault::Entry;
use tg_wire::{LineRoom, write_step_in};

/// How long to rest before looking again for what is to be written, in milliseconds.
const REST: u64 = 100;

/// Writes the server's notices on standard error, a line of JSON for each, until it has ended.
pub(crate) fn keep_log<N: Wait + Clock + Eprint>(rt: &N, alloc: Global, desk: &Desk) {
    for _ in rt.forever() {
        let is_last = desk.has_ended();
        let (notices, lost) = desk.take_notices(rt, alloc);
        for notice in notices {
            tell(rt, notice);
        }
        if lost > 0 {
            let _ = eprintln!(rt; "{{\"lost\":{lost}}}");
        }
        if is_last {
            break;
        }
        thread::sleep(rt, Duration::from_millis(REST));
    }
}

fn tell<N: Eprint>(rt: &N, notice: Notice) {
    match notice {
        Notice::Left(departure) => tell_departure(rt, departure),
        Notice::Settled {
            round,
            connections,
            entries,
        } => {
            let _ = eprintln!(rt;
                "{{\"round\":{round},\"connections\":{connections},\"entries\":{entries}}}"
            );
        }
    }
}

fn tell_departure<N: Eprint>(rt: &N, departure: Departure) {
    let Departure {
        connection,
        worker,
        principal,
        lines,
        fault,
        seconds,
    } = departure;
    let principal = OrNull(principal);
    let ended = word_of(fault);
    let _ = eprintln!(rt;
        "{{\"connection\":{connection},\"worker\":{worker},\"principal\":{principal},\"lines\":{lines},\"ended\":\"{ended}\",\"seconds\":{seconds}}}"
    );
}

/// A number as JSON writes it.
#[derive(Clone, Copy)]
struct OrNull(Option<u64>);

impl Display for OrNull {
    fn fmt<W: fmt::Write>(&self, f: &mut Formatter<W>) -> fmt::Result {
        match self.0 {
            Some(number) => write!(f, "{number}"),
            None => f.write_str("null"),
        }
    }
}

/// What ended a talk.
fn word_of(fault: Option<TalkFault>) -> &'static str {
    match fault {
        None => "lines",
        Some(TalkFault::Reading) => "reading",
        Some(TalkFault::Writing) => "writing",
        Some(TalkFault::TooLong) => "line too long",
        Some(TalkFault::TooMany) => "too many lines",
        Some(TalkFault::OutOfMemory) => "out of memory",
    }
}

/// Appends the histories of the server's rounds to the file until the server has ended; returns whether all was
/// written. After the first failure, which standard error reports, nothing more is written.
pub(crate) fn keep_history<N: Wait + Clock, H: Files + Eprint>(
    rt: &N,
    host: &H,
    alloc: Global,
    desk: &Desk,
    path: &str,
) -> bool {
    let mut is_whole = true;
    for _ in rt.forever() {
        let is_last = desk.has_ended();
        for history in desk.take_histories(rt, alloc) {
            is_whole = is_whole && append_or_say(host, alloc, path, &history.entries);
            desk.drop_history(history);
        }
        if is_whole && desk.lacks_history() {
            let _ = eprintln!(host; "tgdoc: {path}: no memory for the history of a round");
            is_whole = false;
        }
        if is_last {
            break;
        }
        thread::sleep(rt, Duration::from_millis(REST));
    }
    is_whole
}

/// Whether the file can be appended to; it is made if there is none. If not, standard error says why.
pub(crate) fn can_append<N: Files + Eprint>(rt: &N, alloc: Global, path: &str) -> bool {
    append_or_say(rt, alloc, path, &[])
}

/// Appends lines of the steps that changed edges to the file; returns whether that was done. If not, standard error
/// says why.
fn append_or_say<N: Files + Eprint>(rt: &N, alloc: Global, path: &str, history: &[Entry]) -> bool {
    match append(rt, alloc, path, history) {
        Ok(()) => true,
        Err(error) => {
            let _ = eprintln!(rt; "tgdoc: {path}: {error}");
            false
        }
    }
}

fn append<N: Files>(rt: &N, alloc: Global, path: &str, history: &[Entry]) -> io::Result<()> {
    let file = OpenOptions::new().append(true).create(true).open(rt, path)?;
    let mut writer = BufWriter::new(alloc, file)?;
    let mut room = LineRoom::new(alloc);
    for entry in history {
        if let Some(step) = entry_step(entry) {
            write_step_in(&mut room, &step)?;
            writer.write_all(room.line())?;
        }
    }
    writer.flush()
}
