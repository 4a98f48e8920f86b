//! The control socket: one line in, one line out, for those who operate the server.

use crate::desk::{Desk, milliseconds};
use crate::door::{is_in_vain, tick};
use crate::status::{Serving, status_line};
use serde_json::Value;
use std::alloc::Global;
use std::io::{Read, Write};
use std::os::unix::net::{UnixListener, UnixStream};
use std::rt::Clock;
use std::sync::Wait;
use std::thread;
use std::time::Duration;

/// How long to rest when no client is waiting, in milliseconds.
const REST: u64 = 50;

/// For how many milliseconds a client is served.
const TURN: u64 = 5_000;

/// The longest line.
const LONGEST: usize = 4_096;

/// The usual number of seconds until clients are no longer waited for.
const USUAL_WITHIN: u64 = 10;

/// The greatest number of them: a day.
const MOST_WITHIN: u64 = 86_400;

/// The digits of that number.
const MOST_DIGITS: usize = 5;

/// What is asked.
#[derive(Clone, Copy, Debug, PartialEq, Eq)]
pub(crate) enum Request {
    /// What the server does.
    Status,
    /// To stop, after waiting this many seconds for clients.
    Stop { within: u64 },
    /// The same for this round alone.
    EndRound { within: u64 },
}

/// Serves one client of the socket after the other, each for at most five seconds, until the server has ended. The
/// listener has to be one that does not wait (`set_nonblocking`). Memory for a line is allocated at the start, so that
/// a server that has none left can still be stopped.
pub fn attend<R: Wait + Clock>(
    rt: &R,
    alloc: Global,
    listener: &UnixListener,
    desk: &Desk,
    serving: Serving,
) {
    let mut come = Vec::with_capacity(alloc, LONGEST).unwrap_or_else(|_| Vec::new(alloc));
    for _ in rt.forever() {
        if desk.has_ended() {
            break;
        }
        match listener.accept() {
            Ok((stream, _)) => serve_turn(rt, alloc, &stream, desk, serving, &mut come),
            Err(_) => thread::sleep(rt, Duration::from_millis(REST)),
        }
    }
}

/// Answers the lines of a client until its turn is over.
fn serve_turn<R: Wait + Clock>(
    rt: &R,
    alloc: Global,
    stream: &UnixStream,
    desk: &Desk,
    serving: Serving,
    come: &mut Vec<u8>,
) {
    come.clear();
    if stream.set_read_timeout(Some(tick())).is_err()
        || stream.set_write_timeout(Some(tick())).is_err()
    {
        return;
    }
    let end = milliseconds(rt).saturating_add(TURN);
    for _ in rt.forever() {
        if desk.has_ended() || milliseconds(rt) >= end {
            break;
        }
        let mut bytes = [0u8; 1_024];
        let mut device = stream;
        match device.read(&mut bytes) {
            Ok(0) => break,
            Ok(count) => {
                let more = bytes.get(..count).unwrap_or(&[]);
                if !answer_lines(rt, alloc, stream, desk, serving, come, more, end) {
                    break;
                }
            }
            Err(error) if is_in_vain(&error) => {}
            Err(_) => break,
        }
    }
}

/// Answers the lines that end in these bytes, which follow those that have come; returns whether its turn goes on.
fn answer_lines<C: Clock>(
    clock: &C,
    alloc: Global,
    stream: &UnixStream,
    desk: &Desk,
    serving: Serving,
    come: &mut Vec<u8>,
    more: &[u8],
    end: u64,
) -> bool {
    for byte in more {
        if *byte != b'\n' {
            if come.len() >= LONGEST || come.push(*byte).is_err() {
                return false;
            }
            continue;
        }
        let was_sent = match answer_to(clock, alloc, desk, serving, come) {
            Answer::Fixed(text) => send(clock, stream, desk, text.as_bytes(), end),
            Answer::Made(text) => send(clock, stream, desk, text.as_bytes(), end),
        };
        come.clear();
        if !was_sent {
            return false;
        }
    }
    true
}

/// Sends all bytes before this time, or before the client has taken none for a tick and the server has ended; returns
/// whether that was done.
fn send<C: Clock>(clock: &C, stream: &UnixStream, desk: &Desk, bytes: &[u8], end: u64) -> bool {
    let mut sent = 0usize;
    for _ in 0..u64::MAX {
        let rest = bytes.get(sent..).unwrap_or(&[]);
        if rest.is_empty() {
            return true;
        }
        if milliseconds(clock) >= end {
            return false;
        }
        let mut device = stream;
        match device.write(rest) {
            Ok(0) => return false,
            Ok(count) => sent = sent.saturating_add(count),
            Err(error) if is_in_vain(&error) && !desk.has_ended() => {}
            Err(_) => return false,
        }
    }
    false
}

/// The line of an answer.
#[derive(Drop)]
enum Answer {
    Fixed(&'static str),
    Made(String),
}

/// Does what a line asks, and returns the line of the answer. Memory is needed only for a status, and for a line that
/// `plain_request` does not read.
fn answer_to<C: Clock>(
    clock: &C,
    alloc: Global,
    desk: &Desk,
    serving: Serving,
    line: &[u8],
) -> Answer {
    let found = match plain_request(line) {
        Some(request) => Ok(request),
        None => request_in(alloc, line),
    };
    match found {
        Ok(Request::Status) => match status_line(clock, alloc, desk, serving) {
            Ok(text) => Answer::Made(text),
            Err(_) => Answer::Fixed(NO_MEMORY),
        },
        Ok(Request::Stop { within }) => {
            desk.stop(clock, within);
            Answer::Fixed("{\"ok\":\"stop\"}\n")
        }
        Ok(Request::EndRound { within }) => {
            desk.end_round(clock, within);
            Answer::Fixed("{\"ok\":\"end round\"}\n")
        }
        Err(text) => Answer::Fixed(text),
    }
}

const NO_MEMORY: &str = "{\"error\":\"no memory\"}\n";

const NOT_JSON: &str = "{\"error\":\"not json\"}\n";

const NOT_AN_OBJECT: &str = "{\"error\":\"not an object\"}\n";

const UNKNOWN_FIELD: &str = "{\"error\":\"unknown field\"}\n";

const BAD_FIELD: &str = "{\"error\":\"bad field\"}\n";

const UNKNOWN_OP: &str = "{\"error\":\"unknown op\"}\n";

/// The longest line that is read without memory.
const PLAIN: usize = 64;

/// What a line asks, if it is written plainly: `op` first, then `within`, with no escapes. Takes no memory.
pub(crate) fn plain_request(line: &[u8]) -> Option<Request> {
    let mut bytes = [0u8; PLAIN];
    let count = without_blanks(line, &mut bytes)?;
    let text = bytes.get(..count)?;
    if text == b"{\"op\":\"status\"}".as_slice() {
        return Some(Request::Status);
    }
    if let Some(rest) = text.strip_prefix(b"{\"op\":\"stop\"") {
        let within = plain_within(rest)?;
        return Some(Request::Stop { within });
    }
    let rest = text.strip_prefix(b"{\"op\":\"end round\"")?;
    let within = plain_within(rest)?;
    Some(Request::EndRound { within })
}

/// Copies a line without the blanks between its parts, and returns how long that is; none if it is too long, or if a
/// blank is between two digits.
fn without_blanks(line: &[u8], bytes: &mut [u8; PLAIN]) -> Option<usize> {
    let mut count = 0usize;
    let mut is_quoted = false;
    let mut last = 0u8;
    let mut is_apart = false;
    for byte in line {
        if *byte == b'"' {
            is_quoted = !is_quoted;
        }
        if *byte == b' ' && !is_quoted {
            is_apart = true;
            continue;
        }
        if is_apart && last.is_ascii_digit() && byte.is_ascii_digit() {
            return None;
        }
        *bytes.get_mut(count)? = *byte;
        count = count.saturating_add(1);
        last = *byte;
        is_apart = false;
    }
    Some(count)
}

/// The seconds that the rest of a plain line names; ten if it names none.
fn plain_within(rest: &[u8]) -> Option<u64> {
    if rest == b"}".as_slice() {
        return Some(USUAL_WITHIN);
    }
    let digits = rest.strip_prefix(b",\"within\":")?.strip_suffix(b"}")?;
    if digits.is_empty() || digits.len() > MOST_DIGITS || (digits.len() > 1 && digits[0] == b'0') {
        return None;
    }
    let mut seconds = 0u64;
    for digit in digits {
        if !digit.is_ascii_digit() {
            return None;
        }
        seconds = seconds
            .saturating_mul(10)
            .saturating_add(u64::from(digit.saturating_sub(b'0')));
    }
    if seconds > MOST_WITHIN {
        None
    } else {
        Some(seconds)
    }
}

/// What a line asks, or the line of its refusal.
pub(crate) fn request_in(alloc: Global, line: &[u8]) -> Result<Request, &'static str> {
    let value = match Value::from_slice(alloc, line) {
        Ok(value) => value,
        Err(error) if error.is_memory() => return Err(NO_MEMORY),
        Err(_) => return Err(NOT_JSON),
    };
    let Some(fields) = value.as_object() else {
        return Err(NOT_AN_OBJECT);
    };
    for key in fields.keys() {
        if key.as_str() != "op" && key.as_str() != "within" {
            return Err(UNKNOWN_FIELD);
        }
    }
    let Some(op) = value.get("op") else {
        return Err(BAD_FIELD);
    };
    let Some(op) = op.as_str() else {
        return Err(BAD_FIELD);
    };
    let within = within_of(value.get("within"))?;
    match op {
        "status" => Ok(Request::Status),
        "stop" => Ok(Request::Stop { within }),
        "end round" => Ok(Request::EndRound { within }),
        _ => Err(UNKNOWN_OP),
    }
}

/// The seconds that a field names; ten without one.
fn within_of(field: Option<&Value>) -> Result<u64, &'static str> {
    let Some(value) = field else {
        return Ok(USUAL_WITHIN);
    };
    match value.as_u64() {
        Some(seconds) if seconds <= MOST_WITHIN => Ok(seconds),
        _ => Err(BAD_FIELD),
    }
}
