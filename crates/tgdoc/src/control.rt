//! Asks a server at its control socket, and shows what it answers.

use crate::operation::Request;
use crate::saying::say_no_memory;
use serde_json::Value;
use std::alloc::{AllocError, Global};
use std::fmt::Write as Put;
use std::io::{Eprint, ErrorKind, Print, Read, Write};
use std::net::Net;
use std::os::unix::net::UnixStream;
use std::rt::Clock;
use std::sync::Wait;
use std::time::Duration;
use std::{io, thread};
use tg_talk::Steady;

/// The line that asks for the status.
const STATUS: &str = "{\"op\":\"status\"}\n";

/// For how many seconds an answer is waited for.
const PATIENCE: u64 = 10;

/// The longest answer.
const LONGEST: usize = 65_536;

/// How many marks the bar of what is free has.
const MARKS: u64 = 40;

/// Asks the server, and prints its answer, or a table of it again and again; returns whether the server did what was
/// asked.
pub(crate) fn ask<N: Wait + Clock + Net + Print + Eprint>(
    rt: &N,
    alloc: Global,
    path: &str,
    request: Request,
) -> bool {
    match request {
        Request::Status {
            watch: Some(seconds),
        } => watch(rt, alloc, path, seconds),
        Request::Status { watch: None } => ask_once(rt, alloc, path, STATUS),
        Request::Stop { within } => ask_within(rt, alloc, path, "stop", within),
        Request::EndRound { within } => ask_within(rt, alloc, path, "end round", within),
    }
}

fn ask_within<N: Net + Print + Eprint>(
    rt: &N,
    alloc: Global,
    path: &str,
    op: &str,
    within: u64,
) -> bool {
    let Ok(line) = format!(in alloc; "{{\"op\":\"{op}\",\"within\":{within}}}\n") else {
        say_no_memory(rt);
        return false;
    };
    ask_once(rt, alloc, path, line.as_str())
}

/// Asks once, and prints the answer; returns whether it is not an error.
fn ask_once<N: Net + Print + Eprint>(rt: &N, alloc: Global, path: &str, line: &str) -> bool {
    let Some(answer) = answer_or_say(rt, alloc, path, line) else {
        return false;
    };
    let was_told = print_or_say(rt, &answer);
    was_told && !answer.starts_with(b"{\"error\"")
}

/// Prints an answer or a table; returns whether that was done. If not, standard error says why.
fn print_or_say<N: Print + Eprint>(rt: &N, text: &[u8]) -> bool {
    match rt.write_all(text) {
        Ok(()) => true,
        Err(error) => {
            let _ = eprintln!(rt; "tgdoc: standard output: {error}");
            false
        }
    }
}

/// The line that the server answers. If there is none, standard error says why.
fn answer_or_say<N: Net + Eprint>(
    rt: &N,
    alloc: Global,
    path: &str,
    line: &str,
) -> Option<Vec<u8>> {
    match answer_of(rt, alloc, path, line) {
        Ok(answer) => Some(answer),
        Err(error) if is_late(&error) => {
            let _ = eprintln!(rt; "tgdoc: {path}: no answer within {PATIENCE} seconds");
            None
        }
        Err(error) => {
            let _ = eprintln!(rt; "tgdoc: {path}: {error}");
            None
        }
    }
}

/// Whether a call failed since it was waited for too long.
fn is_late(error: &io::Error) -> bool {
    matches!(error.kind(), ErrorKind::WouldBlock | ErrorKind::TimedOut)
}

fn answer_of<N: Net>(rt: &N, alloc: Global, path: &str, line: &str) -> io::Result<Vec<u8>> {
    let stream = UnixStream::connect(rt, path)?;
    let patience = Some(Duration::from_secs(PATIENCE));
    stream.set_read_timeout(patience)?;
    stream.set_write_timeout(patience)?;
    let mut device = Steady::new(&stream);
    device.write_all(line.as_bytes())?;
    let mut answer = Vec::new(alloc);
    for _ in 0..LONGEST {
        let mut bytes = [0u8; 4_096];
        let count = device.read(&mut bytes)?;
        let more = bytes.get(..count).unwrap_or(&[]);
        answer.extend_from_slice(more)?;
        if more.contains(&b'\n') {
            return Ok(answer);
        }
        if count == 0 || answer.len() > LONGEST {
            break;
        }
    }
    Err(io::Error::from(ErrorKind::UnexpectedEof))
}

/// Draws a table of the status again and again, until it cannot be asked for any more.
fn watch<N: Wait + Clock + Net + Print + Eprint>(
    rt: &N,
    alloc: Global,
    path: &str,
    seconds: u64,
) -> bool {
    for _ in rt.forever() {
        if !draw_status(rt, alloc, path) {
            return false;
        }
        thread::sleep(rt, Duration::from_secs(seconds));
    }
    unreachable!()
}

/// Asks for the status, and draws a table of it; returns whether that was done. An answer that is not a status, such as
/// an error, is printed as it came.
fn draw_status<N: Net + Print + Eprint>(rt: &N, alloc: Global, path: &str) -> bool {
    let Some(answer) = answer_or_say(rt, alloc, path, STATUS) else {
        return false;
    };
    let status = match Value::from_slice(alloc, &answer) {
        Ok(status) => Some(status).filter(|status| status.get("uptime").is_some()),
        Err(error) if error.is_memory() => {
            say_no_memory(rt);
            return false;
        }
        Err(_) => None,
    };
    let Some(status) = status else {
        let _ = print_or_say(rt, &answer);
        return false;
    };
    let Ok(table) = table_of(alloc, &status) else {
        say_no_memory(rt);
        return false;
    };
    print_or_say(rt, table.as_bytes())
}

/// The number of this key; 0 if there is none.
fn number(status: &Value, key: &str) -> u64 {
    status.get(key).and_then(Value::as_u64).unwrap_or(0)
}

/// The number at this place of the status; 0 if there is none.
fn number_at(status: &Value, outer: &str, inner: &str) -> u64 {
    status.get(outer).map_or(0, |found| number(found, inner))
}

/// The status as a table, on a screen that is cleared before.
fn table_of(alloc: Global, status: &Value) -> Result<String, AllocError> {
    let mut table = String::from_str(alloc, "\x1b[H\x1b[2J")?;
    let up = number(status, "uptime");
    let taken = number_at(status, "connections", "taken");
    write!(
        table,
        "up {up} s   round {}   connections {taken}\n",
        number(status, "round")
    )?;
    write_bar(&mut table, status, "slots")?;
    write_bar(&mut table, status, "cells")?;
    write!(
        table,
        "entries {}   bytes {}   unwritten {}   refused {}   denied {}   full {}\n",
        number(status, "entries"),
        number(status, "bytes"),
        number(status, "unwritten"),
        number_at(status, "answers", "refused"),
        number_at(status, "answers", "denied"),
        number_at(status, "answers", "full")
    )?;
    write!(
        table,
        "collector: {} cycles, {} freed\n\nworker  principal      lines  idle\n",
        number_at(status, "collector", "cycles"),
        number_at(status, "collector", "freed")
    )?;
    write_clients(&mut table, status)?;
    Ok(table)
}

/// A row for each client that is served.
fn write_clients(table: &mut String, status: &Value) -> Result<(), AllocError> {
    let Some(clients) = status.get("clients").and_then(Value::as_array) else {
        return Ok(());
    };
    for client in clients {
        write!(
            table,
            "{:>6}  {:>9}  {:>9}  {:>4}\n",
            number(client, "worker"),
            number(client, "principal"),
            number(client, "lines"),
            number(client, "idle")
        )?;
    }
    Ok(())
}

/// A bar of what is free of one kind of storage.
fn write_bar(table: &mut String, status: &Value, key: &str) -> Result<(), AllocError> {
    let all = number_at(status, key, "all");
    let free = number_at(status, key, "free");
    let marks = free
        .saturating_mul(MARKS)
        .checked_div(all)
        .unwrap_or(0)
        .min(MARKS);
    write!(table, "{key} [")?;
    for mark in 0..MARKS {
        table.push(if mark < marks { '#' } else { '.' })?;
    }
    write!(table, "] {free} free of {all}\n")?;
    Ok(())
}
