//! What standard error says of an end for which no line of output does.

use crate::noting::{Noted, Refusal};
use std::io::Eprint;
use std::net::{Net, SocketAddr, TcpListener, TcpStream};
use tg_talk::TalkFault;

/// Says why the lines ended, unless a line of output does, and what a refusal means.
pub(crate) fn say_why<N: Eprint>(rt: &N, fault: Option<TalkFault>, input: &Noted, output: &Noted) {
    match fault {
        Some(TalkFault::Reading) => say_failure(rt, "standard input", input),
        Some(TalkFault::Writing) => say_failure(rt, "standard output", output),
        Some(TalkFault::OutOfMemory) => say_no_memory(rt),
        Some(TalkFault::TooLong) => {}
        Some(TalkFault::TooMany) => {}
        None => {}
    }
    if let Some(Refusal::Config(number)) = output.refusal() {
        say_fault(rt, number);
    }
}

/// Says why a server ended without its last line, and what a refusal means.
pub(crate) fn say_why_not_served<N: Eprint + Net<Listener = TcpListener, Stream = TcpStream>>(
    rt: &N,
    listen: &str,
    input: &Noted,
    output: &Noted,
) {
    if input.failure().is_some() {
        say_failure(rt, "standard input", input);
    }
    if output.failure().is_some() {
        say_failure(rt, "standard output", output);
    }
    match output.refusal() {
        Some(Refusal::Config(number)) => say_fault(rt, number),
        Some(Refusal::Listen) => say_address(rt, listen),
        None => {}
    }
}

fn say_failure<N: Eprint>(rt: &N, stream: &str, noted: &Noted) {
    match noted.failure() {
        Some(error) => {
            let _ = eprintln!(rt; "tgdoc: {stream}: {error}");
        }
        None => {
            let _ = eprintln!(rt; "tgdoc: {stream} failed");
        }
    }
}

/// Says that memory is lacking for what was to be done.
pub(crate) fn say_no_memory<N: Eprint>(rt: &N) {
    let _ = eprintln!(rt; "tgdoc: no memory");
}

/// Says that a thread cannot be started for one who attends to a server.
pub(crate) fn say_no_thread<N: Eprint>(rt: &N) {
    let _ = eprintln!(rt; "tgdoc: a thread for --control, --log or --history cannot be started");
}

/// Says what is wrong with a configuration of this fault.
fn say_fault<N: Eprint>(rt: &N, number: u64) {
    let what = sentence_of(number);
    let _ = eprintln!(rt; "tgdoc: the configuration is refused: {what}");
}

fn sentence_of(fault: u64) -> &'static str {
    match fault {
        1 => "there are no principals, or more than 64",
        2 => "a name is not 1 to 32 letters a to z, or two principals have the same name",
        3 => "an end of an edge is no principal",
        4 => "an edge leads from a principal to itself",
        5 => "an edge has no rights",
        6 => "two edges have the same ends",
        7 => "next is not above the number of principals",
        8 => "there are fewer slots than principals",
        9 => "there are fewer cells than edges",
        _ => "there may be 1 to 65536 slots, and 1 to 1048576 cells",
    }
}

/// Says why an address cannot be listened on.
fn say_address<N: Eprint + Net<Listener = TcpListener, Stream = TcpStream>>(rt: &N, listen: &str) {
    let Ok(address) = listen.parse::<SocketAddr>() else {
        let _ = eprintln!(rt; "tgdoc: {listen} is no address with a port, as 127.0.0.1:7000 is");
        return;
    };
    if !address.ip().is_loopback() {
        let _ = eprintln!(rt; "tgdoc: {listen} is not an address of the loopback");
        return;
    }
    if let Err(error) = TcpListener::bind(rt, address) {
        let _ = eprintln!(rt; "tgdoc: {listen}: {error}");
    }
}
