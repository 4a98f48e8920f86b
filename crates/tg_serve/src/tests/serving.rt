//! A server and a client over the loopback, and addresses that are not listened on.

use crate::desk::Desk;
use crate::door::Door;
use crate::rounds::{conclude, left_after};
use crate::serve::{Service, Unsettled};
use crate::{Operating, Platform, Served, serve_lines, serve_on};
use std::alloc::{AllocError, Global};
use std::io::{Read, Write};
use std::net::{Net, SocketAddr, TcpListener, TcpStream};
use std::random::RandomSource;
use std::rt::Clock;
use std::sync::{Mutex, Wait};
use std::thread::Threads;
use std::{io, thread};
use tg_talk::Watched;
use tg_vault::Vault;
use tg_wire::read_config;

const CONFIG: &[u8] =
    b"{\"cells\":8,\"edges\":[[1,\"t\",2]],\"principals\":[\"alice\",\"bob\"],\"slots\":8}";

/// A line of a client, and its answer.
type Line = (&'static [u8], &'static [u8]);

const TALK: &[Line] = &[
    (
        b"{\"op\":\"read\",\"over\":3}\n",
        b"{\"error\":\"no actor\"}\n",
    ),
    (
        b"{\"name\":\"alice\",\"op\":\"hello\"}\n",
        b"{\"ok\":\"hello\",\"vertex\":1}\n",
    ),
    (
        b"{\"kind\":\"document\",\"op\":\"create\",\"rights\":\"rw\"}\n",
        b"{\"ok\":\"created\",\"vertex\":3}\n",
    ),
    (
        b"{\"op\":\"read\",\"over\":3}\n",
        b"{\"ok\":\"text\",\"text\":\"\"}\n",
    ),
    (
        b"{\"op\":\"shade\"}\n",
        b"{\"error\":\"not for a session\"}\n",
    ),
    (b"{\"op\":\"bye\"}\n", b"{\"ok\":\"bye\"}\n"),
];

/// A client writes a document.
const WRITES: &[Line] = &[
    (
        b"{\"name\":\"alice\",\"op\":\"hello\"}\n",
        b"{\"ok\":\"hello\",\"vertex\":1}\n",
    ),
    (
        b"{\"kind\":\"document\",\"op\":\"create\",\"rights\":\"rw\"}\n",
        b"{\"ok\":\"created\",\"vertex\":3}\n",
    ),
    (
        b"{\"op\":\"write\",\"over\":3,\"text\":\"hi\"}\n",
        b"{\"ok\":\"done\"}\n",
    ),
    (b"{\"op\":\"bye\"}\n", b"{\"ok\":\"bye\"}\n"),
];

/// And one who connects later reads it.
const READS: &[Line] = &[
    (
        b"{\"name\":\"alice\",\"op\":\"hello\"}\n",
        b"{\"ok\":\"hello\",\"vertex\":1}\n",
    ),
    (
        b"{\"op\":\"read\",\"over\":3}\n",
        b"{\"ok\":\"text\",\"text\":\"hi\"}\n",
    ),
    (b"{\"op\":\"bye\"}\n", b"{\"ok\":\"bye\"}\n"),
];

const NOT_AN_OBJECT: &[u8] = b"{\"error\":\"not an object\"}\n";

const LISTEN: &[u8] = b"{\"error\":\"listen\"}\n";

/// Serves so many connections by so many workers, each in a round of its own; returns the result, and what was written.
fn serve_clients(
    rt: &impl Platform,
    alloc: Global,
    listener: &TcpListener,
    workers: u64,
    connections: u64,
) -> Option<(Served, Vec<u8>)> {
    let config = read_config(alloc, CONFIG).ok()?;
    let vault = Vault::new(alloc, config).ok()?;
    let mut out = Vec::new(alloc);
    let mut writer = Watched::new(&mut out);
    let served = serve_on(
        rt,
        alloc,
        listener,
        &mut writer,
        vault,
        workers,
        connections,
        1,
    );
    Some((served, out))
}

/// Sends the lines, and reads answers until the server ends the connection.
fn ask(
    rt: &impl Platform,
    alloc: Global,
    address: SocketAddr,
    talk: &[Line],
) -> io::Result<Vec<u8>> {
    let mut stream = TcpStream::connect(rt, address)?;
    for (line, _) in talk {
        stream.write_all(*line)?;
    }
    let mut answers = Vec::new(alloc);
    stream.read_to_end(&mut answers)?;
    Ok(answers)
}

/// A server of so many workers and a client at once: the server's result, and the answers to the client.
fn serve_and_ask(
    rt: &impl Platform,
    alloc: Global,
    listener: &TcpListener,
    address: SocketAddr,
    workers: u64,
) -> (Option<(Served, Vec<u8>)>, io::Result<Vec<u8>>) {
    thread::join(
        rt,
        || serve_clients(rt, alloc, listener, workers, 1),
        || ask(rt, alloc, address, TALK),
    )
}

/// The answers to the lines of a client.
fn wanted(alloc: Global, talk: &[Line]) -> Result<Vec<u8>, AllocError> {
    let mut answers = Vec::new(alloc);
    for (_, answer) in talk {
        answers.extend_from_slice(*answer)?;
    }
    Ok(answers)
}

#[test]
fn one_client_over_the_loopback(rt: HostRuntime) -> io::Result<()> {
    let listener = TcpListener::bind(&rt, "127.0.0.1:0")?;
    let address = listener.local_addr()?;
    let (served, answers) = serve_and_ask(&rt, rt.alloc(), &listener, address, 2);
    let (served, out) = served.expect(&rt, "refused");
    assert!(rt; answers? == wanted(rt.alloc(), TALK)?);
    assert!(rt; served.settled);
    let told = format!(in rt.alloc();
        "{{\"listening\":\"{address}\"}}\n{{\"settled\":\"agreed\"}}\n"
    )?;
    assert!(rt; out.as_slice() == told.as_bytes());
    Ok(())
}

/// A server without workers has one.
#[test]
fn no_worker_is_taken_as_one(rt: HostRuntime) -> io::Result<()> {
    let listener = TcpListener::bind(&rt, "127.0.0.1:0")?;
    let address = listener.local_addr()?;
    let (served, answers) = serve_and_ask(&rt, rt.alloc(), &listener, address, 0);
    let (served, _) = served.expect(&rt, "refused");
    assert!(rt; answers? == wanted(rt.alloc(), TALK)?);
    assert!(rt; served.settled);
    Ok(())
}

/// Whether a client is answered as it should be.
fn is_answered(
    rt: &impl Platform,
    alloc: Global,
    address: SocketAddr,
    talk: &[Line],
) -> io::Result<bool> {
    let answers = ask(rt, alloc, address, talk)?;
    Ok(answers == wanted(alloc, talk)?)
}

/// Whether two clients are, the second of which connects once the first has ended.
fn are_answered(rt: &impl Platform, alloc: Global, address: SocketAddr) -> io::Result<bool> {
    let first = is_answered(rt, alloc, address, WRITES)?;
    let second = is_answered(rt, alloc, address, READS)?;
    Ok(first && second)
}

/// A server of two rounds and two clients at once: the server's result, and whether the clients are answered.
fn serve_two_rounds(
    rt: &impl Platform,
    alloc: Global,
    listener: &TcpListener,
    address: SocketAddr,
) -> (Option<(Served, Vec<u8>)>, io::Result<bool>) {
    thread::join(
        rt,
        || serve_clients(rt, alloc, listener, 1, 2),
        || are_answered(rt, alloc, address),
    )
}

#[test]
fn a_server_in_rounds(rt: HostRuntime) -> io::Result<()> {
    let listener = TcpListener::bind(&rt, "127.0.0.1:0")?;
    let address = listener.local_addr()?;
    let (served, answered) = serve_two_rounds(&rt, rt.alloc(), &listener, address);
    let (served, out) = served.expect(&rt, "refused");
    assert!(rt; answered?);
    assert!(rt; served.settled);
    let told = format!(in rt.alloc();
        "{{\"listening\":\"{address}\"}}\n{{\"dropped\":2,\"round\":1}}\n{{\"settled\":\"agreed\"}}\n"
    )?;
    assert!(rt; out.as_slice() == told.as_bytes());
    Ok(())
}

/// What a server on the address writes, and its result.
fn serve_at<
    N: Threads
        + Wait
        + Clock
        + RandomSource
        + Net<Listener = TcpListener, Stream = TcpStream>
        + Sync,
>(rt: &N, alloc: Global, given: &[u8], address: &str) -> (Served, Vec<u8>) {
    let mut reader = Watched::new(given);
    let mut out = Vec::new(alloc);
    let mut writer = Watched::new(&mut out);
    let served = serve_lines(rt, alloc, &mut reader, &mut writer, address, 1, 1, 1);
    (served, out)
}

#[test]
fn an_address_in_use(rt: HostRuntime) -> io::Result<()> {
    let listener = TcpListener::bind(&rt, "127.0.0.1:0")?;
    let address = listener.local_addr()?.to_string(rt.alloc())?;
    let (served, out) = serve_at(&rt, rt.alloc(), CONFIG, address.as_str());
    assert!(rt; !served.settled);
    assert!(rt; out.as_slice() == LISTEN);
    Ok(())
}

/// Addresses of no loopback, with a port that is free and with others, and a word that is no address.
const FAR: [&str; 8] = [
    "0.0.0.0:0",
    "0.0.0.0:17998",
    "[::]:0",
    "[::]:17998",
    "192.0.2.2:0",
    "192.0.2.2:80",
    "[::ffff:127.0.0.1]:0",
    "nonsense",
];

#[test]
fn an_address_of_no_loopback(rt: HostRuntime) {
    for address in FAR {
        let (served, out) = serve_at(&rt, rt.alloc(), CONFIG, address);
        assert!(rt; !served.settled);
        assert!(rt; out.as_slice() == LISTEN);
    }
}

#[test]
fn a_refused_configuration(rt: HostRuntime) {
    let (served, out) = serve_at(&rt, rt.alloc(), b"[]", "127.0.0.1:0");
    assert!(rt; !served.settled);
    assert!(rt; out.as_slice() == NOT_AN_OBJECT);
}

/// Why a server has not settled, and the line that says so.
const TOLD: &[(Unsettled, &[u8])] = &[
    (
        Unsettled::Differs {
            seat: 63,
            index: 1_000_000,
        },
        b"{\"index\":1000000,\"seat\":63,\"settled\":\"differs\"}\n",
    ),
    (
        Unsettled::Differs { seat: 7, index: 0 },
        b"{\"index\":0,\"seat\":7,\"settled\":\"differs\"}\n",
    ),
    (Unsettled::NoMemory, b"{\"settled\":\"no memory\"}\n"),
    (Unsettled::OutOfMemory, b"{\"error\":\"out of memory\"}\n"),
    (Unsettled::Seated, b""),
];

/// What is written of it, and whether the server has settled.
fn told(alloc: Global, is_announced: bool, found: Result<Vault, Unsettled>) -> (Vec<u8>, bool) {
    let mut out = Vec::new(alloc);
    let mut writer = Watched::new(&mut out);
    let served = conclude(&mut writer, is_announced, &found);
    (out, served.settled)
}

#[test]
fn each_end_of_a_server_is_told(rt: HostRuntime) {
    for (end, line) in TOLD {
        let (out, is_settled) = told(rt.alloc(), true, Err(*end));
        assert!(rt; out.as_slice() == *line);
        assert!(rt; !is_settled);
    }
}

/// The vault of the configuration.
fn opened(alloc: Global) -> Option<Vault> {
    let config = read_config(alloc, CONFIG).ok()?;
    Vault::new(alloc, config).ok()
}

/// Logs that agree are told, and settle the server, unless its address was not written.
#[test]
fn agreed_logs_are_told(rt: HostRuntime) {
    let vault = opened(rt.alloc()).expect(&rt, "no vault");
    let (out, is_settled) = told(rt.alloc(), true, Ok(vault));
    assert!(rt; out.as_slice() == b"{\"settled\":\"agreed\"}\n".as_slice());
    assert!(rt; is_settled);
    let vault = opened(rt.alloc()).expect(&rt, "no vault");
    let (out, is_settled) = told(rt.alloc(), false, Ok(vault));
    assert!(rt; out.is_empty());
    assert!(rt; !is_settled);
}

/// Whether a server has a bound on memory, is attended, and is without an end; how many of the five connections of a
/// round were not taken; and how many are left of ten.
const LEFT: &[(bool, bool, bool, u64, u64)] = &[
    (false, false, false, 0, 5),
    (true, false, false, 0, 5),
    (true, false, false, 3, 8),
    (true, false, false, 5, 9),
    (false, true, false, 3, 8),
    (true, true, false, 5, 10),
    (true, true, true, 3, 10),
];

/// What a round has not taken that its memory or an attendant ended is left.
#[test]
fn what_a_round_has_not_taken_is_left(rt: HostRuntime) -> io::Result<()> {
    let listener = TcpListener::bind(&rt, "127.0.0.1:0")?;
    let desk = Desk::unattended(rt.alloc());
    for (is_bounded, is_attended, is_endless, not_taken, left) in LEFT {
        let operating = Operating {
            memory: if *is_bounded { Some(320) } else { None },
            is_attended: *is_attended,
            is_endless: *is_endless,
            ..Operating::none()
        };
        let service = Service {
            rt: &rt,
            alloc: rt.alloc(),
            listener: &listener,
            late: Mutex::new(None),
            workers: 1,
            operating,
            desk: &desk,
        };
        let door = Door::new(&listener, &service.late, *not_taken);
        assert_eq!(rt; left_after(&service, &door, 10, 5), *left);
    }
    Ok(())
}
