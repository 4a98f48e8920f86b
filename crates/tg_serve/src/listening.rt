//! The configuration line of a server, and the address that it listens on.
ghost use Rattle.std.specs.Prelude.{◌≡◌, ◌↔◌, [], IfErr, IfOk, IfSome, false, true};
ghost use Rattle.std.specs.Net.Addr.{IsLoopbackV4, IsLoopbackV6, MatchIp};
ghost use Rattle.std.specs.Net.Socket.{socket_ip};
ghost use Rattle.tg_talk.specs.Promise.Devices.{Sends, device_of, has_failed};
ghost use Rattle.tg_serve.specs.Promise.Serving.{IsServed, unbounded};
ghost use Rattle.tg_serve.specs.Inner.Serving.{OpensBytes, RefusesBytes};

use crate::desk::Desk;
use crate::key::key_or_fixed;
use crate::operating::Operating;
use crate::platform::Platform;
use crate::rounds::serve_operated;
use crate::serve::Served;
use std::alloc::Global;
use std::io::{Read, Write};
use std::net::{Net, SocketAddr, TcpListener, TcpStream};
use tg_talk::{InputLines, Next, Watched, open_vault, send_line};
use tg_vault::{Key, Vault};
use tg_wire::{WireFault, error_line};

const LISTEN: &[u8] = b"{\"error\":\"listen\"}\n";

/// Serves as `serve_lines_operated` does, without bounds.
pub fn serve_lines<N: Platform, R: Read, W: Write>(
    rt: &N,
    alloc: Global,
    reader: &mut Watched<R>,
    writer: &mut Watched<W>,
    listen: &str,
    workers: u64,
    connections: u64,
    round: u64,
) -> Served
    requires reads { has_failed reader.old ≡ false }
    requires writes { has_failed writer.old ≡ false }
    ensures { result.settled ≡ true → IsServed unbounded connections round (W.contents (device_of writer.old)) (W.contents (device_of writer.new)) (has_failed writer.new) }
{
    let desk = Desk::unattended(alloc);
    serve_lines_operated(
        rt,
        alloc,
        reader,
        writer,
        listen,
        workers,
        connections,
        round,
        Operating::none(),
        &desk,
    )
}

/// Reads the configuration line, listens on the address, and serves the vault, in which edges are found under a key
/// chosen at random; if there are no random numbers, under the fixed one, since a key changes no answer. A refused
/// configuration is answered as by `run_lines`; the answer is `out of memory` if there is no memory for the buffer of
/// 32,768 bytes; if the line cannot be read, nothing is written. In these cases no address is listened on; no line at
/// all is read as an empty one. Then an address that is not of the loopback, or that cannot be listened on, is answered
/// `listen`. After a refusal nothing is settled. The numbers and the bounds are those of `serve_operated`.
pub fn serve_lines_operated<N: Platform, R: Read, W: Write>(
    rt: &N,
    alloc: Global,
    reader: &mut Watched<R>,
    writer: &mut Watched<W>,
    listen: &str,
    workers: u64,
    connections: u64,
    round: u64,
    operating: Operating,
    desk: &Desk,
) -> Served
    requires reads { has_failed reader.old ≡ false }
    requires writes { has_failed writer.old ≡ false }
    ensures { result.settled ≡ true → IsServed operating connections round (W.contents (device_of writer.old)) (W.contents (device_of writer.new)) (has_failed writer.new) }
{
    let key = key_or_fixed(rt);
    match read_vault(alloc, key, reader) {
        Err(text) => refuse(writer, text),
        Ok(vault) => match listener_on(rt, listen) {
            None => refuse(writer, LISTEN),
            Some(listener) => serve_operated(
                rt,
                alloc,
                &listener,
                writer,
                vault,
                workers,
                connections,
                round,
                operating,
                desk,
            ),
        },
    }
}

/// Writes the line of a refusal.
fn refuse<W: Write>(writer: &mut Watched<W>, text: &[u8]) -> Served
    requires { has_failed writer.old ≡ false }
    ensures unsettled { result.settled ≡ false }
    ensures sent { Sends (W.contents (device_of writer.old)) (W.contents (device_of writer.new)) (has_failed writer.new) text.now }
{
    send_line(writer, text);
    Served { settled: false }
}

/// The vault of the configuration line, under the key, or the line of its refusal, which is empty if the line cannot be
/// read.
fn read_vault<R: Read>(
    alloc: Global,
    key: Key,
    reader: &mut Watched<R>,
) -> Result<Vault, &'static [u8]>
    requires reads { has_failed reader.old ≡ false }
    ensures empty { IfOk result (λ vault. vault.history ≡ []) }
    ensures key { IfOk result (λ vault. vault.store.key ≡ key) }
    ensures opened { IfOk result (λ vault. IfSome (R.remaining (device_of reader.old)) (OpensBytes vault)) }
    ensures silent { IfErr result (λ text. (text.now ≡ []) ↔ (has_failed reader.new ≡ true)) }
    ensures refused { IfErr result (λ text. IfSome (R.remaining (device_of reader.old)) (RefusesBytes text.now)) }
{
    let Ok(mut input) = InputLines::new(alloc) else {
        return Err(error_line(WireFault::OutOfMemory));
    };
    match input.next(reader) {
        Next::Line => open_vault(alloc, key, input.line()),
        Next::End => Err(error_line(WireFault::NotJson)),
        Next::TooLong => Err(error_line(WireFault::TooLong)),
        Next::TooMany => unreachable!(),
        Next::Failed => Err(b""),
    }
}

/// The address that the text writes, if it is one of the loopback, which no other machine can reach.
fn loopback_in(text: &str) -> Option<SocketAddr>
    ensures { IfSome result (λ address. MatchIp (socket_ip address) IsLoopbackV4 IsLoopbackV6) }
{
    let address = text.parse::<SocketAddr>().ok()?;
    if address.ip().is_loopback() {
        Some(address)
    } else {
        None
    }
}

/// A listener on the address, if it is one of the loopback and can be listened on.
fn listener_on<N: Net<Listener = TcpListener, Stream = TcpStream>>(
    rt: &N,
    listen: &str,
) -> Option<TcpListener> {
    TcpListener::bind(rt, loopback_in(listen)?).ok()
}
