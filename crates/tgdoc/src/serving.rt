//! A server, with its control socket, its log and the file of its history.
ghost use Rattle.std.specs.Prelude.{◌≡◌, ◌↔◌, ◌⊎◌, IfSome, false, true};
ghost use Rattle.std.specs.Process.{exit_status};
ghost use Rattle.tg_talk.specs.Promise.Devices.{device_of, has_failed};
ghost use Rattle.tg_serve.specs.Promise.Serving.{IsServed};

use crate::attended::{can_append, keep_history, keep_log};
use crate::saying::{say_no_memory, say_no_thread};
use std::alloc::{AllocError, Global};
use std::fs::{Files, Metadata};
use std::io::{Eprint, Read, Write};
use std::net::Net;
use std::os::unix::fs::MetadataExt;
use std::os::unix::net::UnixListener;
use std::process::ExitCode;
use std::rt::Clock;
use std::{fs, thread};
use tg_serve::{
    Desk, Operating, Platform, Served, Serving, attend, control_socket, serve_lines_operated,
};
use tg_talk::{Watched, send_line};

const CONTROL: &[u8] = b"{\"error\":\"control\"}\n";

/// What a server is asked for.
#[derive(Drop)]
pub(crate) struct Asked {
    pub(crate) listen: String,
    pub(crate) workers: u64,
    pub(crate) connections: u64,
    pub(crate) round: u64,
    pub(crate) operating: Operating,
    /// The path of the control socket.
    pub(crate) control: Option<String>,
    /// The file to which the history of each round is appended.
    pub(crate) history: Option<String>,
}

/// The control socket at this path. If there cannot be one, the answer is `control`, and standard error says why.
fn socket_at<N: Files + Net + Eprint, W: Write>(
    rt: &N,
    alloc: Global,
    writer: &mut Watched<W>,
    path: &str,
) -> Option<UnixListener>
    requires writes { has_failed writer.old ≡ false }
    ensures kept { IfSome result (λ _. has_failed writer.new ≡ false) }
{
    match control_socket(rt, alloc, path) {
        Ok(listener) => Some(listener),
        Err(error) => {
            let _ = eprintln!(rt; "tgdoc: {path}: {error}");
            send_line(writer, CONTROL);
            None
        }
    }
}

/// Serves clients as asked, and requests at the control socket at this path, as `serve_attended` does. Afterwards the
/// file of its socket is gone.
pub(crate) fn serve_at_socket<N: Platform + Files + Eprint, R: Read, W: Write>(
    rt: &N,
    host: &HostRuntime,
    reader: &mut Watched<R>,
    writer: &mut Watched<W>,
    asked: &Asked,
    path: &str,
) -> ExitCode
    requires reads { has_failed reader.old ≡ false }
    requires writes { has_failed writer.old ≡ false }
{
    let Some(listener) = socket_at(rt, host.alloc(), writer, path) else {
        return ExitCode::FAILURE;
    };
    let made = fs::symlink_metadata(rt, path).ok();
    let status = serve_attended(rt, host, reader, writer, asked, Some(&listener));
    // If the file was moved away, another server may have started at the same path.
    if !is_another(rt, path, made) {
        let _ = fs::remove_file(rt, path);
    }
    status
}

/// Whether another file than the one that was made is known to be at the path.
fn is_another<N: Files>(rt: &N, path: &str, made: Option<Metadata>) -> bool {
    match (made, fs::symlink_metadata(rt, path)) {
        (Some(made), Ok(found)) => found.dev() != made.dev() || found.ino() != made.ino(),
        _ => false,
    }
}

/// Serves clients as asked, with a log and a history if these are asked for, and a control socket if one is given. Nobody
/// is served if the file of the history cannot be opened; standard error says so.
pub(crate) fn serve_attended<N: Platform + Eprint, R: Read, W: Write>(
    rt: &N,
    host: &HostRuntime,
    reader: &mut Watched<R>,
    writer: &mut Watched<W>,
    asked: &Asked,
    socket: Option<&UnixListener>,
) -> ExitCode
    requires reads { has_failed reader.old ≡ false }
    requires writes { has_failed writer.old ≡ false }
{
    if let Some(path) = asked.history.as_deref()
        && !can_append(host, host.alloc(), path)
    {
        return ExitCode::FAILURE;
    }
    let Ok(desk) = desk_of(host.alloc(), asked) else {
        say_no_memory(rt);
        return ExitCode::FAILURE;
    };
    serve_beside(rt, host, reader, writer, asked, socket, &desk)
}

/// Serves clients as asked, with a thread each for the control socket, the log and the history, if there are any; all
/// of these have ended afterwards. If one cannot be started, nobody is served, and standard error says so.
fn serve_beside<N: Platform + Eprint, R: Read, W: Write>(
    rt: &N,
    host: &HostRuntime,
    reader: &mut Watched<R>,
    writer: &mut Watched<W>,
    asked: &Asked,
    socket: Option<&UnixListener>,
    desk: &Desk,
) -> ExitCode
    requires reads { has_failed reader.old ≡ false }
    requires writes { has_failed writer.old ≡ false }
{
    let alloc = host.alloc();
    let serving = serving_of(rt, asked);
    thread::scope(
        thread::scope_env(),
        rt,
        |scope| -> ExitCode
            requires reads { has_failed reader.now ≡ false }
            requires writes { has_failed writer.now ≡ false }
        {
            let mut all_started = true;
            if let Some(listener) = socket {
                all_started = scope
                    .spawn(move || attend(rt, alloc, listener, desk, serving))
                    .is_ok();
            }
            if asked.operating.notifies {
                let is_logged = scope.spawn(move || keep_log(rt, alloc, desk)).is_ok();
                all_started = all_started && is_logged;
            }
            let mut keeper = None;
            if let Some(path) = asked.history.as_deref() {
                keeper = scope
                    .spawn(move || keep_history(rt, host, alloc, desk, path))
                    .ok();
                all_started = all_started && keeper.is_some();
            }
            let served = if all_started {
                serve_clients(rt, alloc, reader, writer, asked, desk)
            } else {
                say_no_thread(rt);
                ExitCode::FAILURE
            };
            desk.end();
            let is_kept = match keeper {
                Some(thread) => thread.join(rt),
                None => true,
            };
            if is_kept { served } else { ExitCode::FAILURE }
        },
    )
}

/// A desk, with a place for each worker if there is a control socket or a log.
fn desk_of(alloc: Global, asked: &Asked) -> Result<Desk, AllocError> {
    let operating = asked.operating;
    if operating.is_attended || operating.notifies {
        Desk::new(alloc, asked.workers)
    } else {
        Ok(Desk::unattended(alloc))
    }
}

/// The numbers of a server that begins now, for its status.
fn serving_of<N: Clock>(rt: &N, asked: &Asked) -> Serving {
    if asked.operating.is_endless {
        Serving::now(rt, None)
    } else {
        Serving::now(rt, Some(asked.connections))
    }
}

/// Serves clients on the loopback, after a configuration line from the reader. The status is 0 if everything agrees and
/// that was written.
fn serve_clients<N: Platform, R: Read, W: Write>(
    rt: &N,
    alloc: Global,
    reader: &mut Watched<R>,
    writer: &mut Watched<W>,
    asked: &Asked,
    desk: &Desk,
) -> ExitCode
    requires reads { has_failed reader.old ≡ false }
    requires writes { has_failed writer.old ≡ false }
    ensures good { exit_status result ≡ 0 → IsServed asked.now.operating asked.now.connections asked.now.round (W.contents (device_of writer.old)) (W.contents (device_of writer.new)) (has_failed writer.new) }
    ensures either { (exit_status result ≡ 0) ⊎ (exit_status result ≡ 1) }
{
    let served = serve_lines_operated(
        rt,
        alloc,
        reader,
        writer,
        asked.listen.as_str(),
        asked.workers,
        asked.connections,
        asked.round,
        asked.operating,
        desk,
    );
    served_status(served)
}

/// 0 if a server has settled, else 1.
fn served_status(served: Served) -> ExitCode
    ensures good { (exit_status result ≡ 0) ↔ (served.settled ≡ true) }
    ensures either { (exit_status result ≡ 0) ⊎ (exit_status result ≡ 1) }
{
    if served.settled {
        ExitCode::SUCCESS
    } else {
        ExitCode::FAILURE
    }
}
