//! The file of the control socket, which only the server's own user may use.

use std::alloc::Global;
use std::fs::{DirBuilder, Files, Permissions};
use std::io::ErrorKind;
use std::net::Net;
use std::os::unix::fs::{DirBuilderExt, FileTypeExt, PermissionsExt};
use std::os::unix::net::{UnixListener, UnixStream};
use std::{fs, io};

/// How many names are tried for the folder in which the socket is made.
const NAMES: u64 = 100;

/// A non-blocking listener on a socket at the path. A socket there that nobody listens on is replaced; anything else is
/// refused. The socket is made in a folder of its own that only this user may enter, is given to this user alone there,
/// and only then has its name: so at no time can another user connect to it.
pub fn control_socket<R: Files + Net>(
    rt: &R,
    alloc: Global,
    path: &str,
) -> io::Result<UnixListener> {
    let is_left = is_socket_left(rt, path)?;
    for number in 0..NAMES {
        let folder = format!(in alloc; "{path}.{number}")?;
        let first = format!(in alloc; "{path}.{number}/s")?;
        match DirBuilder::new().mode(0o700).create(rt, folder.as_str()) {
            Ok(()) => return socket_in(rt, folder.as_str(), first.as_str(), path, is_left),
            Err(error) if error.kind() == ErrorKind::AlreadyExists => {}
            Err(error) => return Err(error),
        }
    }
    Err(io::Error::from(ErrorKind::AlreadyExists))
}

/// Whether a socket is left there that nobody listens on. An error if anything else is there.
fn is_socket_left<R: Files + Net>(rt: &R, path: &str) -> io::Result<bool> {
    match fs::symlink_metadata(rt, path) {
        Err(error) if error.kind() == ErrorKind::NotFound => Ok(false),
        Err(error) => Err(error),
        Ok(found) if !found.file_type().is_socket() => {
            Err(io::Error::from(ErrorKind::AlreadyExists))
        }
        Ok(_) => match UnixStream::connect(rt, path) {
            Ok(_) => Err(io::Error::from(ErrorKind::AddrInUse)),
            Err(error) if error.kind() == ErrorKind::ConnectionRefused => Ok(true),
            Err(error) => Err(error),
        },
    }
}

/// Makes the socket under its first name, in the folder, gives it its own, and takes the folder away, also if that
/// fails.
fn socket_in<R: Files + Net>(
    rt: &R,
    folder: &str,
    first: &str,
    path: &str,
    is_left: bool,
) -> io::Result<UnixListener> {
    let made = named_socket(rt, first, path, is_left);
    let _ = fs::remove_file(rt, first);
    let _ = fs::remove_dir(rt, folder);
    made
}

/// Removes the socket that is left at the path, under this other name: so if another server has replaced it meanwhile,
/// that is noticed, and its socket gets its name back.
fn take_away<R: Files + Net>(rt: &R, first: &str, path: &str) -> io::Result<()> {
    match fs::rename(rt, path, first) {
        Ok(()) => {}
        Err(error) if error.kind() == ErrorKind::NotFound => return Ok(()),
        Err(error) => return Err(error),
    }
    match UnixStream::connect(rt, first) {
        Err(error) if error.kind() == ErrorKind::ConnectionRefused => fs::remove_file(rt, first),
        _ => {
            let _ = fs::hard_link(rt, first, path);
            Err(io::Error::from(ErrorKind::AddrInUse))
        }
    }
}

/// Makes the socket under its first name, for this user alone, and gives it its own, in place of one that is left there.
fn named_socket<R: Files + Net>(
    rt: &R,
    first: &str,
    path: &str,
    is_left: bool,
) -> io::Result<UnixListener> {
    if is_left {
        take_away(rt, first, path)?;
    }
    let listener = UnixListener::bind(rt, first)?;
    listener.set_nonblocking(true)?;
    fs::set_permissions(rt, first, Permissions::from_mode(0o600))?;
    fs::hard_link(rt, first, path)?;
    Ok(listener)
}
