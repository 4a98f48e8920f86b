//! The lines that a server writes of itself. Without its address it writes none, and none after one that failed.
ghost use Rattle.std.specs.Prelude.{◌≡◌, ◌↔◌, ◌++◌, decimal, false, true};
ghost use Rattle.tg_talk.specs.Promise.Devices.{device_of, has_failed};
ghost use Rattle.tg_serve.specs.Promise.Serving.{SendsOn, agreed_line, end_line, rebased_line};
ghost use Rattle.tg_serve.specs.Inner.Serving.{Announces};

use crate::serve::{Served, Unsettled};
use itoa::Buffer;
use std::io::Write;
use std::net::TcpListener;
use tg_talk::{Watched, send_line};

/// Writes the address that is listened on; returns whether that was done.
pub(crate) fn announce<W: Write>(writer: &mut Watched<W>, listener: &TcpListener) -> bool
    ensures unfailed { result ≡ true → has_failed writer.new ≡ false }
    ensures announced { result ≡ true → Announces (W.contents (device_of writer.old)) (W.contents (device_of writer.new)) }
{
    let Ok(address) = listener.local_addr() else {
        return false;
    };
    match write!(writer, "{{\"listening\":\"{address}\"}}\n") {
        Ok(()) => !writer.failed(),
        Err(_) => false,
    }
}

/// Writes how many entries a rebase dropped and after which round. Allocates nothing.
pub(crate) fn tell_rebase<W: Write>(
    writer: &mut Watched<W>,
    is_announced: bool,
    dropped: u64,
    round: u64,
)
    ensures { is_announced ≡ true → SendsOn (W.contents (device_of writer.old)) (has_failed writer.old) (W.contents (device_of writer.new)) (has_failed writer.new) (rebased_line dropped round) }
{
    if !is_announced {
        return;
    }
    send_numbers(
        writer,
        b"{\"dropped\":",
        dropped,
        b",\"round\":",
        round,
        b"}\n",
    );
}

/// Writes that all logs agree.
pub(crate) fn agree<W: Write>(writer: &mut Watched<W>, is_announced: bool) -> Served
    ensures settled { (result.settled ≡ true) ↔ ((is_announced ≡ true) × (has_failed writer.new ≡ false)) }
    ensures quiet { is_announced ≡ false → W.contents (device_of writer.new) ≡ W.contents (device_of writer.old) }
    ensures told { is_announced ≡ true → SendsOn (W.contents (device_of writer.old)) (has_failed writer.old) (W.contents (device_of writer.new)) (has_failed writer.new) agreed_line }
{
    if !is_announced {
        return Served { settled: false };
    }
    send_more(writer, b"{\"settled\":\"agreed\"}\n");
    Served {
        settled: !writer.failed(),
    }
}

/// Writes why the server has not settled; nothing if a seat was in use.
pub(crate) fn tell<W: Write>(writer: &mut Watched<W>, is_announced: bool, end: Unsettled) -> Served
    ensures unsettled { result.settled ≡ false }
    ensures quiet { is_announced ≡ false → W.contents (device_of writer.new) ≡ W.contents (device_of writer.old) }
    ensures told { is_announced ≡ true → SendsOn (W.contents (device_of writer.old)) (has_failed writer.old) (W.contents (device_of writer.new)) (has_failed writer.new) (end_line end) }
{
    if !is_announced {
        return Served { settled: false };
    }
    match end {
        Unsettled::Differs { seat, index } => {
            let behind = b",\"settled\":\"differs\"}\n";
            send_numbers(writer, b"{\"index\":", index, b",\"seat\":", seat, behind);
            Served { settled: false }
        }
        Unsettled::NoMemory => {
            send_more(writer, b"{\"settled\":\"no memory\"}\n");
            Served { settled: false }
        }
        Unsettled::OutOfMemory => {
            send_more(writer, b"{\"error\":\"out of memory\"}\n");
            Served { settled: false }
        }
        Unsettled::Seated => Served { settled: false },
    }
}

/// Writes two numbers and these bytes before, between and after them, unless the writer has failed. Allocates nothing.
fn send_numbers<W: Write>(
    writer: &mut Watched<W>,
    before: &[u8],
    first: u64,
    between: &[u8],
    second: u64,
    behind: &[u8],
)
    ensures { SendsOn (W.contents (device_of writer.old)) (has_failed writer.old) (W.contents (device_of writer.new)) (has_failed writer.new) (before.now ++ decimal first ++ between.now ++ decimal second ++ behind.now) }
{
    let mut digits = Buffer::new();
    send_more(writer, before);
    send_more(writer, digits.format(first).as_bytes());
    send_more(writer, between);
    send_more(writer, digits.format(second).as_bytes());
    send_more(writer, behind);
}

/// Writes further bytes, unless the writer has failed.
fn send_more<W: Write>(writer: &mut Watched<W>, bytes: &[u8])
    ensures { SendsOn (W.contents (device_of writer.old)) (has_failed writer.old) (W.contents (device_of writer.new)) (has_failed writer.new) bytes.now }
{
    if writer.failed() {
        return;
    }
    send_line(writer, bytes);
}
