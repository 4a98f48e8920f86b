//! Writes all of some bytes.

ghost use Rattle.std.specs.Prelude.{◌≡◌, ◌<◌, ◌≤◌, [], length, take, true, false, IfOk};
ghost use Rattle.std.specs.Io.KnownBytes.{Appends, Keeps};
ghost use Rattle.tg_talk.specs.Promise.Devices.{device_of, has_failed, owed, promised, Sends};
ghost use Rattle.tg_talk.specs.Promise.Endings.{EndsOnce};

use crate::fault::TalkFault;
use crate::watched::Watched;
use std::alloc::{AllocError, Global};
use std::io::{BufWriter, Write};

/// Writes the bytes, in as many writes as the writer needs. It stops when the writer fails, and a prefix of them is
/// then written; a write that the writer reports as interrupted has failed. Allocates nothing.
pub fn send_line<W: Write>(writer: &mut Watched<W>, bytes: &[u8])
    requires { has_failed writer.old ≡ false }
    ensures { Sends (W.contents (device_of writer.old)) (W.contents (device_of writer.new)) (has_failed writer.new) bytes.now }
{
    let mut rest = bytes;
    while !rest.is_empty() {
        let taken = send_some(writer, rest);
        if taken == 0 {
            break;
        }
        rest = &rest[taken..];
    }
}

/// One write. It takes no byte only if the writer fails.
fn send_some<W: Write>(writer: &mut Watched<W>, bytes: &[u8]) -> usize
    requires unfailed { has_failed writer.old ≡ false }
    requires some { 0 < length bytes.now }
    ensures within { result ≤ length bytes.now }
    ensures appended { Appends (W.contents (device_of writer.old)) (W.contents (device_of writer.new)) (take result bytes.now) }
    ensures none { result ≡ 0 → has_failed writer.new ≡ true }
    ensures taken { 0 < result → has_failed writer.new ≡ false }
{
    match writer.write(bytes) {
        Ok(taken) => taken,
        Err(_) => 0,
    }
}

/// The most bytes of answers that are held back.
const HELD_BACK: usize = 32_768;

/// A writer that holds answers back, so that many are written at once. `AllocError` if the room for them, 32,768 bytes,
/// cannot be allocated.
pub fn buffered<W: Write + Drop>(
    alloc: Global,
    device: W,
) -> Result<Watched<BufWriter<W>>, AllocError>
    ensures unfailed { IfOk result (λ writer. has_failed writer ≡ false) }
    ensures paid { IfOk result (λ writer. owed writer ≡ []) }
    ensures contents { IfOk result (λ writer. promised W.contents writer ≡ W.contents device) }
{
    match BufWriter::with_capacity(alloc, HELD_BACK, device) {
        Ok(writer) => Ok(Watched::new(writer)),
        Err(_) => Err(AllocError),
    }
}

/// Writes the answers that are held back; returns the fault, unless the writer fails.
pub fn pay_last<W: Write + Drop>(
    writer: &mut Watched<BufWriter<W>>,
    fault: Option<TalkFault>,
) -> Option<TalkFault>
    requires { has_failed writer.old ≡ false }
    ensures fault { EndsOnce fault (has_failed writer.new) result }
    ensures paid { has_failed writer.new ≡ false → owed writer.new ≡ [] }
    ensures kept { Keeps (promised W.contents writer.old) (promised W.contents writer.new) }
{
    if writer.pay() {
        fault
    } else {
        Some(TalkFault::Writing)
    }
}

/// Writes the last line, and all that is held back; returns the fault, unless the writer fails.
pub fn send_last_line<W: Write + Drop>(
    writer: &mut Watched<BufWriter<W>>,
    line: &[u8],
    fault: Option<TalkFault>,
) -> Option<TalkFault>
    requires { has_failed writer.old ≡ false }
    ensures fault { EndsOnce fault (has_failed writer.new) result }
    ensures paid { has_failed writer.new ≡ false → owed writer.new ≡ [] }
    ensures sent { Sends (promised W.contents writer.old) (promised W.contents writer.new) (has_failed writer.new) line.now }
{
    send_line(writer, line);
    if writer.failed() {
        Some(TalkFault::Writing)
    } else {
        pay_last(writer, fault)
    }
}
