//! Lines over a reader that gives one byte a read and a writer that takes one byte a write, which fail at a given call.
ghost use Rattle.std.specs.Prelude.{◌≡◌, false};
ghost use Rattle.tg_talk.specs.Promise.Devices.{has_failed};

use std::alloc::{AllocError, Global};
use tg_failing::{FailingReader, FailingWriter, Failure};
use tg_talk::{Found, InputLines, LineBuffer, Next, Watched, send_line};

pub const FAILURES: &[Failure] = &[Failure::Error, Failure::TakesNone];

/// Two lines, of which this many bytes can be read.
fn two_lines(reads: usize) -> Watched<FailingReader<'static>>
    ensures { has_failed result ≡ false }
{
    Watched::new(FailingReader {
        bytes: b"hi\nyou",
        reads,
    })
}

#[test]
fn a_line_is_taken_byte_by_byte(rt: HostRuntime) -> Result<(), AllocError> {
    let mut buffer = LineBuffer::new(rt.alloc())?;
    let mut reader = two_lines(7);
    assert!(rt; buffer.find(&mut reader) == Found::Line(2));
    assert!(rt; buffer.bytes() == b"hi\n".as_slice());
    buffer.consume(3);
    assert!(rt; !reader.failed());
    assert!(rt; buffer.find(&mut reader) == Found::Last);
    assert!(rt; buffer.bytes() == b"you".as_slice());
    Ok(())
}

#[test]
fn a_failed_read_is_remembered(rt: HostRuntime) -> Result<(), AllocError> {
    let mut buffer = LineBuffer::new(rt.alloc())?;
    let mut reader = two_lines(2);
    assert!(rt; buffer.find(&mut reader) == Found::Failed);
    assert!(rt; reader.failed());
    assert!(rt; buffer.bytes() == b"hi".as_slice());
    Ok(())
}

#[test]
fn no_bytes_are_the_end(rt: HostRuntime) -> Result<(), AllocError> {
    let mut buffer = LineBuffer::new(rt.alloc())?;
    let mut reader = Watched::new(b"".as_slice());
    assert!(rt; buffer.find(&mut reader) == Found::End);
    Ok(())
}

/// What is written of a line through a writer of single bytes that works for this many writes; and whether it has
/// failed.
fn sent(alloc: Global, how: Failure, writes: usize) -> (Vec<u8>, bool) {
    let mut bytes = Vec::new(alloc);
    let mut writer = Watched::new(FailingWriter {
        bytes: &mut bytes,
        writes,
        how,
    });
    send_line(&mut writer, b"four\n");
    let failed = writer.failed();
    (bytes, failed)
}

#[test]
fn all_bytes_are_written_one_by_one(rt: HostRuntime) {
    for how in FAILURES {
        let (bytes, failed) = sent(rt.alloc(), *how, 5);
        assert!(rt; bytes.as_slice() == b"four\n".as_slice());
        assert!(rt; !failed);
    }
}

#[test]
fn a_failed_write_is_remembered(rt: HostRuntime) {
    for how in FAILURES {
        let (bytes, failed) = sent(rt.alloc(), *how, 3);
        assert!(rt; bytes.as_slice() == b"fou".as_slice());
        assert!(rt; failed);
    }
}

#[test]
fn lines_are_taken_and_counted(rt: HostRuntime) -> Result<(), AllocError> {
    let mut input = InputLines::new(rt.alloc())?;
    let mut reader = two_lines(7);
    assert!(rt; input.next(&mut reader) == Next::Line);
    assert!(rt; input.line() == b"hi".as_slice());
    assert!(rt; !reader.failed());
    assert!(rt; input.next(&mut reader) == Next::Line);
    assert!(rt; input.line() == b"you".as_slice());
    assert!(rt; input.taken() == 2);
    Ok(())
}
