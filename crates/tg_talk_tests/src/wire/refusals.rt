//! Lines that are refused, with their faults.

use std::alloc::{AllocError, Global};
use tg_wire::{WireFault, read_goal, read_line, read_step};

/// The readers that a refused line is given to.
#[derive(Clone, Copy)]
pub enum Reader {
    Line,
    Step,
    Goal,
}

/// The fault of what was read.
pub fn fault_of<T>(found: &Result<T, WireFault>) -> Option<WireFault> {
    match found {
        Ok(_) => None,
        Err(fault) => Some(*fault),
    }
}

/// The fault for which the reader refuses the line.
pub fn fault_in(alloc: Global, reader: Reader, line: &[u8]) -> Option<WireFault> {
    match reader {
        Reader::Line => fault_of(&read_line(alloc, line)),
        Reader::Step => fault_of(&read_step(alloc, line)),
        Reader::Goal => fault_of(&read_goal(alloc, line)),
    }
}

fn is_refused(alloc: Global, reader: Reader, line: &[u8], fault: WireFault) -> bool {
    fault_in(alloc, reader, line) == Some(fault)
}

/// Lines that no reader takes, with their faults.
pub const HOSTILE: &[(&[u8], WireFault)] = &[
    (b"", WireFault::NotJson),
    (b"\xff\xfe", WireFault::NotJson),
    (b"{\"from\":1e400}", WireFault::NotJson),
    (b"{\"op\":\"take\"", WireFault::NotJson),
    (b"\xef\xbb\xbf{}", WireFault::NotJson),
    (b"[]", WireFault::NotObject),
    (b"null", WireFault::NotObject),
];

/// Lines that are refused by this reader, with their faults.
pub const REFUSED: &[(Reader, &[u8], WireFault)] = &[
    (Reader::Line, b"{\"op\":\"steal\"}", WireFault::NoOp),
    (Reader::Line, b"{\"op\":\"read\"}", WireFault::MissingField),
    (
        Reader::Line,
        b"{\"op\":\"read\",\"over\":1.5}",
        WireFault::BadField,
    ),
    (
        Reader::Line,
        b"{\"op\":\"collect\",\"seat\":null}",
        WireFault::BadField,
    ),
    (
        Reader::Line,
        b"{\"op\":\"cycle\",\"over\":1}",
        WireFault::UnknownField,
    ),
    (
        Reader::Line,
        b"{\"op\":\"look\",\"at\":1,\"x\":2}",
        WireFault::UnknownField,
    ),
    (
        Reader::Line,
        b"{\"op\":\"enrol\",\"rights\":\"x\"}",
        WireFault::MissingField,
    ),
    (
        Reader::Line,
        b"{\"op\":\"enrol\",\"name\":\"Carol\",\"rights\":\"t\",\"x\":1}",
        WireFault::BadField,
    ),
    (
        Reader::Line,
        b"{\"op\":\"enrol\",\"name\":\"carol\",\"rights\":\"t\",\"over\":1}",
        WireFault::UnknownField,
    ),
    (
        Reader::Line,
        b"{\"op\":\"retire\",\"name\":\"carol\"}",
        WireFault::UnknownField,
    ),
    (
        Reader::Line,
        b"{\"op\":\"assume\",\"over\":3}",
        WireFault::MissingField,
    ),
    (
        Reader::Line,
        b"{\"op\":\"assume\",\"agent\":-1,\"over\":3}",
        WireFault::BadField,
    ),
    (
        Reader::Line,
        b"{\"op\":\"assume\",\"agent\":3,\"over\":3}",
        WireFault::UnknownField,
    ),
    (
        Reader::Line,
        b"{\"op\":\"leave\",\"agent\":3}",
        WireFault::UnknownField,
    ),
    (
        Reader::Step,
        b"{\"op\":\"enrol\",\"name\":\"carol\",\"rights\":\"t\",\"actor\":1}",
        WireFault::NoOp,
    ),
    (
        Reader::Step,
        b"{\"op\":\"retire\",\"actor\":1}",
        WireFault::NoOp,
    ),
    (
        Reader::Step,
        b"{\"op\":\"assume\",\"agent\":3,\"actor\":1}",
        WireFault::NoOp,
    ),
    (
        Reader::Step,
        b"{\"op\":\"leave\",\"actor\":1}",
        WireFault::NoOp,
    ),
    (
        Reader::Step,
        b"{\"op\":\"bye\",\"actor\":1}",
        WireFault::NoOp,
    ),
    (
        Reader::Step,
        b"{\"op\":\"read\",\"over\":3}",
        WireFault::MissingField,
    ),
    (
        Reader::Step,
        b"{\"op\":\"read\",\"over\":1.5,\"actor\":1}",
        WireFault::BadField,
    ),
    (
        Reader::Step,
        b"{\"op\":\"read\",\"over\":3,\"actor\":null}",
        WireFault::BadField,
    ),
    (
        Reader::Step,
        b"{\"op\":\"read\",\"over\":3,\"actor\":1,\"seat\":0}",
        WireFault::UnknownField,
    ),
    (Reader::Goal, b"{\"op\":\"x\"}", WireFault::MissingField),
    (
        Reader::Goal,
        b"{\"from\":1,\"to\":2,\"rights\":null}",
        WireFault::BadField,
    ),
    (
        Reader::Goal,
        b"{\"from\":-1,\"to\":2,\"rights\":\"r\",\"op\":1}",
        WireFault::BadField,
    ),
    (
        Reader::Goal,
        b"{\"from\":1,\"to\":2,\"rights\":\"r\",\"op\":\"x\"}",
        WireFault::UnknownField,
    ),
];

#[test]
fn refused_lines_have_their_faults(rt: HostRuntime) {
    for (line, fault) in HOSTILE {
        assert!(rt; is_refused(rt.alloc(), Reader::Line, line, *fault));
        assert!(rt; is_refused(rt.alloc(), Reader::Step, line, *fault));
        assert!(rt; is_refused(rt.alloc(), Reader::Goal, line, *fault));
    }
    for (reader, line, fault) in REFUSED {
        assert!(rt; is_refused(rt.alloc(), *reader, line, *fault));
    }
}

#[test]
fn no_reader_takes_a_long_line(rt: HostRuntime) -> Result<(), AllocError> {
    let line = vec![in rt.alloc(); b' '; 16_385]?;
    assert!(rt; is_refused(rt.alloc(), Reader::Line, &line, WireFault::TooLong));
    assert!(rt; is_refused(rt.alloc(), Reader::Step, &line, WireFault::TooLong));
    assert!(rt; is_refused(rt.alloc(), Reader::Goal, &line, WireFault::TooLong));
    Ok(())
}
