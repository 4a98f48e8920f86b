//! Each call that allocates, if an allocation fails: the call says so, and made again it returns what the protocol
//! says. tests/faults/growths.py makes each allocation of a test fail in turn. A line that is read as a flat list of
//! members allocates only for a name, or a text of more than 16 bytes, that its command keeps.
use crate::wire::refusals::{HOSTILE, REFUSED, Reader, fault_in, fault_of};
use std::alloc::Global;
use tg_graph::Verdict;
use tg_rights::{Cause, Command, Reply, Rights, Rule, Which};
use tg_tests::cases::LONG;
use tg_vault::{Answer, Event, Swept};
use tg_wire::{
    Line, LineRoom, WireFault, read_config, read_goal, read_line, read_step, write_answer,
    write_reply, write_reply_in, write_swept, write_verdict,
};

/// What the call returns, made again if memory runs out.
fn answered<F: Fn(Global) -> Result<bool, WireFault>>(
    rt: &HostRuntime,
    call: F,
) -> Result<bool, WireFault>
    requires { F.IsAlwaysCallable call }
{
    match call(rt.alloc()) {
        Ok(answer) => Ok(answer),
        Err(WireFault::OutOfMemory) => {
            let _ = rt.println("no memory");
            call(rt.alloc())
        }
        Err(fault) => Err(fault),
    }
}

/// The configuration of an audit is read as it is written, with defaults for what it leaves out.
fn the_configuration_is_read(alloc: Global) -> Result<bool, WireFault> {
    let config = read_config(
        alloc,
        b"{\"edges\":[[1,\"t\",2],[2,\"r\",3]],\"principals\":[\"alice\",\"bob\",\"carol\"]}",
    )?;
    let edges = [(1, Rights::take(), 2), (2, Rights::read(), 3)];
    Ok(
        (config.next, config.slots, config.cells) == (4, 1_024, 16_384)
            && config.principals.len() == 3
            && config.edges.as_slice() == edges.as_slice(),
    )
}

#[test]
fn growth_refused_in_read_config(rt: HostRuntime) {
    assert!(rt; matches!(&answered(&rt, the_configuration_is_read), Ok(true)));
}

fn the_goal_is_read(alloc: Global) -> Result<bool, WireFault> {
    let goal = read_goal(alloc, b"{\"from\":1,\"rights\":\"r\",\"to\":3}")?;
    Ok(goal.from == 1 && goal.to == 3 && goal.rights == Rights::read())
}

#[test]
fn growth_refused_in_read_goal(rt: HostRuntime) {
    assert!(rt; matches!(&answered(&rt, the_goal_is_read), Ok(true)));
}

/// The step of a derivation, two of its texts with escapes: with fewer it is read flat.
fn the_step_is_read(alloc: Global) -> Result<bool, WireFault> {
    let step = read_step(
        alloc,
        b"{\"actor\":1,\"from\":2,\"op\":\"t\\u0061ke\",\"over\":3,\"rights\":\"\\u0072\"}",
    )?;
    match &step.command {
        Command::Take { rights, over, from } => {
            Ok(step.actor == 1 && *rights == Rights::read() && *over == 3 && *from == 2)
        }
        _ => Ok(false),
    }
}

#[test]
fn growth_refused_in_read_step(rt: HostRuntime) {
    assert!(rt; matches!(&answered(&rt, the_step_is_read), Ok(true)));
}

fn the_hello_is_read(alloc: Global) -> Result<bool, WireFault> {
    let line = read_line(alloc, b"{\"name\":\"alice\",\"op\":\"hello\",\"seat\":0}")?;
    match &line {
        Line::Act(Event::Hello { seat, name }) => Ok(*seat == 0 && name.get() == "alice"),
        _ => Ok(false),
    }
}

fn is_carols(command: &Command) -> bool {
    match command {
        Command::Enrol { name, rights } => name.get() == "carol" && *rights == Rights::take(),
        _ => false,
    }
}

fn the_enrol_is_read(alloc: Global) -> Result<bool, WireFault> {
    let line = read_line(
        alloc,
        b"{\"name\":\"carol\",\"op\":\"enrol\",\"rights\":\"t\"}",
    )?;
    match &line {
        Line::Act(Event::Ask { seat, command }) => Ok(*seat == 0 && is_carols(command)),
        _ => Ok(false),
    }
}

/// Whether the command writes this text and copies of it share it: they take no memory, so they do not fail whichever
/// allocation does.
fn writes_what_is_shared(alloc: Global, command: &Command) -> bool {
    match command {
        Command::Write { over, text } => {
            *over == 3 && text.get() == LONG && text.copy(alloc).is_ok()
        }
        _ => false,
    }
}

fn the_long_write_is_read(alloc: Global) -> Result<bool, WireFault> {
    let line = read_line(
        alloc,
        b"{\"op\":\"write\",\"over\":3,\"text\":\"a text of many bytes\"}",
    )?;
    match &line {
        Line::Act(Event::Ask { seat, command }) => {
            Ok(*seat == 0 && writes_what_is_shared(alloc, command))
        }
        _ => Ok(false),
    }
}

#[test]
fn growth_refused_in_read_line(rt: HostRuntime) {
    assert!(rt; matches!(&answered(&rt, the_hello_is_read), Ok(true)));
    assert!(rt; matches!(&answered(&rt, the_enrol_is_read), Ok(true)));
    assert!(rt; matches!(&answered(&rt, the_long_write_is_read), Ok(true)));
}

/// Whether the command writes a quote, a backslash, a line feed, an accented e and a clef into the document 7.
fn writes_what_was_escaped(command: &Command) -> bool {
    match command {
        Command::Write { over, text } => *over == 7 && text.get() == "\"\\\n\u{e9}\u{1d11e}",
        _ => false,
    }
}

fn the_write_is_read(alloc: Global) -> Result<bool, WireFault> {
    let line = read_line(
        alloc,
        b"{\"op\":\"wr\\u0069te\",\"over\":7,\"text\":\"\\\"\\\\\\n\\u00e9\\ud834\\udd1e\"}",
    )?;
    match &line {
        Line::Act(Event::Ask { seat, command }) => {
            Ok(*seat == 0 && writes_what_was_escaped(command))
        }
        _ => Ok(false),
    }
}

#[test]
fn growth_refused_in_a_line_with_escapes(rt: HostRuntime) {
    assert!(rt; matches!(&answered(&rt, the_write_is_read), Ok(true)));
}

/// Lines that are flat, each with its fault, if it has one: each kind of value, the least and the greatest number,
/// spaces at every place, and as many members as there may be. None has a name, or a text of more than 16 bytes, that
/// its command keeps.
const FLAT: &[(&[u8], Option<WireFault>)] = &[
    (b"{\"op\":\"read\",\"over\":3,\"seat\":0}", None),
    (b"{\"over\":18446744073709551615}", Some(WireFault::NoOp)),
    (
        b" {\t\"op\" :\r\"write\" , \"text\": \"\", \"over\":10 ,\"seat\": 63 } ",
        None,
    ),
    (
        b"{\"op\":\"write\",\"over\":10,\"text\":\"sixteen letters!\"}",
        None,
    ),
    (
        b"{\"text\":\"\xc3\xa9t\xc3\xa9\",\"op\":\"read\",\"over\":100}",
        Some(WireFault::UnknownField),
    ),
    (
        b"{\"from\":1,\"op\":\"take\",\"over\":3,\"rights\":\"r\",\"seat\":2}",
        None,
    ),
    (b"{\"op\":\"retire\",\"seat\":2}", None),
    (b"{\"agent\":3,\"op\":\"assume\",\"seat\":2}", None),
    (b"{\"op\":\"leave\"}", None),
    (
        b"{\"name\":\"Carol\",\"op\":\"enrol\",\"rights\":\"t\"}",
        Some(WireFault::BadField),
    ),
    (
        b"{\"name\":\"carol\",\"op\":\"enrol\",\"rights\":\"x\"}",
        Some(WireFault::BadField),
    ),
];

/// The same, of steps.
const FLAT_STEPS: &[(&[u8], Option<WireFault>)] = &[
    (
        b"{\"actor\":1,\"from\":2,\"op\":\"take\",\"over\":3,\"rights\":\"r\"}",
        None,
    ),
    (b"{\"op\":\"look\",\"at\":3}", Some(WireFault::MissingField)),
];

/// A reader that read each line as a tree would keep its contract, but be slow. A tree takes memory, a flat line none:
/// tests/faults/growths.py checks that this test makes no allocation.
#[test]
fn no_growth_in_flat_lines(rt: HostRuntime) {
    for (line, fault) in FLAT {
        assert!(rt; fault_of(&read_line(rt.alloc(), line)) == *fault);
    }
    for (line, fault) in FLAT_STEPS {
        assert!(rt; fault_of(&read_step(rt.alloc(), line)) == *fault);
    }
}

/// Whether the reader refuses the line for this fault, if there is memory to see it.
fn is_refused(
    alloc: Global,
    reader: Reader,
    line: &[u8],
    wanted: WireFault,
) -> Result<bool, WireFault> {
    match fault_in(alloc, reader, line) {
        Some(WireFault::OutOfMemory) => Err(WireFault::OutOfMemory),
        found => Ok(found == Some(wanted)),
    }
}

fn all_are_refused(alloc: Global) -> Result<bool, WireFault> {
    for (line, fault) in HOSTILE {
        if !is_refused(alloc, Reader::Line, line, *fault)? {
            return Ok(false);
        }
    }
    for (reader, line, fault) in REFUSED {
        if !is_refused(alloc, *reader, line, *fault)? {
            return Ok(false);
        }
    }
    Ok(true)
}

/// A line that has a fault is refused for it, or for lack of memory.
#[test]
fn growth_refused_in_lines_that_are_refused(rt: HostRuntime) {
    assert!(rt; matches!(&answered(&rt, all_are_refused), Ok(true)));
}

fn the_reply_is_written(alloc: Global) -> Result<bool, WireFault> {
    let line = write_reply(alloc, &Reply::Created(3))?;
    Ok(line.as_slice() == b"{\"ok\":\"created\",\"vertex\":3}\n".as_slice())
}

#[test]
fn growth_refused_in_write_reply(rt: HostRuntime) {
    assert!(rt; matches!(&answered(&rt, the_reply_is_written), Ok(true)));
}

/// Whether the reply is written in the room; written again if memory runs out.
fn is_written_in(rt: &HostRuntime, room: &mut LineRoom, reply: &Reply, wanted: &[u8]) -> bool {
    if write_reply_in(room, reply).is_err() {
        let _ = rt.println("no memory");
        if write_reply_in(room, reply).is_err() {
            return false;
        }
    }
    room.line() == wanted
}

/// Room that could not be allocated is allocated with the next line that needs some, and kept for the one after it.
#[test]
fn growth_refused_in_write_reply_in(rt: HostRuntime) {
    let room = &mut LineRoom::new(rt.alloc());
    assert!(rt;
        is_written_in(
            &rt,
            room,
            &Reply::Full(Which::Slots),
            b"{\"full\":\"slots\"}\n"
        )
    );
    assert!(rt;
        is_written_in(
            &rt,
            room,
            &Reply::Full(Which::Cells),
            b"{\"full\":\"cells\"}\n"
        )
    );
}

/// A short answer needs no memory.
#[test]
fn no_growth_in_a_short_reply(rt: HostRuntime) {
    let room = &mut LineRoom::new(rt.alloc());
    assert!(rt; write_reply_in(room, &Reply::Created(3)).is_ok());
    assert!(rt; room.line() == b"{\"ok\":\"created\",\"vertex\":3}\n".as_slice());
}

fn the_answer_is_written(alloc: Global) -> Result<bool, WireFault> {
    let line = write_answer(alloc, &Answer::Shaded(Some(3)))?;
    Ok(line.as_slice() == b"{\"shaded\":3}\n".as_slice())
}

#[test]
fn growth_refused_in_write_answer(rt: HostRuntime) {
    assert!(rt; matches!(&answered(&rt, the_answer_is_written), Ok(true)));
}

fn the_cycle_is_written(alloc: Global) -> Result<bool, WireFault> {
    let swept = Swept {
        freed: 1,
        steps: 10,
    };
    let line = write_swept(alloc, swept)?;
    Ok(line.as_slice() == b"{\"freed\":1,\"steps\":10}\n".as_slice())
}

#[test]
fn growth_refused_in_write_swept(rt: HostRuntime) {
    assert!(rt; matches!(&answered(&rt, the_cycle_is_written), Ok(true)));
}

fn the_verdict_is_written(alloc: Global) -> Result<bool, WireFault> {
    let denied = Verdict::StepDenied {
        index: 0,
        rule: Rule::Take,
        cause: Cause::NotDistinct,
    };
    let line = write_verdict(alloc, &denied)?;
    Ok(
        line.as_slice()
            == b"{\"cause\":\"not distinct\",\"denied\":\"take\",\"step\":0,\"verdict\":\"step denied\"}\n".as_slice(),
    )
}

#[test]
fn growth_refused_in_write_verdict(rt: HostRuntime) {
    assert!(rt; matches!(&answered(&rt, the_verdict_is_written), Ok(true)));
}
