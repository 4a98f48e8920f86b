//! Replies, answers, cycles, verdicts and refusals are written as the protocol has them.

use std::alloc::{AllocError, Global};
use tg_collect::{Note, Phase};
use tg_graph::{OpenFault, Verdict};
use tg_rights::{Cause, Reply, Rights, Rule};
use tg_vault::{Answer, SeatFault, Swept};
use tg_wire::{
    LineRoom, WireFault, error_line, open_fault_line, write_answer, write_answer_in, write_reply,
    write_reply_in, write_swept, write_swept_in, write_verdict,
};

fn is_reply(alloc: Global, reply: Reply, line: &[u8]) -> Result<bool, AllocError> {
    Ok(write_reply(alloc, &reply)?.as_slice() == line)
}

/// Causes that are told by their words, and by a vertex at most.
#[test]
fn denials_are_written(rt: HostRuntime) -> Result<(), AllocError> {
    for (rule, cause, line) in [
        (
            Rule::Look,
            Cause::Retired,
            b"{\"cause\":\"retired\",\"denied\":\"look\"}\n".as_slice(),
        ),
        (
            Rule::Enrol,
            Cause::Empty,
            b"{\"cause\":\"empty\",\"denied\":\"enrol\"}\n".as_slice(),
        ),
        (
            Rule::Take,
            Cause::NotDistinct,
            b"{\"cause\":\"not distinct\",\"denied\":\"take\"}\n".as_slice(),
        ),
        (
            Rule::Retire,
            Cause::NotPrincipal,
            b"{\"cause\":\"not principal\",\"denied\":\"retire\"}\n".as_slice(),
        ),
        (
            Rule::Enrol,
            Cause::NameTaken,
            b"{\"cause\":\"name taken\",\"denied\":\"enrol\"}\n".as_slice(),
        ),
        (
            Rule::Enrol,
            Cause::Crowded,
            b"{\"cause\":\"crowded\",\"denied\":\"enrol\"}\n".as_slice(),
        ),
        (
            Rule::Read,
            Cause::NotDocument { vertex: 3 },
            b"{\"cause\":\"not document\",\"denied\":\"read\",\"vertex\":3}\n".as_slice(),
        ),
        (
            Rule::Assume,
            Cause::NotSubject { vertex: 3 },
            b"{\"cause\":\"not subject\",\"denied\":\"assume\",\"vertex\":3}\n".as_slice(),
        ),
    ] {
        assert!(rt; is_reply(rt.alloc(), Reply::Denied(rule, cause), line)?);
    }
    Ok(())
}

fn is_answer(alloc: Global, answer: Answer, line: &[u8]) -> Result<bool, AllocError> {
    Ok(write_answer(alloc, &answer)?.as_slice() == line)
}

fn is_swept(alloc: Global, swept: Swept, line: &[u8]) -> Result<bool, AllocError> {
    Ok(write_swept(alloc, swept)?.as_slice() == line)
}

#[test]
fn replies_and_answers_are_written(rt: HostRuntime) -> Result<(), AllocError> {
    let alloc = rt.alloc();
    let created = Reply::Created(18_446_744_073_709_551_614);
    assert!(rt;
        is_reply(
            alloc,
            created,
            b"{\"ok\":\"created\",\"vertex\":18446744073709551614}\n"
        )?
    );
    assert!(rt; is_answer(alloc, Answer::Shaded(None), b"{\"shaded\":null}\n")?);
    let refused = Answer::Seat(SeatFault::NoPrincipal);
    assert!(rt; is_answer(alloc, refused, b"{\"error\":\"no principal\"}\n")?);
    let noted = Answer::Noted(Note {
        phase: Phase::Sweep,
        freed: 1,
        ended: false,
    });
    assert!(rt;
        is_answer(
            alloc,
            noted,
            b"{\"ended\":false,\"freed\":1,\"phase\":\"sweep\"}\n"
        )?
    );
    let swept = Swept {
        freed: 1,
        steps: 10,
    };
    assert!(rt; is_swept(alloc, swept, b"{\"freed\":1,\"steps\":10}\n")?);
    Ok(())
}

#[test]
fn lines_are_written_one_after_another_in_one_room(rt: HostRuntime) -> Result<(), AllocError> {
    let room = &mut LineRoom::new(rt.alloc());
    let note = Note {
        phase: Phase::Mark,
        freed: 0,
        ended: false,
    };
    write_answer_in(room, &Answer::Noted(note))?;
    assert!(rt; room.line() == b"{\"ended\":false,\"freed\":0,\"phase\":\"mark\"}\n".as_slice());
    write_reply_in(room, &Reply::Done)?;
    assert!(rt; room.line() == b"{\"ok\":\"done\"}\n".as_slice());
    let swept = Swept {
        freed: 2,
        steps: 13,
    };
    write_swept_in(room, swept)?;
    assert!(rt; room.line() == b"{\"freed\":2,\"steps\":13}\n".as_slice());
    Ok(())
}

#[test]
fn a_line_of_the_callers_takes_the_place_of_another(rt: HostRuntime) -> Result<(), AllocError> {
    let mut room = LineRoom::new(rt.alloc());
    write_reply_in(&mut room, &Reply::Done)?;
    let mut own = Vec::new(rt.alloc());
    own.extend_from_slice(b"digraph {\n")?;
    room.put(own);
    assert!(rt; room.line() == b"digraph {\n".as_slice());
    room.clear();
    assert!(rt; room.line().is_empty());
    write_reply_in(&mut room, &Reply::Done)?;
    assert!(rt; room.into_line()?.as_slice() == b"{\"ok\":\"done\"}\n".as_slice());
    Ok(())
}

fn is_written(alloc: Global, verdict: &Verdict, line: &[u8]) -> Result<bool, AllocError> {
    Ok(write_verdict(alloc, verdict)?.as_slice() == line)
}

#[test]
fn each_verdict_is_written(rt: HostRuntime) -> Result<(), AllocError> {
    let alloc = rt.alloc();
    let no_subject = Verdict::ActorNotSubject { index: 2 };
    let denied = Verdict::StepDenied {
        index: 3,
        rule: Rule::Take,
        cause: Cause::Missing {
            from: 1,
            to: 2,
            rights: Rights::take(),
        },
    };
    let full = Verdict::StepFull { index: 4 };
    let missing = Verdict::GoalMissing {
        rights: Rights::read().union(Rights::grant()),
    };
    assert!(rt; is_written(alloc, &Verdict::Shared, b"{\"verdict\":\"shared\"}\n")?);
    assert!(rt;
        is_written(
            alloc,
            &no_subject,
            b"{\"step\":2,\"verdict\":\"actor not subject\"}\n"
        )?
    );
    assert!(rt;
        is_written(
            alloc,
            &denied,
            b"{\"denied\":\"take\",\"from\":1,\"missing\":\"t\",\"step\":3,\"to\":2,\"verdict\":\"step denied\"}\n"
        )?
    );
    assert!(rt; is_written(alloc, &full, b"{\"step\":4,\"verdict\":\"step full\"}\n")?);
    assert!(rt;
        is_written(
            alloc,
            &missing,
            b"{\"missing\":\"rg\",\"verdict\":\"goal missing\"}\n"
        )?
    );
    Ok(())
}

#[test]
fn refusals_are_lines(rt: HostRuntime) {
    assert!(rt; error_line(WireFault::TooLong) == b"{\"error\":\"line too long\"}\n".as_slice());
    assert!(rt;
        open_fault_line(OpenFault::Limit) == b"{\"error\":\"config\",\"fault\":10}\n".as_slice()
    );
}
