//! What is told at the desk of a server, and what is asked there.

use crate::attending::{Request, plain_request, request_in};
use crate::desk::{Course, Desk};
use crate::tally::{Tallied, Tally};
use crate::tests::clients::Hands;

/// Answers, and what they tell.
const ANSWERS: &[(&[u8], (u64, u64, u64), Option<u64>)] = &[
    (b"{\"error\":\"no actor\"}\n", (1, 0, 0), None),
    (
        b"{\"ok\":\"hello\",\"vertex\":18446744073709551615}\n{\"denied\":\"read\",\"from\":1,\"missing\":\"r\",\"to\":2}\n",
        (0, 1, 0),
        Some(u64::MAX),
    ),
    (
        b"{\"cause\":\"empty\",\"denied\":\"create\"}\n{\"full\":\"slots\"}\n",
        (0, 1, 1),
        None,
    ),
    (
        b"{\"ok\":\"text\",\"text\":\"{\\\"error\\\"\"}\n",
        (0, 0, 0),
        None,
    ),
    (b"{\"error\":\"busy\"}", (0, 0, 0), None),
];

fn counts(tallied: Tallied) -> (u64, u64, u64) {
    (tallied.refused, tallied.denied, tallied.full)
}

#[test]
fn answers_are_counted_by_their_beginnings(rt: HostRuntime) {
    for (answers, wanted, greeted) in ANSWERS {
        let tallied = Tally::new().note(answers);
        assert!(rt; counts(tallied) == *wanted);
        assert!(rt; tallied.greeted == *greeted);
    }
}

/// An answer that is written in two parts counts once.
#[test]
fn an_answer_may_come_in_parts(rt: HostRuntime) {
    let mut tally = Tally::new();
    assert!(rt; counts(tally.note(b"{\"err")) == (0, 0, 0));
    assert!(rt; counts(tally.note(b"or\":\"busy\"}\n")) == (1, 0, 0));
}

/// Lines at the control socket, and what they ask.
const REQUESTS: &[(&[u8], Request)] = &[
    (b"{\"op\":\"status\"}", Request::Status),
    (b"{\"op\":\"stop\"}", Request::Stop { within: 10 }),
    (
        b"{\"within\":0,\"op\":\"stop\"}",
        Request::Stop { within: 0 },
    ),
    (
        b"{\"op\":\"end round\",\"within\":86400}",
        Request::EndRound { within: 86_400 },
    ),
];

#[test]
fn requests_are_read(rt: HostRuntime) {
    for (line, wanted) in REQUESTS {
        assert!(rt; request_in(rt.alloc(), line) == Ok(*wanted));
    }
}

/// A request for which there is no memory is refused as such, and is read when it comes again: tests/faults/growths.py
/// makes each allocation fail in turn.
#[test]
fn growth_refused_in_a_request(rt: HostRuntime) {
    let line = b"{\"within\":7,\"op\":\"stop\"}";
    let mut found = request_in(rt.alloc(), line);
    if found == Err("{\"error\":\"no memory\"}\n") {
        let _ = rt.println("no memory");
        found = request_in(rt.alloc(), line);
    }
    assert!(rt; found == Ok(Request::Stop { within: 7 }));
}

/// Once a history is lost for want of memory, no later one is kept.
#[test]
fn growth_refused_in_kept_histories(rt: HostRuntime) {
    let desk = Desk::unattended(rt.alloc());
    desk.note_bytes(640);
    desk.keep_history(&rt, Vec::new(rt.alloc()));
    let mut kept = 1;
    if desk.lacks_history() {
        let _ = rt.println("no memory");
        desk.keep_history(&rt, Vec::new(rt.alloc()));
        kept = 0;
    }
    assert!(rt; desk.take_histories(&rt, rt.alloc()).len() == kept);
}

/// What is not yet written keeps the next round waiting if it takes more than one may, unless there is only the history
/// of the last round.
#[test]
fn unwritten_histories_are_counted(rt: HostRuntime) {
    let desk = Desk::unattended(rt.alloc());
    desk.note_bytes(640);
    desk.keep_history(&rt, Vec::new(rt.alloc()));
    assert!(rt; !desk.keeps_more_than(320));
    desk.note_bytes(320);
    desk.keep_history(&rt, Vec::new(rt.alloc()));
    assert!(rt; desk.keeps_more_than(959) && !desk.keeps_more_than(960));
    for history in desk.take_histories(&rt, rt.alloc()) {
        desk.drop_history(history);
    }
    desk.note_bytes(0);
    assert!(rt; !desk.keeps_more_than(0));
}

/// Lines that are read without memory or, if nothing is said of them, left to be read with it.
const PLAIN: &[(&[u8], Option<Request>)] = &[
    (b"{\"op\":\"status\"}", Some(Request::Status)),
    (b"{\"op\":\"stop\"}", Some(Request::Stop { within: 10 })),
    (
        b" {\"op\": \"stop\", \"within\": 0} ",
        Some(Request::Stop { within: 0 }),
    ),
    (
        b"{\"op\":\"end round\",\"within\":86400}",
        Some(Request::EndRound { within: 86_400 }),
    ),
    (b"{\"within\":0,\"op\":\"stop\"}", None),
    (b"{\"op\":\"stop\",\"within\":01}", None),
    (b"{\"op\":\"stop\",\"within\":1 0}", None),
    (b"{\"op\":\"stop\",\"within\":86401}", None),
    (b"{\"op\":\"stop\",\"within\":}", None),
    (b"{\"op\":\"endround\"}", None),
    (b"{\"op\":\"stop\"", None),
    (b"", None),
];

#[test]
fn plain_requests_are_read_without_memory(rt: HostRuntime) {
    for (line, wanted) in PLAIN {
        assert!(rt; plain_request(line) == *wanted);
    }
}

/// Lines that ask nothing, and the words of their refusals.
const REFUSED: &[(&[u8], &str)] = &[
    (b"status", "{\"error\":\"not json\"}\n"),
    (b"[]", "{\"error\":\"not an object\"}\n"),
    (b"{}", "{\"error\":\"bad field\"}\n"),
    (b"{\"op\":1}", "{\"error\":\"bad field\"}\n"),
    (b"{\"op\":\"shutdown\"}", "{\"error\":\"unknown op\"}\n"),
    (
        b"{\"op\":\"stop\",\"within\":86401}",
        "{\"error\":\"bad field\"}\n",
    ),
    (
        b"{\"op\":\"stop\",\"after\":1}",
        "{\"error\":\"unknown field\"}\n",
    ),
];

#[test]
fn what_asks_nothing_is_refused(rt: HostRuntime) {
    for (line, wanted) in REFUSED {
        assert!(rt; request_in(rt.alloc(), line) == Err(*wanted));
    }
}

/// The course of a desk, so many milliseconds later.
fn course_after(desk: &Desk, clock: &Hands, milliseconds: u64) -> Course {
    clock.move_on(milliseconds);
    desk.advance(clock);
    desk.course()
}

/// A stop that came before a round began ends that round.
#[test]
fn a_stop_outlasts_its_round(rt: HostRuntime) {
    let clock = Hands::new();
    let desk = Desk::unattended(rt.alloc());
    assert!(rt; course_after(&desk, &clock, 9_000) == Course::Open);
    desk.stop(&clock, 5);
    desk.begin_round(2);
    assert!(rt; desk.is_stopping());
    assert!(rt; course_after(&desk, &clock, 4_999) == Course::Closing);
    assert!(rt; course_after(&desk, &clock, 1) == Course::Ending);
    assert!(rt; course_after(&desk, &clock, 999) == Course::Ending);
    assert!(rt; course_after(&desk, &clock, 1) == Course::Over);
}

/// The end of a round ends no other; of several requests the earliest end counts.
#[test]
fn a_round_ends_for_itself(rt: HostRuntime) {
    let clock = Hands::new();
    let desk = Desk::unattended(rt.alloc());
    desk.end_round(&clock, 0);
    assert!(rt; course_after(&desk, &clock, 0) == Course::Ending);
    desk.begin_round(2);
    assert!(rt; course_after(&desk, &clock, 9_000) == Course::Open);
    desk.stop(&clock, 60);
    desk.end_round(&clock, 5);
    desk.stop(&clock, 600);
    assert!(rt; course_after(&desk, &clock, 5_000) == Course::Ending);
    desk.begin_round(3);
    assert!(rt; course_after(&desk, &clock, 0) == Course::Closing);
    assert!(rt; course_after(&desk, &clock, 55_000) == Course::Ending);
}

/// However late the end is asked for, it is asked for.
#[test]
fn an_end_may_be_far(rt: HostRuntime) {
    let clock = Hands::new();
    let desk = Desk::unattended(rt.alloc());
    desk.stop(&clock, u64::MAX);
    assert!(rt; desk.is_stopping());
    assert!(rt; course_after(&desk, &clock, 9_000) == Course::Closing);
}
