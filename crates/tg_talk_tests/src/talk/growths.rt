//! A talk that lacks memory: the lines that it took are answered, all but perhaps the last, the logs agree, and a
//! second talk has all answers. tests/faults/growths.py makes each allocation of the test fail in turn.
use crate::talk::{ANSWERS, Came, LINES, talk_over};
use std::alloc::{AllocError, Global};
use std::io::Print;
use std::process::Abort;
use std::rt::Clock;
use std::sync::Wait;
use tg_talk::TalkFault;

const REFUSAL: &[u8] = b"{\"error\":\"out of memory\"}\n";

/// How many answers were written.
fn answers_in(out: &[u8]) -> u64 {
    out.iter().filter(|byte| **byte == b'\n').count() as u64
}

/// Whether a line was answered `out of memory`.
fn says_no_memory(out: &[u8]) -> bool {
    out.windows(REFUSAL.len()).any(|found| found == REFUSAL)
}

/// Whether each line that was taken has an answer, but for a last one whose reply lacked memory, and the logs agree.
fn is_left_whole(came: Came, out: &[u8]) -> bool {
    let answers = answers_in(out);
    let told = match came.fault {
        None => came.lines == 6 && answers == 6,
        Some(TalkFault::OutOfMemory) => came.lines == 0 && answers == 0
            || came.lines > answers && came.lines - answers == 1,
        Some(_) => false,
    };
    told && came.entries.is_some()
}

/// Whether all lines are answered as they are with ample memory, and the two commands are entered.
fn is_answered(came: Came, out: &[u8]) -> bool {
    came.lines == 6 && came.fault.is_none() && came.entries == Some(2) && out == ANSWERS
}

/// A talk over the lines, and once more if memory ran out.
fn talk_again<R: Abort + Clock + Print + Wait>(
    rt: &R,
    alloc: Global,
    out: &mut Vec<u8>,
) -> Result<Came, AllocError> {
    let came = talk_over(rt, alloc, LINES, &mut *out)?;
    if came.fault != Some(TalkFault::OutOfMemory) && !says_no_memory(out) {
        return Ok(came);
    }
    let _ = rt.println("no memory");
    assert!(rt; is_left_whole(came, out));
    out.clear();
    talk_over(rt, alloc, LINES, &mut *out)
}

/// A talk that lacks memory leaves all that it did in the logs; one with enough answers each line.
#[test]
fn growth_refused_in_talk(rt: HostRuntime) -> Result<(), AllocError> {
    let mut out = Vec::with_capacity(rt.alloc(), 1_024)?;
    let came = talk_again(&rt, rt.alloc(), &mut out)?;
    if came.entries.is_none() {
        // There was no memory for the logs.
        return Err(AllocError);
    }
    assert!(rt; is_answered(came, &out));
    Ok(())
}
