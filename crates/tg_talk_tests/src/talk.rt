//! Talks over memory: the answers, how the logs settle, and a reader and a writer that fail at each of their calls.
ghost use Rattle.std.specs.Prelude.{◌≡◌, [], IfOk, IfSome, false};
ghost use Rattle.tg_talk.specs.Promise.Devices.{has_failed, owed};
ghost use Rattle.tg_talk_tests.specs.Inner.Fresh.{IsBlank};

mod gates;
mod growths;
mod lines;
mod signals;

use crate::sharing::agreed;
use lines::FAILURES;
use std::alloc::{AllocError, Global};
use std::io::{BufWriter, Read, Write};
use std::marker::Brand;
use std::rt::Clock;
use std::sync::Wait;
use std::sync::ledger::{Blank, Ledger};
use tg_failing::{FailingReader, FailingWriter, Failure};
use tg_share::{Ended, Open, PARTS, Shared};
use tg_talk::{TalkFault, Talked, Watched, buffered, talk};
use tg_vault::Vault;
use tg_wire::read_config;

const CONFIG: &[u8] =
    b"{\"cells\":8,\"edges\":[[1,\"t\",2]],\"principals\":[\"alice\",\"bob\"],\"slots\":8}";

pub const LINES: &[u8] =
    b"{\"op\":\"read\",\"over\":3}\n{\"name\":\"alice\",\"op\":\"hello\"}\n{\"kind\":\"document\",\"op\":\"create\",\"rights\":\"rw\"}\n{\"op\":\"read\",\"over\":3}\n{\"op\":\"shade\"}\n{\"op\":\"bye\"}\n";

pub const ANSWERS: &[u8] =
    b"{\"error\":\"no actor\"}\n{\"ok\":\"hello\",\"vertex\":1}\n{\"ok\":\"created\",\"vertex\":3}\n{\"ok\":\"text\",\"text\":\"\"}\n{\"error\":\"not for a session\"}\n{\"ok\":\"bye\"}\n";

/// The vault of the configuration.
pub fn opened(alloc: Global) -> Option<Vault>
    ensures { IfSome result (λ vault. vault.history ≡ []) }
{
    let config = read_config(alloc, CONFIG).ok()?;
    Vault::new(alloc, config).ok()
}

/// The result of a talk.
#[derive(Clone, Copy, Debug, PartialEq, Eq)]
pub struct Came {
    pub lines: u64,
    pub fault: Option<TalkFault>,
    /// How many entries there are, if logs and history agree and each session is counted.
    pub entries: Option<u64>,
}

/// The list of the session's end, if it was given; empty if memory runs out.
fn list_of<L: Ledger>(alloc: Global, ended: Option<Ended<L>>) -> Vec<Ended<L>> {
    match ended {
        Some(ended) => vec![in alloc; ended].unwrap_or(Vec::new(alloc)),
        None => Vec::new(alloc),
    }
}

/// A talk on seat 0 over a vault of its own, and the settlement of its log.
pub fn talk_alone<L: Ledger, D: Read, W: Write + Drop, R: Wait + Clock>(
    rt: &R,
    alloc: Global,
    reader: &mut Watched<D>,
    writer: &mut Watched<BufWriter<W>>,
    blank: Blank,
    vault: Vault,
) -> Came
    requires fresh { IsBlank L.name L.parts blank vault.history }
    requires reads { has_failed reader.old ≡ false }
    requires writes { has_failed writer.old ≡ false }
    requires paid { owed writer.old ≡ [] }
{
    let shared = Shared::<L>::new(alloc, blank, vault);
    let Talked {
        lines,
        fault,
        ended,
    } = talk(rt, alloc, reader, writer, &shared, 0, &Open);
    Came {
        lines,
        fault,
        entries: agreed(shared, Some(list_of(alloc, ended))),
    }
}

/// A talk over these devices, on a vault of its own; if there is memory for it.
pub fn talk_over<D: Read + Drop, W: Write + Drop, R: Wait + Clock>(
    rt: &R,
    alloc: Global,
    reader: D,
    writer: W,
) -> Result<Came, AllocError> {
    let mut reader = Watched::new(reader);
    let vault = opened(alloc).ok_or(AllocError)?;
    let mut writer = buffered(alloc, writer)?;
    let blank = Blank::new(PARTS);
    Ok(talk_alone::<Brand, _, _, _>(rt, alloc, &mut reader, &mut writer, blank, vault))
}

/// The result of a whole talk over the lines.
const WHOLE: Came = Came {
    lines: 6,
    fault: None,
    entries: Some(2),
};

#[test]
fn talk_over_memory(rt: HostRuntime) -> Result<(), AllocError> {
    let mut out = Vec::new(rt.alloc());
    let came = talk_over(&rt, rt.alloc(), LINES, &mut out)?;
    assert!(rt; out.as_slice() == ANSWERS);
    assert_eq!(rt; came, WHOLE);
    Ok(())
}

/// A talk over the lines, with a reader and a writer of single bytes, the former for this many reads and the latter for
/// this many writes. What is written is appended to `out`.
fn talk_by_bytes<R: Wait + Clock>(
    rt: &R,
    alloc: Global,
    reads: usize,
    writes: usize,
    how: Failure,
    out: &mut Vec<u8>,
) -> Result<Came, AllocError> {
    let bytes = LINES;
    let failing = FailingWriter {
        bytes: out,
        writes,
        how,
    };
    talk_over(rt, alloc, FailingReader { bytes, reads }, failing)
}

/// Whether the talk ended by this fault, its logs agree with the history, and the answers begin with what was written.
fn ended_by(came: Came, fault: TalkFault, out: &[u8]) -> bool {
    came.fault == Some(fault) && came.entries.is_some() && ANSWERS.starts_with(out)
}

#[test]
fn each_read_of_a_talk_fails_in_turn(rt: HostRuntime) -> Result<(), AllocError> {
    for reads in 0..LINES.len() {
        let mut out = Vec::new(rt.alloc());
        let came = talk_by_bytes(&rt, rt.alloc(), reads, 1000, Failure::Error, &mut out)?;
        assert!(rt; ended_by(came, TalkFault::Reading, &out));
    }
    Ok(())
}

/// Whether each write fails in turn as it should, if writes fail in this way: all bytes before it are there.
fn fails_at_each_write<R: Wait + Clock>(
    rt: &R,
    alloc: Global,
    how: Failure,
) -> Result<bool, AllocError> {
    for writes in 0..ANSWERS.len() {
        let mut out = Vec::new(alloc);
        let came = talk_by_bytes(rt, alloc, 1000, writes, how, &mut out)?;
        if !ended_by(came, TalkFault::Writing, &out) || out.len() != writes {
            return Ok(false);
        }
    }
    Ok(true)
}

#[test]
fn each_write_of_a_talk_fails_in_turn(rt: HostRuntime) -> Result<(), AllocError> {
    for how in FAILURES {
        assert!(rt; fails_at_each_write(&rt, rt.alloc(), *how)?);
    }
    Ok(())
}

#[test]
fn a_talk_over_single_bytes_is_whole(rt: HostRuntime) -> Result<(), AllocError> {
    let mut out = Vec::new(rt.alloc());
    let came = talk_by_bytes(&rt, rt.alloc(), 1000, 1000, Failure::Error, &mut out)?;
    assert!(rt; out.as_slice() == ANSWERS);
    assert_eq!(rt; came, WHOLE);
    Ok(())
}

/// The lines one by one, each with its answer.
const ROWS: &[(&[u8], &[u8])] = &[
    (
        b"{\"op\":\"read\",\"over\":3}\n",
        b"{\"error\":\"no actor\"}\n",
    ),
    (
        b"{\"name\":\"alice\",\"op\":\"hello\"}\n",
        b"{\"ok\":\"hello\",\"vertex\":1}\n",
    ),
    (
        b"{\"kind\":\"document\",\"op\":\"create\",\"rights\":\"rw\"}\n",
        b"{\"ok\":\"created\",\"vertex\":3}\n",
    ),
    (
        b"{\"op\":\"read\",\"over\":3}\n",
        b"{\"ok\":\"text\",\"text\":\"\"}\n",
    ),
    (
        b"{\"op\":\"shade\"}\n",
        b"{\"error\":\"not for a session\"}\n",
    ),
    (b"{\"op\":\"bye\"}\n", b"{\"ok\":\"bye\"}\n"),
];

const NOT_JSON: &[u8] = b"{\"error\":\"not json\"}\n";

/// How many lines there are in so many bytes of the rows, if they are answered like this: a last line that is cut is
/// `not json`, unless it lacks its line feed alone.
fn lines_answered(count: usize, out: &[u8]) -> Option<u64> {
    let mut left = count;
    let mut rest = out;
    let mut lines: u64 = 0;
    for (line, answer) in ROWS {
        if left == 0 {
            break;
        }
        let is_whole = left.saturating_add(1) >= line.len();
        rest = rest.strip_prefix(if is_whole { *answer } else { NOT_JSON })?;
        lines = lines.saturating_add(1);
        left = left.saturating_sub(line.len());
    }
    if rest.is_empty() { Some(lines) } else { None }
}

/// Whether a talk over so many bytes of the lines is answered as it should be, and ends without a fault.
fn is_cut_well<R: Wait + Clock>(rt: &R, alloc: Global, count: usize) -> Result<bool, AllocError> {
    let bytes = LINES.get(..count).unwrap_or(LINES);
    let mut out = Vec::new(alloc);
    let came = talk_over(rt, alloc, bytes, &mut out)?;
    let is_answered = lines_answered(count, &out) == Some(came.lines);
    Ok(is_answered && came.fault.is_none() && came.entries.is_some())
}

#[test]
fn a_talk_is_cut_after_each_byte(rt: HostRuntime) -> Result<(), AllocError> {
    for count in 0..=LINES.len() {
        assert!(rt; is_cut_well(&rt, rt.alloc(), count)?);
    }
    Ok(())
}

/// The lines up to a text that one of them writes; then those after it, the last of which reads it back.
const WRITE: &[u8] =
    b"{\"name\":\"alice\",\"op\":\"hello\"}\n{\"kind\":\"document\",\"op\":\"create\",\"rights\":\"rw\"}\n{\"op\":\"write\",\"over\":3,\"text\":\"";

const READ: &[u8] = b"\"}\n{\"op\":\"read\",\"over\":3}\n";

/// The answers up to that text; then what comes after it.
const WRITTEN: &[u8] =
    b"{\"ok\":\"hello\",\"vertex\":1}\n{\"ok\":\"created\",\"vertex\":3}\n{\"ok\":\"done\"}\n{\"ok\":\"text\",\"text\":\"";

const WRITTEN_END: &[u8] = b"\"}\n";

/// A text of the greatest length, 4,096 bytes, between these.
fn round_a_text(alloc: Global, before: &[u8], behind: &[u8]) -> Result<Vec<u8>, AllocError> {
    let mut bytes = Vec::from_slice(alloc, before)?;
    for _ in 0..512u32 {
        bytes.extend_from_slice(b"longtext")?;
    }
    bytes.extend_from_slice(behind)?;
    Ok(bytes)
}

#[test]
fn the_longest_text_is_written_and_read_back(rt: HostRuntime) -> Result<(), AllocError> {
    let lines = round_a_text(rt.alloc(), WRITE, READ)?;
    let answers = round_a_text(rt.alloc(), WRITTEN, WRITTEN_END)?;
    let mut out = Vec::new(rt.alloc());
    let came = talk_over(&rt, rt.alloc(), lines.as_slice(), &mut out)?;
    assert!(rt; out.as_slice() == answers.as_slice());
    let whole = Came {
        lines: 4,
        fault: None,
        entries: Some(3),
    };
    assert_eq!(rt; came, whole);
    Ok(())
}
