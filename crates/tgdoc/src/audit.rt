//! An audit over lines.

ghost use Rattle.std.specs.Prelude.{◌≡◌, ◌≢◌, ◌↔◌, ◌≤◌, ◌+◌, ℕ, List, [], length, false, true, IfOk, IfErr, IfSome, Some, None, Err};
ghost use Rattle.tg_wire.specs.Promise.Lines.{goal_of};
ghost use Rattle.tg_wire.specs.declared.line.TheConstants.{LONGEST_LINE};
ghost use Rattle.tg_talk.specs.Promise.Devices.{Sends, device_of, has_failed, owed, promised};
ghost use Rattle.tg_talk.specs.declared.fault.TalkFault.TheVariants.{OutOfMemory, Reading, Writing};
ghost use Rattle.tg_talk.specs.declared.line_buffer.TheConstants.{MOST_LINES};
ghost use Rattle.tg_talk.specs.Promise.Endings.{EndsOnce};
ghost use Rattle.tgdoc.specs.Promise.Ready.{AreReady, Reports};
ghost use Rattle.tg_talk.specs.Promise.Opening.{RefusesOpening};
ghost use Rattle.tgdoc.specs.Promise.Audits.{BytesAudited, Misreads, OpensGraph, SaysGoal, end_errors, verdict_errors};
ghost use Rattle.tg_talk.specs.Promise.Answering.{one_if};
ghost use Rattle.tgdoc.specs.Inner.Auditing.{Advances, EndsBytes, EndsEarlyBytes, EndsStepBytes, Judges, NoRefusal, RefusesBy, TakesSteps, TakesWanted, TellsVerdict, end_after, unread};

use crate::finish::{finish, none_taken};
use std::alloc::Global;
use std::io::{BufWriter, Read, Write};
use tg_audit::check;
use tg_graph::{Goal, Graph, OpenFault, Step, Verdict};
use tg_talk::{Finished, InputLines, Next, TalkFault, Watched, too_many_line};
use tg_wire::{
    WireFault, error_line, open_fault_line, read_config, read_goal, read_step, write_verdict,
};

/// Why there is no verdict.
#[derive(Clone, Copy)]
enum Ending {
    /// The reader failed.
    Failed,
    /// A line is too long.
    TooLong,
    /// A line comes after the millionth.
    TooMany,
    /// A line is refused, or memory ran out.
    Refused(WireFault),
    /// The configuration is refused.
    Unsound(OpenFault),
}

/// Reads a configuration line, a goal line and step lines, and answers the verdict on the steps, which are carried out
/// one after another from the graph of the configuration. Every line is read before a verdict is answered. A line that
/// is refused ends the audit with its `error` line. So do a line of more than 16,384 bytes, the line after the
/// millionth, and the end of the input where a configuration or a goal is wanted; that is read as an empty line, and
/// not counted. Each verdict but `shared` counts as an error. If there is no memory for the steps or for the verdict's
/// line, `out of memory` is answered in its place; if there is none for the buffer of 32,768 bytes, no line is read.
pub fn audit_lines<R: Read, W: Write + Drop>(
    alloc: Global,
    reader: &mut Watched<R>,
    writer: &mut Watched<BufWriter<W>>,
) -> Finished
    requires { AreReady reader.old writer.old }
    ensures report { Reports R.remaining result reader.old reader.new writer.new }
    ensures audited { IfSome (R.remaining (device_of reader.old))
        (BytesAudited result (promised W.contents writer.old) (promised W.contents writer.new) (has_failed writer.new)) }
{
    let Ok(mut input) = InputLines::new(alloc) else {
        return none_taken(TalkFault::OutOfMemory);
    };
    match judge(alloc, &mut input, reader) {
        Ok(verdict) => answer(alloc, writer, input.taken(), verdict),
        Err(ending) => end(writer, input.taken(), ending),
    }
}

/// Ends the audit without a verdict, after this many lines.
fn end<W: Write + Drop>(writer: &mut Watched<BufWriter<W>>, lines: u64, ending: Ending) -> Finished
    requires { has_failed writer.old ≡ false }
    ensures lines { result.lines ≡ lines }
    ensures reading { (ending ≡ Ending.Failed) ↔ (result.fault ≡ Some Reading) }
    ensures writing { (has_failed writer.new ≡ true) ↔ (result.fault ≡ Some Writing) }
    ensures memory { result.fault ≢ Some OutOfMemory }
    ensures errors { result.errors ≡ end_errors (end_after ending lines).fault }
    ensures fault { EndsOnce (end_after ending lines).fault (has_failed writer.new) result.fault }
    ensures paid { owed writer.old ≡ [] → has_failed writer.new ≡ false → owed writer.new ≡ [] }
    ensures sent { Sends (promised W.contents writer.old) (promised W.contents writer.new) (has_failed writer.new) (end_after ending lines).text }
{
    match ending {
        Ending::Failed => Finished {
            lines,
            errors: 0,
            fault: Some(TalkFault::Reading),
        },
        Ending::TooLong => finish(
            writer,
            lines,
            1,
            error_line(WireFault::TooLong),
            Some(TalkFault::TooLong),
        ),
        Ending::TooMany => finish(writer, lines, 1, too_many_line(), Some(TalkFault::TooMany)),
        Ending::Refused(fault) => finish(writer, lines, 1, error_line(fault), None),
        Ending::Unsound(fault) => finish(writer, lines, 1, open_fault_line(fault), None),
    }
}

/// Answers the verdict, after this many lines.
fn answer<W: Write + Drop>(
    alloc: Global,
    writer: &mut Watched<BufWriter<W>>,
    lines: u64,
    verdict: Verdict,
) -> Finished
    requires { has_failed writer.old ≡ false }
    ensures lines { result.lines ≡ lines }
    ensures fault { EndsOnce None (has_failed writer.new) result.fault }
    ensures reading { result.fault ≢ Some Reading }
    ensures writing { (has_failed writer.new ≡ true) ↔ (result.fault ≡ Some Writing) }
    ensures memory { result.fault ≢ Some OutOfMemory }
    ensures paid { has_failed writer.new ≡ false → owed writer.new ≡ [] }
    ensures answered { (text : List ℕ) × TellsVerdict verdict result.errors text
        × Sends (promised W.contents writer.old) (promised W.contents writer.new) (has_failed writer.new) text }
{
    match write_verdict(alloc, &verdict) {
        Ok(line) => finish(writer, lines, count(verdict), &line, None),
        Err(_) => finish(writer, lines, 1, error_line(WireFault::OutOfMemory), None),
    }
}

/// How many errors the verdict counts as.
fn count(verdict: Verdict) -> u64
    ensures { result ≡ verdict_errors verdict }
{
    if verdict == Verdict::Shared { 0 } else { 1 }
}

/// The verdict on the lines of the input: a configuration, a goal, and steps.
fn judge<R: Read>(
    alloc: Global,
    input: &mut InputLines,
    reader: &mut Watched<R>,
) -> Result<Verdict, Ending>
    requires none { input.old.taken ≡ 0 }
    requires reads { has_failed reader.old ≡ false }
    ensures failed { (has_failed reader.new ≡ true) ↔ (result ≡ Err Ending.Failed) }
    ensures most { input.new.taken ≤ MOST_LINES + 1 }
    ensures ok { IfOk result (λ verdict. IfSome (unread input.old (R.remaining (device_of reader.old))) (Judges verdict input.new.taken)) }
    ensures err { IfErr result (λ ending. IfSome (unread input.old (R.remaining (device_of reader.old))) (EndsEarlyBytes (end_after ending input.new.taken))) }
{
    take_wanted(input, reader)?;
    let graph = open_graph(alloc, input.line())?;
    take_wanted(input, reader)?;
    let goal = goal_in(alloc, input.line())?;
    let steps = take_steps(alloc, input, reader)?;
    match check(alloc, graph, &steps, goal) {
        Ok(verdict) => Ok(verdict),
        Err(_) => Err(Ending::Refused(WireFault::OutOfMemory)),
    }
}

/// Takes all remaining lines, as steps.
fn take_steps<R: Read>(
    alloc: Global,
    input: &mut InputLines,
    reader: &mut Watched<R>,
) -> Result<Vec<Step>, Ending>
    requires few { input.old.taken ≤ MOST_LINES }
    requires reads { has_failed reader.old ≡ false }
    ensures failed { (has_failed reader.new ≡ true) ↔ (result ≡ Err Ending.Failed) }
    ensures most { input.new.taken ≤ MOST_LINES + 1 }
    ensures ok { IfOk result (λ steps. IfSome (unread input.old (R.remaining (device_of reader.old))) (TakesSteps steps.items input.old.taken input.new.taken)) }
    ensures err { IfErr result (λ ending. IfSome (unread input.old (R.remaining (device_of reader.old))) (EndsStepBytes input.old.taken (end_after ending input.new.taken))) }
{
    let mut steps = Vec::new(alloc);
    loop {
        let more = take(input, reader)?;
        if !more {
            return Ok(steps);
        }
        match read_step(alloc, input.line()) {
            Err(fault) => return Err(Ending::Refused(fault)),
            Ok(step) => {
                let Ok(()) = steps.push(step) else {
                    return Err(Ending::Refused(WireFault::OutOfMemory));
                };
            }
        }
    }
}

/// The graph that a configuration line opens.
fn open_graph(alloc: Global, bytes: &[u8]) -> Result<Graph, Ending>
    ensures ok { IfOk result (λ graph. OpensGraph graph bytes.now) }
    ensures err { IfErr result (RefusesBy RefusesOpening bytes.now) }
    ensures failed { result ≢ Err Ending.Failed }
{
    match read_config(alloc, bytes) {
        Err(fault) => Err(Ending::Refused(fault)),
        Ok(config) => match Graph::build(alloc, &config) {
            Err(fault) => Err(Ending::Unsound(fault)),
            Ok(graph) => Ok(graph),
        },
    }
}

/// The goal that a line says.
fn goal_in(alloc: Global, bytes: &[u8]) -> Result<Goal, Ending>
    ensures ok { IfOk result (λ goal. SaysGoal goal bytes.now) }
    ensures err { IfErr result (RefusesBy (Misreads goal_of) bytes.now) }
    ensures failed { result ≢ Err Ending.Failed }
{
    match read_goal(alloc, bytes) {
        Err(fault) => Err(Ending::Refused(fault)),
        Ok(goal) => Ok(goal),
    }
}

/// Takes the next line. No line at all is read as an empty one, which is no JSON.
fn take_wanted<R: Read>(input: &mut InputLines, reader: &mut Watched<R>) -> Result<(), Ending>
    requires few { input.old.taken ≤ MOST_LINES }
    requires reads { has_failed reader.old ≡ false }
    ensures failed { (has_failed reader.new ≡ true) ↔ (result ≡ Err Ending.Failed) }
    ensures most { input.new.taken ≤ MOST_LINES + 1 }
    ensures ok { IfOk result (λ _. TakesWanted input.old.taken input.new.taken input.new.line (unread input.old (R.remaining (device_of reader.old))) (unread input.new (R.remaining (device_of reader.new)))) }
    ensures err { IfErr result (λ ending. IfSome (unread input.old (R.remaining (device_of reader.old))) (EndsBytes NoRefusal true input.old.taken (end_after ending input.new.taken))) }
{
    let more = take(input, reader)?;
    if more {
        Ok(())
    } else {
        Err(Ending::Refused(WireFault::NotJson))
    }
}

/// Takes the next line; false if nothing is left.
fn take<R: Read>(input: &mut InputLines, reader: &mut Watched<R>) -> Result<bool, Ending>
    requires few { input.old.taken ≤ MOST_LINES }
    requires reads { has_failed reader.old ≡ false }
    ensures failed { (has_failed reader.new ≡ true) ↔ (result ≡ Err Ending.Failed) }
    ensures most { input.new.taken ≤ MOST_LINES + 1 }
    ensures few { IfOk result (λ more. (input.new.taken ≡ input.old.taken + one_if more) × (input.new.taken ≤ MOST_LINES)) }
    ensures short { length input.new.line ≤ LONGEST_LINE }
    ensures ok { IfOk result (λ more. IfSome (unread input.old (R.remaining (device_of reader.old))) (Advances more input.new.line (unread input.new (R.remaining (device_of reader.new))))) }
    ensures err { IfErr result (λ ending. IfSome (unread input.old (R.remaining (device_of reader.old))) (EndsBytes NoRefusal false input.old.taken (end_after ending input.new.taken))) }
{
    match input.next(reader) {
        Next::Line => Ok(true),
        Next::End => Ok(false),
        Next::TooLong => Err(Ending::TooLong),
        Next::TooMany => Err(Ending::TooMany),
        Next::Failed => Err(Ending::Failed),
    }
}
