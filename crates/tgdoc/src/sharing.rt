//! Whether rights can ever be shared in the graph to which a run led.
ghost use Rattle.std.specs.Prelude.{◌≡◌, ◌≢◌, ◌↔◌, ◌≤◌, ◌++◌, ◌∷◌, [], Ok, OnOk, IfOk, Some, true, false};
ghost use Rattle.tg_graph.specs.Promise.Rewriting.{rewriting, rewriting_steps};
ghost use Rattle.tg_talk.specs.Promise.Devices.{has_failed, owed, promised};
ghost use Rattle.tg_talk.specs.declared.fault.TalkFault.TheVariants.{OutOfMemory, Reading, Writing};
ghost use Rattle.tg_vault.specs.Promise.Contents.{graph_now};
ghost use Rattle.tg_wire.specs.Promise.Lines.{goal_of, step_of};
ghost use Rattle.tg_wire.specs.Promise.StepLines.{goal_line, goal_text, step_line, step_text};
ghost use Rattle.tgdoc.specs.Inner.Asked.{AreRewritten, EndsSharing, FoundSteps};
ghost use Rattle.tgdoc.specs.Promise.Audits.{OpensGraph};
ghost use Rattle.tgdoc.specs.Inner.Drawing.{WrittenLast};
ghost use Rattle.tgdoc.specs.Promise.Sharing.{Answered, AnsweredAtEnd, AnsweredPair, AreRead, Shows, ShowsSharing, ShowsSteps, steps_text};

use crate::finish::finish;
use crate::lookup::answer_lookup;
use crate::question::{Pair, Question};
use crate::unshared::{Told, unshared_told, vertex_in};
use std::alloc::{AllocError, Global};
use std::io::{BufWriter, Write};
use tg_audit::{derivation, graph_of_history, histories_derive};
use tg_graph::{Goal, Step, derivations_carry_over, openings_are_as_listed, rewriting_step};
use tg_sharing::{Answer, can_share};
use tg_talk::{Finished, Watched};
use tg_vault::Vault;
use tg_wire::{
    LineRoom, Unshared, WireFault, error_line, goal_reads_back, step_reads_back, write_goal_in,
    write_step_in,
};

/// Answers the question after the last line, if neither a line ended the run before nor the reader or the writer
/// failed. `first` is the line that opened the vault.
pub(crate) fn end_sharing<W: Write + Drop>(
    alloc: Global,
    vault: &Vault,
    first: &Result<Vec<u8>, AllocError>,
    question: &Question,
    ended: Finished,
    writer: &mut Watched<BufWriter<W>>,
) -> Finished
    requires opens { IfOk first.now (λ line. OpensGraph vault.now.opening line.items) }
    requires paid { has_failed writer.old ≡ false → owed writer.old ≡ [] }
    requires writing { (has_failed writer.old ≡ true) ↔ (ended.fault ≡ Some Writing) }
    requires few { ended.errors ≤ 1000001 }
    ensures paid { has_failed writer.new ≡ false → owed writer.new ≡ [] }
    ensures reading { (result.fault ≡ Some Reading) ↔ (ended.fault ≡ Some Reading) }
    ensures writing { (has_failed writer.new ≡ true) ↔ (result.fault ≡ Some Writing) }
    ensures memory { result.fault ≡ Some OutOfMemory → ended.fault ≡ Some OutOfMemory }
    ensures lines { result.lines ≡ ended.lines }
    ensures ends { EndsSharing vault.now question.now ended result (promised W.contents writer.old) (has_failed writer.old) (promised W.contents writer.new) (has_failed writer.new) }
{
    let over = ended.fault.is_some();
    if over {
        return ended;
    }
    answer_last(alloc, vault, first, question, ended, writer)
}

/// Answers the question after the last line, once the lines have ended in this way.
fn answer_last<W: Write + Drop>(
    alloc: Global,
    vault: &Vault,
    first: &Result<Vec<u8>, AllocError>,
    question: &Question,
    ended: Finished,
    writer: &mut Watched<BufWriter<W>>,
) -> Finished
    requires opens { IfOk first.now (λ line. OpensGraph vault.now.opening line.items) }
    requires writes { has_failed writer.old ≡ false }
    requires other { ended.fault ≢ Some Writing }
    requires few { ended.errors ≤ 1000001 }
    ensures paid { has_failed writer.new ≡ false → owed writer.new ≡ [] }
    ensures writing { (has_failed writer.new ≡ true) ↔ (result.fault ≡ Some Writing) }
    ensures lines { result.lines ≡ ended.lines }
    ensures written { WrittenLast (AnsweredAtEnd question.now vault.now ended) ended result (promised W.contents writer.old) (promised W.contents writer.new) (has_failed writer.new) }
{
    match answer(alloc, vault, first, question) {
        Err(_) => {
            let text = error_line(WireFault::OutOfMemory);
            finish(writer, ended.lines, ended.errors + 1, text, ended.fault)
        }
        Ok(told) => {
            let text = told.text.as_slice();
            let errors = ended.errors + u64::from(told.is_error);
            finish(writer, ended.lines, errors, text, ended.fault)
        }
    }
}

/// The answer to the question, about the graph to which the vault's history led.
fn answer(
    alloc: Global,
    vault: &Vault,
    first: &Result<Vec<u8>, AllocError>,
    question: &Question,
) -> Result<Told, AllocError>
    requires opens { IfOk first.now (λ line. OpensGraph vault.now.opening line.items) }
    ensures { IfOk result (λ told. Answered vault.now question.now told.text.items told.is_error) }
{
    match question {
        Question::Pair(pair) => answer_pair(alloc, vault, first, pair),
        Question::Lookup(lookup) => answer_lookup(alloc, vault, lookup),
    }
}

/// Whether one vertex can ever come to have rights over another, in the graph to which the vault's history led.
fn answer_pair(
    alloc: Global,
    vault: &Vault,
    first: &Result<Vec<u8>, AllocError>,
    pair: &Pair,
) -> Result<Told, AllocError>
    requires opens { IfOk first.now (λ line. OpensGraph vault.now.opening line.items) }
    ensures { IfOk result (λ told. AnsweredPair vault.now pair.now told.text.items told.is_error) }
{
    let graph = graph_of_history(alloc, vault)?;
    let from = match vertex_in(&graph, &pair.from) {
        Ok(from) => from,
        Err(unshared) => return unshared_told(alloc, unshared),
    };
    let to = match vertex_in(&graph, &pair.to) {
        Ok(to) => to,
        Err(unshared) => return unshared_told(alloc, unshared),
    };
    let goal = Goal {
        from,
        to,
        rights: pair.rights,
    };
    match can_share(alloc, &graph, goal)? {
        Answer::Never => unshared_told(alloc, Unshared::Never),
        Answer::Unknown(_) => unshared_told(alloc, Unshared::NoSerial),
        Answer::By(steps) => {
            let text = shown(alloc, vault, first, pair.steps, &goal, &steps)?;
            Ok(Told {
                text,
                is_error: false,
            })
        }
    }
}

/// The text for a yes: the whole derivation, or the steps alone.
fn shown(
    alloc: Global,
    vault: &Vault,
    first: &Result<Vec<u8>, AllocError>,
    alone: bool,
    goal: &Goal,
    steps: &[Step],
) -> Result<Vec<u8>, AllocError>
    requires opens { IfOk first.now (λ line. OpensGraph vault.now.opening line.items) }
    requires found { FoundSteps (graph_now vault.now) goal.now steps.now }
    ensures { IfOk result (λ text. Shows alone vault.now goal.now text.items) }
{
    let found = rewritten(alloc, steps)?;
    if alone {
        steps_alone(alloc, vault, goal, steps, &found)
    } else {
        match first {
            Ok(line) => derivation_text(alloc, vault, line, goal, steps, &found),
            Err(error) => Err(*error),
        }
    }
}

/// The steps by the four rules of the take-grant model, as an audit reads them.
fn rewritten(alloc: Global, steps: &[Step]) -> Result<Vec<Step>, AllocError>
    ensures { IfOk result (λ found. found.items ≡ rewriting_steps steps.now) }
{
    steps
        .iter()
        .filter_map(|step| rewriting_step(step.actor, &step.command))
        .collect(alloc)
}

/// The lines of the steps.
fn steps_alone(
    alloc: Global,
    vault: &Vault,
    goal: &Goal,
    steps: &[Step],
    found: &[Step],
) -> Result<Vec<u8>, AllocError>
    requires found { FoundSteps (graph_now vault.now) goal.now steps.now }
    requires rewritten { found.now ≡ rewriting_steps steps.now }
    ensures { IfOk result (λ text. ShowsSteps (graph_now vault.now) goal.now text.items) }
{
    derivations_carry_over();
    let mut text = Vec::new(alloc);
    push_steps(alloc, &mut text, found)?;
    Ok(text)
}

/// The line that opened the vault, that of the goal, and those of the steps of the history and of the steps that were
/// found.
fn derivation_text(
    alloc: Global,
    vault: &Vault,
    first: &[u8],
    goal: &Goal,
    steps: &[Step],
    found: &[Step],
) -> Result<Vec<u8>, AllocError>
    requires opens { OpensGraph vault.now.opening first.now }
    requires found { FoundSteps (graph_now vault.now) goal.now steps.now }
    requires rewritten { found.now ≡ rewriting_steps steps.now }
    ensures { IfOk result (λ text. ShowsSharing vault.now.opening goal.now text.items) }
{
    derivations_carry_over();
    histories_derive();
    openings_are_as_listed();
    goal_reads_back(goal);
    vault.soundness();
    let before = derivation(alloc, vault)?;
    let mut text = head(alloc, first, goal)?;
    push_steps(alloc, &mut text, &before)?;
    push_steps(alloc, &mut text, found)?;
    Ok(text)
}

/// The line that opened a vault, and that of the goal.
fn head(alloc: Global, first: &[u8], goal: &Goal) -> Result<Vec<u8>, AllocError>
    ensures { IfOk result (λ text. text.items ≡ first.now ++ 10 ∷ goal_line goal.now) }
{
    let mut text = Vec::new(alloc);
    text.extend_from_slice(first)?;
    text.push(b'\n')?;
    let line = goal_text(alloc, goal)?;
    text.extend_from_slice(&line)?;
    Ok(text)
}

fn goal_text(alloc: Global, goal: &Goal) -> Result<Vec<u8>, AllocError>
    ensures { IfOk result (λ line. line.items ≡ goal_line goal.now) }
{
    let mut room = LineRoom::new(alloc);
    write_goal_in(&mut room, goal)?;
    room.into_line()
}

/// Adds the lines of the steps, each by one of the four rules.
fn push_steps(alloc: Global, text: &mut Vec<u8>, steps: &[Step]) -> Result<(), AllocError>
    requires rewritten { AreRewritten steps.now }
    ensures lines { OnOk result (text.new.items ≡ text.old.items ++ steps_text steps.now) }
    ensures read { OnOk result (AreRead steps.now) }
{
    let mut room = LineRoom::new(alloc);
    for step in steps {
        push_step(&mut room, text, step)?;
    }
    Ok(())
}

/// Adds the line of a step by one of the four rules.
fn push_step(room: &mut LineRoom, text: &mut Vec<u8>, step: &Step) -> Result<(), AllocError>
    requires rewritten { rewriting step.now.command ≡ Some step.now.command }
    ensures line { OnOk result (text.new.items ≡ text.old.items ++ step_line step.now) }
    ensures read { step_of (step_text step.now) ≡ Ok step.now }
{
    step_reads_back(step);
    write_step_in(room, step)?;
    text.extend_from_slice(room.line())?;
    Ok(())
}
