//! Whether rights can be shared, and by which steps.
ghost use Rattle.std.specs.Prelude.{IsTrue, ◌↔◌, ◌≡◌, ◌≢◌, ℕ, true, false, IfOk, OnOk, MatchOption};
ghost use Rattle.tg_rights.specs.Promise.Letters.{Right, is_none};
ghost use Rattle.tg_graph.specs.Promise.Protection.{IsVertex};
ghost use Rattle.tg_sharing.specs.Promise.Answers.{IsAnswer};
ghost use Rattle.tg_sharing.specs.Promise.Fetching.{alone};
ghost use Rattle.tg_sharing.specs.Inner.Fetching.{AreFetched, IsFetched, IsHolder, IsLacking};
ghost use Rattle.tg_sharing.specs.Inner.Growing.{Continues, KeepsAll};
ghost use Rattle.tg_sharing.specs.Inner.Marking.{AreMarks, is_bridged, is_spanned};
ghost use Rattle.tg_sharing.specs.Promise.Spans.{AreClosed};

use crate::builder::Derivation;
use crate::marks::Marks;
use crate::plain::plain_steps;
use crate::withheld_for_ever;
use std::alloc::{AllocError, Global};
use tg_graph::{Goal, Graph, Step, commands_keep_graphs};
use tg_rights::{Command, Rights};

/// Whether a goal's rights can be shared.
#[derive(Debug, Drop)]
pub enum Answer {
    /// Never, whatever the subjects do.
    Never,
    /// By these steps.
    By(Vec<Step>),
    /// Not known: no serial is left after these steps, the first of a derivation that makes more vertices. Others may
    /// need fewer; in a graph of up to 128 vertices none does without (see `can_share`).
    Unknown(Vec<Step>),
}

/// Whether the vertex has the right, and is the goal's own vertex or spanned.
fn is_holder(graph: &Graph, marks: &Marks, vertex: u64, right: Rights, to: u64) -> bool
    ensures { IsTrue result ↔ IsHolder graph.now marks.now right to vertex }
{
    graph.rights(vertex, to).contains(right) && (vertex == marks.from || marks.is_spanned(vertex))
}

/// One that has the right.
fn holder_of(graph: &Graph, marks: &Marks, right: Rights, to: u64) -> Option<u64>
    requires some { is_none right ≡ false }
    ensures { MatchOption result ((u : ℕ) → IsHolder graph.now marks.now right to u → ⊥) (IsHolder graph.now marks.now right to) }
{
    let labels = graph.labels();
    for (ends, _) in labels {
        if ends.1 == to && is_holder(graph, marks, ends.0, right, to) {
            return Some(ends.0);
        }
    }
    None
}

/// Whether the goal has this right, and all who could pass it on lack it.
fn is_withheld(graph: &Graph, marks: &Marks, right: Rights, goal: &Goal) -> bool
    requires some { is_none right ≡ false }
    ensures { IsTrue result → IsLacking graph.now marks.now right goal.now }
{
    goal.rights.contains(right) && holder_of(graph, marks, right, goal.to).is_none()
}

/// Whether one of the goal's rights is withheld.
fn is_never(graph: &Graph, marks: &Marks, goal: &Goal) -> bool
    ensures { IsTrue result → (r : Right) × IsLacking graph.now marks.now (alone r) goal.now }
{
    is_withheld(graph, marks, Rights::read(), goal)
        || is_withheld(graph, marks, Rights::write(), goal)
        || is_withheld(graph, marks, Rights::take(), goal)
        || is_withheld(graph, marks, Rights::grant(), goal)
}

/// What came of one right of a goal.
enum Found {
    /// All who could pass it on lack it.
    Nobody,
    /// No serial is left.
    NoSerial,
    /// The goal's own vertex has it, if it is one of the goal's.
    Here,
}

impl Derivation {
    /// The goal's own vertex comes to have this right, if it is one of the goal's.
    fn share(
        &mut self,
        alloc: Global,
        graph: &Graph,
        marks: &Marks,
        right: Rights,
        goal: &Goal,
    ) -> Result<Found, AllocError>
        requires keeps { KeepsAll graph.now self.old.graph }
        requires marks { AreMarks graph.now marks.now }
        requires own { marks.now.from ≡ goal.now.from }
        requires some { is_none right ≡ false }
        requires apart { goal.now.from ≢ goal.now.to }
        ensures continues { OnOk result (Continues self.old self.new) }
        ensures found { IfOk result (IsFetched graph.now self.new.graph marks.now right goal.now) }
    {
        if !goal.rights.contains(right) {
            return Ok(Found::Here);
        }
        let Some(source) = holder_of(graph, marks, right, goal.to) else {
            return Ok(Found::Nobody);
        };
        if !marks.is_spanned(source) {
            return Ok(Found::Here);
        }
        let Some(_) = self.derive(alloc, graph, marks, source, right, goal)? else {
            return Ok(Found::NoSerial);
        };
        Ok(Found::Here)
    }

    /// The same for each of the goal's rights, one after another.
    fn share_each(
        &mut self,
        alloc: Global,
        graph: &Graph,
        marks: &Marks,
        goal: &Goal,
    ) -> Result<Found, AllocError>
        requires keeps { KeepsAll graph.now self.old.graph }
        requires marks { AreMarks graph.now marks.now }
        requires own { marks.now.from ≡ goal.now.from }
        requires apart { goal.now.from ≢ goal.now.to }
        ensures continues { OnOk result (Continues self.old self.new) }
        ensures found { IfOk result (AreFetched graph.now self.new.graph marks.now goal.now) }
    {
        match self.share(alloc, graph, marks, Rights::read(), goal)? {
            Found::Nobody => return Ok(Found::Nobody),
            Found::NoSerial => return Ok(Found::NoSerial),
            Found::Here => {}
        }
        match self.share(alloc, graph, marks, Rights::write(), goal)? {
            Found::Nobody => return Ok(Found::Nobody),
            Found::NoSerial => return Ok(Found::NoSerial),
            Found::Here => {}
        }
        match self.share(alloc, graph, marks, Rights::take(), goal)? {
            Found::Nobody => return Ok(Found::Nobody),
            Found::NoSerial => return Ok(Found::NoSerial),
            Found::Here => {}
        }
        match self.share(alloc, graph, marks, Rights::grant(), goal)? {
            Found::Nobody => return Ok(Found::Nobody),
            Found::NoSerial => return Ok(Found::NoSerial),
            Found::Here => {}
        }
        Ok(Found::Here)
    }

    /// The same for all of the goal's rights: at once, if somebody has them all.
    fn share_all(
        &mut self,
        alloc: Global,
        graph: &Graph,
        marks: &Marks,
        goal: &Goal,
    ) -> Result<Found, AllocError>
        requires keeps { KeepsAll graph.now self.old.graph }
        requires marks { AreMarks graph.now marks.now }
        requires own { marks.now.from ≡ goal.now.from }
        requires some { is_none goal.now.rights ≡ false }
        requires apart { goal.now.from ≢ goal.now.to }
        ensures continues { OnOk result (Continues self.old self.new) }
        ensures found { IfOk result (AreFetched graph.now self.new.graph marks.now goal.now) }
    {
        match self.share(alloc, graph, marks, goal.rights, goal)? {
            Found::Nobody => self.share_each(alloc, graph, marks, goal),
            Found::NoSerial => Ok(Found::NoSerial),
            Found::Here => Ok(Found::Here),
        }
    }
}

/// The answer by the marks, if they do not say that it is never. Its steps may make vertices where others do without.
fn derived(alloc: Global, graph: &Graph, marks: &Marks, goal: &Goal) -> Result<Answer, AllocError>
    requires from { IsVertex graph.now goal.now.from }
    requires to { IsVertex graph.now goal.now.to }
    requires some { is_none goal.now.rights ≡ false }
    requires apart { goal.now.from ≢ goal.now.to }
    requires own { marks.now.from ≡ goal.now.from }
    requires marks { AreMarks graph.now marks.now }
    requires closed { AreClosed graph.now goal.now.from (is_spanned marks.now) (is_bridged marks.now) }
    ensures { IfOk result (IsAnswer graph.now goal.now) }
{
    graph.soundness();
    withheld_for_ever();
    let mut derivation = Derivation::new(alloc, graph.copy()?);
    match derivation.share_all(alloc, graph, marks, goal)? {
        Found::Nobody => Ok(Answer::Never),
        Found::NoSerial => Ok(Answer::Unknown(derivation.steps)),
        Found::Here => Ok(Answer::By(derivation.steps)),
    }
}

/// Whether the step makes a vertex.
fn makes_vertex(step: &Step) -> bool {
    matches!(step.command, Command::Create { kind: _, rights: _ })
}

/// Whether a plain derivation may be found where this is the answer: it makes vertices, which counts if `for_steps`
/// says so, or is not known.
fn is_open(answer: &Answer, for_steps: bool) -> bool {
    match answer {
        Answer::Never => false,
        Answer::By(steps) => for_steps && steps.iter().any(makes_vertex),
        Answer::Unknown(_) => true,
    }
}

/// A plain derivation in place of the answer, if one is found.
fn plainly(
    alloc: Global,
    graph: &Graph,
    marks: &Marks,
    goal: &Goal,
    answer: Answer,
) -> Result<Answer, AllocError>
    requires { IsAnswer graph.now goal.now answer }
    ensures { IfOk result (IsAnswer graph.now goal.now) }
{
    match plain_steps(alloc, graph, marks, goal)? {
        Some(steps) => Ok(Answer::By(steps)),
        None => Ok(answer),
    }
}

/// As `can_share`; if only the answer counts, steps may make vertices where others would do without.
pub(crate) fn answered(
    alloc: Global,
    graph: &Graph,
    goal: Goal,
    for_steps: bool,
) -> Result<Answer, AllocError>
    requires from { IsVertex graph.now goal.from }
    requires to { IsVertex graph.now goal.to }
    ensures { IfOk result (IsAnswer graph.now goal) }
{
    graph.soundness();
    commands_keep_graphs();
    withheld_for_ever();
    if goal.rights.is_empty() {
        return Ok(Answer::By(Vec::new(alloc)));
    }
    if goal.from == goal.to {
        return Ok(Answer::Never);
    }
    let marks = Marks::explore(alloc, graph, goal.from)?;
    if is_never(graph, &marks, &goal) {
        return Ok(Answer::Never);
    }
    let answer = derived(alloc, graph, &marks, &goal)?;
    if is_open(&answer, for_steps) {
        return plainly(alloc, graph, &marks, &goal, answer);
    }
    Ok(answer)
}

/// Whether the goal's rights can ever be shared, whatever the subjects do (Bishop's can.share, for a set of rights):
/// `Never`, or `By` steps that the rules allow one after another and that meet the goal. `Unknown` only where serials
/// run out, of which there are nearly 2^64. `AllocError` if there is no memory for the answer.
///
/// If at most 128 vertices are spanned, as in each graph of up to 128, no step makes a vertex where some derivation
/// does without; tests say so, no clause does. If more are spanned, a derivation without new vertices is looked for
/// among 128 of them.
pub fn can_share(alloc: Global, graph: &Graph, goal: Goal) -> Result<Answer, AllocError>
    requires from { IsVertex graph.now goal.from }
    requires to { IsVertex graph.now goal.to }
    ensures { IfOk result (IsAnswer graph.now goal) }
{
    answered(alloc, graph, goal, true)
}
