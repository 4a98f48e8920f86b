//! All that a vertex could ever come to have, and which vertices could ever come to have some rights.
ghost use Rattle.std.specs.Prelude.{◌≡◌, ◌<◌, ◌⊎◌, ℕ, false, IfOk, OnOk, IsTrue, MatchOption, vec_len};
ghost use Rattle.tg_graph.specs.Promise.Protection.{IsEdge, IsVertex, label as rights_over};
ghost use Rattle.tg_graph.specs.Promise.Rules.{last_serial};
ghost use Rattle.tg_sharing.specs.Inner.Growing.{Continues, KeepsAll};
ghost use Rattle.tg_sharing.specs.Inner.Marking.{AreMarks};
ghost use Rattle.tg_sharing.specs.Promise.Prospects.{AreCould, AreLabelsOf, IsCould, IsProspect, IsTooMuch};
ghost use Rattle.tg_sharing.specs.Inner.Prospects.{IsGathered};

use crate::builder::Derivation;
use crate::marks::Marks;
use crate::sharing::{Answer, answered};
use crate::withheld_for_ever;
use std::alloc::{AllocError, Global};
use tg_graph::{Goal, Graph, Step};
use tg_rights::Rights;

/// All that a vertex could ever come to have.
#[derive(Debug, Drop)]
pub struct Prospect {
    /// Steps after which the vertex has it.
    pub steps: Vec<Step>,
    /// Over which vertices of the graph it then has rights, and which, by rising serial.
    pub labels: Vec<(u64, Rights)>,
}

impl Derivation {
    /// The goal's own vertex comes to have the rights of one edge, if it ever can by this edge. False if that is not
    /// known.
    fn gather(
        &mut self,
        alloc: Global,
        graph: &Graph,
        marks: &Marks,
        source: u64,
        over: u64,
        label: Rights,
    ) -> Result<bool, AllocError>
        requires keeps { KeepsAll graph.now self.old.graph }
        requires marks { AreMarks graph.now marks.now }
        requires label { label ≡ rights_over graph.now source over }
        ensures continues { OnOk result (Continues self.old self.new) }
        ensures gathered { IfOk result (λ known. IsTrue known → IsGathered graph.now self.new.graph marks.now source over) }
        ensures ended { IfOk result (λ known. known ≡ false → last_serial < self.new.graph.next) }
    {
        if over == marks.from || !marks.is_spanned(source) {
            return Ok(true);
        }
        let missing = label.minus(self.graph.rights(marks.from, over));
        if missing.is_empty() {
            return Ok(true);
        }
        let goal = Goal {
            from: marks.from,
            to: over,
            rights: missing,
        };
        let Some(_) = self.derive(alloc, graph, marks, source, missing, &goal)? else {
            return Ok(false);
        };
        Ok(true)
    }

    /// The same for all edges, as long as there are no more steps than `most`.
    fn gather_all(
        &mut self,
        alloc: Global,
        graph: &Graph,
        marks: &Marks,
        most: usize,
    ) -> Result<bool, AllocError>
        requires keeps { KeepsAll graph.now self.old.graph }
        requires marks { AreMarks graph.now marks.now }
        ensures continues { OnOk result (Continues self.old self.new) }
        ensures gathered { IfOk result (λ known. IsTrue known → (u y : ℕ) → IsEdge graph.now u y → IsGathered graph.now self.new.graph marks.now u y) }
        ensures ended { IfOk result (λ known. known ≡ false → (last_serial < self.new.graph.next) ⊎ (most < vec_len self.new.steps)) }
    {
        let labels = graph.labels();
        for (ends, label) in labels {
            if self.steps.len() > most {
                return Ok(false);
            }
            if !self.gather(alloc, graph, marks, ends.0, ends.1, *label)? {
                return Ok(false);
            }
        }
        Ok(true)
    }
}

/// Over which vertices of the first graph one has rights in the second, and which.
fn labels_of(
    alloc: Global,
    graph: &Graph,
    after: &Graph,
    from: u64,
) -> Result<Vec<(u64, Rights)>, AllocError>
    ensures { IfOk result (λ found. AreLabelsOf graph.now after.now from found.items) }
{
    let mut found = Vec::new(alloc);
    let labels = after.labels();
    for (ends, label) in labels {
        if ends.0 == from && graph.kind(ends.1).is_some() && !label.is_empty() {
            found.push((ends.1, *label))?;
        }
    }
    Ok(found)
}

/// All that the vertex could ever come to have, whatever the subjects do: with steps after which it has all of that at
/// once; no derivation gives it a right over a vertex of the graph that it then lacks. `None` if that is not known,
/// since it takes more steps than `most`, or more new vertices than there are serials. Each edge may take as many steps
/// as there are vertices on the way to it. `AllocError` if there is no memory for the answer.
pub fn what_could(
    alloc: Global,
    graph: &Graph,
    from: u64,
    most: usize,
) -> Result<Option<Prospect>, AllocError>
    requires { IsVertex graph.now from }
    ensures { IfOk result (λ found. MatchOption found (IsTooMuch graph.now most) (IsProspect graph.now from)) }
{
    graph.soundness();
    withheld_for_ever();
    let marks = Marks::explore(alloc, graph, from)?;
    let mut derivation = Derivation::new(alloc, graph.copy()?);
    if !derivation.gather_all(alloc, graph, &marks, most)? {
        return Ok(None);
    }
    let labels = labels_of(alloc, graph, &derivation.graph, from)?;
    Ok(Some(Prospect {
        steps: derivation.steps,
        labels,
    }))
}

/// Whether rights can ever be shared, as `Answer` says it with steps.
#[derive(Clone, Copy, PartialEq, Eq, Debug)]
pub enum Could {
    /// Whatever the subjects do, never.
    Never,
    /// Some steps lead there.
    Ever,
    /// Not known, since serials run out.
    Unknown,
}

/// Whether the goal's rights can ever be shared.
fn whether(alloc: Global, graph: &Graph, goal: Goal) -> Result<Could, AllocError>
    requires from { IsVertex graph.now goal.from }
    requires to { IsVertex graph.now goal.to }
    ensures { IfOk result (IsCould graph.now goal) }
{
    match answered(alloc, graph, goal, false)? {
        Answer::Never => Ok(Could::Never),
        Answer::By(_) => Ok(Could::Ever),
        Answer::Unknown(_) => Ok(Could::Unknown),
    }
}

/// Which of the vertices asked for could ever come to have the rights over `to`. Serials that no vertex has are left
/// out. Each vertex takes as long as `can_share`. `AllocError` if there is no memory for the answer.
pub fn who_could(
    alloc: Global,
    graph: &Graph,
    rights: Rights,
    to: u64,
    asked: &[u64],
) -> Result<Vec<(u64, Could)>, AllocError>
    requires { IsVertex graph.now to }
    ensures { IfOk result (λ found. AreCould graph.now rights to asked.now found.items) }
{
    let mut found = Vec::new(alloc);
    for vertex in asked {
        if graph.kind(*vertex).is_some() {
            let goal = Goal {
                from: *vertex,
                to,
                rights,
            };
            let answer = whether(alloc, graph, goal)?;
            found.push((*vertex, answer))?;
        }
    }
    Ok(found)
}
