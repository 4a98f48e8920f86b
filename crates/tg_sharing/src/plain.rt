//! Plain derivations, which make no vertex. Of the steps that a search finds, those that are allowed are carried out
//! one after another; they are the answer if the goal is then met.
ghost use Rattle.std.specs.Prelude.{IfOk, IfSome, OnOk};
ghost use Rattle.tg_sharing.specs.Promise.Answers.{AreStepsTo};
ghost use Rattle.tg_sharing.specs.Inner.Growing.{Continues};

use crate::builder::Derivation;
use crate::gains::{Passing, Way, passings};
use crate::marks::{Marks, is_actor};
use std::alloc::{AllocError, Global};
use tg_graph::{Goal, Graph, Step};
use tg_rights::Rights;

impl Derivation {
    /// The actor takes rights over a vertex from another, if that is allowed.
    fn take_if_allowed(
        &mut self,
        actor: u64,
        rights: Rights,
        over: u64,
        from: u64,
    ) -> Result<(), AllocError>
        ensures { OnOk result (Continues self.old self.new) }
    {
        if !rights.is_empty()
            && is_actor(&self.graph, actor)
            && self.graph.rights(actor, from).contains(Rights::take())
            && self.graph.rights(from, over).contains(rights)
        {
            self.gain(actor, rights, over, from)?;
        }
        Ok(())
    }

    /// The actor grants its rights over a vertex to another, if that is allowed.
    fn grant_if_allowed(
        &mut self,
        actor: u64,
        rights: Rights,
        over: u64,
        to: u64,
    ) -> Result<(), AllocError>
        ensures { OnOk result (Continues self.old self.new) }
    {
        if !rights.is_empty()
            && to != over
            && is_actor(&self.graph, actor)
            && self.graph.rights(actor, to).contains(Rights::grant())
            && self.graph.rights(actor, over).contains(rights)
        {
            self.give(actor, rights, over, to)?;
        }
        Ok(())
    }

    /// Carries out a step, if it is allowed.
    fn carry_out_if_allowed(&mut self, step: Passing) -> Result<(), AllocError>
        ensures { OnOk result (Continues self.old self.new) }
    {
        match step.way {
            Way::Take => self.take_if_allowed(step.actor, step.rights, step.over, step.other),
            Way::Grant => self.grant_if_allowed(step.actor, step.rights, step.over, step.other),
        }
    }

    /// Carries out the steps that are allowed.
    fn carry_out_all(&mut self, steps: &[Passing]) -> Result<(), AllocError>
        ensures { OnOk result (Continues self.old self.new) }
    {
        for step in steps {
            self.carry_out_if_allowed(*step)?;
        }
        Ok(())
    }
}

/// A plain derivation of the goal, if one is found.
pub(crate) fn plain_steps(
    alloc: Global,
    graph: &Graph,
    marks: &Marks,
    goal: &Goal,
) -> Result<Option<Vec<Step>>, AllocError>
    ensures { IfOk result (λ found. IfSome found (λ steps. AreStepsTo graph.now goal.now steps.items)) }
{
    let Some(found) = passings(alloc, graph, marks, goal)? else {
        return Ok(None);
    };
    let mut derivation = Derivation::new(alloc, graph.copy()?);
    derivation.carry_out_all(found.as_slice())?;
    let reached = derivation.graph.rights(goal.from, goal.to);
    if reached.contains(goal.rights) {
        return Ok(Some(derivation.steps));
    }
    Ok(None)
}
