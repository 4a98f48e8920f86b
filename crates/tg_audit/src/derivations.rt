//! Derivations, carried out step by step.
ghost use Rattle.std.specs.Prelude.{◌≡◌, IfOk, MatchOption, []};
ghost use Rattle.tg_graph.specs.Promise.Derivations.{CanShare, CarriesOut};
ghost use Rattle.tg_graph.specs.declared.derivation.Verdict.TheVariants as verdict;
ghost use Rattle.tg_audit.specs.Promise.Verdicts.{IsVerdict};
ghost use Rattle.tg_audit.specs.Inner.Stops.{StopsBy, verdict_at};

use std::alloc::{AllocError, Global};
use tg_graph::{Goal, Graph, Step, Verdict};
use tg_rights::{Cause, Kind, Reply, Rule};

/// Why a step cannot be carried out.
#[derive(Clone, Copy)]
enum Stop {
    NoSubject,
    Denied(Rule, Cause),
    NoSerial,
}

/// Carries out the step, or says why that cannot be done: its actor is checked first, then the rules, then whether a
/// serial is left.
fn carry_out(alloc: Global, graph: &mut Graph, step: &Step) -> Result<Option<Stop>, AllocError>
    ensures { IfOk result (λ stop. MatchOption stop (CarriesOut graph.old step.now graph.new) (StopsBy graph.old step.now)) }
{
    if graph.kind(step.actor) != Some(Kind::Subject) {
        return Ok(Some(Stop::NoSubject));
    }
    let command = step.command.copy(alloc)?;
    match graph.apply(step.actor, command)? {
        Reply::Denied(rule, cause) => Ok(Some(Stop::Denied(rule, cause))),
        Reply::Full(_) => Ok(Some(Stop::NoSerial)),
        Reply::Done => Ok(None),
        Reply::Created(_) => Ok(None),
        Reply::Text(_) => Ok(None),
        Reply::Edges(_) => Ok(None),
    }
}

/// The verdict that the step of this number cannot be carried out.
fn verdict_at(index: u64, stop: Stop) -> Verdict
    ensures { result ≡ verdict_at index stop }
{
    match stop {
        Stop::NoSubject => Verdict::ActorNotSubject { index },
        Stop::Denied(rule, cause) => Verdict::StepDenied { index, rule, cause },
        Stop::NoSerial => Verdict::StepFull { index },
    }
}

/// The verdict on the graph to which all steps lead.
fn weigh(graph: &Graph, goal: Goal) -> Verdict
    ensures { IsVerdict graph.now [] goal result }
{
    let label = graph.rights(goal.from, goal.to);
    if label.contains(goal.rights) {
        Verdict::Shared
    } else {
        Verdict::GoalMissing {
            rights: goal.rights.minus(label),
        }
    }
}

/// Carries out the steps one after another, starting from the graph, and returns the verdict: the first step, counted
/// from 0, that cannot be carried out, with the first of these that holds: its actor is not a subject of the graph at
/// that point; the rules (Lipton and Snyder 1977; Bishop) deny it, for the first cause; it makes a vertex and no serial
/// is left. After all steps, the rights of the goal that the label lacks, or `Shared`, so that the goal's rights can be
/// shared, by these steps. Enrols, retires, assumes and leaves are steps like others, though they give nobody rights
/// that creates do not. `AllocError` only if there was no memory for a step.
pub fn check(
    alloc: Global,
    mut graph: Graph,
    steps: &[Step],
    goal: Goal,
) -> Result<Verdict, AllocError>
    ensures verdict { IfOk result (IsVerdict graph steps.now goal) }
    ensures shared { IfOk result (λ v. v ≡ verdict.Shared → CanShare graph goal) }
{
    for (index, step) in steps.iter().enumerate() {
        if let Some(stop) = carry_out(alloc, &mut graph, step)? {
            return Ok(verdict_at(index as u64, stop));
        }
    }
    Ok(weigh(&graph, goal))
}
