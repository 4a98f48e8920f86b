//! What no clause says: that calls which need memory succeed, and the results of cases that were worked by hand.
use crate::cases::{Ask, Edge, Opening, TO_CAROL, TWO, command, rights_of};
use crate::graph;
use std::alloc::{AllocError, Global};
use std::process::Abort;
use tg_audit::check;
use tg_graph::{Goal, Graph, Step, Verdict};
use tg_rights::{Cause, Rule};

/// The verdict on a derivation.
#[derive(Clone, Copy)]
pub enum Finding {
    Shared,
    NoSubject(u64),
    Retired(u64, Rule),
    NotDistinct(u64, Rule),
    /// The step is denied: the label from the first vertex to the second lacks these rights.
    Lacks(u64, Rule, u64, u64, &'static str),
    NotPrincipal(u64, Rule),
    Full(u64),
    /// The goal lacks these.
    Missing(&'static str),
}

/// Steps from the graph of a configuration, and a goal: rights of the first vertex over the other.
pub struct Derivation {
    pub opening: Opening,
    pub steps: &'static [(u64, Ask)],
    pub goal: Edge,
    pub finding: Finding,
}

/// Alice alone, when no serial is left.
const LAST_SERIAL: Opening = Opening {
    names: &["alice"],
    next: 18_446_744_073_709_551_615,
    ..TWO
};

const DERIVATIONS: &[Derivation] = &[
    // a take reaches the goal
    Derivation {
        opening: TO_CAROL,
        steps: &[(1, Ask::Take("r", 3, 2))],
        goal: (1, "r", 3),
        finding: Finding::Shared,
    },
    // without it the goal's right is missing
    Derivation {
        opening: TO_CAROL,
        steps: &[],
        goal: (1, "r", 3),
        finding: Finding::Missing("r"),
    },
    // only the missing ones of the goal's rights are named
    Derivation {
        opening: TO_CAROL,
        steps: &[(1, Ask::Take("r", 3, 2))],
        goal: (1, "rw", 3),
        finding: Finding::Missing("w"),
    },
    // two vertices of the step are the same
    Derivation {
        opening: TO_CAROL,
        steps: &[(1, Ask::Take("r", 3, 3))],
        goal: (1, "r", 3),
        finding: Finding::NotDistinct(0, Rule::Take),
    },
    // the actor is no vertex
    Derivation {
        opening: TO_CAROL,
        steps: &[(9, Ask::Take("r", 3, 2))],
        goal: (1, "r", 3),
        finding: Finding::NoSubject(0),
    },
    // no serial is left
    Derivation {
        opening: LAST_SERIAL,
        steps: &[(1, Ask::Document("r"))],
        goal: (1, "", 1),
        finding: Finding::Full(0),
    },
    // every graph meets a goal without rights
    Derivation {
        opening: LAST_SERIAL,
        steps: &[],
        goal: (1, "", 1),
        finding: Finding::Shared,
    },
    // a subject that a step has made acts in a later one, and only then
    Derivation {
        opening: TO_CAROL,
        steps: &[
            (1, Ask::Subject("g")),
            (1, Ask::Take("r", 3, 2)),
            (1, Ask::Grant("r", 3, 4)),
            (4, Ask::Remove("r", 3)),
        ],
        goal: (4, "r", 3),
        finding: Finding::Missing("r"),
    },
    // a document cannot act
    Derivation {
        opening: TO_CAROL,
        steps: &[(1, Ask::Document("r")), (4, Ask::Document("r"))],
        goal: (1, "", 1),
        finding: Finding::NoSubject(1),
    },
    // the first step that fails is named, even if the goal is met before it
    Derivation {
        opening: TO_CAROL,
        steps: &[
            (1, Ask::Take("r", 3, 2)),
            (1, Ask::Take("w", 3, 2)),
            (9, Ask::Document("r")),
        ],
        goal: (1, "r", 3),
        finding: Finding::Lacks(1, Rule::Take, 2, 3, "w"),
    },
    // an enrolled subject can be given what a created one can, and whoever has retired cannot act
    Derivation {
        opening: TO_CAROL,
        steps: &[
            (1, Ask::Enrol("dave", "g")),
            (1, Ask::Take("r", 3, 2)),
            (1, Ask::Grant("r", 3, 4)),
            (1, Ask::Retire),
        ],
        goal: (4, "r", 3),
        finding: Finding::Shared,
    },
    Derivation {
        opening: TO_CAROL,
        steps: &[(1, Ask::Retire), (1, Ask::Take("r", 3, 2))],
        goal: (1, "r", 3),
        finding: Finding::Retired(1, Rule::Take),
    },
    // a subject that is no principal cannot retire
    Derivation {
        opening: TO_CAROL,
        steps: &[(1, Ask::Subject("g")), (4, Ask::Retire)],
        goal: (1, "", 1),
        finding: Finding::NotPrincipal(1, Rule::Retire),
    },
    // an assume changes nothing, and each step names its own actor; whoever has retired may leave
    Derivation {
        opening: TO_CAROL,
        steps: &[
            (1, Ask::Subject("tg")),
            (1, Ask::Assume(4)),
            (1, Ask::Take("r", 3, 2)),
            (1, Ask::Retire),
            (1, Ask::Leave),
        ],
        goal: (1, "r", 3),
        finding: Finding::Shared,
    },
    Derivation {
        opening: TO_CAROL,
        steps: &[(1, Ask::Leave), (1, Ask::Assume(2))],
        goal: (1, "t", 2),
        finding: Finding::Lacks(1, Rule::Assume, 1, 2, "g"),
    },
];

/// The verdict for this finding.
fn verdict(finding: Finding) -> Verdict {
    match finding {
        Finding::Shared => Verdict::Shared,
        Finding::NoSubject(index) => Verdict::ActorNotSubject { index },
        Finding::Retired(index, rule) => Verdict::StepDenied {
            index,
            rule,
            cause: Cause::Retired,
        },
        Finding::NotDistinct(index, rule) => Verdict::StepDenied {
            index,
            rule,
            cause: Cause::NotDistinct,
        },
        Finding::NotPrincipal(index, rule) => Verdict::StepDenied {
            index,
            rule,
            cause: Cause::NotPrincipal,
        },
        Finding::Lacks(index, rule, from, to, letters) => Verdict::StepDenied {
            index,
            rule,
            cause: Cause::Missing {
                from,
                to,
                rights: rights_of(letters),
            },
        },
        Finding::Full(index) => Verdict::StepFull { index },
        Finding::Missing(letters) => Verdict::GoalMissing {
            rights: rights_of(letters),
        },
    }
}

/// Whether the verdict is this finding.
pub fn is_verdict(found: Verdict, finding: Finding) -> bool {
    found == verdict(finding)
}

fn step(alloc: Global, actor: u64, ask: Ask) -> Result<Step, AllocError> {
    let command = command(alloc, ask)?;
    Ok(Step { actor, command })
}

/// The derivation's steps.
pub fn steps_of(alloc: Global, derivation: &Derivation) -> Result<Vec<Step>, AllocError> {
    let mut steps = Vec::new(alloc);
    for (actor, ask) in derivation.steps {
        steps.push(step(alloc, *actor, *ask)?)?;
    }
    Ok(steps)
}

/// The derivation's goal.
pub fn goal_of(derivation: &Derivation) -> Goal {
    Goal {
        from: derivation.goal.0,
        to: derivation.goal.2,
        rights: rights_of(derivation.goal.1),
    }
}

/// The verdict on the derivation's steps from this graph.
fn verdict_from(
    alloc: Global,
    graph: Graph,
    derivation: &Derivation,
) -> Result<Verdict, AllocError> {
    let steps = steps_of(alloc, derivation)?;
    check(alloc, graph, &steps, goal_of(derivation))
}

/// Whether the derivation has the verdict that was worked out.
pub fn is_found(
    rt: &impl Abort,
    alloc: Global,
    derivation: &Derivation,
) -> Result<bool, AllocError> {
    let graph = graph::opened(rt, alloc, &derivation.opening)?;
    let found = verdict_from(alloc, graph, derivation)?;
    Ok(is_verdict(found, derivation.finding))
}

#[test]
fn each_derivation_has_the_verdict_worked_out(rt: HostRuntime) -> Result<(), AllocError> {
    for derivation in DERIVATIONS {
        assert!(rt; is_found(&rt, rt.alloc(), derivation)?);
    }
    Ok(())
}
