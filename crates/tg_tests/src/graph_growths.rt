//! Calls whose allocations fail: what they leave, and the same calls made again. tests/faults/growths.py makes each
//! allocation of a test fail in turn.
use crate::cases::{
    Ask, Edge, LONG, Opening, TAKING, TAKING_AND_GRANTING, TO_CAROL, TWO, Want, command, config,
    is_reply, rights_of, rule_of,
};
use crate::graph::{Case, Line, asks, opened, played, plays};
use std::alloc::{AllocError, Global};
use std::process::Abort;
use tg_graph::{Config, Graph, OpenFault};
use tg_rights::Kind;

/// The opening of the audits.
const AUDITED: Opening = Opening {
    slots: 1_024,
    cells: 16_384,
    ..TO_CAROL
};

/// Whether the graph has these labels, of which an empty one is no edge.
fn has_labels(graph: &Graph, labels: &[Edge]) -> bool {
    labels.iter().all(|label| graph.rights(label.0, label.2) == rights_of(label.1))
}

/// The vertex's command gets this reply. If memory runs out, the labels are those from before it, and it is made again.
fn asks_again(
    rt: &(impl Abort + Print),
    alloc: Global,
    graph: &mut Graph,
    actor: u64,
    ask: Ask,
    want: Want,
    labels: &[Edge],
) -> Result<(), AllocError> {
    let first = command(alloc, ask)?;
    assert!(rt; graph.kind(actor) == Some(Kind::Subject) && has_labels(graph, labels));
    let reply = match graph.apply(actor, first) {
        Ok(reply) => reply,
        Err(_) => {
            let _ = rt.println("no memory");
            assert!(rt; graph.kind(actor) == Some(Kind::Subject) && has_labels(graph, labels));
            let second = command(alloc, ask)?;
            graph.apply(actor, second)?
        }
    };
    assert!(rt; is_reply(&reply, rule_of(ask), want));
    Ok(())
}

/// Whether a path leads there, asked again if memory runs out.
fn leads(rt: &impl Print, graph: &Graph, from: u64, to: u64) -> Result<bool, AllocError> {
    match graph.reaches(from, to) {
        Ok(found) => Ok(found),
        Err(_) => {
            let _ = rt.println("no memory");
            graph.reaches(from, to)
        }
    }
}

/// The configuration's graph, built again if memory runs out.
fn built_again(rt: &impl Print, alloc: Global, config: &Config) -> Result<Graph, OpenFault> {
    match Graph::build(alloc, config) {
        Err(OpenFault::OutOfMemory) => {
            let _ = rt.println("no memory");
            Graph::build(alloc, config)
        }
        built => built,
    }
}

/// Whether it is the graph of the opening of the audits.
fn is_audited(graph: &Graph) -> bool {
    has_labels(graph, &[(1, "t", 2), (2, "r", 3), (1, "", 3), (2, "", 1)])
        && graph.kind(3) == Some(Kind::Subject)
        && graph.kind(4).is_none()
}

/// A graph that lacks memory leaves the configuration, which is then opened.
#[test]
fn growth_refused_in_a_graph_that_is_built(rt: HostRuntime) -> Result<(), AllocError> {
    let config = config(rt.alloc(), &AUDITED)?;
    match built_again(&rt, rt.alloc(), &config) {
        Ok(graph) => assert!(rt; is_audited(&graph)),
        Err(_) => panic!(rt; "refused"),
    }
    Ok(())
}

/// A create that lacks memory leaves no vertex and no edge, and its serial is given to the next one.
#[test]
fn growth_refused_in_a_create(rt: HostRuntime) -> Result<(), AllocError> {
    let mut graph = opened(&rt, rt.alloc(), &TWO)?;
    let create = Ask::Document("rwg");
    let labels: &[Edge] = &[(2, "", 3)];
    asks_again(
        &rt,
        rt.alloc(),
        &mut graph,
        2,
        create,
        Want::Created(3),
        labels,
    )?;
    assert!(rt; graph.kind(3) == Some(Kind::Document) && has_labels(&graph, &[(2, "rwg", 3)]));
    Ok(())
}

/// Whether carol is a principal, and bob has retired.
fn has_carol_for_bob(graph: &Graph) -> bool {
    graph.named("carol") == Some(3)
        && graph.named("bob").is_none()
        && graph.retired(2)
        && !graph.retired(3)
}

/// Bob enrols carol, who is then a principal, and retires.
fn enrols_and_retires(
    rt: &(impl Abort + Print),
    alloc: Global,
    graph: &mut Graph,
) -> Result<(), AllocError> {
    let enrol = Ask::Enrol("carol", "t");
    let before: &[Edge] = &[(2, "", 3)];
    asks_again(rt, alloc, graph, 2, enrol, Want::Created(3), before)?;
    let between: &[Edge] = &[(2, "t", 3)];
    asks_again(rt, alloc, graph, 2, Ask::Retire, Want::Done, between)?;
    assert!(rt; has_carol_for_bob(graph));
    Ok(())
}

/// An enrol and a retire that lack memory leave who is a principal, and are then carried out.
#[test]
fn growth_refused_in_an_enrol_and_a_retire(rt: HostRuntime) -> Result<(), AllocError> {
    let mut graph = opened(&rt, rt.alloc(), &TWO)?;
    enrols_and_retires(&rt, rt.alloc(), &mut graph)
}

/// A graph with 15 edges, alice's and those to 14 documents that bob has made: with one edge more the labels no longer
/// fit one node of their map.
fn of_fifteen_edges(rt: &impl Abort, alloc: Global) -> Result<Graph, AllocError> {
    let mut graph = opened(rt, alloc, &TAKING)?;
    for serial in 3..17 {
        asks(
            rt,
            alloc,
            &mut graph,
            2,
            Ask::Document("r"),
            Want::Created(serial),
        )?;
    }
    Ok(graph)
}

/// A take that lacks memory leaves the labels, and is then carried out.
#[test]
fn growth_refused_in_a_take(rt: HostRuntime) -> Result<(), AllocError> {
    let mut graph = of_fifteen_edges(&rt, rt.alloc())?;
    let take = Ask::Take("r", 3, 2);
    let labels: &[Edge] = &[(1, "t", 2), (1, "", 3), (2, "r", 3)];
    asks_again(&rt, rt.alloc(), &mut graph, 1, take, Want::Done, labels)?;
    assert!(rt; has_labels(&graph, &[(1, "r", 3), (2, "r", 3)]));
    Ok(())
}

/// Alice takes the right to read the document that bob has made.
const TAKEN: Case = Case {
    opening: TAKING_AND_GRANTING,
    asks: &[
        (2, Ask::Document("rwg"), Want::Created(3)),
        (1, Ask::Take("r", 3, 2), Want::Done),
    ],
};

/// A look that lacks memory leaves the edges, which the next one lists.
#[test]
fn growth_refused_in_a_look(rt: HostRuntime) -> Result<(), AllocError> {
    let mut graph = played(&rt, rt.alloc(), &TAKEN)?;
    let told = Want::Edges(&[(2, "tg"), (3, "r")]);
    let labels: &[Edge] = &[(1, "tg", 2), (1, "r", 3), (2, "rwg", 3)];
    asks_again(&rt, rt.alloc(), &mut graph, 1, Ask::Look(1), told, labels)
}

/// Alice has written into a document of her own.
const WRITTEN: Case = Case {
    opening: TAKING,
    asks: &[
        (1, Ask::Document("rw"), Want::Created(3)),
        (1, Ask::Write(3, LONG), Want::Done),
    ],
};

/// A read that lacks memory leaves the text, which the next one returns.
#[test]
fn growth_refused_in_a_read(rt: HostRuntime) -> Result<(), AllocError> {
    let mut graph = played(&rt, rt.alloc(), &WRITTEN)?;
    let told = Want::Text(LONG);
    let labels: &[Edge] = &[(1, "t", 2), (1, "rw", 3)];
    asks_again(&rt, rt.alloc(), &mut graph, 1, Ask::Read(3), told, labels)
}

/// Two vertices, and whether a path leads from the first to the second.
const PATHS: &[(u64, u64, bool)] = &[(1, 3, true), (3, 1, false), (1, 1, true)];

/// Whether these paths are in the graph.
fn lead_so(rt: &impl Print, graph: &Graph, paths: &[(u64, u64, bool)]) -> Result<bool, AllocError> {
    for (from, to, wanted) in paths {
        if leads(rt, graph, *from, *to)? != *wanted {
            return Ok(false);
        }
    }
    Ok(true)
}

/// A search that lacks memory is made again.
#[test]
fn growth_refused_in_a_search(rt: HostRuntime) -> Result<(), AllocError> {
    let graph = opened(&rt, rt.alloc(), &TO_CAROL)?;
    assert!(rt; lead_so(&rt, &graph, PATHS)?);
    Ok(())
}

/// Alice has made a document.
const CREATED: Case = Case {
    opening: TWO,
    asks: &[(1, Ask::Document("r"), Want::Created(3))],
};

/// The commands on the copy: alice drops the document, and makes one more.
const ON_A_COPY: &[Line] = &[
    (1, Ask::Remove("r", 3), Want::Done),
    (1, Ask::Document("r"), Want::Created(4)),
];

/// The graph's copy, made again if memory runs out.
fn copied(rt: &impl Print, graph: &Graph) -> Result<Graph, AllocError> {
    match graph.copy() {
        Ok(copy) => Ok(copy),
        Err(_) => {
            let _ = rt.println("no memory");
            graph.copy()
        }
    }
}

/// The graph is copied, and the copy changes.
fn copy_changes(rt: &(impl Abort + Print), alloc: Global, graph: &Graph) -> Result<(), AllocError> {
    let mut copy = copied(rt, graph)?;
    plays(rt, alloc, &mut copy, ON_A_COPY)
}

/// Whether alice has one document.
fn has_one_document(graph: &Graph) -> bool {
    graph.kind(4).is_none() && has_labels(graph, &[(1, "r", 3)])
}

/// The graph stays as it was, and its copy changes.
fn stays_as_its_copy_changes(
    rt: &(impl Abort + Print),
    alloc: Global,
    graph: &Graph,
) -> Result<(), AllocError> {
    copy_changes(rt, alloc, graph)?;
    assert!(rt; has_one_document(graph));
    Ok(())
}

/// A copy that lacks memory leaves the graph, which is then copied, and stays as it was when the copy changes.
#[test]
fn growth_refused_in_a_copy_of_a_graph(rt: HostRuntime) -> Result<(), AllocError> {
    let graph = played(&rt, rt.alloc(), &CREATED)?;
    stays_as_its_copy_changes(&rt, rt.alloc(), &graph)
}
