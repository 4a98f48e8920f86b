//! Calls whose allocations fail: what they leave, and the same calls made again. tests/faults/growths.py makes each
//! allocation of a test fail in turn.
use crate::acts::Act::{
    Create, Cycle, FreeCells, FreeSlots, Join, Mark, Remove, Shade, Sweep, Write,
};
use crate::acts::{PLAIN, Script};
use crate::tests::{at, graph, open, play, rights};
use crate::{Colour, Figure, Store};
use std::alloc::{AllocError, Global};
use std::process::Abort;
use tg_graph::Graph;
use tg_heap::HeapFull;
use tg_rights::{Kind, Rights, Text};

const GARBAGE: &Script = &Script {
    name: "garbage outlives a cycle",
    cells: 4,
    acts: &[
        FreeSlots(1),
        FreeCells(4),
        Create(0, 1, 3, "r", None),
        Shade(0, Some(3)),
        Remove(1, 3, "r"),
        Create(0, 1, 4, "r", Some(HeapFull::Slots)),
        Cycle(7, 4),
    ],
    ..PLAIN
};

const JOINED: &Script = &Script {
    name: "a take joins labels",
    edges: &[(1, "tg", 2)],
    slots: 8,
    acts: &[
        Create(1, 2, 3, "rwg", None),
        Shade(1, Some(3)),
        Join(0, (1, 1), (2, 3), "r", None),
        Shade(0, Some(3)),
        Join(0, (1, 1), (2, 3), "w", None),
        Shade(0, Some(3)),
    ],
    ..PLAIN
};

/// A vertex as its slot shows it, and whether it is held.
type Shown = (u64, Kind, Colour, bool);

/// What is played next, and what is then held: the vertices, and the edges by the letters of their rights; and what the
/// slots show, whose edges are the same here.
struct Stage {
    script: Script,
    vertices: &'static [(u64, Kind, &'static str)],
    edges: &'static [(u64, &'static str, u64)],
    figures: &'static [Shown],
}

// 3 is parked in the third, and 4 has come ahead of the sweep in the last
const STAGES: &[Stage] = &[
    Stage {
        script: Script {
            name: "no cycle has started",
            ..PLAIN
        },
        vertices: &[
            (1, Kind::Subject, ""),
            (2, Kind::Subject, ""),
            (3, Kind::Document, ""),
        ],
        edges: &[(1, "tg", 2), (1, "rw", 3), (2, "rwg", 3)],
        figures: &[
            (1, Kind::Subject, Colour::White, true),
            (2, Kind::Subject, Colour::White, true),
            (3, Kind::Document, Colour::Grey, true),
        ],
    },
    Stage {
        script: Script {
            name: "marking",
            acts: &[Write(2, 3, "hi", ""), Mark(3)],
            ..PLAIN
        },
        vertices: &[
            (1, Kind::Subject, ""),
            (2, Kind::Subject, ""),
            (3, Kind::Document, "hi"),
        ],
        edges: &[(1, "tg", 2), (1, "rw", 3), (2, "rwg", 3)],
        figures: &[
            (1, Kind::Subject, Colour::Grey, true),
            (2, Kind::Subject, Colour::Grey, true),
            (3, Kind::Document, Colour::Grey, true),
        ],
    },
    Stage {
        script: Script {
            name: "before the sweep's first slot",
            acts: &[
                Cycle(7, 9),
                Remove(1, 3, "rw"),
                Remove(2, 3, "rwg"),
                Mark(6),
                Sweep(1),
            ],
            ..PLAIN
        },
        vertices: &[(1, Kind::Subject, ""), (2, Kind::Subject, "")],
        edges: &[(1, "tg", 2)],
        figures: &[
            (1, Kind::Subject, Colour::Black, true),
            (2, Kind::Subject, Colour::Black, true),
            (3, Kind::Document, Colour::White, false),
        ],
    },
    Stage {
        script: Script {
            name: "before a parked slot",
            acts: &[Sweep(2), Create(0, 1, 4, "r", None)],
            ..PLAIN
        },
        vertices: &[
            (1, Kind::Subject, ""),
            (2, Kind::Subject, ""),
            (4, Kind::Document, ""),
        ],
        edges: &[(1, "tg", 2), (1, "r", 4)],
        figures: &[
            (1, Kind::Subject, Colour::White, true),
            (2, Kind::Subject, Colour::White, true),
            (3, Kind::Document, Colour::White, false),
            (4, Kind::Document, Colour::Black, true),
        ],
    },
];

/// The graph still has its two principals and nothing else.
fn is_left(rt: &impl Abort, graph: &Graph) {
    assert!(rt; graph.kind(2) == Some(Kind::Subject));
    assert!(rt; graph.kind(3).is_none());
}

/// The store of a script. If memory runs out the graph is as before, and the store is made again.
fn opened_again(
    rt: &(impl Abort + Print),
    alloc: Global,
    script: &Script,
) -> Result<Store, AllocError> {
    let graph = graph(rt, alloc, script)?;
    match Store::new(alloc, &graph, script.slots, script.cells) {
        Ok(store) => Ok(store),
        Err(_) => {
            let _ = rt.println("no memory");
            is_left(rt, &graph);
            Store::new(alloc, &graph, script.slots, script.cells)
        }
    }
}

/// The edges of a principal, asked for again if memory runs out.
fn edges_again(
    rt: &(impl Abort + Print),
    alloc: Global,
    store: &Store,
    principal: u64,
) -> Result<Vec<(u64, Rights)>, AllocError> {
    let id = at(rt, store, principal, principal);
    match store.edges(alloc, id) {
        Ok(edges) => Ok(edges),
        Err(_) => {
            let _ = rt.println("no memory");
            store.edges(alloc, id)
        }
    }
}

/// A store that lacks memory leaves the graph; the graph is then stored, and everything goes as worked out.
#[test]
fn growth_refused_in_a_store_that_is_opened(rt: HostRuntime) -> Result<(), AllocError> {
    let mut store = opened_again(&rt, rt.alloc(), GARBAGE)?;
    play(&rt, rt.alloc(), &mut store, GARBAGE)
}

fn are_edges(edges: &[(u64, Rights)], wanted: &[(u64, &str)]) -> bool {
    for (edge, other) in edges.iter().zip(wanted.iter()) {
        if edge.0 != other.0 || edge.1 != rights(other.1) {
            return false;
        }
    }
    edges.len() == wanted.len()
}

/// Whether these are the edges of a principal.
fn has_edges(
    rt: &(impl Abort + Print),
    alloc: Global,
    store: &Store,
    principal: u64,
    wanted: &[(u64, &str)],
) -> Result<bool, AllocError> {
    let edges = edges_again(rt, alloc, store, principal)?;
    Ok(are_edges(edges.as_slice(), wanted))
}

/// The principals of `JOINED` after its lines, and the edges of each.
const LISTED: &[(u64, &[(u64, &str)])] = &[(1, &[(2, "tg"), (3, "rw")]), (2, &[(3, "rwg")])];

/// The principals have these edges.
fn have_edges(
    rt: &(impl Abort + Print),
    alloc: Global,
    store: &Store,
    listed: &[(u64, &[(u64, &str)])],
) -> Result<(), AllocError> {
    for (principal, wanted) in listed {
        assert!(rt; has_edges(rt, alloc, store, *principal, wanted)?);
    }
    Ok(())
}

/// A script's store after its lines.
fn played(rt: &impl Abort, alloc: Global, script: &Script) -> Result<Store, AllocError> {
    let mut store = open(rt, alloc, script)?;
    play(rt, alloc, &mut store, script)?;
    Ok(store)
}

/// A list that lacks memory leaves the edges; they are listed on the next call.
#[test]
fn growth_refused_in_a_list_of_edges(rt: HostRuntime) -> Result<(), AllocError> {
    let store = played(&rt, rt.alloc(), JOINED)?;
    have_edges(&rt, rt.alloc(), &store, LISTED)
}

/// What is held, asked for again if memory runs out.
fn parts_again(
    rt: &impl Print,
    alloc: Global,
    store: &Store,
) -> Result<(Vec<(u64, Kind, Text)>, Vec<(u64, Rights, u64)>), AllocError> {
    match store.parts(alloc) {
        Ok(parts) => Ok(parts),
        Err(_) => {
            let _ = rt.println("no memory");
            store.parts(alloc)
        }
    }
}

fn is_vertex(vertex: &(u64, Kind, Text), wanted: &(u64, Kind, &str)) -> bool {
    vertex.0 == wanted.0 && vertex.1 == wanted.1 && vertex.2.get() == wanted.2
}

fn are_vertices(vertices: &[(u64, Kind, Text)], wanted: &[(u64, Kind, &str)]) -> bool {
    for (vertex, other) in vertices.iter().zip(wanted.iter()) {
        if !is_vertex(vertex, other) {
            return false;
        }
    }
    vertices.len() == wanted.len()
}

fn are_arrows(edges: &[(u64, Rights, u64)], wanted: &[(u64, &str, u64)]) -> bool {
    for (edge, other) in edges.iter().zip(wanted.iter()) {
        if edge.0 != other.0 || edge.1 != rights(other.1) || edge.2 != other.2 {
            return false;
        }
    }
    edges.len() == wanted.len()
}

/// Whether a store lists what a stage says.
fn lists(rt: &impl Print, alloc: Global, store: &Store, stage: &Stage) -> Result<bool, AllocError> {
    let (vertices, edges) = parts_again(rt, alloc, store)?;
    Ok(
        are_vertices(vertices.as_slice(), stage.vertices)
            && are_arrows(edges.as_slice(), stage.edges),
    )
}

/// What the slots show, asked for again if memory runs out.
fn figures_again(
    rt: &impl Print,
    alloc: Global,
    store: &Store,
) -> Result<(Vec<Figure>, Vec<(u64, Rights, u64)>), AllocError> {
    match store.figures(alloc) {
        Ok(figures) => Ok(figures),
        Err(_) => {
            let _ = rt.println("no memory");
            store.figures(alloc)
        }
    }
}

fn are_figures(figures: &[Figure], wanted: &[Shown]) -> bool {
    for (figure, other) in figures.iter().zip(wanted.iter()) {
        if (figure.serial, figure.kind, figure.colour, figure.is_held) != *other {
            return false;
        }
    }
    figures.len() == wanted.len()
}

/// Whether a store shows what a stage says.
fn shows(rt: &impl Print, alloc: Global, store: &Store, stage: &Stage) -> Result<bool, AllocError> {
    let (figures, edges) = figures_again(rt, alloc, store)?;
    Ok(are_figures(figures.as_slice(), stage.figures) && are_arrows(edges.as_slice(), stage.edges))
}

/// The store lists what each stage says.
fn lists_each(
    rt: &(impl Abort + Print),
    alloc: Global,
    store: &mut Store,
) -> Result<(), AllocError> {
    for stage in STAGES {
        play(rt, alloc, store, &stage.script)?;
        assert!(rt; lists(rt, alloc, store, stage)?, "{}", stage.script.name);
    }
    Ok(())
}

/// Lists that lack memory leave the store; what is held, and nothing that is parked, is listed on the next call.
#[test]
fn growth_refused_in_lists_of_what_is_held(rt: HostRuntime) -> Result<(), AllocError> {
    let mut store = played(&rt, rt.alloc(), JOINED)?;
    lists_each(&rt, rt.alloc(), &mut store)
}

/// The store shows what each stage says.
fn shows_each(
    rt: &(impl Abort + Print),
    alloc: Global,
    store: &mut Store,
) -> Result<(), AllocError> {
    for stage in STAGES {
        play(rt, alloc, store, &stage.script)?;
        assert!(rt; shows(rt, alloc, store, stage)?, "{}", stage.script.name);
    }
    Ok(())
}

/// The same of what the slots show, what is parked among it.
#[test]
fn growth_refused_in_lists_of_what_is_shown(rt: HostRuntime) -> Result<(), AllocError> {
    let mut store = played(&rt, rt.alloc(), JOINED)?;
    shows_each(&rt, rt.alloc(), &mut store)
}
