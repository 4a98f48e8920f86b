//! Graphs of a few vertices, each with a goal and the answer that was worked by hand.
use std::alloc::{AllocError, Global};
use tg_graph::{Config, Graph, LAST_SERIAL};
use tg_rights::{Command, Kind, Rights, Word};

/// What somebody does before the question is put.
#[derive(Clone, Copy)]
pub(crate) enum Deed {
    /// Makes a document, over which it has these rights.
    Document(&'static str),
    /// Grants these rights over the first vertex to the second.
    Grant(&'static str, u64, u64),
    /// Drops these rights over a vertex.
    Remove(&'static str, u64),
    Retire,
}

/// Which answer is wanted.
#[derive(Clone, Copy, PartialEq, Eq, Debug)]
pub(crate) enum Want {
    Never,
    /// By so many steps.
    By(u64),
    Unknown,
}

/// Three principals with these edges, the next serial, what each does then, and a goal.
#[derive(Clone, Copy)]
pub(crate) struct Case {
    pub(crate) edges: &'static [(u64, &'static str, u64)],
    pub(crate) next: u64,
    pub(crate) deeds: &'static [(u64, Deed)],
    pub(crate) from: u64,
    pub(crate) rights: &'static str,
    pub(crate) to: u64,
    pub(crate) want: Want,
}

/// Alice (1) may grant to bob (2), who has take over carol (3). Alice has made a document (4) that she may read and
/// write.
pub(crate) const SHARED: Case = Case {
    edges: &[(1, "g", 2), (2, "t", 3)],
    next: 4,
    deeds: &[(1, Deed::Document("rw"))],
    from: 2,
    rights: "r",
    to: 4,
    want: Want::By(1),
};

/// Alice may read and bob may write the document (4).
pub(crate) const SPLIT: &[(u64, Deed)] = &[
    (1, Deed::Document("rw")),
    (1, Deed::Grant("w", 4, 2)),
    (1, Deed::Remove("w", 4)),
];

/// Alice has take over a document (5) that has grant over another (6), over which bob has take.
const BRIDGE: &[(u64, Deed)] = &[
    (1, Deed::Document("rw")),
    (1, Deed::Document("tg")),
    (1, Deed::Document("tg")),
    (1, Deed::Grant("g", 6, 5)),
    (1, Deed::Grant("t", 6, 2)),
    (1, Deed::Remove("g", 2)),
    (1, Deed::Remove("g", 5)),
    (1, Deed::Remove("tg", 6)),
];

/// Alice and bob both have grant over a document (5), and bob is no other way to reach.
const GRANTS: &[(u64, Deed)] = &[
    (1, Deed::Document("rw")),
    (1, Deed::Document("g")),
    (1, Deed::Grant("g", 5, 2)),
    (1, Deed::Remove("g", 2)),
];

/// A document (5), over which alice has grant, may read another (4), and she may not.
const BEHIND_GRANT: &[(u64, Deed)] = &[
    (1, Deed::Document("rw")),
    (1, Deed::Document("g")),
    (1, Deed::Grant("r", 4, 5)),
    (1, Deed::Remove("r", 4)),
];

/// The same behind take.
const BEHIND_TAKE: &[(u64, Deed)] = &[
    (1, Deed::Document("rw")),
    (1, Deed::Document("tg")),
    (1, Deed::Grant("r", 4, 5)),
    (1, Deed::Remove("r", 4)),
];

/// Alice may grant to bob and read carol, who could be on the way, since she has take over alice.
const NEEDLESS: Case = Case {
    edges: &[(1, "g", 2), (1, "r", 3), (3, "t", 1)],
    to: 3,
    ..SHARED
};

/// Alice has take over bob, and may read carol; no serial is left for a document.
const LAST: Case = Case {
    edges: &[(1, "t", 2), (1, "r", 3)],
    next: LAST_SERIAL + 1,
    deeds: &[],
    from: 2,
    rights: "r",
    to: 3,
    want: Want::Unknown,
};

pub(crate) const CASES: &[Case] = &[
    SHARED,
    Case {
        rights: "rw",
        ..SHARED
    },
    // A box for each of two rights, which alice and bob have.
    Case {
        from: 3,
        rights: "rw",
        deeds: SPLIT,
        want: Want::By(9),
        ..SHARED
    },
    // Nobody has take over the document.
    Case {
        rights: "rt",
        want: Want::Never,
        ..SHARED
    },
    // A take is a bridge in either direction, and so is a grant.
    Case {
        from: 3,
        want: Want::By(5),
        ..SHARED
    },
    Case {
        edges: &[(1, "g", 2), (3, "t", 2)],
        from: 3,
        want: Want::By(2),
        ..SHARED
    },
    Case {
        edges: &[(2, "g", 1), (2, "t", 3)],
        from: 3,
        want: Want::By(8),
        ..SHARED
    },
    // No rights are always there, and those that are there.
    Case {
        rights: "",
        want: Want::By(0),
        ..SHARED
    },
    Case {
        from: 1,
        rights: "rw",
        want: Want::By(0),
        ..SHARED
    },
    // No vertex comes to have rights over itself.
    Case {
        from: 4,
        want: Want::Never,
        ..SHARED
    },
    Case {
        from: 2,
        to: 2,
        rights: "t",
        want: Want::Never,
        ..SHARED
    },
    Case {
        from: 4,
        rights: "",
        want: Want::By(0),
        ..SHARED
    },
    // Nobody has grant over the document, which is passive.
    Case {
        from: 4,
        to: 2,
        rights: "g",
        want: Want::Never,
        ..SHARED
    },
    // A document comes to have rights over another if an initial span leads to it, and not by take alone.
    Case {
        deeds: &[(1, Deed::Document("rw")), (1, Deed::Document("g"))],
        from: 5,
        ..SHARED
    },
    Case {
        deeds: &[(1, Deed::Document("rw")), (1, Deed::Document("t"))],
        from: 5,
        want: Want::Never,
        ..SHARED
    },
    Case {
        deeds: BRIDGE,
        from: 6,
        want: Want::By(2),
        ..SHARED
    },
    // A document of both does where otherwise a box would be made.
    Case {
        edges: &[(1, "tg", 2)],
        deeds: &[
            (1, Deed::Document("rw")),
            (1, Deed::Document("tg")),
            (1, Deed::Grant("t", 5, 2)),
            (1, Deed::Remove("g", 2)),
        ],
        want: Want::By(2),
        ..SHARED
    },
    // Rights over actors on the way go by an envoy, unless none is needed.
    Case {
        from: 3,
        rights: "g",
        to: 2,
        want: Want::By(8),
        ..SHARED
    },
    NEEDLESS,
    // Who has retired does nothing, and others may still give to it.
    Case {
        deeds: &[(1, Deed::Document("rw")), (1, Deed::Retire)],
        want: Want::Never,
        ..SHARED
    },
    Case {
        deeds: &[(1, Deed::Document("rw")), (2, Deed::Retire)],
        from: 3,
        want: Want::Never,
        ..SHARED
    },
    Case {
        deeds: &[(1, Deed::Document("rw")), (2, Deed::Retire)],
        ..SHARED
    },
    // A grant between two spans is a bridge; two takes or two grants that meet are none.
    Case {
        deeds: BRIDGE,
        want: Want::By(3),
        ..SHARED
    },
    Case {
        edges: &[],
        deeds: &[
            (1, Deed::Document("rw")),
            (1, Deed::Document("t")),
            (2, Deed::Document("t")),
        ],
        want: Want::Never,
        ..SHARED
    },
    Case {
        deeds: GRANTS,
        want: Want::Never,
        ..SHARED
    },
    // A span goes along takes, and not along grants.
    Case {
        deeds: BEHIND_TAKE,
        from: 1,
        ..SHARED
    },
    Case {
        deeds: BEHIND_GRANT,
        from: 1,
        want: Want::Never,
        ..SHARED
    },
    // No serial is left for a box, one is, and none is needed, for a box or an envoy.
    LAST,
    Case {
        next: LAST_SERIAL,
        want: Want::By(4),
        ..LAST
    },
    Case {
        edges: &[(1, "g", 2), (1, "r", 3)],
        want: Want::By(1),
        ..LAST
    },
    Case {
        next: LAST_SERIAL + 1,
        deeds: &[],
        ..NEEDLESS
    },
];

/// The principals of a case, with their edges.
fn config(alloc: Global, case: &Case) -> Result<Config, AllocError> {
    let mut principals = Vec::new(alloc);
    for name in ["alice", "bob", "carol"] {
        principals.push(Word::new(String::from_str(alloc, name)?))?;
    }
    let mut edges = Vec::new(alloc);
    for edge in case.edges {
        edges.push((edge.0, rights(edge.1), edge.2))?;
    }
    Ok(Config {
        principals,
        edges,
        next: case.next,
        slots: 3,
        cells: 3,
    })
}

/// The rights of these letters.
pub(crate) fn rights(letters: &str) -> Rights {
    letters.parse().unwrap_or(Rights::empty())
}

/// The command of a deed.
fn command(deed: Deed) -> Command {
    match deed {
        Deed::Document(letters) => Command::create(Kind::Document, rights(letters)),
        Deed::Grant(letters, over, to) => Command::grant(rights(letters), over, to),
        Deed::Remove(letters, over) => Command::remove(rights(letters), over),
        Deed::Retire => Command::retire(),
    }
}

/// Somebody does something, if it is a subject.
fn act(graph: &mut Graph, deed: (u64, Deed)) -> Result<(), AllocError> {
    if graph.kind(deed.0) == Some(Kind::Subject) {
        graph.apply(deed.0, command(deed.1))?;
    }
    Ok(())
}

/// The graph of a case.
pub(crate) fn graph(alloc: Global, case: &Case) -> Result<Graph, AllocError> {
    let config = config(alloc, case)?;
    let mut graph = Graph::build(alloc, &config).map_err(|_| AllocError)?;
    for deed in case.deeds {
        act(&mut graph, *deed)?;
    }
    Ok(graph)
}
