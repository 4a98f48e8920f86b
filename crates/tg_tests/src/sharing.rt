//! What no clause of tg_sharing says: that answers come, and that the definitions give those of cases that were worked
//! by hand.
use crate::sharing_cases::{CASES, Case, SHARED, SPLIT, Want, graph, rights};
use std::alloc::{AllocError, Global};
use std::process::Abort;
use tg_graph::{Goal, Graph};
use tg_rights::Rights;
use tg_sharing::{
    Answer, Could, Listing, Prospect, can_share, every_holder, every_target, what_could, who_could,
};

/// What the answer is.
fn kind_of(answer: &Answer) -> Want {
    match answer {
        Answer::Never => Want::Never,
        Answer::By(steps) => Want::By(steps.len() as u64),
        Answer::Unknown(_) => Want::Unknown,
    }
}

/// The answer in a case, if its vertices are there.
fn answer(alloc: Global, graph: &Graph, case: &Case) -> Result<Option<Want>, AllocError> {
    if graph.kind(case.from).is_none() || graph.kind(case.to).is_none() {
        return Ok(None);
    }
    let goal = Goal {
        from: case.from,
        to: case.to,
        rights: rights(case.rights),
    };
    let answer = can_share(alloc, graph, goal)?;
    Ok(Some(kind_of(&answer)))
}

/// The answer in the graph of a case.
fn play(alloc: Global, case: &Case) -> Result<Option<Want>, AllocError> {
    let graph = graph(alloc, case)?;
    answer(alloc, &graph, case)
}

#[test]
fn answers_worked_by_hand(rt: HostRuntime) {
    let mut number = 0;
    for case in CASES {
        let found = play(rt.alloc(), case).expect(&rt, "memory");
        assert!(rt; found == Some(case.want), "case {number}: {found:?}");
        number = u64::wrapping_add(number, 1);
    }
}

/// Whether the graph lends exactly these edges, in this order.
fn lends(graph: &Graph, wanted: &[(u64, &str, u64)]) -> bool {
    let mut left = wanted.iter();
    for (ends, label) in graph.labels() {
        let Some(edge) = left.next() else {
            return false;
        };
        if ends.0 != edge.0 || label.letters() != edge.1 || ends.1 != edge.2 {
            return false;
        }
    }
    left.next().is_none()
}

/// Whether the graph of a case does.
fn case_lends(alloc: Global, case: &Case, wanted: &[(u64, &str, u64)]) -> Result<bool, AllocError> {
    let graph = graph(alloc, case)?;
    Ok(lends(&graph, wanted))
}

#[test]
fn labels_are_lent_by_rising_ends(rt: HostRuntime) {
    let wanted = &[(1, "g", 2), (1, "r", 4), (2, "t", 3), (2, "w", 4)];
    let case = Case {
        deeds: SPLIT,
        ..SHARED
    };
    let are_lent = case_lends(rt.alloc(), &case, wanted).expect(&rt, "memory");
    assert!(rt; are_lent);
}

/// Whether the label is the one that is wanted.
fn is_label(vertex: u64, label: Rights, wanted: u64, letters: &str) -> bool {
    vertex == wanted && label.letters() == letters
}

/// Whether these are the labels that are wanted.
fn are_labels(found: &[(u64, Rights)], wanted: &[(u64, &str)]) -> bool {
    found.len() == wanted.len()
        && found
            .iter()
            .zip(wanted.iter())
            .all(|(label, want)| is_label(label.0, label.1, want.0, want.1))
}

/// Whether the prospect is of exactly these rights.
fn is_prospect(prospect: &Option<Prospect>, wanted: &[(u64, &str)]) -> bool {
    match prospect {
        Some(prospect) => are_labels(prospect.labels.as_slice(), wanted),
        None => false,
    }
}

/// All that the vertex could ever come to have, if it is there.
fn prospect_in(
    alloc: Global,
    graph: &Graph,
    from: u64,
    most: usize,
) -> Result<Option<Prospect>, AllocError> {
    if graph.kind(from).is_none() {
        return Ok(None);
    }
    what_could(alloc, graph, from, most)
}

/// All that a vertex of the shared case could.
fn prospect_of(alloc: Global, from: u64, most: usize) -> Result<Option<Prospect>, AllocError> {
    let graph = graph(alloc, &SHARED)?;
    prospect_in(alloc, &graph, from, most)
}

/// Whether a vertex of the shared case could ever come to have exactly these rights.
fn has_prospect(alloc: Global, wanted: &(u64, &[(u64, &str)])) -> Result<bool, AllocError> {
    let found = prospect_of(alloc, wanted.0, 100)?;
    Ok(is_prospect(&found, wanted.1))
}

/// Each vertex of the shared case with all that it could have.
const PROSPECTS: &[(u64, &[(u64, &str)])] = &[
    (1, &[(2, "g"), (3, "t"), (4, "rw")]),
    (2, &[(3, "t"), (4, "rw")]),
    (3, &[(2, "g"), (4, "rw")]),
    (4, &[]),
];

#[test]
fn prospects_worked_by_hand(rt: HostRuntime) {
    for wanted in PROSPECTS {
        let has_it = has_prospect(rt.alloc(), wanted).expect(&rt, "memory");
        assert!(rt; has_it, "from {}", wanted.0);
    }
}

/// Whether no prospect is told of the vertex by no more steps than these.
fn is_too_much(alloc: Global, from: u64, most: usize) -> Result<bool, AllocError> {
    let found = prospect_of(alloc, from, most)?;
    Ok(found.is_none())
}

#[test]
fn prospects_are_given_up(rt: HostRuntime) {
    let is_given_up = is_too_much(rt.alloc(), 2, 0).expect(&rt, "memory");
    assert!(rt; is_given_up);
}

/// Which of some vertices could ever come to have the case's rights, if its `to` is there.
fn those_in(
    alloc: Global,
    graph: &Graph,
    case: &Case,
    asked: &[u64],
) -> Result<Vec<(u64, Could)>, AllocError> {
    if graph.kind(case.to).is_none() {
        return Ok(Vec::new(alloc));
    }
    who_could(alloc, graph, rights(case.rights), case.to, asked)
}

/// Which of some vertices of the shared case could.
fn those_who_could(alloc: Global, asked: &[u64]) -> Result<Vec<(u64, Could)>, AllocError> {
    let graph = graph(alloc, &SHARED)?;
    those_in(alloc, &graph, &SHARED, asked)
}

#[test]
fn those_who_could_worked_by_hand(rt: HostRuntime) {
    let wanted = &[(1, Could::Ever), (2, Could::Ever), (4, Could::Never)];
    let found = those_who_could(rt.alloc(), &[1, 2, 4, 5]).expect(&rt, "memory");
    assert!(rt; found.as_slice() == wanted.as_slice());
}

/// Whether all vertices are listed, and these are they.
fn is_listing(found: &Option<Listing>, wanted: &[(u64, &str)]) -> bool {
    match found {
        Some(Listing::All(vertices)) => are_labels(vertices.as_slice(), wanted),
        _ => false,
    }
}

/// All who could ever come to read the document of the shared case.
fn readers_in(alloc: Global, graph: &Graph, most: usize) -> Result<Option<Listing>, AllocError> {
    if graph.kind(SHARED.to).is_none() {
        return Ok(None);
    }
    Ok(Some(every_holder(alloc, graph, Rights::read(), SHARED.to, most)?))
}

fn readers(alloc: Global, most: usize) -> Result<Option<Listing>, AllocError> {
    let graph = graph(alloc, &SHARED)?;
    readers_in(alloc, &graph, most)
}

#[test]
fn readers_worked_by_hand(rt: HostRuntime) {
    let found = readers(rt.alloc(), 4).expect(&rt, "memory");
    assert!(rt;
        is_listing(&found, &[(1, "r"), (2, ""), (3, "")]),
        "{found:?}"
    );
}

#[test]
fn readers_are_too_many(rt: HostRuntime) {
    let found = readers(rt.alloc(), 3).expect(&rt, "memory");
    assert!(rt; matches!(found, Some(Listing::TooMuch)), "{found:?}");
}

/// All that carol could ever come to read in the shared case.
fn texts_in(alloc: Global, graph: &Graph, most: usize) -> Result<Option<Listing>, AllocError> {
    if graph.kind(3).is_none() {
        return Ok(None);
    }
    Ok(Some(every_target(alloc, graph, 3, Rights::read(), most)?))
}

fn texts(alloc: Global) -> Result<Option<Listing>, AllocError> {
    let graph = graph(alloc, &SHARED)?;
    texts_in(alloc, &graph, 100)
}

#[test]
fn texts_worked_by_hand(rt: HostRuntime) {
    let found = texts(rt.alloc()).expect(&rt, "memory");
    assert!(rt; is_listing(&found, &[(4, "")]), "{found:?}");
}
