//! Lists of many vertices, whose serials fall as their slots rise.
use crate::acts::{PLAIN, Script};
use crate::tests::{create, open, shade};
use crate::{Figure, Store};
use std::alloc::{AllocError, Global};
use std::process::Abort;
use tg_rights::{Kind, Rights, Text};

/// How many documents there are besides alice and bob.
const MANY: u64 = 200;

const ROOMY: &Script = &Script {
    name: "many documents",
    slots: 256,
    cells: 256,
    ..PLAIN
};

/// Alice makes all documents, from the last serial to the first.
fn fill(rt: &impl Abort, alloc: Global, store: &mut Store) {
    for count in 0..MANY {
        let serial = MANY + 2 - count;
        assert!(rt; create(rt, alloc, store, 0, 1, serial, Rights::read()).is_ok());
        assert!(rt; shade(rt, store, 0) == Some(serial));
    }
}

/// Whether these are all vertices, by rising serial.
fn are_vertices(vertices: &[(u64, Kind, Text)]) -> bool {
    for index in 0..vertices.len() {
        if vertices[index].0 != index as u64 + 1 {
            return false;
        }
    }
    vertices.len() as u64 == MANY + 2
}

/// Whether these are alice's edges to all documents, by rising serial.
fn are_edges(edges: &[(u64, Rights, u64)]) -> bool {
    for index in 0..edges.len() {
        if (edges[index].0, edges[index].2) != (1, index as u64 + 3) {
            return false;
        }
    }
    edges.len() as u64 == MANY
}

/// Whether these show all vertices, by rising serial.
fn are_figures(figures: &[Figure]) -> bool {
    for index in 0..figures.len() {
        if figures[index].serial != index as u64 + 1 {
            return false;
        }
    }
    figures.len() as u64 == MANY + 2
}

/// Whether what is held is listed in order.
fn lists(alloc: Global, store: &Store) -> Result<bool, AllocError> {
    let (vertices, edges) = store.parts(alloc)?;
    Ok(are_vertices(vertices.as_slice()) && are_edges(edges.as_slice()))
}

/// Whether what the slots show is listed in order.
fn shows(alloc: Global, store: &Store) -> Result<bool, AllocError> {
    let (figures, edges) = store.figures(alloc)?;
    Ok(are_figures(figures.as_slice()) && are_edges(edges.as_slice()))
}

#[test]
fn many_vertices_are_listed_by_rising_serial(rt: HostRuntime) -> Result<(), AllocError> {
    let mut store = open(&rt, rt.alloc(), ROOMY)?;
    fill(&rt, rt.alloc(), &mut store);
    assert!(rt; lists(rt.alloc(), &store)?);
    assert!(rt; shows(rt.alloc(), &store)?);
    Ok(())
}
