//! The edges along which marks spread from a goal's own vertex, found breadth first in arrays. Marks that follow along
//! them one after another are all that there are; that is not proved here, since a pass over all edges shows it later.
use crate::follow::{is_followed, is_passed};
use crate::marks::{Marked, is_actor};
use std::alloc::{AllocError, Global};
use std::collections::VecDeque;
use tg_graph::Graph;
use tg_rights::Rights;

/// An edge at a vertex: the other end, by its place among the serials, the label, and whether the edge leads there.
#[derive(Clone, Copy)]
struct End {
    place: usize,
    label: Rights,
    outward: bool,
}

/// A search that has come some way.
#[derive(Drop)]
struct Search {
    /// The goal's own vertex and the ends of all edges with take or grant, by rising serial. Vertices are named by
    /// their places here.
    serials: Vec<u64>,
    /// The marks of each vertex.
    marks: Vec<Marked>,
    /// The place of the goal's own vertex.
    from: usize,
    /// The vertices that have got marks from which the search has not gone on yet.
    left: VecDeque<usize>,
    /// The edges that have led to marks, in this order.
    edges: Vec<(u64, u64)>,
}

/// The vertex itself and the ends of all edges with take or grant, by rising serial.
fn serials_of(alloc: Global, graph: &Graph, from: u64) -> Result<Vec<u64>, AllocError> {
    let mut serials = Vec::new(alloc);
    serials.push(from)?;
    let mut last = from;
    for (ends, label) in graph.labels() {
        if is_passed(*label) {
            if ends.0 != last {
                last = ends.0;
                serials.push(last)?;
            }
            serials.push(ends.1)?;
        }
    }
    serials.sort_unstable();
    serials.dedup();
    Ok(serials)
}

/// The place of a serial in the list.
fn place_of(serials: &[u64], serial: u64) -> usize {
    serials.partition_point(|other| *other < serial)
}

/// Adds the edge at one of its ends.
fn join(near: &mut Vec<Vec<End>>, at: usize, end: End) -> Result<(), AllocError> {
    if let Some(ends) = near.get_mut(at) {
        ends.push(end)?;
    }
    Ok(())
}

/// The edges at each of these vertices.
fn near_of(alloc: Global, graph: &Graph, serials: &[u64]) -> Result<Vec<Vec<End>>, AllocError> {
    let mut near = Vec::with_capacity(alloc, serials.len())?;
    for _ in serials {
        near.push(Vec::new(alloc))?;
    }
    for (ends, label) in graph.labels() {
        let label = *label;
        if is_passed(label) {
            let x = place_of(serials, ends.0);
            let y = place_of(serials, ends.1);
            join(
                &mut near,
                x,
                End {
                    place: y,
                    label,
                    outward: true,
                },
            )?;
            join(
                &mut near,
                y,
                End {
                    place: x,
                    label,
                    outward: false,
                },
            )?;
        }
    }
    Ok(near)
}

impl Search {
    /// A search that has marked nothing.
    fn new(alloc: Global, graph: &Graph, from: u64) -> Result<Search, AllocError> {
        let serials = serials_of(alloc, graph, from)?;
        let none = Marked {
            spanned: false,
            bridged: false,
        };
        let mut marks = Vec::with_capacity(alloc, serials.len())?;
        for _ in &serials {
            marks.push(none)?;
        }
        let from = place_of(serials.as_slice(), from);
        Ok(Search {
            serials,
            marks,
            from,
            left: VecDeque::new(alloc),
            edges: Vec::new(alloc),
        })
    }

    /// Marks the goal's own vertex, if it may act. The search starts there in any case.
    fn start(&mut self, graph: &Graph) -> Result<(), AllocError> {
        let from = self.from;
        if is_actor(graph, self.serial_at(from)) {
            let both = Marked {
                spanned: true,
                bridged: true,
            };
            self.mark(graph, from, both)
        } else {
            Ok(self.left.push_back(from)?)
        }
    }

    /// The marks of the vertex at a place.
    fn marks_at(&self, place: usize) -> Marked {
        match self.marks.get(place) {
            Some(marks) => *marks,
            None => Marked {
                spanned: true,
                bridged: true,
            },
        }
    }

    /// The serial of the vertex at a place.
    fn serial_at(&self, place: usize) -> u64 {
        match self.serials.get(place) {
            Some(serial) => *serial,
            None => 0,
        }
    }

    /// Gives the vertex these marks, and both if it may act and has either. What has changed is left to be gone on
    /// from.
    fn mark(&mut self, graph: &Graph, place: usize, marks: Marked) -> Result<(), AllocError> {
        if marks == self.marks_at(place) {
            return Ok(());
        }
        let is_both = is_actor(graph, self.serial_at(place));
        if let Some(slot) = self.marks.get_mut(place) {
            *slot = Marked {
                spanned: marks.spanned || is_both,
                bridged: marks.bridged || is_both,
            };
            self.left.push_back(place)?;
        }
        Ok(())
    }

    /// Marks what follows along an edge.
    fn follow(
        &mut self,
        graph: &Graph,
        x: usize,
        y: usize,
        label: Rights,
    ) -> Result<(), AllocError> {
        let (at_x, at_y) = (self.marks_at(x), self.marks_at(y));
        if is_followed(label, at_x, at_y, y == self.from) {
            return Ok(());
        }
        let edge = (self.serial_at(x), self.serial_at(y));
        self.edges.push(edge)?;
        let is_take = label.contains(Rights::take());
        let is_grant = label.contains(Rights::grant());
        let next_x = Marked {
            spanned: at_x.spanned,
            bridged: at_x.bridged
                || is_take && at_y.bridged
                || is_grant && (at_y.spanned || y == self.from),
        };
        let next_y = Marked {
            spanned: at_y.spanned || is_take && at_x.spanned,
            bridged: at_y.bridged || is_grant && at_x.spanned,
        };
        self.mark(graph, x, next_x)?;
        self.mark(graph, y, next_y)
    }

    /// Marks what follows along the edges at a vertex.
    fn follow_each(&mut self, graph: &Graph, place: usize, ends: &[End]) -> Result<(), AllocError> {
        for end in ends {
            if end.outward {
                self.follow(graph, place, end.place, end.label)?;
            } else {
                self.follow(graph, end.place, place, end.label)?;
            }
        }
        Ok(())
    }

    /// Goes on until no mark is left to go on from.
    fn run(&mut self, graph: &Graph, near: &[Vec<End>]) -> Result<(), AllocError> {
        for _ in 0..u64::MAX {
            let Some(place) = self.left.pop_front() else {
                break;
            };
            if let Some(ends) = near.get(place) {
                self.follow_each(graph, place, ends.as_slice())?;
            }
        }
        Ok(())
    }
}

/// The edges along which marks spread from the vertex, each of which leads to marks after those before it.
pub(crate) fn edges_from(
    alloc: Global,
    graph: &Graph,
    from: u64,
) -> Result<Vec<(u64, u64)>, AllocError> {
    let mut search = Search::new(alloc, graph, from)?;
    let near = near_of(alloc, graph, search.serials.as_slice())?;
    search.start(graph)?;
    search.run(graph, near.as_slice())?;
    Ok(search.edges)
}
