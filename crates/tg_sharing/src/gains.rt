//! What vertices come to have by takes and grants alone, without a new vertex: rights spread from edge to edge until
//! the goal is met or nothing is new, and then the steps on which the goal's rights rest are followed back. That none
//! is missed is not proved here.
use crate::marks::{Marks, is_actor};
use std::alloc::{AllocError, Global};
use std::collections::VecDeque;
use tg_graph::{Goal, Graph};
use tg_rights::Rights;

/// How many spanned vertices take part at most, those that were marked first: the time of a search grows with the cube
/// of their number.
const MOST: usize = 128;

/// The places of the goal's two vertices.
const FROM: usize = 0;

const TO: usize = 1;

/// How rights are passed on.
#[derive(Clone, Copy)]
pub(crate) enum Way {
    /// The actor takes them from the other.
    Take,
    /// The actor grants them to the other.
    Grant,
}

/// A step that passes rights on.
#[derive(Clone, Copy)]
pub(crate) struct Passing {
    pub(crate) actor: u64,
    pub(crate) way: Way,
    pub(crate) rights: Rights,
    pub(crate) over: u64,
    pub(crate) other: u64,
}

/// The same, by the places of the vertices.
#[derive(Clone, Copy)]
struct Gain {
    actor: usize,
    way: Way,
    rights: Rights,
    over: usize,
    other: usize,
}

/// The rights of each place over each.
#[derive(Drop)]
struct Table {
    rows: Vec<Vec<Rights>>,
}

/// A search that has come some way.
#[derive(Drop)]
struct Search {
    /// The goal's two vertices, and the spanned ones that take part. No other passes on what the goal needs.
    serials: Vec<u64>,
    /// Which of them may act.
    acting: Vec<bool>,
    /// What each has by now.
    labels: Table,
    /// What was gained, in this order.
    gains: Vec<Gain>,
    /// The edges that have got rights from which the search has not gone on yet.
    left: VecDeque<(usize, usize)>,
}

/// The rights that are in both sets.
fn common(some: Rights, others: Rights) -> Rights {
    some.minus(some.minus(others))
}

/// From whom rights come by a step, and to whom.
fn ends_of(actor: usize, way: Way, other: usize) -> (usize, usize) {
    match way {
        Way::Take => (other, actor),
        Way::Grant => (actor, other),
    }
}

/// The right that a step asks of its actor over the other.
fn asked_by(way: Way) -> Rights {
    match way {
        Way::Take => Rights::take(),
        Way::Grant => Rights::grant(),
    }
}

/// A list of this many empty sets.
fn row_of(alloc: Global, count: usize) -> Result<Vec<Rights>, AllocError> {
    let mut row = Vec::new(alloc);
    for _ in 0..count {
        row.push(Rights::empty())?;
    }
    Ok(row)
}

impl Table {
    /// No rights, for this many places.
    fn new(alloc: Global, count: usize) -> Result<Table, AllocError> {
        let mut rows = Vec::new(alloc);
        for _ in 0..count {
            rows.push(row_of(alloc, count)?)?;
        }
        Ok(Table { rows })
    }

    /// The rights of one place over another.
    fn at(&self, holder: usize, over: usize) -> Rights {
        match self.rows.get(holder) {
            Some(row) => match row.get(over) {
                Some(label) => *label,
                None => Rights::empty(),
            },
            None => Rights::empty(),
        }
    }

    /// Adds rights of one place over another.
    fn add(&mut self, holder: usize, over: usize, rights: Rights) {
        if let Some(row) = self.rows.get_mut(holder) {
            if let Some(label) = row.get_mut(over) {
                *label = label.union(rights);
            }
        }
    }
}

/// The spanned vertices, each with the rank of its mark, in the order in which they were marked.
fn spanned_of(alloc: Global, marks: &Marks) -> Result<Vec<(usize, u64)>, AllocError> {
    let mut spanned = Vec::new(alloc);
    for (vertex, span) in &marks.spanned {
        spanned.push((span.rank, *vertex))?;
    }
    spanned.sort_unstable_by_key(|mark| mark.0);
    Ok(spanned)
}

/// The goal's two vertices, and the spanned ones that take part.
fn serials_of(alloc: Global, marks: &Marks, goal: &Goal) -> Result<Vec<u64>, AllocError> {
    let mut serials = Vec::new(alloc);
    serials.push(goal.from)?;
    serials.push(goal.to)?;
    for mark in spanned_of(alloc, marks)?.iter().take(MOST) {
        if mark.1 != goal.from && mark.1 != goal.to {
            serials.push(mark.1)?;
        }
    }
    Ok(serials)
}

impl Search {
    /// A search that has gained nothing.
    fn new(alloc: Global, graph: &Graph, marks: &Marks, goal: &Goal) -> Result<Search, AllocError> {
        let serials = serials_of(alloc, marks, goal)?;
        let mut acting = Vec::new(alloc);
        for serial in &serials {
            acting.push(is_actor(graph, *serial))?;
        }
        let labels = Table::new(alloc, serials.len())?;
        Ok(Search {
            serials,
            acting,
            labels,
            gains: Vec::new(alloc),
            left: VecDeque::new(alloc),
        })
    }

    /// The serial of the vertex at a place.
    fn serial_at(&self, place: usize) -> u64 {
        match self.serials.get(place) {
            Some(serial) => *serial,
            None => 0,
        }
    }

    /// Adds what is of use of the rights that a vertex has over another: take and grant, and over the goal's own second
    /// vertex those that it is about.
    fn begin_edge(
        &mut self,
        graph: &Graph,
        goal: &Goal,
        holder: usize,
        over: usize,
    ) -> Result<(), AllocError> {
        let both = Rights::take().union(Rights::grant());
        let of_use = if over == TO {
            both.union(goal.rights)
        } else {
            both
        };
        let label = graph.rights(self.serial_at(holder), self.serial_at(over));
        self.add(holder, over, common(label, of_use))
    }

    /// Adds all that is of use.
    fn begin(&mut self, graph: &Graph, goal: &Goal) -> Result<(), AllocError> {
        for holder in 0..self.serials.len() {
            for over in 0..self.serials.len() {
                self.begin_edge(graph, goal, holder, over)?;
            }
        }
        Ok(())
    }

    /// Adds rights, if these are any. The edge is left to be gone on from.
    fn add(&mut self, holder: usize, over: usize, rights: Rights) -> Result<(), AllocError> {
        if !rights.is_empty() {
            self.labels.add(holder, over, rights);
            self.left.push_back((holder, over))?;
        }
        Ok(())
    }

    /// Whether the vertex may act and has the right over another.
    fn may(&self, actor: usize, right: Rights, other: usize) -> bool {
        match self.acting.get(actor) {
            Some(is_acting) => *is_acting && self.labels.at(actor, other).contains(right),
            None => false,
        }
    }

    /// Passes on all rights over a vertex that are new to the one to which they come, if the actor may.
    fn pass(
        &mut self,
        actor: usize,
        way: Way,
        over: usize,
        other: usize,
    ) -> Result<(), AllocError> {
        if !self.may(actor, asked_by(way), other) {
            return Ok(());
        }
        let (source, holder) = ends_of(actor, way, other);
        let rights = self
            .labels
            .at(source, over)
            .minus(self.labels.at(holder, over));
        if holder == over || rights.is_empty() {
            return Ok(());
        }
        self.gains.push(Gain {
            actor,
            way,
            rights,
            over,
            other,
        })?;
        self.add(holder, over, rights)
    }

    /// Goes on from an edge: its holder takes and grants by it, and its rights are taken from the holder and granted by
    /// it.
    fn go_on(&mut self, holder: usize, over: usize) -> Result<(), AllocError> {
        for other in 0..self.serials.len() {
            self.pass(holder, Way::Take, other, over)?;
            self.pass(holder, Way::Grant, other, over)?;
            self.pass(other, Way::Take, over, holder)?;
            self.pass(holder, Way::Grant, over, other)?;
        }
        Ok(())
    }

    /// Goes on until the goal is met, or nothing is left to go on from; returns whether it is met.
    fn run(&mut self, goal: &Goal) -> Result<bool, AllocError> {
        for _ in 0..u64::MAX {
            if self.labels.at(FROM, TO).contains(goal.rights) {
                return Ok(true);
            }
            let Some(edge) = self.left.pop_front() else {
                break;
            };
            self.go_on(edge.0, edge.1)?;
        }
        Ok(false)
    }

    /// The step of a gain, of those of its rights that are needed.
    fn passing(&self, gain: Gain, rights: Rights) -> Passing {
        Passing {
            actor: self.serial_at(gain.actor),
            way: gain.way,
            rights,
            over: self.serial_at(gain.over),
            other: self.serial_at(gain.other),
        }
    }

    /// The steps that the goal's rights need, in the order in which they were found, each with only the rights that are
    /// needed.
    fn needed(&self, alloc: Global, goal: &Goal) -> Result<Vec<Passing>, AllocError> {
        let mut needed = Table::new(alloc, self.serials.len())?;
        needed.add(FROM, TO, goal.rights);
        let mut found = Vec::new(alloc);
        for gain in self.gains.iter().rev() {
            let (source, holder) = ends_of(gain.actor, gain.way, gain.other);
            let rights = common(gain.rights, needed.at(holder, gain.over));
            if !rights.is_empty() {
                needed.add(source, gain.over, rights);
                needed.add(gain.actor, gain.other, asked_by(gain.way));
                found.push(self.passing(*gain, rights))?;
            }
        }
        found.reverse();
        Ok(found)
    }
}

/// Steps by which the goal's own vertex comes to have the goal's rights without a new vertex, if some are found. If no
/// more than `MOST` vertices are spanned, they are found if there are any.
pub(crate) fn passings(
    alloc: Global,
    graph: &Graph,
    marks: &Marks,
    goal: &Goal,
) -> Result<Option<Vec<Passing>>, AllocError> {
    let mut search = Search::new(alloc, graph, marks, goal)?;
    search.begin(graph, goal)?;
    if search.run(goal)? {
        Ok(Some(search.needed(alloc, goal)?))
    } else {
        Ok(None)
    }
}
