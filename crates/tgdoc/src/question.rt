//! What is asked of the graph to which a run leads: whether, or among which vertices, rights can ever be shared.
use tg_rights::{Name, Rights};

/// A vertex, as a word of the command line names it.
#[derive(Debug, Drop)]
pub enum VertexName {
    /// By its serial.
    Serial(u64),
    /// By the name of the principal that it is once the lines have been carried out.
    Principal(Name),
}

/// What is asked.
#[derive(Debug, Drop)]
pub enum Question {
    /// Whether one vertex can ever come to have rights over another.
    Pair(Pair),
    /// Which vertices can, or over which one can.
    Lookup(Lookup),
}

/// Whether a vertex can ever come to have these rights over another, whatever the subjects do.
#[derive(Debug, Drop)]
pub struct Pair {
    /// The vertex that is to have the rights.
    pub from: VertexName,
    /// The vertex over which it is to have them.
    pub to: VertexName,
    /// The rights.
    pub rights: Rights,
    /// Whether the answer for a yes has only the steps that lead there, without the run's lines before them.
    pub steps: bool,
}

/// Which of the two vertices of a right is named.
#[derive(Clone, Copy, PartialEq, Eq, Debug)]
pub enum End {
    /// The one that is to have the rights: over which could it ever have them?
    From,
    /// The one over which they are: who could ever have them?
    To,
}

/// All vertices that can ever come to have these rights over one, or over which one can, whatever the subjects do.
#[derive(Debug, Drop)]
pub struct Lookup {
    /// Which end is named.
    pub end: End,
    /// The vertex there.
    pub vertex: VertexName,
    /// The rights.
    pub rights: Rights,
    /// How much may be tried: with `End::To` how many vertices may be asked about, with `End::From` how many steps may
    /// lead to all that the vertex could have.
    pub most: usize,
}
