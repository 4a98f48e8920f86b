//! Marks: which vertices are spanned and which are bridged, and why.
ghost use Rattle.std.specs.Prelude.{◌≡◌, ◌<◌, ◌+◌, true, false, None, Some, IsTrue, ◌↔◌, OnOk, IfOk};
ghost use Rattle.tg_sharing.specs.Promise.Spans.{IsActor};
ghost use Rattle.tg_sharing.specs.Inner.Marking.{AreMarks, Goes, IsBridge, IsNone, IsPathTo, IsSpan, AddsBridge, AddsSpan, size, is_bridged, is_spanned, span_of, bridge_of, marked};

use std::alloc::{AllocError, Global};
use std::collections::{HashMap, VecDeque};
use tg_graph::Graph;
use tg_rights::Kind;

/// Why a vertex is spanned.
#[derive(Clone, Copy, PartialEq, Eq, Debug)]
pub(crate) enum SpanWay {
    /// It may act and is bridged.
    Itself,
    /// This vertex is spanned and has take over it.
    Taken(u64),
}

/// Why a vertex is bridged.
#[derive(Clone, Copy, PartialEq, Eq, Debug)]
pub(crate) enum BridgeWay {
    /// It is the goal's own vertex and may act.
    Own,
    /// It has grant over the goal's own vertex.
    Initial,
    /// This vertex is spanned and has grant over it.
    Granting(u64),
    /// It has grant over this vertex, which is spanned.
    Granted(u64),
    /// It has take over this vertex, which is bridged.
    Reaching(u64),
    /// It may act and is spanned.
    Spanned,
}

/// The mark of a spanned vertex.
#[derive(Clone, Copy, Debug)]
pub(crate) struct Span {
    pub(crate) way: SpanWay,
    /// How many marks were set before.
    pub(crate) rank: usize,
}

/// The mark of a bridged vertex.
#[derive(Clone, Copy, Debug)]
pub(crate) struct Bridge {
    pub(crate) way: BridgeWay,
    /// How many marks were set before.
    pub(crate) rank: usize,
}

/// Which marks a vertex has.
#[derive(Clone, Copy, PartialEq, Eq, Debug)]
pub(crate) struct Marked {
    pub(crate) spanned: bool,
    pub(crate) bridged: bool,
}

/// The marks that were set so far, for one vertex to which rights are to come.
#[derive(Drop)]
pub(crate) struct Marks {
    pub(crate) from: u64,
    pub(crate) spanned: HashMap<u64, Span>,
    pub(crate) bridged: HashMap<u64, Bridge>,
}

/// Whether the vertex is a subject that has not retired.
pub(crate) fn is_actor(graph: &Graph, vertex: u64) -> bool
    ensures { IsTrue result ↔ IsActor graph.now vertex }
{
    graph.kind(vertex) == Some(Kind::Subject) && !graph.retired(vertex)
}

impl Marks {
    /// No marks.
    pub(crate) fn new(alloc: Global, from: u64) -> Marks
        ensures { IsNone from result }
    {
        Marks {
            from,
            spanned: HashMap::new(alloc),
            bridged: HashMap::new(alloc),
        }
    }

    /// How many marks there are.
    pub(crate) fn size(&self) -> usize
        ensures { result ≡ size self.now }
    {
        self.spanned.len() + self.bridged.len()
    }

    /// Marks the vertex as spanned, if it is not.
    fn add_span(&mut self, vertex: u64, way: SpanWay) -> Result<(), AllocError>
        ensures { OnOk result (AddsSpan self.old self.new vertex way) }
    {
        if !self.spanned.contains_key(&vertex) {
            let rank = self.size();
            self.spanned.insert(vertex, Span { way, rank })?;
        }
        Ok(())
    }

    /// Marks the vertex as bridged, if it is not.
    fn add_bridge(&mut self, vertex: u64, way: BridgeWay) -> Result<(), AllocError>
        ensures { OnOk result (AddsBridge self.old self.new vertex way) }
    {
        if !self.bridged.contains_key(&vertex) {
            let rank = self.size();
            self.bridged.insert(vertex, Bridge { way, rank })?;
        }
        Ok(())
    }

    /// Marks the vertex as spanned, and as bridged too if it may act.
    pub(crate) fn span(
        &mut self,
        graph: &Graph,
        vertex: u64,
        way: SpanWay,
    ) -> Result<(), AllocError>
        requires { IsSpan graph.now self.old vertex (size self.old) way }
        ensures goes { OnOk result (Goes graph.now self.old self.new) }
        ensures spanned { OnOk result (is_spanned self.new vertex ≡ true) }
    {
        self.add_span(vertex, way)?;
        if is_actor(graph, vertex) {
            self.add_bridge(vertex, BridgeWay::Spanned)?;
        }
        Ok(())
    }

    /// Marks the vertex as bridged, and as spanned too if it may act.
    pub(crate) fn bridge(
        &mut self,
        graph: &Graph,
        vertex: u64,
        way: BridgeWay,
    ) -> Result<(), AllocError>
        requires { IsBridge graph.now self.old vertex (size self.old) way }
        ensures goes { OnOk result (Goes graph.now self.old self.new) }
        ensures bridged { OnOk result (is_bridged self.new vertex ≡ true) }
    {
        self.add_bridge(vertex, way)?;
        if is_actor(graph, vertex) {
            self.add_span(vertex, SpanWay::Itself)?;
        }
        Ok(())
    }

    /// Marks the goal's own vertex, if it may act.
    pub(crate) fn start(&mut self, graph: &Graph) -> Result<(), AllocError>
        ensures goes { OnOk result (Goes graph.now self.old self.new) }
        ensures own { OnOk result (IsActor graph.now self.old.from → is_bridged self.new self.old.from ≡ true) }
    {
        if is_actor(graph, self.from) {
            self.bridge(graph, self.from, BridgeWay::Own)?;
        }
        Ok(())
    }

    /// The mark of a spanned vertex.
    pub(crate) fn span_at(&self, vertex: u64) -> Span
        requires { is_spanned self.now vertex ≡ true }
        ensures { span_of self.now vertex ≡ Some result }
    {
        match self.spanned.get(&vertex) {
            Some(span) => *span,
            None => unreachable!(),
        }
    }

    /// The mark of a bridged vertex.
    pub(crate) fn bridge_at(&self, vertex: u64) -> Bridge
        requires { is_bridged self.now vertex ≡ true }
        ensures { bridge_of self.now vertex ≡ Some result }
    {
        match self.bridged.get(&vertex) {
            Some(bridge) => *bridge,
            None => unreachable!(),
        }
    }

    /// An actor from which takes lead to a spanned vertex, and the later vertices of the path. Only contracts use
    /// `graph`.
    pub(crate) fn path_to(
        &self,
        alloc: Global,
        graph: &Graph,
        vertex: u64,
    ) -> Result<(u64, VecDeque<u64>), AllocError>
        requires marks { AreMarks graph.now self.now }
        requires spanned { is_spanned self.now vertex ≡ true }
        ensures { IfOk result (λ p. IsPathTo graph.now self.now vertex p.0 p.1.items) }
    {
        let _ = graph;
        let mut path = VecDeque::new(alloc);
        let mut at = vertex;
        let mut span = self.span_at(vertex);
        loop {
            match span.way {
                SpanWay::Itself => return Ok((at, path)),
                SpanWay::Taken(from) => {
                    path.push_front(at)?;
                    at = from;
                    span = self.span_at(from);
                }
            }
        }
    }

    /// Which marks the vertex has.
    pub(crate) fn marked(&self, vertex: u64) -> Marked
        ensures { result ≡ marked self.now vertex }
    {
        Marked {
            spanned: self.spanned.contains_key(&vertex),
            bridged: self.bridged.contains_key(&vertex),
        }
    }

    /// Whether the vertex has no mark.
    pub(crate) fn is_unmarked(&self, vertex: u64) -> bool
        ensures { IsTrue result → (is_spanned self.now vertex ≡ false) × (is_bridged self.now vertex ≡ false) }
    {
        let marked = self.marked(vertex);
        !marked.spanned && !marked.bridged
    }

    /// Whether the vertex is spanned.
    pub(crate) fn is_spanned(&self, vertex: u64) -> bool
        ensures { result ≡ is_spanned self.now vertex }
    {
        self.spanned.contains_key(&vertex)
    }
}
