//! Marks that follow from others along edges.
ghost use Rattle.std.specs.Prelude.{◌≡◌, ◌<◌, ◌^◌, ◌||◌, true, false, IsTrue, OnOk, IfOk};
ghost use Rattle.tg_graph.specs.Promise.Protection.{label as rights_over};
ghost use Rattle.tg_rights.specs.Promise.Letters.{has, take, grant};
ghost use Rattle.tg_graph.specs.Promise.EachCommand.{HasOver};
ghost use Rattle.tg_sharing.specs.Promise.Spans.{AreClosed};
ghost use Rattle.tg_sharing.specs.Inner.Marking.{AreEdgesClosed, AreGrantClosed, AreMarks, ArePairClosed, AreTakeClosed, Goes, IsFollowed, IsKnown, is_bridged, is_spanned, marked, size};

use crate::marks::{BridgeWay, Marked, Marks, SpanWay};
use crate::search::edges_from;
use std::alloc::{AllocError, Global};
use tg_graph::Graph;
use tg_rights::Rights;

/// A vertex, and which marks it has.
#[derive(Clone, Copy)]
struct Known {
    vertex: u64,
    marked: Marked,
}

/// Whether marks can follow along an edge of this label.
pub(crate) fn is_passed(label: Rights) -> bool
    ensures { result ≡ (has label take || has label grant) }
{
    label.contains(Rights::take()) || label.contains(Rights::grant())
}

/// Whether an edge of this label leads to no mark, between vertices with these marks. The second may be the goal's own.
pub(crate) fn is_followed(label: Rights, x: Marked, y: Marked, is_own: bool) -> bool
    ensures { IsTrue result → IsFollowed label x y is_own }
{
    let is_taken = (!x.spanned || y.spanned) && (!y.bridged || x.bridged);
    let is_granted = (!x.spanned || y.bridged) && (x.bridged || !y.spanned && !is_own);
    (!label.contains(Rights::take()) || is_taken)
        && (!label.contains(Rights::grant()) || is_granted)
}

impl Marks {
    /// Spans the end of a take whose start is spanned: a terminal span goes on.
    fn taken(&mut self, graph: &Graph, x: u64, y: u64) -> Result<(), AllocError>
        requires edge { HasOver graph.now x take y }
        requires marks { AreMarks graph.now self.old }
        ensures goes { OnOk result (Goes graph.now self.old self.new) }
        ensures closed { OnOk result (is_spanned self.old x ≡ true → is_spanned self.new y ≡ true) }
    {
        if self.spanned.contains_key(&x) && !self.spanned.contains_key(&y) {
            self.span(graph, y, SpanWay::Taken(x))?;
        }
        Ok(())
    }

    /// Bridges the start of a take whose end is bridged.
    fn reaching(&mut self, graph: &Graph, x: u64, y: u64) -> Result<(), AllocError>
        requires edge { HasOver graph.now x take y }
        requires marks { AreMarks graph.now self.old }
        ensures goes { OnOk result (Goes graph.now self.old self.new) }
        ensures closed { OnOk result (is_bridged self.old y ≡ true → is_bridged self.new x ≡ true) }
    {
        if self.bridged.contains_key(&y) && !self.bridged.contains_key(&x) {
            self.bridge(graph, x, BridgeWay::Reaching(y))?;
        }
        Ok(())
    }

    /// Bridges the end of a grant whose start is spanned.
    fn granting(&mut self, graph: &Graph, x: u64, y: u64) -> Result<(), AllocError>
        requires edge { HasOver graph.now x grant y }
        requires marks { AreMarks graph.now self.old }
        ensures goes { OnOk result (Goes graph.now self.old self.new) }
        ensures closed { OnOk result (is_spanned self.old x ≡ true → is_bridged self.new y ≡ true) }
    {
        if self.spanned.contains_key(&x) && !self.bridged.contains_key(&y) {
            self.bridge(graph, y, BridgeWay::Granting(x))?;
        }
        Ok(())
    }

    /// Bridges the start of a grant whose end is spanned.
    fn granted(&mut self, graph: &Graph, x: u64, y: u64) -> Result<(), AllocError>
        requires edge { HasOver graph.now x grant y }
        requires marks { AreMarks graph.now self.old }
        ensures goes { OnOk result (Goes graph.now self.old self.new) }
        ensures closed { OnOk result (is_spanned self.old y ≡ true → is_bridged self.new x ≡ true) }
    {
        if self.spanned.contains_key(&y) && !self.bridged.contains_key(&x) {
            self.bridge(graph, x, BridgeWay::Granted(y))?;
        }
        Ok(())
    }

    /// Bridges the start of a grant to the goal's own vertex: an initial span ends with it.
    fn initial(&mut self, graph: &Graph, x: u64, y: u64) -> Result<(), AllocError>
        requires edge { HasOver graph.now x grant y }
        ensures goes { OnOk result (Goes graph.now self.old self.new) }
        ensures closed { OnOk result (y ≡ self.old.from → is_bridged self.new x ≡ true) }
    {
        if y == self.from {
            self.bridge(graph, x, BridgeWay::Initial)?;
        }
        Ok(())
    }

    /// Sets the marks to which a take leads, if the label has it.
    fn follow_take(
        &mut self,
        graph: &Graph,
        x: u64,
        y: u64,
        label: Rights,
    ) -> Result<(), AllocError>
        requires label { label ≡ rights_over graph.now x y }
        requires marks { AreMarks graph.now self.old }
        ensures goes { OnOk result (Goes graph.now self.old self.new) }
        ensures closed { OnOk result (size self.old ≡ size self.new → HasOver graph.now x take y → AreTakeClosed self.old x y) }
    {
        if label.contains(Rights::take()) {
            self.taken(graph, x, y)?;
            self.reaching(graph, x, y)?;
        }
        Ok(())
    }

    /// Sets the marks to which a grant leads, if the label has it.
    fn follow_grant(
        &mut self,
        graph: &Graph,
        x: u64,
        y: u64,
        label: Rights,
    ) -> Result<(), AllocError>
        requires label { label ≡ rights_over graph.now x y }
        requires marks { AreMarks graph.now self.old }
        ensures goes { OnOk result (Goes graph.now self.old self.new) }
        ensures closed { OnOk result (size self.old ≡ size self.new → HasOver graph.now x grant y → AreGrantClosed self.old x y) }
    {
        if label.contains(Rights::grant()) {
            self.granting(graph, x, y)?;
            self.granted(graph, x, y)?;
            self.initial(graph, x, y)?;
        }
        Ok(())
    }

    /// Sets the marks to which an edge leads, if there is one.
    fn follow(&mut self, graph: &Graph, x: u64, y: u64, label: Rights) -> Result<(), AllocError>
        requires label { label ≡ rights_over graph.now x y }
        requires marks { AreMarks graph.now self.old }
        ensures goes { OnOk result (Goes graph.now self.old self.new) }
        ensures closed { OnOk result (size self.old ≡ size self.new → ArePairClosed graph.now self.old x y) }
    {
        self.follow_take(graph, x, y, label)?;
        self.follow_grant(graph, x, y, label)?;
        Ok(())
    }

    /// Sets the marks to which the edges lead that a search finds.
    fn spread(&mut self, alloc: Global, graph: &Graph) -> Result<(), AllocError>
        requires { AreMarks graph.now self.old }
        ensures { OnOk result (Goes graph.now self.old self.new) }
    {
        for edge in edges_from(alloc, graph, self.from)? {
            let label = graph.rights(edge.0, edge.1);
            self.follow(graph, edge.0, edge.1, label)?;
        }
        Ok(())
    }

    /// Which marks the vertex has, where those of one vertex are known.
    fn recall(&self, vertex: u64, known: Known) -> Marked
        requires { IsKnown self.now known }
        ensures { result ≡ marked self.now vertex }
    {
        if vertex == known.vertex {
            known.marked
        } else {
            self.marked(vertex)
        }
    }

    /// Sets the marks to which an edge leads, if it leads to any. The marks of one vertex are known, before and after.
    fn follow_on(
        &mut self,
        graph: &Graph,
        x: u64,
        y: u64,
        label: Rights,
        known: Known,
    ) -> Result<Known, AllocError>
        requires label { label ≡ rights_over graph.now x y }
        requires marks { AreMarks graph.now self.old }
        requires known { IsKnown self.old known }
        ensures goes { OnOk result (Goes graph.now self.old self.new) }
        ensures closed { OnOk result (size self.old ≡ size self.new → ArePairClosed graph.now self.old x y) }
        ensures known { IfOk result (λ known. IsKnown self.new known) }
    {
        if !is_passed(label) {
            return Ok(known);
        }
        let before = self.recall(x, known);
        if is_followed(label, before, self.marked(y), y == self.from) {
            return Ok(Known {
                vertex: x,
                marked: before,
            });
        }
        self.follow(graph, x, y, label)?;
        Ok(Known {
            vertex: x,
            marked: self.marked(x),
        })
    }

    /// Sets the marks to which each edge leads.
    fn follow_each(&mut self, graph: &Graph) -> Result<(), AllocError>
        requires { AreMarks graph.now self.old }
        ensures goes { OnOk result (Goes graph.now self.old self.new) }
        ensures closed { OnOk result (size self.old ≡ size self.new → AreEdgesClosed graph.now self.old) }
    {
        let labels = graph.labels();
        let mut known = Known {
            vertex: self.from,
            marked: self.marked(self.from),
        };
        for (ends, label) in labels {
            known = self.follow_on(graph, ends.0, ends.1, *label, known)?;
        }
        Ok(())
    }

    /// Sets the marks to which each edge leads; returns whether that set any.
    fn grow(&mut self, graph: &Graph) -> Result<bool, AllocError>
        requires { AreMarks graph.now self.old }
        ensures goes { OnOk result (Goes graph.now self.old self.new) }
        ensures more { IfOk result (λ more. IsTrue more → size self.old < size self.new) }
        ensures closed { IfOk result (λ more. more ≡ false → AreEdgesClosed graph.now self.new) }
        ensures small { OnOk result (size self.new < 2 ^ 64) }
    {
        let before = self.size();
        self.follow_each(graph)?;
        Ok(self.size() != before)
    }

    /// All marks that can be set for the vertex.
    pub(crate) fn explore(alloc: Global, graph: &Graph, from: u64) -> Result<Marks, AllocError>
        ensures from { IfOk result (λ m. m.from ≡ from) }
        ensures marks { IfOk result (AreMarks graph.now) }
        ensures closed { IfOk result (λ m. AreClosed graph.now from (is_spanned m) (is_bridged m)) }
    {
        let mut marks = Marks::new(alloc, from);
        marks.start(graph)?;
        marks.spread(alloc, graph)?;
        // All marks are set by now. That they are is what one more pass shows.
        while marks.grow(graph)? {}
        Ok(marks)
    }
}
