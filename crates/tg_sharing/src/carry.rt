//! How a load goes from actor to actor, over the bridges that the marks show.
ghost use Rattle.std.specs.Prelude.{◌≡◌, ◌<◌, true, false, IfOk, OnOk, MatchOption};
ghost use Rattle.tg_rights.specs.Promise.Letters.{is_none, take, grant};
ghost use Rattle.tg_graph.specs.Promise.Rules.{last_serial};
ghost use Rattle.tg_sharing.specs.Inner.Fetching.{IsBrought, IsDrawn, IsOnTheWay, IsPassed, IsUnmarked};
ghost use Rattle.tg_sharing.specs.Inner.Growing.{Continues, KeepsAll};
ghost use Rattle.tg_sharing.specs.Inner.Marking.{AreMarks, is_bridged, is_spanned};
ghost use Rattle.tg_sharing.specs.Inner.Paths.{Holds};
ghost use Rattle.tg_graph.specs.Promise.EachCommand.{HasOver};
ghost use Rattle.tg_sharing.specs.Promise.Spans.{IsActor};

use crate::builder::{Derivation, Load};
use crate::marks::{BridgeWay, Marks};
use std::alloc::{AllocError, Global};
use tg_graph::Graph;

/// Where a load was brought: who has it, and from where it can take. That vertex is the goal's own, which takes the
/// load, or it may grant to the goal's own.
#[derive(Clone, Copy)]
pub(crate) struct End {
    pub(crate) holder: u64,
    pub(crate) at: u64,
    pub(crate) is_own: bool,
}

impl End {
    /// Who has the load, from where it can take, and whether that is the goal's own vertex.
    fn new(holder: u64, at: u64, is_own: bool) -> End
        ensures { result ≡ record { holder = holder; at = at; is_own = is_own } }
    {
        End { holder, at, is_own }
    }
}

impl Derivation {
    /// An actor that comes to be able to take from a spanned vertex.
    pub(crate) fn draw_to(
        &mut self,
        alloc: Global,
        graph: &Graph,
        marks: &Marks,
        vertex: u64,
    ) -> Result<u64, AllocError>
        requires keeps { KeepsAll graph.now self.old.graph }
        requires marks { AreMarks graph.now marks.now }
        requires spanned { is_spanned marks.now vertex ≡ true }
        ensures continues { OnOk result (Continues self.old self.new) }
        ensures drawn { IfOk result (IsDrawn graph.now self.new.graph marks.now vertex) }
    {
        let (root, path) = marks.path_to(alloc, graph, vertex)?;
        self.draw(graph, root, path)?;
        Ok(root)
    }

    /// The load goes over a bridge whose grant leads from the span of the next actor, which is returned; `None` if no
    /// serial is left.
    fn cross_granting(
        &mut self,
        alloc: Global,
        graph: &Graph,
        marks: &Marks,
        holder: u64,
        at: u64,
        end: u64,
        load: &Load,
    ) -> Result<Option<u64>, AllocError>
        requires way { IsOnTheWay graph.now self.old.graph marks.now load.now holder at }
        requires edge { HasOver graph.now end grant at }
        requires spanned { is_spanned marks.now end ≡ true }
        ensures continues { OnOk result (Continues self.old self.new) }
        ensures passed { IfOk result (λ o. MatchOption o (last_serial < self.new.graph.next) (IsPassed graph.now self.new.graph marks.now end load.now)) }
    {
        graph.soundness();
        let next = self.draw_to(alloc, graph, marks, end)?;
        self.gain_grant(next, at, end)?;
        let Some(_) = self.push(holder, next, at, load)? else {
            return Ok(None);
        };
        Ok(Some(next))
    }

    /// The load goes over a bridge whose grant leads to the span of the next actor, which is returned.
    fn cross_granted(
        &mut self,
        alloc: Global,
        graph: &Graph,
        marks: &Marks,
        holder: u64,
        at: u64,
        end: u64,
        load: &Load,
    ) -> Result<u64, AllocError>
        requires way { IsOnTheWay graph.now self.old.graph marks.now load.now holder at }
        requires edge { HasOver graph.now at grant end }
        requires spanned { is_spanned marks.now end ≡ true }
        ensures continues { OnOk result (Continues self.old self.new) }
        ensures passed { IfOk result (IsPassed graph.now self.new.graph marks.now end load.now) }
    {
        graph.soundness();
        self.gain_grant(holder, end, at)?;
        let next = self.draw_to(alloc, graph, marks, end)?;
        self.pull(holder, next, end, load)?;
        Ok(next)
    }

    /// The load goes over a bridge of takes alone, which from both sides lead to an actor. Returns the next actor;
    /// `None` if no serial is left.
    fn cross_taking(
        &mut self,
        alloc: Global,
        graph: &Graph,
        marks: &Marks,
        holder: u64,
        at: u64,
        load: &Load,
    ) -> Result<Option<u64>, AllocError>
        requires way { IsOnTheWay graph.now self.old.graph marks.now load.now holder at }
        requires actor { IsActor graph.now at }
        requires spanned { is_spanned marks.now at ≡ true }
        ensures continues { OnOk result (Continues self.old self.new) }
        ensures passed { IfOk result (λ o. MatchOption o (last_serial < self.new.graph.next) (IsPassed graph.now self.new.graph marks.now at load.now)) }
    {
        graph.soundness();
        let Some(_) = self.push(holder, at, at, load)? else {
            return Ok(None);
        };
        let next = self.draw_to(alloc, graph, marks, at)?;
        self.pull(at, next, at, load)?;
        Ok(Some(next))
    }

    /// The load goes from hand to hand, until somebody can give it to the goal's own vertex or that can take it. `None`
    /// if no serial is left.
    pub(crate) fn carry(
        &mut self,
        alloc: Global,
        graph: &Graph,
        marks: &Marks,
        first: u64,
        load: &Load,
    ) -> Result<Option<End>, AllocError>
        requires keeps { KeepsAll graph.now self.old.graph }
        requires marks { AreMarks graph.now marks.now }
        requires first { IsActor graph.now first }
        requires bridged { is_bridged marks.now first ≡ true }
        requires held { Holds self.old.graph first load.now.rights load.now.over }
        requires some { is_none load.now.rights ≡ false }
        requires apart { IsUnmarked graph.now marks.now load.now.over }
        ensures continues { OnOk result (Continues self.old self.new) }
        ensures brought { IfOk result (λ o. MatchOption o (last_serial < self.new.graph.next) (IsBrought graph.now self.new.graph marks.now load.now)) }
    {
        let mut holder = first;
        let mut at = first;
        let mut bridge = marks.bridge_at(first);
        loop {
            match bridge.way {
                BridgeWay::Own => return Ok(Some(End::new(holder, at, true))),
                BridgeWay::Initial => return Ok(Some(End::new(holder, at, false))),
                BridgeWay::Granting(end) => {
                    let Some(next) = self.cross_granting(
                        alloc, graph, marks, holder, at, end, load,
                    )?
                    else {
                        return Ok(None);
                    };
                    (holder, at, bridge) = (next, next, marks.bridge_at(next));
                    continue;
                }
                BridgeWay::Granted(end) => {
                    let next = self.cross_granted(alloc, graph, marks, holder, at, end, load)?;
                    (holder, at, bridge) = (next, next, marks.bridge_at(next));
                    continue;
                }
                BridgeWay::Reaching(next) => {
                    self.gain_take(holder, next, at)?;
                    (at, bridge) = (next, marks.bridge_at(next));
                    continue;
                }
                BridgeWay::Spanned => {
                    let Some(next) = self.cross_taking(alloc, graph, marks, holder, at, load)?
                    else {
                        return Ok(None);
                    };
                    (holder, at, bridge) = (next, next, marks.bridge_at(next));
                    continue;
                }
            }
        }
    }
}
