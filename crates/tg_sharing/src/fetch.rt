//! How the goal's own vertex comes to have rights that a spanned vertex has. They go from hand to hand themselves, or,
//! where a vertex on the way may be the one over which they are, an envoy goes: a new subject that has them.
ghost use Rattle.std.specs.Prelude.{◌≡◌, ◌≢◌, ◌<◌, ◌≤◌, true, false, IfOk, OnOk, MatchOption};
ghost use Rattle.tg_rights.specs.Promise.Letters.{is_none, grant};
ghost use Rattle.tg_graph.specs.Promise.Rules.{last_serial};
ghost use Rattle.tg_sharing.specs.Inner.Fetching.{IsBrought, IsEnvoy, IsSource, IsUnmarked};
ghost use Rattle.tg_sharing.specs.Inner.Growing.{Continues, TakesFrom, KeepsAll, take_and_grant};
ghost use Rattle.tg_sharing.specs.Inner.Marking.{AreMarks, is_bridged, is_spanned};
ghost use Rattle.tg_sharing.specs.Inner.Paths.{Holds};
ghost use Rattle.tg_graph.specs.Promise.EachCommand.{HasOver};
ghost use Rattle.tg_sharing.specs.Promise.Spans.{IsActor};

use crate::builder::{Derivation, Load, both};
use crate::carry::End;
use crate::marks::Marks;
use std::alloc::{AllocError, Global};
use tg_graph::{Goal, Graph};
use tg_rights::{Kind, Rights};

impl Derivation {
    /// The goal's own vertex comes to have the load, from where it was brought. `None` if no serial is left; which
    /// number is returned otherwise does not matter, here and below.
    fn hand_over(
        &mut self,
        graph: &Graph,
        marks: &Marks,
        end: End,
        load: &Load,
    ) -> Result<Option<u64>, AllocError>
        requires keeps { KeepsAll graph.now self.old.graph }
        requires brought { IsBrought graph.now self.old.graph marks.now load.now end }
        requires some { is_none load.now.rights ≡ false }
        requires apart { marks.now.from ≢ load.now.over }
        ensures continues { OnOk result (Continues self.old self.new) }
        ensures met { IfOk result (λ o. MatchOption o (last_serial < self.new.graph.next) (λ _. Holds self.new.graph marks.now.from load.now.rights load.now.over)) }
    {
        graph.soundness();
        if end.is_own {
            return self.push(end.holder, end.at, end.at, load);
        }
        if end.holder == marks.from {
            return Ok(Some(end.holder));
        }
        self.gain_grant(end.holder, marks.from, end.at)?;
        self.give(end.holder, load.rights, load.over, marks.from)?;
        Ok(Some(end.holder))
    }

    /// The envoy comes to an actor that can grant to the goal's own vertex, and so can the envoy then.
    fn finish_initial(
        &mut self,
        graph: &Graph,
        holder: u64,
        at: u64,
        envoy: u64,
        rights: Rights,
        goal: &Goal,
    ) -> Result<(), AllocError>
        requires keeps { KeepsAll graph.now self.old.graph }
        requires holder { IsActor graph.now holder }
        requires draws { TakesFrom self.old.graph holder at }
        requires held { Holds self.old.graph holder take_and_grant envoy }
        requires fresh { graph.now.next ≤ envoy }
        requires edge { HasOver graph.now at grant goal.now.from }
        requires envoy { IsEnvoy self.old.graph rights goal.now.to envoy }
        requires some { is_none rights ≡ false }
        requires apart { goal.now.from ≢ goal.now.to }
        ensures continues { OnOk result (Continues self.old self.new) }
        ensures met { OnOk result (Holds self.new.graph goal.now.from rights goal.now.to) }
    {
        graph.soundness();
        if holder == goal.from {
            self.gain(holder, rights, goal.to, envoy)?;
            return Ok(());
        }
        self.gain_grant(holder, goal.from, at)?;
        self.give_grant(holder, goal.from, envoy)?;
        self.give(envoy, rights, goal.to, goal.from)?;
        Ok(())
    }

    /// The goal's own vertex comes to have the rights of an envoy that was brought. `None` if no serial is left.
    fn take_over(
        &mut self,
        graph: &Graph,
        marks: &Marks,
        end: End,
        envoy: u64,
        rights: Rights,
        goal: &Goal,
    ) -> Result<Option<u64>, AllocError>
        requires keeps { KeepsAll graph.now self.old.graph }
        requires own { marks.now.from ≡ goal.now.from }
        requires brought { IsBrought graph.now self.old.graph marks.now (record { rights = take_and_grant; over = envoy }) end }
        requires fresh { graph.now.next ≤ envoy }
        requires envoy { IsEnvoy self.old.graph rights goal.now.to envoy }
        requires some { is_none rights ≡ false }
        requires apart { goal.now.from ≢ goal.now.to }
        ensures continues { OnOk result (Continues self.old self.new) }
        ensures met { IfOk result (λ o. MatchOption o (last_serial < self.new.graph.next) (λ _. Holds self.new.graph goal.now.from rights goal.now.to)) }
    {
        graph.soundness();
        if end.is_own {
            let load = Load {
                rights: both(),
                over: envoy,
            };
            let Some(_) = self.push(end.holder, end.at, end.at, &load)? else {
                return Ok(None);
            };
            self.gain(end.at, rights, goal.to, envoy)?;
            return Ok(Some(end.at));
        }
        self.finish_initial(graph, end.holder, end.at, envoy, rights, goal)?;
        Ok(Some(envoy))
    }

    /// The envoy, which its maker has just made, comes to have the rights, which a vertex has from which its maker can
    /// take.
    fn arm(
        &mut self,
        maker: u64,
        source: u64,
        envoy: u64,
        rights: Rights,
        to: u64,
    ) -> Result<(), AllocError>
        requires maker { IsActor self.old.graph maker }
        requires envoy { IsActor self.old.graph envoy }
        requires held { Holds self.old.graph maker take_and_grant envoy }
        requires draws { TakesFrom self.old.graph maker source }
        requires ready { Holds self.old.graph source rights to }
        requires some { is_none rights ≡ false }
        requires source { source ≢ envoy }
        requires to { to ≢ envoy }
        ensures continues { OnOk result (Continues self.old self.new) }
        ensures armed { OnOk result (Holds self.new.graph envoy rights to) }
    {
        if maker == source {
            self.give(maker, rights, to, envoy)?;
            return Ok(());
        }
        self.give_take(maker, source, envoy)?;
        self.gain(envoy, rights, to, source)?;
        Ok(())
    }

    /// The goal's own vertex comes to have the rights, which an actor can take from a vertex: by an envoy, which the
    /// actor makes, and which is not a vertex on the way. `None` if no serial is left.
    fn send(
        &mut self,
        alloc: Global,
        graph: &Graph,
        marks: &Marks,
        first: u64,
        source: u64,
        rights: Rights,
        goal: &Goal,
    ) -> Result<Option<u64>, AllocError>
        requires source { IsSource graph.now self.old.graph marks.now goal.now rights source }
        requires first { IsActor graph.now first }
        requires bridged { is_bridged marks.now first ≡ true }
        requires draws { TakesFrom self.old.graph first source }
        ensures continues { OnOk result (Continues self.old self.new) }
        ensures met { IfOk result (λ o. MatchOption o (last_serial < self.new.graph.next) (λ _. Holds self.new.graph goal.now.from rights goal.now.to)) }
    {
        graph.soundness();
        let Some(envoy) = self.make(first, Kind::Subject)? else {
            return Ok(None);
        };
        self.arm(first, source, envoy, rights, goal.to)?;
        let load = Load {
            rights: both(),
            over: envoy,
        };
        let Some(end) = self.carry(alloc, graph, marks, first, &load)? else {
            return Ok(None);
        };
        self.take_over(graph, marks, end, envoy, rights, goal)
    }

    /// The same where no vertex on the way is the one over which the rights are: the rights themselves are passed on.
    /// `None` if no serial is left.
    fn pass(
        &mut self,
        alloc: Global,
        graph: &Graph,
        marks: &Marks,
        first: u64,
        source: u64,
        rights: Rights,
        goal: &Goal,
    ) -> Result<Option<u64>, AllocError>
        requires source { IsSource graph.now self.old.graph marks.now goal.now rights source }
        requires first { IsActor graph.now first }
        requires bridged { is_bridged marks.now first ≡ true }
        requires draws { TakesFrom self.old.graph first source }
        requires unmarked { IsUnmarked graph.now marks.now goal.now.to }
        ensures continues { OnOk result (Continues self.old self.new) }
        ensures met { IfOk result (λ o. MatchOption o (last_serial < self.new.graph.next) (λ _. Holds self.new.graph goal.now.from rights goal.now.to)) }
    {
        graph.soundness();
        self.gain(first, rights, goal.to, source)?;
        let load = Load {
            rights,
            over: goal.to,
        };
        let Some(end) = self.carry(alloc, graph, marks, first, &load)? else {
            return Ok(None);
        };
        self.hand_over(graph, marks, end, &load)
    }

    /// The goal's own vertex comes to have the rights, which a spanned vertex has. `None` if no serial is left.
    pub(crate) fn derive(
        &mut self,
        alloc: Global,
        graph: &Graph,
        marks: &Marks,
        source: u64,
        rights: Rights,
        goal: &Goal,
    ) -> Result<Option<u64>, AllocError>
        requires source { IsSource graph.now self.old.graph marks.now goal.now rights source }
        requires spanned { is_spanned marks.now source ≡ true }
        ensures continues { OnOk result (Continues self.old self.new) }
        ensures met { IfOk result (λ o. MatchOption o (last_serial < self.new.graph.next) (λ _. Holds self.new.graph goal.now.from rights goal.now.to)) }
    {
        let root = self.draw_to(alloc, graph, marks, source)?;
        if root == goal.from {
            self.gain(root, rights, goal.to, source)?;
            return Ok(Some(root));
        }
        if marks.is_unmarked(goal.to) {
            return self.pass(alloc, graph, marks, root, source, rights, goal);
        }
        self.send(alloc, graph, marks, root, source, rights, goal)
    }
}
