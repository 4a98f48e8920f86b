//! Derivations that grow, step by step.
ghost use Rattle.std.specs.Prelude.{◌≡◌, ◌≢◌, ◌<◌, ◌++◌, ◌∷◌, [], ℕ, true, false, IfOk, OnOk, MatchOption};
ghost use Rattle.tg_rights.specs.Promise.Letters.{is_none, grant_alone, take_alone};
ghost use Rattle.tg_graph.specs.Promise.Protection.{IsGraph, IsSubject};
ghost use Rattle.tg_graph.specs.Promise.Rules.{Allowed, after, is_create, last_serial};
ghost use Rattle.tg_sharing.specs.Promise.Spans.{IsActor};
ghost use Rattle.tg_sharing.specs.Inner.Growing.{Continues, TakesFrom, Gives, KeepsAll, Makes, take_and_grant};
ghost use Rattle.tg_sharing.specs.Inner.Paths.{Holds, TakePath, path_end};

use std::alloc::{AllocError, Global};
use std::collections::VecDeque;
use tg_graph::{Graph, Step, each_is_allowed_so};
use tg_rights::{Command, Kind, Reply, Rights};

/// Steps, and the graph to which they lead.
#[derive(Drop)]
pub(crate) struct Derivation {
    pub(crate) graph: Graph,
    pub(crate) steps: Vec<Step>,
}

/// What goes from hand to hand: rights over a vertex.
#[derive(Clone, Copy)]
pub(crate) struct Load {
    pub(crate) rights: Rights,
    pub(crate) over: u64,
}

/// Take and grant.
pub(crate) fn both() -> Rights
    ensures { result ≡ take_and_grant }
{
    Rights::take().union(Rights::grant())
}

impl Derivation {
    /// No steps yet.
    pub(crate) fn new(alloc: Global, graph: Graph) -> Derivation
        ensures graph { result.graph ≡ graph }
        ensures steps { result.steps.items ≡ [] }
    {
        Derivation {
            graph,
            steps: Vec::new(alloc),
        }
    }

    /// Carries out a command that the rules allow and that makes no vertex.
    fn carry_out(&mut self, actor: u64, command: Command, step: Step) -> Result<(), AllocError>
        requires subject { IsSubject self.old.graph actor }
        requires allowed { Allowed self.old.graph actor command }
        requires plain { is_create actor command ≡ false }
        requires same { step ≡ record { actor = actor; command = command } }
        ensures graph { OnOk result (self.new.graph ≡ after self.old.graph actor command) }
        ensures steps { OnOk result (self.new.steps.items ≡ self.old.steps.items ++ step ∷ []) }
    {
        self.steps.push(step)?;
        self.graph.apply(actor, command)?;
        Ok(())
    }

    /// The actor comes to have the rights over a vertex that another has, from which it can take.
    pub(crate) fn gain(
        &mut self,
        actor: u64,
        rights: Rights,
        over: u64,
        from: u64,
    ) -> Result<(), AllocError>
        requires actor { IsActor self.old.graph actor }
        requires draws { TakesFrom self.old.graph actor from }
        requires held { Holds self.old.graph from rights over }
        requires some { is_none rights ≡ false }
        ensures continues { OnOk result (Continues self.old self.new) }
        ensures gained { OnOk result (actor ≢ over → Holds self.new.graph actor rights over) }
    {
        each_is_allowed_so();
        self.graph.soundness();
        if actor == over {
            return Ok(());
        }
        if actor == from {
            return Ok(());
        }
        if self.graph.rights(actor, over).contains(rights) {
            return Ok(());
        }
        let step = Step {
            actor,
            command: Command::take(rights, over, from),
        };
        self.carry_out(actor, Command::take(rights, over, from), step)?;
        Ok(())
    }

    /// The actor gives its rights over a vertex to another, to which it can give.
    pub(crate) fn give(
        &mut self,
        actor: u64,
        rights: Rights,
        over: u64,
        to: u64,
    ) -> Result<(), AllocError>
        requires actor { IsActor self.old.graph actor }
        requires gives { Gives self.old.graph actor to }
        requires held { Holds self.old.graph actor rights over }
        requires some { is_none rights ≡ false }
        requires apart { to ≢ over }
        ensures continues { OnOk result (Continues self.old self.new) }
        ensures given { OnOk result (Holds self.new.graph to rights over) }
    {
        each_is_allowed_so();
        self.graph.soundness();
        if actor == to {
            return Ok(());
        }
        if self.graph.rights(to, over).contains(rights) {
            return Ok(());
        }
        let step = Step {
            actor,
            command: Command::grant(rights, over, to),
        };
        self.carry_out(actor, Command::grant(rights, over, to), step)?;
        Ok(())
    }

    /// The actor makes a vertex, over which it has take and grant; `None` if no serial is left.
    pub(crate) fn make(&mut self, actor: u64, kind: Kind) -> Result<Option<u64>, AllocError>
        requires { IsActor self.old.graph actor }
        ensures continues { OnOk result (Continues self.old self.new) }
        ensures made { IfOk result (λ o. MatchOption o (last_serial < self.new.graph.next) (Makes self.old self.new actor kind)) }
    {
        each_is_allowed_so();
        self.graph.soundness();
        let Reply::Created(serial) = self.graph.apply(actor, Command::create(kind, both()))? else {
            return Ok(None);
        };
        let step = Step {
            actor,
            command: Command::create(kind, both()),
        };
        self.steps.push(step)?;
        Ok(Some(serial))
    }

    /// The actor comes to be able to take from the end of a path of takes. Only contracts use `graph`.
    pub(crate) fn draw(
        &mut self,
        graph: &Graph,
        actor: u64,
        mut path: VecDeque<u64>,
    ) -> Result<(), AllocError>
        requires actor { IsActor graph.now actor }
        requires keeps { KeepsAll graph.now self.old.graph }
        requires path { TakePath graph.now actor path.items }
        ensures continues { OnOk result (Continues self.old self.new) }
        ensures drawn { OnOk result (TakesFrom self.new.graph actor (path_end actor path.items)) }
    {
        let _ = graph;
        let mut at = actor;
        while let Some(next) = path.pop_front() {
            self.gain(actor, Rights::take(), next, at)?;
            at = next;
        }
        Ok(())
    }

    /// As `gain`, of take.
    pub(crate) fn gain_take(&mut self, actor: u64, over: u64, from: u64) -> Result<(), AllocError>
        requires actor { IsActor self.old.graph actor }
        requires draws { TakesFrom self.old.graph actor from }
        requires held { Holds self.old.graph from take_alone over }
        ensures continues { OnOk result (Continues self.old self.new) }
        ensures gained { OnOk result (actor ≢ over → Holds self.new.graph actor take_alone over) }
    {
        self.gain(actor, Rights::take(), over, from)
    }

    /// As `gain`, of grant.
    pub(crate) fn gain_grant(&mut self, actor: u64, over: u64, from: u64) -> Result<(), AllocError>
        requires actor { IsActor self.old.graph actor }
        requires draws { TakesFrom self.old.graph actor from }
        requires held { Holds self.old.graph from grant_alone over }
        ensures continues { OnOk result (Continues self.old self.new) }
        ensures gained { OnOk result (actor ≢ over → Holds self.new.graph actor grant_alone over) }
    {
        self.gain(actor, Rights::grant(), over, from)
    }

    /// As `give`, of take.
    pub(crate) fn give_take(&mut self, actor: u64, over: u64, to: u64) -> Result<(), AllocError>
        requires actor { IsActor self.old.graph actor }
        requires gives { Gives self.old.graph actor to }
        requires held { Holds self.old.graph actor take_alone over }
        requires apart { to ≢ over }
        ensures continues { OnOk result (Continues self.old self.new) }
        ensures given { OnOk result (Holds self.new.graph to take_alone over) }
    {
        self.give(actor, Rights::take(), over, to)
    }

    /// As `give`, of grant.
    pub(crate) fn give_grant(&mut self, actor: u64, over: u64, to: u64) -> Result<(), AllocError>
        requires actor { IsActor self.old.graph actor }
        requires gives { Gives self.old.graph actor to }
        requires held { Holds self.old.graph actor grant_alone over }
        requires apart { to ≢ over }
        ensures continues { OnOk result (Continues self.old self.new) }
        ensures given { OnOk result (Holds self.new.graph to grant_alone over) }
    {
        self.give(actor, Rights::grant(), over, to)
    }

    /// Passes a load on, by a vertex from which the giver can take and to which the taker can give: the taker makes a
    /// document, over which the giver comes to have grant. `None` if no serial is left; which number is returned
    /// otherwise does not matter.
    pub(crate) fn push(
        &mut self,
        giver: u64,
        taker: u64,
        by: u64,
        load: &Load,
    ) -> Result<Option<u64>, AllocError>
        requires giver { IsActor self.old.graph giver }
        requires taker { IsActor self.old.graph taker }
        requires draws { TakesFrom self.old.graph giver by }
        requires gives { Gives self.old.graph taker by }
        requires held { Holds self.old.graph giver load.now.rights load.now.over }
        requires some { is_none load.now.rights ≡ false }
        requires apart { taker ≢ load.now.over }
        requires low { by < self.old.graph.next }
        ensures continues { OnOk result (Continues self.old self.new) }
        ensures passed { IfOk result (λ o. MatchOption o (last_serial < self.new.graph.next) (λ _. Holds self.new.graph taker load.now.rights load.now.over)) }
    {
        if giver == taker {
            return Ok(Some(giver));
        }
        self.graph.soundness();
        let Some(document) = self.make(taker, Kind::Document)? else {
            return Ok(None);
        };
        self.give_grant(taker, document, by)?;
        self.gain_grant(giver, document, by)?;
        self.give(giver, load.rights, load.over, document)?;
        self.gain(taker, load.rights, load.over, document)?;
        Ok(Some(document))
    }

    /// Passes a load on, by a vertex to which the giver can give and from which the taker can take.
    pub(crate) fn pull(
        &mut self,
        giver: u64,
        taker: u64,
        by: u64,
        load: &Load,
    ) -> Result<(), AllocError>
        requires giver { IsActor self.old.graph giver }
        requires taker { IsActor self.old.graph taker }
        requires gives { Gives self.old.graph giver by }
        requires draws { TakesFrom self.old.graph taker by }
        requires held { Holds self.old.graph giver load.now.rights load.now.over }
        requires some { is_none load.now.rights ≡ false }
        requires apart { taker ≢ load.now.over }
        requires other { by ≢ load.now.over }
        ensures continues { OnOk result (Continues self.old self.new) }
        ensures passed { OnOk result (Holds self.new.graph taker load.now.rights load.now.over) }
    {
        self.give(giver, load.rights, load.over, by)?;
        self.gain(taker, load.rights, load.over, by)?;
        Ok(())
    }
}
