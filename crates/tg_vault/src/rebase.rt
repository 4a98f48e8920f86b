//! A vault whose history begins anew with what is live.
ghost use Rattle.std.specs.Prelude.{◌≡◌, true, [], filter, map, IfOk, IfSome, IfNone, Some};
ghost use Rattle.std.specs.FinSet as set;
ghost use Rattle.tg_graph.specs.Promise.Parts.{Listed};
ghost use Rattle.tg_graph.specs.Inner.Parts.{members_of};
ghost use Rattle.tg_graph.specs.Promise.Protection.{has_retired};
ghost use Rattle.tg_collect.specs.Promise.Readings.{phase};
ghost use Rattle.tg_collect.specs.declared.note.Phase.TheVariants.{Idle};
ghost use Rattle.tg_vault.specs.Promise.Contents.{graph_now};
ghost use Rattle.tg_vault.specs.Promise.Rebase.{HandsOver, IsNone, Rebases, ThreeCycles};
ghost use Rattle.tg_vault.specs.Inner.Rebase.{reopening};
ghost use Rattle.tg_vault.specs.Inner.Seen.{set_of};
ghost use Rattle.tg_vault.specs.Promise.World.{IsLeastInUse, NobodySits};

use crate::entry::Entry;
use crate::seats::first_in_use;
use crate::vault::Vault;
use std::alloc::{AllocError, Global};
use std::collections::BTreeSet;
use std::mem;
use tg_collect::runs_are_complete_and_bounded;
use tg_graph::{
    Graph, Member, Parts, parts_are_one_graph, restrictions_agree, restrictions_permit,
    restrictions_reply, restrictions_stay,
};
use tg_rights::{Kind, Name, Text};

/// What a rebase leaves.
#[derive(Drop)]
pub enum Rebased {
    /// The opening graph is what was live; the history, which had this many entries, has been dropped.
    Fresh { vault: Vault, dropped: u64 },
    /// This is the least seat that is in use; the vault is as before.
    Seated { vault: Vault, seat: u64 },
    /// An allocation failed; the vault is as after three cycles, with its whole history.
    NoMemory { vault: Vault },
}

/// What a rebase takes out of a vault.
#[derive(Drop)]
pub struct Past {
    /// The entries of the history, in order.
    pub history: Vec<Entry>,
    /// The opening graph.
    pub opening: Option<Graph>,
}

impl Past {
    fn none(alloc: Global) -> Past
        ensures { IsNone result }
    {
        Past {
            history: Vec::new(alloc),
            opening: None,
        }
    }
}

impl Vault {
    /// Returns `Seated`, and changes nothing, if somebody has a seat, even where memory is lacking. Otherwise makes
    /// three cycles, makes what is live the opening graph, and drops the history. Names, the next serial and the
    /// numbers of slots and cells stay, and so does the store, which then holds what is live and nothing else; of those
    /// who have retired the vault keeps the ones that are held. `NoMemory` if an allocation failed, after the cycles,
    /// with the whole history.
    ///
    /// The new opening graph is the graph of the history restricted to its live vertices, agrees with it for each
    /// principal, and each history that is legal from the new graph is legal from the old one's, with the same replies,
    /// and leads to a restriction again: so nobody can tell that there was a rebase, or several.
    pub fn rebase(self) -> Rebased
        ensures { Rebases self result }
    {
        let (rebased, past) = self.rebase_with_past();
        drop(past);
        rebased
    }

    /// As `rebase`, and returns what that drops: the whole history and the opening graph if the vault is fresh,
    /// otherwise nothing. They are moved, not copied, so that the history can be kept, and both can be dropped later,
    /// without lengthening the rebase.
    pub fn rebase_with_past(self) -> (Rebased, Past)
        ensures rebased { Rebases self result.0 }
        ensures past { HandsOver self result.0 result.1 }
    {
        let none = Past::none(self.alloc);
        match self.first_taken() {
            Some(seat) => (Rebased::Seated { vault: self, seat }, none),
            None => self.begin_anew(none, None),
        }
    }

    /// As `rebase_with_past`, given the graph of the vault's history, as a replay leaves it: what is live of that
    /// becomes the opening graph, and none has to be made. Allocates nothing if all of it is live, and otherwise once,
    /// for the serials of what is.
    pub fn rebase_with_graph(self, graph: Graph) -> (Rebased, Past)
        requires { graph ≡ graph_now self }
        ensures rebased { Rebases self result.0 }
        ensures past { HandsOver self result.0 result.1 }
    {
        let none = Past::none(self.alloc);
        match self.first_taken() {
            Some(seat) => (Rebased::Seated { vault: self, seat }, none),
            None => self.begin_anew(none, Some(graph)),
        }
    }

    /// The entries of the history, in order. All else of the vault is dropped.
    pub fn into_history(self) -> Vec<Entry>
        ensures { result.items ≡ self.history }
    {
        let Vault {
            alloc: _,
            opening,
            slots: _,
            cells: _,
            seats,
            state,
            history,
        } = self;
        drop(opening);
        drop(seats);
        drop(state);
        history
    }

    /// The least seat that somebody has.
    fn first_taken(&self) -> Option<u64>
        ensures some { IfSome result (IsLeastInUse self.now.seats) }
        ensures none { IfNone result (NobodySits self.now.seats) }
    {
        let seats = self.seats.as_slice();
        first_in_use(seats)
    }

    /// The rebase of a vault with nobody on a seat, and what it drops, or nothing. The graph of the history is passed
    /// in, if it is known.
    fn begin_anew(self, none: Past, graph: Option<Graph>) -> (Rebased, Past)
        requires nobody { NobodySits self.seats }
        requires graph { IfSome graph (λ g. g ≡ graph_now self) }
        requires none { IsNone none }
        ensures rebased { Rebases self result.0 }
        ensures past { HandsOver self result.0 result.1 }
    {
        let mut vault = self;
        vault.soundness();
        vault.cycle_thrice();
        vault.soundness();
        runs_are_complete_and_bounded();
        restrictions_agree();
        restrictions_permit();
        restrictions_stay();
        restrictions_reply();
        match vault.opening_anew(graph) {
            Ok(opening) => {
                let dropped = vault.count();
                let past = vault.reopen(opening, none.history);
                (Rebased::Fresh { vault, dropped }, past)
            }
            Err(_) => (Rebased::NoMemory { vault }, none),
        }
    }

    /// Three cycles, one after another.
    fn cycle_thrice(&mut self)
        ensures { ThreeCycles self.old self.new }
    {
        self.cycle();
        self.cycle();
        self.cycle();
    }

    /// What is held, as a graph of its own, and with it those of the retired that are held: what is left of the graph
    /// of the history, if that is passed in.
    fn opening_anew(&self, graph: Option<Graph>) -> Result<Graph, AllocError>
        requires graph { IfSome graph (λ g. g ≡ graph_now self.now) }
        requires idle { phase self.now.store ≡ Idle }
        ensures { IfOk result (λ opening. opening ≡ reopening self.now) }
    {
        match graph {
            Some(whole) => self.left_of(whole),
            None => self.live_graph(),
        }
    }

    /// What is held of the graph of the history. If that is all of it, it allocates nothing, and otherwise once.
    fn left_of(&self, whole: Graph) -> Result<Graph, AllocError>
        requires whole { whole ≡ graph_now self.now }
        requires idle { phase self.now.store ≡ Idle }
        ensures { IfOk result (λ opening. opening ≡ reopening self.now) }
    {
        if self.holds_all(&whole) {
            return Ok(whole);
        }
        self.soundness();
        let held = self.state.store.serials(self.alloc)?;
        let mut graph = whole;
        graph.restrict(held.as_slice());
        Ok(graph)
    }

    /// Whether all of the graph of the history is held.
    fn holds_all(&self, whole: &Graph) -> bool
        requires whole { whole.now ≡ graph_now self.now }
        requires idle { phase self.now.store ≡ Idle }
        ensures { result ≡ true → graph_now self.now ≡ reopening self.now }
    {
        self.soundness();
        let held = self.slots - u64::from(self.state.store.free_slots());
        whole.vertex_count() == held && whole.has_all_retired()
    }

    /// What is held, as a graph of its own, and with it those of the retired that are held.
    fn live_graph(&self) -> Result<Graph, AllocError>
        ensures { IfOk result (λ graph. graph ≡ reopening self.now) }
    {
        self.state.store.soundness();
        parts_are_one_graph();
        let (vertices, edges) = self.state.store.parts(self.alloc)?;
        let listed = vertices.as_slice();
        let retired = retired_among(self.alloc, &self.state.retired, listed)?;
        let members = self.state.names.as_slice();
        let names = pairs_of(self.alloc, members)?;
        let parts = Parts {
            vertices,
            edges,
            names,
            retired,
            next: self.state.next,
        };
        let graph = Graph::from_parts(self.alloc, parts)?;
        Ok(graph)
    }

    /// Replaces the opening graph by that of what is held, and the history by this one without entries; returns the old
    /// ones. Allocates nothing.
    fn reopen(&mut self, opening: Graph, none: Vec<Entry>) -> Past
        requires none { none.items ≡ [] }
        requires nobody { NobodySits self.old.seats }
        requires idle { phase self.old.store ≡ Idle }
        requires opening { opening ≡ reopening self.old }
        ensures fresh { self.new ≡ record self.old { opening = opening; history = [] } }
        ensures history { result.history.items ≡ self.old.history }
        ensures before { result.opening ≡ Some self.old.opening }
    {
        self.state.store.soundness();
        let before = mem::replace(&mut self.opening, opening);
        keep_retired(&mut self.state.retired, &self.opening);
        let history = mem::replace(&mut self.history, none);
        Past {
            history,
            opening: Some(before),
        }
    }
}

/// The serials of those listed that have retired.
fn retired_among(
    alloc: Global,
    retired: &BTreeSet<u64>,
    vertices: &[(u64, Kind, Text)],
) -> Result<Vec<u64>, AllocError>
    ensures { IfOk result (λ found. found.items ≡ filter (λ x. set.contains (set_of retired.now.keys) x) (map (λ (v : Listed). v.0) vertices.now)) }
{
    let mut found = serials_in(alloc, vertices)?;
    found.retain(|serial| retired.contains(serial));
    Ok(found)
}

/// The serials of the vertices, in their order.
fn serials_in(alloc: Global, vertices: &[(u64, Kind, Text)]) -> Result<Vec<u64>, AllocError>
    ensures { IfOk result (λ found. found.items ≡ map (λ (v : Listed). v.0) vertices.now) }
{
    let mut found = Vec::new(alloc);
    for vertex in vertices {
        found.push(vertex.0)?;
    }
    Ok(found)
}

/// Copies of the principals' names, with their serials.
fn pairs_of(alloc: Global, members: &[Member]) -> Result<Vec<(Name, u64)>, AllocError>
    ensures { IfOk result (λ found. members_of found.items ≡ members.now) }
{
    let mut found = Vec::new(alloc);
    for member in members {
        let name = member.name.copy(alloc)?;
        found.push((name, member.serial))?;
    }
    Ok(found)
}

/// Drops those from the set who have not retired in the graph. Allocates nothing.
fn keep_retired(retired: &mut BTreeSet<u64>, opening: &Graph)
    ensures { retired.new.keys ≡ filter (λ x. has_retired opening.now x) retired.old.keys }
{
    retired.retain(|serial| opening.retired(*serial));
}
