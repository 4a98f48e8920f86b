//! What a vault shows.
ghost use Rattle.std.specs.Prelude.{◌≡◌, ◌<◌, length, IfOk, OnOk};
ghost use Rattle.tg_rights.specs.declared.limits.TheConstants.{SEATS};
ghost use Rattle.tg_collect.specs.Promise.Readings.{agent_of};
ghost use Rattle.tg_vault.specs.Promise.Scenes.{IsScene, sitting, sitting_of, sittings_below, with_sitting};

use crate::seats::at_seat;
use crate::vault::Vault;
use std::alloc::AllocError;
use tg_collect::{Figure, Phase, Store};
use tg_graph::Roll;
use tg_rights::{Rights, SEATS};

/// A seat that somebody has: who sits there, for whom the seat acts if it acts for another, and its pending target.
#[derive(Clone, Copy, PartialEq, Eq, Debug, Drop)]
pub struct Sitting {
    pub seat: u64,
    pub principal: u64,
    pub agent: Option<u64>,
    pub target: Option<u64>,
}

/// What a vault shows at one moment, without the texts of its documents.
#[derive(Drop)]
pub struct Scene {
    /// Each vertex that has a slot, by rising serial, whether it is held or waits to be swept.
    pub vertices: Vec<Figure>,
    /// The edges between these, by rising pairs of ends.
    pub edges: Vec<(u64, Rights, u64)>,
    /// The active principals.
    pub names: Roll,
    /// The seats that somebody has, by rising number. Whoever has retired may sit there without a slot.
    pub seats: Vec<Sitting>,
    /// How many slots are free.
    pub free_slots: u32,
    /// How many cells are free.
    pub free_cells: u32,
    /// The collector's phase.
    pub phase: Phase,
}

impl Vault {
    /// What the vault shows now. The only error is that an allocation failed.
    pub fn scene(&self) -> Result<Scene, AllocError>
        ensures { IfOk result (IsScene self.now) }
    {
        let (vertices, edges) = self.state.store.figures(self.alloc)?;
        let names = self.state.names.copy(self.alloc)?;
        let seats = self.sittings()?;
        let slots_left = self.state.store.free_slots();
        let cells_left = self.state.store.free_cells();
        let phase_now = self.state.store.phase();
        Ok(Scene {
            vertices,
            edges,
            names,
            seats,
            free_slots: slots_left,
            free_cells: cells_left,
            phase: phase_now,
        })
    }

    /// The seats that somebody has, by rising number.
    fn sittings(&self) -> Result<Vec<Sitting>, AllocError>
        ensures { IfOk result (λ found. found.items ≡ sittings_below self.now (length self.now.seats)) }
    {
        self.soundness();
        let mut found = Vec::new(self.alloc);
        for seat in 0..SEATS {
            let taken = self.sitting(seat);
            add_sitting(&mut found, taken)?;
        }
        Ok(found)
    }

    /// What a seat shows, if somebody has it.
    fn sitting(&self, seat: u64) -> Option<Sitting>
        requires { seat < SEATS }
        ensures { result ≡ sitting self.now seat }
    {
        let seats = self.seats.as_slice();
        let who = at_seat(seats, seat);
        let whom = agent_at(&self.state.store, seat);
        let what = self.state.store.pending(seat);
        sitting_of(seat, who, whom, what)
    }
}

/// For whom a seat acts, if it acts for another.
fn agent_at(store: &Store, seat: u64) -> Option<u64>
    requires { seat < SEATS }
    ensures { result ≡ agent_of store.now seat }
{
    match store.agent(seat) {
        None => None,
        Some((serial, _)) => Some(serial),
    }
}

/// A seat of this principal, if it has one.
fn sitting_of(
    seat: u64,
    principal: Option<u64>,
    agent: Option<u64>,
    target: Option<u64>,
) -> Option<Sitting>
    ensures { result ≡ sitting_of seat principal agent target }
{
    match principal {
        None => None,
        Some(principal) => Some(Sitting {
            seat,
            principal,
            agent,
            target,
        }),
    }
}

/// Adds a seat at the end, if somebody has it.
fn add_sitting(found: &mut Vec<Sitting>, sitting: Option<Sitting>) -> Result<(), AllocError>
    ensures { OnOk result (found.new.items ≡ with_sitting found.old.items sitting) }
{
    match sitting {
        None => Ok(()),
        Some(sitting) => {
            found.push(sitting)?;
            Ok(())
        }
    }
}
