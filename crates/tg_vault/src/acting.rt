//! Who acts at a seat.
ghost use Rattle.std.specs.Prelude.{◌≡◌, ◌<◌, Some, true, false};
ghost use Rattle.std.specs.FinSet as set;
ghost use Rattle.tg_lists.specs.Promise.Membership.{Contains};
ghost use Rattle.tg_rights.specs.declared.limits.TheConstants.{SEATS};
ghost use Rattle.tg_collect.specs.Promise.Readings.{agent_of, principals};
ghost use Rattle.tg_vault.specs.Inner.Acting.{IsHere, serial_in};
ghost use Rattle.tg_vault.specs.Inner.Seen.{set_of};
ghost use Rattle.tg_vault.specs.Promise.World.{acting};

use std::collections::BTreeSet;
use tg_collect::Store;
use tg_graph::Spot;

/// Who acts: somebody in a slot, or somebody who has retired and may have none.
#[derive(Clone, Copy)]
pub(crate) enum Actor {
    At(Spot<u32>),
    Gone(u64),
}

impl Actor {
    /// The actor's serial.
    pub(crate) fn serial(self) -> u64
        ensures { result ≡ serial_in self }
    {
        match self {
            Actor::At(spot) => spot.serial,
            Actor::Gone(serial) => serial,
        }
    }
}

/// Who acts at the seat of this principal, who may have retired: the seat's agent, or else the principal. Only an agent
/// is looked up among those who have retired, since a principal of the store has not.
#[inline(always)]
pub(crate) fn acting_at(store: &Store, retired: &BTreeSet<u64>, seat: u64, principal: u64) -> Actor
    requires seat { seat < SEATS }
    requires active { Contains (principals store.now) principal → set.contains (set_of retired.now.keys) principal ≡ false }
    requires gone { (Contains (principals store.now) principal → ⊥) → set.contains (set_of retired.now.keys) principal ≡ true }
    ensures actor { acting (agent_of store.now seat) (Some principal) ≡ Some (serial_in result) }
    ensures here { IsHere store.now (set_of retired.now.keys) result }
{
    match store.agent(seat) {
        Some((serial, _)) if retired.contains(&serial) => Actor::Gone(serial),
        Some((serial, place)) => Actor::At(Spot { serial, place }),
        None => match store.principal(principal) {
            Some(place) => Actor::At(Spot {
                serial: principal,
                place,
            }),
            None => Actor::Gone(principal),
        },
    }
}
