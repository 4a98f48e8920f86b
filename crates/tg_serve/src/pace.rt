//! The collector's pace. Its own thread makes few steps and rests; a session that makes a vertex while less than half
//! is free makes steps too. With up to three edges a slot, these are enough for two cycles to end before the last slot
//! is taken, however slow that thread is. No contract says so.

use crate::budget::Budget;
use crate::desk::Desk;
use crate::door::Door;
use std::rt::Clock;
use std::sync::Wait;
use std::sync::ledger::Ledger;
use tg_rights::{Command, Reply};
use tg_share::{Gate, Open, Place, Shared, Worked};
use tg_vault::Room;

/// How long the collector's thread rests between two turns, in microseconds.
pub(crate) const REST: u64 = 2_000;

/// Its steps in a turn.
const STEPS: u64 = 150;

/// Its steps in a turn while nothing is left to be freed.
const IDLE_STEPS: u64 = 50;

/// A cycle takes up to three steps for each slot, and one for each edge. From half to none the steps of sessions are
/// nineteen for each slot, of which a cycle that is under way and two whole ones take eighteen at three edges a slot.
const STEPS_A_SLOT: u64 = 8;

/// What the collector's thread knows of its last turns.
#[derive(Clone, Copy, Debug, PartialEq, Eq)]
pub(crate) struct Pace {
    /// How much was free at the last look.
    room: Room,
    /// Whether this cycle freed a slot, or something was taken or given up since it began.
    has_changed: bool,
    /// How many whole cycles in a row freed nothing, while nothing was taken or given up.
    quiet: u64,
}

impl Pace {
    /// The pace before the first turn, with this much room.
    pub(crate) fn new(room: Room) -> Pace {
        Pace {
            room,
            has_changed: true,
            quiet: 0,
        }
    }

    /// Notes how much room there is before a turn, and returns how many steps this has: few after two cycles in which
    /// nothing was taken or given up, since what nobody can reach has no slot then.
    pub(crate) fn steps(&mut self, room: Room) -> u64 {
        if room != self.room {
            self.has_changed = true;
            self.quiet = 0;
        }
        self.room = room;
        if self.quiet > 1 { IDLE_STEPS } else { STEPS }
    }

    /// Notes what a turn did.
    pub(crate) fn learn(&mut self, worked: Worked) {
        self.has_changed = self.has_changed || worked.freed > 0;
        if worked.ended > 0 {
            self.quiet = if self.has_changed {
                0
            } else {
                self.quiet.saturating_add(1)
            };
            self.has_changed = false;
        }
    }
}

/// The steps that a session makes after it made a vertex: none while half of the slots and half of the cells are free;
/// below that, the fewer are free, the more steps, until an eighth is left.
pub(crate) fn assist_steps(room: Room) -> u64 {
    let slots = assist_steps_for(room.free_slots, room.slots);
    let cells = assist_steps_for(room.free_cells, room.cells);
    slots.max(cells)
}

/// The steps for this many free of all.
fn assist_steps_for(free: u64, all: u64) -> u64 {
    if free >= all / 2 {
        0
    } else {
        all.saturating_mul(STEPS_A_SLOT) / free.max(all / 8).max(1)
    }
}

/// The gate of a server's sessions. What is entered counts towards the memory of the round, whose door closes once that
/// is used up. A session that makes a vertex also assists the collector by these steps, with the lock free between any
/// two.
#[derive(Drop)]
pub(crate) struct Assisting<'a, L: Ledger> {
    pub(crate) shared: &'a Shared<L>,
    pub(crate) budget: &'a Budget,
    pub(crate) door: &'a Door<'a>,
    pub(crate) desk: &'a Desk,
}

impl<'a, L: Ledger> Gate for Assisting<'a, L> {
    fn pause<R: Wait + Clock>(&self, _rt: &R, _place: Place) {}

    fn after_entry<R: Wait + Clock>(&self, rt: &R, command: &Command, reply: &Reply) {
        if self.budget.keep(command, reply) {
            self.door.close();
        }
        self.desk.count_entry();
        if !matches!(reply, Reply::Created(_)) {
            return;
        }
        let steps = assist_steps(self.shared.room(rt));
        self.desk.note_work(self.shared.collector(rt, steps, &Open));
    }
}
