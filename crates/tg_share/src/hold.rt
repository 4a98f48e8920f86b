//! The lock, and holds of it. A hold is used up by its one event, and cannot be dropped without it: so nothing but
//! events happens under the lock, and each hold makes one; or none, if no part is left for a session, or if it only
//! reads how much room is left.
ghost use Rattle.std.specs.Prelude.{◌≡◌, ◌⊎◌, ◌+◌, ◌<◌, Err, IfOk, IfErr, OnOk, OnErr, MatchResult};
ghost use Rattle.tg_rights.specs.declared.limits.TheConstants.{SEATS};
ghost use Rattle.tg_vault.specs.declared.event.AskFault.TheVariants as ask_fault;
ghost use Rattle.tg_vault.specs.declared.event.SeatFault.TheVariants as seat_fault;
ghost use Rattle.tg_vault.specs.declared.event.Event.TheVariants as event;
ghost use Rattle.tg_vault.specs.declared.event.Answer.TheVariants as answer;
ghost use Rattle.tg_vault.specs.Promise.Room.{IsRoom};
ghost use Rattle.tg_share.specs.Promise.Reached.{IsAnswered, IsEntered, IsReached};

use crate::locked::Locked;
use std::hint::spin_loop;
use std::marker::Model;
use std::sync::ledger::{Ledger, Share};
use std::sync::{Mutex, MutexGuard, Wait};
use tg_collect::Note;
use tg_rights::{Command, Reply};
use tg_vault::{AskFault, Room, SeatFault};

/// How often the lock is tried before a thread sleeps until it is free.
const TRIES: u32 = 1_000;

/// The one lock. What lies under it is reached by a hold, until it is taken out.
#[derive(Drop)]
pub struct Lock<L: Ledger> {
    mutex: Mutex<Locked<L>>,
}

/// A hold of the lock. Contracts see the vault that lies under it.
pub struct Hold<'a, L: Ledger> {
    guard: MutexGuard<'a, Locked<L>>,
}

impl<'a, L: Ledger> Model for Hold<'a, L> {
    ghost use Rattle.std.specs.Sync.Mutex.{mutex_guard_value};
    ghost use Rattle.tg_vault.specs.Promise.Contents.{Contents};
    ghost use Rattle.tg_vault.specs.Inner.Contents.{contents_code};

    ghost Value = { Contents };

    ghost coded = { contents_code };

    ghost view = { λ h. (mutex_guard_value h.guard).vault };
}

impl<L: Ledger> Lock<L> {
    /// Puts this under a lock.
    pub fn new(locked: Locked<L>) -> Lock<L> {
        Lock {
            mutex: Mutex::new(locked),
        }
    }

    /// Takes the lock. It is tried for a while before the thread sleeps, since no hold lasts long, and a thread that
    /// sleeps makes the next ones sleep as well.
    pub fn hold<R: Wait>(&self, rt: &R) -> Hold<'_, L> {
        for _ in 0..TRIES {
            if let Some(guard) = self.mutex.try_lock() {
                return Hold { guard };
            }
            spin_loop();
        }
        Hold {
            guard: self.mutex.lock(rt),
        }
    }

    /// What lies under the lock.
    pub fn into_inner(self) -> Locked<L> {
        let Lock { mutex } = self;
        mutex.into_inner()
    }
}

impl<'a, L: Ledger> Hold<'a, L> {
    /// The event hello. A session that it seats gets a part with nothing counted; if only the last part is left, there
    /// is no event, and the fault is `NoSeat` too.
    pub fn hello(self, seat: u64, name: &str) -> Result<(u64, Share<L>), SeatFault>
        ensures event { MatchResult result (λ r. IsAnswered self.entry (event.Hello seat name.now) (answer.Hello r.0)) (λ fault. (fault ≡ seat_fault.NoSeat) ⊎ IsAnswered self.entry (event.Hello seat name.now) (answer.Seat fault)) }
        ensures seat { OnOk result (seat < SEATS) }
        ensures share { IfOk result (λ r. (r.1.parts ≡ 1) × (r.1.amount ≡ 0)) }
        ensures faults { IfErr result (λ fault. (fault ≡ seat_fault.NoSeat) ⊎ ((fault ≡ seat_fault.Bound) ⊎ (fault ≡ seat_fault.NoPrincipal))) }
    {
        let Hold { mut guard } = self;
        guard.hello(seat, name)
    }

    /// The event ask. If it enters the command, the share grows by one, and the result has the entry's actor as well as
    /// the reply.
    pub fn ask(
        self,
        seat: u64,
        command: Command,
        share: &mut Share<L>,
    ) -> Result<(u64, Reply), AskFault>
        requires { 0 < share.old.parts }
        ensures event { MatchResult result (λ r. IsEntered self.entry seat r.0 command r.1) (λ fault. IsAnswered self.entry (event.Ask seat command) (answer.Ask fault)) }
        ensures counted { OnOk result (share.new.amount ≡ share.old.amount + 1) }
        ensures uncounted { OnErr result (share.new.amount ≡ share.old.amount) }
        ensures parts { share.new.parts ≡ share.old.parts }
        ensures no_seat { seat < SEATS → result ≡ Err ask_fault.NoSeat → ⊥ }
    {
        let Hold { mut guard } = self;
        guard.ask(seat, command, share)
    }

    /// No event: how much room the vault has left.
    pub fn room(self) -> Room
        ensures room { IsRoom self.entry result }
        ensures reached { IsReached self.entry }
    {
        let Hold { guard } = self;
        let locked = &*guard;
        locked.vault.room()
    }

    /// The event shade.
    pub fn shade(self, seat: u64) -> Result<Option<u64>, SeatFault>
        ensures { MatchResult result (λ target. IsAnswered self.entry (event.Shade seat) (answer.Shaded target)) (λ fault. IsAnswered self.entry (event.Shade seat) (answer.Seat fault)) }
    {
        let Hold { mut guard } = self;
        guard.shade(seat)
    }

    /// The event collect.
    pub fn collect(self) -> Note
        ensures { IsAnswered self.entry event.Collect (answer.Noted result) }
    {
        let Hold { mut guard } = self;
        guard.collect()
    }

    /// The event bye.
    pub fn bye(self, seat: u64) -> Result<(), SeatFault>
        ensures { MatchResult result (λ _. IsAnswered self.entry (event.Bye seat) answer.Bye) (λ fault. IsAnswered self.entry (event.Bye seat) (answer.Seat fault)) }
    {
        let Hold { mut guard } = self;
        guard.bye(seat)
    }
}
