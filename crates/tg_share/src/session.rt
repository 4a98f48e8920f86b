//! What threads call: sessions on seats, and the collector's steps.
ghost use Rattle.std.specs.Prelude.{◌≡◌, ◌⊎◌, ◌+◌, ◌-◌, ◌<◌, ◌≤◌, [], length, slice_get, Some, Err, IfOk, IfErr, OnOk, OnErr};
ghost use Rattle.tg_vault.specs.declared.event.AskFault.TheVariants as ask_fault;
ghost use Rattle.tg_vault.specs.declared.event.SeatFault.TheVariants as seat_fault;
ghost use Rattle.tg_vault.specs.declared.event.Event.TheVariants as event;
ghost use Rattle.tg_vault.specs.declared.event.Answer.TheVariants as answer;
ghost use Rattle.tg_audit.specs.declared.logs.Exchange.{Exchange};
ghost use Rattle.tg_share.specs.declared.locked.TheConstants.{PARTS};
ghost use Rattle.tg_share.specs.Promise.Reached.{HasAnswered, HasRoom};
ghost use Rattle.tg_share.specs.Promise.Sessions.{Grows, IsRefused};

use crate::gate::{Gate, Place};
use crate::hold::Lock;
use crate::locked::Locked;
use std::alloc::Global;
use std::marker::Model;
use std::rt::Clock;
use std::sync::Wait;
use std::sync::ledger::{Blank, Ledger, Share};
use tg_audit::{Exchange, SeatLog};
use tg_rights::{Command, Reply};
use tg_vault::{AskFault, Room, SeatFault, Vault};

/// One vault for many threads, under one lock. Nothing but events happens to it there, and a hold of the lock is used
/// up by its event: a session makes its copies and keeps its log with the lock free.
#[derive(Drop)]
pub struct Shared<L: Ledger> {
    pub(crate) locked: Lock<L>,
    pub(crate) alloc: Global,
}

/// What the collector's steps did.
#[derive(Clone, Copy, PartialEq, Eq, Debug)]
pub struct Worked {
    /// The slots that were freed.
    pub freed: u64,
    /// The cycles that ended.
    pub ended: u64,
}

/// A principal on a seat, with a log of the commands that were submitted there, each with its actor and its reply, and
/// a share of the ledger that counts the log. It has to be ended: it cannot be dropped.
pub struct Session<'a, L: Ledger> {
    shared: &'a Shared<L>,
    alloc: Global,
    seat: u64,
    actor: u64,
    log: Vec<Exchange>,
    share: Share<L>,
}

impl<'a, L: Ledger> Model for Session<'a, L> {
    ghost use Rattle.std.specs.Prelude.{◌≡◌, ◌<◌, length};
    ghost use Rattle.tg_rights.specs.declared.limits.TheConstants.{SEATS};
    ghost use Rattle.tg_share.specs.Promise.Sessions.{Sitting};

    ghost Value = { Sitting };

    ghost view = { λ s. record { seat = s.seat; actor = s.actor; log = s.log.items; counted = s.share.amount } };

    ghost invariant = { λ s. (s.seat < SEATS) × (s.share.parts ≡ 1) × (s.share.amount ≡ length s.log.items) };
}

/// What is left of a session: its log, its principal and its share, which counts the log.
#[derive(Drop)]
pub struct Ended<L: Ledger> {
    pub log: SeatLog,
    pub actor: u64,
    pub(crate) share: Share<L>,
    ghost one_part: { share.parts ≡ 1 },
    ghost counted: { share.amount ≡ length log.exchanges.items },
}

impl<L: Ledger> Shared<L> {
    /// Puts a vault without entries under a lock, with the blank as the ledger of its entries. Allocates nothing.
    pub fn new(alloc: Global, blank: Blank, vault: Vault) -> Shared<L>
        requires name { blank.name ≡ L.name }
        requires parts { blank.parts ≡ L.parts }
        requires all { blank.parts ≡ PARTS }
        requires empty { vault.history ≡ [] }
    {
        let (entries, rest) = blank.open::<L>();
        Shared {
            locked: Lock::new(Locked::new(vault, entries, rest)),
            alloc,
        }
    }

    /// Seats the principal of this name by the event hello. The session begins with an empty log, for which it keeps
    /// the allocator; the call allocates nothing. Faults, in this order: `NoSeat` if `PARTS - 1` sessions were given,
    /// ended or not, and then there is no event; `NoSeat` for a seat above 63, `Bound` for one in use, `NoPrincipal` if
    /// no active principal has the name.
    pub fn session<R: Wait>(
        &self,
        rt: &R,
        alloc: Global,
        seat: u64,
        name: &str,
    ) -> Result<Session<'_, L>, SeatFault>
        ensures ok { IfOk result (λ s. (s.seat ≡ seat) × (s.log ≡ []) × (s.counted ≡ 0)) }
        ensures seated { IfOk result (λ s. HasAnswered (event.Hello seat name.now) (answer.Hello s.actor)) }
        ensures err { IfErr result (λ fault. (fault ≡ seat_fault.NoSeat) ⊎ ((fault ≡ seat_fault.Bound) ⊎ (fault ≡ seat_fault.NoPrincipal))) }
        ensures refused { IfErr result (λ fault. (fault ≡ seat_fault.NoSeat) ⊎ HasAnswered (event.Hello seat name.now) (answer.Seat fault)) }
    {
        let (actor, share) = self.locked.hold(rt).hello(seat, name)?;
        Ok(Session {
            shared: self,
            alloc,
            seat,
            actor,
            log: Vec::new(alloc),
            share,
        })
    }

    /// How much room the vault has left, under a hold of its own that makes no event. Allocates nothing.
    pub fn room<R: Wait>(&self, rt: &R) -> Room
        ensures { HasRoom result }
    {
        self.locked.hold(rt).room()
    }

    /// Makes this many steps of the collector, each the event collect under a hold of its own, with a pause after each
    /// but the last. Allocates nothing.
    pub fn collector<R: Wait + Clock, G: Gate>(&self, rt: &R, steps: u64, gate: &G) -> Worked
        ensures freed { result.freed ≤ steps }
        ensures ended { result.ended ≤ steps }
    {
        let mut worked = Worked { freed: 0, ended: 0 };
        for step in 0..steps {
            if step > 0 {
                gate.pause(rt, Place::BetweenSteps);
            }
            let note = self.locked.hold(rt).collect();
            worked.freed += note.freed;
            if note.ended {
                worked.ended += 1;
            }
        }
        worked
    }
}

impl<'a, L: Ledger> Session<'a, L> {
    /// The serial of the principal, whomever the seat acts for.
    pub fn actor(&self) -> u64
        ensures { result ≡ self.now.actor }
    {
        self.actor
    }

    /// Submits the command, and enters the exchange in the log.
    fn carry_out<R: Wait + Clock, G: Gate>(
        &mut self,
        rt: &R,
        command: Command,
        gate: &G,
    ) -> Result<(), AskFault>
        ensures ok { OnOk result ((reply : Reply) × Grows self.old self.new command reply) }
        ensures err { OnErr result (self.new ≡ self.old) }
        ensures refused { IfErr result (λ fault. IsRefused self.old.seat command fault) }
        ensures no_seat { result ≡ Err ask_fault.NoSeat → ⊥ }
    {
        let Ok(()) = self.log.try_reserve(1) else {
            return Err(AskFault::OutOfMemory);
        };
        let Ok(asked) = command.copy(self.alloc) else {
            return Err(AskFault::OutOfMemory);
        };
        let (actor, reply) = self
            .shared
            .locked
            .hold(rt)
            .ask(self.seat, asked, &mut self.share)?;
        gate.pause(rt, Place::AfterStore);
        gate.after_entry(rt, &command, &reply);
        // The session has the seat, so there is no fault; no clause says so.
        let _ = self.shared.locked.hold(rt).shade(self.seat);
        let Ok(()) = self.log.push(Exchange {
            actor,
            command,
            reply,
        })
        else {
            unreachable!()
        };
        Ok(())
    }

    /// The reply of the last exchange of the log, which has one.
    fn last_reply(&self) -> &Reply
        requires { 0 < length self.now.log }
        ensures { (x : Exchange) → slice_get self.now.log (length self.now.log - 1) ≡ Some x → result.now ≡ x.reply }
    {
        &self.log[self.log.len() - 1].reply
    }

    /// Empties the seat by the event bye, and returns the log, the principal and the share. Allocates nothing.
    pub fn end<R: Wait>(self, rt: &R) -> Ended<L>
        ensures seat { result.log.seat ≡ self.entry.seat }
        ensures log { result.log.exchanges.items ≡ self.entry.log }
        ensures actor { result.actor ≡ self.entry.actor }
    {
        let Session {
            shared,
            alloc: _,
            seat,
            actor,
            log,
            share,
        } = self;
        // The session has the seat, and `submit` leaves no target there, so there is no fault; no clause says so.
        let _ = shared.locked.hold(rt).bye(seat);
        Ended {
            log: SeatLog {
                seat,
                exchanges: log,
            },
            actor,
            share,
        }
    }
}

impl<'a, L: Ledger> Session<'a, L> {
    ghost use Rattle.std.specs.Prelude.{◌≡◌, Err};
    ghost use Rattle.std.specs.Borrow.{sem};
    ghost use Rattle.std.specs.Io.BufRead.{Rests};
    ghost use mir.Syntax.{named};
    ghost use Rattle.tg_vault.specs.declared.event.AskFault.TheVariants as ask_fault;
    ghost use Rattle.tg_share.specs.contracts.session.Session.{the_row};
    ghost use Rattle.tg_share.specs.Promise.Sessions.{HasAsked};

    /// Submits the command by the event ask, pauses, and shades what it left as the seat's target by the event shade.
    /// The reply is that of the last exchange of the log, whose actor is the entry's: the one for whom the seat acts,
    /// or else its principal. After a fault the log is as before, nothing is entered and the command is dropped.
    /// Faults, in this order: `OutOfMemory`, without an event, if there is no memory for the log or for a copy of the
    /// command; then those of `Vault::command`, never `NoSeat`.
    pub fn submit<R: Wait + Clock, G: Gate>(
        &mut self,
        rt: &R,
        command: Command,
        gate: &G,
    ) -> Result<&Reply, AskFault>
        ensures* asked { sem 𝓛 (Rests (the_row (record { mir = named 0; lft = [] }) L.row L.Ledger) self.entry (HasAsked self.old command result)) }
        ensures no_seat { result ≡ Err ask_fault.NoSeat → ⊥ }
    {
        self.carry_out(rt, command, gate)?;
        Ok(self.last_reply())
    }
}
