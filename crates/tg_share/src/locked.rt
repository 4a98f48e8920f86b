//! What lies under the lock. Each method that changes the vault is one event, or none; a hold of the lock is used up by
//! one of them. `soundness` after a call of the vault has no effect: it shows that the call was an event.
ghost use Rattle.std.specs.Prelude.{◌≡◌, ◌+◌, ◌<◌, ◌≤◌, [], length, Err, IfOk, OnOk, OnErr, MatchResult};
ghost use Rattle.tg_vault.specs.declared.event.SeatFault.TheVariants as seat_fault;
ghost use Rattle.tg_vault.specs.declared.event.Event.TheVariants as event;
ghost use Rattle.tg_vault.specs.declared.event.Answer.TheVariants as answer;
ghost use Rattle.tg_vault.specs.Promise.Course.{VaultStep};
ghost use Rattle.tg_share.specs.declared.locked.TheConstants.{PARTS};
ghost use Rattle.tg_share.specs.Promise.Reached.{IsEnteredFor, IsReached};

use std::marker::Model;
use std::sync::ledger::{Book, Ledger, Share};
use tg_collect::Note;
use tg_rights::{Command, Reply};
use tg_vault::{AskFault, SeatFault, Vault};

/// The parts that the ledger of entries is cut into: one for each session, and one that stays with the vault.
pub const PARTS: u64 = 4_294_967_295;

/// A vault to which nothing but events has happened since it had no entries, and the ledger that counts its entries:
/// the book has their number, the sessions' shares add up to it. Contracts see the vault, and how many parts were
/// given.
#[derive(Drop)]
pub struct Locked<L: Ledger> {
    pub vault: Vault,
    pub entries: Book<L>,
    /// The parts that no session has; no entry is counted here.
    pub rest: Share<L>,
    /// How many sessions were given a part.
    pub given: u64,
}

impl<L: Ledger> Model for Locked<L> {
    ghost use Rattle.tg_share.specs.Promise.Reached.{UnderLock};
    ghost use Rattle.tg_share.specs.Inner.UnderLock.{IsLocked, under_lock_code};

    ghost Value = { UnderLock };

    ghost coded = { under_lock_code };

    ghost view = { λ l. record { vault = l.vault; given = l.given } };

    ghost invariant = { λ l. IsLocked l.vault l.entries.total l.rest.parts l.rest.amount l.given };
}

impl<L: Ledger> Locked<L> {
    /// A vault without entries, the book that counts its entries, and all parts of that ledger.
    pub fn new(vault: Vault, entries: Book<L>, rest: Share<L>) -> Locked<L>
        requires empty { vault.history ≡ [] }
        requires total { entries.total ≡ 0 }
        requires parts { rest.parts ≡ PARTS }
        requires amount { rest.amount ≡ 0 }
        ensures { result.vault ≡ vault }
    {
        vault.soundness();
        Locked {
            vault,
            entries,
            rest,
            given: 0,
        }
    }

    /// The event hello; no event if only the last part is left. A session that it seats gets a part with nothing
    /// counted.
    pub fn hello(&mut self, seat: u64, name: &str) -> Result<(u64, Share<L>), SeatFault>
        ensures event { self.old.given + 1 < PARTS → MatchResult result (λ r. VaultStep self.old.vault (event.Hello seat name.now) (answer.Hello r.0) self.new.vault) (λ fault. VaultStep self.old.vault (event.Hello seat name.now) (answer.Seat fault) self.new.vault) }
        ensures none { PARTS ≤ self.old.given + 1 → (result ≡ Err seat_fault.NoSeat) × (self.new.vault ≡ self.old.vault) }
        ensures reached { self.old.given + 1 < PARTS → IsReached self.old.vault }
        ensures share { IfOk result (λ r. (r.1.parts ≡ 1) × (r.1.amount ≡ 0)) }
        ensures given { OnOk result (self.new.given ≡ self.old.given + 1) }
        ensures kept { OnErr result (self.new.given ≡ self.old.given) }
    {
        if self.given + 1 >= PARTS {
            return Err(SeatFault::NoSeat);
        }
        let answer = self.vault.hello(seat, name);
        self.vault.soundness();
        let actor = answer?;
        let share = self.rest.split_off(1, 0);
        self.given += 1;
        Ok((actor, share))
    }

    /// The event ask. If it enters the command, book and share grow by one, and the result has the entry's actor as
    /// well as the reply.
    pub fn ask(
        &mut self,
        seat: u64,
        command: Command,
        share: &mut Share<L>,
    ) -> Result<(u64, Reply), AskFault>
        requires { 0 < share.old.parts }
        ensures event { MatchResult result (λ r. VaultStep self.old.vault (event.Ask seat command) (answer.Asked (length self.old.vault.history) r.1) self.new.vault) (λ fault. VaultStep self.old.vault (event.Ask seat command) (answer.Ask fault) self.new.vault) }
        ensures actor { IfOk result (λ r. IsEnteredFor self.old.vault self.new.vault r.0) }
        ensures reached { IsReached self.old.vault }
        ensures counted { OnOk result (share.new.amount ≡ share.old.amount + 1) }
        ensures uncounted { OnErr result (share.new.amount ≡ share.old.amount) }
        ensures parts { share.new.parts ≡ share.old.parts }
        ensures given { self.new.given ≡ self.old.given }
    {
        let answer = self.vault.command(seat, command);
        self.vault.soundness();
        let (number, reply) = answer?;
        self.entries.add(share, 1);
        let Some(entry) = self.vault.entry(number) else {
            unreachable!()
        };
        Ok((entry.actor(), reply))
    }

    /// The event shade.
    pub fn shade(&mut self, seat: u64) -> Result<Option<u64>, SeatFault>
        ensures event { MatchResult result (λ target. VaultStep self.old.vault (event.Shade seat) (answer.Shaded target) self.new.vault) (λ fault. VaultStep self.old.vault (event.Shade seat) (answer.Seat fault) self.new.vault) }
        ensures reached { IsReached self.old.vault }
        ensures given { self.new.given ≡ self.old.given }
    {
        let answer = self.vault.shade(seat);
        self.vault.soundness();
        answer
    }

    /// The event collect.
    pub fn collect(&mut self) -> Note
        ensures event { VaultStep self.old.vault event.Collect (answer.Noted result) self.new.vault }
        ensures reached { IsReached self.old.vault }
        ensures given { self.new.given ≡ self.old.given }
    {
        let note = self.vault.collect();
        self.vault.soundness();
        note
    }

    /// The event bye.
    pub fn bye(&mut self, seat: u64) -> Result<(), SeatFault>
        ensures event { MatchResult result (λ _. VaultStep self.old.vault (event.Bye seat) answer.Bye self.new.vault) (λ fault. VaultStep self.old.vault (event.Bye seat) (answer.Seat fault) self.new.vault) }
        ensures reached { IsReached self.old.vault }
        ensures given { self.new.given ≡ self.old.given }
    {
        let answer = self.vault.bye(seat);
        self.vault.soundness();
        answer
    }
}
