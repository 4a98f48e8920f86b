//! The vault: the seats, the store, and the history of the commands.
ghost use Rattle.std.specs.Prelude.{◌≡◌, ◌<◌, ◌≤◌, ◌⊎◌, ◌∷◌, [], length, slice_get, Some, None, IfOk, IfErr, IfSome, IfNone, OnErr, OnOk, MatchResult, take};
ghost use Rattle.tg_rights.specs.declared.limits.TheConstants.{SEATS};
ghost use Rattle.tg_rights.specs.declared.outcome.Reply.TheVariants as reply;
ghost use Rattle.tg_graph.specs.Promise.Opening.{first_fault, IsRefusal};
ghost use Rattle.tg_vault.specs.declared.event.Event.TheVariants as event;
ghost use Rattle.tg_vault.specs.declared.event.Answer.TheVariants as answer;
ghost use Rattle.tg_collect.specs.Promise.Readings.{pending_of};
ghost use Rattle.tg_collect.specs.Promise.Stored.{FIXED};
ghost use Rattle.tg_collect.specs.Promise.Sessions.{AgentLeft, Shaded};
ghost use Rattle.tg_vault.specs.Promise.World.{at_seat, bye_fault, shade_fault, ask_refusal, IsAskFault};
ghost use Rattle.tg_vault.specs.Promise.Contents.{Contents, StepOf, IsFresh, RunOf, Keeps, IsVault, moment, Fits, IsSmall, IsExact, StoreAnswer};
ghost use Rattle.tg_vault.specs.Promise.StoreSteps.{SessionStep, StoreStep};
ghost use Rattle.tg_vault.specs.Promise.Agreement.{SameForAgreeing};
ghost use Rattle.tg_vault.specs.Promise.Course.{Course, IsCoherent, VaultStep};
ghost use Rattle.tg_vault.specs.Promise.Cycles.{IsBounded, IsCycle};
ghost use Rattle.tg_vault.specs.Promise.Headline.{AddsAsked, Headline};

use crate::acting::acting_at;
use crate::carry_out::State;
use crate::entry::Entry;
use crate::event::{Answer, AskFault, Event, SeatFault};
use crate::laws::courses_have_the_headline;
use crate::seats::{at_seat, empty_seats};
use std::alloc::Global;
use std::collections::BTreeSet;
use std::marker::Model;
use std::mem;
use tg_collect::{Key, Note, Store, Swept};
use tg_graph::{Config, Graph, OpenFault, serial_of};
use tg_rights::{Command, Reply, SEATS};

/// The whole state of the server: the opening graph, the active principals by their names, who has retired, the seats,
/// the store with its collector and the pending target and agent of each seat, and the history of commands. `hello`,
/// `bye`, `command`, `shade`, `collect` and `run_one` are one atomic step each; `cycle`, `run` and `rebase` can make
/// many. Contracts see its `Contents`. The graph of the history is in these alone; what is stored is the part of it
/// still in use.
///
/// The history is kept whole until a rebase, and is legal: each entry's outcome is one that the take-grant rules
/// (Lipton and Snyder 1977; Bishop) permit in the graph that the entries before it leave.
#[derive(Drop)]
pub struct Vault {
    pub(crate) alloc: Global,
    pub(crate) opening: Graph,
    pub(crate) slots: u64,
    pub(crate) cells: u64,
    pub(crate) seats: Vec<Option<u64>>,
    pub(crate) state: State,
    pub(crate) history: Vec<Entry>,
}

impl Model for Vault {
    ghost use Rattle.tg_vault.specs.Promise.Contents.{Contents};
    ghost use Rattle.tg_vault.specs.Inner.Contents.{contents, contents_code};
    ghost use Rattle.tg_vault.specs.Inner.Fits.{IsTied};

    ghost Value = { Contents };

    ghost coded = { contents_code };

    ghost view = { λ v. contents v };

    ghost invariant = { λ v. IsTied (contents v) v.state.next v.state.retired.keys };
}

/// What a run of events leaves.
#[derive(Drop)]
pub struct Ran {
    /// The vault after the events that were answered.
    pub vault: Vault,
    /// One answer for each event that was carried out, in order.
    pub answers: Vec<Answer>,
}

impl Vault {
    /// A vault over the graph that the configuration opens: no entries, no seat in use, the graph's principals, and the
    /// graph in the store. Otherwise the first fault of the configuration, as `Graph::build` returns it; `OutOfMemory`
    /// only if there is no other. Edges are found under the key that everybody can read, so use this only if it does no
    /// harm that those who send commands can slow the vault down; otherwise use `with_key`.
    pub fn new(alloc: Global, config: Config) -> Result<Vault, OpenFault>
        ensures ok { IfOk result (λ vault. IsFresh config vault) }
        ensures key { IfOk result (λ vault. vault.store.key ≡ FIXED) }
        ensures sound { IfOk result (λ _. first_fault config ≡ None) }
        ensures err { IfErr result (λ fault. IsRefusal config fault) }
    {
        Vault::with_key(alloc, Key::FIXED, config)
    }

    /// The same under a key of the caller's, which the vault keeps, even after a rebase, and which changes no answer. A
    /// key that nobody can guess is meant to keep anybody from choosing edges that are slow to find. Errors are those
    /// of `new`, in the same order: the first fault of the configuration, and `OutOfMemory` only if there is no other.
    pub fn with_key(alloc: Global, key: Key, config: Config) -> Result<Vault, OpenFault>
        ensures ok { IfOk result (λ vault. IsFresh config vault) }
        ensures key { IfOk result (λ vault. vault.store.key ≡ key) }
        ensures sound { IfOk result (λ _. first_fault config ≡ None) }
        ensures err { IfErr result (λ fault. IsRefusal config fault) }
    {
        let opening = Graph::build(alloc, &config)?;
        let Ok(store) = Store::with_key(
            alloc,
            key,
            &opening,
            config.slots as u32,
            config.cells as u32,
        ) else {
            return Err(OpenFault::OutOfMemory);
        };
        store.soundness();
        let Ok(names) = opening.principals().copy(alloc) else {
            return Err(OpenFault::OutOfMemory);
        };
        let Ok(seats) = empty_seats(alloc) else {
            return Err(OpenFault::OutOfMemory);
        };
        Ok(Vault {
            alloc,
            opening,
            slots: config.slots,
            cells: config.cells,
            seats,
            state: State {
                store,
                names,
                retired: BTreeSet::new(alloc),
                next: config.next,
            },
            history: Vec::new(alloc),
        })
    }

    /// No-op; its postcondition exposes the invariant: a legal history of seats from 0 to 63, a table of 64 seats with
    /// nobody in them but principals and those who have retired, and a store that fits the graph of the history.
    pub fn soundness(&self)
        ensures vault { IsVault self.now }
        ensures small { IsSmall self.now }
        ensures coherent { IsCoherent self.now }
        ensures fits { Fits self.now }
    {
        self.opening.soundness();
        self.state.store.soundness();
    }

    /// The number of entries in the history.
    pub fn count(&self) -> u64
        ensures { result ≡ length self.now.history }
    {
        self.history.len() as u64
    }

    /// The entry of this number, counted from 0; `None` exactly from `count` on.
    pub fn entry(&self, number: u64) -> Option<&Entry>
        ensures some { IfSome result (λ e. slice_get self.now.history number ≡ Some e.now) }
        ensures none { IfNone result (length self.now.history ≤ number) }
    {
        self.history.get(number as usize)
    }

    /// The graph with which the history begins.
    pub fn opening(&self) -> &Graph
        ensures { result.now ≡ self.now.opening }
    {
        &self.opening
    }

    /// Seats the active principal of this name, and returns its serial. One principal may sit on several seats. Faults,
    /// in this order, after which everything is as before: `NoSeat` for a seat above 63, `Bound` for one in use,
    /// `NoPrincipal` if no active principal has the name. Allocates nothing.
    pub fn hello(&mut self, seat: u64, name: &str) -> Result<u64, SeatFault>
        ensures step { MatchResult result (λ x. StepOf self.old (event.Hello seat name.now) (answer.Hello x) self.new) (λ fault. StepOf self.old (event.Hello seat name.now) (answer.Seat fault) self.new) }
        ensures keeps { Keeps self.old self.new }
        ensures store { self.new.store ≡ self.old.store }
        ensures unchanged { OnErr result (self.new ≡ self.old) }
    {
        if seat >= SEATS {
            return Err(SeatFault::NoSeat);
        }
        if at_seat(self.seats.as_slice(), seat).is_some() {
            return Err(SeatFault::Bound);
        }
        match serial_of(self.state.names.as_slice(), name) {
            Some(principal) => {
                self.seats[seat as usize] = Some(principal);
                Ok(principal)
            }
            None => Err(SeatFault::NoPrincipal),
        }
    }

    /// Who sits on the seat.
    fn principal_at(&self, seat: u64) -> Result<u64, SeatFault>
        ensures ok { IfOk result (λ x. (seat < SEATS) × (at_seat self.now.seats seat ≡ Some x)) }
        ensures err { IfErr result (λ fault. shade_fault (moment self.now).world seat ≡ Some fault) }
    {
        if seat >= SEATS {
            return Err(SeatFault::NoSeat);
        }
        match at_seat(self.seats.as_slice(), seat) {
            Some(principal) => Ok(principal),
            None => Err(SeatFault::NoActor),
        }
    }

    /// Who sits on the seat, if no target is pending there.
    fn idle_at(&self, seat: u64) -> Result<u64, SeatFault>
        ensures ok { IfOk result (λ x. (seat < SEATS) × (at_seat self.now.seats seat ≡ Some x) × (pending_of self.now.store seat ≡ None)) }
        ensures err { IfErr result (λ fault. bye_fault (moment self.now).world seat ≡ Some fault) }
    {
        let principal = self.principal_at(seat)?;
        if self.state.store.pending(seat).is_some() {
            return Err(SeatFault::Busy);
        }
        Ok(principal)
    }

    /// Empties the seat, and takes its agent away. Faults, in this order, after which everything is as before: `NoSeat`
    /// for a seat above 63, `NoActor` for an empty one, `Busy` while the seat has a pending target. Allocates nothing.
    #[tactic(auto, using(crate::proofs::CollectLemmas::still_acts))]
    pub fn bye(&mut self, seat: u64) -> Result<(), SeatFault>
        ensures step { MatchResult result (λ _. StepOf self.old (event.Bye seat) answer.Bye self.new) (λ fault. StepOf self.old (event.Bye seat) (answer.Seat fault) self.new) }
        ensures keeps { Keeps self.old self.new }
        ensures store { OnOk result (AgentLeft self.old.store self.new.store seat) }
        ensures acts { SessionStep self.old self.new }
        ensures unchanged { OnErr result (self.new ≡ self.old) }
    {
        self.idle_at(seat)?;
        self.seats[seat as usize] = None;
        self.state.store.leave(seat);
        Ok(())
    }

    /// Finishes the seat's pending target and returns its serial, or `None` if there is none. Faults, in this order,
    /// after which everything is as before: `NoSeat` for a seat above 63, `NoActor` for an empty one. Allocates
    /// nothing.
    #[tactic(auto, using(crate::proofs::CollectLemmas::still_acts))]
    pub fn shade(&mut self, seat: u64) -> Result<Option<u64>, SeatFault>
        ensures step { MatchResult result (λ target. StepOf self.old (event.Shade seat) (answer.Shaded target) self.new) (λ fault. StepOf self.old (event.Shade seat) (answer.Seat fault) self.new) }
        ensures keeps { Keeps self.old self.new }
        ensures shaded { IfOk result (λ target. Shaded self.old.store self.new.store seat target) }
        ensures acts { SessionStep self.old self.new }
        ensures unchanged { OnErr result (self.new ≡ self.old) }
    {
        self.principal_at(seat)?;
        self.state.store.soundness();
        let target = self.state.store.shade(seat);
        self.state.store.soundness();
        Ok(target)
    }

    /// One step of the collector, as its table has it. Allocates nothing.
    #[inline(always)]
    pub fn collect(&mut self) -> Note
        ensures step { StepOf self.old event.Collect (answer.Noted result) self.new }
        ensures keeps { Keeps self.old self.new }
        ensures stored { StoreStep self.old event.Collect (answer.Noted result) self.new }
    {
        self.state.store.soundness();
        let note = self.state.store.collect();
        self.state.store.soundness();
        note
    }

    /// Judges the command of the seat's actor, which is its agent, or else who sits there, carries it out if it is
    /// allowed, and enters it in the history with its outcome. Returns the entry's number, from 0, and the reply. An
    /// allowed take or grant makes `over` the seat's pending target, even if the edge was there already; an allowed
    /// create or enrol, the new vertex; an allowed assume, the agent. Whoever retires stays on its seats, and the agent
    /// of those that act for it, and is denied each later command but a leave.
    ///
    /// Faults, in this order, after which everything is as before, nothing is entered and the command is dropped:
    /// `NoSeat` for a seat above 63, `NoActor` for an empty one, `Busy` while the seat has a pending target,
    /// `OutOfMemory` if an allocation failed, such as that of a copy of an enrol's name, whatever the outcome would
    /// have been.
    ///
    /// The outcome and the reply are those of every graph that the actor cannot tell from the graph of the history, a
    /// new vertex's serial and fullness aside.
    pub fn command(&mut self, seat: u64, command: Command) -> Result<(u64, Reply), AskFault>
        ensures step { MatchResult result (λ r. StepOf self.old (event.Ask seat command) (answer.Asked r.0 r.1) self.new) (λ fault. StepOf self.old (event.Ask seat command) (answer.Ask fault) self.new) }
        ensures keeps { Keeps self.old self.new }
        ensures agrees { IfOk result (λ r. SameForAgreeing self.old self.new r.1) }
        ensures exact { IfOk result (λ r. IsExact self.old self.new) }
        ensures acts { SessionStep self.old self.new }
        ensures unchanged { OnErr result (self.new ≡ self.old) }
    {
        let mut asked = command;
        let mut told = Reply::Done;
        match self.ask(seat, &mut asked, &mut told) {
            Ok(number) => Ok((number, told)),
            Err(fault) => Err(fault),
        }
    }

    /// The same for a command that is taken from its place only once it is entered; the reply replaces `Done`. So
    /// neither is moved before.
    #[inline(never)]
    #[tactic(auto, using(crate::proofs::CollectLemmas::still_acts))]
    fn ask(&mut self, seat: u64, command: &mut Command, told: &mut Reply) -> Result<u64, AskFault>
        requires { told.old ≡ reply.Done }
        ensures step { MatchResult result (λ number. StepOf self.old (event.Ask seat command.old) (answer.Asked number told.new) self.new) (λ fault. StepOf self.old (event.Ask seat command.old) (answer.Ask fault) self.new) }
        ensures keeps { Keeps self.old self.new }
        ensures agrees { OnOk result (SameForAgreeing self.old self.new told.new) }
        ensures exact { OnOk result (IsExact self.old self.new) }
        ensures acts { SessionStep self.old self.new }
        ensures unchanged { OnErr result (self.new ≡ self.old) }
    {
        let principal = self.ready_at(seat)?;
        let number = self.count();
        let Ok(()) = self.history.try_reserve(1) else {
            return Err(AskFault::OutOfMemory);
        };
        self.opening.soundness();
        self.state.store.soundness();
        let actor = acting_at(&self.state.store, &self.state.retired, seat, principal);
        let Ok(outcome) = self.state.answer(self.alloc, seat, actor, command, told) else {
            return Err(AskFault::OutOfMemory);
        };
        self.state.store.soundness();
        let asked = mem::replace(command, Command::Leave);
        let entry = Entry::new(seat, actor.serial(), asked, outcome);
        let Ok(()) = self.history.push(entry) else {
            unreachable!();
        };
        Ok(number)
    }

    /// Who sits on the seat, if a command may be asked there.
    fn ready_at(&self, seat: u64) -> Result<u64, AskFault>
        ensures ok { IfOk result (λ x. (seat < SEATS) × (at_seat self.now.seats seat ≡ Some x) × (pending_of self.now.store seat ≡ None) × (ask_refusal (moment self.now).world seat ≡ None)) }
        ensures err { IfErr result (λ fault. IsAskFault (moment self.now).world seat fault) }
    {
        match self.idle_at(seat) {
            Ok(principal) => Ok(principal),
            Err(SeatFault::NoSeat) => Err(AskFault::NoSeat),
            Err(SeatFault::NoActor) => Err(AskFault::NoActor),
            Err(SeatFault::Busy) => Err(AskFault::Busy),
            Err(SeatFault::Bound | SeatFault::NoPrincipal) => unreachable!(),
        }
    }

    /// Carries out a copy of the command; the copy is made only once the seat is known to have no fault.
    #[tactic(auto, using(crate::proofs::CollectLemmas::still_acts))]
    fn command_copy(&mut self, seat: u64, command: &Command) -> Result<(u64, Reply), AskFault>
        ensures step { MatchResult result (λ r. StepOf self.old (event.Ask seat command.now) (answer.Asked r.0 r.1) self.new) (λ fault. StepOf self.old (event.Ask seat command.now) (answer.Ask fault) self.new) }
        ensures keeps { Keeps self.old self.new }
        ensures exact { IfOk result (λ r. IsExact self.old self.new) }
        ensures acts { SessionStep self.old self.new }
        ensures unchanged { OnErr result (self.new ≡ self.old) }
    {
        self.ready_at(seat)?;
        let Ok(copy) = command.copy(self.alloc) else {
            return Err(AskFault::OutOfMemory);
        };
        self.command(seat, copy)
    }

    /// Carries out one event.
    #[inline(never)]
    #[tactic(auto, using(crate::proofs::CollectLemmas::still_acts))]
    fn step(&mut self, event: &Event) -> Answer
        ensures step { StepOf self.old event.now result self.new }
        ensures keeps { Keeps self.old self.new }
        ensures stored { StoreStep self.old event.now result self.new }
        ensures told { StoreAnswer self.old event.now result self.new }
    {
        match event {
            Event::Hello { seat, name } => match self.hello(*seat, name.get()) {
                Ok(principal) => Answer::Hello(principal),
                Err(fault) => Answer::Seat(fault),
            },
            Event::Bye { seat } => match self.bye(*seat) {
                Ok(()) => Answer::Bye,
                Err(fault) => Answer::Seat(fault),
            },
            Event::Ask { seat, command } => match self.command_copy(*seat, command) {
                Ok((number, reply)) => Answer::Asked(number, reply),
                Err(fault) => Answer::Ask(fault),
            },
            Event::Shade { seat } => match self.shade(*seat) {
                Ok(target) => Answer::Shaded(target),
                Err(fault) => Answer::Seat(fault),
            },
            Event::Collect => Answer::Noted(self.collect()),
        }
    }

    /// A run of one event: carries it out and returns its answer; `Ask(OutOfMemory)` if an allocation failed. `run`
    /// copies the commands that it borrows, and takes the vault by value; here both stay in place. `courses_join` joins
    /// successive calls into a course, and `courses_have_the_headline` says of it what `run` promises.
    #[inline(always)]
    pub fn run_one(&mut self, event: Event) -> Answer
        ensures step { VaultStep self.old event result self.new }
        ensures headline { Headline self.old (event ∷ []) (result ∷ []) self.new }
    {
        let mut event = event;
        let mut answer = Answer::Bye;
        self.run_one_into(&mut event, &mut answer);
        answer
    }

    /// As `run_one`, but the answer replaces another one, and the event stays where it is, so that neither is moved.
    /// The event is used up: a command that is entered is taken out of it.
    #[inline(always)]
    pub fn run_one_into(&mut self, event: &mut Event, answer: &mut Answer)
        ensures step { VaultStep self.old event.old answer.new self.new }
        ensures headline { Headline self.old (event.old ∷ []) (answer.new ∷ []) self.new }
    {
        self.soundness();
        courses_have_the_headline();
        self.act(event, answer);
        self.soundness();
    }

    /// Carries out one event, without copying its command.
    #[inline(always)]
    fn act(&mut self, event: &mut Event, answer: &mut Answer)
        ensures step { StepOf self.old event.old answer.new self.new }
        ensures keeps { Keeps self.old self.new }
        ensures stored { StoreStep self.old event.old answer.new self.new }
        ensures told { StoreAnswer self.old event.old answer.new self.new }
    {
        match event {
            Event::Ask { seat, command } => self.act_for(*seat, command, answer),
            other => *answer = self.step(other),
        }
    }

    /// Carries out a command, and puts the answer in the place of another.
    #[inline(always)]
    fn act_for(&mut self, seat: u64, command: &mut Command, answer: &mut Answer)
        ensures step { StepOf self.old (event.Ask seat command.old) answer.new self.new }
        ensures keeps { Keeps self.old self.new }
        ensures stored { StoreStep self.old (event.Ask seat command.old) answer.new self.new }
        ensures told { StoreAnswer self.old (event.Ask seat command.old) answer.new self.new }
    {
        *answer = Answer::Asked(0, Reply::Done);
        if let Answer::Asked(number, told) = answer {
            match self.ask(seat, command, told) {
                Ok(entered) => *number = entered,
                Err(fault) => *answer = Answer::Ask(fault),
            }
        }
    }

    /// Collector steps up to and including the first that ends a cycle: how many slots they freed, and how many steps
    /// there were. There are at most `S * S + 3 * S + C + 3`, for S slots and C cells. Allocates nothing.
    #[inline(always)]
    pub fn cycle(&mut self) -> Swept
        ensures cycle { IsCycle self.old result self.new }
        ensures keeps { Keeps self.old self.new }
    {
        self.soundness();
        let swept = self.state.store.cycle();
        self.state.store.soundness();
        swept
    }

    /// Carries out the events in order, each as one atomic step, and answers each. Memory for all answers is allocated
    /// first: if that fails, no event is carried out and there is no answer. If a command cannot be copied, the answer
    /// is `Ask(OutOfMemory)`, unless the seat has a fault.
    ///
    /// The answers are a run of the world that the history gives, and the entries added are those of the `Asked`
    /// answers. Each command is carried out exactly when the take-grant rules (Lipton and Snyder 1977; Bishop) allow it
    /// in the graph that is never collected, unless refused as full; every denial names its rule and missing rights; no
    /// vertex reachable from a principal or an unfinished step loses its slot; what is unreachable when a cycle starts
    /// has no slot when the next cycle ends (the collector of Dijkstra, Lamport, Martin, Scholten and Steffens 1978). A
    /// subject that a seat acts for counts as a principal there. Among any `S * S + 3 * S + C + 3` collector steps in a
    /// row, for S slots and C cells, one ends a cycle.
    pub fn run(self, events: &[Event]) -> Ran
        ensures headline { Headline self (take (length result.answers.items) events.now) result.answers.items result.vault }
        ensures run { RunOf self (take (length result.answers.items) events.now) result.answers.items result.vault }
        ensures course { Course self (take (length result.answers.items) events.now) result.answers.items result.vault }
        ensures added { AddsAsked self result.answers.items result.vault }
        ensures bounded { IsBounded self result.answers.items }
        ensures all_or_none { (length result.answers.items ≡ length events.now) ⊎ (result.answers.items ≡ []) }
        ensures keeps { Keeps self result.vault }
    {
        self.soundness();
        courses_have_the_headline();
        self.go(events)
    }

    /// The run, event by event.
    fn go(self, events: &[Event]) -> Ran
        ensures course { Course self (take (length result.answers.items) events.now) result.answers.items result.vault }
        ensures all_or_none { (length result.answers.items ≡ length events.now) ⊎ (result.answers.items ≡ []) }
        ensures keeps { Keeps self result.vault }
    {
        let mut vault = self;
        vault.soundness();
        let alloc = vault.alloc;
        let Ok(mut answers) = Vec::with_capacity(alloc, events.len()) else {
            return Ran {
                vault,
                answers: Vec::new(alloc),
            };
        };
        for event in events {
            let answer = vault.step(event);
            vault.soundness();
            let Ok(()) = answers.push(answer) else {
                unreachable!();
            };
        }
        Ran { vault, answers }
    }
}
