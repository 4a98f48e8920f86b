//! Carrying out what the rules allow in the store.
ghost use Rattle.std.specs.Prelude.{◌≡◌, ◌≢◌, ◌<◌, ◌+◌, ℕ, Err, List, IfOk, IfErr, OnErr, OnOk, IsSome, Some, None, true, false};
ghost use Rattle.std.specs.FinSet as set;
ghost use Rattle.std.specs.Option.{is_some};
ghost use Rattle.tg_rights.specs.Promise.Letters.{is_none};
ghost use Rattle.tg_rights.specs.declared.limits.TheConstants.{SEATS};
ghost use Rattle.tg_rights.specs.declared.outcome.Reply.TheVariants as reply;
ghost use Rattle.tg_graph.specs.Inner.Deciding.{IsSubjectIfNamed};
ghost use Rattle.tg_graph.specs.Promise.Deciding.{Each, LeadTo, WasFound};
ghost use Rattle.tg_graph.specs.Promise.Protection.{MayBeNamed, without_member};
ghost use Rattle.tg_graph.specs.Promise.Rules.{Allowed, edges_of, text_of};
ghost use Rattle.tg_graph.specs.Promise.Terms.{terms, name_in, text_in};
ghost use Rattle.tg_collect.specs.Promise.Readings.{held, free_slots, IsHeldIn, IsParkedIn, pending_of, place, principals, serial_at};
ghost use Rattle.tg_collect.specs.Promise.Sessions.{Retired, TextReplaced, Acted};
ghost use Rattle.tg_vault.specs.Inner.Acting.{IsHere, serial_in};
ghost use Rattle.tg_vault.specs.Inner.CarriedOut.{CarriedOut, HasPlace, Joined, Made, Stores, answered, copies, created, denied, done, settled};
ghost use Rattle.tg_vault.specs.Promise.Seen.{serials};
ghost use Rattle.tg_vault.specs.Inner.Seen.{seen_in, set_of};

use crate::acting::Actor;
use std::alloc::{AllocError, Global};
use std::collections::BTreeSet;
use std::mem;
use tg_collect::{HeapFull, Store};
use tg_graph::{Effect, Found, LAST_SERIAL, Roll, Spot, decide, effect_of, is_for_retired};
use tg_rights::{Cause, Command, EdgeList, Kind, Name, Outcome, Reply, Rights, Rule, Text, Which};

/// What a command changes: the store, the active principals, who has retired, and the next serial.
#[derive(Drop)]
pub struct State {
    pub store: Store,
    pub names: Roll,
    pub retired: BTreeSet<u64>,
    pub next: u64,
}

// A reply is put where the caller has room for it: as a result it would be moved from call to call, and whole, as it
// can be a text.
/// Puts a reply in the place of `Done`, which has nothing to drop.
#[inline(always)]
fn put(told: &mut Reply, new: Reply)
    requires { told.old ≡ reply.Done }
    ensures { told.new ≡ new }
{
    mem::forget(mem::replace(told, new));
}

/// A command that its rule denies.
#[inline(never)]
fn deny(told: &mut Reply, rule: Rule, cause: &Cause) -> Outcome
    requires { told.old ≡ reply.Done }
    ensures { answered result told.new ≡ denied rule cause.now }
{
    put(told, Reply::Denied(rule, *cause));
    Outcome::Denied(rule, *cause)
}

/// An allowed command for which this is used up.
#[inline(always)]
fn refuse(told: &mut Reply, which: Which) -> Outcome
    requires { told.old ≡ reply.Done }
    ensures { answered result told.new ≡ settled (Err which) }
{
    put(told, Reply::Full(which));
    Outcome::Full(which)
}

/// An allowed command that was carried out, or for which this is used up.
#[inline(always)]
fn settle(told: &mut Reply, joined: Result<(), Which>) -> Outcome
    requires { told.old ≡ reply.Done }
    ensures { answered result told.new ≡ settled (done joined) }
{
    match joined {
        Ok(()) => Outcome::Allowed,
        Err(which) => refuse(told, which),
    }
}

/// An allowed command that made a vertex of this serial, or for which this is used up.
#[inline(always)]
fn settle_made(told: &mut Reply, made: Result<u64, Which>) -> Outcome
    requires { told.old ≡ reply.Done }
    ensures { answered result told.new ≡ settled (created made) }
{
    match made {
        Ok(serial) => {
            put(told, Reply::Created(serial));
            Outcome::Allowed
        }
        Err(which) => refuse(told, which),
    }
}

/// The edge gains the rights, and its target becomes the seat's; full if it is new and no cell is free.
fn join(store: &mut Store, seat: u64, owner: u32, target: u32, rights: Rights) -> Result<(), Which>
    requires seat { seat < SEATS }
    requires idle { pending_of store.old seat ≡ None }
    requires source { IsSome (place store.old owner) }
    requires target { IsSome (place store.old target) }
    requires distinct { target ≢ owner }
    requires some { is_none rights ≡ false }
    ensures { Joined store.old store.new seat (serial_at store.old owner) (serial_at store.old target) rights (done result) }
{
    match store.store_edge(seat, owner, target, rights) {
        Ok(()) => Ok(()),
        Err(_) => Err(Which::Cells),
    }
}

/// A copy of the name that the command gives to a new principal, if it gives one.
fn name_of(command: &Command, alloc: Global) -> Result<Option<Name>, AllocError>
    ensures copy { IfOk result (λ name. name ≡ name_in command.now) }
    ensures memory { OnErr result (is_some (name_in command.now) ≡ true) }
{
    match command {
        Command::Enrol { name, .. } => Ok(Some(name.copy(alloc)?)),
        _ => Ok(None),
    }
}

/// The reply is a copy of the text.
#[inline(always)]
fn tell(store: &Store, alloc: Global, at: u32, told: &mut Reply) -> Result<(), AllocError>
    requires told { told.old ≡ reply.Done }
    requires at { IsSome (place store.now at) }
    ensures { OnOk result ((next : ℕ) → told.new ≡ reply.Text (text_of (held store.now next) (serial_at store.now at))) }
{
    put(told, Reply::Text(Text::empty(alloc)));
    if let Reply::Text(text) = told {
        text.copy_from(alloc, store.text(at))?;
    }
    Ok(())
}

/// A copy of the text that the command brings; the empty one if it brings none.
fn copied_text(alloc: Global, command: &Command) -> Result<Text, AllocError>
    ensures { IfOk result (λ text. text ≡ text_in command.now) }
{
    match command {
        Command::Write { text, .. } => text.copy(alloc),
        _ => Ok(Text::empty(alloc)),
    }
}

/// A copy of the text that the command brings takes the place of the old one.
fn replace(store: &mut Store, alloc: Global, at: u32, command: &Command) -> Result<(), AllocError>
    requires { IsSome (place store.old at) }
    ensures replaced { OnOk result ((old : List ℕ) × TextReplaced store.old store.new (serial_at store.old at) (text_in command.now) old) }
    ensures acted { OnOk result (Acted store.old store.new None None) }
    ensures unchanged { OnErr result (store.new ≡ store.old) }
{
    let text = copied_text(alloc, command)?;
    store.set_text(at, text);
    Ok(())
}

/// The reply is the edges, by rising serial.
fn list(store: &Store, alloc: Global, of: u32, told: &mut Reply) -> Result<(), AllocError>
    requires told { told.old ≡ reply.Done }
    requires of { IsSome (place store.now of) }
    ensures { OnOk result ((next : ℕ) → told.new ≡ reply.Edges (edges_of (held store.now next) (serial_at store.now of))) }
{
    let edges = store.edges(alloc, of)?;
    put(told, Reply::Edges(EdgeList::new(edges)));
    Ok(())
}

impl State {
    /// A vertex with the next serial is stored and becomes the seat's target; with a name it is a principal.
    fn add_vertex(
        &mut self,
        alloc: Global,
        seat: u64,
        id: u32,
        kind: Kind,
        rights: Rights,
        name: &Option<Name>,
    ) -> Result<(), HeapFull>
        requires seat { seat < SEATS }
        requires idle { pending_of self.old.store seat ≡ None }
        requires source { IsSome (place self.old.store id) }
        requires some { is_none rights ≡ false }
        requires unheld { IsHeldIn self.old.store self.old.next → ⊥ }
        requires unparked { IsParkedIn self.old.store self.old.next → ⊥ }
        requires subject { IsSubjectIfNamed kind name.now }
        requires room { HasPlace (principals self.old.store) name.now }
        ensures ok { OnOk result (Stores self.old.store self.new.store seat (serial_at self.old.store id) self.old.next kind rights name.now) }
        ensures acted { OnOk result (Acted self.old.store self.new.store (Some self.old.next) (Some self.old.next)) }
        ensures rest { self.new ≡ record self.old { store = self.new.store } }
        ensures slots { IfErr result (λ full. full ≡ HeapFull.Slots → free_slots self.old.store ≡ 0) }
        ensures cells { IfErr result (λ full. full ≡ HeapFull.Cells → (free_slots self.old.store ≢ 0) × (self.old.store.free_cells ≡ 0)) }
        ensures unchanged { OnErr result (self.new ≡ self.old) }
    {
        let serial = self.next;
        let text = Text::empty(alloc);
        match name {
            Some(_) => match self.store.store_principal(seat, id, serial, rights, text) {
                Ok(()) => Ok(()),
                Err((full, _)) => Err(full),
            },
            None => match self
                .store
                .store_vertex(seat, id, serial, kind, rights, text)
            {
                Ok(()) => Ok(()),
                Err((full, _)) => Err(full),
            },
        }
    }

    /// A vertex with the next serial is added and becomes the seat's target; with a name it is a principal. Full if
    /// there is no serial, slot or cell for it.
    fn make(
        &mut self,
        alloc: Global,
        seat: u64,
        id: u32,
        kind: Kind,
        rights: Rights,
        name: Option<Name>,
    ) -> Result<u64, Which>
        requires seat { seat < SEATS }
        requires idle { pending_of self.old.store seat ≡ None }
        requires source { IsSome (place self.old.store id) }
        requires some { is_none rights ≡ false }
        requires unheld { IsHeldIn self.old.store self.old.next → ⊥ }
        requires unparked { IsParkedIn self.old.store self.old.next → ⊥ }
        requires subject { IsSubjectIfNamed kind name }
        requires room { HasPlace (principals self.old.store) name }
        requires named { MayBeNamed self.old.names name }
        ensures { Made self.old self.new seat (serial_at self.old.store id) kind rights name (created result) }
    {
        if self.next > LAST_SERIAL {
            return Err(Which::Serials);
        }
        match self.add_vertex(alloc, seat, id, kind, rights, &name) {
            Ok(()) => {}
            Err(HeapFull::Slots) => return Err(Which::Slots),
            Err(HeapFull::Cells) => return Err(Which::Cells),
        }
        let serial = self.next;
        self.next += 1;
        self.names.add(name, serial);
        Ok(serial)
    }

    /// Notes that the actor has retired, and makes it a principal no longer. Only the first of these can fail.
    fn retire(&mut self, actor: u64) -> Result<(), AllocError>
        ensures gone { OnOk result (set_of self.new.retired.keys ≡ set.insert (set_of self.old.retired.keys) actor) }
        ensures retired { OnOk result (Retired self.old.store self.new.store actor) }
        ensures acted { OnOk result (Acted self.old.store self.new.store None None) }
        ensures left { OnOk result (self.new.names ≡ without_member self.old.names actor) }
        ensures next { OnOk result (self.new.next ≡ self.old.next) }
        ensures unchanged { OnErr result (self.new ≡ self.old) }
    {
        self.retired.insert(actor)?;
        self.store.retire(actor);
        self.names.remove(actor);
        Ok(())
    }

    /// Carries out a command that the rules allow, if nothing that it needs is used up; the decision has found the
    /// vertices. `AllocError` leaves everything as it was; it occurs only for a command that copies a text, a name or a
    /// list, and for a retire. The reply takes the place of `Done`.
    #[inline(always)]
    fn carry_out(
        &mut self,
        alloc: Global,
        seat: u64,
        actor: Spot<u32>,
        command: &Command,
        found: &Found<u32>,
        told: &mut Reply,
    ) -> Result<Outcome, AllocError>
        requires seat { seat < SEATS }
        requires idle { pending_of self.old.store seat ≡ None }
        requires listed { principals self.old.store ≡ serials self.old.names }
        requires actor { place self.old.store actor.place ≡ Some actor.serial }
        requires unheld { IsHeldIn self.old.store self.old.next → ⊥ }
        requires unparked { IsParkedIn self.old.store self.old.next → ⊥ }
        requires allowed { Allowed (seen_in self.old) actor.serial command.now }
        requires at { found.now.actor ≡ actor }
        requires places { Each (λ spot. place self.old.store spot.place ≡ Some spot.serial) found.now }
        requires told { told.old ≡ reply.Done }
        requires found { (v : ℕ) → LeadTo (terms actor.serial command.now).needs v → WasFound found.now v }
        ensures carried { IfOk result (λ decided. CarriedOut self.old self.new seat actor.serial command.now (answered decided told.new)) }
        ensures memory { OnErr result (copies (terms actor.serial command.now).does ≡ true) }
        ensures unchanged { OnErr result (self.new ≡ self.old) }
    {
        let id = actor.place;
        match effect_of(actor.serial, command) {
            Effect::Joins { from, rights, to } => {
                let source = found.spot(from).place;
                let target = found.spot(to).place;
                let joined = join(&mut self.store, seat, source, target, rights);
                Ok(settle(told, joined))
            }
            Effect::Makes { kind, rights } => {
                let name = name_of(command, alloc)?;
                let made = self.make(alloc, seat, id, kind, rights, name);
                Ok(settle_made(told, made))
            }
            Effect::Drops { rights, over } => {
                self.store.remove_rights(id, over, rights);
                Ok(Outcome::Allowed)
            }
            Effect::Rewrites { over } => {
                replace(&mut self.store, alloc, found.spot(over).place, command)?;
                Ok(Outcome::Allowed)
            }
            Effect::Tells { over } => {
                tell(&self.store, alloc, found.spot(over).place, told)?;
                Ok(Outcome::Allowed)
            }
            Effect::Lists { at } => {
                list(&self.store, alloc, found.spot(at).place, told)?;
                Ok(Outcome::Allowed)
            }
            Effect::Retires => {
                self.retire(actor.serial)?;
                Ok(Outcome::Allowed)
            }
            Effect::Acts { agent } => match agent {
                Some(agent) => {
                    self.store.assume(seat, found.spot(agent).place);
                    Ok(Outcome::Allowed)
                }
                None => {
                    self.store.leave(seat);
                    Ok(Outcome::Allowed)
                }
            },
        }
    }

    /// Decides the command of an actor that has not retired, and carries it out if the rules allow it and nothing that
    /// it needs is used up. `AllocError` leaves everything as it was; it occurs only for an allowed command that copies
    /// a text, a name or a list, and for a retire, so never for a denial.
    #[inline(always)]
    fn answer_at(
        &mut self,
        alloc: Global,
        seat: u64,
        actor: Spot<u32>,
        command: &Command,
        told: &mut Reply,
    ) -> Result<Outcome, AllocError>
        requires seat { seat < SEATS }
        requires idle { pending_of self.old.store seat ≡ None }
        requires listed { principals self.old.store ≡ serials self.old.names }
        requires actor { place self.old.store actor.place ≡ Some actor.serial }
        requires unretired { set.contains (set_of self.old.retired.keys) actor.serial ≡ false }
        requires unheld { IsHeldIn self.old.store self.old.next → ⊥ }
        requires unparked { IsParkedIn self.old.store self.old.next → ⊥ }
        requires told { told.old ≡ reply.Done }
        ensures carried { IfOk result (λ decided. CarriedOut self.old self.new seat actor.serial command.now (answered decided told.new)) }
        ensures needed { OnErr result (Allowed (seen_in self.old) actor.serial command.now) }
        ensures memory { OnErr result (copies (terms actor.serial command.now).does ≡ true) }
        ensures unchanged { OnErr result (self.new ≡ self.old) }
    {
        let found = match decide(&self.store, self.names.as_slice(), actor, command) {
            Ok(found) => found,
            Err(cause) => return Ok(deny(told, command.rule(), &cause)),
        };
        self.carry_out(alloc, seat, actor, command, &found, told)
    }

    /// Decides the command of an actor that has retired: a leave is carried out, any other command denied.
    #[inline(never)]
    fn answer_gone(&mut self, seat: u64, actor: u64, command: &Command, told: &mut Reply) -> Outcome
        requires seat { seat < SEATS }
        requires idle { pending_of self.old.store seat ≡ None }
        requires listed { principals self.old.store ≡ serials self.old.names }
        requires retired { set.contains (set_of self.old.retired.keys) actor ≡ true }
        requires told { told.old ≡ reply.Done }
        ensures { CarriedOut self.old self.new seat actor command.now (answered result told.new) }
    {
        if is_for_retired(actor, command) {
            self.store.leave(seat);
            Outcome::Allowed
        } else {
            deny(told, command.rule(), &Cause::Retired)
        }
    }

    /// Decides the actor's command and carries it out as `answer_at` does. For an actor that has retired, a leave is
    /// carried out, and any other command denied.
    #[inline(always)]
    pub fn answer(
        &mut self,
        alloc: Global,
        seat: u64,
        actor: Actor,
        command: &Command,
        told: &mut Reply,
    ) -> Result<Outcome, AllocError>
        requires seat { seat < SEATS }
        requires idle { pending_of self.old.store seat ≡ None }
        requires listed { principals self.old.store ≡ serials self.old.names }
        requires here { IsHere self.old.store (set_of self.old.retired.keys) actor }
        requires unheld { IsHeldIn self.old.store self.old.next → ⊥ }
        requires unparked { IsParkedIn self.old.store self.old.next → ⊥ }
        requires told { told.old ≡ reply.Done }
        ensures carried { IfOk result (λ decided. CarriedOut self.old self.new seat (serial_in actor) command.now (answered decided told.new)) }
        ensures needed { OnErr result (Allowed (seen_in self.old) (serial_in actor) command.now) }
        ensures memory { OnErr result (copies (terms (serial_in actor) command.now).does ≡ true) }
        ensures unchanged { OnErr result (self.new ≡ self.old) }
    {
        match actor {
            Actor::At(spot) => self.answer_at(alloc, seat, spot, command, told),
            Actor::Gone(serial) => Ok(self.answer_gone(seat, serial, command, told)),
        }
    }
}
