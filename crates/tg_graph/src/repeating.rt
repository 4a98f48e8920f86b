//! Commands whose replies are known, carried out once more.
ghost use Rattle.std.specs.Prelude.{◌≡◌, ◌≤◌, ◌↔◌, Some, true, slice_get, IsTrue, IfOk, IfSome, OnErr, OnOk};
ghost use Rattle.tg_rights.specs.declared.outcome.Outcome.TheVariants as outcome;
ghost use Rattle.tg_rights.specs.declared.outcome.Reply.TheVariants as reply;
ghost use Rattle.tg_graph.specs.Promise.Protection.{IsGraph, IsSubject};
ghost use Rattle.tg_graph.specs.Promise.Repeating.{Repeats, takes_room};
ghost use Rattle.tg_graph.specs.Promise.Rules.{Allowed, PlainlyDecided, after, allowed_reply, edges_of, is_create, last_serial, text_of};
ghost use Rattle.tg_graph.specs.Promise.Terms.{name_in, text_in};

use crate::graph::{Graph, LAST_SERIAL};
use crate::rules::{Effect, effect_of, is_create};
use std::alloc::{AllocError, Global};
use tg_rights::{Command, Kind, Name, Outcome, Reply, Rights, Text, Which};

impl Graph {
    /// Carries out the actor's command as `apply` does, and says whether this is the reply to it, so that a caller who
    /// was given the reply can check it. Nothing is copied but a text that is written and a name that is enrolled.
    /// `AllocError` only for a command that would otherwise be carried out and needs memory for what is stored, so
    /// never for a denial, a read, a look, a remove, an assume or a leave; the graph is then unchanged.
    pub fn repeat(
        &mut self,
        actor: u64,
        command: &Command,
        told: &Reply,
    ) -> Result<bool, AllocError>
        requires { IsSubject self.old actor }
        ensures ok { IfOk result (λ same. Repeats self.old actor command.now told.now same self.new) }
        ensures err { OnErr result (self.new ≡ self.old) }
        ensures needed { OnErr result (PlainlyDecided self.old actor command.now outcome.Allowed) }
        ensures memory { OnErr result (takes_room actor command.now ≡ true) }
        ensures graph { IsGraph self.new }
    {
        self.soundness();
        let answer = self.answer_soon(actor, command, told);
        self.soundness();
        answer
    }

    /// Carries out the actor's command, or finds why not, and says whether this is the reply: quickly for a read that
    /// the rules allow, as most commands are.
    fn answer_soon(
        &mut self,
        actor: u64,
        command: &Command,
        told: &Reply,
    ) -> Result<bool, AllocError>
        requires { IsSubject self.old actor }
        ensures ok { IfOk result (λ same. Repeats self.old actor command.now told.now same self.new) }
        ensures err { OnErr result (self.new ≡ self.old) }
        ensures needed { OnErr result (PlainlyDecided self.old actor command.now outcome.Allowed) }
        ensures memory { OnErr result (takes_room actor command.now ≡ true) }
    {
        if let Command::Read { over } = command
            && let Some(same) = self.read_again(actor, *over, told)
        {
            return Ok(same);
        }
        self.answer_again(actor, command, told)
    }

    /// Whether this is the reply to a read, if the rules allow it; the vertex is looked up once.
    fn read_again(&self, actor: u64, over: u64, told: &Reply) -> Option<bool>
        ensures allowed { IfSome result (λ _. Allowed self.now actor (Command.Read over)) }
        ensures same { IfSome result (λ same. IsTrue same ↔ reply.Text (text_of self.now over) ≡ told.now) }
    {
        if self.retired(actor) || actor == over {
            return None;
        }
        if !self.rights(actor, over).contains(Rights::read()) {
            return None;
        }
        let found = self.vertices.get(&over)?;
        match found.kind {
            Kind::Document => Some(is_text(told, &found.text)),
            Kind::Subject => None,
        }
    }

    /// Carries out the actor's command, or finds why not, and says whether this is the reply.
    #[inline(never)]
    fn answer_again(
        &mut self,
        actor: u64,
        command: &Command,
        told: &Reply,
    ) -> Result<bool, AllocError>
        requires { IsSubject self.old actor }
        ensures ok { IfOk result (λ same. Repeats self.old actor command.now told.now same self.new) }
        ensures err { OnErr result (self.new ≡ self.old) }
        ensures needed { OnErr result (PlainlyDecided self.old actor command.now outcome.Allowed) }
        ensures memory { OnErr result (takes_room actor command.now ≡ true) }
    {
        match self.decide(actor, command) {
            Outcome::Allowed if is_create(actor, command) && self.next > LAST_SERIAL => {
                Ok(is_reply(told, Reply::Full(Which::Serials)))
            }
            Outcome::Allowed => self.carry_out_again(actor, command, told),
            Outcome::Denied(rule, cause) => Ok(is_reply(told, Reply::Denied(rule, cause))),
            Outcome::Full(which) => Ok(is_reply(told, Reply::Full(which))),
        }
    }

    /// Carries out a command that the rules allow, and says whether this is the reply.
    fn carry_out_again(
        &mut self,
        actor: u64,
        command: &Command,
        told: &Reply,
    ) -> Result<bool, AllocError>
        requires subject { IsSubject self.old actor }
        requires allowed { Allowed self.old actor command.now }
        requires room { is_create actor command.now ≡ true → self.old.next ≤ last_serial }
        ensures same { IfOk result (λ same. IsTrue same ↔ allowed_reply self.old actor command.now ≡ told.now) }
        ensures ok { OnOk result (self.new ≡ after self.old actor command.now) }
        ensures err { OnErr result (self.new ≡ self.old) }
        ensures memory { OnErr result (takes_room actor command.now ≡ true) }
    {
        let _ = &self.vertices;
        match effect_of(actor, command) {
            Effect::Joins { from, rights, to } => {
                self.add_rights(from, to, rights)?;
                Ok(is_done(told))
            }
            Effect::Makes { kind, rights } => {
                let name = copied_name(self.alloc, command)?;
                let serial = self.add_vertex(actor, kind, rights, name)?;
                Ok(is_reply(told, Reply::Created(serial)))
            }
            Effect::Drops { rights, over } => {
                self.drop_rights(actor, over, rights);
                Ok(is_done(told))
            }
            Effect::Rewrites { over } => {
                let text = copied_text(self.alloc, command)?;
                self.set_text(over, text);
                Ok(is_done(told))
            }
            Effect::Tells { over } => Ok(self.tells(over, told)),
            Effect::Lists { at } => Ok(self.lists(at, told)),
            Effect::Retires => {
                self.retire(actor)?;
                Ok(is_done(told))
            }
            Effect::Acts { .. } => Ok(is_done(told)),
        }
    }

    /// Whether the reply is the vertex's text.
    fn tells(&self, of: u64, told: &Reply) -> bool
        ensures { IsTrue result ↔ reply.Text (text_of self.now of) ≡ told.now }
    {
        match self.vertices.get(&of) {
            Some(found) => is_text(told, &found.text),
            None => is_text(told, &Text::empty(self.alloc)),
        }
    }

    /// Whether the reply is the vertex's edges by rising serial.
    fn lists(&self, of: u64, told: &Reply) -> bool
        ensures { IsTrue result ↔ reply.Edges (edges_of self.now of) ≡ told.now }
    {
        match told {
            Reply::Edges(edges) => self.has_edges(of, edges.get()),
            _ => false,
        }
    }

    /// Whether these are the vertex's edges by rising serial. It goes through the vertex's own labels.
    fn has_edges(&self, of: u64, listed: &[(u64, Rights)]) -> bool
        ensures { IsTrue result ↔ edges_of self.now of ≡ listed.now }
    {
        let mut at = 0;
        for (&(_, serial), &label) in self.labels.range((of, 0)..(of, self.next)) {
            // No label here is empty, but the type's invariant does not say so.
            if !label.is_empty() {
                if !is_there(listed, at, serial, label) {
                    return false;
                }
                at += 1;
            }
        }
        at == listed.len()
    }
}

/// Whether the edge stands at this place of the list.
fn is_there(listed: &[(u64, Rights)], at: usize, serial: u64, label: Rights) -> bool
    ensures { IsTrue result ↔ slice_get listed.now at ≡ Some (serial, label) }
{
    match listed.get(at) {
        Some(edge) => edge.0 == serial && edge.1 == label,
        None => false,
    }
}

/// Whether the reply is this text.
fn is_text(told: &Reply, text: &Text) -> bool
    ensures { IsTrue result ↔ reply.Text text.now ≡ told.now }
{
    match told {
        Reply::Text(other) => *text == *other,
        _ => false,
    }
}

/// Whether the reply is `Done`.
fn is_done(told: &Reply) -> bool
    ensures { IsTrue result ↔ reply.Done ≡ told.now }
{
    matches!(told, Reply::Done)
}

/// Whether the one reply is the other.
fn is_reply(told: &Reply, reply: Reply) -> bool
    ensures { IsTrue result ↔ reply ≡ told.now }
{
    reply == *told
}

/// A copy of the name that the command gives to a new principal, if it gives one.
fn copied_name(alloc: Global, command: &Command) -> Result<Option<Name>, AllocError>
    ensures { IfOk result (λ name. name ≡ name_in command.now) }
{
    match command {
        Command::Enrol { name, .. } => Ok(Some(name.copy(alloc)?)),
        _ => Ok(None),
    }
}

/// A copy of the text that the command brings; the empty one if it brings none.
fn copied_text(alloc: Global, command: &Command) -> Result<Text, AllocError>
    ensures { IfOk result (λ text. text ≡ text_in command.now) }
{
    match command {
        Command::Write { text, .. } => text.copy(alloc),
        _ => Ok(Text::empty(alloc)),
    }
}
