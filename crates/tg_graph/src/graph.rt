//! The plain graph, which is never collected.
ghost use Rattle.std.specs.Prelude.{◌≡◌, ◌≢◌, ◌≤◌, ◌+◌, ◌<◌, ◌↔◌, true, [], None, IsTrue, MatchBool, OnOk, OnErr, IfOk, IfErr, MatchOption, ⊤};
ghost use Rattle.std.specs.FinMap as map;
ghost use Rattle.std.specs.FinSet as set;
ghost use Rattle.tg_graph.specs.Promise.Agreement.{IsRepliedAlike, KeepsViewers};
ghost use Rattle.tg_graph.specs.Promise.Protection.{Agree, Reaches, MayBeNamed, with_member, without_member, Protection, IsGraph, IsSubject, IsVertex, has_retired, kind_of, label, named, vertex, edge};
ghost use Rattle.tg_graph.specs.Inner.Deciding.{IsSubjectIfNamed};
ghost use Rattle.tg_graph.specs.Promise.Rules.{Judged, PlainlyDecided, Applies, text_of, with_text, Allowed, takes_memory, after, allowed_reply, edges_of, last_serial, is_create};
ghost use Rattle.tg_graph.specs.Inner.Searching.{IsSearching, work_left};
ghost use Rattle.tg_graph.specs.Promise.Opening.{first_fault, first_members, opening, principal_count, subjects, IsRefusal};
ghost use Rattle.tg_rights.specs.Promise.Letters.{none};
ghost use Rattle.tg_rights.specs.declared.outcome.Outcome.TheVariants as outcome;

use crate::config::{Config, OpenFault, first_fault};
use crate::member::serial_of;
use crate::roll::Roll;
use crate::rules::{
    Effect, Reader, Spot, decide, effect_of, into_name, into_text, is_create, is_for_retired,
};
use crate::search::Search;
use crate::vertex::Vertex;
use std::alloc::{AllocError, Global};
use std::collections::{BTreeMap, BTreeSet};
use std::marker::Model;
use tg_rights::{Cause, Command, EdgeList, Kind, Name, Outcome, Reply, Rights, Text, Which};

/// The last serial that a vertex may have. Serials are counted up from 1, and none is given twice.
pub const LAST_SERIAL: u64 = 18_446_744_073_709_551_614;

/// A protection graph (Lipton and Snyder 1977; Bishop, Computer Security) in which nothing is ever collected: the
/// model of every other crate. Contracts see its vertices, the next serial, its triples of two vertices and a right,
/// the active principals and those that have retired.
#[derive(Drop)]
pub struct Graph {
    pub(crate) vertices: BTreeMap<u64, Vertex>,
    pub(crate) labels: BTreeMap<(u64, u64), Rights>,
    pub(crate) next: u64,
    pub(crate) roll: Roll,
    pub(crate) retired: BTreeSet<u64>,
    pub(crate) alloc: Global,
}

impl Model for Graph {
    ghost use Rattle.tg_graph.specs.Promise.Protection.{Protection, IsGraph};
    ghost use Rattle.tg_graph.specs.Inner.Views.{protection_of};

    ghost Value = { Protection };

    ghost use Rattle.tg_graph.specs.Inner.Codes.{protection_code};

    ghost coded = { protection_code };

    ghost view = { λ a. protection_of a.vertices.entries a.labels.entries a.next a.roll a.retired.keys };

    ghost invariant = { λ a. IsGraph (protection_of a.vertices.entries a.labels.entries a.next a.roll a.retired.keys) };
}

impl Graph {
    /// The graph that the configuration opens: principal k of its list is the subject of serial k, counted from 1, and
    /// active under its name. Otherwise the first of its faults in the order of `OpenFault`, each checked over the
    /// whole configuration; `OutOfMemory` only if there is no other.
    pub fn build(alloc: Global, config: &Config) -> Result<Graph, OpenFault>
        ensures ok { IfOk result (λ graph. graph ≡ opening config.now) }
        ensures sound { IfOk result (λ _. first_fault config.now ≡ None) }
        ensures graph { IfOk result IsGraph }
        ensures err { IfErr result (λ fault. IsRefusal config.now fault) }
    {
        match first_fault(config) {
            Some(fault) => Err(fault),
            None => match Graph::open(alloc, config) {
                Ok(graph) => {
                    graph.soundness();
                    Ok(graph)
                }
                Err(_) => Err(OpenFault::OutOfMemory),
            },
        }
    }

    /// The graph of a sound configuration.
    fn open(alloc: Global, config: &Config) -> Result<Graph, AllocError>
        requires { first_fault config.now ≡ None }
        ensures { IfOk result (λ graph. graph ≡ opening config.now) }
    {
        let mut graph = Graph::with_principals(alloc, config)?;
        for edge in &config.edges {
            graph.add_rights(edge.0, edge.2, edge.1)?;
        }
        Ok(graph)
    }

    /// The graph of the principals of a sound configuration, with no edge.
    fn with_principals(alloc: Global, config: &Config) -> Result<Graph, AllocError>
        requires { first_fault config.now ≡ None }
        ensures { IfOk result (λ graph. graph ≡ record {
          vertices = subjects (principal_count config.now);
          next = config.now.next;
          triples = set.empty;
          names = first_members 1 config.now.principals.items;
          retired = set.empty;
        }) }
    {
        let principals = config.principals.as_slice();
        let roll = Roll::of_names(alloc, principals)?;
        let count = principals.len() as u64;
        let mut vertices = BTreeMap::new(alloc);
        for index in 0..count {
            let subject = Vertex {
                kind: Kind::Subject,
                text: Text::empty(alloc),
            };
            vertices.insert(index + 1, subject)?;
        }
        let labels = BTreeMap::new(alloc);
        let retired = BTreeSet::new(alloc);
        Ok(Graph {
            vertices,
            labels,
            next: config.next,
            roll,
            retired,
            alloc,
        })
    }

    /// No-op; its postcondition exposes the invariant: the ends of each triple are distinct vertices, the next serial
    /// is above every vertex's, and the principals are subjects under names of their own.
    pub fn soundness(&self)
        ensures { IsGraph self.now }
    {
        let _ = &self.next;
    }

    /// The label from one vertex to another: the rights that `from` has over `to`. It is empty if there is no edge, or
    /// if no vertex has one of the serials.
    pub fn rights(&self, from: u64, to: u64) -> Rights
        ensures { result ≡ label self.now from to }
    {
        match self.labels.get(&(from, to)) {
            Some(rights) => *rights,
            None => Rights::empty(),
        }
    }

    /// What the vertex of this serial is; `None` if there is none.
    pub fn kind(&self, vertex: u64) -> Option<Kind>
        ensures { result ≡ kind_of self.now vertex }
    {
        match self.vertices.get(&vertex) {
            Some(found) => Some(found.kind),
            None => None,
        }
    }

    /// The serial of the active principal of this name; `None` if nobody has it. Allocates nothing.
    pub fn named(&self, name: &str) -> Option<u64>
        ensures { result ≡ named self.now name.now }
    {
        serial_of(self.roll.as_slice(), name)
    }

    /// Lends the active principals.
    pub fn principals(&self) -> &Roll
        ensures { result.now ≡ self.now.names }
    {
        &self.roll
    }

    /// Whether the vertex was a principal and has retired. Allocates nothing.
    pub fn retired(&self, vertex: u64) -> bool
        ensures { result ≡ has_retired self.now vertex }
    {
        self.retired.contains(&vertex)
    }

    /// How the rules alone decide a command of the actor: allowed, or denied for the first cause that holds, in the
    /// order of `Cause`; never full. A subject's command is judged alike in all graphs that agree for it: those in
    /// which the same paths lead from it, to vertices of the same kind, text and labels, the same principals are
    /// active, and it has retired in all or in none.
    pub fn judge(&self, actor: u64, command: &Command) -> Outcome
        requires { IsSubject self.now actor }
        ensures decided { Judged self.now actor command.now result }
        ensures agrees { (H : Protection) → Agree self.now H actor → Judged H actor command.now result }
    {
        self.decide(actor, command)
    }

    /// How the rules alone decide a command of a vertex.
    pub(crate) fn decide(&self, actor: u64, command: &Command) -> Outcome
        ensures { Judged self.now actor command.now result }
    {
        if self.retired(actor) && !is_for_retired(actor, command) {
            return Outcome::Denied(command.rule(), Cause::Retired);
        }
        let spot = Spot {
            serial: actor,
            place: (),
        };
        match decide(self, self.roll.as_slice(), spot, command) {
            Ok(_) => Outcome::Allowed,
            Err(cause) => Outcome::Denied(command.rule(), cause),
        }
    }

    /// Carries out the actor's command if the rules allow it and, for a create or an enrol, a serial is left; otherwise
    /// the graph is unchanged, and the reply says why: `Denied` by the rule, with the first cause, or `Full` for
    /// serials, the only thing that a plain graph can run out of. `AllocError` only for a command that would otherwise
    /// be carried out and needs memory for what is returned or stored, so never for a denial, nor if no serial is left,
    /// nor for a remove, a write, an assume or a leave; the graph is then unchanged too. The command is used up in each
    /// case.
    ///
    /// In graphs that agree for the actor the reply is the same, a new vertex's serial and fullness aside, and graphs
    /// with the same next serial that agree for some subjects, the actor among them, agree for them afterwards.
    pub fn apply(&mut self, actor: u64, command: Command) -> Result<Reply, AllocError>
        requires { IsSubject self.old actor }
        ensures ok { IfOk result (λ reply. Applies self.old actor command reply self.new) }
        ensures err { OnErr result (self.new ≡ self.old) }
        ensures needed { OnErr result (PlainlyDecided self.old actor command outcome.Allowed) }
        ensures memory { OnErr result (takes_memory actor command ≡ true) }
        ensures graph { IsGraph self.new }
        ensures alike { IfOk result (λ reply. IsRepliedAlike self.old actor command reply) }
        ensures viewers { IfOk result (λ reply. KeepsViewers self.old actor command reply self.new) }
    {
        self.soundness();
        let answer = self.answer(actor, command);
        self.soundness();
        answer
    }

    /// Carries out the actor's command, or says why not.
    fn answer(&mut self, actor: u64, command: Command) -> Result<Reply, AllocError>
        requires { IsSubject self.old actor }
        ensures ok { IfOk result (λ reply. Applies self.old actor command reply self.new) }
        ensures err { OnErr result (self.new ≡ self.old) }
        ensures needed { OnErr result (PlainlyDecided self.old actor command outcome.Allowed) }
        ensures memory { OnErr result (takes_memory actor command ≡ true) }
    {
        match self.decide(actor, &command) {
            Outcome::Allowed if is_create(actor, &command) && self.next > LAST_SERIAL => {
                Ok(Reply::Full(Which::Serials))
            }
            Outcome::Allowed => self.carry_out(actor, command),
            Outcome::Denied(rule, cause) => Ok(Reply::Denied(rule, cause)),
            Outcome::Full(which) => Ok(Reply::Full(which)),
        }
    }

    /// Carries out a command that the rules allow.
    fn carry_out(&mut self, actor: u64, command: Command) -> Result<Reply, AllocError>
        requires subject { IsSubject self.old actor }
        requires allowed { Allowed self.old actor command }
        requires room { is_create actor command ≡ true → self.old.next ≤ last_serial }
        ensures reply { IfOk result (λ reply. reply ≡ allowed_reply self.old actor command) }
        ensures ok { OnOk result (self.new ≡ after self.old actor command) }
        ensures err { OnErr result (self.new ≡ self.old) }
        ensures memory { OnErr result (takes_memory actor command ≡ true) }
    {
        let _ = &self.vertices;
        match effect_of(actor, &command) {
            Effect::Joins { from, rights, to } => {
                self.add_rights(from, to, rights)?;
                Ok(Reply::Done)
            }
            Effect::Makes { kind, rights } => {
                let name = into_name(command);
                let serial = self.add_vertex(actor, kind, rights, name)?;
                Ok(Reply::Created(serial))
            }
            Effect::Drops { rights, over } => {
                self.drop_rights(actor, over, rights);
                Ok(Reply::Done)
            }
            Effect::Rewrites { over } => {
                let text = into_text(command, self.alloc);
                self.set_text(over, text);
                Ok(Reply::Done)
            }
            Effect::Tells { over } => {
                let text = self.text(over)?;
                Ok(Reply::Text(text))
            }
            Effect::Lists { at } => {
                let edges = self.edges(at)?;
                Ok(Reply::Edges(edges))
            }
            Effect::Retires => {
                self.retire(actor)?;
                Ok(Reply::Done)
            }
            // For whom a seat acts is no part of the graph.
            Effect::Acts { .. } => Ok(Reply::Done),
        }
    }

    /// Joins the rights to the label.
    pub(crate) fn add_rights(
        &mut self,
        from: u64,
        to: u64,
        rights: Rights,
    ) -> Result<(), AllocError>
        requires from_vertex { IsVertex self.old from }
        requires to_vertex { IsVertex self.old to }
        requires distinct { from ≢ to }
        ensures ok { OnOk result (self.new ≡ record self.old { triples = set.union self.old.triples (edge from rights to) }) }
        ensures err { OnErr result (self.new ≡ self.old) }
    {
        let label = self.rights(from, to).union(rights);
        self.labels.insert((from, to), label)?;
        Ok(())
    }

    /// Takes the rights out of the label.
    pub(crate) fn drop_rights(&mut self, from: u64, to: u64, rights: Rights)
        ensures { self.new ≡ record self.old { triples = set.difference self.old.triples (edge from rights to) } }
    {
        let left = self.rights(from, to).minus(rights);
        if left.is_empty() {
            self.labels.remove(&(from, to));
        } else if let Some(label) = self.labels.get_mut(&(from, to)) {
            *label = left;
        }
    }

    /// Adds a vertex of the next serial, over which the actor has the rights; with a name it is a principal.
    pub(crate) fn add_vertex(
        &mut self,
        actor: u64,
        kind: Kind,
        rights: Rights,
        name: Option<Name>,
    ) -> Result<u64, AllocError>
        requires actor_vertex { IsVertex self.old actor }
        requires room { self.old.next ≤ last_serial }
        requires subject { IsSubjectIfNamed kind name }
        requires named { MayBeNamed self.old.names name }
        ensures serial { IfOk result (λ n. n ≡ self.old.next) }
        ensures ok { OnOk result (self.new ≡ record self.old {
          vertices = map.insert self.old.vertices self.old.next (record { kind = kind; text = [] });
          next = self.old.next + 1;
          triples = set.union self.old.triples (edge actor rights self.old.next);
          names = with_member self.old.names name self.old.next;
        }) }
        ensures err { OnErr result (self.new ≡ self.old) }
    {
        let serial = self.next;
        let vertex = Vertex {
            kind,
            text: Text::empty(self.alloc),
        };
        self.vertices.insert(serial, vertex)?;
        if let Err(refused) = self.labels.insert((actor, serial), rights) {
            self.vertices.remove(&serial);
            return Err(refused.into());
        }
        self.next += 1;
        self.roll.add(name, serial);
        Ok(serial)
    }

    /// Makes the actor a principal no longer.
    pub(crate) fn retire(&mut self, actor: u64) -> Result<(), AllocError>
        requires { IsVertex self.old actor }
        ensures ok { OnOk result (self.new ≡ record self.old {
          names = without_member self.old.names actor;
          retired = set.insert self.old.retired actor;
        }) }
        ensures err { OnErr result (self.new ≡ self.old) }
    {
        self.retired.insert(actor)?;
        self.roll.remove(actor);
        Ok(())
    }

    /// A copy of the vertex's text.
    fn text(&self, of: u64) -> Result<Text, AllocError>
        ensures { IfOk result (λ t. t ≡ text_of self.now of) }
    {
        match self.vertices.get(&of) {
            Some(found) => found.text.copy(self.alloc),
            None => Ok(Text::empty(self.alloc)),
        }
    }

    /// Makes the text that of the vertex.
    pub(crate) fn set_text(&mut self, of: u64, text: Text)
        ensures { self.new ≡ with_text self.old of text (vertex self.old of) }
    {
        if let Some(found) = self.vertices.get_mut(&of) {
            found.text = text;
        }
    }

    /// The vertex's edges by rising serial. It goes through the vertex's own labels, not through all vertices.
    pub(crate) fn edges(&self, of: u64) -> Result<EdgeList, AllocError>
        ensures { IfOk result (λ edges. edges ≡ edges_of self.now of) }
    {
        let mut edges = Vec::new(self.alloc);
        for (&(_, serial), &label) in self.labels.range((of, 0)..(of, self.next)) {
            // No label here is empty, but the type's invariant does not say so.
            if !label.is_empty() {
                edges.push((serial, label))?;
            }
        }
        Ok(EdgeList::new(edges))
    }

    /// Whether a path leads from one vertex to another, along edges of any label that is not empty. A vertex reaches
    /// itself; a serial that no vertex has reaches nothing. `AllocError` if there is no memory for the search.
    pub fn reaches(&self, from: u64, to: u64) -> Result<bool, AllocError>
        ensures { IfOk result (λ reached. IsTrue reached ↔ Reaches self.now from to) }
    {
        if self.kind(from).is_none() {
            return Ok(false);
        }
        let mut search = Search::new(self.alloc, from)?;
        while self.advance(&mut search)? {}
        Ok(search.seen.contains(&to))
    }

    /// Continues along the edges of a vertex from which the search has not continued yet; false if there is none.
    fn advance(&self, search: &mut Search) -> Result<bool, AllocError>
        requires { IsSearching self.now search.old }
        ensures kept { OnOk result (IsSearching self.now search.new) }
        ensures from { OnOk result (search.new.from ≡ search.old.from) }
        ensures ended { IfOk result (λ more. MatchBool more
            (work_left self.now search.new < work_left self.now search.old)
            (search.new.left.items ≡ [])) }
    {
        self.soundness();
        let Some(vertex) = search.left.pop() else {
            return Ok(false);
        };
        let edges = self.edges(vertex)?;
        for edge in edges.get() {
            search.add(edge.0)?;
        }
        Ok(true)
    }

    /// An equal graph; `AllocError` if there is no memory for it.
    pub fn copy(&self) -> Result<Graph, AllocError>
        ensures equal { IfOk result (λ graph. graph ≡ self.now) }
        ensures graph { IfOk result IsGraph }
    {
        let vertices = self.vertices.clone()?;
        let labels = self.labels.clone()?;
        let roll = self.roll.copy(self.alloc)?;
        let retired = self.retired.clone()?;
        let copied = Graph {
            vertices,
            labels,
            next: self.next,
            roll,
            retired,
            alloc: self.alloc,
        };
        copied.soundness();
        Ok(copied)
    }
}

impl Reader for Graph {
    ghost use Rattle.std.specs.Prelude.{⊤};

    type Place = ();

    ghost graph = { λ G. G };

    ghost is_at = { λ _ _. ⊤ };

    fn edge(&self, from: Spot<()>, to: u64) -> Option<((), Rights)>
        ensures { MatchOption result (label self.now from.serial to ≡ none) (λ e. ⊤ × (e.1 ≡ label self.now from.serial to)) }
    {
        let label = self.rights(from.serial, to);
        if label.is_empty() {
            None
        } else {
            Some(((), label))
        }
    }

    fn kind_at(&self, at: Spot<()>) -> Option<Kind>
        ensures { result ≡ kind_of self.now at.serial }
    {
        self.kind(at.serial)
    }
}
