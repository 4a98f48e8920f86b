//! Scripts of store calls with every note of the collector, in the steps that were worked out by hand. The helpers stop
//! a test if a call's condition is not met.
ghost use Rattle.std.specs.Prelude.{◌≡◌, ◌<◌, Some, None, false, length, IfOk};
ghost use Rattle.std.specs.Bool.{OnFalse};
ghost use Rattle.tg_collect.specs.Promise.Openings.{Fitted};
ghost use Rattle.tg_collect.specs.Inner.Stored.{stored};
ghost use Rattle.tg_collect.specs.Promise.Readings.{IsHeldIn, IsParkedIn, pending_of, place, principals};
ghost use Rattle.tg_rights.specs.Promise.Letters.{is_none};
ghost use Rattle.tg_rights.specs.declared.limits.TheConstants.{SEATS};

use crate::acts::Act::{
    Agent, Assume, At, Create, Cycle, Edge, End, Enrol, FreeCells, FreeSlots, Join, Leave, Mark,
    Pending, Principals, Reads, Reclaim, Remove, Rest, Retire, Shade, Sweep, Write,
};
use crate::acts::{Act, Script};
use crate::machine::Machine;
use crate::scripts::SCRIPTS;
use crate::{Note, Phase, Store, Swept};
use std::alloc::{AllocError, Global};
use std::process::Abort;
use tg_graph::{Config, Graph, OpenFault};
use tg_heap::HeapFull;
use tg_rights::{Kind, Rights, Text, Word};

/// Whether a slot has the serial, held or parked.
pub(crate) fn has(machine: &Machine, serial: u64) -> bool
    ensures { OnFalse result ((IsHeldIn (stored machine.now) serial → ⊥) × (IsParkedIn (stored machine.now) serial → ⊥)) }
{
    for id in 0..machine.heap.len() {
        if machine.heap.serial(id) == Some(serial) {
            return true;
        }
    }
    false
}

/// How many principals there are.
pub(crate) fn count(machine: &Machine) -> usize
    ensures { result ≡ length (principals (stored machine.now)) }
{
    machine.roots.principals.len()
}

/// Whether these are the principals, in this order.
pub(crate) fn are_principals(machine: &Machine, serials: &[u64]) -> bool {
    let principals = machine.roots.principals.as_slice();
    for (root, serial) in principals.iter().zip(serials.iter()) {
        if root.serial != *serial {
            return false;
        }
    }
    principals.len() == serials.len()
}

/// The rights of the letters.
pub fn rights(letters: &str) -> Rights {
    let mut rights = Rights::empty();
    for (letter, right) in b"rwtg".iter().zip(Rights::each().iter()) {
        if letters.as_bytes().contains(letter) {
            rights = rights.union(*right);
        }
    }
    rights
}

fn words(alloc: Global, names: &[&str]) -> Result<Vec<Word>, AllocError> {
    let mut principals = Vec::new(alloc);
    for name in names {
        principals.push(Word::new(String::from_str(alloc, name)?))?;
    }
    Ok(principals)
}

fn edges(
    alloc: Global,
    wanted: &[(u64, &str, u64)],
) -> Result<Vec<(u64, Rights, u64)>, AllocError> {
    let mut edges = Vec::new(alloc);
    for edge in wanted {
        edges.push((edge.0, rights(edge.1), edge.2))?;
    }
    Ok(edges)
}

/// What a script is opened with.
fn config(alloc: Global, script: &Script) -> Result<Config, AllocError>
    ensures slots { IfOk result (λ config. config.slots ≡ script.now.slots) }
    ensures cells { IfOk result (λ config. config.cells ≡ script.now.cells) }
{
    let edges = edges(alloc, script.edges)?;
    let principals = words(alloc, script.principals)?;
    let next = principals.len() as u64 + 1;
    Ok(Config {
        principals,
        edges,
        next,
        slots: u64::from(script.slots),
        cells: u64::from(script.cells),
    })
}

/// The failed allocation that this fault stands for; any other fault stops the test.
fn only_out_of_memory(rt: &impl Abort, fault: OpenFault) -> AllocError {
    assert!(rt; fault == OpenFault::OutOfMemory, "refused: {fault:?}");
    AllocError
}

/// The graph that a script is opened with, which a store of the script's slots and cells can open.
pub fn graph(rt: &impl Abort, alloc: Global, script: &Script) -> Result<Graph, AllocError>
    ensures { IfOk result (λ graph. Fitted graph script.now.slots script.now.cells) }
{
    let config = config(alloc, script)?;
    match Graph::build(alloc, &config) {
        Err(fault) => Err(only_out_of_memory(rt, fault)),
        Ok(graph) => {
            crate::openings_can_be_stored();
            Ok(graph)
        }
    }
}

pub fn open(rt: &impl Abort, alloc: Global, script: &Script) -> Result<Store, AllocError> {
    let graph = graph(rt, alloc, script)?;
    Store::new(alloc, &graph, script.slots, script.cells)
}

/// The slot of a principal, or of a vertex that it has an edge to.
pub fn at(rt: &impl Abort, store: &Store, principal: u64, serial: u64) -> u32
    ensures { place store.now result ≡ Some serial }
{
    match store.principal(principal) {
        None => panic!(rt; "{principal} is no principal"),
        Some(id) => {
            if serial == principal {
                return id;
            }
            match store.edge(id, serial) {
                None => panic!(rt; "{principal} has no right over {serial}"),
                Some((slot, _)) => slot,
            }
        }
    }
}

/// Stops the test unless a new vertex may be stored for a seat.
fn may_store(rt: &impl Abort, store: &Store, seat: u64, serial: u64, rights: Rights)
    ensures seat { seat < SEATS }
    ensures idle { pending_of store.now seat ≡ None }
    ensures some { is_none rights ≡ false }
    ensures unheld { IsHeldIn store.now serial → ⊥ }
    ensures unparked { IsParkedIn store.now serial → ⊥ }
{
    assert!(rt; seat < 64);
    assert!(rt; store.pending(seat).is_none());
    assert!(rt; !rights.is_empty());
    assert!(rt; !store.has(serial), "{serial} is there");
}

/// A document of a principal.
pub fn create(
    rt: &impl Abort,
    alloc: Global,
    store: &mut Store,
    seat: u64,
    principal: u64,
    serial: u64,
    rights: Rights,
) -> Result<(), HeapFull> {
    may_store(rt, store, seat, serial, rights);
    let id = at(rt, store, principal, principal);
    match store.store_vertex(seat, id, serial, Kind::Document, rights, Text::empty(alloc)) {
        Ok(()) => Ok(()),
        Err((full, _)) => Err(full),
    }
}

/// A subject of a principal, who is a principal too.
fn enrol(
    rt: &impl Abort,
    alloc: Global,
    store: &mut Store,
    seat: u64,
    principal: u64,
    serial: u64,
    rights: Rights,
) -> Result<(), HeapFull> {
    may_store(rt, store, seat, serial, rights);
    assert!(rt; store.principal_count() < 64);
    let id = at(rt, store, principal, principal);
    match store.store_principal(seat, id, serial, rights, Text::empty(alloc)) {
        Ok(()) => Ok(()),
        Err((full, _)) => Err(full),
    }
}

/// Joins rights to an edge; each of its ends is given with a principal that has a right over it.
fn join(
    rt: &impl Abort,
    store: &mut Store,
    seat: u64,
    from: (u64, u64),
    to: (u64, u64),
    rights: Rights,
) -> Result<(), HeapFull> {
    assert!(rt; seat < 64);
    assert!(rt; store.pending(seat).is_none());
    assert!(rt; !rights.is_empty());
    let id = at(rt, store, from.0, from.1);
    let target = at(rt, store, to.0, to.1);
    assert!(rt; id != target);
    store.store_edge(seat, id, target, rights)
}

/// Takes rights from a principal.
fn remove(rt: &impl Abort, store: &mut Store, principal: u64, serial: u64, rights: Rights) {
    let id = at(rt, store, principal, principal);
    match store.edge(id, serial) {
        None => panic!(rt; "{principal} has no right over {serial}"),
        Some((_, label)) => {
            assert!(rt; label.contains(rights));
            store.remove_rights(id, serial, rights);
        }
    }
}

/// Lets a seat assume a principal, or a vertex that it has an edge to.
fn assume(rt: &impl Abort, store: &mut Store, seat: u64, principal: u64, serial: u64) {
    assert!(rt; seat < 64);
    assert!(rt; store.pending(seat).is_none());
    let id = at(rt, store, principal, serial);
    store.assume(seat, id);
}

fn leave(rt: &impl Abort, store: &mut Store, seat: u64) {
    assert!(rt; seat < 64);
    store.leave(seat);
}

fn agent(rt: &impl Abort, store: &Store, seat: u64) -> Option<(u64, u32)> {
    assert!(rt; seat < 64);
    store.agent(seat)
}

pub fn shade(rt: &impl Abort, store: &mut Store, seat: u64) -> Option<u64> {
    assert!(rt; seat < 64);
    store.shade(seat)
}

fn pending(rt: &impl Abort, store: &Store, seat: u64) -> Option<u64> {
    assert!(rt; seat < 64);
    store.pending(seat)
}

/// Replaces the text of a document over which a principal has a right; returns whether the old one was this.
fn replaces(
    rt: &impl Abort,
    alloc: Global,
    store: &mut Store,
    principal: u64,
    serial: u64,
    new: &str,
    old: &str,
) -> Result<bool, AllocError> {
    let Ok(text) = Text::new(String::from_str(alloc, new)?) else {
        panic!(rt; "the text is too long");
    };
    let id = at(rt, store, principal, serial);
    Ok(reads(&store.set_text(id, text), old))
}

fn reads(text: &Text, wanted: &str) -> bool {
    text.get() == wanted
}

/// Whether a document over which a principal has a right has this text.
fn is_text(rt: &impl Abort, store: &Store, principal: u64, serial: u64, text: &str) -> bool {
    let id = at(rt, store, principal, serial);
    reads(store.text(id), text) && store.kind(id) == Kind::Document
}

/// Whether this is a principal's only edge.
fn has_edge(
    rt: &impl Abort,
    alloc: Global,
    store: &Store,
    principal: u64,
    serial: u64,
    rights: Rights,
) -> Result<bool, AllocError> {
    let id = at(rt, store, principal, principal);
    let edges = store.edges(alloc, id)?;
    Ok(edges.as_slice() == [(serial, rights)].as_slice())
}

/// Makes this many steps of the collector; returns whether each has this note.
fn steps(store: &mut Store, count: u32, phase: Phase, freed: u64, ended: bool) -> bool {
    let wanted = Note {
        phase,
        freed,
        ended,
    };
    for _ in 0..count {
        if store.collect() != wanted {
            return false;
        }
    }
    true
}

/// Whether a cycle has so many steps of the marking and of the sweep, and frees no slot.
fn cycles(store: &mut Store, marked: u32, swept: u32) -> bool {
    steps(store, marked, Phase::Mark, 0, false)
        && steps(store, swept, Phase::Sweep, 0, false)
        && steps(store, 1, Phase::Idle, 0, true)
}

/// Whether the steps that are left of a cycle free so many slots, and are so many.
fn is_rest(store: &mut Store, freed: u64, steps: u64) -> bool {
    store.cycle() == Swept { freed, steps }
}

/// Carries out one line of a script; returns whether it goes as it says.
fn goes(rt: &impl Abort, alloc: Global, store: &mut Store, act: &Act) -> Result<bool, AllocError> {
    match act {
        Create(seat, principal, serial, letters, full) => {
            let asked = rights(letters);
            let made = create(rt, alloc, store, *seat, *principal, *serial, asked);
            Ok(made.err() == *full)
        }
        Enrol(seat, principal, serial, letters, full) => {
            let asked = rights(letters);
            let enrolled = enrol(rt, alloc, store, *seat, *principal, *serial, asked);
            Ok(enrolled.err() == *full)
        }
        Retire(serial) => {
            store.retire(*serial);
            Ok(true)
        }
        Principals(serials) => Ok(store.has_principals(serials)),
        Join(seat, from, to, letters, full) => {
            let joined = join(rt, store, *seat, *from, *to, rights(letters));
            Ok(joined.err() == *full)
        }
        Remove(principal, serial, letters) => {
            remove(rt, store, *principal, *serial, rights(letters));
            Ok(true)
        }
        Shade(seat, target) => Ok(shade(rt, store, *seat) == *target),
        Assume(seat, principal, serial) => {
            assume(rt, store, *seat, *principal, *serial);
            Ok(true)
        }
        Leave(seat) => {
            leave(rt, store, *seat);
            Ok(true)
        }
        Agent(seat, found) => Ok(agent(rt, store, *seat) == *found),
        Write(principal, serial, new, old) => {
            replaces(rt, alloc, store, *principal, *serial, new, old)
        }
        Mark(count) => Ok(steps(store, *count, Phase::Mark, 0, false)),
        Sweep(count) => Ok(steps(store, *count, Phase::Sweep, 0, false)),
        Reclaim(count) => Ok(steps(store, *count, Phase::Sweep, 1, false)),
        End => Ok(steps(store, 1, Phase::Idle, 0, true)),
        Cycle(marked, swept) => Ok(cycles(store, *marked, *swept)),
        Rest(freed, steps) => Ok(is_rest(store, *freed, *steps)),
        Pending(seat, target) => Ok(pending(rt, store, *seat) == *target),
        FreeSlots(count) => Ok(store.free_slots() == *count),
        FreeCells(count) => Ok(store.free_cells() == *count),
        At(principal, serial, slot) => Ok(at(rt, store, *principal, *serial) == *slot),
        Reads(principal, serial, text) => Ok(is_text(rt, store, *principal, *serial, text)),
        Edge(principal, serial, letters) => {
            has_edge(rt, alloc, store, *principal, *serial, rights(letters))
        }
    }
}

/// Carries out the lines of a script over a store that was opened for it.
pub fn play(
    rt: &impl Abort,
    alloc: Global,
    store: &mut Store,
    script: &Script,
) -> Result<(), AllocError> {
    for act in script.acts {
        assert!(rt; goes(rt, alloc, store, act)?, "{}", script.name);
    }
    Ok(())
}

fn run(rt: &impl Abort, alloc: Global, script: &Script) -> Result<(), AllocError> {
    let mut store = open(rt, alloc, script)?;
    play(rt, alloc, &mut store, script)
}

#[test]
fn scripts_go_as_worked_out(rt: HostRuntime) -> Result<(), AllocError> {
    for script in SCRIPTS {
        run(&rt, rt.alloc(), script)?;
    }
    Ok(())
}
