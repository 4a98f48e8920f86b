//! How scripts of calls are played. The helpers stop a test if a call's condition is not met.
ghost use Rattle.std.specs.Prelude.{◌≡◌, ◌≢◌, ◌<◌};
ghost use Rattle.tg_slots.specs.Promise.Table.{Has, Free};
ghost use Rattle.tg_heap.specs.Promise.Graph.{mark_at};

use crate::cases::{rights_of, text};
use crate::heap_scripts::Act::{
    Add, Clear, Edges, Fill, First, Free, Lose, NoEdge, NoSlot, NoneWaits, Put, Scan, Shade, White,
    Whiten,
};
use crate::heap_scripts::{Act, SCRIPTS, Script};
use std::alloc::{AllocError, Global};
use std::process::Abort;
use tg_heap::{Dropped, Heap, HeapFull};
use tg_rights::{Kind, Rights, Text};
use tg_slots::Colour;

/// The slot has a vertex; the condition of a call is then known.
fn is_taken(rt: &impl Abort, heap: &Heap, id: u32)
    ensures { mark_at heap.now id ≢ Free }
{
    assert!(rt; id < heap.len());
    assert!(rt; !heap.is_free(id), "slot {id} is free");
}

fn has_colour(rt: &impl Abort, heap: &Heap, id: u32, colour: Colour)
    ensures { mark_at heap.now id ≡ Has colour }
{
    assert!(rt; id < heap.len());
    assert!(rt;
        heap.colour(id) == Some(colour),
        "slot {id} has another colour"
    );
}

/// Puts a white document without text into the first free slot.
fn put(rt: &impl Abort, alloc: Global, heap: &mut Heap, serial: u64) -> u32 {
    match heap.add_vertex(serial, Kind::Document, Colour::White, Text::empty(alloc)) {
        Ok(id) => id,
        Err(_) => panic!(rt; "no free slot for {serial}"),
    }
}

fn add(
    rt: &impl Abort,
    heap: &mut Heap,
    id: u32,
    target: u32,
    rights: Rights,
) -> Result<(), HeapFull> {
    assert!(rt; !rights.is_empty());
    is_taken(rt, heap, id);
    is_taken(rt, heap, target);
    heap.add_rights(id, target, rights)
}

/// Adds an edge that is not there, while a cell is free.
fn add_first(rt: &impl Abort, heap: &mut Heap, id: u32, target: u32, rights: Rights) {
    assert!(rt; !rights.is_empty());
    is_taken(rt, heap, id);
    is_taken(rt, heap, target);
    assert!(rt; heap.free_cells() != 0);
    let Some(serial) = heap.serial(target) else {
        panic!(rt; "slot {target} is free")
    };
    match heap.edge(id, serial) {
        None => heap.add_edge(id, target, rights),
        Some(_) => panic!(rt; "slot {id} has an edge to {serial}"),
    }
}

fn drop_from(rt: &impl Abort, heap: &mut Heap, id: u32, serial: u64, rights: Rights) -> Dropped {
    assert!(rt; id < heap.len());
    match heap.edge(id, serial) {
        None => panic!(rt; "slot {id} has no edge to {serial}"),
        Some((_, label)) => {
            assert!(rt; label.contains(rights));
            heap.drop_rights(id, serial, rights)
        }
    }
}

fn shade(rt: &impl Abort, heap: &mut Heap, id: u32) {
    assert!(rt; id < heap.len());
    heap.shade(id);
}

/// Takes the first of the grey list, and makes it black.
fn scan(rt: &impl Abort, heap: &mut Heap) -> u32 {
    heap.soundness();
    match heap.pop_grey() {
        None => panic!(rt; "no slot waits"),
        Some(id) => {
            heap.blacken(id);
            id
        }
    }
}

/// Frees a white slot with all its cells.
fn clear(rt: &impl Abort, heap: &mut Heap, id: u32) {
    has_colour(rt, heap, id, Colour::White);
    while heap.strip_one_cell(id) {}
    heap.free_slot(id);
}

/// Puts this many documents into the slots from the first on.
fn fill(rt: &impl Abort, alloc: Global, heap: &mut Heap, count: u32) {
    for id in 0..count {
        let serial = u64::from(id) * 10 + 10;
        assert!(rt; put(rt, alloc, heap, serial) == id);
    }
}

/// Whether the text has these bytes.
fn reads(text: &Text, content: &str) -> bool {
    text.get() == content
}

/// A vertex finds no free slot, and its text is returned.
fn finds_no_slot(rt: &impl Abort, alloc: Global, heap: &mut Heap) {
    match heap.add_vertex(40, Kind::Document, Colour::White, Text::empty(alloc)) {
        Ok(_) => panic!(rt; "a slot too many"),
        Err((full, text)) => assert!(rt; full == HeapFull::Slots && reads(&text, "")),
    }
}

/// The edge loses the rights, and is gone or not; if it is, the edge after it is reported.
fn loses(rt: &impl Abort, heap: &mut Heap, id: u32, serial: u64, rights: Rights, gone: bool) {
    match drop_from(rt, heap, id, serial, rights) {
        Dropped::Kept => assert!(rt; !gone),
        Dropped::Gone { next, .. } => {
            assert!(rt; gone);
            assert!(rt; id < heap.len());
            assert!(rt; next == heap.first(id));
        }
    }
}

/// The slot's edges are these, from its first cell to the next and the next.
fn has_edges(rt: &impl Abort, heap: &Heap, id: u32, wanted: &[(u32, u64, &str)]) {
    assert!(rt; id < heap.len());
    let mut next = heap.first(id);
    for edge in wanted {
        let Some(cell) = next else {
            panic!(rt; "slot {id} has too few edges")
        };
        assert!(rt; heap.target(cell) == edge.0);
        assert!(rt; heap.target_serial(cell) == edge.1);
        assert!(rt; heap.label(cell) == rights_of(edge.2));
        next = heap.next(cell);
    }
    assert!(rt; next.is_none());
}

/// So many slots and cells are free.
fn has_free(rt: &impl Abort, heap: &Heap, slots: u32, cells: u32) {
    assert!(rt; heap.free_slots() == slots && heap.free_cells() == cells);
}

/// Carries out one line of a script.
fn play(rt: &impl Abort, alloc: Global, heap: &mut Heap, act: Act) {
    match act {
        Put(serial, slot) => assert!(rt; put(rt, alloc, heap, serial) == slot),
        Fill(count) => fill(rt, alloc, heap, count),
        NoSlot => finds_no_slot(rt, alloc, heap),
        Add(id, target, letters, full) => {
            let added = add(rt, heap, id, target, rights_of(letters));
            assert!(rt; added.err() == full);
        }
        First(id, target, letters) => add_first(rt, heap, id, target, rights_of(letters)),
        Lose(id, serial, letters, gone) => loses(rt, heap, id, serial, rights_of(letters), gone),
        Shade(id) => shade(rt, heap, id),
        Scan(id) => assert!(rt; scan(rt, heap) == id),
        NoneWaits => assert!(rt; heap.pop_grey().is_none()),
        Whiten(id) => {
            has_colour(rt, heap, id, Colour::Black);
            heap.whiten(id);
        }
        White(id) => has_colour(rt, heap, id, Colour::White),
        Clear(id) => clear(rt, heap, id),
        Free(slots, cells) => has_free(rt, heap, slots, cells),
        Edges(id, wanted) => has_edges(rt, heap, id, wanted),
        NoEdge(id, serial) => {
            assert!(rt; id < heap.len());
            assert!(rt; heap.edge(id, serial).is_none());
        }
    }
}

/// Carries out the lines of a script.
fn play_all(rt: &impl Abort, alloc: Global, heap: &mut Heap, acts: &[Act]) {
    for act in acts {
        play(rt, alloc, heap, *act);
    }
}

/// Carries out a script over a new heap.
fn run(rt: &impl Abort, alloc: Global, script: &Script) -> Result<(), AllocError> {
    assert!(rt; 1 <= script.slots && script.slots <= 65_536);
    assert!(rt; 1 <= script.cells && script.cells <= 1_048_576);
    let mut heap = Heap::new(alloc, script.slots, script.cells)?;
    play_all(rt, alloc, &mut heap, script.acts);
    Ok(())
}

#[test]
fn each_script_runs_as_worked_out(rt: HostRuntime) -> Result<(), AllocError> {
    for script in SCRIPTS {
        run(&rt, rt.alloc(), script)?;
    }
    Ok(())
}

/// Whether there is a text, of these bytes.
fn is_text(text: Option<&Text>, content: &str) -> bool {
    match text {
        Some(text) => reads(text, content),
        None => false,
    }
}

/// The slot has a black subject of this serial and text.
fn has_subject(rt: &impl Abort, heap: &Heap, id: u32, serial: u64, content: &str) {
    assert!(rt; id < heap.len());
    assert!(rt; heap.serial(id) == Some(serial));
    assert!(rt; heap.kind(id) == Some(Kind::Subject));
    assert!(rt; heap.colour(id) == Some(Colour::Black));
    assert!(rt; is_text(heap.text(id), content));
}

/// The one slot gets a black subject of this serial and text.
fn puts_subject(rt: &impl Abort, heap: &mut Heap, serial: u64, text: Text, content: &str) {
    let added = heap.add_vertex(serial, Kind::Subject, Colour::Black, text);
    assert!(rt; added.is_ok());
    assert!(rt; heap.len() == 1);
    has_subject(rt, heap, 0, serial, content);
}

/// The vertex in a slot loses its text, which was this one.
fn loses_text(rt: &impl Abort, alloc: Global, heap: &mut Heap, id: u32, content: &str) {
    is_taken(rt, heap, id);
    assert!(rt; reads(&heap.set_text(id, Text::empty(alloc)), content));
}

#[test]
fn a_vertex_is_read_as_it_was_put_in(rt: HostRuntime) -> Result<(), AllocError> {
    let text = text(rt.alloc(), "hi")?;
    let mut heap = Heap::new(rt.alloc(), 1, 1)?;
    puts_subject(&rt, &mut heap, 7, text, "hi");
    loses_text(&rt, rt.alloc(), &mut heap, 0, "hi");
    Ok(())
}

/// Frees this many slots.
fn clear_all(rt: &impl Abort, heap: &mut Heap, count: u32) {
    for id in 0..count {
        clear(rt, heap, id);
    }
}

/// All slots are filled and freed, with an edge between the last and the first.
fn is_filled_and_freed(rt: &impl Abort, alloc: Global, heap: &mut Heap) {
    for id in 0..65_536 {
        assert!(rt; put(rt, alloc, heap, 10) == id);
    }
    assert!(rt; add(rt, heap, 65_535, 0, Rights::grant()).is_ok());
    has_free(rt, heap, 0, 1_048_575);
    clear_all(rt, heap, 65_536);
}

#[test]
fn as_many_slots_and_cells_as_there_may_be(rt: HostRuntime) -> Result<(), AllocError> {
    let mut heap = Heap::new(rt.alloc(), 65_536, 1_048_576)?;
    is_filled_and_freed(&rt, rt.alloc(), &mut heap);
    has_free(&rt, &heap, 65_536, 1_048_576);
    Ok(())
}

/// A document and two principals fill three slots; the edge to it takes one cell, and gives it back.
const FILLED: &[Act] = &[
    Free(3, 4),
    Put(1, 0),
    Put(2, 1),
    Put(3, 2),
    Add(0, 2, "r", None),
    Free(0, 3),
    Lose(0, 3, "r", true),
    NoSlot,
    Free(0, 4),
];

/// A heap, made again if memory runs out: tests/faults/growths.py makes each allocation fail in turn.
fn made_again(rt: &impl Print, alloc: Global) -> Result<Heap, AllocError> {
    match Heap::new(alloc, 3, 4) {
        Ok(heap) => Ok(heap),
        Err(_) => {
            let _ = rt.println("no memory");
            Heap::new(alloc, 3, 4)
        }
    }
}

/// A heap that lacks memory is made again, with all of it free.
#[test]
fn growth_refused_in_a_new_heap(rt: HostRuntime) -> Result<(), AllocError> {
    let mut heap = made_again(&rt, rt.alloc())?;
    play_all(&rt, rt.alloc(), &mut heap, FILLED);
    Ok(())
}
