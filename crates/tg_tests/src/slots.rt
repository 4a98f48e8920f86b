//! Scripts of calls, and the lists that they must return. The helpers stop a test if a call's condition is not met.
ghost use Rattle.std.specs.Prelude.{◌≡◌};
ghost use Rattle.tg_slots.specs.Promise.Table.{Has, mark};

use std::alloc::{AllocError, Global};
use std::process::Abort;
use tg_rights::{Kind, Text};
use tg_slots::{Colour, Slots};

/// The slot has this colour; the condition of a call is then known.
fn has_colour(rt: &impl Abort, slots: &Slots, id: u32, colour: Colour)
    ensures { mark slots.now id ≡ Has colour }
{
    assert!(rt; id < slots.len());
    assert!(rt;
        slots.colour(id) == Some(colour),
        "slot {id} has another colour"
    );
}

/// Takes the first free slot for a white document without text.
fn take(rt: &impl Abort, alloc: Global, slots: &mut Slots, serial: u64) -> u32 {
    match slots.take_free(serial, Kind::Document, Colour::White, Text::empty(alloc)) {
        Ok(id) => id,
        Err(_) => panic!(rt; "no free slot for {serial}"),
    }
}

fn give(rt: &impl Abort, slots: &mut Slots, id: u32) {
    has_colour(rt, slots, id, Colour::White);
    slots.give_back(id);
}

fn shade(rt: &impl Abort, slots: &mut Slots, id: u32) {
    has_colour(rt, slots, id, Colour::White);
    slots.push_grey(id);
}

/// Takes the first of the grey list, and makes it black.
fn scan(rt: &impl Abort, slots: &mut Slots) -> u32 {
    slots.soundness();
    match slots.pop_grey() {
        None => panic!(rt; "no slot waits"),
        Some(id) => {
            slots.blacken(id);
            id
        }
    }
}

/// One call of a script with its result, or what must be seen after the calls before it.
#[derive(Clone, Copy)]
enum Act {
    /// A white document is put into this slot.
    Take(u32),
    /// A white slot is given back.
    Give(u32),
    Shade(u32),
    /// The first of the grey list is this slot, and is made black.
    Scan(u32),
    /// No slot waits in the grey list.
    NoneWaits,
    /// A black slot is made white.
    Whiten(u32),
    /// This many slots are free.
    Free(u32),
}

use Act::{Free, Give, NoneWaits, Scan, Shade, Take, Whiten};

struct Script {
    slots: u32,
    acts: &'static [Act],
}

const SCRIPTS: &[Script] = &[
    // the slot given back last is taken first
    Script {
        slots: 4,
        acts: &[
            Free(4),
            Take(0),
            Take(1),
            Take(2),
            Take(3),
            Free(0),
            Give(1),
            Give(3),
            Give(0),
            Free(3),
            Take(0),
            Take(3),
            Take(1),
            Free(0),
        ],
    },
    // the slot shaded last is scanned first
    Script {
        slots: 4,
        acts: &[
            Take(0),
            Take(1),
            Take(2),
            Take(3),
            Shade(2),
            Shade(0),
            Shade(3),
            Scan(3),
            Scan(0),
            Shade(1),
            Scan(1),
            Scan(2),
            NoneWaits,
            Whiten(0),
            Whiten(1),
            Whiten(2),
            Whiten(3),
        ],
    },
    // slots go from the free list into use, to the grey list and back, while both lists are in use
    Script {
        slots: 5,
        acts: &[
            Take(0),
            Take(1),
            Take(2),
            Take(3),
            Shade(1),
            Give(2),
            Shade(3),
            Give(0),
            Scan(3),
            Scan(1),
            NoneWaits,
            Take(0),
            Take(2),
            Take(4),
            Free(0),
        ],
    },
];

/// Carries out one line of a script.
fn play(rt: &impl Abort, alloc: Global, slots: &mut Slots, act: Act) {
    match act {
        Take(id) => assert!(rt; take(rt, alloc, slots, 10) == id),
        Give(id) => give(rt, slots, id),
        Shade(id) => shade(rt, slots, id),
        Scan(id) => assert!(rt; scan(rt, slots) == id),
        NoneWaits => assert!(rt; slots.pop_grey().is_none()),
        Whiten(id) => {
            has_colour(rt, slots, id, Colour::Black);
            slots.whiten(id);
            has_colour(rt, slots, id, Colour::White);
        }
        Free(count) => assert!(rt; slots.free() == count),
    }
}

/// Carries out a script over new slots.
fn run(rt: &impl Abort, alloc: Global, script: &Script) -> Result<(), AllocError> {
    assert!(rt; 1 <= script.slots && script.slots <= 65_536);
    let mut slots = Slots::new(alloc, script.slots)?;
    assert!(rt; slots.len() == script.slots);
    for act in script.acts {
        play(rt, alloc, &mut slots, *act);
    }
    Ok(())
}

#[test]
fn each_script_runs_as_worked_out(rt: HostRuntime) -> Result<(), AllocError> {
    for script in SCRIPTS {
        run(&rt, rt.alloc(), script)?;
    }
    Ok(())
}

/// A text of these bytes.
fn text(rt: &impl Abort, alloc: Global, content: &str) -> Result<Text, AllocError> {
    match Text::new(String::from_str(alloc, content)?) {
        Ok(text) => Ok(text),
        Err(_) => panic!(rt; "the text is too long"),
    }
}

/// No slot is free for a vertex with this text, which is returned.
fn hands_back(rt: &impl Abort, slots: &mut Slots, text: Text, content: &str) {
    match slots.take_free(2, Kind::Subject, Colour::Black, text) {
        Ok(_) => panic!(rt; "a second slot of one"),
        Err(text) => assert!(rt; text.get() == content),
    }
}

#[test]
fn a_full_table_hands_the_text_back(rt: HostRuntime) -> Result<(), AllocError> {
    let text = text(&rt, rt.alloc(), "hi")?;
    let mut slots = Slots::new(rt.alloc(), 1)?;
    assert!(rt; take(&rt, rt.alloc(), &mut slots, 1) == 0);
    hands_back(&rt, &mut slots, text, "hi");
    give(&rt, &mut slots, 0);
    assert!(rt; take(&rt, rt.alloc(), &mut slots, 3) == 0);
    Ok(())
}

/// Whether there is a text, of these bytes.
fn reads(text: Option<&Text>, content: &str) -> bool {
    match text {
        Some(text) => text.get() == content,
        None => false,
    }
}

/// The slot has a black subject of this serial and text.
fn has_subject(rt: &impl Abort, slots: &Slots, id: u32, serial: u64, content: &str) {
    assert!(rt; id < slots.len());
    assert!(rt; !slots.is_free(id));
    assert!(rt; slots.serial(id) == Some(serial));
    assert!(rt; slots.kind(id) == Some(Kind::Subject));
    assert!(rt; slots.colour(id) == Some(Colour::Black));
    assert!(rt; reads(slots.text(id), content));
}

/// The slot is free, and has none of what a vertex has.
fn has_nothing(rt: &impl Abort, slots: &Slots, id: u32) {
    assert!(rt; id < slots.len());
    assert!(rt; slots.is_free(id));
    assert!(rt; slots.serial(id).is_none());
    assert!(rt; slots.kind(id).is_none());
    assert!(rt; slots.colour(id).is_none());
    assert!(rt; slots.text(id).is_none());
}

/// The first of two slots gets a black subject of this serial and text.
fn puts_subject(rt: &impl Abort, slots: &mut Slots, serial: u64, text: Text, content: &str) {
    slots.soundness();
    let taken = slots.take_free(serial, Kind::Subject, Colour::Black, text);
    assert!(rt; taken.is_ok());
    assert!(rt; slots.len() == 2);
    has_subject(rt, slots, 0, serial, content);
}

#[test]
fn a_vertex_is_read_as_it_was_put_in(rt: HostRuntime) -> Result<(), AllocError> {
    let text = text(&rt, rt.alloc(), "first")?;
    let mut slots = Slots::new(rt.alloc(), 2)?;
    puts_subject(&rt, &mut slots, 7, text, "first");
    has_nothing(&rt, &slots, 1);
    Ok(())
}

/// A white vertex gets a text, in place of this one.
fn replaces(rt: &impl Abort, slots: &mut Slots, id: u32, new: Text, old: &str) {
    has_colour(rt, slots, id, Colour::White);
    assert!(rt; reads(Some(&slots.set_text(id, new)), old));
}

#[test]
fn a_text_is_replaced(rt: HostRuntime) -> Result<(), AllocError> {
    let second = text(&rt, rt.alloc(), "second")?;
    let mut slots = Slots::new(rt.alloc(), 2)?;
    assert!(rt; take(&rt, rt.alloc(), &mut slots, 7) == 0);
    replaces(&rt, &mut slots, 0, second, "");
    replaces(&rt, &mut slots, 0, Text::empty(rt.alloc()), "second");
    Ok(())
}

/// Takes this many slots, in the order of their numbers.
fn take_all(rt: &impl Abort, alloc: Global, slots: &mut Slots, count: u32) {
    for id in 0..count {
        assert!(rt; take(rt, alloc, slots, 10) == id);
    }
}

/// Whitens a black slot, and gives it back.
fn whiten_and_give(rt: &impl Abort, slots: &mut Slots, id: u32) {
    has_colour(rt, slots, id, Colour::Black);
    slots.whiten(id);
    give(rt, slots, id);
}

/// Shades this many slots, scans them from the last to the first, and gives them back.
fn scan_all(rt: &impl Abort, slots: &mut Slots, count: u32) {
    for id in 0..count {
        shade(rt, slots, id);
    }
    for id in 0..count {
        assert!(rt; scan(rt, slots) == count - 1 - id);
    }
    for id in 0..count {
        whiten_and_give(rt, slots, id);
    }
}

#[test]
fn as_many_slots_as_there_may_be(rt: HostRuntime) -> Result<(), AllocError> {
    let mut slots = Slots::new(rt.alloc(), 65_536)?;
    take_all(&rt, rt.alloc(), &mut slots, 65_536);
    assert!(rt; slots.len() == 65_536 && slots.free() == 0);
    scan_all(&rt, &mut slots, 65_536);
    assert!(rt; slots.free() == 65_536);
    Ok(())
}

/// New slots, made again if memory runs out: tests/faults/growths.py makes each allocation fail in turn.
fn made_again(rt: &impl Print, alloc: Global) -> Result<Slots, AllocError> {
    match Slots::new(alloc, 3) {
        Ok(slots) => Ok(slots),
        Err(_) => {
            let _ = rt.println("no memory");
            Slots::new(alloc, 3)
        }
    }
}

/// A table that lacks memory is made again, with its slots all free.
#[test]
fn growth_refused_in_new_slots(rt: HostRuntime) -> Result<(), AllocError> {
    let mut slots = made_again(&rt, rt.alloc())?;
    assert!(rt; slots.len() == 3 && slots.free() == 3);
    take_all(&rt, rt.alloc(), &mut slots, 3);
    assert!(rt; slots.free() == 0);
    Ok(())
}
