//! What exchanges count, and how many lines may be taken, as numbers worked out by hand.

use crate::budget::{Budget, SetAside, exchange_bytes, lines_within, most_bytes};
use std::alloc::{AllocError, Global};
use tg_rights::{Command, EdgeList, Name, Reply, Rights, Text};
use tg_vault::Room;

/// A text of these letters.
fn text(alloc: Global, letters: &str) -> Result<Text, AllocError> {
    let content = String::from_str(alloc, letters)?;
    Ok(Text::new(content).unwrap_or(Text::empty(alloc)))
}

/// A list of two edges.
fn two_edges(alloc: Global) -> Result<Reply, AllocError> {
    let edges = vec![in alloc; (3, Rights::read()), (4, Rights::write())]?;
    Ok(Reply::Edges(EdgeList::new(edges)))
}

/// A write counts 48 and its text, a read no text, and a look 32 for each edge.
#[test]
fn exchanges_are_counted(rt: HostRuntime) -> Result<(), AllocError> {
    let alloc = rt.alloc();
    let write = Command::write(3, text(alloc, "hello")?);
    let told = Reply::Text(text(alloc, "hello")?);
    assert_eq!(rt; exchange_bytes(&Command::leave(), &Reply::Done), 320);
    assert_eq!(rt; exchange_bytes(&write, &Reply::Done), 373);
    assert_eq!(rt; exchange_bytes(&Command::read(3), &told), 320);
    assert_eq!(rt; exchange_bytes(&Command::look(1), &two_edges(alloc)?), 384);
    Ok(())
}

#[test]
fn an_enrol_counts_its_name_twice(rt: HostRuntime) -> Result<(), AllocError> {
    let content = String::from_str(rt.alloc(), "carol")?;
    let name = Name::new(content).ok().expect(&rt, "no name");
    let enrol = Command::enrol(name, Rights::take());
    assert_eq!(rt; exchange_bytes(&enrol, &Reply::Created(3)), 330);
    Ok(())
}

/// Lines at hand, what is left, workers, what a line may take; and the lines that may be taken.
const WITHIN: &[(u64, u64, u64, u64, u64)] = &[
    (10, 100, 1, 10, 10),
    (11, 100, 1, 10, 10),
    (10, 100, 2, 10, 5),
    (10, 99, 1, 10, 9),
    (10, 0, 1, 10, 1),
    (0, 100, 1, 10, 0),
    (1, 100, 63, 10, 1),
];

#[test]
fn workers_share_what_is_left(rt: HostRuntime) {
    for (lines, left, workers, most, taken) in WITHIN {
        assert_eq!(rt; lines_within(*lines, *left, *workers, *most), *taken);
    }
}

/// Edges, and what an exchange may count: a text of 4,096 bytes with its 48, or 32 bytes for each edge, up to 65,535.
const MOST: &[(u64, u64)] = &[
    (0, 4_464),
    (129, 4_464),
    (130, 4_480),
    (1_000, 32_320),
    (65_535, 2_097_440),
    (1_048_576, 2_097_440),
];

#[test]
fn an_exchange_is_bounded_by_the_edges(rt: HostRuntime) {
    for (edges, most) in MOST {
        assert_eq!(rt; most_bytes(*edges), *most);
    }
}

/// Of 65,536 slots and 100,000 cells all are free.
const EMPTY: Room = Room {
    slots: 65_536,
    free_slots: 65_536,
    cells: 100_000,
    free_cells: 100_000,
};

/// Without a look there may be 65,535 edges, so a line may take 2,097,440 bytes; with no edge, one worker and the 2,000
/// lines that it may have taken, 320 + 32 * 2,000 = 64,320.
#[test]
fn lines_are_set_aside(rt: HostRuntime) {
    let budget = Budget::new(Some(643_200), 1);
    let unseen = budget.set_aside(20);
    assert_eq!(rt; (unseen.lines, unseen.bytes), (1, 2_097_440));
    budget.give_back(unseen.bytes);
    budget.look(EMPTY, 0);
    let first = budget.set_aside(4);
    assert_eq!(rt; (first.lines, first.bytes), (4, 257_280));
    let second = budget.set_aside(20);
    assert_eq!(rt; (second.lines, second.bytes), (6, 385_920));
    let third = budget.set_aside(20);
    assert_eq!(rt; (third.lines, third.bytes), (1, 64_320));
}

/// An exchange that was not counted before the look may have added an edge that was not seen: 320 + 32 * 2,001 = 64,352
/// for a line.
#[test]
fn an_exchange_beside_the_look_counts_as_an_edge(rt: HostRuntime) {
    let budget = Budget::new(Some(643_200), 1);
    let before = budget.exchanges();
    let _ = budget.keep(&Command::leave(), &Reply::Done);
    budget.look(EMPTY, before);
    let taken = budget.set_aside(1);
    assert_eq!(rt; (taken.lines, taken.bytes), (1, 64_352));
    budget.give_back(taken.bytes);
    budget.look(EMPTY, budget.exchanges());
    let taken = budget.set_aside(1);
    assert_eq!(rt; (taken.lines, taken.bytes), (1, 64_320));
}

const NONE: SetAside = SetAside { lines: 0, bytes: 0 };

/// The third exchange reaches the bound; then no line is taken any more.
#[test]
fn nothing_is_taken_once_the_bound_is_reached(rt: HostRuntime) {
    let budget = Budget::new(Some(960), 1);
    let leave = Command::leave();
    assert!(rt; !budget.keep(&leave, &Reply::Done));
    assert!(rt; !budget.keep(&leave, &Reply::Done));
    assert!(rt; !budget.is_spent());
    assert!(rt; budget.keep(&leave, &Reply::Done));
    assert!(rt; budget.is_spent());
    assert_eq!(rt; budget.set_aside(1), NONE);
}

#[test]
fn all_is_taken_without_a_bound(rt: HostRuntime) {
    let budget = Budget::new(None, 1);
    let leave = Command::leave();
    assert!(rt; !budget.keep(&leave, &Reply::Done));
    assert!(rt; !budget.is_spent());
    assert_eq!(rt; budget.set_aside(9), SetAside { lines: 9, bytes: 0 });
}
