//! What vaults show: who sits where, what waits to be swept, and which edges are left of it.
use crate::cases::{Ask, Opening, TWO, Want, rights_of};
use crate::vault::{ALICE, BOB, Line, lines_are_answered, opened};
use std::alloc::{AllocError, Global};
use std::io::Print;
use std::process::Abort;
use tg_collect::{Colour, Figure, Phase};
use tg_rights::{Kind, Rights};
use tg_vault::{Scene, Sitting, Vault};

/// A vertex as its slot shows it, and whether it is held.
type Shown = (u64, Kind, Colour, bool);

/// A seat: its number, its principal, its agent and its target.
type Seat = (u64, u64, Option<u64>, Option<u64>);

/// What is played next, and what the vault then shows.
struct Shot {
    lines: &'static [Line],
    vertices: &'static [Shown],
    edges: &'static [(u64, &'static str, u64)],
    seats: &'static [Seat],
    free: (u32, u32),
    phase: Phase,
}

const SMALL: Opening = Opening { slots: 4, ..TWO };

// Alice makes two documents that have rights over each other, and drops both; 3 is in the slot before that of 4.
const SHOTS: &[Shot] = &[
    Shot {
        lines: &[
            ALICE,
            BOB,
            Line::Make(0, "rg", 3),
            Line::Ask(0, Ask::Document("rg"), Want::Created(4)),
        ],
        vertices: &[
            (1, Kind::Subject, Colour::White, true),
            (2, Kind::Subject, Colour::White, true),
            (3, Kind::Document, Colour::Grey, true),
            (4, Kind::Document, Colour::White, true),
        ],
        edges: &[(1, "rg", 3), (1, "rg", 4)],
        seats: &[(0, 1, None, Some(4)), (1, 2, None, None)],
        free: (0, 6),
        phase: Phase::Idle,
    },
    Shot {
        lines: &[
            Line::Shaded(0, 4),
            Line::Ask(0, Ask::Grant("r", 4, 3), Want::Done),
            Line::Shaded(0, 4),
            Line::Ask(0, Ask::Grant("r", 3, 4), Want::Done),
            Line::Shaded(0, 3),
            Line::Ask(0, Ask::Remove("rg", 3), Want::Done),
            Line::Ask(0, Ask::Remove("rg", 4), Want::Done),
            Line::Cycle(0, 17),
            Line::Collect("mmmmmsss"),
        ],
        vertices: &[
            (1, Kind::Subject, Colour::White, true),
            (2, Kind::Subject, Colour::White, true),
            (3, Kind::Document, Colour::White, false),
            (4, Kind::Document, Colour::White, false),
        ],
        edges: &[(3, "r", 4), (4, "r", 3)],
        seats: &[(0, 1, None, None), (1, 2, None, None)],
        free: (0, 6),
        phase: Phase::Sweep,
    },
    // the edge of 4 is still in its cell, but leads to a slot that is free
    Shot {
        lines: &[Line::Collect("sf")],
        vertices: &[
            (1, Kind::Subject, Colour::White, true),
            (2, Kind::Subject, Colour::White, true),
            (4, Kind::Document, Colour::White, false),
        ],
        edges: &[],
        seats: &[(0, 1, None, None), (1, 2, None, None)],
        free: (1, 7),
        phase: Phase::Sweep,
    },
    // and then to one that another vertex has, the agent and the target of alice's seat
    Shot {
        lines: &[
            Line::Ask(0, Ask::Subject("tg"), Want::Created(5)),
            Line::Shaded(0, 5),
            Line::Ask(0, Ask::Assume(5), Want::Done),
        ],
        vertices: &[
            (1, Kind::Subject, Colour::White, true),
            (2, Kind::Subject, Colour::White, true),
            (4, Kind::Document, Colour::White, false),
            (5, Kind::Subject, Colour::Grey, true),
        ],
        edges: &[(1, "tg", 5)],
        seats: &[(0, 1, Some(5), Some(5)), (1, 2, None, None)],
        free: (0, 6),
        phase: Phase::Sweep,
    },
];

/// What the vault shows, asked for again if memory runs out.
fn scene_again(rt: &impl Print, vault: &Vault) -> Result<Scene, AllocError> {
    match vault.scene() {
        Ok(scene) => Ok(scene),
        Err(_) => {
            let _ = rt.println("no memory");
            vault.scene()
        }
    }
}

fn are_edges(found: &[(u64, Rights, u64)], wanted: &[(u64, &str, u64)]) -> bool {
    for (edge, other) in found.iter().zip(wanted.iter()) {
        if edge.0 != other.0 || edge.1 != rights_of(other.1) || edge.2 != other.2 {
            return false;
        }
    }
    found.len() == wanted.len()
}

fn are_figures(figures: &[Figure], wanted: &[Shown]) -> bool {
    for (figure, other) in figures.iter().zip(wanted.iter()) {
        if (figure.serial, figure.kind, figure.colour, figure.is_held) != *other {
            return false;
        }
    }
    figures.len() == wanted.len()
}

fn are_seats(seats: &[Sitting], wanted: &[Seat]) -> bool {
    for (seat, other) in seats.iter().zip(wanted.iter()) {
        if (seat.seat, seat.principal, seat.agent, seat.target) != *other {
            return false;
        }
    }
    seats.len() == wanted.len()
}

/// Whether a scene is what a shot says, with alice and bob as the principals.
fn is_shot(scene: &Scene, shot: &Shot) -> bool {
    are_figures(scene.vertices.as_slice(), shot.vertices)
        && are_edges(scene.edges.as_slice(), shot.edges)
        && scene.names.as_slice().len() == 2
        && are_seats(scene.seats.as_slice(), shot.seats)
        && (scene.free_slots, scene.free_cells) == shot.free
        && scene.phase == shot.phase
}

/// Whether the vault shows what a shot says.
fn shows(rt: &impl Print, vault: &Vault, shot: &Shot) -> Result<bool, AllocError> {
    let scene = scene_again(rt, vault)?;
    Ok(is_shot(&scene, shot))
}

/// The vault goes through the shots.
fn goes_through(
    rt: &(impl Abort + Print),
    alloc: Global,
    vault: &mut Vault,
) -> Result<(), AllocError> {
    for shot in SHOTS {
        lines_are_answered(rt, alloc, vault, shot.lines)?;
        assert!(rt; shows(rt, vault, shot)?);
    }
    Ok(())
}

/// A new vault does.
fn a_vault_goes_through(rt: &(impl Abort + Print), alloc: Global) -> Result<(), AllocError> {
    let mut vault = opened(rt, alloc, &SMALL)?;
    goes_through(rt, alloc, &mut vault)
}

/// A scene that lacks memory leaves the vault; it shows the same on the next call.
#[test]
fn growth_refused_in_a_scene(rt: HostRuntime) -> Result<(), AllocError> {
    a_vault_goes_through(&rt, rt.alloc())
}
