//! A scene as one line of text.
ghost use Rattle.std.specs.Prelude.{◌≡◌, ◌++◌, decimal, IfOk, OnOk};
ghost use Rattle.std.specs.List.{flat_map};
ghost use Rattle.tg_draw.specs.Promise.Picture.{Draws, body_text, counts_text, edge_text, ends_text, head_text, mark_if, mark_text, name_text, picture, seat_row, seat_text, state_text, vertex_class, vertex_label, vertex_look, vertex_text};

use crate::label::put_label;
use crate::words::{
    before_cells, before_label, before_slots, before_vertices, colour_word, held_word, kind_word,
    phase_word, rim, style,
};
use itoa::Buffer;
use std::alloc::{AllocError, Global};
use tg_collect::Figure;
use tg_graph::Member;
use tg_rights::Rights;
use tg_vault::{Scene, Sitting, Vault};

/// The picture of a vault, under this label: the rows of the label, then the phase, what is free, and the seats. Any
/// bytes may be in the label. It is one line, with its line feed. The only error is that an allocation failed.
pub fn draw(alloc: Global, vault: &Vault, label: &[u8]) -> Result<Vec<u8>, AllocError>
    ensures { IfOk result (λ text. Draws vault.now label.now text.items) }
{
    let scene = vault.scene()?;
    picture(alloc, &scene, label)
}

/// The picture of a scene, under this label. The only error is that an allocation failed.
#[tactic(auto, unfolding(crate::specs::Promise::Picture::picture_of))]
pub fn picture(alloc: Global, scene: &Scene, label: &[u8]) -> Result<Vec<u8>, AllocError>
    ensures { IfOk result (λ text. text.items ≡ picture scene.now label.now) }
{
    let mut out = Vec::new(alloc);
    put_head(&mut out, alloc, scene, label)?;
    put_body(&mut out, scene)?;
    Ok(out)
}

/// Writes what comes before the vertices: these rows and those of the scene.
#[tactic(auto, unfolding(crate::specs::Promise::Picture::head_text))]
fn put_head(out: &mut Vec<u8>, alloc: Global, scene: &Scene, label: &[u8]) -> Result<(), AllocError>
    ensures { OnOk result (out.new.items ≡ out.old.items ++ head_text label.now scene.now.phase scene.now.free_slots scene.now.free_cells scene.now.seats.items) }
{
    let seats = scene.seats.as_slice();
    out.extend_from_slice(before_label())?;
    put_label(out, alloc, label)?;
    put_state(out, scene)?;
    put_seats(out, seats)
}

/// Writes what holds for all vertices, then the vertices and the edges.
#[tactic(auto, unfolding(crate::specs::Promise::Picture::body_text))]
fn put_body(out: &mut Vec<u8>, scene: &Scene) -> Result<(), AllocError>
    ensures { OnOk result (out.new.items ≡ out.old.items ++ body_text scene.now.names scene.now.seats.items scene.now.vertices.items scene.now.edges.items) }
{
    let names = scene.names.as_slice();
    let seats = scene.seats.as_slice();
    let vertices = scene.vertices.as_slice();
    let edges = scene.edges.as_slice();
    out.extend_from_slice(before_vertices())?;
    put_vertices(out, names, seats, vertices)?;
    put_edges(out, edges)?;
    out.extend_from_slice(b" }\n")
}

fn put_number(out: &mut Vec<u8>, number: u64) -> Result<(), AllocError>
    ensures { OnOk result (out.new.items ≡ out.old.items ++ decimal number) }
{
    let mut digits = Buffer::new();
    out.extend_from_slice(digits.format(number).as_bytes())
}

/// Writes the row of the phase and of what is free.
fn put_state(out: &mut Vec<u8>, scene: &Scene) -> Result<(), AllocError>
    ensures { OnOk result (out.new.items ≡ out.old.items ++ state_text scene.now.phase scene.now.free_slots scene.now.free_cells) }
{
    out.extend_from_slice(b"phase ")?;
    out.extend_from_slice(phase_word(scene.phase))?;
    let slots = u64::from(scene.free_slots);
    let cells = u64::from(scene.free_cells);
    put_counts(out, slots, cells)?;
    out.extend_from_slice(b"\\l")
}

fn put_counts(out: &mut Vec<u8>, slots: u64, cells: u64) -> Result<(), AllocError>
    ensures { OnOk result (out.new.items ≡ out.old.items ++ counts_text slots cells) }
{
    out.extend_from_slice(before_slots())?;
    put_number(out, slots)?;
    out.extend_from_slice(before_cells())?;
    put_number(out, cells)
}

/// Writes a row for each seat.
fn put_seats(out: &mut Vec<u8>, seats: &[Sitting]) -> Result<(), AllocError>
    ensures { OnOk result (out.new.items ≡ out.old.items ++ flat_map seat_text seats.now) }
{
    for seat in seats {
        put_seat(out, seat.seat, seat.principal)?;
    }
    Ok(())
}

fn put_seat(out: &mut Vec<u8>, seat: u64, principal: u64) -> Result<(), AllocError>
    ensures { OnOk result (out.new.items ≡ out.old.items ++ seat_row seat principal) }
{
    out.extend_from_slice(b"seat ")?;
    put_number(out, seat)?;
    out.extend_from_slice(b": ")?;
    put_number(out, principal)?;
    out.extend_from_slice(b"\\l")
}

fn put_vertices(
    out: &mut Vec<u8>,
    names: &[Member],
    seats: &[Sitting],
    vertices: &[Figure],
) -> Result<(), AllocError>
    ensures { OnOk result (out.new.items ≡ out.old.items ++ flat_map (vertex_text names.now seats.now) vertices.now) }
{
    for vertex in vertices {
        put_vertex(out, names, seats, vertex)?;
    }
    Ok(())
}

fn put_vertex(
    out: &mut Vec<u8>,
    names: &[Member],
    seats: &[Sitting],
    vertex: &Figure,
) -> Result<(), AllocError>
    ensures { OnOk result (out.new.items ≡ out.old.items ++ vertex_text names.now seats.now vertex.now) }
{
    out.extend_from_slice(b" ")?;
    put_number(out, vertex.serial)?;
    out.extend_from_slice(b" [label=\"")?;
    put_vertex_label(out, names, seats, vertex)?;
    put_vertex_look(out, vertex)?;
    out.extend_from_slice(b"];")
}

/// Writes what stands in a vertex: its serial, its name if it has one, its colour, and what it is to the seats.
fn put_vertex_label(
    out: &mut Vec<u8>,
    names: &[Member],
    seats: &[Sitting],
    vertex: &Figure,
) -> Result<(), AllocError>
    ensures { OnOk result (out.new.items ≡ out.old.items ++ vertex_label names.now seats.now vertex.now) }
{
    put_number(out, vertex.serial)?;
    put_names(out, vertex.serial, names)?;
    out.extend_from_slice(b"\\n")?;
    out.extend_from_slice(colour_word(vertex.colour))?;
    put_marks(out, vertex.serial, seats)
}

/// Writes how a vertex is drawn: by its kind, its colour and whether it is held.
fn put_vertex_look(out: &mut Vec<u8>, vertex: &Figure) -> Result<(), AllocError>
    ensures { OnOk result (out.new.items ≡ out.old.items ++ vertex_look vertex.now) }
{
    out.extend_from_slice(b"\",class=\"")?;
    put_vertex_class(out, vertex)?;
    out.extend_from_slice(b"\",")?;
    out.extend_from_slice(style(vertex.kind, vertex.is_held))?;
    out.extend_from_slice(rim(vertex.colour))
}

fn put_vertex_class(out: &mut Vec<u8>, vertex: &Figure) -> Result<(), AllocError>
    ensures { OnOk result (out.new.items ≡ out.old.items ++ vertex_class vertex.now) }
{
    out.extend_from_slice(kind_word(vertex.kind))?;
    out.extend_from_slice(b" ")?;
    out.extend_from_slice(colour_word(vertex.colour))?;
    out.extend_from_slice(held_word(vertex.is_held))
}

/// Writes the name of the principal of this serial, if there is one.
fn put_names(out: &mut Vec<u8>, serial: u64, names: &[Member]) -> Result<(), AllocError>
    ensures { OnOk result (out.new.items ≡ out.old.items ++ flat_map (name_text serial) names.now) }
{
    for member in names {
        put_name(out, serial, member)?;
    }
    Ok(())
}

fn put_name(out: &mut Vec<u8>, serial: u64, member: &Member) -> Result<(), AllocError>
    ensures { OnOk result (out.new.items ≡ out.old.items ++ name_text serial member.now) }
{
    if member.serial == serial {
        out.extend_from_slice(b" ")?;
        out.extend_from_slice(member.name.get().as_bytes())?;
        Ok(())
    } else {
        Ok(())
    }
}

/// Writes what the vertex of this serial is to the seats.
fn put_marks(out: &mut Vec<u8>, serial: u64, seats: &[Sitting]) -> Result<(), AllocError>
    ensures { OnOk result (out.new.items ≡ out.old.items ++ flat_map (mark_text serial) seats.now) }
{
    for sitting in seats {
        put_mark(out, serial, sitting)?;
    }
    Ok(())
}

/// Writes what the vertex of this serial is to a seat: its principal, its agent, its target.
fn put_mark(out: &mut Vec<u8>, serial: u64, sitting: &Sitting) -> Result<(), AllocError>
    ensures { OnOk result (out.new.items ≡ out.old.items ++ mark_text serial sitting.now) }
{
    let principal = Some(sitting.principal);
    put_mark_if(out, b"\\nseat ", sitting.seat, principal, serial)?;
    put_mark_if(out, b"\\nagent ", sitting.seat, sitting.agent, serial)?;
    put_mark_if(out, b"\\ntarget ", sitting.seat, sitting.target, serial)
}

/// Writes a word and the seat, if the seat's vertex is the one of this serial.
fn put_mark_if(
    out: &mut Vec<u8>,
    word: &[u8],
    seat: u64,
    vertex: Option<u64>,
    serial: u64,
) -> Result<(), AllocError>
    ensures { OnOk result (out.new.items ≡ out.old.items ++ mark_if word.now seat vertex serial) }
{
    match vertex {
        None => Ok(()),
        Some(vertex) => {
            if vertex == serial {
                out.extend_from_slice(word)?;
                put_number(out, seat)
            } else {
                Ok(())
            }
        }
    }
}

fn put_edges(out: &mut Vec<u8>, edges: &[(u64, Rights, u64)]) -> Result<(), AllocError>
    ensures { OnOk result (out.new.items ≡ out.old.items ++ flat_map edge_text edges.now) }
{
    for edge in edges {
        put_edge(out, edge.0, edge.1, edge.2)?;
    }
    Ok(())
}

fn put_edge(out: &mut Vec<u8>, from: u64, rights: Rights, to: u64) -> Result<(), AllocError>
    ensures { OnOk result (out.new.items ≡ out.old.items ++ edge_text (from, rights, to)) }
{
    put_ends(out, from, to)?;
    out.extend_from_slice(b" [label=\"")?;
    out.extend_from_slice(rights.letters().as_bytes())?;
    out.extend_from_slice(b"\"];")
}

fn put_ends(out: &mut Vec<u8>, from: u64, to: u64) -> Result<(), AllocError>
    ensures { OnOk result (out.new.items ≡ out.old.items ++ ends_text from to) }
{
    out.extend_from_slice(b" ")?;
    put_number(out, from)?;
    out.extend_from_slice(b" -> ")?;
    put_number(out, to)
}
