//! The answers to a question that bring no steps and no list, and the vertices that its words name.
ghost use Rattle.std.specs.Prelude.{◌≡◌, IfErr, IfOk, true};
ghost use Rattle.tg_wire.specs.Promise.Unshared.{unshared_line};
ghost use Rattle.tg_wire.specs.Inner.Unshared.{is_error};
ghost use Rattle.tgdoc.specs.Promise.Named.{Names, NamesNone};

use crate::question::VertexName;
use std::alloc::{AllocError, Global};
use tg_graph::{Graph, principals_come_and_go};
use tg_wire::{LineRoom, Unshared, write_unshared_in};

/// The text of an answer, and whether it counts as an `error` line.
#[derive(Drop)]
pub(crate) struct Told {
    pub(crate) text: Vec<u8>,
    pub(crate) is_error: bool,
}

/// The serial of the vertex that the word names, or the answer that there is none.
pub(crate) fn vertex_in(graph: &Graph, name: &VertexName) -> Result<u64, Unshared>
    ensures ok { IfOk result (Names graph.now name.now) }
    ensures err { IfErr result (λ unshared. NamesNone graph.now name.now (unshared_line unshared)) }
    ensures error { IfErr result (λ unshared. is_error unshared ≡ true) }
{
    principals_come_and_go();
    graph.soundness();
    match name {
        VertexName::Serial(serial) => match graph.kind(*serial) {
            Some(_) => Ok(*serial),
            None => Err(Unshared::NoVertex { vertex: *serial }),
        },
        VertexName::Principal(name) => match graph.named(name.get()) {
            Some(serial) => Ok(serial),
            None => Err(Unshared::NoPrincipal),
        },
    }
}

/// An answer that brings no steps.
pub(crate) fn unshared_told(alloc: Global, unshared: Unshared) -> Result<Told, AllocError>
    ensures { IfOk result (λ told. (told.text.items ≡ unshared_line unshared) × (told.is_error ≡ is_error unshared)) }
{
    let text = unshared_text(alloc, unshared)?;
    Ok(Told {
        text,
        is_error: is_error(unshared),
    })
}

fn unshared_text(alloc: Global, unshared: Unshared) -> Result<Vec<u8>, AllocError>
    ensures { IfOk result (λ text. text.items ≡ unshared_line unshared) }
{
    let mut room = LineRoom::new(alloc);
    write_unshared_in(&mut room, unshared)?;
    room.into_line()
}

/// Whether the answer counts as an `error` line.
fn is_error(unshared: Unshared) -> bool
    ensures { result ≡ is_error unshared }
{
    match unshared {
        Unshared::Never => false,
        Unshared::NoSerial => false,
        Unshared::NoVertex { .. } => true,
        Unshared::NoPrincipal => true,
        Unshared::NoRights => true,
        Unshared::TooMuch => true,
    }
}
