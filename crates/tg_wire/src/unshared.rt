//! The answers without steps to whether rights can ever be shared, and the list of vertices for which they can.

ghost use Rattle.std.specs.Prelude.{◌≡◌, OnOk};
ghost use Rattle.serde_json.specs.Data.{object, member, no_members, string};
ghost use Rattle.tg_wire.specs.Promise.Faults.{line_text};
ghost use Rattle.tg_wire.specs.Promise.Unshared.{could_line, unshared_line};

use crate::line_room::LineRoom;
use crate::object_line::{Told, object_line};
use std::alloc::AllocError;
use tg_rights::Rights;

/// An answer to whether rights can ever be shared that brings no steps.
#[derive(Clone, Copy, PartialEq, Eq, Debug)]
pub enum Unshared {
    /// They never can.
    Never,
    /// It would take more new vertices than there are serials.
    NoSerial,
    /// There is no vertex of this serial.
    NoVertex { vertex: u64 },
    /// There is no principal of the name.
    NoPrincipal,
    /// No right is asked for where vertices are to be listed.
    NoRights,
    /// It takes more than the bound allows.
    TooMuch,
}

/// The line of the answer, which ends with a line feed. Keys are in rising order, with no white space. In room that is
/// kept from line to line. `AllocError` if an allocation failed; nothing is then known of the room's line.
#[tactic(auto, unfolding(crate::specs::Promise::Unshared::unshared_line))]
pub fn write_unshared_in(room: &mut LineRoom, unshared: Unshared) -> Result<(), AllocError>
    ensures { OnOk result (room.new ≡ unshared_line unshared) }
{
    match unshared {
        Unshared::Never => worded_line(room, "verdict", "never"),
        Unshared::NoSerial => worded_line(room, "verdict", "no serial"),
        Unshared::NoVertex { vertex } => object_line(
            room,
            &[
                ("error", Told::Word("no vertex")),
                ("vertex", Told::Number(vertex)),
            ],
        ),
        Unshared::NoPrincipal => worded_line(room, "error", "no principal"),
        Unshared::NoRights => worded_line(room, "error", "no rights"),
        Unshared::TooMuch => worded_line(room, "error", "too much"),
    }
}

/// The line that lists vertices for which rights can ever be shared, each with those of the rights that are there now.
/// In room that is kept, and with the error of `write_unshared_in`.
#[tactic(auto, unfolding(crate::specs::Promise::Unshared::could_line))]
pub fn write_could_in(room: &mut LineRoom, could: &[(u64, Rights)]) -> Result<(), AllocError>
    ensures { OnOk result (room.new ≡ could_line could.now) }
{
    object_line(room, &[("could", Told::Edges(could))])
}

/// The line of an object with this word under this key.
fn worded_line(room: &mut LineRoom, key: &str, word: &str) -> Result<(), AllocError>
    ensures { OnOk result (room.new ≡ line_text (object (member key.now (string word.now) no_members))) }
{
    object_line(room, &[(key, Told::Word(word))])
}
