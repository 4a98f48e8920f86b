//! The edges of a list, as its line has them: a few at once are written into a room, from the last to the first, and
//! appended.

ghost use Rattle.std.specs.Prelude.{◌≡◌, ◌+◌, ◌*◌, ◌<◌, ◌≤◌, ◌∷◌, ◌++◌, drop, length, OnOk};
ghost use Rattle.serde_json.specs.Data.{array};
ghost use Rattle.serde_json.specs.Written.{compact_text};
ghost use Rattle.tg_wire.specs.Promise.Replies.{edge_data, edges_data};
ghost use Rattle.tg_wire.specs.Inner.Told.{edges_text};

use crate::before::{bytes_before, letters_before, number_before};
use std::alloc::AllocError;
use tg_rights::Rights;

/// How many edges are written at once.
const FEW: usize = 32;

/// The most bytes that an edge takes: twenty digits, six bytes of letters in quotes, and four more.
const LONGEST: usize = 30;

/// The array of the edges.
// Inlined, it would put its room on the stack of each answer.
#[inline(never)]
pub(crate) fn put_edges(line: &mut Vec<u8>, edges: &[(u64, Rights)]) -> Result<(), AllocError>
    ensures { OnOk result (line.new.items ≡ line.old.items ++ compact_text (array (edges_data edges.now))) }
{
    line.push(b'[')?;
    let mut room = [0; FEW * LONGEST];
    let mut at = 0;
    while at < edges.len() {
        let end = edges.len().min(at + FEW);
        let start = edges_before(&mut room, &edges[at..end], at > 0);
        line.extend_from_slice(&room[start..])?;
        at = end;
    }
    line.push(b']')?;
    Ok(())
}

/// The edges at the end of the room, with a comma between two, and before the first if others precede them; returns
/// where they start.
#[inline(always)]
fn edges_before(room: &mut [u8], few: &[(u64, Rights)], later: bool) -> usize
    requires some { 0 < length few.now }
    requires room { LONGEST * length few.now ≤ length room.old }
    ensures start { result ≤ length room.old }
    ensures text { drop result room.new ≡ edges_text later few.now }
{
    let mut start = room.len();
    let mut at = few.len();
    while at > 0 {
        at -= 1;
        let (serial, rights) = few[at];
        start = edge_before(room, start, serial, rights);
    }
    if later { start } else { start + 1 }
}

/// An edge after a comma, up to where the rest starts; returns where it starts.
#[inline(always)]
fn edge_before(room: &mut [u8], end: usize, serial: u64, rights: Rights) -> usize
    requires room { LONGEST ≤ end }
    requires end { end ≤ length room.old }
    ensures low { end ≤ result + LONGEST }
    ensures high { result < end }
    ensures text { drop result room.new ≡ 44 ∷ (compact_text (edge_data (serial, rights)) ++ drop end room.old) }
{
    let end = bytes_before(room, end, b"]");
    let end = letters_before(room, end, rights);
    let end = bytes_before(room, end, b",");
    let end = number_before(room, end, serial);
    bytes_before(room, end, b",[")
}
