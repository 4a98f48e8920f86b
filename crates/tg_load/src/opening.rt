//! The vault that a run begins with.
ghost use Rattle.std.specs.Prelude.{◌≡◌, [], IfSome};

use std::alloc::Global;
use tg_graph::Config;
use tg_rights::{MAX_CELLS, Rights, Word};
use tg_vault::Vault;

/// The number of principals whose sessions draw commands.
pub const PRINCIPALS: u64 = 8;

const NAMES: &[&str] = &["a", "b", "c", "d", "e", "f", "g", "h"];

/// The principal that makes the documents which are held. No command names it.
pub const KEEPER: &str = "keeper";

/// The one principal that retires, and the name that is enrolled.
pub const GUEST: &str = "guest";

/// The first of the last seats of a full load, on which the guest sits.
const GUESTS_SEAT: u64 = 61;

/// Whether the guest sits on the seat.
pub fn is_guests(seat: u64) -> bool {
    seat >= GUESTS_SEAT
}

/// The name of the principal that sits on the seat.
pub fn name_of(seat: u64) -> &'static str {
    if is_guests(seat) {
        GUEST
    } else {
        NAMES[(seat % PRINCIPALS) as usize]
    }
}

/// The names of all principals. None if memory ran out.
fn names(alloc: Global) -> Option<Vec<Word>> {
    let mut names = Vec::new(alloc);
    for name in NAMES.iter().chain(&[KEEPER, GUEST]) {
        names
            .push(Word::new(String::from_str(alloc, name).ok()?))
            .ok()?;
    }
    Some(names)
}

/// The rights of each principal to take from the next one and to grant to it. None if memory ran out.
fn ring(alloc: Global) -> Option<Vec<(u64, Rights, u64)>> {
    let rights = Rights::take().union(Rights::grant());
    let mut edges = Vec::new(alloc);
    for serial in 1..PRINCIPALS + 1 {
        edges.push((serial, rights, serial % PRINCIPALS + 1)).ok()?;
    }
    Some(edges)
}

/// The configuration of 8 principals in a ring, the keeper and the guest. None if memory ran out.
fn config(alloc: Global, slots: u64) -> Option<Config> {
    let principals = names(alloc)?;
    Some(Config {
        principals,
        edges: ring(alloc)?,
        next: PRINCIPALS + 3,
        slots,
        cells: slots.saturating_mul(4).min(MAX_CELLS as u64),
    })
}

/// A vault of 8 principals, each with the rights to take from the next one and to grant to it, and of the keeper and
/// the guest. None if memory ran out.
pub fn opened(alloc: Global, slots: u64) -> Option<Vault>
    ensures { IfSome result (λ vault. vault.history ≡ []) }
{
    let config = config(alloc, slots)?;
    Vault::new(alloc, config).ok()
}
