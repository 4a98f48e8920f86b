//! The seats.
ghost use Rattle.std.specs.Prelude.{◌≡◌, length, replicate, None, IfOk, IfSome, IfNone};
ghost use Rattle.tg_rights.specs.declared.limits.TheConstants.{SEATS};
ghost use Rattle.tg_vault.specs.Promise.World.{IsLeastInUse, NobodySits, at_seat};

use std::alloc::{AllocError, Global};
use tg_rights::SEATS;

/// The table's entry for a seat.
pub(crate) fn at_seat(table: &[Option<u64>], seat: u64) -> Option<u64>
    ensures { result ≡ at_seat table.now seat }
{
    match table.get(seat as usize) {
        Some(found) => *found,
        None => None,
    }
}

/// Seats that are all empty.
pub(crate) fn empty_seats(alloc: Global) -> Result<Vec<Option<u64>>, AllocError>
    ensures { IfOk result (λ seats. seats.items ≡ replicate SEATS None) }
{
    let mut seats = Vec::with_capacity(alloc, SEATS as usize)?;
    while seats.len() < SEATS as usize {
        seats.push(None)?;
    }
    Ok(seats)
}

/// The least seat that somebody has; `None` if all are empty.
pub(crate) fn first_in_use(table: &[Option<u64>]) -> Option<u64>
    requires { length table.now ≡ SEATS }
    ensures some { IfSome result (IsLeastInUse table.now) }
    ensures none { IfNone result (NobodySits table.now) }
{
    for seat in 0..SEATS {
        if at_seat(table, seat).is_some() {
            return Some(seat);
        }
    }
    None
}
