//! A server's status: one line of JSON.

use crate::desk::{Desk, Place, milliseconds};
use std::alloc::{AllocError, Global};
use std::fmt::Write;
use std::rt::Clock;
use std::sync::atomic::{AtomicU64, Ordering};

/// The server's numbers that its desk does not know.
#[derive(Clone, Copy, Debug, PartialEq, Eq)]
pub struct Serving {
    /// When it began, in milliseconds on the clock.
    pub began: u64,
    /// The connections that it serves in all; none if there is no end to them.
    pub connections: Option<u64>,
}

impl Serving {
    /// A server that begins now.
    pub fn now<C: Clock>(clock: &C, connections: Option<u64>) -> Serving {
        Serving {
            began: milliseconds(clock),
            connections,
        }
    }
}

fn number(count: &AtomicU64) -> u64 {
    count.load(Ordering::SeqCst)
}

/// The line of what the desk knows. `AllocError` if there is no memory for it.
pub(crate) fn status_line<C: Clock>(
    clock: &C,
    alloc: Global,
    desk: &Desk,
    serving: Serving,
) -> Result<String, AllocError> {
    let now = milliseconds(clock);
    let counts = &desk.counts;
    let mut line = String::new(alloc);
    let taken = number(&counts.connections);
    let uptime = now.saturating_sub(serving.began) / 1_000;
    write!(
        line,
        "{{\"uptime\":{uptime},\"round\":{},",
        number(&counts.round)
    )?;
    write!(line, "\"connections\":{{\"taken\":{taken},\"left\":")?;
    match serving.connections {
        Some(all) => write!(line, "{}", all.saturating_sub(taken))?,
        None => write!(line, "null")?,
    }
    write!(line, "}},\"clients\":[")?;
    write_clients(&mut line, desk.clients(), now)?;
    write_counts(&mut line, desk)?;
    Ok(line)
}

/// The clients that are served now, by their workers.
fn write_clients(line: &mut String, places: &[Place], now: u64) -> Result<(), AllocError> {
    let mut is_first = true;
    for (worker, place) in places.iter().enumerate() {
        if let Some((connection, principal, lines, heard)) = place.client() {
            let comma = if is_first { "" } else { "," };
            is_first = false;
            let idle = now.saturating_sub(heard) / 1_000;
            write!(
                line,
                "{comma}{{\"worker\":{worker},\"seat\":{worker},\"connection\":{connection},\"principal\":"
            )?;
            match principal {
                Some(serial) => write!(line, "{serial}")?,
                None => write!(line, "null")?,
            }
            write!(line, ",\"lines\":{lines},\"idle\":{idle}}}")?;
        }
    }
    Ok(())
}

/// The counts that follow the clients.
fn write_counts(line: &mut String, desk: &Desk) -> Result<(), AllocError> {
    let counts = &desk.counts;
    write!(line, "],\"entries\":{},", number(&counts.entries))?;
    write!(
        line,
        "\"answers\":{{\"refused\":{},\"denied\":{},\"full\":{}}},",
        number(&counts.refused),
        number(&counts.denied),
        number(&counts.full)
    )?;
    write!(
        line,
        "\"slots\":{{\"all\":{},\"free\":{}}},",
        number(&counts.slots),
        number(&counts.free_slots)
    )?;
    write!(
        line,
        "\"cells\":{{\"all\":{},\"free\":{}}},",
        number(&counts.cells),
        number(&counts.free_cells)
    )?;
    write!(
        line,
        "\"collector\":{{\"cycles\":{},\"freed\":{}}},",
        number(&counts.cycles),
        number(&counts.freed)
    )?;
    let course = if desk.is_stopping() {
        "stopping"
    } else {
        "serving"
    };
    write!(
        line,
        "\"bytes\":{},\"unwritten\":{},\"course\":\"{course}\"}}\n",
        number(&counts.bytes),
        number(&counts.unwritten)
    )?;
    Ok(())
}
