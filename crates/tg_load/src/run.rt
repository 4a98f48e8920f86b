//! One run: sessions and collector at once, and then the settle.
ghost use Rattle.std.specs.Prelude.{◌≡◌, []};
ghost use Rattle.tg_share.specs.declared.locked.TheConstants.{PARTS};

use crate::board::Board;
use crate::crowd::{Crowd, act_at_once, hold};
use crate::figures::{Figures, micros_since, now};
use crate::found::{Found, Verdict};
use crate::load::Load;
use crate::opening::opened;
use std::alloc::Global;
use std::io;
use std::marker::Brand;
use std::rt::Clock;
use std::sync::Wait;
use std::sync::atomic::Ordering;
use std::sync::ledger::{Blank, Ledger};
use std::thread::Threads;
use tg_audit::Settled;
use tg_share::{Closed, PARTS, Shared};
use tg_vault::Vault;

/// The result of closing.
#[derive(Clone, Copy)]
struct Close {
    verdict: Verdict,
    counted: bool,
    /// The entries of the history.
    entries: u64,
}

/// The result once the logs were settled.
fn settled_close(settled: Settled, counted: bool) -> Close {
    let (verdict, entries) = match settled {
        Settled::Agreed(vault) => (Verdict::Agreed, vault.count()),
        Settled::Differs {
            vault,
            logs,
            seat,
            index,
        } => {
            let entries = vault.count();
            drop(vault);
            drop(logs);
            (Verdict::Differs { seat, index }, entries)
        }
        Settled::NoMemory { vault, logs } => {
            let entries = vault.count();
            drop(vault);
            drop(logs);
            (Verdict::NoMemory, entries)
        }
    };
    Close {
        verdict,
        counted,
        entries,
    }
}

fn close_of<L: Ledger>(closed: Closed<L>) -> Close {
    match closed {
        Closed::Done { settled, counted } => settled_close(settled, counted),
        Closed::NoRoom { shared, ended } => {
            drop(shared);
            drop(ended);
            Close {
                verdict: Verdict::NoRoom,
                counted: false,
                entries: 0,
            }
        }
    }
}

/// The result of the run, if the sessions made this many vertices.
fn found_of(load: Load, close: Close, is_whole: bool, made: u64) -> Found {
    let Close {
        verdict,
        counted,
        entries,
    } = close;
    if verdict != Verdict::Agreed || !counted {
        return Found::Settled { verdict, counted };
    }
    let asked = load.sessions.saturating_mul(load.commands);
    if !is_whole || entries != asked.saturating_add(load.held) {
        return Found::Short;
    }
    if load.wants_reuse && made <= load.slots {
        Found::NotReused
    } else {
        Found::Settled { verdict, counted }
    }
}

/// The result of a run over a vault, and what was measured. None if there is no room for what the sessions leave.
fn run_one<L: Ledger + Send + Sync, R: Threads + Wait + Clock + Sync>(
    rt: &R,
    alloc: Global,
    load: Load,
    blank: Blank,
    vault: Vault,
    seed: u64,
) -> Option<(Found, Figures)>
    requires name { blank.name ≡ L.name }
    requires parts { blank.parts ≡ L.parts }
    requires all { blank.parts ≡ PARTS }
    requires empty { vault.history ≡ [] }
{
    let shared = Shared::<L>::new(alloc, blank, vault);
    let board = Board::new();
    let kept = hold(rt, alloc, &shared, load);
    let mut crowd = act_at_once(rt, alloc, &shared, &board, load, seed)?;
    crowd.add(kept);
    let Crowd {
        ended,
        made,
        longest,
        micros,
        is_whole,
    } = crowd;
    let start = now(rt);
    let closed = shared.close(ended);
    let settling = micros_since(rt, start);
    let close = close_of(closed);
    let figures = Figures {
        acting: micros,
        submits: load.sessions.saturating_mul(load.commands),
        longest,
        entries: close.entries,
        settling,
        freed: board.freed.load(Ordering::SeqCst),
        cycles: board.cycles.load(Ordering::SeqCst),
    };
    Some((found_of(load, close, is_whole, made), figures))
}

/// A run over a new vault. None if memory ran out.
fn run_new<R: Threads + Wait + Clock + Sync>(
    rt: &R,
    alloc: Global,
    load: Load,
    seed: u64,
) -> Option<(Found, Figures)> {
    let vault = opened(alloc, load.slots)?;
    run_one::<Brand, _>(rt, alloc, load, Blank::new(PARTS), vault, seed)
}

/// Makes a run, and prints its result. Returns whether that is as it should be; an error if it cannot be printed.
pub fn run_next<R: Threads + Wait + Clock + Print + Eprint + Sync>(
    rt: &R,
    alloc: Global,
    load: Load,
    seed: u64,
) -> io::Result<bool> {
    let ran = run_new(rt, alloc, load, seed);
    let Some((found, figures)) = ran else {
        println!(rt; "{}", Found::NoMemory)?;
        return Ok(false);
    };
    println!(rt; "{found}")?;
    if load.has_figures {
        eprintln!(rt; "{figures}")?;
    }
    Ok(found.is_well())
}
