//! All sessions at once, each in a thread of its own, while the collector runs.

use crate::actor::{Actor, ask_all};
use crate::board::Board;
use crate::draws::Draws;
use crate::figures::{micros_since, now};
use crate::load::Load;
use crate::opening::{KEEPER, is_guests, name_of};
use std::alloc::Global;
use std::rt::Clock;
use std::sync::Wait;
use std::sync::atomic::Ordering;
use std::sync::ledger::Ledger;
use std::thread;
use std::thread::Threads;
use tg_rights::{Command, Kind, Rights};
use tg_share::{Ended, Open, Shared};

/// The last seat, which the keeper sits on.
const KEEPERS_SEAT: u64 = 63;

/// What a session leaves.
#[derive(Drop)]
pub struct Acted<L: Ledger> {
    pub ended: Ended<L>,
    /// How many vertices it made.
    pub made: u64,
    /// The longest time that one of its commands took, in microseconds.
    pub longest: u64,
    /// Whether each of its commands was entered.
    pub is_whole: bool,
}

/// A whole session, which submits commands once all are given; none if it is refused.
fn act<L: Ledger, R: Wait + Clock>(
    rt: &R,
    alloc: Global,
    shared: &Shared<L>,
    board: &Board,
    load: Load,
    seat: u64,
    seed: u64,
) -> Option<Acted<L>> {
    let mut actor = Actor {
        draws: Draws { state: seed },
        is_guest: is_guests(seat),
        held: Vec::new(alloc),
        kept: Vec::new(alloc),
        subject: None,
        turns: 0,
        made: 0,
        longest: 0,
    };
    let Ok(mut session) = shared.session(rt, alloc, seat, name_of(seat)) else {
        board.arrive();
        return None;
    };
    board.arrive();
    let is_whole = board.wait_for_all(rt, load.sessions)
        && ask_all(rt, alloc, load, &mut session, &mut actor, board);
    let ended = session.end(rt);
    Some(Acted {
        ended,
        made: actor.made,
        longest: actor.longest,
        is_whole,
    })
}

/// A session of the keeper, which makes documents; none if it is refused.
pub fn hold<L: Ledger, R: Wait + Clock>(
    rt: &R,
    alloc: Global,
    shared: &Shared<L>,
    load: Load,
) -> Option<Acted<L>> {
    let Ok(mut session) = shared.session(rt, alloc, KEEPERS_SEAT, KEEPER) else {
        return None;
    };
    let mut is_whole = true;
    for _ in 0..load.held {
        let command = Command::create(Kind::Document, Rights::read());
        is_whole = session.submit(rt, command, &Open).is_ok() && is_whole;
    }
    let ended = session.end(rt);
    Some(Acted {
        ended,
        made: 0,
        longest: 0,
        is_whole,
    })
}

/// Collects until all sessions are over.
fn collect_until<L: Ledger, R: Wait + Clock>(rt: &R, shared: &Shared<L>, board: &Board) {
    for _ in rt.forever() {
        if board.is_over.load(Ordering::SeqCst) {
            break;
        }
        let worked = shared.collector(rt, 100, &Open);
        board.cycles.fetch_add(worked.ended, Ordering::SeqCst);
        board.freed.fetch_add(worked.freed, Ordering::SeqCst);
    }
}

/// What all sessions leave.
#[derive(Drop)]
pub struct Crowd<L: Ledger> {
    pub ended: Vec<Ended<L>>,
    /// How many vertices they made.
    pub made: u64,
    /// The longest time that one of their commands took, in microseconds.
    pub longest: u64,
    /// The time from the first thread to the end of the last session, in microseconds.
    pub micros: u64,
    /// Whether each thread was started, each session given and each command entered.
    pub is_whole: bool,
}

impl<L: Ledger> Crowd<L> {
    /// Nothing yet, with room for what the sessions and the keeper's leave: the settle would miss the log of an ended
    /// session that is dropped.
    fn new(alloc: Global, load: Load) -> Option<Crowd<L>> {
        let sessions = usize::try_from(load.sessions).ok()?;
        Some(Crowd {
            ended: Vec::with_capacity(alloc, sessions.saturating_add(1)).ok()?,
            made: 0,
            longest: 0,
            micros: 0,
            is_whole: true,
        })
    }

    /// What one more session leaves, if it was given.
    pub fn add(&mut self, acted: Option<Acted<L>>) {
        match acted {
            Some(
                Acted {
                    ended,
                    made,
                    longest,
                    is_whole,
                },
            ) => {
                self.made = self.made.wrapping_add(made);
                self.longest = self.longest.max(longest);
                self.is_whole = self.ended.push(ended).is_ok() && is_whole && self.is_whole;
            }
            None => self.is_whole = false,
        }
    }
}

/// All sessions, each in a thread of its own, while the collector runs. None if there is no room for what they leave.
pub fn act_at_once<L: Ledger + Send + Sync, R: Threads + Wait + Clock + Sync>(
    rt: &R,
    alloc: Global,
    shared: &Shared<L>,
    board: &Board,
    load: Load,
    seed: u64,
) -> Option<Crowd<L>> {
    let room = Crowd::new(alloc, load)?;
    Some(thread::scope(thread::scope_env(), rt, move |scope| {
        let mut crowd = room;
        let start = now(rt);
        if load.has_collector {
            crowd.is_whole = scope
                .spawn(move || collect_until(rt, shared, board))
                .is_ok();
        }
        let mut threads = Vec::new(alloc);
        for seat in 0..load.sessions {
            let drawn_from = seed.wrapping_mul(64).wrapping_add(seat);
            let has_room = threads.try_reserve(1).is_ok();
            let is_kept = has_room
                && match scope.spawn(move || act(
                    rt, alloc, shared, board, load, seat, drawn_from,
                )) {
                    Ok(thread) => threads.push(thread).is_ok(),
                    Err(_) => false,
                };
            if !is_kept {
                board.arrive();
                crowd.is_whole = false;
            }
        }
        for thread in threads {
            crowd.add(thread.join(rt));
        }
        crowd.micros = micros_since(rt, start);
        board.is_over.store(true, Ordering::SeqCst);
        crowd
    }))
}
