//! What the threads of a run report to one another.

use std::rt::Clock;
use std::sync::atomic::{AtomicBool, AtomicU64, Ordering};
use std::thread;
use std::time::Duration;

/// How often a thread looks, every 10 microseconds, before it gives up.
const TURNS: u32 = 1_000_000;

/// What the threads of a run have reported so far.
#[derive(Drop)]
pub struct Board {
    /// How many sessions were given or refused.
    pub seated: AtomicU64,
    /// Someone's newest vertex.
    pub newest: AtomicU64,
    /// How many cycles the collector has ended.
    pub cycles: AtomicU64,
    /// How many slots it has freed.
    pub freed: AtomicU64,
    /// All sessions have ended.
    pub is_over: AtomicBool,
}

impl Board {
    /// Nothing is reported yet. The newest vertex is 1, a principal.
    pub fn new() -> Board {
        Board {
            seated: AtomicU64::new(0),
            newest: AtomicU64::new(1),
            cycles: AtomicU64::new(0),
            freed: AtomicU64::new(0),
            is_over: AtomicBool::new(false),
        }
    }

    /// Waits, in a limited number of turns, until it has come; returns whether it has.
    fn wait<R: Clock, F: Fn(&Board) -> bool>(&self, rt: &R, has_come: F) -> bool
        requires { F.IsAlwaysCallable has_come }
    {
        for _ in 0..TURNS {
            if has_come(self) {
                return true;
            }
            thread::sleep(rt, Duration::from_micros(10));
        }
        false
    }

    /// One more session was given or refused.
    pub fn arrive(&self) {
        self.seated.fetch_add(1, Ordering::SeqCst);
    }

    /// Waits until all sessions were given or refused.
    pub fn wait_for_all<R: Clock>(&self, rt: &R, sessions: u64) -> bool {
        self.wait(rt, |board| board.seated.load(Ordering::SeqCst) >= sessions)
    }

    /// Waits until the collector has ended three more cycles: what was given up is then free.
    pub fn wait_for_cycles<R: Clock>(&self, rt: &R) -> bool {
        let wanted = self.cycles.load(Ordering::SeqCst).wrapping_add(3);
        self.wait(rt, |board| board.cycles.load(Ordering::SeqCst) >= wanted)
    }
}
