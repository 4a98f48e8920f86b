//! What was measured.

use std::fmt;
use std::fmt::{Display, Formatter};
use std::rt::Clock;
use std::time::Instant;

const MICROS: u64 = 1_000_000;

/// The time, if the clock returns it.
pub fn now<R: Clock>(rt: &R) -> Option<Instant> {
    Instant::now(rt).ok()
}

/// The microseconds since then; 0 if the clock did not return the time.
pub fn micros_since<R: Clock>(rt: &R, start: Option<Instant>) -> u64 {
    let Some(start) = start else {
        return 0;
    };
    match start.elapsed(rt) {
        Ok(taken) => {
            let whole = taken.as_secs().saturating_mul(MICROS);
            whole.saturating_add(taken.subsec_micros() as u64)
        }
        Err(_) => 0,
    }
}

/// Seconds with six digits after the point.
#[derive(Clone, Copy)]
struct Seconds {
    micros: u64,
}

impl Display for Seconds {
    fn fmt<W: fmt::Write>(&self, f: &mut Formatter<W>) -> fmt::Result {
        write!(f, "{}.{:06}", self.micros / MICROS, self.micros % MICROS)
    }
}

/// What was measured of one run. Times are in microseconds.
#[derive(Clone, Copy)]
pub struct Figures {
    /// The time of the sessions, from the first thread to the end of the last session.
    pub acting: u64,
    /// The commands of all these sessions.
    pub submits: u64,
    /// The longest time that one command took.
    pub longest: u64,
    pub entries: u64,
    /// The time of the settle.
    pub settling: u64,
    /// The slots that the collector freed.
    pub freed: u64,
    /// The cycles that it ended.
    pub cycles: u64,
}

impl Figures {
    /// The commands a second.
    fn rate(&self) -> u64 {
        if self.acting == 0 {
            return 0;
        }
        self.submits.saturating_mul(MICROS) / self.acting
    }
}

impl Display for Figures {
    fn fmt<W: fmt::Write>(&self, f: &mut Formatter<W>) -> fmt::Result {
        let acting = Seconds {
            micros: self.acting,
        };
        let settling = Seconds {
            micros: self.settling,
        };
        write!(
            f,
            "{{\"seconds\":{acting},\"submits_a_second\":{},",
            self.rate()
        )?;
        write!(f, "\"longest_submit_micros\":{},", self.longest)?;
        write!(
            f,
            "\"entries\":{},\"settle_seconds\":{settling},",
            self.entries
        )?;
        write!(f, "\"freed\":{},\"cycles\":{}}}", self.freed, self.cycles)
    }
}
