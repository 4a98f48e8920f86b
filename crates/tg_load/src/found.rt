//! The result of a run.

use std::fmt;
use std::fmt::{Display, Formatter};

/// What closing the vault with the logs found.
#[derive(Clone, Copy, PartialEq, Eq)]
pub enum Verdict {
    Agreed,
    /// The first seat and index at which they differ.
    Differs { seat: u64, index: u64 },
    /// There was no memory to settle them.
    NoMemory,
    /// There was no memory for the list of logs, so the vault stays open.
    NoRoom,
}

/// The result of a run.
#[derive(Clone, Copy, PartialEq, Eq)]
pub enum Found {
    /// The logs were settled, and all sessions were counted or not.
    Settled { verdict: Verdict, counted: bool },
    /// The logs agree, but a thread, a session or a command was refused, so there are fewer entries than were asked
    /// for.
    Short,
    /// All is well, but no slot was used again.
    NotReused,
    /// There was no memory for the vault, or for what its sessions leave.
    NoMemory,
}

impl Found {
    /// All commands were entered, the logs agree, and all sessions were counted.
    pub fn is_well(&self) -> bool {
        matches!(
            self,
            Found::Settled {
                verdict: Verdict::Agreed,
                counted: true
            }
        )
    }
}

impl Display for Found {
    fn fmt<W: fmt::Write>(&self, f: &mut Formatter<W>) -> fmt::Result {
        match self {
            Found::Settled { verdict, counted } => match verdict {
                Verdict::Agreed => write!(f, "{{\"settled\":\"agreed\",\"counted\":{counted}}}"),
                Verdict::Differs { seat, index } => {
                    write!(
                        f,
                        "{{\"settled\":\"differs\",\"seat\":{seat},\"index\":{index},"
                    )?;
                    write!(f, "\"counted\":{counted}}}")
                }
                Verdict::NoMemory => write!(
                    f,
                    "{{\"settled\":\"no memory\",\"counted\":{counted}}}"
                ),
                Verdict::NoRoom => write!(f, "{{\"settled\":\"no room\",\"counted\":{counted}}}"),
            },
            Found::Short => write!(
                f,
                "{{\"error\":\"a thread, a session or a command was refused\"}}"
            ),
            Found::NotReused => write!(f, "{{\"error\":\"no freed slot was used again\"}}"),
            Found::NoMemory => write!(f, "{{\"error\":\"out of memory\"}}"),
        }
    }
}
