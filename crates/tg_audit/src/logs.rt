//! What callers received, and whether it is what the history says.
use tg_rights::{Command, Reply};
use tg_vault::Vault;

/// What a caller submitted, and what it received.
#[derive(Debug, Drop)]
pub struct Exchange {
    /// The serial of who asked: the principal on the seat, or the subject for which the seat acted.
    pub actor: u64,
    /// What was submitted.
    pub command: Command,
    /// What was received.
    pub reply: Reply,
}

// There is one for each command until the round ends.
const _: () = prove!(size_of::<Exchange>() == 96);

/// The exchanges of one session at a seat, in order.
#[derive(Debug, Drop)]
pub struct SeatLog {
    /// The seat. It may be any number: one above 63 is no seat, so an exchange of its log is in no history.
    pub seat: u64,
    /// The exchanges.
    pub exchanges: Vec<Exchange>,
}

/// Whether the logs of all callers are what the history says. Each result returns the vault, and all but the first the
/// logs.
#[derive(Drop)]
pub enum Settled {
    /// For each seat, its entries with their replies are its logs, joined in the order given.
    Agreed(Vault),
    /// The least seat, and in it the least index, at which its entries and its joined logs differ; if one is longer,
    /// the length of the shorter one.
    Differs {
        vault: Vault,
        logs: Vec<SeatLog>,
        seat: u64,
        index: u64,
    },
    /// There was no memory for the graph of the replay or a reply; the call may be made again.
    NoMemory {
        vault: Vault,
        logs: Vec<SeatLog>,
    },
}
