//! The auditor: derivations over the plain graph, and whether callers received what the history says.
#![tactic(auto)]

ghost use Rattle.tg_audit.specs.Promise.Derived.{HistoriesDerive};
ghost use Rattle.tg_audit.specs.Promise.Laws.{AgreedCounts, ExactlyOnePlace, ExactlyOneVerdict, PlacesStay};

mod derivations;
mod following;
mod histories;
mod logs;
mod replaying;
mod settling;

pub use derivations::check;
pub use histories::{derivation, entry_step, graph_of_history};
pub use logs::{Exchange, SeatLog, Settled};
pub use replaying::replay;
pub use settling::{settle, settle_with_graph, settle_with_logs};

// Laws: each function is a theorem, its contract, and costs nothing when it is called.

/// For each graph, steps and goal there is exactly one verdict.
pub fn exactly_one_verdict()
    ensures { ExactlyOneVerdict }
{}

/// For each vault and logs there is exactly one place at which the logs first differ from the history, or none: so
/// `settle` has exactly one result, `NoMemory` aside.
pub fn exactly_one_place()
    ensures { ExactlyOnePlace }
{}

/// If the logs agree with the history for each seat, they have as many exchanges as it has entries.
pub fn agreed_counts()
    ensures { AgreedCounts }
{}

/// What `settle` gives back can be settled again, with the same result.
pub fn places_stay()
    ensures { PlacesStay }
{}

/// The steps of a legal history lead from each graph with the kinds, edges and next serial of its opening, in which
/// nobody has retired, to one with those of the graph that the history leaves.
pub fn histories_derive()
    ensures { HistoriesDerive }
{}
