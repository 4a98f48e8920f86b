//! Whether rights can ever be shared in a take-grant protection graph, whatever its subjects do (Lipton and Snyder
//! 1977; Bishop's can.share).
//!
//! Two sets of vertices answer it for one vertex that is to have rights. An accomplice is an actor, a subject that has
//! not retired, who can pass rights on to that vertex. *Spanned* are the vertices to which a terminal span, takes one
//! after another, leads from an accomplice. *Bridged* are those from which takes lead to an accomplice, or to where the
//! grant of a bridge or of the initial span follows. Rights can be shared exactly if spanned vertices, or the vertex
//! itself, have them.
//!
//! `marks` sets these marks, each for a reason; `search` finds quickly in which order, and `follow` shows that there
//! are no more; `builder`, `carry` and `fetch` derive steps from the reasons, `gains` and `plain` look for steps that
//! make no vertices, `sharing` answers, and `prospect` and `lookup` do so for many vertices at once.
#![tactic(auto)]

ghost use Rattle.tg_sharing.specs.Promise.Laws.{SharingHasMeaning, WithheldForEver};

mod builder;
mod carry;
mod fetch;
mod follow;
mod gains;
mod lookup;
mod marks;
mod plain;
mod prospect;
mod search;
mod sharing;

pub use lookup::{Listing, every_holder, every_target};
pub use prospect::{Could, Prospect, what_could, who_could};
pub use sharing::{Answer, can_share};
use tg_graph::{commands_keep_graphs, each_is_allowed_so};

// Laws: each function is a theorem, its contract, and costs nothing when it is called.

/// A right that all spanned vertices lack is never shared.
pub fn withheld_for_ever()
    ensures { WithheldForEver }
{
    each_is_allowed_so();
    commands_keep_graphs();
}

/// What steps, and lists with and without vertices, say about what can be shared.
pub fn sharing_has_meaning()
    ensures { SharingHasMeaning }
{}
