//! Threads over one vault, under one lock. Nothing but events of the vault happens under the lock, and a hold of the
//! lock is used up by its event, if it makes one.
#![tactic(auto)]

ghost use Rattle.tg_share.specs.Promise.Meanings.{ClosingHasMeaning, RoomsAreWithin, SharesHaveMeanings};
ghost use Rattle.tg_share.specs.Promise.Reached.{OneActor};

mod closing;
mod gate;
mod hold;
mod locked;
mod session;

pub use closing::Closed;
pub use gate::{Gate, Open, Place};
pub use locked::PARTS;
pub use session::{Ended, Session, Shared, Worked};
use tg_vault::courses_have_the_headline;

// Laws: each function is a theorem, its contract, and costs nothing when it is called.

/// The entry that an event adds is one actor's.
pub fn entries_have_one_actor()
    ensures { OneActor }
{}

/// What it means that events have led to a vault, and that a command was entered, or refused.
pub fn shares_have_meanings()
    ensures { SharesHaveMeanings }
{}

/// No more slots and cells are reported as free than there are.
pub fn rooms_are_within()
    ensures { RoomsAreWithin }
{
    courses_have_the_headline();
}

/// No exchange is lost in closing a shared vault, and if all sessions were counted, each is in the history.
pub fn closing_has_meaning()
    ensures { ClosingHasMeaning }
{}
