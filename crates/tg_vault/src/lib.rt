//! The vault: a history of commands, and the seats from which they come, over a store with its collector.
#![tactic(auto)]

mod acting;
mod carry_out;
mod entry;
mod event;
mod laws;
mod rebase;
mod room;
mod scene;
mod seats;
mod vault;

pub use entry::Entry;
pub use event::{Answer, AskFault, Event, SeatFault};
pub use laws::{
    actors_have_meanings, answers_have_meanings, courses_have_the_headline, courses_join,
    cycles_are_short, eight_steps_are_enough, faults_are_ordered, fresh_has_meaning,
    full_has_meaning, headline_has_meaning, hellos_leave_room, live_is_not_parked, one_least_seat,
    one_room, one_scene, reads_tell_no_more, rebased_has_meaning,
};
pub use rebase::{Past, Rebased};
pub use room::Room;
pub use scene::{Scene, Sitting};
pub use tg_collect::{Key, Swept};
pub use vault::{Ran, Vault};
