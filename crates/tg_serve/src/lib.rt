//! A server: a vault served to clients over connections, in rounds, while a collector runs.
#![tactic(auto)]

mod attending;
mod beginning;
mod budget;
mod client;
mod desk;
mod door;
mod key;
mod laws;
mod listening;
mod operating;
mod pace;
mod platform;
mod request;
mod rounds;
mod serve;
mod socket;
mod status;
mod system;
mod tally;
mod telling;
#[cfg(test)]
mod tests;
mod waiting;

pub use attending::attend;
pub use desk::{Departure, Desk, History, Notice};
pub use laws::servers_have_meanings;
pub use listening::{serve_lines, serve_lines_operated};
pub use operating::Operating;
pub use platform::Platform;
pub use rounds::{serve_on, serve_operated};
pub use serve::Served;
pub use socket::control_socket;
pub use status::Serving;
pub use system::{available_memory, most_open_files};
