//! How a server is operated, and what those who operate it ask.
use tg_serve::Operating;

/// What a server is asked for, besides whom it serves and how many clients.
#[derive(Debug, Drop)]
pub struct Operation {
    /// Its bounds, and what those who attend to it want.
    pub operating: Operating,
    /// The path of the control socket.
    pub control: Option<String>,
    /// The file to which the history of each round is appended.
    pub history: Option<String>,
}

/// What is asked of a server through its control socket.
#[derive(Clone, Copy, PartialEq, Eq, Debug)]
pub enum Request {
    /// Its status; shown again every so many seconds, if there is a number.
    Status { watch: Option<u64> },
    /// To end, once it has waited this many seconds for its clients.
    Stop { within: u64 },
    /// To end this round, and to go on with the next one.
    EndRound { within: u64 },
}
