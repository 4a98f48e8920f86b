//! How a server is operated, besides whom it serves and how many.
ghost use Rattle.std.specs.Prelude.{◌≡◌};
ghost use Rattle.tg_serve.specs.Promise.Serving.{unbounded};

/// What bounds a server, besides its numbers of workers and connections, and what its control socket, log and history
/// want.
#[derive(Clone, Copy, Debug, PartialEq, Eq)]
pub struct Operating {
    /// Seconds for which a client may keep the server waiting, for a line or until it takes its answers: 1 to 86,400;
    /// for ever if there is no number.
    pub patience: Option<u64>,
    /// Bytes that the history and the logs of a round may take, as they are counted (PROTOCOL says how), before the
    /// round ends; no bound if there is no number.
    pub memory: Option<u64>,
    /// Whether the server serves until it is asked to stop, whatever its number of connections.
    pub is_endless: bool,
    /// Whether it does what is asked at its desk: to stop, or to end a round.
    pub is_attended: bool,
    /// Whether it leaves notices at its desk.
    pub notifies: bool,
    /// Whether it leaves the history of each round that was settled at its desk.
    pub keeps_history: bool,
}

impl Operating {
    /// No bound of either kind, and no control socket, log or history.
    pub fn none() -> Operating
        ensures { result ≡ unbounded }
    {
        Operating {
            patience: None,
            memory: None,
            is_endless: false,
            is_attended: false,
            notifies: false,
            keeps_history: false,
        }
    }
}
