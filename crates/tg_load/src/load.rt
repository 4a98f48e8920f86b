//! What is asked of the program.

/// How much is to be done at once, and how often.
#[derive(Clone, Copy)]
pub struct Load {
    /// How many sessions there are, on the seats from 0 on.
    pub sessions: u64,
    /// The commands of each session.
    pub commands: u64,
    /// The slots of the vault.
    pub slots: u64,
    /// How many documents are made before the sessions begin, and are held to the end.
    pub held: u64,
    /// How many runs there are, one after another.
    pub runs: u64,
    /// What the first run is drawn from; each further run is drawn from the next number.
    pub seed: u64,
    /// Whether the collector runs at the same time.
    pub has_collector: bool,
    /// Half-way the sessions wait for the collector, and a run in which no slot was used again has failed.
    pub wants_reuse: bool,
    /// Whether the figures of each run are printed.
    pub has_figures: bool,
}
