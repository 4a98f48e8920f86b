//! How long a client may keep the server waiting.
ghost use Rattle.std.specs.Prelude.{◌≡◌, ℕ, IfOk, Ok};
ghost use Rattle.tg_serve.specs.declared.waiting.Waited.TheVariants as Waited;

use crate::door::{is_in_vain, tick};
use std::io;
use std::io::ErrorKind;
use std::rt::Clock;
use std::time::Duration;

/// For how many milliseconds a client may keep the server waiting, in all, until it has taken its last answers.
const LAST_ANSWERS: u64 = 1_000;

/// The time that a client has kept the server waiting, for a line or until it took its answers, and how long it may.
#[derive(Clone, Copy, Debug)]
pub(crate) struct Waiting {
    patience: Option<Duration>,
    waited: Duration,
    /// Whether this is the last wait.
    is_last: bool,
}

/// What a call did that may wait.
#[derive(Clone, Copy, Debug, PartialEq, Eq)]
pub(crate) enum Waited {
    /// It moved this many bytes.
    Moved(usize),
    /// It waited for a tick in vain, or was interrupted.
    InVain,
}

impl Waiting {
    /// Nothing was waited for yet. The client may be waited for this many seconds, or for ever if there is no number.
    pub(crate) fn new(patience: Option<u64>) -> Waiting {
        Waiting {
            patience: patience.map(Duration::from_secs),
            waited: Duration::ZERO,
            is_last: false,
        }
    }

    /// A new wait begins, unless this is the last one.
    pub(crate) fn end(&mut self) {
        if !self.is_last {
            self.waited = Duration::ZERO;
        }
    }

    /// This wait is the last one, and may go on for a second, or for less if patience is over sooner.
    pub(crate) fn hurry(&mut self) {
        if self.is_last {
            return;
        }
        let most = Duration::from_millis(LAST_ANSWERS);
        let left = match self.patience {
            Some(patience) => patience.saturating_sub(self.waited).min(most),
            None => most,
        };
        self.patience = Some(left);
        self.waited = Duration::ZERO;
        self.is_last = true;
    }

    /// Whether the client has kept the server waiting for as long as it may.
    pub(crate) fn is_over(&self) -> bool {
        self.patience
            .is_some_and(|patience| self.waited >= patience)
    }

    /// The time on the clock, if waits are limited.
    pub(crate) fn start<C: Clock>(&self, clock: &C) -> io::Result<Duration> {
        match self.patience {
            Some(_) => clock.monotonic(),
            None => Ok(Duration::ZERO),
        }
    }

    /// Counts what a call did that began at this time. It counts for a tick at most, as long as it would have waited if
    /// the process had not been stopped meanwhile.
    pub(crate) fn note<C: Clock>(
        &mut self,
        clock: &C,
        start: Duration,
        came: io::Result<usize>,
    ) -> io::Result<Waited>
        ensures moved { IfOk result (λ waited. (n : ℕ) → waited ≡ Waited.Moved n → came ≡ Ok n) }
    {
        let now = self.start(clock)?;
        let waited = now.saturating_sub(start).min(tick());
        self.waited = self.waited.saturating_add(waited);
        match came {
            Ok(count) => Ok(Waited::Moved(count)),
            Err(error) if is_in_vain(&error) => Ok(Waited::InVain),
            Err(error) => Err(error),
        }
    }
}

/// The failure of a call for which a client was waited for too long.
pub(crate) fn too_long() -> io::Error {
    io::Error::from(ErrorKind::TimedOut)
}
