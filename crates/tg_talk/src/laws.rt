//! Laws: each function is a theorem, its contract, and costs nothing when it is called.
ghost use Rattle.tg_talk.specs.Promise.Meanings.{EndsMean, TalksHaveMeanings};

/// What is entered for a line is its command, and the answer is the reply to it; and a hello is answered as one.
pub fn talks_have_meanings()
    ensures { TalksHaveMeanings }
{}

/// What it means that a read failed, that a configuration is refused, and that there were too many lines.
pub fn ends_have_meanings()
    ensures { EndsMean }
{}
