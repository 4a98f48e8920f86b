//! Laws: each function is a theorem, its contract, and costs nothing when it is called.
ghost use Rattle.tgdoc.specs.Promise.Meanings.{AuditsShow, LinesHaveMeanings, PicturesCount, RunsBegin, SharingIsShown, WordsHaveMeanings};

/// What the answer to a line tells about the event that it asks for, or about a cycle of one step.
pub fn lines_have_meanings()
    ensures { LinesHaveMeanings }
{}

/// Nothing is answered before the last line of a run whose first line is not a configuration.
pub fn runs_begin()
    ensures { RunsBegin }
{}

/// An audit that ends without a fault and without an `error` line has shown that its steps meet its goal.
pub fn audits_show()
    ensures { AuditsShow }
{}

/// A picture that is drawn for a line counts as the line's answer does.
pub fn pictures_count()
    ensures { PicturesCount }
{}

/// There are more seats than a server has workers, and a word names one vertex at most.
pub fn words_have_meanings()
    ensures { WordsHaveMeanings }
{}

/// If a goal can be shared, the answer shows so, unless serials run out or memory is lacking.
pub fn sharing_is_shown()
    ensures { SharingIsShown }
{}
