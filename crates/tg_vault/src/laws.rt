//! Laws: each function is a theorem, its contract, and costs nothing when it is called.
ghost use Rattle.tg_vault.specs.Promise.Course.{CoursesJoin};
ghost use Rattle.tg_vault.specs.Promise.Laws.{CoursesHaveTheHeadline, FaultsAreOrdered};
ghost use Rattle.tg_vault.specs.Promise.Meanings.{ActorsHaveMeanings, AnswersHaveMeanings, CyclesAreShort, EightStepsAreEnough, FreshHasMeaning, FullHasMeaning, HeadlineHasMeaning, HellosLeaveRoom, LiveIsNotParked, OneLeastSeat, OneRoom, OneScene, ReadsTellNoMore, RebasedHasMeaning};

use tg_collect::runs_are_complete_and_bounded;
use tg_graph::{each_does_so, each_is_allowed_so};

/// Each course from a coherent vault, whose steps are those of `Vault`'s calls, has the headline, and among any
/// `S * S + 3 * S + C + 3` collector steps in a row, for S slots and C cells, one ends a cycle.
pub fn courses_have_the_headline()
    ensures { CoursesHaveTheHeadline }
{
    runs_are_complete_and_bounded();
}

/// One course after another is a course.
pub fn courses_join()
    ensures { CoursesJoin }
{}

/// There is exactly one cause for which a command is not entered: there is no such seat, nobody sits there, the seat
/// has a pending target, or else memory is lacking.
pub fn faults_are_ordered()
    ensures { FaultsAreOrdered }
{}

/// What each answer at a seat means.
pub fn answers_have_meanings()
    ensures { AnswersHaveMeanings }
{}

/// There is one least seat that somebody has.
pub fn one_least_seat()
    ensures { OneLeastSeat }
{}

/// The first actor in a legal history is a principal or was one, and so is the next one, if from another seat.
pub fn actors_have_meanings()
    ensures { ActorsHaveMeanings }
{}

/// What is live is not parked.
pub fn live_is_not_parked()
    ensures { LiveIsNotParked }
{}

/// What it means that a command is refused as full.
pub fn full_has_meaning()
    ensures { FullHasMeaning }
{}

/// What a new vault is like, and after two cycles.
pub fn fresh_has_meaning()
    ensures { FreshHasMeaning }
{}

/// With one slot and one cell, one of any eight collector steps ends a cycle.
pub fn eight_steps_are_enough()
    ensures { EightStepsAreEnough }
{}

/// With one slot and one cell, a cycle takes eight steps at most.
pub fn cycles_are_short()
    ensures { CyclesAreShort }
{}

/// What a rebase leaves to its principals, and hands over.
pub fn rebased_has_meaning()
    ensures { RebasedHasMeaning }
{}

/// A vault has one room.
pub fn one_room()
    ensures { OneRoom }
{}

/// What a picture shows of a vault, but for the order of what is stored, is one.
pub fn one_scene()
    ensures { OneScene }
{}

/// A hello, granted or refused, leaves the room.
pub fn hellos_leave_room()
    ensures { HellosLeaveRoom }
{}

/// What the headline says about a read, a denial for missing rights, and the numbers in answers.
pub fn headline_has_meaning()
    ensures { HeadlineHasMeaning }
{
    each_is_allowed_so();
    each_does_so();
}

/// The text that is read is the document's in each graph that agrees with the vault's for the reader.
pub fn reads_tell_no_more()
    ensures { ReadsTellNoMore }
{}
