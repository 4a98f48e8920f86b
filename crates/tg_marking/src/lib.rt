//! The collector as mathematics: a store as one list of slots, the lines of the step table, the sessions' steps, and
//! what all of them keep. Each function here is a law, with an empty body and a theorem for a contract; there is no
//! code.
//!
//! The collector is the one of Dijkstra, Lamport, Martin, Scholten and Steffens (1978), with a list of grey slots.
#![tactic(auto)]

ghost use Rattle.tg_marking.specs.Promise.Invariant.{SessionsKeep};
ghost use Rattle.tg_marking.specs.Promise.Collected.{LinesKeep};
ghost use Rattle.tg_marking.specs.Promise.Runs.{CyclesAreComplete, Settles, StepsMutate};
ghost use Rattle.tg_marking.specs.Promise.Left.{BoundInNumbers, LinesAreBounded, NeverRaises, AreSlotsCounted};

/// A law: each line of the step table keeps the invariant, and does to each slot what callers see.
pub fn lines_keep()
    ensures { LinesKeep }
{}

/// A law: each session step keeps the invariant, and a blank store has it.
pub fn sessions_keep()
    ensures { SessionsKeep }
{}

/// A law: what is not live in an idle store has no slot once two cycles have ended, whatever session steps come
/// between; and once three cycles have ended without any, only what is live has one. The exact session steps, from a
/// store with the invariant, are among those that may come, if what becomes a root or the end of an edge put at rest is
/// live or new, and what is placed is new.
pub fn runs_are_complete()
    ensures complete { CyclesAreComplete }
    ensures settles { Settles }
    ensures mutates { StepsMutate }
{}

/// A law: each collector step lowers the number of steps that a cycle may still take, unless it ends the cycle, and no
/// session step raises it; free slots, held ones and parked ones are all slots.
pub fn cycles_are_bounded()
    ensures lower { LinesAreBounded }
    ensures no_higher { NeverRaises }
    ensures counted { AreSlotsCounted }
    ensures numbers { BoundInNumbers }
{}
