//! Laws of the store: each function is a theorem, its contract, and costs nothing when it is called.
ghost use Rattle.tg_collect.specs.Promise.Held.{Comes, Drops, Gains, Joins};
ghost use Rattle.tg_collect.specs.Promise.Runs.{CallsAct, StoresAreComplete, StoresAreBounded};
ghost use Rattle.tg_collect.specs.Promise.InGraph.{StoresAreInGraph, OpensInGraph, CollectsInGraph, ActsInGraph, ShadesInGraph};
ghost use Rattle.tg_collect.specs.Promise.Openings.{OpeningsCanBeStored};
ghost use Rattle.tg_collect.specs.Promise.Sessions.{TextsComeBack};
ghost use Rattle.tg_collect.specs.Promise.Views.{OneMarkAStep};

/// What a session call does is a step of a run if its new serial is new and its target live or new; and by what the
/// store promises of its steps, every run is complete and bounded.
pub fn runs_are_complete_and_bounded()
    ensures acts { CallsAct }
    ensures complete { StoresAreComplete }
    ensures bounded { StoresAreBounded }
{}

/// What a store has, also once it was opened, and what its collector steps and its session steps do, in the words of
/// the graph of what is held and of serials. Only the step from marking to the sweep takes something from what is held:
/// it parks all that is not black, which no path from a root reaches. A step of the sweep frees at most one vertex, and
/// only one that was parked; no session step changes what is parked. A collector step turns grey only a root or the
/// target of an edge of a grey vertex, and black only what was grey.
pub fn steps_in_the_graph()
    ensures stores { StoresAreInGraph }
    ensures opens { OpensInGraph }
    ensures collects { CollectsInGraph }
    ensures acts { ActsInGraph }
    ensures shades { ShadesInGraph }
{}

/// A store with a configuration's slots and cells can open what that configuration opens, if it has no fault.
pub fn openings_can_be_stored()
    ensures { OpeningsCanBeStored }
{}

/// What a change of one slot does to the graph of what is held. An edge that comes, or gains rights, adds its triples;
/// one that loses rights, or goes, takes them away; a vertex that comes, or whose text is replaced, is inserted.
pub fn held_changes()
    ensures gains { Gains }
    ensures joins { Joins }
    ensures drops { Drops }
    ensures comes { Comes }
{}

/// A collector step that begins no cycle changes the mark of one slot at most.
pub fn one_mark_a_step()
    ensures { OneMarkAStep }
{}

/// A text that replaces another is the one that comes back when it is replaced.
pub fn texts_come_back()
    ensures { TextsComeBack }
{}
