//! The take-grant rules over a plain graph that is never collected: the model of every other crate.
#![tactic(auto)]

ghost use Rattle.tg_graph.specs.Promise.Laws.{AgentsAreAssumedAndLeft, AllowedIsMet, AnswersAgree, AnswersStayAlike, DenialsAreFirst, CommandsKeepGraphs, DenialsAreTheSame, EdgesAreCounted, EdgesAreListed, ExactlyOneOutcome, OpeningsAreAsListed, OpeningsAreSound, OpeningsFit, OutcomesAgree, PartsAgree, PartsStay, PrincipalsComeAndGo, RefusalsAreFaults, RepliesAgree, RestrictionsAgree, RestrictionsPermit, RestrictionsReply, RestrictionsStay, RightsAreOverOthers, TwiceIsTwoPlaces};
ghost use Rattle.tg_graph.specs.Promise.EachCommand.{EachDoesSo, EachIsAllowedSo, FullAtTheLimit};
ghost use Rattle.tg_graph.specs.Promise.Parts.{PartsAreOneGraph};
ghost use Rattle.tg_graph.specs.Promise.Rewriting.{DerivationsCarryOver};

mod config;
mod derivation;
mod graph;
mod member;
mod parts;
mod repeating;
mod restricting;
mod roll;
mod rules;
mod search;
mod vertex;

pub use config::{Config, OpenFault};
pub use derivation::{Goal, Step, Verdict, rewriting_step};
pub use graph::{Graph, LAST_SERIAL};
pub use member::{Member, serial_of};
pub use parts::Parts;
pub use roll::Roll;
pub use rules::{
    Effect, Found, Need, Reader, Spot, decide, effect_of, into_name, into_text, is_create,
    is_for_retired,
};
pub use vertex::Vertex;

// Laws: each function is a theorem, its contract, and costs nothing when it is called.

/// Each command of each vertex has exactly one outcome by the rules: it is allowed, or denied for one first cause.
pub fn exactly_one_outcome()
    ensures { ExactlyOneOutcome }
{}

/// A command is allowed exactly if all that its rule asks is there.
pub fn allowed_is_met()
    ensures { AllowedIsMet }
{}

/// A denial names the first check that fails.
pub fn denials_are_first()
    ensures { DenialsAreFirst }
{}

/// The rules decide alike in graphs that the actor cannot tell apart.
pub fn outcomes_agree()
    ensures { OutcomesAgree }
{}

/// A subject's allowed command gets the same reply in graphs that it cannot tell apart.
pub fn replies_agree()
    ensures { RepliesAgree }
{}

/// A command gets the same reply in graphs that its actor cannot tell apart, and graphs that some subjects cannot tell
/// apart stay so after a command of one of them.
pub fn answers_agree()
    ensures { AnswersAgree }
{}

/// The next command of one of the subjects for whom two graphs agree has the same reply in both as well.
pub fn answers_stay_alike()
    ensures { AnswersStayAlike }
{}

/// Replies are the same both ways, and a denial is the same as itself alone.
pub fn denials_are_the_same()
    ensures { DenialsAreTheSame }
{}

/// After an allowed command the graph is still a graph, and each subject still a subject.
pub fn commands_keep_graphs()
    ensures { CommandsKeepGraphs }
{}

/// No vertex has a right over itself.
pub fn rights_are_over_others()
    ensures { RightsAreOverOthers }
{}

/// A configuration is refused for what is wrong in it, or for lack of memory.
pub fn refusals_are_faults()
    ensures { RefusalsAreFaults }
{}

/// A name finds the principal who has it; only an enrol makes a principal, and only a retire takes one out.
pub fn principals_come_and_go()
    ensures { PrincipalsComeAndGo }
{}

/// An assume is allowed exactly to an actor that has not retired and has take and grant over another vertex, a subject;
/// a leave is always allowed, and is the only command that a retired actor may ask. Neither changes the graph.
pub fn agents_are_assumed_and_left()
    ensures { AgentsAreAssumedAndLeft }
{}

/// When each of the other commands is allowed, for each by itself: a take to an actor that has take over a vertex with
/// the rights, a grant to one that has the rights, and grant over the vertex that is to get them, and so on.
pub fn each_is_allowed_so()
    ensures { EachIsAllowedSo }
{}

/// What each command that changes rights does, and what it replies, right by right: who has them over whom afterwards.
/// A denial for missing rights names rights that are missing.
pub fn each_does_so()
    ensures { EachDoesSo }
{}

/// A command may be refused as full only at the limit, and there it may; for serials alone if these are used up.
pub fn full_at_the_limit()
    ensures { FullAtTheLimit }
{}

/// A part of a graph with all the edges of its vertices agrees with the graph for each of its subjects.
pub fn parts_agree()
    ensures { PartsAgree }
{}

/// A part of a graph stays one when an allowed command of one of its subjects is carried out in both.
pub fn parts_stay()
    ensures { PartsStay }
{}

/// A restriction of a graph to some vertices, with all their edges, agrees with the graph for each of its subjects.
pub fn restrictions_agree()
    ensures { RestrictionsAgree }
{}

/// What a restriction permits to one of its subjects, the graph permits.
pub fn restrictions_permit()
    ensures { RestrictionsPermit }
{}

/// A restriction of a graph stays one when a command of one of its subjects has an outcome that the restriction
/// permits.
pub fn restrictions_stay()
    ensures { RestrictionsStay }
{}

/// The reply to a command that a restriction permits to one of its subjects is the graph's.
pub fn restrictions_reply()
    ensures { RestrictionsReply }
{}

/// A configuration without a fault has few principals, each a subject of the graph that it opens.
pub fn openings_are_sound()
    ensures { OpeningsAreSound }
{}

/// A configuration without a fault has enough slots and cells, within the limits, for the graph that it opens.
pub fn openings_fit()
    ensures { OpeningsFit }
{}

/// A configuration opens the graph that its lists describe.
pub fn openings_are_as_listed()
    ensures { OpeningsAreAsListed }
{}

/// The edge list of a vertex has its edges and nothing else, by rising serial.
pub fn edges_are_listed()
    ensures { EdgesAreListed }
{}

/// The number of edges changes by the one edge whose label changes; a new vertex adds one.
pub fn edges_are_counted()
    ensures { EdgesAreCounted }
{}

/// Lists have what exactly one graph has.
pub fn parts_are_one_graph()
    ensures { PartsAreOneGraph }
{}

/// What a configuration has twice occurs at two places of its list.
pub fn twice_is_two_places()
    ensures { TwiceIsTwoPlaces }
{}

/// Steps by any rule, from a graph, are followed by those of take, grant, create and remove among them (an enrol is a
/// create of a subject) from each graph that has the same kinds, edges and next serial and in which nobody has retired;
/// and what they lead to has the same kinds and edges again.
pub fn derivations_carry_over()
    ensures { DerivationsCarryOver }
{}
