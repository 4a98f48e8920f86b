//! What is always written alike.
ghost use Rattle.std.specs.Prelude.{◌≡◌};
ghost use Rattle.tg_draw.specs.Promise.Words.{before_cells, before_label, before_slots, before_vertices, colour_word, held_word, kind_word, phase_word, rim, style};

use tg_collect::{Colour, Phase};
use tg_rights::Kind;

/// What comes before the label.
#[tactic(auto, unfolding(crate::specs::Promise::Words::before_label))]
pub(crate) fn before_label() -> &'static [u8]
    ensures { result.now ≡ before_label }
{
    b"digraph { graph [labelloc=t,labeljust=l,label=\""
}

/// What comes between the label and the vertices.
#[tactic(auto, unfolding(crate::specs::Promise::Words::before_vertices))]
pub(crate) fn before_vertices() -> &'static [u8]
    ensures { result.now ≡ before_vertices }
{
    b"\"]; node [shape=circle,width=1];"
}

/// What comes before the count of free slots.
#[tactic(auto, unfolding(crate::specs::Promise::Words::before_slots))]
pub(crate) fn before_slots() -> &'static [u8]
    ensures { result.now ≡ before_slots }
{
    b", free slots "
}

/// What comes before the count of free cells.
#[tactic(auto, unfolding(crate::specs::Promise::Words::before_cells))]
pub(crate) fn before_cells() -> &'static [u8]
    ensures { result.now ≡ before_cells }
{
    b", free cells "
}

/// The collector's phase.
#[tactic(auto, unfolding(crate::specs::Promise::Words::phase_word))]
pub(crate) fn phase_word(phase: Phase) -> &'static [u8]
    ensures { result.now ≡ phase_word phase }
{
    match phase {
        Phase::Idle => b"idle",
        Phase::Mark => b"mark",
        Phase::Sweep => b"sweep",
    }
}

/// What a vertex is.
#[tactic(auto, unfolding(crate::specs::Promise::Words::kind_word))]
pub(crate) fn kind_word(kind: Kind) -> &'static [u8]
    ensures { result.now ≡ kind_word kind }
{
    match kind {
        Kind::Subject => b"subject",
        Kind::Document => b"document",
    }
}

/// A vertex's colour.
#[tactic(auto, unfolding(crate::specs::Promise::Words::colour_word))]
pub(crate) fn colour_word(colour: Colour) -> &'static [u8]
    ensures { result.now ≡ colour_word colour }
{
    match colour {
        Colour::White => b"white",
        Colour::Grey => b"grey",
        Colour::Black => b"black",
    }
}

/// That a vertex waits to be swept; nothing if it is held.
#[tactic(auto, unfolding(crate::specs::Promise::Words::held_word))]
pub(crate) fn held_word(is_held: bool) -> &'static [u8]
    ensures { result.now ≡ held_word is_held }
{
    if is_held { b"" } else { b" condemned" }
}

/// How a vertex is drawn: a subject filled, a document open, with a dashed rim if it waits to be swept.
#[tactic(auto, unfolding(crate::specs::Promise::Words::style))]
pub(crate) fn style(kind: Kind, is_held: bool) -> &'static [u8]
    ensures { result.now ≡ style kind is_held }
{
    match kind {
        Kind::Subject => {
            if is_held {
                b"style=filled,fillcolor=skyblue"
            } else {
                b"style=\"filled,dashed\",fillcolor=skyblue"
            }
        }
        Kind::Document => {
            if is_held {
                b"style=solid"
            } else {
                b"style=dashed"
            }
        }
    }
}

/// The rim of a vertex of a colour: thin, thick and grey, or thick.
#[tactic(auto, unfolding(crate::specs::Promise::Words::rim))]
pub(crate) fn rim(colour: Colour) -> &'static [u8]
    ensures { result.now ≡ rim colour }
{
    match colour {
        Colour::White => b",penwidth=1",
        Colour::Grey => b",penwidth=4,color=gray50",
        Colour::Black => b",penwidth=4",
    }
}
