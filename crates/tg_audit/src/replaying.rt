//! The replies of a history, by the plain graph alone.
ghost use Rattle.std.specs.Prelude.{◌≡◌, ◌↔◌, IsTrue, IfOk, OnOk};
ghost use Rattle.tg_graph.specs.Promise.Fullness.{Limits, Permitted};
ghost use Rattle.tg_graph.specs.Promise.Rules.{next_graph, reply_of};
ghost use Rattle.tg_audit.specs.Promise.Replies.{replies_of};
ghost use Rattle.tg_audit.specs.Inner.Replies.{IsSubjectOrRetired, beyond, retired_reply};

use std::alloc::{AllocError, Global};
use tg_graph::{Graph, is_for_retired};
use tg_rights::{Cause, Command, Outcome, Reply, Which};
use tg_vault::{Entry, Vault};

/// What is used up in an outcome that no plain graph gives.
fn beyond(outcome: Outcome) -> Option<Which>
    ensures { result ≡ beyond outcome }
{
    match outcome {
        Outcome::Full(which) => match which {
            Which::Serials => None,
            Which::Slots => Some(Which::Slots),
            Which::Cells => Some(Which::Cells),
        },
        Outcome::Allowed => None,
        Outcome::Denied(..) => None,
    }
}

/// The reply to an actor that has retired, whose command changes nothing.
fn retired_reply(actor: u64, command: &Command) -> Reply
    ensures { result ≡ retired_reply actor command.now }
{
    if is_for_retired(actor, command) {
        Reply::Done
    } else {
        Reply::Denied(command.rule(), Cause::Retired)
    }
}

/// Carries out the entry's command if the graph allows it, and returns the reply. That slots or cells were used up,
/// which a plain graph does not have, is taken from the entry. A graph judges subjects alone, and those who ask are
/// subjects, or have retired, which the graph knows.
pub fn reply_to(alloc: Global, graph: &mut Graph, entry: &Entry) -> Result<Reply, AllocError>
    requires asks { IsSubjectOrRetired graph.old entry.now.actor }
    requires permitted { (limits : Limits) × Permitted limits graph.old entry.now.actor entry.now.command entry.now.outcome }
    ensures reply { IfOk result (λ r. r ≡ reply_of graph.old entry.now.actor entry.now.command entry.now.outcome) }
    ensures graph { OnOk result (graph.new ≡ next_graph graph.old entry.now.actor entry.now.command entry.now.outcome) }
{
    let actor = entry.actor();
    let asked = entry.command();
    if graph.retired(actor) {
        return Ok(retired_reply(actor, asked));
    }
    match beyond(entry.outcome()) {
        Some(which) => Ok(Reply::Full(which)),
        None => {
            let command = asked.copy(alloc)?;
            graph.apply(actor, command)
        }
    }
}

/// Carries out the entry's command as `reply_to` does, and says whether this is the reply; only what is stored is
/// copied.
pub fn is_reply(graph: &mut Graph, entry: &Entry, told: &Reply) -> Result<bool, AllocError>
    requires asks { IsSubjectOrRetired graph.old entry.now.actor }
    requires permitted { (limits : Limits) × Permitted limits graph.old entry.now.actor entry.now.command entry.now.outcome }
    ensures same { IfOk result (λ same. IsTrue same ↔ reply_of graph.old entry.now.actor entry.now.command entry.now.outcome ≡ told.now) }
    ensures graph { OnOk result (graph.new ≡ next_graph graph.old entry.now.actor entry.now.command entry.now.outcome) }
{
    let actor = entry.actor();
    let asked = entry.command();
    if graph.retired(actor) {
        return Ok(are_same(retired_reply(actor, asked), told));
    }
    match beyond(entry.outcome()) {
        Some(which) => Ok(are_same(Reply::Full(which), told)),
        None => graph.repeat(actor, asked, told),
    }
}

/// Whether the one reply is the other.
fn are_same(reply: Reply, told: &Reply) -> bool
    ensures { IsTrue result ↔ reply ≡ told.now }
{
    reply == *told
}

/// The replies of all entries, each by the plain graph that the entries before it leave, starting from a copy of the
/// opening graph: a witness of the vault that shares nothing with its store. A plain graph is full for serials only, so
/// an entry that was full for slots or cells gets that reply and changes nothing. `AllocError` if there is no memory
/// for the graph or the replies.
pub fn replay(alloc: Global, vault: &Vault) -> Result<Vec<Reply>, AllocError>
    ensures { IfOk result (λ replies. replies.items ≡ replies_of vault.now.opening vault.now.history) }
{
    vault.soundness();
    let mut graph = vault.opening().copy()?;
    let mut replies = Vec::new(alloc);
    for number in 0..vault.count() {
        let Some(entry) = vault.entry(number) else {
            unreachable!()
        };
        let reply = reply_to(alloc, &mut graph, entry)?;
        replies.push(reply)?;
    }
    Ok(replies)
}
