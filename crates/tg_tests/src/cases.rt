//! What the tables of the tests say, as values that a `const` may hold: configurations, commands and replies, with
//! rights by their letters r, w, t and g.
use std::alloc::{AllocError, Global};
use tg_graph::Config;
use tg_rights::{Cause, Command, Kind, Name, Reply, Rights, Rule, Text, Which, Word};

/// An edge from the first vertex to the second, with these rights.
pub type Edge = (u64, &'static str, u64);

/// A configuration.
#[derive(Clone, Copy)]
pub struct Opening {
    pub names: &'static [&'static str],
    pub edges: &'static [Edge],
    pub next: u64,
    pub slots: u64,
    pub cells: u64,
}

/// Alice and bob, who are 1 and 2, without rights over each other.
pub const TWO: Opening = Opening {
    names: &["alice", "bob"],
    edges: &[],
    next: 3,
    slots: 8,
    cells: 8,
};

/// Alice may take from bob.
pub const TAKING: Opening = Opening {
    edges: &[(1, "t", 2)],
    ..TWO
};

/// Alice may take from bob, and grant to him.
pub const TAKING_AND_GRANTING: Opening = Opening {
    edges: &[(1, "tg", 2)],
    ..TWO
};

/// Alice may take from bob, who may read carol.
pub const TO_CAROL: Opening = Opening {
    names: &["alice", "bob", "carol"],
    edges: &[(1, "t", 2), (2, "r", 3)],
    next: 4,
    slots: 8,
    cells: 8,
};

/// Alice and bob, with one slot for a document.
pub const ONE_MORE: Opening = Opening {
    slots: 3,
    cells: 4,
    ..TWO
};

/// As many principals as there may be, a (1), b (2) and so on, with one slot for another.
pub const CROWD: Opening = Opening {
    names: &[
        "a", "b", "c", "d", "e", "f", "g", "h", "i", "j", "k", "l", "m", "n", "o", "p", "q", "r",
        "s", "t", "u", "v", "w", "x", "y", "z", "aa", "ab", "ac", "ad", "ae", "af", "ag", "ah",
        "ai", "aj", "ak", "al", "am", "an", "ao", "ap", "aq", "ar", "as", "at", "au", "av", "aw",
        "ax", "ay", "az", "ba", "bb", "bc", "bd", "be", "bf", "bg", "bh", "bi", "bj", "bk", "bl",
    ],
    edges: &[],
    next: 65,
    slots: 65,
    cells: 8,
};

/// What a vertex asks for.
#[derive(Clone, Copy)]
pub enum Ask {
    /// These rights over the first, from the second.
    Take(&'static str, u64, u64),
    /// These rights over the first, to the second.
    Grant(&'static str, u64, u64),
    Document(&'static str),
    Subject(&'static str),
    Remove(&'static str, u64),
    Read(u64),
    Write(u64, &'static str),
    Look(u64),
    /// A principal of this name, and these rights over it.
    Enrol(&'static str, &'static str),
    Retire,
    /// To act for this subject.
    Assume(u64),
    Leave,
}

/// The reply to a command.
#[derive(Clone, Copy)]
pub enum Want {
    Done,
    Created(u64),
    Text(&'static str),
    Edges(&'static [(u64, &'static str)]),
    /// Denied: the label from the first vertex to the second lacks these rights.
    Lacks(u64, u64, &'static str),
    Empty,
    NotDistinct,
    NotDocument(u64),
    NotSubject(u64),
    Retired,
    NotPrincipal,
    NameTaken,
    Crowded,
    Full(Which),
}

/// What is asked for, and the reply.
pub type Asked = (Ask, Want);

/// The rights of the letters; none if they write no rights.
pub fn rights_of(letters: &str) -> Rights {
    letters.parse().unwrap_or(Rights::empty())
}

/// A word of these letters.
pub fn word(alloc: Global, letters: &str) -> Result<Word, AllocError> {
    Ok(Word::new(String::from_str(alloc, letters)?))
}

/// The words in their order.
fn words(alloc: Global, listed: &[&str]) -> Result<Vec<Word>, AllocError> {
    let mut words = Vec::new(alloc);
    for letters in listed {
        words.push(word(alloc, letters)?)?;
    }
    Ok(words)
}

/// The edges in their order.
fn edges(alloc: Global, listed: &[Edge]) -> Result<Vec<(u64, Rights, u64)>, AllocError> {
    let mut edges = Vec::new(alloc);
    for (from, letters, to) in listed {
        edges.push((*from, rights_of(letters), *to))?;
    }
    Ok(edges)
}

/// The configuration that is written in this way.
pub fn config(alloc: Global, opening: &Opening) -> Result<Config, AllocError> {
    let principals = words(alloc, opening.names)?;
    let edges = edges(alloc, opening.edges)?;
    Ok(Config {
        principals,
        edges,
        next: opening.next,
        slots: opening.slots,
        cells: opening.cells,
    })
}

/// The rule of what is asked for.
pub fn rule_of(ask: Ask) -> Rule {
    match ask {
        Ask::Take(..) => Rule::Take,
        Ask::Grant(..) => Rule::Grant,
        Ask::Document(_) => Rule::Create,
        Ask::Subject(_) => Rule::Create,
        Ask::Remove(..) => Rule::Remove,
        Ask::Read(_) => Rule::Read,
        Ask::Write(..) => Rule::Write,
        Ask::Look(_) => Rule::Look,
        Ask::Enrol(..) => Rule::Enrol,
        Ask::Retire => Rule::Retire,
        Ask::Assume(_) => Rule::Assume,
        Ask::Leave => Rule::Leave,
    }
}

/// A text of more bytes than lie in a text itself, so that a copy takes memory unless it shares them.
pub const LONG: &str = "a text of many bytes";

/// A text of these bytes, which have to be few enough.
pub fn text(alloc: Global, content: &str) -> Result<Text, AllocError> {
    Text::new(String::from_str(alloc, content)?).map_err(|_| AllocError)
}

/// The name of these letters.
pub fn name(alloc: Global, letters: &str) -> Result<Name, AllocError> {
    Name::new(String::from_str(alloc, letters)?).map_err(|_| AllocError)
}

/// The command that is asked for.
pub fn command(alloc: Global, ask: Ask) -> Result<Command, AllocError> {
    Ok(match ask {
        Ask::Take(letters, over, from) => Command::take(rights_of(letters), over, from),
        Ask::Grant(letters, over, to) => Command::grant(rights_of(letters), over, to),
        Ask::Document(letters) => Command::create(Kind::Document, rights_of(letters)),
        Ask::Subject(letters) => Command::create(Kind::Subject, rights_of(letters)),
        Ask::Remove(letters, over) => Command::remove(rights_of(letters), over),
        Ask::Read(over) => Command::read(over),
        Ask::Write(over, content) => Command::write(over, text(alloc, content)?),
        Ask::Look(at) => Command::look(at),
        Ask::Enrol(letters, rights) => Command::enrol(name(alloc, letters)?, rights_of(rights)),
        Ask::Retire => Command::retire(),
        Ask::Assume(agent) => Command::assume(agent),
        Ask::Leave => Command::leave(),
    })
}

/// Whether the edges found are these.
pub fn are_edges(found: &[(u64, Rights)], wanted: &[(u64, &str)]) -> bool {
    found.len() == wanted.len()
        && found.iter().zip(wanted.iter()).all(|(edge, want)| edge.0 == want.0
            && edge.1 == rights_of(want.1))
}

/// Whether the cause of a denial is the one that is wanted.
pub fn is_cause(cause: Cause, want: Want) -> bool {
    match want {
        Want::Lacks(from, to, letters) => {
            let rights = rights_of(letters);
            cause == Cause::Missing { from, to, rights }
        }
        Want::Empty => cause == Cause::Empty,
        Want::NotDistinct => cause == Cause::NotDistinct,
        Want::NotDocument(vertex) => cause == Cause::NotDocument { vertex },
        Want::NotSubject(vertex) => cause == Cause::NotSubject { vertex },
        Want::Retired => cause == Cause::Retired,
        Want::NotPrincipal => cause == Cause::NotPrincipal,
        Want::NameTaken => cause == Cause::NameTaken,
        Want::Crowded => cause == Cause::Crowded,
        _ => false,
    }
}

/// Whether the reply to a command of this rule is the one that is wanted.
pub fn is_reply(reply: &Reply, rule: Rule, want: Want) -> bool {
    match reply {
        Reply::Done => matches!(want, Want::Done),
        Reply::Created(serial) => matches!(want, Want::Created(wanted) if wanted == *serial),
        Reply::Text(text) => matches!(want, Want::Text(wanted) if text.get() == wanted),
        Reply::Edges(edges) => {
            matches!(want, Want::Edges(wanted) if are_edges(edges.get(), wanted))
        }
        Reply::Denied(found, cause) => *found == rule && is_cause(*cause, want),
        Reply::Full(which) => matches!(want, Want::Full(wanted) if wanted == *which),
    }
}
