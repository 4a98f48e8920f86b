//! A session that draws its commands, and remembers the replies.

use crate::board::Board;
use crate::draws::{Drawn, Draws, rights_to_act};
use crate::figures::{micros_since, now};
use crate::load::Load;
use std::alloc::{AllocError, Global};
use std::mem;
use std::rt::Clock;
use std::sync::Wait;
use std::sync::atomic::Ordering;
use std::sync::ledger::Ledger;
use tg_rights::{Cause, Kind, Reply, Rights, Rule};
use tg_share::{Open, Session};

/// A session acts for a subject for fewer commands than these, and then leaves it.
const TURNS: u64 = 8;

/// What a session draws its commands by.
#[derive(Drop)]
pub struct Actor {
    pub draws: Draws,
    /// Whether it may retire: the load stays as it is if few do.
    pub is_guest: bool,
    /// Rights over vertices that the one who acts has made or taken, and will give up.
    pub held: Vec<(u64, Rights)>,
    /// The same for the principal, while the session acts for a subject.
    pub kept: Vec<(u64, Rights)>,
    /// A subject that was made, for which the session acts next.
    pub subject: Option<u64>,
    /// For how many more commands the session acts for a subject, the leave among them.
    pub turns: u64,
    /// How many vertices it made.
    pub made: u64,
    /// The longest time that one command took, in microseconds.
    pub longest: u64,
}

impl Actor {
    /// The vertex whose rights came last.
    fn last(&self) -> u64 {
        match self.held.last() {
            Some(found) => found.0,
            None => 1,
        }
    }

    /// Rights to give up: the last that came.
    fn given_up(&mut self) -> Drawn {
        let (over, rights) = match self.held.pop() {
            Some(found) => found,
            None => (self.last(), self.draws.rights()),
        };
        Drawn::about(Rule::Remove, rights, over)
    }

    /// The command by which the session begins or ends to act for a subject, if it is due.
    fn due(&mut self) -> Option<Drawn> {
        if let Some(agent) = self.subject {
            return Some(Drawn::about(Rule::Assume, rights_to_act(), agent));
        }
        if self.turns == 1 {
            return Some(Drawn::about(Rule::Leave, Rights::empty(), 0));
        }
        self.turns = self.turns.saturating_sub(1);
        None
    }

    /// Acts for the subject, which its principal gives up once the session has left it. An agent's own subjects, and
    /// what it holds, are given up with it.
    fn begin(&mut self, drawn: &Drawn) -> Result<(), AllocError> {
        if self.turns == 0 {
            self.held.push((drawn.over, drawn.rights))?;
            mem::swap(&mut self.held, &mut self.kept);
        }
        self.held.clear();
        self.subject = None;
        self.turns = 1 + self.draws.below(TURNS);
        Ok(())
    }

    /// Acts for nobody any longer.
    fn end(&mut self) {
        if self.turns > 0 {
            mem::swap(&mut self.held, &mut self.kept);
        }
        self.kept.clear();
        self.turns = 0;
    }

    /// The next rule; a look in place of a retire of anyone but the guest.
    fn rule(&mut self) -> Rule {
        match self.draws.rule() {
            Rule::Retire if !self.is_guest => Rule::Look,
            rule => rule,
        }
    }

    /// The next command, given someone's newest vertex.
    fn draw(&mut self, newest: u64) -> Drawn {
        if let Some(drawn) = self.due() {
            return drawn;
        }
        let rule = self.rule();
        if rule == Rule::Assume {
            return Drawn::of_agent();
        }
        if rule == Rule::Remove || self.held.len() > 2 {
            return self.given_up();
        }
        let over = match rule {
            Rule::Take | Rule::Look => newest,
            Rule::Grant => self.draws.principal(),
            Rule::Create
            | Rule::Remove
            | Rule::Read
            | Rule::Write
            | Rule::Enrol
            | Rule::Retire
            | Rule::Assume
            | Rule::Leave => self.last(),
        };
        Drawn {
            rule,
            kind: Kind::Document,
            rights: self.draws.rights(),
            over,
            other: self.draws.principal(),
        }
    }

    /// Remembers what the reply says.
    fn learn(&mut self, drawn: &Drawn, reply: &Reply, board: &Board) -> Result<(), AllocError> {
        match reply {
            Reply::Created(serial) => {
                self.made = self.made.wrapping_add(1);
                board.newest.store(*serial, Ordering::SeqCst);
                if drawn.kind == Kind::Subject {
                    self.subject = Some(*serial);
                } else {
                    self.held.push((*serial, drawn.rights))?;
                }
            }
            Reply::Done => match drawn.rule {
                Rule::Take => self.held.push((drawn.over, drawn.rights))?,
                Rule::Assume => self.begin(drawn)?,
                Rule::Leave => self.end(),
                _ => {}
            },
            Reply::Denied(Rule::Assume, _) => {
                self.subject = None;
                self.held.push((drawn.over, drawn.rights))?;
            }
            Reply::Denied(Rule::Remove, Cause::Missing { rights, .. }) => {
                let left = drawn.rights.minus(*rights);
                if !left.is_empty() {
                    self.held.push((drawn.over, left))?;
                }
            }
            _ => {}
        }
        Ok(())
    }
}

/// Submits the next command.
fn ask_one<L: Ledger, R: Wait + Clock>(
    rt: &R,
    alloc: Global,
    session: &mut Session<'_, L>,
    actor: &mut Actor,
    board: &Board,
) -> Option<()> {
    let drawn = actor.draw(board.newest.load(Ordering::SeqCst));
    let command = drawn.command(alloc).ok()?;
    let start = now(rt);
    let told = session.submit(rt, command, &Open);
    actor.longest = actor.longest.max(micros_since(rt, start));
    match told {
        Ok(reply) => actor.learn(&drawn, reply, board).ok(),
        Err(_) => None,
    }
}

/// Submits all commands, half of them after waiting for the collector if that is wanted; returns whether each was
/// entered.
pub fn ask_all<L: Ledger, R: Wait + Clock>(
    rt: &R,
    alloc: Global,
    load: Load,
    session: &mut Session<'_, L>,
    actor: &mut Actor,
    board: &Board,
) -> bool {
    for number in 0..load.commands {
        let is_half_way = number == load.commands / 2;
        if load.wants_reuse && is_half_way && !board.wait_for_cycles(rt) {
            return false;
        }
        if ask_one(rt, alloc, session, actor, board).is_none() {
            return false;
        }
    }
    true
}
