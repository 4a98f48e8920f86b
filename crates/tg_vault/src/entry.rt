//! The entries of the history.
ghost use Rattle.std.specs.Prelude.{◌≡◌, ◌<◌};
ghost use Rattle.tg_rights.specs.declared.limits.TheConstants.{SEATS};
ghost use Rattle.tg_vault.specs.Inner.Recorded.{AreNamed, IsNamed, IsOfCommand, cause_of, first_named, outcome_of, second_named, serial_at};

use std::marker::Model;
use tg_rights::{Cause, Command, Outcome, Rights, Rule, Which};

// An outcome without its cause: two bytes, which share a word with the seat.
#[derive(Clone, Copy, Debug)]
enum Verdict {
    Allowed,
    Denied(Rule),
    Full(Which),
}

// A cause without the serials that it names: two bytes more of that word.
#[derive(Clone, Copy, Debug)]
enum Why {
    Retired,
    Empty,
    NotDistinct,
    Missing(Rights),
    NotDocument,
    NotSubject,
    NotPrincipal,
    NameTaken,
    Crowded,
}

// Where a serial stands that a cause names, which is the actor's or one of the command's: a byte of that word.
#[derive(Clone, Copy, Debug)]
enum Place {
    Actor,
    First,
    Second,
}

/// A command that was decided. Contracts see its seat, its actor, the command and the outcome.
#[derive(Debug, Drop)]
pub struct Entry {
    seat: u8,
    verdict: Verdict,
    // Why it was denied, if it was, and the serials that the cause names, of which `from` is the only one or the first.
    why: Why,
    from: Place,
    to: Place,
    actor: u64,
    command: Command,
}

// There is one for each command until the round ends.
const _: () = prove!(size_of::<Entry>() == 64);

impl Model for Entry {
    ghost use Rattle.tg_vault.specs.Promise.Recorded.{Recorded};
    ghost use Rattle.tg_vault.specs.Inner.Recorded.{recorded};

    ghost Value = { Recorded };

    ghost view = { recorded };
}

/// The serials that a command names, `over` before `from` or `to`; 0 in place of those that it does not name.
fn named_in(command: &Command) -> (u64, u64)
    ensures first { result.0 ≡ first_named command.now }
    ensures second { result.1 ≡ second_named command.now }
{
    match command {
        Command::Take { over, from, .. } => (*over, *from),
        Command::Grant { over, to, .. } => (*over, *to),
        Command::Remove { over, .. } => (*over, 0),
        Command::Read { over } => (*over, 0),
        Command::Write { over, .. } => (*over, 0),
        Command::Look { at } => (*at, 0),
        Command::Assume { agent } => (*agent, 0),
        _ => (0, 0),
    }
}

impl Place {
    /// Where this serial stands, which is the actor's or one of the command's.
    fn of(serial: u64, actor: u64, command: &Command) -> Place
        requires { IsNamed actor command.now serial }
        ensures { serial_at result actor command.now ≡ serial }
    {
        if serial == actor {
            return Place::Actor;
        }
        if serial == named_in(command).0 {
            return Place::First;
        }
        Place::Second
    }

    /// The serial that stands there.
    fn serial(self, actor: u64, command: &Command) -> u64
        ensures { result ≡ serial_at self actor command.now }
    {
        match self {
            Place::Actor => actor,
            Place::First => named_in(command).0,
            Place::Second => named_in(command).1,
        }
    }
}

/// A cause apart from the serials that it names, each by where it stands; `Actor` for those that it does not name.
fn apart(cause: Cause, actor: u64, command: &Command) -> (Why, Place, Place)
    requires { AreNamed actor command.now cause }
    ensures { cause_of result.0 (serial_at result.1 actor command.now) (serial_at result.2 actor command.now) ≡ cause }
{
    match cause {
        Cause::Retired => (Why::Retired, Place::Actor, Place::Actor),
        Cause::Empty => (Why::Empty, Place::Actor, Place::Actor),
        Cause::NotDistinct => (Why::NotDistinct, Place::Actor, Place::Actor),
        Cause::Missing { rights, from, to } => (
            Why::Missing(rights),
            Place::of(from, actor, command),
            Place::of(to, actor, command),
        ),
        Cause::NotDocument { vertex } => (
            Why::NotDocument,
            Place::of(vertex, actor, command),
            Place::Actor,
        ),
        Cause::NotSubject { vertex } => (
            Why::NotSubject,
            Place::of(vertex, actor, command),
            Place::Actor,
        ),
        Cause::NotPrincipal => (Why::NotPrincipal, Place::Actor, Place::Actor),
        Cause::NameTaken => (Why::NameTaken, Place::Actor, Place::Actor),
        Cause::Crowded => (Why::Crowded, Place::Actor, Place::Actor),
    }
}

/// An outcome as a verdict and the parts of a cause, which mean nothing unless the command was denied.
fn parts(outcome: Outcome, actor: u64, command: &Command) -> (Verdict, Why, Place, Place)
    requires { IsOfCommand actor command.now outcome }
    ensures { outcome_of result.0 (cause_of result.1 (serial_at result.2 actor command.now) (serial_at result.3 actor command.now)) ≡ outcome }
{
    match outcome {
        Outcome::Allowed => (Verdict::Allowed, Why::Empty, Place::Actor, Place::Actor),
        Outcome::Denied(rule, cause) => {
            let (why, from, to) = apart(cause, actor, command);
            (Verdict::Denied(rule), why, from, to)
        }
        Outcome::Full(which) => (Verdict::Full(which), Why::Empty, Place::Actor, Place::Actor),
    }
}

impl Why {
    /// The cause that names these serials, if it names any.
    fn of(self, from: u64, to: u64) -> Cause
        ensures { result ≡ cause_of self from to }
    {
        match self {
            Why::Retired => Cause::Retired,
            Why::Empty => Cause::Empty,
            Why::NotDistinct => Cause::NotDistinct,
            Why::Missing(rights) => Cause::Missing { rights, from, to },
            Why::NotDocument => Cause::NotDocument { vertex: from },
            Why::NotSubject => Cause::NotSubject { vertex: from },
            Why::NotPrincipal => Cause::NotPrincipal,
            Why::NameTaken => Cause::NameTaken,
            Why::Crowded => Cause::Crowded,
        }
    }
}

impl Entry {
    /// The command that came from this seat, 0 to 63, for this actor, and how it was decided.
    pub(crate) fn new(seat: u64, actor: u64, command: Command, outcome: Outcome) -> Entry
        requires seat { seat < SEATS }
        requires named { IsOfCommand actor command outcome }
        ensures { result ≡ record { seat = seat; actor = actor; command = command; outcome = outcome } }
    {
        let (verdict, why, from, to) = parts(outcome, actor, &command);
        Entry {
            seat: seat as u8,
            verdict,
            why,
            from,
            to,
            actor,
            command,
        }
    }

    /// The seat, 0 to 63, from which it came.
    pub fn seat(&self) -> u64
        ensures { result ≡ self.now.seat }
    {
        u64::from(self.seat)
    }

    /// The serial of the actor for whom it was judged.
    pub fn actor(&self) -> u64
        ensures { result ≡ self.now.actor }
    {
        self.actor
    }

    /// The command.
    pub fn command(&self) -> &Command
        ensures { result.now ≡ self.now.command }
    {
        &self.command
    }

    /// How it was decided.
    pub fn outcome(&self) -> Outcome
        ensures { result ≡ self.now.outcome }
    {
        match self.verdict {
            Verdict::Allowed => Outcome::Allowed,
            Verdict::Denied(rule) => {
                let from = self.from.serial(self.actor, &self.command);
                let to = self.to.serial(self.actor, &self.command);
                Outcome::Denied(rule, self.why.of(from, to))
            }
            Verdict::Full(which) => Outcome::Full(which),
        }
    }
}
