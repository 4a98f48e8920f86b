//! What happens between two holds of the lock.
use std::rt::Clock;
use std::sync::Wait;
use tg_rights::{Command, Reply};

/// Where a call pauses.
#[derive(Clone, Copy, PartialEq, Eq, Debug)]
pub enum Place {
    /// A command has been entered; its target, if it has one, is not yet shaded.
    AfterStore,
    /// The collector has made a step, and will make another.
    BetweenSteps,
}

/// What is done at a pause. The lock is free, and any other call may take it.
pub trait Gate {
    /// Called between two holds of the lock, at this place. It may wait; a talk returns only if this call does.
    fn pause<R: Wait + Clock>(&self, rt: &R, place: Place);

    /// Called with the reply to a command that was entered, after its pause, when its target is not yet shaded. Does
    /// nothing unless a gate says otherwise.
    fn after_entry<R: Wait + Clock>(&self, _rt: &R, _command: &Command, _reply: &Reply) {}
}

/// A gate that lets everyone pass.
#[derive(Clone, Copy, PartialEq, Eq, Debug)]
pub struct Open;

impl Gate for Open {
    fn pause<R: Wait + Clock>(&self, _rt: &R, _place: Place) {}
}
