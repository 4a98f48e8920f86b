//! The list of the principals, as roots.
ghost use Rattle.std.specs.Prelude.{◌≡◌, ◌<◌, ◌≤◌, ◌==◌, [], ◌∷◌, ◌++◌, length, get_or, not, IfOk};
ghost use Rattle.std.specs.List.{filter};
ghost use Rattle.tg_rights.specs.declared.limits.TheConstants.{MAX_PRINCIPALS};
ghost use Rattle.tg_collect.specs.declared.machine.Root.{Root};

use crate::machine::Root;
use std::alloc::{AllocError, Global};
use std::marker::Model;
use tg_rights::MAX_PRINCIPALS;

/// The principals in the order in which they came, seen as their list. There is room for as many as there may be.
#[derive(Drop)]
pub(crate) struct Roster {
    roots: Vec<Root>,
}

impl Model for Roster {
    ghost use Rattle.std.specs.Prelude.{List, length, ◌≤◌};
    ghost use Rattle.std.specs.Vec.{vec_capacity};
    ghost use Rattle.tg_rights.specs.declared.limits.TheConstants.{MAX_PRINCIPALS};
    ghost use Rattle.tg_collect.specs.declared.machine.Root.{Root};

    ghost Value = { List Root };

    ghost view = { λ a. a.roots.items };

    ghost invariant = { λ a. (length a.roots.items ≤ MAX_PRINCIPALS) × (MAX_PRINCIPALS ≤ vec_capacity a.roots) };
}

impl Roster {
    /// No principals.
    pub fn new(alloc: Global) -> Result<Roster, AllocError>
        ensures { IfOk result (λ roster. roster ≡ []) }
    {
        let roots = Vec::with_capacity(alloc, MAX_PRINCIPALS as usize)?;
        Ok(Roster { roots })
    }

    /// How many there are.
    pub fn len(&self) -> usize
        ensures count { result ≡ length self.now }
        ensures few { result ≤ MAX_PRINCIPALS }
    {
        self.roots.len()
    }

    /// The principal at an index.
    pub fn at(&self, index: usize) -> Root
        requires { index < length self.now }
        ensures { result ≡ get_or self.now index result }
    {
        self.roots[index]
    }

    /// Lends the principals.
    pub fn as_slice(&self) -> &[Root]
        ensures { result.now ≡ self.now }
    {
        self.roots.as_slice()
    }

    /// Adds a principal at the end. Allocates nothing.
    pub fn push(&mut self, root: Root)
        requires { length self.old < MAX_PRINCIPALS }
        ensures { self.new ≡ self.old ++ root ∷ [] }
    {
        let Ok(()) = self.roots.push(root) else {
            unreachable!();
        };
    }

    /// Drops the principal of a serial. Allocates nothing.
    pub fn remove(&mut self, serial: u64)
        ensures { self.new ≡ filter (λ (r : Root). not (r.serial == serial)) self.old }
    {
        self.roots.retain(|root| root.serial != serial);
    }
}
