//! The list of the active principals.
ghost use Rattle.std.specs.Prelude.{◌≡◌, ◌<◌, ◌≤◌, [], ◌∷◌, ◌++◌, length, IfOk, true};
ghost use Rattle.std.specs.List.{list_all};
ghost use Rattle.std.specs.List.Sorted.{IsNonDecreasingBy, IsPermutation};
ghost use Rattle.tg_graph.specs.Promise.Protection.{MayBeNamed, with_member, without_member};
ghost use Rattle.tg_graph.specs.Promise.Opening.{first_members};
ghost use Rattle.tg_graph.specs.Inner.Parts.{members_of};
ghost use Rattle.tg_rights.specs.Promise.Name.{is_name};
ghost use Rattle.tg_rights.specs.declared.limits.TheConstants.{MAX_PRINCIPALS};

use crate::member::Member;
use std::alloc::{AllocError, Global};
use std::marker::Model;
use tg_rights::{MAX_PRINCIPALS, Name, Word};

/// The active principals, seen as their list. There is room for as many as there may be.
#[derive(Drop)]
pub struct Roll {
    members: Vec<Member>,
}

impl Model for Roll {
    ghost use Rattle.std.specs.Prelude.{List, length, ◌≤◌};
    ghost use Rattle.std.specs.Vec.{vec_capacity};
    ghost use Rattle.tg_rights.specs.declared.limits.TheConstants.{MAX_PRINCIPALS};
    ghost use Rattle.tg_graph.specs.declared.member.Member.{Member};

    ghost Value = { List Member };

    ghost view = { λ a. a.members.items };

    ghost invariant = { λ a. (length a.members.items ≤ MAX_PRINCIPALS) × (MAX_PRINCIPALS ≤ vec_capacity a.members) };
}

impl Roll {
    /// No principals.
    fn new(alloc: Global) -> Result<Roll, AllocError>
        ensures { IfOk result (λ roll. roll ≡ []) }
    {
        let members = Vec::with_capacity(alloc, MAX_PRINCIPALS as usize)?;
        Ok(Roll { members })
    }

    /// Principals of these names, whose serials are counted from 1 on.
    pub(crate) fn of_names(alloc: Global, names: &[Word]) -> Result<Roll, AllocError>
        requires known { list_all is_name names.now ≡ true }
        requires few { length names.now ≤ MAX_PRINCIPALS }
        ensures { IfOk result (λ roll. roll ≡ first_members 1 names.now) }
    {
        let mut roll = Roll::new(alloc)?;
        let mut serial = 1;
        for word in names {
            let content = String::from_str(alloc, word.get())?;
            let Ok(name) = Name::new(content) else {
                unreachable!();
            };
            roll.push(Member { name, serial });
            serial += 1;
        }
        Ok(roll)
    }

    /// Principals of these names and serials, by rising serial.
    pub(crate) fn of_pairs(alloc: Global, pairs: Vec<(Name, u64)>) -> Result<Roll, AllocError>
        requires { length pairs.items ≤ MAX_PRINCIPALS }
        ensures same { IfOk result (λ roll. IsPermutation (members_of pairs.items) roll) }
        ensures rising { IfOk result (λ roll. IsNonDecreasingBy (λ m. m.serial) roll) }
    {
        let mut sorted = pairs;
        sorted.sort_unstable_by_key(|pair| pair.1);
        let mut roll = Roll::new(alloc)?;
        for pair in sorted {
            let (name, serial) = pair;
            roll.push(Member { name, serial });
        }
        Ok(roll)
    }

    /// Lends the principals, by rising serial.
    pub fn as_slice(&self) -> &[Member]
        ensures { result.now ≡ self.now }
    {
        self.members.as_slice()
    }

    /// Adds a principal at the end. Allocates nothing.
    fn push(&mut self, member: Member)
        requires { length self.old < MAX_PRINCIPALS }
        ensures { self.new ≡ self.old ++ member ∷ [] }
    {
        let Ok(()) = self.members.push(member) else {
            unreachable!();
        };
    }

    /// Adds the vertex of this serial at the end, if it is given a name. Allocates nothing.
    pub fn add(&mut self, name: Option<Name>, serial: u64)
        requires { MayBeNamed self.old name }
        ensures { self.new ≡ with_member self.old name serial }
    {
        if let Some(name) = name {
            self.push(Member { name, serial });
        }
    }

    /// Drops the principal of this serial. Allocates nothing.
    pub fn remove(&mut self, serial: u64)
        ensures { self.new ≡ without_member self.old serial }
    {
        self.members.retain(|member| member.serial != serial);
    }

    /// An equal list; `AllocError` if there is no memory for it.
    pub fn copy(&self, alloc: Global) -> Result<Roll, AllocError>
        ensures { IfOk result (λ roll. roll ≡ self.now) }
    {
        let mut copied = Roll::new(alloc)?;
        for member in &self.members {
            copied.push(Member {
                name: member.name.copy(alloc)?,
                serial: member.serial,
            });
        }
        Ok(copied)
    }
}
