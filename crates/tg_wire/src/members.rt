//! The members of a flat object, and which of them is the last of each key.

ghost use Rattle.std.specs.Prelude.{◌≡◌, ◌∷◌, ◌++◌, [], OnSome, option_map};
ghost use Rattle.std.specs.List.{list_all};
ghost use Rattle.serde_json.specs.Find.{get};
ghost use Rattle.tg_wire.specs.Inner.Keys.{is_in_set, key_text};
ghost use Rattle.tg_wire.specs.Inner.Members.{AreInSet, LeadToLast, flat_data, plain_data};

use crate::key::{KEY_COUNT, Key};
use crate::member::{Member, Plain};
use arrayvec::ArrayVec;

/// Room for the members of a flat object, in the order of the line; a valid line has at most five.
#[derive(Drop)]
pub(crate) struct Members<'a> {
    pub(crate) list: ArrayVec<Member<'a>, 5>,
    /// For each key the number of its last member, counted from 1; 0 if there is none.
    counts: [u8; KEY_COUNT],
    /// The keys of all members.
    keys: u32,
    ghost lead: { LeadToLast counts list.items },
    ghost are_in: { AreInSet keys list.items },
}

impl<'a> Members<'a> {
    #[inline(always)]
    pub(crate) fn new() -> Members<'a>
        ensures { result.list.items ≡ [] }
    {
        Members {
            list: ArrayVec::new(),
            counts: [0; KEY_COUNT],
            keys: 0,
        }
    }

    /// Adds a member, if there is room for it.
    #[inline(always)]
    pub(crate) fn add(&mut self, member: Member<'a>) -> Option<()>
        ensures { OnSome result (self.new.list.items ≡ self.old.list.items ++ member.entry ∷ []) }
    {
        if self.list.is_full() {
            return None;
        }
        self.list.push(member);
        self.counts[member.key.place()] = self.list.len() as u8;
        self.keys |= member.key.bit();
        Some(())
    }

    /// The members, in the order of the line.
    #[inline(always)]
    pub(crate) fn as_slice(&self) -> &[Member<'a>]
        ensures { result.now ≡ self.now.list.items }
    {
        self.list.as_slice()
    }

    /// Whether the key of each is in the set.
    #[inline(always)]
    pub(crate) fn are_in(&self, set: u32) -> bool
        ensures { result ≡ list_all (λ m. is_in_set set m.key) self.now.list.items }
    {
        self.keys | set == set || self.are_all_in(set)
    }

    /// The same by a look at each.
    fn are_all_in(&self, set: u32) -> bool
        ensures { result ≡ list_all (λ m. is_in_set set m.key) self.now.list.items }
    {
        self.list
            .as_slice()
            .iter()
            .all(|member| member.key.is_in_set(set))
    }

    /// The value of the last member of that key.
    #[inline(always)]
    pub(crate) fn last(&self, key: Key) -> Option<Plain<'a>>
        ensures { option_map plain_data result ≡ get (key_text key) (flat_data self.now.list.items) }
    {
        let count = usize::from(self.counts[key.place()]);
        if count == 0 {
            return None;
        }
        Some(self.list[count - 1].value)
    }
}
