//! The names of principals.
ghost use Rattle.std.specs.Prelude.{◌≡◌, ◌&&◌, ◌↔◌, true, nat_le, IsOk, IfOk, IfErr, IsTrue};
ghost use Rattle.std.specs.List.{list_all};
ghost use Rattle.std.specs.String.{string_bytes};
ghost use Rattle.tg_rights.specs.Promise.Name.{is_name};

use std::alloc::{AllocError, Global};
use std::marker::Model;

/// The greatest number of bytes in a name.
pub const MAX_NAME: usize = 32;

/// The name of a principal: 1 to 32 bytes of a to z, seen as the list of its bytes.
#[derive(Clone, Debug, Drop)]
pub struct Name {
    content: String,
}

impl Model for Name {
    ghost use Rattle.std.specs.Prelude.{List, ℕ, IsTrue};
    ghost use Rattle.std.specs.String.{string_bytes};
    ghost use Rattle.tg_rights.specs.Promise.Name.{is_name};

    ghost Value = { List ℕ };

    ghost view = { λ a. string_bytes a.content };

    ghost invariant = { λ a. IsTrue (is_name (string_bytes a.content)) };
}

/// A string that is not a name.
#[derive(Debug, Drop)]
pub struct BadName {
    /// The string that was passed in.
    pub content: String,
}

/// Names are equal if their bytes are.
impl PartialEq for Name {
    ghost use Rattle.std.specs.Prelude.{◌==◌};
    ghost use Rattle.std.specs.Cmp.Lexicographic.{pointwise, nat_list_eq_equiv};
    ghost use Rattle.std.specs.Cmp.{partial_equiv_from_equiv};

    ghost eq = { pointwise ◌==◌ };

    ghost laws = { partial_equiv_from_equiv nat_list_eq_equiv };

    fn eq(&self, other: &Name) -> bool {
        self.get() == other.get()
    }
}

impl Eq for Name {
    ghost use Rattle.std.specs.Cmp.Lexicographic.{nat_list_eq_equiv};

    ghost laws = { nat_list_eq_equiv };
}

/// Whether all bytes are letters a to z.
fn are_letters(bytes: &[u8]) -> bool
    ensures { result ≡ list_all (λ b. nat_le 97 b && nat_le b 122) bytes.now }
{
    bytes.iter().all(|b| 97 <= *b && *b <= 122)
}

/// Whether a text is a name: whether it has 1 to 32 bytes of a to z.
pub fn is_name(text: &str) -> bool
    ensures { result ≡ is_name text.now }
{
    let bytes = text.as_bytes();
    let small = 1 <= bytes.len() && bytes.len() <= MAX_NAME;
    let letters = are_letters(bytes);
    small && letters
}

impl Name {
    /// The string as a name; `BadName` gives it back exactly if it is not one. Allocates nothing.
    pub fn new(content: String) -> Result<Name, BadName>
        ensures known { IsOk result ↔ IsTrue (is_name (string_bytes content)) }
        ensures ok { IfOk result (λ name. name ≡ string_bytes content) }
        ensures err { IfErr result (λ e. e.content ≡ content) }
    {
        if is_name(content.as_str()) {
            Ok(Name { content })
        } else {
            Err(BadName { content })
        }
    }

    /// Lends the name as a string.
    pub fn get(&self) -> &str
        ensures bytes { result.now ≡ self.now }
        ensures known { IsTrue (is_name self.now) }
    {
        self.content.as_str()
    }

    /// An equal name; `AllocError` if there is no memory for it.
    pub fn copy(&self, alloc: Global) -> Result<Name, AllocError>
        ensures { IfOk result (λ name. name ≡ self.now) }
    {
        let content = String::from_str(alloc, self.get())?;
        Ok(Name { content })
    }
}
