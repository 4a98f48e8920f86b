//! Rights as they are written, by the letters r (read), w (write), t (take) and g (grant).
ghost use Rattle.std.specs.Prelude.{◌≡◌, ◌==◌, Some, count_by};
ghost use Rattle.std.specs.Fmt.{padded};
ghost use Rattle.std.specs.List.{list_all};
ghost use Rattle.std.specs.Result.{result_ok};
ghost use Rattle.tg_rights.specs.Promise.Written as texts;

use crate::rights::Rights;
use std::error::Error;
use std::fmt;
use std::str::FromStr;

/// The error for a text that does not spell rights: it has a byte that is none of the letters, or a letter twice.
#[derive(Clone, Copy, PartialEq, Eq, Debug)]
pub struct NotRights;

impl fmt::Display for NotRights {
    fn fmt<W: fmt::Write>(&self, f: &mut fmt::Formatter<W>) -> fmt::Result {
        f.write_str("rights are the letters r, w, t and g, each at most once")
    }
}

impl Error for NotRights {}

/// Reads the letters, each at most once and in any order; no letters are no rights.
impl FromStr for Rights {
    type Err = NotRights;

    ghost from_str_gives = { λ text r. result_ok r ≡ texts.rights_of text };

    fn from_str(text: &str) -> Result<Rights, NotRights> {
        let letters = text.as_bytes();
        if are_rights(letters) {
            Ok(rights_named(letters))
        } else {
            Err(NotRights)
        }
    }
}

fn are_rights(text: &[u8]) -> bool
    ensures { result ≡ texts.are_rights text.now }
{
    are_letters(text)
        && count(text, b'r') <= 1
        && count(text, b'w') <= 1
        && count(text, b't') <= 1
        && count(text, b'g') <= 1
}

fn are_letters(text: &[u8]) -> bool
    ensures { result ≡ list_all texts.is_letter text.now }
{
    text.iter()
        .all(|c| *c == b'r' || *c == b'w' || *c == b't' || *c == b'g')
}

fn count(text: &[u8], letter: u8) -> usize
    ensures { result ≡ count_by (λ c. c == letter) text.now }
{
    text.iter().filter(|c| **c == letter).count()
}

fn rights_named(text: &[u8]) -> Rights
    ensures { result ≡ texts.rights_named text.now }
{
    let mut rights = Rights::empty();
    if has_letter(text, b'r') {
        rights = rights.union(Rights::read());
    }
    if has_letter(text, b'w') {
        rights = rights.union(Rights::write());
    }
    if has_letter(text, b't') {
        rights = rights.union(Rights::take());
    }
    if has_letter(text, b'g') {
        rights = rights.union(Rights::grant());
    }
    rights
}

fn has_letter(text: &[u8], letter: u8) -> bool
    ensures { result ≡ texts.has_letter letter text.now }
{
    text.iter().any(|c| *c == letter)
}

impl Rights {
    /// The letters of the rights, in the order r, w, t, g.
    pub fn letters(self) -> &'static str
        ensures { result.now ≡ texts.rights_text self }
    {
        let read = self.contains(Rights::read());
        let write = self.contains(Rights::write());
        let take = self.contains(Rights::take());
        let grant = self.contains(Rights::grant());
        match (read, write, take, grant) {
            (false, false, false, false) => "",
            (false, false, false, true) => "g",
            (false, false, true, false) => "t",
            (false, false, true, true) => "tg",
            (false, true, false, false) => "w",
            (false, true, false, true) => "wg",
            (false, true, true, false) => "wt",
            (false, true, true, true) => "wtg",
            (true, false, false, false) => "r",
            (true, false, false, true) => "rg",
            (true, false, true, false) => "rt",
            (true, false, true, true) => "rtg",
            (true, true, false, false) => "rw",
            (true, true, false, true) => "rwg",
            (true, true, true, false) => "rwt",
            (true, true, true, true) => "rwtg",
        }
    }
}

/// Writes the letters.
impl fmt::Display for Rights {
    ghost output = { λ rights. Some (texts.rights_text rights) };

    ghost styled_output = { λ rights spec. Some (padded spec (texts.rights_text rights)) };

    fn fmt<W: fmt::Write>(&self, f: &mut fmt::Formatter<W>) -> fmt::Result {
        f.pad(self.letters())
    }
}
