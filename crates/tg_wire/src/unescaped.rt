//! Texts that a line has as they stand.

ghost use Rattle.std.specs.Prelude.{◌≡◌};
ghost use Rattle.tg_rights.specs.Promise.Escapes.{NeedsNoEscape};

/// A text of which no byte needs an escape.
#[derive(Clone, Copy, Drop)]
pub(crate) struct Unescaped<'a> {
    text: &'a str,
    ghost plain: { NeedsNoEscape text.now },
}

impl<'a> Unescaped<'a> {
    #[inline(always)]
    pub(crate) fn new(text: &'a str) -> Unescaped<'a>
        requires { NeedsNoEscape text.now }
        ensures { result.text.now ≡ text.now }
    {
        Unescaped { text }
    }

    #[inline(always)]
    pub(crate) fn get(self) -> &'a str
        ensures bytes { result.now ≡ self.entry.text.now }
        ensures plain { NeedsNoEscape result.now }
    {
        self.text
    }
}
