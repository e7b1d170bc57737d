ghost use Rattle.std.specs.Prelude.{◌≡◌};
ghost use Rattle.sheet.specs.Named.{IsNamed, number_in};

use words::{Fault, FaultKind};

// What stands at a place of a sheet, which is a number of bytes from its start.
#[derive(Clone, Copy)]
pub struct Token<'a> {
    pub place: usize,
    pub kind: TokenKind<'a>,
}

#[derive(Clone, Copy)]
pub enum TokenKind<'a> {
    // a word that is no number
    Keyword(&'a [u8]),
    Number(u32),
    // a whole line
    Note(&'a [u8]),
}

impl<'a> Token<'a> {
    // What `find` finds by a keyword; no other token names anything.
    pub(crate) fn named<T: Drop, F: FnOnce(&[u8]) -> Option<T>>(self, find: F) -> Result<T, Fault>
        requires { F.IsAlwaysCallable find }
        ensures { IsNamed (λ word found. F.post find word found) self.entry.place self.entry.kind result }
    {
        match self.kind {
            TokenKind::Keyword(word) => find(word),
            TokenKind::Number(_) | TokenKind::Note(_) => None,
        }
        .ok_or(FaultKind::UnknownWord.at(self.place))
    }

    // The number that this is.
    pub(crate) fn number(self) -> Result<u32, Fault>
        ensures { result ≡ number_in self.entry.place self.entry.kind }
    {
        match self.kind {
            TokenKind::Number(value) => Ok(value),
            TokenKind::Keyword(_) | TokenKind::Note(_) => Err(FaultKind::NotANumber.at(self.place)),
        }
    }
}
