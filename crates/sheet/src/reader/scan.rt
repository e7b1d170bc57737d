ghost use Rattle.std.specs.Prelude.{◌≡◌, ◌+◌, ◌≤◌, length, drop, Ok, OnOk};
ghost use Rattle.sheet.specs.Moves.{MovedTo};
ghost use Rattle.sheet.specs.Places.{Part};
ghost use Rattle.sheet.specs.Reading.{byte_at, wanted, line_ends, word_end, line_end};
ghost use Rattle.sheet.specs.Tokens.{TokenAt, token_end};
ghost use Rattle.words.specs.Lengths.{word_length, line_length};

use crate::reader::Reader;
use crate::token::{Token, TokenKind};
use words::{Fault, FaultKind, line_length, number, word_length};

impl<'a> Reader<'a> {
    // The byte here, where the sheet goes on.
    fn byte(&self) -> Result<u8, Fault>
        ensures { result ≡ byte_at self.now.sheet.now self.now.at }
    {
        self.sheet
            .get(self.at)
            .copied()
            .ok_or(FaultKind::NoLineFeed.at(self.sheet.len()))
    }

    // Refuses where the sheet or the line ends here, though a word is wanted.
    pub(super) fn wanted(&self) -> Result<(), Fault>
        ensures { result ≡ wanted self.now.sheet.now self.now.at }
    {
        match self.byte()? {
            b'\n' => Err(FaultKind::WordCount.at(self.at)),
            _ => Ok(()),
        }
    }

    // Goes past the line feed that is wanted here.
    pub(super) fn end_line(&mut self) -> Result<(), Fault>
        ensures value { result ≡ line_ends self.old.sheet.now self.old.at }
        ensures after { OnOk result (MovedTo self.old self.new (self.old.at + 1)) }
    {
        match self.byte()? {
            b'\n' => {
                self.at += 1;
                Ok(())
            }
            _ => Err(FaultKind::WordCount.at(self.at)),
        }
    }

    // The next `count` bytes.
    fn advance(&mut self, count: usize) -> &'a [u8]
        requires { self.old.at + count ≤ length self.old.sheet.now }
        ensures part { Part self.old.sheet result self.old.at count }
        ensures after { MovedTo self.old self.new (self.old.at + count) }
    {
        let part = &self.sheet[self.at..self.at + count];
        self.at += count;
        part
    }

    // The bytes that are left.
    fn rest(&self) -> &'a [u8]
        ensures { result.now ≡ drop self.now.at self.now.sheet.now }
    {
        &self.sheet[self.at..]
    }

    // The word that begins here.
    fn word(&mut self) -> &'a [u8]
        ensures part { Part self.old.sheet result self.old.at (word_length (drop self.old.at self.old.sheet.now)) }
        ensures after { MovedTo self.old self.new (word_end self.old.sheet.now self.old.at) }
    {
        self.advance(word_length(self.rest()))
    }

    // The rest of the line.
    pub(super) fn rest_of_line(&mut self) -> &'a [u8]
        ensures part { Part self.old.sheet result self.old.at (line_length (drop self.old.at self.old.sheet.now)) }
        ensures after { MovedTo self.old self.new (line_end self.old.sheet.now self.old.at) }
    {
        self.advance(line_length(self.rest()))
    }

    // The token that begins here.
    pub(super) fn token(&mut self) -> Result<Token<'a>, Fault>
        ensures value { TokenAt self.old.sheet self.old.at result }
        ensures after { OnOk result (MovedTo self.old self.new (token_end self.old.sheet.now self.old.at)) }
    {
        self.wanted()?;
        let place = self.at;
        let kind = if self.sheet[place] == b'#' {
            TokenKind::Note(self.rest_of_line())
        } else {
            let word = self.word();
            match number(word) {
                Some(value) => TokenKind::Number(value),
                None => TokenKind::Keyword(word),
            }
        };
        Ok(Token { place, kind })
    }
}
