ghost use Rattle.std.specs.Prelude.{◌≡◌, ◌+◌, ◌<◌, Ok, OnOk, slice_index};
ghost use Rattle.sheet.specs.Moves.{MovedTo};
ghost use Rattle.sheet.specs.Reading.{followed_by, keyword_at, word_end, a_number, a_strength, a_fabric, operand_at, operand_end, fabric_named};
ghost use Rattle.sheet.specs.Tokens.{NextToken, token_end};

use crate::line::FabricName;
use crate::names::{fabric_named, strength_named};
use crate::reader::Reader;
use crate::token::{Token, TokenKind};
use words::{Fault, FaultKind};

impl<'a> Reader<'a> {
    // Goes past the word `name`, which is wanted here.
    pub(super) fn keyword(&mut self, name: &[u8]) -> Result<(), Fault>
        requires { 57 < slice_index name.now 0 }
        ensures value { result ≡ keyword_at name.now self.old.sheet.now self.old.at }
        ensures after { OnOk result (MovedTo self.old self.new (word_end self.old.sheet.now self.old.at)) }
    {
        let token = self.token()?;
        match token.kind {
            TokenKind::Keyword(word) if word == name => Ok(()),
            _ => Err(FaultKind::UnknownWord.at(token.place)),
        }
    }

    // The token after the word that ends here: one space parts the two.
    fn operand(&mut self) -> Result<Token<'a>, Fault>
        ensures value { NextToken self.old.sheet self.old.at result }
        ensures after { OnOk result (MovedTo self.old self.new (token_end self.old.sheet.now (self.old.at + 1))) }
    {
        self.wanted()?;
        self.at += 1;
        self.token()
    }

    // The number that is wanted next.
    pub(super) fn number(&mut self) -> Result<u32, Fault>
        ensures value { result ≡ operand_at a_number self.old.sheet.now self.old.at }
        ensures after { OnOk result (MovedTo self.old self.new (operand_end self.old.sheet.now self.old.at)) }
    {
        self.operand()?.number()
    }

    // The strength that is wanted next, by its number, which is what a call carries.
    pub(super) fn strength(&mut self) -> Result<u8, Fault>
        ensures value { result ≡ operand_at a_strength self.old.sheet.now self.old.at }
        ensures after { OnOk result (MovedTo self.old self.new (operand_end self.old.sheet.now self.old.at)) }
    {
        let strength = self.operand()?.named(strength_named)?;
        Ok(u8::from(strength))
    }

    // The fabric that is wanted next.
    pub(super) fn fabric(&mut self) -> Result<FabricName, Fault>
        ensures value { result ≡ followed_by (operand_at a_fabric self.old.sheet.now self.old.at) (λ k. Ok (fabric_named k)) }
        ensures after { OnOk result (MovedTo self.old self.new (operand_end self.old.sheet.now self.old.at)) }
    {
        self.operand()?.named(fabric_named)
    }
}
