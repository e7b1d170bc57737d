ghost use Rattle.std.specs.Prelude.{◌≡◌};
ghost use Rattle.rules.specs.Words.{answer_word};

use crate::kind::Kind;
use crate::refusal::Refusal;
use fabric::Word;

// What a board answers to a call that it accepts.
#[derive(Clone, Copy, PartialEq, Eq, Debug)]
pub enum Answer {
    // The call is complete.
    Done,
    // The shim waits until a down ends the call.
    Waits,
    // The word that a load gave.
    Value(Word),
    // The store or the fence that the shim waited for has ended.
    Ended,
    // A message of this kind was performed at the hub, or handed to the shim and ended nothing.
    Handled(Kind),
}

impl Answer {
    // The word of an answer. What the answer carries stands behind it.
    pub fn word(self) -> &'static [u8]
        ensures { result.now ≡ answer_word self }
    {
        match self {
            Answer::Done => b"done",
            Answer::Waits => b"waits",
            Answer::Value(_) => b"value",
            Answer::Ended => b"ended",
            Answer::Handled(kind) => kind.word(),
        }
    }
}

// What a board says to a call.
pub type Outcome = Result<Answer, Refusal>;
