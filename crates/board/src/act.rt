ghost use Rattle.std.specs.Prelude.{◌≡◌};
ghost use Rattle.board.specs.Called.{left, acted};

use crate::board::Board;
use fabric::Fabric;
use rules::{Action, Answer, Outcome};

impl Board {
    // Does what a list asks.
    pub fn act<F: Fabric>(&mut self, fabric: &mut F, action: Action) -> Outcome
        ensures lender { F.Fabric.lender fabric.new ≡ F.Fabric.lender fabric.old }
        ensures rule { left result self.new (F.Fabric.model fabric.new) ≡ acted self.old (F.Fabric.model fabric.old) action }
    {
        match action {
            Action::Call(call) => self.call(fabric, call),
            Action::Claim { shim } => self.claim(shim),
            Action::HandBack { shim } => {
                self.hand_back(shim);
                Ok(Answer::Done)
            }
        }
    }
}
