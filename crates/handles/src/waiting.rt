ghost use Rattle.std.specs.Prelude.{◌≡◌, true};
ghost use Rattle.board.specs.Called.{left, turned, once_handed_back};
ghost use Rattle.board.specs.Made.{whole};
ghost use Rattle.handles.specs.Agreement.{is_ready_handle, TurnAgrees};
ghost use Rattle.handles.specs.Handles.{after_turn};

use crate::handle::Handle;
use crate::ready::Ready;
use board::Board;
use fabric::Fabric;
use rules::{Answer, Outcome, Refusal};

// A handle for a shim that waits. It knows no more than to turn and to be handed back.
pub struct Waiting {
    pub(crate) shim: u32,
    pub(crate) spent: bool,
}

impl Drop for Waiting {
    fn drop(self)
        requires { self.spent ≡ true }
    {
        let Waiting { shim: _, spent: _ } = self;
    }
}

impl Waiting {
    // Hands the shim the first message of its down lane. The handle comes back ready where the wait has ended, or where there was none.
    pub fn turn<F: Fabric>(self, board: &mut Board, fabric: &mut F) -> (Handle, Outcome)
        ensures lender { F.Fabric.lender fabric.new ≡ F.Fabric.lender fabric.old }
        ensures rule { left result.1 board.new (F.Fabric.model fabric.new) ≡ turned board.old (F.Fabric.model fabric.old) self.shim }
        ensures handle { result.0 ≡ after_turn self result.1 }
        ensures agrees { TurnAgrees board.old self.shim (is_ready_handle result.0) board.new result.1 }
    {
        let outcome = board.turn(fabric, self.shim);
        (self.after(outcome), outcome)
    }

    // Ends the claim. The shim goes on waiting.
    pub fn hand_back(mut self, board: &mut Board)
        ensures { whole board.new ≡ once_handed_back board.old self.shim }
    {
        board.hand_back(self.shim);
        self.spent = true;
    }

    // The handle after a turn.
    fn after(self, outcome: Outcome) -> Handle
        ensures { result ≡ after_turn self outcome }
    {
        match outcome {
            Ok(Answer::Value(_) | Answer::Ended) | Err(Refusal::NotWaiting) => {
                let Waiting { shim, spent } = self;
                Handle::Ready(Ready { shim, spent })
            }
            _ => Handle::Waiting(self),
        }
    }
}
