ghost use Rattle.std.specs.Prelude.{◌≡◌};
ghost use Rattle.board.specs.Called.{once_handed_back};
ghost use Rattle.board.specs.Made.{whole};
ghost use Rattle.handles.specs.Handles.{handle_shim};

use crate::ready::Ready;
use crate::waiting::Waiting;
use board::Board;

// A handle as a call gives it back.
pub enum Handle {
    Ready(Ready),
    Waiting(Waiting),
}

impl Handle {
    // Ends the claim, whichever handle it is.
    pub fn hand_back(self, board: &mut Board)
        ensures { whole board.new ≡ once_handed_back board.old (handle_shim self) }
    {
        match self {
            Handle::Ready(ready) => ready.hand_back(board),
            Handle::Waiting(waiting) => waiting.hand_back(board),
        }
    }
}
