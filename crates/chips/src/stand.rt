use board::Board;
use ring::Ring;
use rules::{Call, Outcome, Refusal};
use std::process::Abort;

pub(crate) const SHIMS: u32 = 2;

// There are more lines than shims, so that the bound of the one does not stand for that of the other.
pub(crate) const LINES: u32 = 3;

// A board and the ring that it stands on.
#[derive(Drop)]
pub(crate) struct Stand {
    pub(crate) board: Board,
    pub(crate) ring: Ring,
}

impl Stand {
    // A stand of so many shims.
    pub(crate) fn new(shims: u32) -> Result<Stand, Refusal> {
        let ring = Ring::new(shims as usize);
        let board = Board::new(&ring, shims, LINES)?;
        Ok(Stand { board, ring })
    }

    // A stand on which these calls were made, and none of them refused.
    pub(crate) fn after(calls: &[Call]) -> Result<Stand, Refusal> {
        let mut stand = Stand::new(SHIMS)?;
        for call in calls {
            stand.call(*call)?;
        }
        Ok(stand)
    }

    // Makes these calls and asserts that none is refused: a test that holds a handle cannot leave by `?`.
    pub(crate) fn accepts(&mut self, rt: &impl Abort, calls: &[Call]) {
        for call in calls {
            let outcome = self.call(*call);
            assert!(rt; outcome.is_ok(), "{outcome:?}");
        }
    }

    pub(crate) fn call(&mut self, call: Call) -> Outcome {
        self.board.call(&mut self.ring, call)
    }
}
