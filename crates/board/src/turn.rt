ghost use Rattle.std.specs.Prelude.{◌≡◌};
ghost use Rattle.board.specs.Called.{left, turned};

use crate::board::Board;
use fabric::Fabric;
use rules::{Outcome, Refusal};

impl Board {
    // A down at a shim that waits.
    pub fn turn<F: Fabric>(&mut self, fabric: &mut F, shim: u32) -> Outcome
        ensures lender { F.Fabric.lender fabric.new ≡ F.Fabric.lender fabric.old }
        ensures rule { left result self.new (F.Fabric.model fabric.new) ≡ turned self.old (F.Fabric.model fabric.old) shim }
    {
        let s = self.numbered(shim)?;
        match self.state.shims[s].wait {
            None => Err(Refusal::NotWaiting),
            Some(_) => self.down(fabric, shim),
        }
    }
}
