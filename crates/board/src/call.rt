ghost use Rattle.std.specs.Prelude.{◌≡◌};
ghost use Rattle.board.specs.Called.{left, called};

use crate::board::Board;
use fabric::Fabric;
use rules::{Call, Outcome};

impl Board {
    // Makes a call on the board.
    pub fn call<F: Fabric>(&mut self, fabric: &mut F, call: Call) -> Outcome
        ensures lender { F.Fabric.lender fabric.new ≡ F.Fabric.lender fabric.old }
        ensures rule { left result self.new (F.Fabric.model fabric.new) ≡ called self.old (F.Fabric.model fabric.old) call }
    {
        match call {
            Call::Load {
                shim,
                line,
                strength,
            } => self.load(fabric, shim, line, strength),
            Call::Store {
                shim,
                line,
                strength,
                value,
            } => self.store(fabric, shim, line, strength, value),
            Call::Fence { shim, strength } => self.fence(fabric, shim, strength),
            Call::Evict { shim, line } => self.evict(fabric, shim, line),
            Call::Up { shim } => self.up(fabric, shim),
            Call::Down { shim } => self.down(fabric, shim),
        }
    }
}
