ghost use Rattle.std.specs.Prelude.{◌≡◌};
ghost use Rattle.rules.specs.declared.call.Call.TheVariants.{Fence};
ghost use Rattle.board.specs.Called.{left, called};

use crate::board::Board;
use crate::lanes::up_lane;
use fabric::Fabric;
use rules::{Access, Answer, Outcome, Refusal, Strength, Wait, fence_request};

impl Board {
    // A fence by a shim: a request goes up, and the shim waits.
    pub fn fence<F: Fabric>(&mut self, fabric: &mut F, shim: u32, strength: u8) -> Outcome
        ensures lender { F.Fabric.lender fabric.new ≡ F.Fabric.lender fabric.old }
        ensures rule { left result self.new (F.Fabric.model fabric.new) ≡ called self.old (F.Fabric.model fabric.old) (Fence shim strength) }
    {
        let s = self.shim(fabric, shim)?;
        Strength::fitting(Access::Fence, strength).ok_or(Refusal::WrongStrength)?;
        self.ready(s)?;
        fabric.put(up_lane(s), fence_request(s as u8))?;
        self.state.shims[s].wait = Some(Wait::Fence);
        Ok(Answer::Waits)
    }
}
