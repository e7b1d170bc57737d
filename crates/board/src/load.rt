ghost use Rattle.std.specs.Prelude.{◌≡◌};
ghost use Rattle.rules.specs.declared.call.Call.TheVariants.{Load};
ghost use Rattle.board.specs.Called.{left, called};

use crate::board::Board;
use crate::lanes::up_lane;
use fabric::Fabric;
use rules::{Access, Answer, Outcome, Refusal, Strength, Wait, load_request};

impl Board {
    // A load by a shim of a line: a held line answers its copy; otherwise a request goes up, and the shim waits.
    pub fn load<F: Fabric>(&mut self, fabric: &mut F, shim: u32, line: u32, strength: u8) -> Outcome
        ensures lender { F.Fabric.lender fabric.new ≡ F.Fabric.lender fabric.old }
        ensures rule { left result self.new (F.Fabric.model fabric.new) ≡ called self.old (F.Fabric.model fabric.old) (Load shim line strength) }
    {
        let (s, x) = self.place(fabric, shim, line)?;
        let strength = Strength::fitting(Access::Load, strength).ok_or(Refusal::WrongStrength)?;
        self.ready(s)?;
        if let Some(held) = self.state.shims[s].lines[x] {
            return Ok(Answer::Value(held.copy));
        }
        fabric.put(up_lane(s), load_request(s as u8, x as u8, strength))?;
        self.state.shims[s].wait = Some(Wait::Load(x as u8));
        Ok(Answer::Waits)
    }
}
