ghost use Rattle.std.specs.Prelude.{◌≡◌};
ghost use Rattle.rules.specs.declared.call.Call.TheVariants.{Evict};
ghost use Rattle.board.specs.Called.{left, called};

use crate::board::Board;
use crate::lanes::up_lane;
use fabric::Fabric;
use rules::{Answer, Outcome, Refusal, drop_request};

impl Board {
    // An eviction of a line by a shim: it is not held any more, and the hub is told.
    pub fn evict<F: Fabric>(&mut self, fabric: &mut F, shim: u32, line: u32) -> Outcome
        ensures lender { F.Fabric.lender fabric.new ≡ F.Fabric.lender fabric.old }
        ensures rule { left result self.new (F.Fabric.model fabric.new) ≡ called self.old (F.Fabric.model fabric.old) (Evict shim line) }
    {
        let (s, x) = self.place(fabric, shim, line)?;
        self.ready(s)?;
        let held = self.state.shims[s].lines[x].ok_or(Refusal::NotHeld)?;
        if !held.settled {
            return Err(Refusal::Unsettled);
        }
        fabric.put(up_lane(s), drop_request(s as u8, x as u8))?;
        self.state.shims[s].lines[x] = None;
        Ok(Answer::Done)
    }
}
