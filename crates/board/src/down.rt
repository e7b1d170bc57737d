ghost use Rattle.std.specs.Prelude.{◌≡◌, ◌<◌};
ghost use Rattle.rules.specs.declared.call.Call.TheVariants.{Down};
ghost use Rattle.rules.specs.Sizes.{line_limit};
ghost use Rattle.board.specs.Called.{left, called};
ghost use Rattle.board.specs.Heard.{hearing, heard};

use crate::board::Board;
use crate::lanes::down_lane;
use effects::deliver;
use fabric::{Fabric, Message};
use rules::{Answer, Outcome, Refusal, Shim};

impl Board {
    // Hands the first message of a shim's down lane to the shim.
    pub fn down<F: Fabric>(&mut self, fabric: &mut F, shim: u32) -> Outcome
        ensures lender { F.Fabric.lender fabric.new ≡ F.Fabric.lender fabric.old }
        ensures rule { left result self.new (F.Fabric.model fabric.new) ≡ called self.old (F.Fabric.model fabric.old) (Down shim) }
    {
        let s = shim as usize;
        let lane = down_lane(s);
        let msg = self.first(fabric, shim, lane)?;
        let x = msg.line as usize;
        let foreign = Refusal::Foreign(lane);
        if x >= self.size.lines || msg.sender as usize >= self.size.shims {
            return Err(foreign);
        }
        let answer = hear(&mut self.state.shims[s], msg).ok_or(foreign)?;
        // Never refused: the message is still the first of its lane.
        let _ = fabric.take(lane);
        Ok(answer)
    }
}

// Hands a message to a shim, and answers; none, and no change, where it is foreign.
fn hear(shim: &mut Shim, msg: Message) -> Option<Answer>
    requires { msg.line < line_limit }
    ensures { hearing result shim.new ≡ heard shim.old msg }
{
    deliver(&mut shim.wait, &mut shim.lines[msg.line as usize], msg)
}
