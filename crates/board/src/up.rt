ghost use Rattle.std.specs.Prelude.{◌≡◌, ◌*◌, ◌<◌, true, ◌&&◌, length, is_some, MatchOption, IfOk};
ghost use Rattle.fabric.specs.Lanes.{shim_limit, is_full};
ghost use Rattle.rules.specs.Refusals.{passing};
ghost use Rattle.rules.specs.State.{down_lane};
ghost use Rattle.rules.specs.Up.{sent_by, send_all, full_lanes, foreign_up};
ghost use Rattle.board.specs.Room.{HasRoom};
ghost use Rattle.board.specs.Upward.{Upward};
ghost use Rattle.rules.specs.declared.call.Call.TheVariants.{Up};
ghost use Rattle.board.specs.Called.{left, called};

use crate::board::Board;
use crate::lanes::{down_lane, up_lane};
use effects::Request;
use fabric::{Fabric, FabricFault, Message};
use rules::{Answer, Outcome, Refusal};

impl Board {
    // The hub performs the first message of a shim's up lane.
    pub fn up<F: Fabric>(&mut self, fabric: &mut F, shim: u32) -> Outcome
        ensures lender { F.Fabric.lender fabric.new ≡ F.Fabric.lender fabric.old }
        ensures rule { left result self.new (F.Fabric.model fabric.new) ≡ called self.old (F.Fabric.model fabric.old) (Up shim) }
    {
        let lane = up_lane(shim as usize);
        let msg = self.first(fabric, shim, lane)?;
        let Some(request) = self.request(shim, msg) else {
            return Err(Refusal::Foreign(lane));
        };
        self.room(fabric, request)?;
        // Never refused: the message is still the first of its lane.
        let _ = fabric.take(lane);
        self.send(fabric, request);
        let kind = request.kind;
        self.state.hub[msg.line as usize] = request.performed();
        Ok(Answer::Handled(kind))
    }

    // What a message on a shim's up lane asks of the hub; none where it is foreign.
    fn request(&self, shim: u32, msg: Message) -> Option<Request<'_>>
        ensures { MatchOption result (foreign_up self.now.size self.now.state shim msg ≡ true) (λ r. Upward self.now.size self.now.state shim msg r.msg r.kind r.hub.now) }
    {
        let x = msg.line as usize;
        if x >= self.size.lines || msg.sender as u32 != shim {
            return None;
        }
        Request::of(&self.state.hub[x], msg)
    }

    // Refuses where a lane is full that a shim is to be sent something on.
    fn room<F: Fabric>(&self, fabric: &F, request: Request<'_>) -> Result<(), Refusal>
        ensures rule { result ≡ passing (full_lanes (λ j. sent_by request.entry.hub.now request.entry.msg j request.entry.kind) (F.Fabric.model fabric.now).lanes self.now.size.shims) tt }
        ensures room { IfOk result (λ _. HasRoom (λ j. sent_by request.entry.hub.now request.entry.msg j request.entry.kind) (F.Fabric.model fabric.now).lanes self.now.size.shims) }
    {
        match (0..self.size.shims).find(|&shim| is_blocked(fabric, request, shim)) {
            Some(shim) => Err(FabricFault::Full(down_lane(shim)).into()),
            None => Ok(()),
        }
    }

    // Sends each shim what it is to be sent. There is room for it, so no put is refused. A loop and no chain: each turn changes the fabric.
    fn send<F: Fabric>(&self, fabric: &mut F, request: Request<'_>)
        requires lanes { length (F.Fabric.model fabric.old).lanes ≡ 2 * self.now.size.shims }
        requires room { HasRoom (λ j. sent_by request.hub.now request.msg j request.kind) (F.Fabric.model fabric.old).lanes self.now.size.shims }
        ensures lender { F.Fabric.lender fabric.new ≡ F.Fabric.lender fabric.old }
        ensures sent { F.Fabric.model fabric.new ≡ send_all F.Fabric.backing (λ j. sent_by request.entry.hub.now request.entry.msg j request.entry.kind) (F.Fabric.model fabric.old) self.now.size.shims }
    {
        for shim in 0..self.size.shims {
            if let Some(answer) = request.reply(shim) {
                let _ = fabric.put(down_lane(shim), answer);
            }
        }
    }
}

// Whether a shim is to be sent something and its lane is full.
fn is_blocked<F: Fabric>(fabric: &F, request: Request<'_>, shim: usize) -> bool
    requires { shim < shim_limit }
    ensures { result ≡ (is_some (sent_by request.entry.hub.now request.entry.msg shim request.entry.kind) && is_full (F.Fabric.model fabric.now).lanes (down_lane shim)) }
{
    let lane = down_lane(shim);
    fabric.waiting(lane) >= fabric.capacity(lane) && request.reply(shim).is_some()
}
